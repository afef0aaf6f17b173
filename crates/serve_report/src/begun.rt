// What a run of `serve` begins with.
use audit_core::SinkMode;
use front_base::Address;
use serve_config::{ServeWords, SinkWords};
use std::alloc::{AllocError, Global};

fn mode_word(mode: SinkMode) -> &'static str {
    match mode {
        SinkMode::Off => "off",
        SinkMode::Batch => "batch",
        SinkMode::Blocking => "blocking",
        SinkMode::Strict => "blocking-strict",
    }
}

fn target(sink: &SinkWords) -> &str {
    match &sink.target {
        Some(target) => target.as_str(),
        None => "none",
    }
}

fn push_sink(
    alloc: Global,
    name: &str,
    sink: &SinkWords,
    text: &mut String,
) -> Result<(), AllocError> {
    let (to, mode) = (target(sink), mode_word(sink.mode));
    let line = format!(in alloc; "apiaggd: audit {name}: {to} ({mode})\n")?;
    text.push_str(line.as_str())
}

/// Where it serves, by how many bays, with how many APIServices, and where audit events go: three lines.
pub fn begun_text(
    alloc: Global,
    words: &ServeWords,
    at: Address,
    services: usize,
) -> Result<String, AllocError> {
    let [a, b, c, d] = at.ip;
    let (port, bays) = (at.port, words.bays);
    let mut text = format!(in alloc;
        "apiaggd: serving on http://{a}.{b}.{c}.{d}:{port}, {bays} bays, {services} APIServices\n"
    )?;
    push_sink(alloc, "log", &words.log, &mut text)?;
    push_sink(alloc, "webhook", &words.webhook, &mut text)?;
    Ok(text)
}
