// What a run would open, in the words that ask for it.
use front_base::Address;
use serve_config::SinkWords;
use std::alloc::Global;

/// The path or the URL of a sink, and `none` without one.
pub fn target(sink: &SinkWords) -> &str {
    match &sink.target {
        Some(target) => target.as_str(),
        None => "none",
    }
}

/// The option with the address that is listened at. None where memory runs out.
pub fn address_text(alloc: Global, at: Address) -> Option<String> {
    let [a, b, c, d] = at.ip;
    let port = at.port;
    format!(in alloc; "--listen={a}.{b}.{c}.{d}:{port}").ok()
}
