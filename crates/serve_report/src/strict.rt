// Which requests a strict sink doesn't stop.
use audit_core::SinkMode;
use front_base::Level;
use policy_rules::{Policy, Rule};
use serve_config::ServeWords;
use std::alloc::{AllocError, Global};

fn is_strict(mode: SinkMode) -> bool {
    match mode {
        SinkMode::Strict => true,
        SinkMode::Off | SinkMode::Batch | SinkMode::Blocking => false,
    }
}

// Whether requests that this rule decides on are recorded, but not when they arrive.
fn leaves_arrivals_out(policy: &Policy, rule: &Rule) -> bool {
    match rule.level {
        Level::None => false,
        Level::Metadata | Level::Request | Level::RequestResponse => {
            policy.omit.received || rule.omit.received
        }
    }
}

/// A line for each rule of the policy whose requests a strict sink doesn't stop: they are recorded, but their arrival isn't, and so
/// they go on where no event can be written. Empty where no sink is strict.
pub fn strict_warnings(
    alloc: Global,
    words: &ServeWords,
    policy: &Policy,
) -> Result<String, AllocError> {
    let mut text = String::new(alloc);
    if !is_strict(words.log.mode) && !is_strict(words.webhook.mode) {
        return Ok(text);
    }
    for (place, rule) in policy.rules.as_slice().iter().enumerate() {
        if leaves_arrivals_out(policy, rule) {
            let line = format!(in alloc;
                "apiaggd: warning: blocking-strict: rules[{place}] leaves out RequestReceived: its requests go on where no event can be written\n"
            )?;
            text.push_str(line.as_str())?;
        }
    }
    Ok(text)
}
