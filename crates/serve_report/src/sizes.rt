// Whether events can be too large.
use audit_core::Settings;
use request_bounds::line_limit;
use std::alloc::{AllocError, Global};

/// A line where an event can be left out for its length: `--max-event-size` is less than what `line_limit` asks for the token
/// file. Else nothing.
pub fn size_warning(alloc: Global, settings: &Settings) -> Result<String, AllocError> {
    let (max, limit) = (settings.max_event, line_limit(settings.tokens.records()));
    if limit <= max {
        return Ok(String::new(alloc));
    }
    format!(in alloc;
        "apiaggd: warning: --max-event-size={max}: lines without objects can have up to {limit} bytes: events with longer ones than {max} are left out\n"
    )
}
