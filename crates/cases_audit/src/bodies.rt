use crate::fixtures::{field, shown, word};
use case_rows::bytes_of;
use stage_event::{Kept, kept};
use std::alloc::Global;
use std::io;

// What is kept of a text that stands so often.
fn kept_of(alloc: Global, times: usize, text: &[u8], omit: bool) -> Option<Kept> {
    match text.repeat(alloc, times) {
        Ok(body) => kept(alloc, body.as_slice(), omit).ok(),
        Err(_) => None,
    }
}

/// What is kept of a body: a row has how often a text stands in it, `omit` where managed fields are omitted, and
/// the text.
pub fn show_body(rt: &HostRuntime, row: &str) -> io::Result<()> {
    let alloc = rt.alloc();
    let times = word(row, 0).parse().unwrap_or(0);
    let text = bytes_of(alloc, field(row, 1));
    let omit = word(row, 1) == "omit";
    match kept_of(alloc, times, text.as_slice(), omit) {
        Some(Kept::Compact(text)) => println!(rt; "  Compact {}", shown(text.as_slice())),
        Some(other) => println!(rt; "  {other:?}"),
        None => println!(rt; "  out of memory"),
    }
}
