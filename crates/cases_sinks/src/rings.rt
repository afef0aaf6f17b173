// The buffer of one bay.
use crate::words::{add_offer, add_pop, line, number_in};
use bounded_buffer::{RingLane, ring};
use case_rows::fields;
use std::alloc::Global;
use truncate_backend::Lane;

fn add_steps(alloc: Global, out: &mut String, ring: &mut RingLane, steps: &str) {
    for step in steps.split(' ') {
        match step {
            "pop" => add_pop(out, ring),
            text => add_offer(out, ring.offer(line(alloc, 0, text))),
        }
    }
}

/// What steps on a ring answer. A row has its capacity, for how many lines and bytes it has room to copy, and the steps: a pop, or
/// the line that is offered.
pub fn show_ring(alloc: Global, out: &mut String, row: &str) {
    let (capacity, rest) = fields(row);
    let (lines, rest) = fields(rest);
    let (bytes, steps) = fields(rest);
    let capacity = u32::try_from(number_in(capacity)).unwrap_or(1).max(1);
    let lines = u32::try_from(number_in(lines)).unwrap_or(0);
    if let Ok(mut held) = ring(alloc, capacity, lines, number_in(bytes)) {
        add_steps(alloc, out, &mut held, steps);
        drop(held);
    }
}
