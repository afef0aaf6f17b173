// How connections ended, in words that say who did it.
use bay_runs::EndCounts;
use serve_roles::BayEnd;
use std::alloc::{AllocError, Global};

const ENDS: usize = 13;

fn words_of(place: usize) -> &'static str {
    match place {
        0 => "ended between two requests, by the client or for idleness",
        1 => "closed as the client asked",
        2 => "refused with 400: bad head",
        3 => "refused with 431: head too large",
        4 => "refused with 400: bad framing",
        5 => "refused with 413: body too large",
        6 => "ended by the client within a request",
        7 => "broken, or too slow, within a request",
        8 => "broken, or too slow, within a reply",
        9 => "cut within a stream, by the backend, the client or the end of the run",
        10 => "cut within a stream of 2^63 bytes",
        11 => "refused: no audit ID left",
        _ => "ended by lack of memory",
    }
}

fn count_of(counts: &EndCounts, place: usize) -> u64 {
    match place {
        0 => counts.ended,
        1 => counts.asked,
        2 => counts.bad_head,
        3 => counts.head_too_large,
        4 => counts.bad_framing,
        5 => counts.body_too_large,
        6 => counts.cut_short,
        7 => counts.read_fault,
        8 => counts.write_fault,
        9 => counts.backend_cut,
        10 => counts.stream_spent,
        11 => counts.numbers_spent,
        _ => counts.no_memory,
    }
}

/// How many connections of all bays ended in each way that one did, a line each.
pub fn ends_text<R, L, K, Y, D>(
    alloc: Global,
    bays: &[BayEnd<R, L, K, Y, D>],
) -> Result<String, AllocError> {
    let mut text = String::new(alloc);
    for place in 0..ENDS {
        let mut sum = 0u64;
        for bay in bays {
            sum = sum.saturating_add(count_of(&bay.counts, place));
        }
        if sum > 0 {
            let words = words_of(place);
            let line = format!(in alloc; "apiaggd:   {sum} {words}\n")?;
            text.push_str(line.as_str())?;
        }
    }
    Ok(text)
}
