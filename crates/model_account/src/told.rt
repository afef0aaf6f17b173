// Whether a core's state is as the second account has it, as far as that goes.
use crate::going::{Bay, Going};
use crate::model::Model;
use front_base::Line;
use model_worlds::{Items, Open, SinkState, State};

fn is_line(line: &Line, told: (u16, u64)) -> bool {
    line.bay == told.0 && line.number == told.1
}

fn are_lines(lines: &[Line], told: &[(u16, u64)]) -> bool {
    for (line, own) in lines.iter().zip(told) {
        if !is_line(line, *own) {
            return false;
        }
    }
    lines.len() == told.len()
}

fn have_lengths(lines: &[Line], lengths: &[u64]) -> bool {
    for (line, length) in lines.iter().zip(lengths) {
        if line.bytes.as_slice().len() as u64 != *length {
            return false;
        }
    }
    lines.len() == lengths.len()
}

fn is_open(open: &Open, going: Going) -> bool {
    let phase = open.phase;
    open.exchange.seen == going.seen
        && phase.found == going.found
        && phase.failed == going.failed
        && phase.decided == going.decided
        && phase.started == going.started
        && phase.finished == going.finished
        && phase.last.micros() == going.last
        && open.waiting.as_slice().len() as u64 == u64::from(going.waits)
}

fn is_current(current: &Option<Open>, going: Option<Going>) -> bool {
    match (current, going) {
        (None, None) => true,
        (Some(open), Some(own)) => is_open(open, own),
        (None, Some(_)) | (Some(_), None) => false,
    }
}

// Those that are over, and the one that isn't.
fn requests_of(bay: &model_worlds::Bay) -> u64 {
    let over = bay.closed.as_slice().len() as u64;
    match bay.current {
        Some(_) => over.wrapping_add(1),
        None => over,
    }
}

fn is_bay(bay: &model_worlds::Bay, told: &Bay) -> bool {
    bay.seen == told.seen
        && bay.number == told.requests
        && requests_of(bay) == told.requests
        && is_current(&bay.current, told.going)
}

fn are_bays(bays: &[model_worlds::Bay], told: &[Bay]) -> bool {
    for (bay, own) in bays.iter().zip(told) {
        if !is_bay(bay, own) {
            return false;
        }
    }
    bays.len() == told.len()
}

fn count_of<T>(lanes: &[Items<T>], bay: usize) -> u64 {
    match lanes.get(bay) {
        Some(lane) => lane.as_slice().len() as u64,
        None => 0,
    }
}

// The lines that a bay offered to a buffer, which took them or had no room for them.
fn offered_to(sink: &SinkState, bay: usize) -> u64 {
    let fulls = match sink.fulls.as_slice().get(bay) {
        Some(count) => *count,
        None => 0,
    };
    count_of(sink.accepted.as_slice(), bay).wrapping_add(fulls)
}

fn are_offered(log: &SinkState, hook: &SinkState, told: &[Bay]) -> bool {
    for (place, own) in told.iter().enumerate() {
        let posts = count_of(hook.own_tries.as_slice(), place);
        if offered_to(log, place) != own.lines || posts != own.posts {
            return false;
        }
    }
    true
}

fn is_log(sink: &SinkState, model: &Model) -> bool {
    are_lines(sink.contents.as_slice(), model.contents.as_slice())
        && have_lengths(sink.pending.as_slice(), model.pending.as_slice())
        && sink.taken.as_slice().len() as u64 == model.taken
        && sink.tries.as_slice().len() as u64 == model.tries
}

/// Whether a core's state is as the second account has it, as far as that goes.
pub fn is_told(state: &State, model: &Model) -> bool {
    state.shared.changes.as_slice().len() as u64 == model.changes()
        && is_log(&state.shared.log, model)
        && are_offered(&state.shared.log, &state.shared.hook, model.bays.as_slice())
        && are_bays(state.bays.as_slice(), model.bays.as_slice())
}
