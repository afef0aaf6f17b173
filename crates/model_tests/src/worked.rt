// Steps of one request, worked out by hand.
use audit_core::{LinkNote, Sink};
use model_account::{Draw, Said, Wants, answer_to, word_of};
use model_steps::Core;
use model_worlds::{Open, SinkState, State};
use std::alloc::Global;
use std::test::Fail;
use truncate_backend::TryAnswer;

fn draw_of(name: &str) -> Draw {
    match name {
        "begin" => Draw::Begin(0, Wants::Health, 1),
        "find" => Draw::Find(0, 0),
        "change" => Draw::Change(0),
        "offer" => Draw::Offer(0, Sink::Webhook, TryAnswer::Done),
        "offer log" => Draw::Offer(0, Sink::Log, TryAnswer::Done),
        "finish" => Draw::Finish(0, LinkNote::NotUsed, 2),
        "take" => Draw::Take(Sink::Webhook),
        _ => Draw::Cut(Sink::Webhook, TryAnswer::Done),
    }
}

// What steps change of a sink, by numbers.
#[derive(Clone, Copy, PartialEq, Eq)]
struct Amounts {
    contents: usize,
    taken: usize,
    pending: usize,
    tries: usize,
}

fn amounts_of(sink: &SinkState) -> Amounts {
    Amounts {
        contents: sink.contents.as_slice().len(),
        taken: sink.taken.as_slice().len(),
        pending: sink.pending.as_slice().len(),
        tries: sink.tries.as_slice().len(),
    }
}

// What steps change of an exchange, by plain values.
#[derive(Clone, Copy, PartialEq, Eq)]
struct Course {
    is_open: bool,
    found: bool,
    failed: bool,
    decided: bool,
    // 0 where no status is noted.
    started: u16,
    finished: bool,
    last: u64,
    waiting: usize,
}

fn course_of(current: &Option<Open>) -> Course {
    match current {
        None => Course {
            is_open: false,
            found: false,
            failed: false,
            decided: false,
            started: 0,
            finished: false,
            last: 0,
            waiting: 0,
        },
        Some(opened) => Course {
            is_open: true,
            found: opened.phase.found,
            failed: opened.phase.failed,
            decided: opened.phase.decided,
            started: opened.phase.started.unwrap_or(0),
            finished: opened.phase.finished,
            last: opened.phase.last.micros(),
            waiting: opened.waiting.as_slice().len(),
        },
    }
}

// What steps change of the whole, by plain values.
#[derive(Clone, Copy, PartialEq, Eq)]
struct Shape {
    log: Amounts,
    hook: Amounts,
    changes: usize,
    number: u64,
    closed: usize,
    course: Course,
}

fn shape_of(state: &State) -> Result<Shape, Fail> {
    let bay = state.bays.as_slice().first().ok_or("a bay")?;
    Ok(Shape {
        log: amounts_of(&state.shared.log),
        hook: amounts_of(&state.shared.hook),
        changes: state.shared.changes.as_slice().len(),
        number: bay.number,
        closed: bay.closed.as_slice().len(),
        course: course_of(&bay.current),
    })
}

// The answer, and whether nothing changed.
fn stepped(alloc: Global, core: &mut Core, name: &str) -> Result<(Said, bool), Fail> {
    let before = shape_of(core.state())?;
    let (said, _) = answer_to(alloc, core, draw_of(name))?;
    let after = shape_of(core.state())?;
    Ok((said, before == after))
}

// Whether an answer is that word, or that line of the bay's.
fn is_answer(said: Said, wanted: &str) -> bool {
    match said {
        Said::Line(0, 0) => wanted == "line 0",
        Said::Line(0, 1) => wanted == "line 1",
        Said::Wrote(2) => wanted == "wrote 2",
        Said::Line(_, _) | Said::Wrote(_) => false,
        own => wanted == word_of(own),
    }
}

// Whether a row comes to what it says, and changes nothing where that is idle.
fn comes(alloc: Global, core: &mut Core, row: &str) -> Result<bool, Fail> {
    let (name, wanted) = row.split_once('|').ok_or("a row")?;
    let (said, same) = stepped(alloc, core, name)?;
    Ok(is_answer(said, wanted) && (same || wanted != "idle"))
}

/// What rows came to: how many came to what they say, before one that didn't, and afterwards how many lines were taken
/// from the webhook's buffer, and in how many tries.
#[derive(Clone, Copy, Debug, PartialEq, Eq)]
pub struct Worked {
    pub rows: usize,
    pub taken: usize,
    pub tries: usize,
}

fn count_rows(alloc: Global, core: &mut Core, rows: &str) -> Result<usize, Fail> {
    let mut count: usize = 0;
    for row in rows.lines() {
        if !comes(alloc, core, row)? {
            return Ok(count);
        }
        count = count.saturating_add(1);
    }
    Ok(count)
}

// Takes the steps of these rows, each a step, `|` and what it answers.
pub fn take_rows(alloc: Global, core: &mut Core, rows: &str) -> Result<Worked, Fail> {
    let rows = count_rows(alloc, core, rows)?;
    let hook = amounts_of(&core.state().shared.hook);
    Ok(Worked {
        rows,
        taken: hook.taken,
        tries: hook.tries,
    })
}
