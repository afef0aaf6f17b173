// The line of a run. Its parts are, between semicolons:
//
// - the row, and how the run, its bay and the connection ended;
// - of the client the statuses of the replies that it got, with `cut` behind one that isn't whole; and its bytes, by their
//   number and their sum;
// - of each request its number, its status and its link; and its events: `R`, `S` and `C` for the stages of its arrival, its start and its
//   end, and what became of the event's offer to the log and to the webhook: `+` taken, `-` failed, `f` full, `l` too large;
// - of the dial for each call the bytes that were sent;
// - of the log and of the webhook their tries: lines, bytes sent and the answer; and all of their bytes;
// - of the webhook's queue the lines that were written, lost, and not taken.
//
// A run of two bays has the parts of each, and the log of each. In which order their lines come to the webhook depends on the turns of threads, and so of it only
// the counts are written.
use crate::client::{push_bytes, push_replies};
use audit_core::{LinkNote, Outcome, Sink};
use bay_runs::EndCounts;
use command_ends::Status;
use front_base::Stage;
use front_ports::{MemBytes, MemClock, MemDial, MemDoor};
use log_sink::LogSink;
use queue_drain::DrainEnd;
use route_history::SeenHistory;
use serve_roles::BayEnd;
use session_core::{Exchange, MemDiary};
use std::alloc::{AllocError, Global};
use truncate_backend::{MemNotes, TryAnswer, TryNote};
use webhook_sink::WebhookSink;

type Log = LogSink<MemBytes, MemNotes>;

type Hook = WebhookSink<MemDial, MemNotes>;

/// What is left of a run over a plant in memory.
pub type Ended = serve_runs::Ended<SeenHistory, MemDial, Log, Hook, MemClock, MemDiary, MemDoor>;

type OwnBay = BayEnd<SeenHistory, MemDial, MemClock, MemDiary, MemDoor>;

fn push_end(line: &mut String, count: u64, name: &str) -> Result<(), AllocError> {
    if count == 0 {
        return Ok(());
    }
    line.push_str(", ")?;
    line.push_str(name)
}

// How connections ended.
fn push_ends(line: &mut String, counts: &EndCounts) -> Result<(), AllocError> {
    push_end(line, counts.ended, "ended")?;
    push_end(line, counts.asked, "asked")?;
    push_end(line, counts.bad_head, "bad head")?;
    push_end(line, counts.head_too_large, "head too large")?;
    push_end(line, counts.bad_framing, "bad framing")?;
    push_end(line, counts.body_too_large, "body too large")?;
    push_end(line, counts.cut_short, "cut short")?;
    push_end(line, counts.read_fault, "read fault")?;
    push_end(line, counts.write_fault, "write fault")?;
    push_end(line, counts.backend_cut, "backend cut")?;
    push_end(line, counts.stream_spent, "stream spent")?;
    push_end(line, counts.no_memory, "no memory")
}

fn link_word(link: LinkNote) -> &'static str {
    match link {
        LinkNote::NotUsed => "not used",
        LinkNote::Whole(_) => "whole",
        LinkNote::Streamed(_) => "streamed",
        LinkNote::DialFailed => "not dialed",
        LinkNote::BadReply => "bad reply",
        LinkNote::Cut => "cut",
        LinkNote::LinkFault => "fault",
    }
}

fn stage_letter(stage: Stage) -> &'static str {
    match stage {
        Stage::RequestReceived => " R",
        Stage::ResponseStarted => " S",
        Stage::ResponseComplete => " C",
        Stage::Panic => " P",
    }
}

fn outcome_sign(outcome: Outcome) -> &'static str {
    match outcome {
        Outcome::Taken => "+",
        Outcome::Full => "f",
        Outcome::Failed => "-",
        Outcome::TooLarge { .. } => "l",
    }
}

// One request. Each event is offered to the log first.
fn push_exchange(alloc: Global, line: &mut String, x: &Exchange) -> Result<(), AllocError> {
    let number = x.facts.id.number;
    let status = x.facts.status;
    let head = format!(in alloc; "; {number} {status} {}", link_word(x.link))?;
    line.push_str(head.as_str())?;
    for note in x.offers.as_slice() {
        match note.sink {
            Sink::Log => line.push_str(stage_letter(note.stage))?,
            Sink::Webhook => {}
        }
        line.push_str(outcome_sign(note.outcome))?;
    }
    Ok(())
}

// What the client got, what was noted of its requests, and what was sent to backends.
fn push_bay(alloc: Global, line: &mut String, bay: &OwnBay) -> Result<(), AllocError> {
    let stop = format!(in alloc; ", {:?}", bay.stop)?;
    line.push_str(stop.as_str())?;
    push_ends(line, &bay.counts)?;
    for visit in bay.door.given() {
        line.push_str("; client")?;
        push_replies(line, visit.output.as_slice())?;
        line.push_str(",")?;
        push_bytes(alloc, line, visit.output.as_slice())?;
    }
    for exchange in bay.diary.exchanges() {
        push_exchange(alloc, line, exchange)?;
    }
    push_calls(alloc, line, "; backend", &bay.dial)
}

// What was sent in each call of a dial.
fn push_calls(
    alloc: Global,
    line: &mut String,
    name: &str,
    dial: &MemDial,
) -> Result<(), AllocError> {
    line.push_str(name)?;
    for call in dial.calls().unwrap_or(&[]) {
        line.push_str(",")?;
        push_bytes(alloc, line, call.sent.as_slice())?;
    }
    Ok(())
}

fn answer_word(answer: TryAnswer) -> &'static str {
    match answer {
        TryAnswer::Done => "done",
        TryAnswer::Port => "port",
        TryAnswer::Refused(_) => "refused",
        TryAnswer::BadAnswer => "bad answer",
    }
}

fn push_tries(alloc: Global, line: &mut String, tries: &[TryNote]) -> Result<(), AllocError> {
    for note in tries {
        let told = format!(in alloc;
            ", {} lines {} {}",
            note.lines,
            note.sent,
            answer_word(note.answer)
        )?;
        line.push_str(told.as_str())?;
    }
    Ok(())
}

fn push_log(alloc: Global, line: &mut String, log: &Log) -> Result<(), AllocError> {
    line.push_str("; log")?;
    push_tries(alloc, line, log.notes().notes())?;
    line.push_str(",")?;
    push_bytes(alloc, line, log.out().bytes())
}

fn push_hook(
    alloc: Global,
    line: &mut String,
    bays: usize,
    drain: &DrainEnd<Hook, MemClock>,
) -> Result<(), AllocError> {
    line.push_str("; webhook")?;
    if bays == 1 {
        push_tries(alloc, line, drain.sink.notes().notes())?;
        push_calls(alloc, line, "", drain.sink.dial())?;
    }
    let counts = format!(in alloc;
        "; {} written, {} lost, {} not taken",
        drain.written, drain.lost, drain.fulls
    )?;
    line.push_str(counts.as_str())
}

fn push_run(alloc: Global, line: &mut String, ended: &Ended) -> Result<(), AllocError> {
    for (at, bay) in ended.bays.as_slice().iter().enumerate() {
        if at > 0 {
            line.push_str("; other bay")?;
        }
        push_bay(alloc, line, bay)?;
    }
    for log in ended.log.own.as_slice() {
        push_log(alloc, line, log)?;
    }
    if let Some(drain) = &ended.hook.drain {
        push_hook(alloc, line, ended.bays.len(), drain)?;
    }
    Ok(())
}

/// The line of a run that is over. None where memory ran out.
pub fn ended_line(alloc: Global, row: &str, ended: &Ended) -> Option<String> {
    let mut line = format!(in alloc; "{row}: {:?}", ended.status).ok()?;
    match push_run(alloc, &mut line, ended) {
        Ok(()) => Some(line),
        Err(_) => None,
    }
}

/// The line of a run that didn't begin.
pub fn refused_line(alloc: Global, row: &str, status: Status) -> Option<String> {
    format!(in alloc; "{row}: {status:?}, nothing ran").ok()
}
