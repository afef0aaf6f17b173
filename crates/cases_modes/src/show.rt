// What a run left, printed.
use crate::counts::{Counts, at_once, batched};
use crate::lines::names_of;
use apiservice_table::TableRoutes;
use audit_core::Sink;
use case_runs::WorldEnd;
use front_ports::{MemClock, MemDial, MemDoor, Visit};
use serve_roles::BayEnd;
use session_core::{Exchange, MemDiary};
use std::io;
use truncate_backend::TryNote;

type WorldBay = BayEnd<TableRoutes, MemDial, MemClock, MemDiary, MemDoor>;

// The status of the first reply to a connection.
fn status_of(visit: &Visit) -> &str {
    let digits = visit.output.as_slice().get(9..12).unwrap_or_default();
    str::from_utf8(digits).unwrap_or("none")
}

fn show_replies(rt: &HostRuntime, visits: &[Visit]) -> io::Result<()> {
    print!(rt; "replies")?;
    for visit in visits {
        print!(rt; " {}", status_of(visit))?;
    }
    println!(rt; "")
}

fn show_names(rt: &HostRuntime, names: &[String]) -> io::Result<()> {
    for name in names {
        println!(rt; "    {name}")?;
    }
    Ok(())
}

// Each try, and its lines: as many of these as its note says.
fn show_tries(rt: &HostRuntime, tries: &[TryNote], names: &[String]) -> io::Result<()> {
    let mut from: usize = 0;
    for note in tries {
        let to = from.saturating_add(note.lines as usize);
        println!(rt; "  {:?}, {} bytes", note.answer, note.sent)?;
        show_names(rt, names.get(from..to).unwrap_or_default())?;
        from = to;
    }
    Ok(())
}

fn show_counts(rt: &HostRuntime, counts: Counts) -> io::Result<()> {
    println!(rt;
        "  {} offered: {} written, {} failed, {} lost, {} full",
        counts.offered, counts.written, counts.failed, counts.lost, counts.full
    )
}

fn show_tried(
    rt: &HostRuntime,
    exchanges: &[Exchange],
    sink: Sink,
    tries: &[TryNote],
) -> io::Result<()> {
    match names_of(rt.alloc(), exchanges, sink, true) {
        Some(names) => show_tries(rt, tries, names.as_slice()),
        None => println!(rt; "  out of memory"),
    }
}

fn show_some(rt: &HostRuntime, names: &[String]) -> io::Result<()> {
    if names.is_empty() {
        return Ok(());
    }
    println!(rt; "  not taken")?;
    show_names(rt, names)
}

fn show_untaken(rt: &HostRuntime, exchanges: &[Exchange], sink: Sink) -> io::Result<()> {
    match names_of(rt.alloc(), exchanges, sink, false) {
        Some(names) => show_some(rt, names.as_slice()),
        None => println!(rt; "  out of memory"),
    }
}

fn show_sink(
    rt: &HostRuntime,
    exchanges: &[Exchange],
    sink: Sink,
    tries: &[TryNote],
    counts: Counts,
) -> io::Result<()> {
    println!(rt; "{:?}", sink)?;
    show_tried(rt, exchanges, sink, tries)?;
    show_untaken(rt, exchanges, sink)?;
    show_counts(rt, counts)
}

// The tries of the log and what came of its lines, none where it is off.
fn log_told<'a>(ended: &'a WorldEnd, offered: u64) -> Option<(&'a [TryNote], Counts)> {
    match &ended.log.drain {
        Some(drain) => Some((drain.sink.notes().notes(), batched(offered, drain))),
        None => {
            let tries = ended.log.own.as_slice().first()?.notes().notes();
            Some((tries, at_once(offered, tries)))
        }
    }
}

// The same of the webhook.
fn hook_told<'a>(ended: &'a WorldEnd, offered: u64) -> Option<(&'a [TryNote], Counts)> {
    match &ended.hook.drain {
        Some(drain) => Some((drain.sink.notes().notes(), batched(offered, drain))),
        None => {
            let tries = ended.hook.own.as_slice().first()?.notes().notes();
            Some((tries, at_once(offered, tries)))
        }
    }
}

fn show_bay(rt: &HostRuntime, ended: &WorldEnd, bay: &WorldBay) -> io::Result<()> {
    show_replies(rt, bay.door.given())?;
    let exchanges = bay.diary.exchanges();
    if let Some((tries, counts)) = log_told(ended, bay.log_lines) {
        show_sink(rt, exchanges, Sink::Log, tries, counts)?;
    }
    if let Some((tries, counts)) = hook_told(ended, bay.hook_lines) {
        show_sink(rt, exchanges, Sink::Webhook, tries, counts)?;
    }
    Ok(())
}

/// All that a run left.
pub fn show_ended(rt: &HostRuntime, ended: &WorldEnd) -> io::Result<()> {
    println!(rt; "status {:?}", ended.status)?;
    for bay in ended.bays.as_slice() {
        show_bay(rt, ended, bay)?;
    }
    Ok(())
}

fn show_sum(rt: &HostRuntime, sink: Sink, counts: Counts) -> io::Result<()> {
    println!(rt; "{:?}", sink)?;
    println!(rt;
        "  {} offered: {} written or full",
        counts.offered,
        counts.sum()
    )
}

fn show_bay_sums(rt: &HostRuntime, ended: &WorldEnd, bay: &WorldBay) -> io::Result<()> {
    show_replies(rt, bay.door.given())?;
    if let Some((_, counts)) = log_told(ended, bay.log_lines) {
        show_sum(rt, Sink::Log, counts)?;
    }
    if let Some((_, counts)) = hook_told(ended, bay.hook_lines) {
        show_sum(rt, Sink::Webhook, counts)?;
    }
    Ok(())
}

/// What a run left, as far as it doesn't depend on when its buffers were full.
pub fn show_sums(rt: &HostRuntime, ended: &WorldEnd) -> io::Result<()> {
    println!(rt; "status {:?}", ended.status)?;
    for bay in ended.bays.as_slice() {
        show_bay_sums(rt, ended, bay)?;
    }
    Ok(())
}
