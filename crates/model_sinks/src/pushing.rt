// What a sink does with a line that is offered to it.
ghost use Rattle.std.specs.Prelude.{◌≡◌, ◌+◌, ◌≤◌, ◌++◌, ◌∷◌, [], ℕ, Bool, List, length, slice_set, IfOk, IfSome, OnOk, OnErr};
ghost use Rattle.audit_core.specs.Offers.{mode_of};
ghost use Rattle.event_offers.specs.Offering.{IsShort};
ghost use Rattle.front_base.specs.declared.line.TheConstants.{MOST_LINE_BYTES};
ghost use Rattle.model_sinks.specs.Fixed.{capacity_of, setup_of};
ghost use Rattle.model_sinks.specs.Running.{PushesTo, PushedTo};
ghost use Rattle.stage_event.specs.declared.facts.Kept.{Kept};
ghost use Rattle.model_worlds.specs.Steps as spec;

use crate::lists::push_at;
use crate::setup::CoreSetup;
use audit_core::{Outcome, Sink, SinkMode};
use front_base::{Bytes, Line, NoMemory};
use model_worlds::{Items, Shared, SinkState, Try, TryTold, Waiting};
use std::alloc::Global;
use truncate_backend::{Fit, TryAnswer, TryNote};

// Puts a line into a buffer, and a copy of it to those of its bay.
fn put_line(
    contents: &mut Vec<Line>,
    accepted: &mut Items<Items<Line>>,
    line: Line,
    copy: Line,
) -> Result<(), NoMemory>
    requires { copy ≡ line }
    ensures contents { OnOk result (contents.new.items ≡ contents.old.items ++ line ∷ []) }
    ensures accepted { OnOk result (accepted.new
        ≡ slice_set accepted.old line.bay (spec.at_lane accepted.old line.bay [] ++ line ∷ [])) }
    ensures err { OnErr result ((contents.new.items ≡ contents.old.items) × (accepted.new ≡ accepted.old)) }
{
    contents.reserve(1)?;
    push_at(accepted, line.bay as usize, copy)?;
    contents.push_reserved(line);
    Ok(())
}

// Counts one more at a place, if there is that place.
#[tactic(auto, using(crate::proofs::ListLemmas::set_read))]
fn count_at(counts: &mut Items<u64>, place: usize) -> Result<(), NoMemory>
    ensures ok { OnOk result (counts.new ≡ slice_set counts.old place (spec.at_lane counts.old place 0 + 1)) }
    ensures err { OnErr result (counts.new ≡ counts.old) }
{
    if place >= counts.as_slice().len() {
        return Ok(());
    }
    let count = counts.at_mut(place);
    let Some(next) = count.checked_add(1) else {
        return Err(NoMemory);
    };
    *count = next;
    Ok(())
}

fn push_buffer(
    alloc: Global,
    capacity: u32,
    line: Line,
    s: &mut SinkState,
) -> Result<Outcome, NoMemory>
    ensures ok { IfOk result (PushesTo (spec.push_buffer capacity line s.old) s.new) }
    ensures err { OnErr result (s.new ≡ s.old) }
{
    if s.contents.as_slice().len() >= capacity as usize {
        return match count_at(&mut s.fulls, line.bay as usize) {
            Ok(()) => Ok(Outcome::Full),
            Err(fault) => Err(fault),
        };
    }
    let copy = line.copy(alloc)?;
    let mut contents = s.contents.take_all(alloc);
    let put = put_line(&mut contents, &mut s.accepted, line, copy);
    s.contents = Items::new(contents);
    match put {
        Ok(()) => Ok(Outcome::Taken),
        Err(fault) => Err(fault),
    }
}

fn own_outcome(answer: TryAnswer) -> Outcome
    ensures { result ≡ spec.own_outcome answer }
{
    match answer {
        TryAnswer::Done => Outcome::Taken,
        TryAnswer::Port | TryAnswer::Refused(_) | TryAnswer::BadAnswer => Outcome::Failed,
    }
}

fn push_own(
    alloc: Global,
    works: TryTold,
    line: Line,
    s: &mut SinkState,
) -> Result<Outcome, NoMemory>
    ensures ok { IfOk result (PushesTo (spec.push_own works line s.old) s.new) }
    ensures err { OnErr result (s.new ≡ s.old) }
{
    let place = line.bay as usize;
    let lines = Items::new(vec![in alloc; line]?);
    let note = TryNote {
        lines: 1,
        sent: works.sent,
        answer: works.answer,
    };
    match push_at(&mut s.own_tries, place, Try { lines, note }) {
        Ok(()) => Ok(own_outcome(works.answer)),
        Err(fault) => Err(fault),
    }
}

fn push_line(
    alloc: Global,
    mode: SinkMode,
    capacity: u32,
    works: TryTold,
    line: Line,
    s: &mut SinkState,
) -> Result<Outcome, NoMemory>
    ensures ok { IfOk result (PushesTo (spec.push_line mode capacity works line s.old) s.new) }
    ensures err { OnErr result (s.new ≡ s.old) }
{
    match mode {
        SinkMode::Off => Ok(Outcome::Full),
        SinkMode::Batch => push_buffer(alloc, capacity, line, s),
        SinkMode::Blocking | SinkMode::Strict => push_own(alloc, works, line, s),
    }
}

fn count_of<T>(lanes: &Items<Items<T>>, place: usize) -> u64
    ensures { result ≡ length (spec.at_lane lanes.now place []) }
{
    match lanes.as_slice().get(place) {
        Some(lane) => lane.as_slice().len() as u64,
        None => 0,
    }
}

fn fulls_of(counts: &Items<u64>, place: usize) -> u64
    ensures { result ≡ spec.at_lane counts.now place 0 }
{
    match counts.as_slice().get(place) {
        Some(count) => *count,
        None => 0,
    }
}

// How many lines a bay offered to a sink before.
fn line_number(s: &SinkState, bay: u16) -> Option<u64>
    ensures { IfSome result (λ number. number ≡ spec.line_number s.now bay) }
{
    let place = bay as usize;
    let unwritten = fulls_of(&s.fulls, place).checked_add(count_of(&s.own_tries, place))?;
    count_of(&s.accepted, place).checked_add(unwritten)
}

fn push_text(
    alloc: Global,
    setup: &CoreSetup,
    sink: Sink,
    works: TryTold,
    bay: u16,
    text: &Bytes,
    s: &mut SinkState,
) -> Result<Outcome, NoMemory>
    requires { length text.now ≤ MOST_LINE_BYTES }
    ensures ok { IfOk result (PushesTo (spec.push_text (mode_of setup.now.settings sink)
        (capacity_of setup.now sink) works bay text.now s.old) s.new) }
    ensures err { OnErr result (s.new ≡ s.old) }
{
    let Some(number) = line_number(s, bay) else {
        return Err(NoMemory);
    };
    let bytes = text.copy(alloc)?;
    let line = Line { bay, number, bytes };
    push_line(
        alloc,
        setup.settings.mode_of(sink),
        setup.capacity(sink),
        works,
        line,
        s,
    )
}

fn push_fit(
    alloc: Global,
    setup: &CoreSetup,
    sink: Sink,
    works: TryTold,
    bay: u16,
    fit: &Fit,
    s: &mut SinkState,
) -> Result<Outcome, NoMemory>
    requires { IsShort fit.now }
    ensures ok { IfOk result (PushesTo (spec.push_fit (mode_of setup.now.settings sink)
        (capacity_of setup.now sink) works bay fit.now s.old) s.new) }
    ensures err { OnErr result (s.new ≡ s.old) }
{
    match fit {
        Fit::Whole(text) => push_text(alloc, setup, sink, works, bay, text, s),
        Fit::Stripped(text) => push_text(alloc, setup, sink, works, bay, text, s),
        Fit::TooLarge { size } => Ok(Outcome::TooLarge { size: *size }),
    }
}

/// Offers what is due to its sink: the part of an offer that the sink sees. Where memory ran out, or a count is at its
/// type's end, the sinks are as they were.
pub fn push_due(
    alloc: Global,
    setup: &CoreSetup,
    bay: u16,
    works: TryTold,
    shared: &mut Shared,
    due: &Waiting,
) -> Result<Outcome, NoMemory>
    ensures ok { IfOk result (λ own. (keep : Bool → List ℕ → Kept)
        → PushedTo (spec.pushed (setup_of setup.now keep) bay works shared.old due.now) due.now.sink shared.old shared.new own) }
    ensures err { OnErr result (shared.new ≡ shared.old) }
{
    match due.sink {
        Sink::Log => push_fit(
            alloc,
            setup,
            due.sink,
            works,
            bay,
            &due.fit,
            &mut shared.log,
        ),
        Sink::Webhook => push_fit(
            alloc,
            setup,
            due.sink,
            works,
            bay,
            &due.fit,
            &mut shared.hook,
        ),
    }
}
