// Offers of events to lanes.
ghost use Rattle.std.specs.Prelude.{◌≡◌, ◌≤◌, ◌<◌, ◌+◌, ◌++◌, ◌∷◌, [], length, ◌≢◌, OnOk, OnErr, true, IfOk, vec_len, vec_capacity};
ghost use Rattle.std.specs.Option.{ForSome};
ghost use Rattle.audit_core.specs.Offers.{is_on, offers_due};
ghost use Rattle.stage_event.specs.Events.{event};
ghost use Rattle.truncate_backend.specs.Fits.{fitted};
ghost use Rattle.event_offers.specs.Lanes.{AreLanesOf, IsLaneOf, lane_state, lanes_state};
ghost use Rattle.event_offers.specs.Offering as spec;
ghost use Rattle.front_base.specs.declared.line.TheConstants.{MOST_LINE_BYTES};

use crate::lanes::Lanes;
use audit_core::{OfferNote, Outcome, Settings, Sink, omits};
use front_base::{Bytes, Level, Line, NoMemory, Stage};
use policy_rules::Decision;
use stage_event::{Event, Facts, event_at};
use std::alloc::Global;
use truncate_backend::{Fit, Lane, Offer, fit, what_fits};

/// How many lines a bay may have offered to a lane before it offers one more: 2^62. A bay with 2^48 requests of three
/// stages offers fewer.
pub const MOST_OFFERED: u64 = 4_611_686_018_427_387_904;

fn offer_line<A: Lane>(lane: &mut A, bay: u16, lines: &mut u64, bytes: Bytes) -> Outcome
    requires lane { ForSome (A.bay lane.old) (λ b. bay ≡ b) }
    requires few { lines.old < MOST_OFFERED }
    requires short { length bytes ≤ MOST_LINE_BYTES }
    ensures { spec.OffersLine bay bytes (lane_state A.Lane lane.old lines.old) result (lane_state A.Lane lane.new lines.new) }
{
    let number = *lines;
    *lines += 1;
    match lane.offer(Line { bay, number, bytes }) {
        Offer::Taken => Outcome::Taken,
        Offer::Full(_) => Outcome::Full,
        Offer::Failed(_) => Outcome::Failed,
    }
}

fn offer_fit<A: Lane>(lane: &mut A, bay: u16, lines: &mut u64, fit: Fit) -> Outcome
    requires lane { ForSome (A.bay lane.old) (λ b. bay ≡ b) }
    requires few { lines.old < MOST_OFFERED }
    requires short { spec.IsShort fit }
    ensures { spec.OffersFit bay fit (lane_state A.Lane lane.old lines.old) result (lane_state A.Lane lane.new lines.new) }
{
    match fit {
        Fit::Whole(bytes) => offer_line(lane, bay, lines, bytes),
        Fit::Stripped(bytes) => offer_line(lane, bay, lines, bytes),
        Fit::TooLarge { size } => Outcome::TooLarge { size },
    }
}

// Offers what is written of an event to the log, and notes what became of it. There is room for the note.
fn to_log<A: Lane, B: Lane>(
    settings: &Settings,
    stage: Stage,
    fit: Fit,
    lanes: &mut Lanes<A, B>,
    notes: &mut Vec<OfferNote>,
)
    requires on { is_on settings.now.log ≡ true }
    requires lane { IsLaneOf lanes.old.bay settings.now.log (lane_state A.Lane lanes.old.log lanes.old.log_lines) }
    requires few { lanes.old.log_lines < MOST_OFFERED }
    requires short { spec.IsShort fit }
    requires room { vec_len notes.old < vec_capacity notes.old }
    ensures noted { spec.NotedOne Sink.Log stage fit (lanes_state A.Lane B.Lane lanes.old) notes.old.items
        (lanes_state A.Lane B.Lane lanes.new) notes.new.items }
    ensures room { (vec_len notes.new ≡ vec_len notes.old + 1) × (vec_capacity notes.new ≡ vec_capacity notes.old) }
{
    let outcome = offer_fit(&mut lanes.log, lanes.bay, &mut lanes.log_lines, fit);
    notes.push_reserved(OfferNote {
        sink: Sink::Log,
        stage,
        outcome,
    });
}

// The same for the webhook.
fn to_hook<A: Lane, B: Lane>(
    settings: &Settings,
    stage: Stage,
    fit: Fit,
    lanes: &mut Lanes<A, B>,
    notes: &mut Vec<OfferNote>,
)
    requires on { is_on settings.now.hook ≡ true }
    requires lane { IsLaneOf lanes.old.bay settings.now.hook (lane_state B.Lane lanes.old.hook lanes.old.hook_lines) }
    requires few { lanes.old.hook_lines < MOST_OFFERED }
    requires short { spec.IsShort fit }
    requires room { vec_len notes.old < vec_capacity notes.old }
    ensures noted { spec.NotedOne Sink.Webhook stage fit (lanes_state A.Lane B.Lane lanes.old) notes.old.items
        (lanes_state A.Lane B.Lane lanes.new) notes.new.items }
{
    let outcome = offer_fit(&mut lanes.hook, lanes.bay, &mut lanes.hook_lines, fit);
    notes.push_reserved(OfferNote {
        sink: Sink::Webhook,
        stage,
        outcome,
    });
}

// What is written of an event, which is short enough for a line.
fn short_fit(alloc: Global, settings: &Settings, event: &Event) -> Result<Fit, NoMemory>
    requires max { settings.now.max_event ≤ MOST_LINE_BYTES }
    ensures is { IfOk result (λ own. own ≡ fitted event.now settings.now.max_event) }
    ensures short { IfOk result spec.IsShort }
{
    what_fits();
    fit(alloc, event, settings.max_event)
}

fn copy_of(alloc: Global, fit: &Fit) -> Result<Fit, NoMemory>
    ensures { IfOk result (λ copy. copy ≡ fit.now) }
{
    match fit {
        Fit::Whole(bytes) => Ok(Fit::Whole(bytes.copy(alloc)?)),
        Fit::Stripped(bytes) => Ok(Fit::Stripped(bytes.copy(alloc)?)),
        Fit::TooLarge { size } => Ok(Fit::TooLarge { size: *size }),
    }
}

/// Offers what fits of an event to the sinks that are on, the log before the webhook, and notes what became of it. Where
/// memory ran out, nothing was offered.
pub fn offer_event<A: Lane, B: Lane>(
    alloc: Global,
    settings: &Settings,
    event: &Event,
    lanes: &mut Lanes<A, B>,
    notes: &mut Vec<OfferNote>,
) -> Result<(), NoMemory>
    requires lanes { AreLanesOf settings.now (lanes_state A.Lane B.Lane lanes.old) }
    requires few { (lanes.old.log_lines < MOST_OFFERED) × (lanes.old.hook_lines < MOST_OFFERED) }
    requires max { settings.now.max_event ≤ MOST_LINE_BYTES }
    ensures ok { OnOk result (spec.Noted (offers_due settings.now (event.now ∷ []))
        (lanes_state A.Lane B.Lane lanes.old) notes.old.items (lanes_state A.Lane B.Lane lanes.new) notes.new.items) }
    ensures err { OnErr result (spec.Unoffered
        (lanes_state A.Lane B.Lane lanes.old) notes.old.items (lanes_state A.Lane B.Lane lanes.new) notes.new.items) }
{
    notes.reserve(2)?;
    match (settings.log.is_on(), settings.hook.is_on()) {
        (false, false) => Ok(()),
        (true, false) => {
            let written = short_fit(alloc, settings, event)?;
            to_log(settings, event.stage, written, lanes, notes);
            Ok(())
        }
        (false, true) => {
            let written = short_fit(alloc, settings, event)?;
            to_hook(settings, event.stage, written, lanes, notes);
            Ok(())
        }
        (true, true) => {
            let written = short_fit(alloc, settings, event)?;
            let copy = copy_of(alloc, &written)?;
            to_log(settings, event.stage, written, lanes, notes);
            to_hook(settings, event.stage, copy, lanes, notes);
            Ok(())
        }
    }
}

fn offer_recorded<A: Lane, B: Lane>(
    alloc: Global,
    settings: &Settings,
    level: Level,
    facts: &Facts,
    stage: Stage,
    lanes: &mut Lanes<A, B>,
    notes: &mut Vec<OfferNote>,
) -> Result<(), NoMemory>
    requires level { level ≢ Level.None }
    requires stage { stage ≢ Stage.Panic }
    requires lanes { AreLanesOf settings.now (lanes_state A.Lane B.Lane lanes.old) }
    requires few { (lanes.old.log_lines < MOST_OFFERED) × (lanes.old.hook_lines < MOST_OFFERED) }
    requires max { settings.now.max_event ≤ MOST_LINE_BYTES }
    ensures ok { OnOk result (spec.Noted (offers_due settings.now (event stage level facts.now ∷ []))
        (lanes_state A.Lane B.Lane lanes.old) notes.old.items (lanes_state A.Lane B.Lane lanes.new) notes.new.items) }
    ensures err { OnErr result (spec.Unoffered
        (lanes_state A.Lane B.Lane lanes.old) notes.old.items (lanes_state A.Lane B.Lane lanes.new) notes.new.items) }
{
    let event = event_at(alloc, stage, level, facts)?;
    offer_event(alloc, settings, &event, lanes, notes)
}

/// Offers the event that a request owes at a stage, if it owes one there, by what is known of it so far. Where memory ran
/// out, nothing was offered.
pub fn offer_stage<A: Lane, B: Lane>(
    alloc: Global,
    settings: &Settings,
    decision: Decision,
    facts: &Facts,
    stage: Stage,
    lanes: &mut Lanes<A, B>,
    notes: &mut Vec<OfferNote>,
) -> Result<(), NoMemory>
    requires stage { stage ≢ Stage.Panic }
    requires lanes { AreLanesOf settings.now (lanes_state A.Lane B.Lane lanes.old) }
    requires few { (lanes.old.log_lines < MOST_OFFERED) × (lanes.old.hook_lines < MOST_OFFERED) }
    requires max { settings.now.max_event ≤ MOST_LINE_BYTES }
    ensures ok { OnOk result (spec.Noted (offers_due settings.now (spec.stage_events decision facts.now stage))
        (lanes_state A.Lane B.Lane lanes.old) notes.old.items (lanes_state A.Lane B.Lane lanes.new) notes.new.items) }
    ensures err { OnErr result (spec.Unoffered
        (lanes_state A.Lane B.Lane lanes.old) notes.old.items (lanes_state A.Lane B.Lane lanes.new) notes.new.items) }
{
    if omits(decision.omit, stage) {
        return Ok(());
    }
    match decision.level {
        Level::None => Ok(()),
        level => offer_recorded(alloc, settings, level, facts, stage, lanes, notes),
    }
}
