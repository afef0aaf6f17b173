// Rounds of turns.
ghost use Rattle.std.specs.Prelude.{◌≡◌, ◌≤◌, ◌<◌, ◌^◌, IfErr, IfOk, OnOk, length};
ghost use Rattle.probe_rounds.specs.Pace as pace_spec;
ghost use Rattle.probe_rounds.specs.Rounds as spec;
ghost use Rattle.probe_rounds.specs.Standing.{Breaks, Goes, Probed, ProbedPart, RoundsBroke, RoundsMade, out_tells, pace_tells, stand};
ghost use Rattle.service_calls.specs.Calls.{dial_state};

use crate::going::Going;
use crate::pace::{Pace, goes_on, is_due, is_whole, start};
use crate::plan::ProbePlan;
use crate::round::Round;
use crate::stop::ProbeStop;
use crate::turn::turn;
use apiservice_rows::Row;
use avail_probe::Watcher;
use front_base::Moment;
use front_ports::{ByteSink, Clock, Dial};
use std::alloc::Global;

// The turn of each row in the round of that number.
fn turns<D: Dial, O: ByteSink>(
    alloc: Global,
    plan: &ProbePlan,
    round: &Round,
    rows: &[Row],
    watcher: &mut Watcher,
    dial: &mut D,
    out: &mut O,
) -> Result<(), ProbeStop>
    requires same { length watcher.old.rows ≡ length rows.now }
    requires few { length rows.now < 2 ^ 32 }
    requires threshold { watcher.old.threshold ≡ plan.now.threshold }
    ensures ok { OnOk result (Goes (spec.turns plan.now round.now 0 rows.now)
        (stand watcher.old.rows (dial_state (D.calls dial.old) (D.faults dial.old) (D.link_faults dial.old))
        (out_tells (O.written out.old) (O.write_faults out.old)))
        (stand watcher.new.rows (dial_state (D.calls dial.new) (D.faults dial.new) (D.link_faults dial.new))
        (out_tells (O.written out.new) (O.write_faults out.new)))) }
    ensures err { IfErr result (λ stop. Breaks (spec.turns plan.now round.now 0 rows.now)
        (stand watcher.old.rows (dial_state (D.calls dial.old) (D.faults dial.old) (D.link_faults dial.old))
        (out_tells (O.written out.old) (O.write_faults out.old))) stop
        (dial_state (D.calls dial.new) (D.faults dial.new) (D.link_faults dial.new))
        (out_tells (O.written out.new) (O.write_faults out.new))) }
    ensures threshold { watcher.new.threshold ≡ watcher.old.threshold }
    ensures length { length watcher.new.rows ≡ length watcher.old.rows }
{
    for at in 0..rows.len() {
        let row = &rows[at];
        match turn(alloc, plan, round, at as u32, row, watcher, dial, out) {
            Ok(()) => {}
            Err(stop) => return Err(stop),
        }
    }
    Ok(())
}

// A round at that moment, where one is due.
fn look<D: Dial, O: ByteSink>(
    alloc: Global,
    plan: &ProbePlan,
    rows: &[Row],
    now: Moment,
    pace: &mut Pace,
    watcher: &mut Watcher,
    dial: &mut D,
    out: &mut O,
) -> Result<(), ProbeStop>
    requires same { length watcher.old.rows ≡ length rows.now }
    requires few { length rows.now < 2 ^ 32 }
    requires threshold { watcher.old.threshold ≡ plan.now.threshold }
    requires left { pace.old.done < plan.now.rounds }
    ensures ok { OnOk result (Goes (spec.look plan.now rows.now pace.old now)
        (stand watcher.old.rows (dial_state (D.calls dial.old) (D.faults dial.old) (D.link_faults dial.old))
        (out_tells (O.written out.old) (O.write_faults out.old)))
        (stand watcher.new.rows (dial_state (D.calls dial.new) (D.faults dial.new) (D.link_faults dial.new))
        (out_tells (O.written out.new) (O.write_faults out.new)))) }
    ensures err { IfErr result (λ stop. Breaks (spec.look plan.now rows.now pace.old now)
        (stand watcher.old.rows (dial_state (D.calls dial.old) (D.faults dial.old) (D.link_faults dial.old))
        (out_tells (O.written out.old) (O.write_faults out.old))) stop
        (dial_state (D.calls dial.new) (D.faults dial.new) (D.link_faults dial.new))
        (out_tells (O.written out.new) (O.write_faults out.new))) }
    ensures pace { OnOk result (pace.new ≡ pace_spec.after plan.now pace.old now) }
    ensures few { OnOk result (pace.new.done ≤ plan.now.rounds) }
    ensures threshold { watcher.new.threshold ≡ watcher.old.threshold }
    ensures length { length watcher.new.rows ≡ length watcher.old.rows }
{
    if !is_due(plan.every, pace.began, now) {
        return Ok(());
    }
    let number = pace.done + 1;
    let round = Round {
        number,
        moment: now,
    };
    match turns(alloc, plan, &round, rows, watcher, dial, out) {
        Ok(()) => {
            *pace = Pace {
                done: number,
                began: Some(now),
            };
            Ok(())
        }
        Err(stop) => Err(stop),
    }
}

// All rounds, over the rows that a watcher has.
fn all_rounds<D: Dial, K: Clock, G: Going, O: ByteSink>(
    alloc: Global,
    plan: &ProbePlan,
    rows: &[Row],
    watcher: &mut Watcher,
    dial: &mut D,
    clock: &mut K,
    going: &mut G,
    out: &mut O,
) -> Result<(), ProbeStop>
    requires same { length watcher.old.rows ≡ length rows.now }
    requires few { length rows.now < 2 ^ 32 }
    requires threshold { watcher.old.threshold ≡ plan.now.threshold }
    requires rounds { 1 ≤ plan.now.rounds }
    ensures ok { OnOk result (RoundsMade plan.now rows.now
        (stand watcher.old.rows (dial_state (D.calls dial.old) (D.faults dial.old) (D.link_faults dial.old))
        (out_tells (O.written out.old) (O.write_faults out.old)))
        (stand watcher.new.rows (dial_state (D.calls dial.new) (D.faults dial.new) (D.link_faults dial.new))
        (out_tells (O.written out.new) (O.write_faults out.new)))
        (pace_tells (K.given clock.old) (K.rests clock.old) (G.asked going.old) (G.noes going.old))
        (pace_tells (K.given clock.new) (K.rests clock.new) (G.asked going.new) (G.noes going.new))) }
    ensures err { IfErr result (λ stop. RoundsBroke plan.now rows.now
        (stand watcher.old.rows (dial_state (D.calls dial.old) (D.faults dial.old) (D.link_faults dial.old))
        (out_tells (O.written out.old) (O.write_faults out.old))) stop
        (dial_state (D.calls dial.new) (D.faults dial.new) (D.link_faults dial.new))
        (out_tells (O.written out.new) (O.write_faults out.new))
        (pace_tells (K.given clock.old) (K.rests clock.old) (G.asked going.old) (G.noes going.old))
        (pace_tells (K.given clock.new) (K.rests clock.new) (G.asked going.new) (G.noes going.new))) }
    ensures later { K.last clock.old ≤ K.last clock.new }
{
    let mut pace = start();
    for _ in 0..u64::MAX {
        let moment = clock.now();
        match look(alloc, plan, rows, moment, &mut pace, watcher, dial, out) {
            Ok(()) => {
                if is_whole(plan, &pace) {
                    return Ok(());
                }
                if !goes_on(plan, clock, going) {
                    return Ok(());
                }
            }
            Err(stop) => return Err(stop),
        }
    }
    Ok(())
}

/// Probes the services of these rows in at most so many rounds, and tells the front door of each condition that is to change. The answer is
/// whether what was told of some row last wasn't taken.
///
/// The clock is asked for the moment, a round begins where one is due, and the clock rests, again and again: the first round is due at once,
/// and each other one `every` seconds or more after the beginning of the one before. After each rest but the last round's `going` is asked
/// whether rounds go on, where `every` isn't 0. Where they don't, or once the clock has given 2^64 - 1 moments, no more round begins.
///
/// In a round each row with a service has its turn, in the order of the rows: the service is asked, where it is reached, and its probe
/// is good by a status from 200 to 299. Where the last `threshold` probes are all good, or all bad, and the condition isn't so yet, or the
/// row has none, the front door is told once, and a line is written. Only its status 200 changes the condition, so it is told again after
/// the next probe otherwise.
pub fn run_rounds<D: Dial, K: Clock, G: Going, O: ByteSink>(
    alloc: Global,
    plan: &ProbePlan,
    rows: &[Row],
    dial: &mut D,
    clock: &mut K,
    going: &mut G,
    out: &mut O,
) -> Result<bool, ProbeStop>
    requires threshold { (1 ≤ plan.now.threshold) × (plan.now.threshold ≤ 10) }
    requires few { length rows.now < 2 ^ 32 }
    requires rounds { 1 ≤ plan.now.rounds }
    ensures ok { IfOk result (λ refused. Probed plan.now rows.now refused
        (dial_state (D.calls dial.old) (D.faults dial.old) (D.link_faults dial.old))
        (dial_state (D.calls dial.new) (D.faults dial.new) (D.link_faults dial.new))
        (out_tells (O.written out.old) (O.write_faults out.old)) (out_tells (O.written out.new) (O.write_faults out.new))
        (pace_tells (K.given clock.old) (K.rests clock.old) (G.asked going.old) (G.noes going.old))
        (pace_tells (K.given clock.new) (K.rests clock.new) (G.asked going.new) (G.noes going.new))) }
    ensures err { IfErr result (λ stop. ProbedPart plan.now rows.now stop
        (dial_state (D.calls dial.old) (D.faults dial.old) (D.link_faults dial.old))
        (dial_state (D.calls dial.new) (D.faults dial.new) (D.link_faults dial.new))
        (out_tells (O.written out.old) (O.write_faults out.old)) (out_tells (O.written out.new) (O.write_faults out.new))
        (pace_tells (K.given clock.old) (K.rests clock.old) (G.asked going.old) (G.noes going.old))
        (pace_tells (K.given clock.new) (K.rests clock.new) (G.asked going.new) (G.noes going.new))) }
    ensures later { K.last clock.old ≤ K.last clock.new }
{
    let Ok(mut watcher) = Watcher::start(alloc, rows, plan.threshold) else {
        return Err(ProbeStop::NoMemory);
    };
    match all_rounds(alloc, plan, rows, &mut watcher, dial, clock, going, out) {
        Ok(()) => Ok(watcher.any_refused()),
        Err(stop) => Err(stop),
    }
}
