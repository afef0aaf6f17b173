// The run, and whether it agrees with the plan.
ghost use Rattle.std.specs.Prelude.{◌≡◌, ◌≤◌, ℕ, IfOk, length, true, slice_get, IfSome};
ghost use Rattle.front_base.specs.declared.line.TheConstants.{MOST_LINE_BYTES};
ghost use Rattle.serve_bays.specs.Options.{AreFit};
ghost use Rattle.shared_runs.specs.Setup.{options_of};
ghost use Rattle.rehearse_plan.specs.Planned.{Follows};
ghost use Rattle.rehearse_runs.specs.Agrees as spec;
ghost use Rattle.serve_roles.specs.Doors.{bay_handles};
ghost use Rattle.serve_runs.specs.Served.{RunServed};

use crate::diary::ReadDiary;
use apiservice_table::Routes;
use audit_core::Settings;
use front_base::NoMemory;
use front_plants::Plant;
use front_ports::{Dial, Door};
use queue_drain::DrainEnd;
use rehearse_plan::{Rehearsal, follows, line_count};
use serve_config::ServeWords;
use serve_roles::BayEnd;
use serve_runs::{Ended, RunStatus};
use shared_runs::run_configured;
use std::alloc::Global;

// Whether the drainer wrote a line for each event, and lost none.
fn has_written<S, K>(plan: Rehearsal, drain: &DrainEnd<S, K>) -> bool
    ensures { result ≡ true → spec.HasWritten plan.start plan.count drain.now }
{
    drain.written == u64::from(line_count(plan)) && drain.lost == 0
}

// Whether each bay did what was planned for it.
fn all_follow<R, L, K, Y: ReadDiary, D>(
    alloc: Global,
    plan: Rehearsal,
    bays: &[BayEnd<R, L, K, Y, D>],
) -> Result<bool, NoMemory>
    requires bays { length bays.now ≡ plan.bays }
    ensures { IfOk result (λ follow. follow ≡ true → (bay : ℕ) →
        IfSome (slice_get bays.now bay) (λ end. Follows plan.start plan.count plan.bays bay (Y.told end.diary))) }
{
    for bay in 0..plan.bays {
        let end = &bays[usize::from(bay)];
        if !follows(alloc, plan, bay, end.diary.exchanges())? {
            return Ok(false);
        }
    }
    Ok(true)
}

// Whether a run did what was planned.
fn agrees<R, L, W, H, K, Y: ReadDiary, D>(
    alloc: Global,
    plan: Rehearsal,
    ended: &Ended<R, L, W, H, K, Y, D>,
) -> Result<bool, NoMemory>
    ensures { IfOk result (λ agrees. agrees ≡ true → spec.Agrees Y.told plan.start plan.count plan.bays ended.now) }
{
    if ended.status != RunStatus::Done || ended.bays.len() != usize::from(plan.bays) {
        return Ok(false);
    }
    let Some(drain) = &ended.hook.drain else {
        return Ok(false);
    };
    if !has_written(plan, drain) {
        return Ok(false);
    }
    all_follow(alloc, plan, ended.bays.as_slice())
}

/// A run of `serve` by these words and settings, over a plant whose diaries can be read, which did what was planned for it:
/// each bay has the exchanges of its requests, in order, and the webhook has the line of each event. A run that did anything else
/// is given up, as one is that ran out of memory.
pub fn rehearse<P: Plant + Send, R: Routes + Drop + Send>(
    rt: &P::Rt,
    alloc: Global,
    plan: Rehearsal,
    words: &ServeWords,
    settings: Settings,
    routes: Vec<R>,
    plant: &mut P,
) -> Result<Ended<R, P::L, P::W, P::H, P::K, P::Y, P::D>, NoMemory>
where
    P::Rt: Send + Sync,
    P::D: Send,
    <P::D as Door>::C: Send,
    P::L: Send,
    <P::L as Dial>::K: Send,
    P::K: Send,
    P::Y: ReadDiary + Send,
    P::W: Send,
    P::H: Send,
    requires options { AreFit (options_of words.now words.now.listen) }
    requires routes { length routes.items ≡ words.now.bays }
    requires max { settings.max_event ≤ MOST_LINE_BYTES }
    ensures run { IfOk result (RunServed (bay_handles R.Routes P.L.Dial P.W.BatchSink P.H.BatchSink P.K.Clock P.Y.Diary P.D.Door
        P.D.C.Source P.D.C.ByteSink P.D.C.Conn.own) P.Rt settings (options_of words.now words.now.listen) P.opens
        (P.tells plant.old) (P.tells plant.new) routes.items) }
    ensures agrees { IfOk result (spec.Agrees P.Y.told plan.start plan.count plan.bays) }
{
    let ended = run_configured(rt, alloc, words, settings, words.listen, routes, plant);
    if agrees(alloc, plan, &ended)? {
        Ok(ended)
    } else {
        Err(NoMemory)
    }
}
