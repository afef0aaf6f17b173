// The bays of a run.
ghost use Rattle.std.specs.Prelude.{◌≡◌, ◌≢◌, ◌≤◌, ℕ, IfOk, IfSome, OnErr, length, map, slice_get};
ghost use Rattle.std.specs.Arc.{arc_value};
ghost use Rattle.audit_core.specs.declared.settings.Settings.{Settings};
ghost use Rattle.front_base.specs.declared.line.TheConstants.{MOST_LINE_BYTES};
ghost use Rattle.front_plants.specs.Plants.{HasCause};
ghost use Rattle.serve_bays.specs.LaneCalls.{CallsPart};
ghost use Rattle.serve_roles.specs.Ends.{log_lane, hook_lane};
ghost use Rattle.serve_roles.specs.Ready.{TakesLines};
ghost use Rattle.serve_roles.specs.Doors.{bay_handles};
ghost use Rattle.serve_bays.specs.Bays.{IsNewBay, routes_of};
ghost use Rattle.serve_bays.specs.BayCalls.{bay_calls, bays_calls};
ghost use Rattle.truncate_backend.specs.Told.{Joined};

use crate::laws::{calls_in_part, calls_join};
use crate::options::RunOptions;
use any_lane::AnyLane;
use apiservice_table::Routes;
use audit_core::Settings;
use bay_runs::{BayStop, EndCounts};
use event_offers::Lanes;
use front_plants::{Plant, PlantFail};
use local_replies::LocalPaths;
use serve_roles::{BayRole, ReadyBay};
use session_core::Bay;
use std::alloc::Global;
use std::sync::Arc;

/// What all bays share.
#[derive(Drop)]
pub struct SharedParts {
    pub settings: Arc<Settings>,
    pub paths: Arc<LocalPaths>,
    /// The word that audit IDs begin with.
    pub boot: u64,
}

// A bay with these lanes, at its door.
fn make_bay<P: Plant, R: Routes + Drop>(
    alloc: Global,
    plant: &mut P,
    shared: &SharedParts,
    options: &RunOptions,
    routes: R,
    lanes: Lanes<AnyLane<P::W, P::Rt>, AnyLane<P::H, P::Rt>>,
) -> Result<BayRole<R, P::L, P::W, P::H, P::Rt, P::K, P::Y, P::D>, PlantFail>
    requires max { (arc_value shared.now.settings).max_event ≤ MOST_LINE_BYTES }
    requires log { TakesLines lanes.bay (arc_value shared.now.settings).log lanes.log }
    requires hook { TakesLines lanes.bay (arc_value shared.now.settings).hook lanes.hook }
    requires lines { (lanes.log_lines ≡ 0) × (lanes.hook_lines ≡ 0) }
    ensures new { IfOk result (IsNewBay (bay_handles R.Routes P.L.Dial P.W.BatchSink P.H.BatchSink P.K.Clock P.Y.Diary P.D.Door
        P.D.C.Source P.D.C.ByteSink P.D.C.Conn.own) (arc_value shared.now.settings) shared.now.boot ((P.tells plant.old).due lanes.bay)
        lanes.bay) }
    ensures lanes { IfOk result (λ role. (log_lane role ≡ lanes.log) × (hook_lane role ≡ lanes.hook)) }
    ensures routes { IfOk result (λ role. routes_of role ≡ routes) }
    ensures cause { HasCause (P.tells plant.old).faults result (P.tells plant.new).faults }
    ensures due { (other : ℕ) → other ≢ lanes.bay → (P.tells plant.new).due other ≡ (P.tells plant.old).due other }
    ensures called { IfOk result (λ _. Joined (P.tells plant.old).made
        (bay_calls options.now.listen options.now.connections lanes.bay) (P.tells plant.new).made) }
    ensures stopped { OnErr result (CallsPart (bay_calls options.now.listen options.now.connections lanes.bay)
        (P.tells plant.old).made (P.tells plant.new).made) }
{
    calls_in_part();
    let Ok(settings) = Arc::try_clone(&shared.settings) else {
        return Err(PlantFail::NoMemory);
    };
    let Ok(paths) = Arc::try_clone(&shared.paths) else {
        return Err(PlantFail::NoMemory);
    };
    calls_join();
    let dial = plant.dial(alloc, lanes.bay)?;
    let door = plant.door(alloc, options.listen, lanes.bay, options.connections)?;
    let clock = plant.clock();
    let diary = plant.diary(alloc);
    Ok(BayRole {
        alloc,
        paths,
        own: ReadyBay {
            settings,
            bay: Bay {
                boot: shared.boot,
                number: 0,
                routes,
                dial,
                lanes,
                clock,
                diary,
            },
        },
        door,
        counts: EndCounts::new(),
        stop: BayStop::Closed,
    })
}

/// All bays, each with its routes and its lanes.
pub fn make_bays<P: Plant, R: Routes + Drop>(
    alloc: Global,
    plant: &mut P,
    shared: &SharedParts,
    options: &RunOptions,
    routes: Vec<R>,
    logs: Vec<AnyLane<P::W, P::Rt>>,
    hooks: Vec<AnyLane<P::H, P::Rt>>,
) -> Result<Vec<BayRole<R, P::L, P::W, P::H, P::Rt, P::K, P::Y, P::D>>, PlantFail>
    requires max { (arc_value shared.now.settings).max_event ≤ MOST_LINE_BYTES }
    requires few { length routes.items ≤ 1024 }
    requires counts { (length logs.items ≡ length routes.items) × (length hooks.items ≡ length routes.items) }
    requires logs { (bay : ℕ) → IfSome (slice_get logs.items bay) (TakesLines bay (arc_value shared.now.settings).log) }
    requires hooks { (bay : ℕ) → IfSome (slice_get hooks.items bay) (TakesLines bay (arc_value shared.now.settings).hook) }
    ensures new { IfOk result (λ bays. (bay : ℕ) → IfSome (slice_get bays.items bay) (λ role.
        IsNewBay (bay_handles R.Routes P.L.Dial P.W.BatchSink P.H.BatchSink P.K.Clock P.Y.Diary P.D.Door
        P.D.C.Source P.D.C.ByteSink P.D.C.Conn.own) (arc_value shared.now.settings) shared.now.boot ((P.tells plant.old).due bay)
        bay role)) }
    ensures lanes { IfOk result (λ bays. (map log_lane bays.items ≡ logs.items) × (map hook_lane bays.items ≡ hooks.items)) }
    ensures routes { IfOk result (λ bays. map routes_of bays.items ≡ routes.items) }
    ensures called { IfOk result (λ _. Joined (P.tells plant.old).made
        (bays_calls options.now.listen options.now.connections 0 (length routes.items)) (P.tells plant.new).made) }
    ensures stopped { OnErr result (CallsPart (bays_calls options.now.listen options.now.connections 0 (length routes.items))
        (P.tells plant.old).made (P.tells plant.new).made) }
    ensures cause { HasCause (P.tells plant.old).faults result (P.tells plant.new).faults }
{
    calls_join();
    calls_in_part();
    let Ok(mut bays) = Vec::with_capacity(alloc, routes.len()) else {
        return Err(PlantFail::NoMemory);
    };
    let mut bay = 0u16;
    let mut log_lanes = logs.into_iter();
    let mut hook_lanes = hooks.into_iter();
    for table in routes {
        let Some(log) = log_lanes.next() else {
            unreachable!()
        };
        let Some(hook) = hook_lanes.next() else {
            unreachable!()
        };
        let lanes = Lanes {
            bay,
            log,
            hook,
            log_lines: 0,
            hook_lines: 0,
        };
        let role = make_bay(alloc, plant, shared, options, table, lanes)?;
        bays.push_reserved(role);
        bay += 1;
    }
    Ok(bays)
}
