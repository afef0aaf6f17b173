ghost use Rattle.std.specs.Prelude.{◌≡◌, ◌≤◌, ◌∷◌, [], ℕ, IfOk, OnErr, length};
ghost use Rattle.std.specs.Arc.{arc_value};
ghost use Rattle.front_base.specs.declared.line.TheConstants.{MOST_LINE_BYTES};
ghost use Rattle.front_plants.specs.Plants.{HasCause};
ghost use Rattle.front_plants.specs.declared.call.PlantCall.TheVariants as calls;
ghost use Rattle.serve_bays.specs.Options.{AreFit};
ghost use Rattle.serve_roles.specs.Doors.{bay_handles};
ghost use Rattle.serve_runs.specs.Made.{AreMade, RunCallsPart};
ghost use Rattle.truncate_backend.specs.Told.{Joined};

use apiservice_table::Routes;
use audit_core::Settings;
use front_plants::{Plant, PlantFail};
use local_replies::LocalPaths;
use queue_drain::QueueDrain;
use role_threads::Roles;
use serve_bays::{
    LogSide, RunOptions, SharedParts, WebhookSide, calls_in_part, calls_join, make_bays, side_lanes,
};
use serve_roles::BayRole;
use sink_lanes::SinkLanes;
use std::alloc::Global;
use std::sync::Arc;

// The role of a bay over a plant.
type PlantRole<P, R> = BayRole<
    R,
    <P as Plant>::L,
    <P as Plant>::W,
    <P as Plant>::H,
    <P as Plant>::Rt,
    <P as Plant>::K,
    <P as Plant>::Y,
    <P as Plant>::D,
>;

// All that runs over a plant.
pub(crate) type PlantRoles<P, R> = Roles<
    PlantRole<P, R>,
    QueueDrain<<P as Plant>::W, <P as Plant>::Rt, <P as Plant>::K>,
    QueueDrain<<P as Plant>::H, <P as Plant>::Rt, <P as Plant>::K>,
>;

// What all bays share.
fn share<P: Plant>(
    alloc: Global,
    plant: &mut P,
    settings: Settings,
    paths: LocalPaths,
) -> Result<SharedParts, PlantFail>
    ensures settings { IfOk result (λ shared. arc_value shared.settings ≡ settings) }
    ensures plant { ((P.tells plant.new).faults ≡ (P.tells plant.old).faults) × ((P.tells plant.new).due ≡ (P.tells plant.old).due) }
    ensures called { IfOk result (λ shared. Joined (P.tells plant.old).made (calls.Boot shared.boot ∷ []) (P.tells plant.new).made) }
    ensures stopped { OnErr result ((boot : ℕ) × Joined (P.tells plant.old).made (calls.Boot boot ∷ []) (P.tells plant.new).made) }
    ensures cause { HasCause (P.tells plant.old).faults result (P.tells plant.new).faults }
{
    let boot = plant.boot();
    let Ok(settings) = Arc::new(alloc, settings) else {
        return Err(PlantFail::NoMemory);
    };
    let Ok(paths) = Arc::new(alloc, paths) else {
        return Err(PlantFail::NoMemory);
    };
    Ok(SharedParts {
        settings,
        paths,
        boot,
    })
}

// The roles of a run.
pub(crate) fn make_roles<P: Plant, R: Routes + Drop>(
    rt: &P::Rt,
    alloc: Global,
    plant: &mut P,
    settings: Settings,
    paths: LocalPaths,
    options: &RunOptions,
    routes: Vec<R>,
) -> Result<PlantRoles<P, R>, PlantFail>
    requires options { AreFit options.now }
    requires routes { length routes.items ≡ options.now.bays }
    requires max { settings.max_event ≤ MOST_LINE_BYTES }
    ensures made { IfOk result (AreMade (bay_handles R.Routes P.L.Dial P.W.BatchSink P.H.BatchSink P.K.Clock P.Y.Diary P.D.Door
        P.D.C.Source P.D.C.ByteSink P.D.C.Conn.own) settings options.now P.opens (P.tells plant.old) (P.tells plant.new) routes.items) }
    ensures stopped { OnErr result (RunCallsPart settings options.now (P.tells plant.old).made (P.tells plant.new).made) }
    ensures cause { HasCause (P.tells plant.old).faults result (P.tells plant.new).faults }
{
    calls_join();
    calls_in_part();
    let (log_mode, hook_mode) = (settings.log, settings.hook);
    let shared = share(alloc, plant, settings, paths)?;
    let log_side = side_lanes::<P, LogSide>(rt, alloc, plant, options, log_mode)?;
    let SinkLanes {
        lanes: logs,
        drain: log,
    } = log_side;
    let hook_side = side_lanes::<P, WebhookSide>(rt, alloc, plant, options, hook_mode)?;
    let SinkLanes {
        lanes: hooks,
        drain: hook,
    } = hook_side;
    let bays = make_bays(alloc, plant, &shared, options, routes, logs, hooks)?;
    Ok(Roles { bays, log, hook })
}
