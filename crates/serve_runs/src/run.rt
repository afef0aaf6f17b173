ghost use Rattle.std.specs.Prelude.{◌≡◌, ◌≤◌, ◌⊎◌, [], IfOk, OnErr, length};
ghost use Rattle.front_base.specs.declared.line.TheConstants.{MOST_LINE_BYTES};
ghost use Rattle.front_plants.specs.Plants.{HasCause};
ghost use Rattle.serve_bays.specs.Options.{AreFit};
ghost use Rattle.serve_roles.specs.Doors.{bay_handles};
ghost use Rattle.serve_runs.specs.Causes.{NothingRan};
ghost use Rattle.serve_runs.specs.Made.{RunCallsPart};
ghost use Rattle.serve_runs.specs.Served.{RunServed};

use crate::ended::{Ended, RunStatus};
use crate::ending::LogEnded;
use crate::roles::make_roles;
use crate::running::run_all;
use crate::status::status_of;
use apiservice_table::Routes;
use audit_core::Settings;
use front_plants::{Plant, PlantFail};
use front_ports::{Dial, Door};
use local_replies::LocalPaths;
use serve_bays::{RunOptions, calls_in_part, lanes_are_served};
use serve_roles::EndRoom;
use sink_lanes::{SinkEnd, SinkRoom, end_lanes};
use std::alloc::Global;

// What a run over a plant leaves.
type PlantEnded<P, R> = Ended<
    R,
    <P as Plant>::L,
    <P as Plant>::W,
    <P as Plant>::H,
    <P as Plant>::K,
    <P as Plant>::Y,
    <P as Plant>::D,
>;

// The run, or why there was none.
fn serve<P: Plant + Send, R: Routes + Drop + Send>(
    rt: &P::Rt,
    alloc: Global,
    settings: Settings,
    paths: LocalPaths,
    options: &RunOptions,
    routes: Vec<R>,
    plant: &mut P,
) -> Result<PlantEnded<P, R>, PlantFail>
where
    P::Rt: Send + Sync,
    P::D: Send,
    <P::D as Door>::C: Send,
    P::L: Send,
    <P::L as Dial>::K: Send,
    P::K: Send,
    P::Y: Send,
    P::W: Send,
    P::H: Send,
    requires options { AreFit options.now }
    requires routes { length routes.items ≡ options.now.bays }
    requires max { settings.max_event ≤ MOST_LINE_BYTES }
    ensures served { IfOk result (RunServed (bay_handles R.Routes P.L.Dial P.W.BatchSink P.H.BatchSink P.K.Clock P.Y.Diary P.D.Door
        P.D.C.Source P.D.C.ByteSink P.D.C.Conn.own) P.Rt settings options.now P.opens (P.tells plant.old) (P.tells plant.new) routes.items) }
    ensures stopped { OnErr result (RunCallsPart settings options.now (P.tells plant.old).made (P.tells plant.new).made) }
    ensures cause { HasCause (P.tells plant.old).faults result (P.tells plant.new).faults }
{
    lanes_are_served::<P::W, P::Rt, P::K>();
    lanes_are_served::<P::H, P::Rt, P::K>();
    calls_in_part();
    let count = usize::from(options.bays);
    let room = EndRoom::new(alloc, count)?;
    let log_room = SinkRoom::new(alloc, count)?;
    let hook_room = SinkRoom::new(alloc, count)?;
    let roles = make_roles(rt, alloc, plant, settings, paths, options, routes)?;
    let (left, hook) = run_all(rt, roles, room, log_room);
    let LogEnded { bays, log, hooks } = left;
    let hook = end_lanes(hook_room, hooks, hook);
    Ok(Ended {
        status: status_of(bays.as_slice()),
        bays,
        log,
        hook,
    })
}

/// What is left where nothing ran.
pub fn nothing_ran<R, L, W, H, K, Y, D>(
    alloc: Global,
    status: RunStatus,
) -> Ended<R, L, W, H, K, Y, D>
    ensures { (result.status ≡ status) × (result.bays.items ≡ []) }
{
    Ended {
        status,
        bays: Vec::new(alloc),
        log: SinkEnd {
            own: Vec::new(alloc),
            drain: None,
        },
        hook: SinkEnd {
            own: Vec::new(alloc),
            drain: None,
        },
    }
}

/// The run of `serve`: each bay serves its door in a thread of its own, while a drainer of each sink in batch mode puts the lines
/// that they offer. There is a table of routes for each bay.
///
/// It ends once every bay has stopped: where its door gives no more connections or fails, or where the bay has no number for one
/// more request. All that was accepted is put before it ends. After `Unopened` and `NoMemory` nothing ran.
pub fn run_serve<P: Plant + Send, R: Routes + Drop + Send>(
    rt: &P::Rt,
    alloc: Global,
    settings: Settings,
    paths: LocalPaths,
    options: &RunOptions,
    routes: Vec<R>,
    plant: &mut P,
) -> Ended<R, P::L, P::W, P::H, P::K, P::Y, P::D>
where
    P::Rt: Send + Sync,
    P::D: Send,
    <P::D as Door>::C: Send,
    P::L: Send,
    <P::L as Dial>::K: Send,
    P::K: Send,
    P::Y: Send,
    P::W: Send,
    P::H: Send,
    requires options { AreFit options.now }
    requires routes { length routes.items ≡ options.now.bays }
    requires max { settings.max_event ≤ MOST_LINE_BYTES }
    ensures { RunServed (bay_handles R.Routes P.L.Dial P.W.BatchSink P.H.BatchSink P.K.Clock P.Y.Diary P.D.Door
        P.D.C.Source P.D.C.ByteSink P.D.C.Conn.own) P.Rt settings options.now P.opens (P.tells plant.old) (P.tells plant.new) routes.items result
        ⊎ NothingRan settings options.now (P.tells plant.old) (P.tells plant.new) result }
{
    match serve(rt, alloc, settings, paths, options, routes, plant) {
        Ok(ended) => ended,
        Err(PlantFail::Port(fault)) => nothing_ran(alloc, RunStatus::Unopened(fault)),
        Err(PlantFail::NoMemory) => nothing_ran(alloc, RunStatus::NoMemory),
    }
}
