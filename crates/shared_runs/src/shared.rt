ghost use Rattle.std.specs.Prelude.{◌≡◌, ◌≤◌, ◌⊎◌, []};
ghost use Rattle.front_base.specs.declared.line.TheConstants.{MOST_LINE_BYTES};
ghost use Rattle.serve_bays.specs.Options.{AreFit};
ghost use Rattle.shared_runs.specs.Setup.{options_of};
ghost use Rattle.serve_roles.specs.Doors.{bay_handles};
ghost use Rattle.serve_runs.specs.Causes.{NothingRan};
ghost use Rattle.shared_runs.specs.Runs.{RunShared, shared_routes};

use crate::configured::run_configured;
use crate::history::all_saw_one;
use crate::unnamed::{Closed, close_bays};
use audit_core::Settings;
use front_base::Address;
use front_plants::Plant;
use front_ports::{Dial, Door};
use route_history::{NewRoutes, RouteName, SeenHistory};
use route_share::{SharedTable, share_routes};
use serve_config::ServeWords;
use serve_runs::{Ended, RunStatus, no_calls_yet, nothing_ran};
use std::alloc::Global;
use std::sync::ledger::Blank;

/// What a run over one table leaves.
#[derive(Drop)]
pub struct SharedEnd<L, W, H, K, Y, D> {
    pub ended: Ended<SeenHistory, L, W, H, K, Y, D>,
    /// Whether the changes of the table were counted at the end. Then each was made by a bay of the run.
    pub counted: bool,
}

/// Runs what words ask for, by these settings, over a plant whose doors listen at this address, with one table for all bays, whose
/// history has this name, and whose ledger has a part for each bay.
///
/// It ends once every bay has stopped, and all that was accepted is put before it ends. After `Unopened` and `NoMemory`
/// nothing ran.
pub fn run_shared<N: RouteName + Send + Sync, P: Plant + Send>(
    rt: &P::Rt,
    alloc: Global,
    words: &ServeWords,
    settings: Settings,
    listen: Address,
    routes: NewRoutes,
    blank: Blank,
    plant: &mut P,
) -> SharedEnd<P::L, P::W, P::H, P::K, P::Y, P::D>
where
    P::Rt: Send + Sync,
    P::D: Send,
    <P::D as Door>::C: Send,
    P::L: Send,
    <P::L as Dial>::K: Send,
    P::K: Send,
    P::Y: Send,
    P::W: Send,
    P::H: Send,
    requires home { routes.home ≡ N.home }
    requires opening { routes.opening ≡ N.opening }
    requires ledger { (blank.name ≡ N.name) × (blank.parts ≡ N.parts) }
    requires parts { blank.parts ≡ words.now.bays }
    requires options { AreFit (options_of words.now listen) }
    requires max { settings.max_event ≤ MOST_LINE_BYTES }
    ensures { RunShared (bay_handles shared_routes P.L.Dial P.W.BatchSink P.H.BatchSink P.K.Clock P.Y.Diary P.D.Door
        P.D.C.Source P.D.C.ByteSink P.D.C.Conn.own) P.Rt settings
        (options_of words.now listen) P.opens N.home N.opening (P.tells plant.old) (P.tells plant.new) result.ended result.counted
        ⊎ NothingRan settings (options_of words.now listen) (P.tells plant.old) (P.tells plant.new) result.ended }
{
    no_calls_yet();
    let Ok(room) = Vec::with_capacity(alloc, usize::from(words.bays)) else {
        return SharedEnd {
            ended: nothing_ran(alloc, RunStatus::NoMemory),
            counted: false,
        };
    };
    let Ok(table) = share_routes::<N, P::Rt>(*rt, alloc, routes, blank, words.bays) else {
        return SharedEnd {
            ended: nothing_ran(alloc, RunStatus::NoMemory),
            counted: false,
        };
    };
    let SharedTable { writer, routes } = table;
    let Ended {
        status,
        bays,
        log,
        hook,
    } = run_configured(rt, alloc, words, settings, listen, routes, plant);
    all_saw_one(bays.as_slice());
    let Closed { bays, counted } = close_bays(rt, &writer, words.bays, room, bays);
    let ended = Ended {
        status,
        bays,
        log,
        hook,
    };
    SharedEnd { ended, counted }
}
