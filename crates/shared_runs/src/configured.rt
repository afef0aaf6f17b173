ghost use Rattle.std.specs.Prelude.{◌≡◌, ◌≤◌, ◌⊎◌, [], length, true};
ghost use Rattle.front_base.specs.declared.address.Address.{Address};
ghost use Rattle.front_base.specs.declared.line.TheConstants.{MOST_LINE_BYTES};
ghost use Rattle.serve_bays.specs.Options.{AreFit};
ghost use Rattle.shared_runs.specs.Setup as spec;
ghost use Rattle.serve_roles.specs.Doors.{bay_handles};
ghost use Rattle.serve_runs.specs.Causes.{NothingRan};
ghost use Rattle.serve_runs.specs.Served.{RunServed};

use crate::setup::options_of;
use apiservice_table::Routes;
use audit_core::Settings;
use front_base::{Address, MOST_LINE_BYTES};
use front_plants::Plant;
use front_ports::{Dial, Door};
use local_replies::LocalPaths;
use serve_config::ServeWords;
use serve_runs::{Ended, RunStatus, no_calls_yet, nothing_ran, run_serve};
use std::alloc::Global;

/// Whether numbers are such as a run may have. Those that `serve_config::read_serve` gives are.
pub fn can_run(words: &ServeWords) -> bool
    ensures options { (listen : Address) → result ≡ true → AreFit (spec.options_of words.now listen) }
    ensures max { result ≡ true → words.now.max_event ≤ MOST_LINE_BYTES }
{
    words.bays > 0
        && words.bays <= 1024
        && words.batch.buffer > 0
        && words.batch.max_lines > 0
        && words.max_event <= MOST_LINE_BYTES
}

/// Runs what words ask for, by these settings, over a plant whose doors listen at this address, with these routes, one for each bay.
///
/// It ends once every bay has stopped, and all that was accepted is put before it ends. After `Unopened` and `NoMemory`
/// nothing ran.
pub fn run_configured<P: Plant + Send, R: Routes + Drop + Send>(
    rt: &P::Rt,
    alloc: Global,
    words: &ServeWords,
    settings: Settings,
    listen: Address,
    routes: Vec<R>,
    plant: &mut P,
) -> Ended<R, P::L, P::W, P::H, P::K, P::Y, P::D>
where
    P::Rt: Send + Sync,
    P::D: Send,
    <P::D as Door>::C: Send,
    P::L: Send,
    <P::L as Dial>::K: Send,
    P::K: Send,
    P::Y: Send,
    P::W: Send,
    P::H: Send,
    requires options { AreFit (spec.options_of words.now listen) }
    requires routes { length routes.items ≡ words.now.bays }
    requires max { settings.max_event ≤ MOST_LINE_BYTES }
    ensures { RunServed (bay_handles R.Routes P.L.Dial P.W.BatchSink P.H.BatchSink P.K.Clock P.Y.Diary P.D.Door
        P.D.C.Source P.D.C.ByteSink P.D.C.Conn.own) P.Rt settings
        (spec.options_of words.now listen) P.opens (P.tells plant.old) (P.tells plant.new) routes.items result
        ⊎ NothingRan settings (spec.options_of words.now listen) (P.tells plant.old) (P.tells plant.new) result }
{
    no_calls_yet();
    let Ok(paths) = LocalPaths::new(alloc) else {
        return nothing_ran(alloc, RunStatus::NoMemory);
    };
    let Ok(options) = options_of(alloc, words, listen) else {
        return nothing_ran(alloc, RunStatus::NoMemory);
    };
    run_serve(rt, alloc, settings, paths, &options, routes, plant)
}
