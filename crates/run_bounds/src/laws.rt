ghost use Rattle.std.specs.Prelude.{◌≤◌, ℕ, List};
ghost use Rattle.audit_core.specs.declared.settings.Settings.{Settings};
ghost use Rattle.front_plants.specs.Plants.{PlantTells};
ghost use Rattle.request_bounds.specs.Bounds.{line_limit};
ghost use Rattle.run_bounds.specs.Bounds.{AllFit, AllRead};
ghost use Rattle.serve_bays.specs.declared.options.RunOptions.{RunOptions};
ghost use Rattle.serve_roles.specs.Doors.{bay_handles};
ghost use Rattle.serve_runs.specs.Served.{RunServed, run_exchanges};
ghost use Rattle.serve_runs.specs.declared.ended.Ended.{Ended};

use alike_requests::a_door_notes_its_requests;
use apiservice_table::Routes;
use front_plants::Plant;
use front_ports::Door;
use request_bounds::no_event_is_too_large;

/// Where lines may have `line_limit` bytes, each event that a bay's exchanges owe fits, at least without its objects, and none is noted as
/// too large, whatever became of the reply.
pub fn no_event_of_a_run_is_too_large<P: Plant, R: Routes>()
    ensures { (set : Settings) (options : RunOptions) (before after : PlantTells P.D.C) (tables : List R)
        (ended : Ended R P.L P.W P.H P.K P.Y P.D)
        (served : RunServed (bay_handles R.Routes P.L.Dial P.W.BatchSink P.H.BatchSink P.K.Clock P.Y.Diary P.D.Door
        P.D.C.Source P.D.C.ByteSink P.D.C.Conn.own) P.Rt set options P.opens before after tables ended)
        → line_limit set.tokens ≤ set.max_event → (bay : ℕ) → AllFit set (run_exchanges served bay) }
{
    a_door_notes_its_requests::<<P::D as Door>::C>();
    no_event_is_too_large();
}

/// The requests of a bay's exchanges were read from bytes that begin with them.
pub fn requests_of_a_run_were_read<P: Plant, R: Routes>()
    ensures { (set : Settings) (options : RunOptions) (before after : PlantTells P.D.C) (tables : List R)
        (ended : Ended R P.L P.W P.H P.K P.Y P.D)
        (served : RunServed (bay_handles R.Routes P.L.Dial P.W.BatchSink P.H.BatchSink P.K.Clock P.Y.Diary P.D.Door
        P.D.C.Source P.D.C.ByteSink P.D.C.Conn.own) P.Rt set options P.opens before after tables ended)
        → (bay : ℕ) → AllRead (run_exchanges served bay) }
{}
