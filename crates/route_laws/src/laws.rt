ghost use Rattle.std.specs.Prelude.{◌≡◌, List, true};
ghost use Rattle.apiservice_rows.specs.Row.{Row};
ghost use Rattle.audit_core.specs.declared.settings.Settings.{Settings};
ghost use Rattle.front_plants.specs.Plants.{PlantTells};
ghost use Rattle.logbook.specs.Pages.{Book};
ghost use Rattle.route_history.specs.History.{History};
ghost use Rattle.route_laws.specs.Decided.{RunDecided};
ghost use Rattle.serve_bays.specs.declared.options.RunOptions.{RunOptions};
ghost use Rattle.serve_roles.specs.Doors.{bay_handles};
ghost use Rattle.serve_runs.specs.declared.ended.Ended.{Ended};
ghost use Rattle.shared_runs.specs.Runs.{RunShared, shared_routes};

use front_plants::Plant;

/// Of a run whose changes were counted: each was made by a request of a bay of the run, and no look-up made one. Each request was
/// decided by the file's rows after a prefix of these changes.
pub fn each_change_is_made_by_a_request<P: Plant>()
    ensures { let h = bay_handles shared_routes P.L.Dial P.W.BatchSink P.H.BatchSink P.K.Clock P.Y.Diary P.D.Door
        P.D.C.Source P.D.C.ByteSink P.D.C.Conn.own in
        (set : Settings) (options : RunOptions) (home : Book) (opening : List Row) (before after : PlantTells P.D.C)
        (left : Ended History P.L P.W P.H P.K P.Y P.D)
        (run : RunShared h P.Rt set options P.opens home opening before after left true)
        → RunDecided set opening run }
{}
