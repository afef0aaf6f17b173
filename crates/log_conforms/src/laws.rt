ghost use Rattle.std.specs.Prelude.{◌≡◌, ◌⊎◌, Bool, List, []};
ghost use Rattle.audit_check.specs.Conforms.{AllConform};
ghost use Rattle.audit_check.specs.OwnLines.{AreOfFile};
ghost use Rattle.audit_core.specs.Offers.{mode_of};
ghost use Rattle.audit_core.specs.declared.offers.Outcome.{Outcome};
ghost use Rattle.audit_core.specs.declared.settings.Settings.{Settings};
ghost use Rattle.audit_core.specs.declared.sinks.Sink.{Sink};
ghost use Rattle.audit_core.specs.declared.sinks.SinkMode.TheVariants.{Batch, Blocking, Strict};
ghost use Rattle.bay_logs.specs.Woven.{AreWoven, texts};
ghost use Rattle.front_base.specs.Line.{Line};
ghost use Rattle.front_plants.specs.Plants.{PlantTells};
ghost use Rattle.log_conforms.specs.Conforming.{AreTriedByBays, BatchesConform};
ghost use Rattle.run_laws.specs.Sides.{side_allots, side_end, side_sink};
ghost use Rattle.serve_bays.specs.declared.options.RunOptions.{RunOptions};
ghost use Rattle.serve_bays.specs.Sides.{side_opens};
ghost use Rattle.serve_roles.specs.Doors.{bay_handles};
ghost use Rattle.serve_runs.specs.Served.{RunServed, run_exchanges};
ghost use Rattle.serve_runs.specs.declared.ended.Ended.{Ended};

use apiservice_table::Routes;
use bay_logs::{exchanges_are_recorded, parts_conform, woven_lines_conform};
use front_plants::Plant;
use front_ports::Door;
use run_laws::{accepted_lines_are_batched, tried_lines_are_those_offered};

/// Lines conform to the policy of a run that have of each bay, in order, the lines of those offers to a sink that became such, as all
/// that were taken, or tried. It holds in whichever order the bays take turns. Here and below the known tokens are those of a token file, or none.
pub fn lines_of_a_run_conform<P: Plant, R: Routes>()
    ensures { (set : Settings) (options : RunOptions) (before after : PlantTells P.D.C) (tables : List R)
        (ended : Ended R P.L P.W P.H P.K P.Y P.D)
        (served : RunServed (bay_handles R.Routes P.L.Dial P.W.BatchSink P.H.BatchSink P.K.Clock P.Y.Diary P.D.Door
        P.D.C.Source P.D.C.ByteSink P.D.C.Conn.own) P.Rt set options P.opens before after tables ended)
        → AreOfFile set.tokens
        → (keeps : Outcome → Bool) (sink : Sink) (lines : List Line) → AreWoven keeps set sink (run_exchanges served) lines
        → AllConform set.policy [] (texts lines) }
{
    exchanges_are_recorded::<<P::D as Door>::C>();
    woven_lines_conform();
}

/// A sink in batch mode: the lines of its tries, joined, conform to the policy of the run, and so do those that were written.
pub fn batched_logs_conform<P: Plant, R: Routes>()
    ensures { let h = bay_handles R.Routes P.L.Dial P.W.BatchSink P.H.BatchSink P.K.Clock P.Y.Diary P.D.Door
        P.D.C.Source P.D.C.ByteSink P.D.C.Conn.own in
        (sink : Sink) (set : Settings) (options : RunOptions) (before after : PlantTells P.D.C) (tables : List R)
        (ended : Ended R P.L P.W P.H P.K P.Y P.D)
        (served : RunServed h P.Rt set options P.opens before after tables ended)
        → AreOfFile set.tokens
        → mode_of set sink ≡ Batch
        → BatchesConform h (side_sink h sink) (side_opens P.opens options sink) set sink options (side_allots served sink) (run_exchanges served)
        ended.bays.items (side_end ended sink) }
{
    accepted_lines_are_batched::<P, R>();
    lines_of_a_run_conform::<P, R>();
    parts_conform();
}

/// A sink that is written to at once: the lines of all tries of the bays' own sinks conform to the policy of the run, in whichever order
/// the bays made them, where each of these sinks tells its tries.
pub fn logs_at_once_conform<P: Plant, R: Routes>()
    ensures { let h = bay_handles R.Routes P.L.Dial P.W.BatchSink P.H.BatchSink P.K.Clock P.Y.Diary P.D.Door
        P.D.C.Source P.D.C.ByteSink P.D.C.Conn.own in
        (sink : Sink) (set : Settings) (options : RunOptions) (before after : PlantTells P.D.C) (tables : List R)
        (ended : Ended R P.L P.W P.H P.K P.Y P.D)
        (served : RunServed h P.Rt set options P.opens before after tables ended)
        → AreOfFile set.tokens
        → (mode_of set sink ≡ Blocking) ⊎ (mode_of set sink ≡ Strict) → (lines : List Line)
        → AreTriedByBays (side_sink h sink) (side_end ended sink).own.items lines → AllConform set.policy [] (texts lines) }
{
    lines_of_a_run_conform::<P, R>();
    tried_lines_are_those_offered::<P, R>();
}
