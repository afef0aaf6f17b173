ghost use Rattle.std.specs.Prelude.{◌≡◌, ◌⊎◌, List};
ghost use Rattle.audit_core.specs.Offers.{mode_of};
ghost use Rattle.audit_core.specs.declared.settings.Settings.{Settings};
ghost use Rattle.audit_core.specs.declared.sinks.Sink.{Sink};
ghost use Rattle.audit_core.specs.declared.sinks.SinkMode.TheVariants.{Batch, Blocking, Strict};
ghost use Rattle.front_plants.specs.Plants.{PlantTells};
ghost use Rattle.serve_bays.specs.declared.options.RunOptions.{RunOptions};
ghost use Rattle.serve_bays.specs.Sides.{side_opens};
ghost use Rattle.run_laws.specs.Record.{AreGiven, audit_bytes, bytes_for, run_record, sinks_of};
ghost use Rattle.run_laws.specs.Sides.{run_tries, side_allots, side_end, side_sink};
ghost use Rattle.run_laws.specs.Told.{BatchesAre, BatchesTell, TriesTell};
ghost use Rattle.serve_roles.specs.Doors.{bay_handles};
ghost use Rattle.serve_runs.specs.Served.{RunServed, run_exchanges};
ghost use Rattle.serve_runs.specs.declared.ended.Ended.{Ended};

use apiservice_table::Routes;
use connection_laws::refusals_are_counted;
use event_offers::each_lane_gets_its_lines;
use front_plants::Plant;
use serve_bays::new_sinks_send_their_tries;
use truncate_backend::{first_tries_join, own_sinks_stay};

/// Whatever bays did, and in whatever order threads ran: the batches of a sink have, of each bay, the lines of its offers that were
/// taken, in order and each once. The offers are those of the exchanges that the bay's connections had.
pub fn accepted_lines_are_batched<P: Plant, R: Routes>()
    ensures { let h = bay_handles R.Routes P.L.Dial P.W.BatchSink P.H.BatchSink P.K.Clock P.Y.Diary P.D.Door
        P.D.C.Source P.D.C.ByteSink P.D.C.Conn.own in
        (sink : Sink) (set : Settings) (options : RunOptions) (before after : PlantTells P.D.C) (tables : List R)
        (ended : Ended R P.L P.W P.H P.K P.Y P.D)
        (served : RunServed h P.Rt set options P.opens before after tables ended)
        → mode_of set sink ≡ Batch
        → BatchesTell h (side_sink h sink) (side_opens P.opens options sink) set sink options (side_allots served sink) (run_exchanges served)
        ended.bays.items (side_end ended sink) }
{
    each_lane_gets_its_lines();
    refusals_are_counted();
}

/// The same of the tries that the contract of the run speaks of, `run_tries`: those of the sink's drainer, whether its sink tells them
/// or not.
pub fn drained_tries_are_batched<P: Plant, R: Routes>()
    ensures { let h = bay_handles R.Routes P.L.Dial P.W.BatchSink P.H.BatchSink P.K.Clock P.Y.Diary P.D.Door
        P.D.C.Source P.D.C.ByteSink P.D.C.Conn.own in
        (sink : Sink) (set : Settings) (options : RunOptions) (before after : PlantTells P.D.C) (tables : List R)
        (ended : Ended R P.L P.W P.H P.K P.Y P.D)
        (served : RunServed h P.Rt set options P.opens before after tables ended)
        → mode_of set sink ≡ Batch
        → BatchesAre h (side_sink h sink) (side_opens P.opens options sink) set sink options (side_allots served sink) (run_exchanges served)
        ended.bays.items (side_end ended sink) (run_tries served sink) }
{
    each_lane_gets_its_lines();
    refusals_are_counted();
}

/// A sink that is written to at once is tried with one line of each offer that was taken or failed, in order, of the exchanges that the
/// bay's connections had.
pub fn tried_lines_are_those_offered<P: Plant, R: Routes>()
    ensures { let h = bay_handles R.Routes P.L.Dial P.W.BatchSink P.H.BatchSink P.K.Clock P.Y.Diary P.D.Door
        P.D.C.Source P.D.C.ByteSink P.D.C.Conn.own in
        (sink : Sink) (set : Settings) (options : RunOptions) (before after : PlantTells P.D.C) (tables : List R)
        (ended : Ended R P.L P.W P.H P.K P.Y P.D)
        (served : RunServed h P.Rt set options P.opens before after tables ended)
        → (mode_of set sink ≡ Blocking) ⊎ (mode_of set sink ≡ Strict)
        → TriesTell h (side_sink h sink) (side_opens P.opens options sink) set sink (run_exchanges served) ended.bays.items (side_end ended sink) }
{
    each_lane_gets_its_lines();
    new_sinks_send_their_tries();
    own_sinks_stay();
    first_tries_join();
}

/// What the port of each sink was given over the whole run is `audit_bytes` of the run's record: of the exchanges of each bay, whose
/// turn each line was, and what was noted of tries.
pub fn sent_bytes_are_those_of_the_record<P: Plant, R: Routes>()
    ensures { let h = bay_handles R.Routes P.L.Dial P.W.BatchSink P.H.BatchSink P.K.Clock P.Y.Diary P.D.Door
        P.D.C.Source P.D.C.ByteSink P.D.C.Conn.own in
        (sink : Sink) (set : Settings) (options : RunOptions) (before after : PlantTells P.D.C) (tables : List R)
        (ended : Ended R P.L P.W P.H P.K P.Y P.D)
        (served : RunServed h P.Rt set options P.opens before after tables ended)
        → AreGiven (side_sink h sink) (side_opens P.opens options sink).sent (sinks_of (mode_of set sink) (side_end ended sink))
        (bytes_for (audit_bytes set options.hook_url (run_record served)) sink) }
{
    accepted_lines_are_batched::<P, R>();
    tried_lines_are_those_offered::<P, R>();
}
