ghost use Rattle.std.specs.Prelude.{◌≡◌, ◌⊎◌, ◌↔◌, ℕ, List, slice_get, IfSome};
ghost use Rattle.audit_core.specs.Offers.{Due, mode_of};
ghost use Rattle.audit_core.specs.declared.link_note.LinkNote.TheVariants.{DialFailed, LinkFault};
ghost use Rattle.audit_core.specs.declared.settings.Settings.{Settings};
ghost use Rattle.audit_core.specs.declared.sinks.Sink.{Sink};
ghost use Rattle.audit_core.specs.declared.sinks.SinkMode.TheVariants.{Batch, Blocking, Strict};
ghost use Rattle.front_plants.specs.Plants.{PlantTells};
ghost use Rattle.front_ports.specs.Cause.{Rose};
ghost use Rattle.http_edge.specs.declared.request.Request.{Request};
ghost use Rattle.serve_bays.specs.declared.options.RunOptions.{RunOptions};
ghost use Rattle.run_laws.specs.Kept.{AllClosed, BatchesKeepAll, TriesKeepAll, lines_due};
ghost use Rattle.run_laws.specs.Sides.{side_allots, side_end, side_sink};
ghost use Rattle.serve_roles.specs.Doors.{bay_handles};
ghost use Rattle.serve_runs.specs.Served.{RunServed, run_exchanges};
ghost use Rattle.serve_runs.specs.declared.ended.Ended.{Ended};
ghost use Rattle.serve_runs.specs.declared.ended.RunStatus.TheVariants.{Done};
ghost use Rattle.session_core.specs.Bays.{BayState};
ghost use Rattle.session_core.specs.Exchange.{ExchangedTo};
ghost use Rattle.session_core.specs.declared.exchange.Exchange.{Exchange};
ghost use Rattle.stream_relay.specs.declared.stream.Relayed.{Relayed};

use apiservice_table::Routes;
use connection_laws::refusals_are_counted;
use event_offers::each_lane_gets_its_lines;
use front_plants::Plant;

/// The lines that a bay owes a sink have its number, and are numbered from 0 in order. So no two of them are equal.
pub fn owed_lines_are_numbered()
    ensures { (sink : Sink) (bay : ℕ) (dues : List Due) (k : ℕ) → IfSome (slice_get (lines_due sink bay 0 dues) k)
        (λ line. (line.bay ≡ bay) × (line.number ≡ k)) }
{}

/// A sink in batch mode: each line that a bay owed stands in the tries, unless its offer was Full, and none is Full where
/// the queue has room for all allotments.
pub fn nothing_is_lost_in_batches<P: Plant, R: Routes>()
    ensures { let h = bay_handles R.Routes P.L.Dial P.W.BatchSink P.H.BatchSink P.K.Clock P.Y.Diary P.D.Door
        P.D.C.Source P.D.C.ByteSink P.D.C.Conn.own in
        (sink : Sink) (set : Settings) (options : RunOptions) (before after : PlantTells P.D.C) (tables : List R)
        (ended : Ended R P.L P.W P.H P.K P.Y P.D)
        (served : RunServed h P.Rt set options P.opens before after tables ended)
        → mode_of set sink ≡ Batch
        → BatchesKeepAll h (side_sink h sink) set sink options (side_allots served sink) (run_exchanges served) ended.bays.items (side_end ended sink) }
{
    each_lane_gets_its_lines();
    refusals_are_counted();
}

/// A sink that is written to at once and counted no fault and no refusal wrote each line that its bay owed.
pub fn nothing_is_lost_at_once<P: Plant, R: Routes>()
    ensures { let h = bay_handles R.Routes P.L.Dial P.W.BatchSink P.H.BatchSink P.K.Clock P.Y.Diary P.D.Door
        P.D.C.Source P.D.C.ByteSink P.D.C.Conn.own in
        (sink : Sink) (set : Settings) (options : RunOptions) (before after : PlantTells P.D.C) (tables : List R)
        (ended : Ended R P.L P.W P.H P.K P.Y P.D)
        (served : RunServed h P.Rt set options P.opens before after tables ended)
        → (mode_of set sink ≡ Blocking) ⊎ (mode_of set sink ≡ Strict)
        → TriesKeepAll h (side_sink h sink) set sink (run_exchanges served) ended.bays.items (side_end ended sink) }
{
    each_lane_gets_its_lines();
    refusals_are_counted();
}

/// A run ends with status 0 exactly where every bay stopped since its door gave no more: where no door failed, and no bay's numbers
/// were spent.
pub fn a_run_without_faults_is_done<P: Plant, R: Routes>()
    ensures { (set : Settings) (options : RunOptions) (before after : PlantTells P.D.C) (tables : List R)
        (ended : Ended R P.L P.W P.H P.K P.Y P.D)
        → RunServed (bay_handles R.Routes P.L.Dial P.W.BatchSink P.H.BatchSink P.K.Clock P.Y.Diary P.D.Door
        P.D.C.Source P.D.C.ByteSink P.D.C.Conn.own) P.Rt set options P.opens before after tables ended
        → (ended.status ≡ Done) ↔ AllClosed ended.bays.items }
{}

/// An exchange is noted with a failed dial, or with a failed link, only where its dial counted that, or where the count stood at its last
/// value.
pub fn failed_links_are_counted()
    ensures dial { (set : Settings) (peer : List ℕ) (r : Request) (m : BayState) (text : List ℕ) (n : BayState) (end : Relayed) (x : Exchange)
        → ExchangedTo set peer r m text n end x → x.link ≡ DialFailed → Rose m.dial.faults n.dial.faults }
    ensures link { (set : Settings) (peer : List ℕ) (r : Request) (m : BayState) (text : List ℕ) (n : BayState) (end : Relayed) (x : Exchange)
        → ExchangedTo set peer r m text n end x → x.link ≡ LinkFault → Rose m.dial.link_faults n.dial.link_faults }
{}
