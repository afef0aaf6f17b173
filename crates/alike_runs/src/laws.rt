ghost use Rattle.std.specs.Prelude.{◌≡◌, ◌⊎◌, ℕ, [], Some};
ghost use Rattle.alike_exchanges.specs.Cuts.{bays_of, counts, lines_each};
ghost use Rattle.alike_runs.specs.AlikeSinks.{AlikeDrains, AlikeOwn, SameDrains, SameOwn};
ghost use Rattle.alike_runs.specs.TwoRuns.{AlikeBays, AlikeRuns, TwoRuns};
ghost use Rattle.audit_core.specs.Offers.{mode_of};
ghost use Rattle.audit_core.specs.declared.settings.Settings.{Settings};
ghost use Rattle.audit_core.specs.declared.sinks.Sink.{Sink};
ghost use Rattle.audit_core.specs.declared.sinks.SinkMode.TheVariants.{Batch, Blocking, Strict};
ghost use Rattle.run_laws.specs.Sides.{run_tries, side_end, side_sink};
ghost use Rattle.serve_bays.specs.declared.options.RunOptions.{RunOptions};
ghost use Rattle.serve_bays.specs.Sides.{side_opens};
ghost use Rattle.serve_roles.specs.Doors.{bay_handles};
ghost use Rattle.serve_runs.specs.declared.ended.Ended.{Ended};
ghost use Rattle.shared_queue.specs.Bays.{of_bay};
ghost use Rattle.truncate_backend.specs.Tries.{lines_of};

use alike_exchanges::{
    alike_exchanges_owe_alike, cut_alike_sent_alike, cuts_part_lines, parts_make_lines,
};
use alike_requests::{a_door_notes_its_requests, alike_requests_are_noted_alike};
use apiservice_table::Routes;
use front_plants::Plant;
use front_ports::Door;
use run_laws::{
    accepted_lines_are_batched, drained_tries_are_batched, tried_lines_are_those_offered,
};

/// Two runs whose bays had alike exchanges sent a sink in mode batch the same bytes, where its tries were cut alike and have
/// lines of the same bays in the same order.
pub fn same_audit<P: Plant, R: Routes>()
    ensures { let h = bay_handles R.Routes P.L.Dial P.W.BatchSink P.H.BatchSink P.K.Clock P.Y.Diary P.D.Door
        P.D.C.Source P.D.C.ByteSink P.D.C.Conn.own in
        (sink : Sink) (set : Settings) (options : RunOptions) (one other : Ended R P.L P.W P.H P.K P.Y P.D)
        (runs : TwoRuns h P.Rt set options P.opens one other)
        → mode_of set sink ≡ Batch → (side_opens P.opens options sink).sent ≡ Some (Some [])
        → AlikeBays h P.Rt set options P.opens one other runs
        → AlikeDrains (side_sink h sink) (side_end one sink) (side_end other sink)
        → SameDrains (side_sink h sink) (side_end one sink) (side_end other sink) }
{
    accepted_lines_are_batched::<P, R>();
    alike_exchanges_owe_alike();
    parts_make_lines();
    cut_alike_sent_alike();
}

/// The same of a sink that is written to at once: each bay's own was sent the same bytes.
pub fn same_audit_at_once<P: Plant, R: Routes>()
    ensures { let h = bay_handles R.Routes P.L.Dial P.W.BatchSink P.H.BatchSink P.K.Clock P.Y.Diary P.D.Door
        P.D.C.Source P.D.C.ByteSink P.D.C.Conn.own in
        (sink : Sink) (set : Settings) (options : RunOptions) (one other : Ended R P.L P.W P.H P.K P.Y P.D)
        (runs : TwoRuns h P.Rt set options P.opens one other)
        → (mode_of set sink ≡ Blocking) ⊎ (mode_of set sink ≡ Strict) → (side_opens P.opens options sink).sent ≡ Some (Some [])
        → AlikeBays h P.Rt set options P.opens one other runs
        → AlikeOwn (side_sink h sink) (side_end one sink) (side_end other sink)
        → SameOwn (side_sink h sink) (side_end one sink) (side_end other sink) }
{
    tried_lines_are_those_offered::<P, R>();
    alike_exchanges_owe_alike();
    cut_alike_sent_alike();
    cuts_part_lines();
}

/// Of two runs whose bays served requests that look alike the bays had alike exchanges.
pub fn alike_requests_make_alike_bays<P: Plant, R: Routes>()
    ensures { (set : Settings) (options : RunOptions) (one other : Ended R P.L P.W P.H P.K P.Y P.D)
        (runs : TwoRuns (bay_handles R.Routes P.L.Dial P.W.BatchSink P.H.BatchSink P.K.Clock P.Y.Diary P.D.Door
        P.D.C.Source P.D.C.ByteSink P.D.C.Conn.own) P.Rt set options P.opens one other)
        → AlikeRuns (bay_handles R.Routes P.L.Dial P.W.BatchSink P.H.BatchSink P.K.Clock P.Y.Diary P.D.Door
        P.D.C.Source P.D.C.ByteSink P.D.C.Conn.own)
        P.Rt set options P.opens one other runs
        → AlikeBays (bay_handles R.Routes P.L.Dial P.W.BatchSink P.H.BatchSink P.K.Clock P.Y.Diary P.D.Door
        P.D.C.Source P.D.C.ByteSink P.D.C.Conn.own)
        P.Rt set options P.opens one other runs }
{
    a_door_notes_its_requests::<<P::D as Door>::C>();
    alike_requests_are_noted_alike();
}

/// From the requests to the bytes: two runs whose bays served requests that look alike, with the same drops and failures, sent each
/// sink the same bytes, where its tries were cut alike. There what lies below the recorded level of a request shows in no sink's bytes.
pub fn alike_requests_leave_the_same_audit<P: Plant, R: Routes>()
    ensures batch { let h = bay_handles R.Routes P.L.Dial P.W.BatchSink P.H.BatchSink P.K.Clock P.Y.Diary P.D.Door
        P.D.C.Source P.D.C.ByteSink P.D.C.Conn.own in
        (sink : Sink) (set : Settings) (options : RunOptions) (one other : Ended R P.L P.W P.H P.K P.Y P.D)
        (runs : TwoRuns h P.Rt set options P.opens one other)
        → mode_of set sink ≡ Batch → (side_opens P.opens options sink).sent ≡ Some (Some [])
        → AlikeRuns h P.Rt set options P.opens one other runs
        → AlikeDrains (side_sink h sink) (side_end one sink) (side_end other sink)
        → SameDrains (side_sink h sink) (side_end one sink) (side_end other sink) }
    ensures at_once { let h = bay_handles R.Routes P.L.Dial P.W.BatchSink P.H.BatchSink P.K.Clock P.Y.Diary P.D.Door
        P.D.C.Source P.D.C.ByteSink P.D.C.Conn.own in
        (sink : Sink) (set : Settings) (options : RunOptions) (one other : Ended R P.L P.W P.H P.K P.Y P.D)
        (runs : TwoRuns h P.Rt set options P.opens one other)
        → (mode_of set sink ≡ Blocking) ⊎ (mode_of set sink ≡ Strict) → (side_opens P.opens options sink).sent ≡ Some (Some [])
        → AlikeRuns h P.Rt set options P.opens one other runs
        → AlikeOwn (side_sink h sink) (side_end one sink) (side_end other sink)
        → SameOwn (side_sink h sink) (side_end one sink) (side_end other sink) }
{
    alike_requests_make_alike_bays::<P, R>();
    same_audit::<P, R>();
    same_audit_at_once::<P, R>();
}

/// A sink in mode batch, whatever ports tell, so over TCP too. Two runs whose bays served requests that look alike tried it with the same
/// lines of each bay, in order. Where the bays took the same turns, these are the same lines in the same order; and where each try had as
/// many lines, the same lines in each try.
pub fn alike_requests_leave_the_same_lines<P: Plant, R: Routes>()
    ensures bays { let h = bay_handles R.Routes P.L.Dial P.W.BatchSink P.H.BatchSink P.K.Clock P.Y.Diary P.D.Door
        P.D.C.Source P.D.C.ByteSink P.D.C.Conn.own in
        (sink : Sink) (set : Settings) (options : RunOptions) (one other : Ended R P.L P.W P.H P.K P.Y P.D)
        (runs : TwoRuns h P.Rt set options P.opens one other)
        → mode_of set sink ≡ Batch → AlikeRuns h P.Rt set options P.opens one other runs
        → (bay : ℕ) → of_bay bay (lines_of (run_tries runs.ran sink)) ≡ of_bay bay (lines_of (run_tries runs.also sink)) }
    ensures lines { let h = bay_handles R.Routes P.L.Dial P.W.BatchSink P.H.BatchSink P.K.Clock P.Y.Diary P.D.Door
        P.D.C.Source P.D.C.ByteSink P.D.C.Conn.own in
        (sink : Sink) (set : Settings) (options : RunOptions) (one other : Ended R P.L P.W P.H P.K P.Y P.D)
        (runs : TwoRuns h P.Rt set options P.opens one other)
        → mode_of set sink ≡ Batch → AlikeRuns h P.Rt set options P.opens one other runs
        → bays_of (lines_of (run_tries runs.ran sink)) ≡ bays_of (lines_of (run_tries runs.also sink))
        → lines_of (run_tries runs.ran sink) ≡ lines_of (run_tries runs.also sink) }
    ensures tries { let h = bay_handles R.Routes P.L.Dial P.W.BatchSink P.H.BatchSink P.K.Clock P.Y.Diary P.D.Door
        P.D.C.Source P.D.C.ByteSink P.D.C.Conn.own in
        (sink : Sink) (set : Settings) (options : RunOptions) (one other : Ended R P.L P.W P.H P.K P.Y P.D)
        (runs : TwoRuns h P.Rt set options P.opens one other)
        → mode_of set sink ≡ Batch → AlikeRuns h P.Rt set options P.opens one other runs
        → bays_of (lines_of (run_tries runs.ran sink)) ≡ bays_of (lines_of (run_tries runs.also sink))
        → counts (run_tries runs.ran sink) ≡ counts (run_tries runs.also sink)
        → lines_each (run_tries runs.ran sink) ≡ lines_each (run_tries runs.also sink) }
{
    alike_requests_make_alike_bays::<P, R>();
    drained_tries_are_batched::<P, R>();
    alike_exchanges_owe_alike();
    parts_make_lines();
    cuts_part_lines();
}
