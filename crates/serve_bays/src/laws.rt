ghost use Rattle.std.specs.Prelude.{◌≡◌, ℕ, List, Option, Some, All, [], ◌++◌};
ghost use Rattle.front_plants.specs.Fresh.{Openings, SinkOpens, IsNewSink, SentAll, log_opens};
ghost use Rattle.front_plants.specs.declared.call.PlantCall.{PlantCall};
ghost use Rattle.log_sink.specs.Texts.{log_text};
ghost use Rattle.serve_bays.specs.LaneCalls.{CallsPart};
ghost use Rattle.serve_bays.specs.Served.{CanAllEnd, AreAllServed};
ghost use Rattle.truncate_backend.specs.Told.{Joined};
ghost use Rattle.truncate_backend.specs.Tries.{Try, SinkTells, KeepsSent, IsDone, lines_of, texts_of};

use front_ports::Clock;
use log_sink::log_texts_join;
use sink_lanes::lanes_stay_together;
use std::sync::Wait;
use truncate_backend::{
    BatchSink, first_tries_join, tries_keep_what_was_sent, tries_send_their_texts,
};

/// What becomes of the lanes of a sink, whatever its mode: they can be taken back once bays and drainers have run, and what is left
/// then accounts for all lines that were accepted.
pub fn lanes_are_served<S: BatchSink, R: Wait + Copy + Drop, K: Clock>()
    ensures can_end { CanAllEnd S R K S.BatchSink K.Clock }
    ensures served { AreAllServed S R K S.BatchSink K.Clock }
{
    lanes_stay_together::<S, R, K>();
    first_tries_join();
    tries_send_their_texts();
    tries_keep_what_was_sent();
}

/// What the port of a new sink was given is what its tries sent, as long as tries keep that: the text of each, unless its port failed.
pub fn new_sinks_send_their_tries()
    ensures { (opens : SinkOpens) (m n : SinkTells) → IsNewSink opens m → KeepsSent m n → SentAll opens n }
{
    first_tries_join();
    tries_send_their_texts();
}

/// Where each try is Done, the port of a new sink was given the text of each: the port of a log the text of all their lines.
pub fn done_tries_are_written()
    ensures each { (opens : SinkOpens) (sink : SinkTells) (tries : List Try) (bytes : List ℕ)
        → SentAll opens sink → opens.sent ≡ Some (Some []) → sink.tries ≡ Some tries → sink.sent ≡ Some (Some bytes)
        → All IsDone tries → bytes ≡ texts_of opens.text tries }
    ensures log { (opens : Openings) (sink : SinkTells) (tries : List Try) (bytes : List ℕ)
        → SentAll (log_opens opens) sink → opens.log ≡ Some (Some []) → sink.tries ≡ Some tries → sink.sent ≡ Some (Some bytes)
        → All IsDone tries → bytes ≡ log_text (lines_of tries) }
{
    log_texts_join();
    tries_send_their_texts();
}

/// Calls one after another are all of these calls, where a plant tells them; and who makes none adds none.
pub fn calls_join()
    ensures join { (a b c : Option (List PlantCall)) (xs ys : List PlantCall)
        → Joined a xs b → Joined b ys c → Joined a (xs ++ ys) c }
    ensures none { (a : Option (List PlantCall)) → Joined a [] a }
{}

/// Calls of which some were made, from the first one on.
pub fn calls_in_part()
    ensures none { (a : Option (List PlantCall)) (xs : List PlantCall) → CallsPart xs a a }
    ensures whole { (a b : Option (List PlantCall)) (xs : List PlantCall) → Joined a xs b → CallsPart xs a b }
    ensures less { (a b : Option (List PlantCall)) (xs ys : List PlantCall) → CallsPart xs a b → CallsPart (xs ++ ys) a b }
    ensures more { (a b c : Option (List PlantCall)) (xs ys : List PlantCall)
        → Joined a xs b → CallsPart ys b c → CallsPart (xs ++ ys) a c }
{}
