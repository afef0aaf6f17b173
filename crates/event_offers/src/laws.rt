ghost use Rattle.std.specs.Prelude.{◌≡◌, ◌≤◌, ◌+◌, ◌++◌, List, length, false};
ghost use Rattle.audit_core.specs.Offers.{Due, offers_due, AreNotes, has_refused, is_first};
ghost use Rattle.audit_core.specs.Owed.{owed};
ghost use Rattle.audit_core.specs.declared.offers.OfferNote.{OfferNote};
ghost use Rattle.audit_core.specs.declared.settings.Settings.{Settings};
ghost use Rattle.audit_core.specs.declared.sinks.Sink.{Sink};
ghost use Rattle.front_base.specs.declared.stage.Stage.{Stage};
ghost use Rattle.front_base.specs.declared.stage.Stage.TheVariants as stage;
ghost use Rattle.policy_rules.specs.declared.decision.Decision.{Decision};
ghost use Rattle.stage_event.specs.declared.event.Event.{Event};
ghost use Rattle.stage_event.specs.declared.facts.Facts.{Facts};
ghost use Rattle.truncate_backend.specs.Told.{Joined};
ghost use Rattle.event_offers.specs.Lanes.{LanesState, AreLanesOf};
ghost use Rattle.event_offers.specs.Offering.{OffersAll, stage_events, started_events};
ghost use Rattle.event_offers.specs.Taken.{is_taken, is_tried, lane_of, lines_for};

use truncate_backend::lists_join;

/// The events that a request owes are those of its stages, one after another, and so are the offers that these are due.
pub fn stages_make_up_what_is_owed()
    ensures owed { (d : Decision) (facts : Facts) → owed d facts
        ≡ stage_events d facts stage.RequestReceived
        ++ (started_events d facts ++ stage_events d facts stage.ResponseComplete) }
    ensures due { (set : Settings) (these those : List Event)
        → offers_due set (these ++ those) ≡ offers_due set these ++ offers_due set those }
{}

/// Offers one after another are the offers of all.
pub fn offers_join()
    ensures { (these those : List Due) (m k n : LanesState) (notes more : List OfferNote)
        → OffersAll these m notes k → OffersAll those k more n → OffersAll (these ++ those) m (notes ++ more) n }
{}

/// Offers leave a bay its lanes. All that events are due, or a part of it, adds to a lane a line for each event at most.
pub fn lanes_stay()
    ensures lanes { (set : Settings) (dues : List Due) (m n : LanesState) (notes : List OfferNote)
        → OffersAll dues m notes n → AreLanesOf set m → AreLanesOf set n }
    ensures bay { (dues : List Due) (m n : LanesState) (notes : List OfferNote)
        → OffersAll dues m notes n → n.bay ≡ m.bay }
    ensures log { (set : Settings) (events : List Event) (due rest : List Due) (m n : LanesState) (notes : List OfferNote)
        → offers_due set events ≡ due ++ rest → OffersAll due m notes n
        → n.log.lines ≤ m.log.lines + length events }
    ensures hook { (set : Settings) (events : List Event) (due rest : List Due) (m n : LanesState) (notes : List OfferNote)
        → offers_due set events ≡ due ++ rest → OffersAll due m notes n
        → n.hook.lines ≤ m.hook.lines + length events }
{}

/// A strict sink refuses a request by its first event alone, whatever becomes of the later ones.
pub fn later_stages_refuse_nothing()
    ensures { (set : Settings) (d : Decision) (facts : Facts) (own : Stage) (m n : LanesState) (notes : List OfferNote)
        → is_first own ≡ false → OffersAll (offers_due set (stage_events d facts own)) m notes n
        → has_refused set notes ≡ false }
{}

/// What becomes of the offers of events is what can become of them: only a lane that queues is full, only one that is
/// written to at once fails, and an event is too large exactly where nothing of it fits.
pub fn only_these_outcomes()
    ensures { (set : Settings) (events : List Event) (m n : LanesState) (notes : List OfferNote)
        → AreLanesOf set m → OffersAll (offers_due set events) m notes n
        → AreNotes set (offers_due set events) notes }
{}

/// A lane accepts the lines that were taken, in order, and tries those that were taken or failed; no other line is offered
/// to it.
pub fn each_lane_gets_its_lines()
    ensures accepted { (sink : Sink) (dues : List Due) (m n : LanesState) (notes : List OfferNote)
        → OffersAll dues m notes n
        → Joined (lane_of sink m).tells.accepted (lines_for is_taken sink m.bay (lane_of sink m).lines dues notes)
        (lane_of sink n).tells.accepted }
    ensures tried { (sink : Sink) (dues : List Due) (m n : LanesState) (notes : List OfferNote)
        → OffersAll dues m notes n
        → Joined (lane_of sink m).tells.tried (lines_for is_tried sink m.bay (lane_of sink m).lines dues notes)
        (lane_of sink n).tells.tried }
{
    lists_join();
}
