ghost use Rattle.std.specs.Prelude.{◌≡◌, ◌<◌, ◌≤◌, ◌^◌, ℕ, List, length};
ghost use Rattle.std.specs.List.{AllByRecursion};
ghost use Rattle.audit_core.specs.Answer.{status_of};
ghost use Rattle.audit_core.specs.Errand.{attributes_in, user_in};
ghost use Rattle.audit_core.specs.Exchange.{IsAnswered, facts_by};
ghost use Rattle.audit_core.specs.Offers.{AreNotes, offers_due};
ghost use Rattle.audit_core.specs.Owed.{owed};
ghost use Rattle.audit_core.specs.declared.answered.Answered.{Answered};
ghost use Rattle.audit_core.specs.declared.link_note.LinkNote.{LinkNote};
ghost use Rattle.audit_core.specs.declared.offers.OfferNote.{OfferNote};
ghost use Rattle.audit_core.specs.declared.routed.Handling.{Handling};
ghost use Rattle.audit_core.specs.declared.settings.Settings.{Settings};
ghost use Rattle.audit_core.specs.declared.stamp.Stamp.{Stamp};
ghost use Rattle.event_text.specs.Line.{line_text, stripped};
ghost use Rattle.front_base.specs.declared.level.Level.{Level};
ghost use Rattle.front_base.specs.declared.stage.Stage.{Stage};
ghost use Rattle.http_edge.specs.Requests.{StartsWith};
ghost use Rattle.http_edge.specs.declared.request.Request.{Request};
ghost use Rattle.http_head.specs.Request.{IsHeadOf};
ghost use Rattle.stage_event.specs.Events.{event};
ghost use Rattle.stage_event.specs.declared.event.Event.{Event};
ghost use Rattle.stage_event.specs.declared.facts.Kept.{Kept};
ghost use Rattle.token_users.specs.declared.record.Record.{Record};
ghost use Rattle.truncate_backend.specs.Fits.{fitted};
ghost use Rattle.request_bounds.specs.Bounds as spec;

use crate::{DEFAULT_MAX_EVENT, USUAL_USER_BYTES};
use audit_core::Stamp;
use http_head::blocks_are_bounded;
use line_bounds::{lines_are_bounded, texts_are_bounded};

/// Each stamp has an address of four bytes, and moments before the year 9999.
pub fn stamps_are_in_range(stamp: Stamp)
    ensures { spec.IsStamp stamp }
{}

/// The line of an event without its objects has at most six bytes for each of the request's head and of the user that
/// authenticated, and 640 more: at whatever stage and level, and however the request was answered.
pub fn heads_bound_lines()
    ensures { (set : Settings) (stamp : Stamp) (r : Request) (status : ℕ) (request reply : Kept) (stage : Stage) (level : Level)
        (block : List ℕ) → IsHeadOf block r.head → spec.IsStamp stamp → status < 2 ^ 16
        → length (line_text (stripped (event stage level (facts_by stamp r (attributes_in set r) status request reply))))
        ≤ spec.most_line_bytes (length block) (spec.user_length (user_in set r)) }
{
    texts_are_bounded();
    lines_are_bounded();
}

/// Where lines may have `line_limit` bytes, each event of a request that was read fits, at least without its objects: so
/// none is left out for its length, and no sink's note says so. With users of no more than `USUAL_USER_BYTES` the default is
/// enough.
pub fn no_event_is_too_large()
    ensures fits { (set : Settings) (stamp : Stamp) (r : Request) (status : ℕ) (request reply : Kept) (stage : Stage) (level : Level)
        (bytes after : List ℕ) (max : ℕ) → StartsWith bytes r after → spec.IsStamp stamp → status < 2 ^ 16
        → spec.line_limit set.tokens ≤ max
        → spec.IsWritten (fitted (event stage level (facts_by stamp r (attributes_in set r) status request reply)) max) }
    ensures owed { (set : Settings) (stamp : Stamp) (r : Request) (handling : Handling) (note : LinkNote) (body : List ℕ) (x : Answered)
        (bytes after : List ℕ) (max : ℕ) → StartsWith bytes r after → spec.IsStamp stamp → status_of handling note < 2 ^ 16
        → IsAnswered set stamp r handling note body x → spec.line_limit set.tokens ≤ max
        → AllByRecursion (λ (e : Event). spec.IsWritten (fitted e max)) (owed x.decision x.facts) }
    ensures noted { (set : Settings) (stamp : Stamp) (r : Request) (handling : Handling) (note : LinkNote) (body : List ℕ) (x : Answered)
        (bytes after : List ℕ) (notes : List OfferNote) → StartsWith bytes r after → spec.IsStamp stamp
        → status_of handling note < 2 ^ 16 → IsAnswered set stamp r handling note body x → spec.line_limit set.tokens ≤ set.max_event
        → AreNotes set (offers_due set (owed x.decision x.facts)) notes
        → AllByRecursion (λ (n : OfferNote). spec.IsOffered n.outcome) notes }
    ensures usual { (records : List Record) → spec.longest_user records ≤ USUAL_USER_BYTES
        → spec.line_limit records ≤ DEFAULT_MAX_EVENT }
{
    blocks_are_bounded();
    heads_bound_lines();
}
