ghost use Rattle.std.specs.Prelude.{◌≡◌, ◌≤◌, List, length, true};
ghost use Rattle.alike_exchanges.specs.Alike.{AlikeExchanges};
ghost use Rattle.alike_requests.specs.Alike.{AlikeSeen, OfferedAlike, SettledAlike};
ghost use Rattle.alike_requests.specs.Seen.{AreNoted, Seen, door_seen, noted_by};
ghost use Rattle.audit_core.specs.Exchange.{KeepsRequest, decision_in};
ghost use Rattle.audit_core.specs.declared.attributes.Attributes.{Attributes};
ghost use Rattle.audit_core.specs.declared.settings.Settings.{Settings};
ghost use Rattle.bay_runs.specs.Runs.{ConnTells, Ran, ServedConn, exchanges_of};
ghost use Rattle.front_base.specs.declared.level.Level.TheVariants as level;
ghost use Rattle.http_edge.specs.declared.request.Request.{Request};
ghost use Rattle.json_prune.specs.Prune.{managed};
ghost use Rattle.json_span.specs.Value.{StandsFor, Value};
ghost use Rattle.policy_rules.specs.declared.decision.Decision.{Decision};
ghost use Rattle.role_threads.specs.Lists.{AllPairs};
ghost use Rattle.session_core.specs.Bays.{BayState};
ghost use Rattle.stage_event.specs.declared.facts.Kept.{Kept};
ghost use Rattle.stage_event.specs.declared.keeping.TheConstants.{MOST_KEPT_BYTES};

use alike_exchanges::alike_exchanges_owe_alike;
use event_offers::stages_make_up_what_is_owed;
use json_span::one_value;
use stage_event::one_kept;

/// Of a door: the exchanges of its connections are what was noted of its requests and no other, and each is how its request is
/// recorded. It holds whichever way connections end, and of those that memory stopped too.
pub fn a_door_notes_its_requests<C>()
    ensures noted { (tells : C → ConnTells) (set : Settings) (m : BayState) (all : List (ServedConn C)) (n : BayState) (r : Ran tells set m all n)
        → noted_by (door_seen tells set m all n r) ≡ exchanges_of all }
    ensures each { (tells : C → ConnTells) (set : Settings) (m : BayState) (all : List (ServedConn C)) (n : BayState) (r : Ran tells set m all n)
        → AreNoted set (door_seen tells set m all n r) }
{}

/// Of requests that look alike alike exchanges are noted.
pub fn alike_requests_are_noted_alike()
    ensures { (set : Settings) (these those : List Seen) → AreNoted set these → AreNoted set those → AllPairs (AlikeSeen set) these those
        → AllPairs AlikeExchanges (noted_by these) (noted_by those) }
{
    one_kept();
    alike_exchanges_owe_alike();
    stages_make_up_what_is_owed();
}

/// Which requests look alike: at level None any two; at Metadata two with one head, at the same moments, whatever their bodies and
/// the bodies of their replies are, where their answers gave the same status.
pub fn what_requests_are_alike()
    ensures none { (set : Settings) (s t : Seen) → (decision_in set s.request).level ≡ level.None → (decision_in set t.request).level ≡ level.None
        → AlikeSeen set s t }
    ensures metadata { (set : Settings) (s t : Seen) → (decision_in set s.request).level ≡ level.Metadata
        → s.request.head ≡ t.request.head → s.stamp ≡ t.stamp → SettledAlike set s t s.settled t.settled
        → OfferedAlike s.exchange.offers t.exchange.offers → AlikeSeen set s t }
{}

/// Bodies that differ in managed fields alone look alike where managed fields are omitted: the same is kept of both.
pub fn managed_fields_are_not_seen()
    ensures { (d other : Decision) (a b : Attributes) (r s : Request) (v w : Value) (kept : Kept)
        → d.omit_managed ≡ true → other ≡ d → a ≡ b
        → length r.body ≤ MOST_KEPT_BYTES → length s.body ≤ MOST_KEPT_BYTES
        → StandsFor r.body v → StandsFor s.body w → managed v ≡ managed w
        → KeepsRequest d a r kept → KeepsRequest other b s kept }
{
    one_value();
}
