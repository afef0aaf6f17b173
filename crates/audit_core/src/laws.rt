ghost use Rattle.std.specs.Prelude.{◌≡◌, ◌≤◌, Result, Err, List, [], ℕ, None, Some, Contains, codes, true, false, length};
ghost use Rattle.std.specs.List.{AllByRecursion};
ghost use Rattle.std.specs.List.{list_any};
ghost use Rattle.apiservice_rows.specs.Row.{Row};
ghost use Rattle.apiservice_table.specs.Changes.{placed, rows_of, Story};
ghost use Rattle.front_base.specs.declared.level.Level.TheVariants as level;
ghost use Rattle.front_base.specs.declared.user.User.{User};
ghost use Rattle.http_edge.specs.declared.request.Request.{Request};
ghost use Rattle.http_head.specs.Name.{first_value};
ghost use Rattle.local_replies.specs.Errand.{asks_table};
ghost use Rattle.request_info.specs.Request.{info_of};
ghost use Rattle.request_info.specs.Selection.{asks_trial};
ghost use Rattle.service_endpoints.specs.declared.endpoint.Endpoint.{Endpoint};
ghost use Rattle.stage_event.specs.declared.event.Event.{Event};
ghost use Rattle.request_info.specs.declared.fault.InfoFault.{InfoFault};
ghost use Rattle.token_users.specs.Act.{acting};
ghost use Rattle.token_users.specs.declared.asker.Who.TheVariants as who;
ghost use Rattle.audit_core.specs.Answer.{status_of};
ghost use Rattle.audit_core.specs.Errand as errand;
ghost use Rattle.audit_core.specs.Exchange.{IsAnswered, decision_in};
ghost use Rattle.audit_core.specs.Owed.{owed, fitted_lines};
ghost use Rattle.audit_core.specs.Routing as routing;
ghost use Rattle.audit_core.specs.declared.answered.Answered.{Answered};
ghost use Rattle.audit_core.specs.declared.errand.Errand.{Errand};
ghost use Rattle.audit_core.specs.declared.errand.Errand.TheVariants as want;
ghost use Rattle.audit_core.specs.declared.link_note.LinkNote.{LinkNote};
ghost use Rattle.audit_core.specs.declared.routed.Handling.{Handling};
ghost use Rattle.audit_core.specs.declared.routed.Routed.{Routed};
ghost use Rattle.audit_core.specs.declared.settings.Settings.{Settings};
ghost use Rattle.audit_core.specs.declared.stamp.Stamp.{Stamp};
ghost use Rattle.audit_core.specs.Unread.{is_unread};
ghost use Rattle.write_bodies.specs.Deletion.{deletion_of};
ghost use Rattle.write_bodies.specs.declared.deletion.Deletion.TheVariants as deletion;

use local_replies::{dry_runs_change_nothing, moments_count_in_tables};
use stage_event::{both_users_are_shown, levels_hide};
use token_users::only_masters_act_as_others;
use truncate_backend::what_fits;

/// A target that is refused, or a selector on APIServices that isn't read, counts before the token, an unknown token before the headers
/// that ask for another protocol, these before those that ask to act as another user, and all of them before the path.
pub fn refusals_come_in_order()
    ensures target { (set : Settings) (r : Request) (moment : ℕ) (fault : InfoFault)
        → info_of r.head.method r.head.target ≡ Err fault → errand.errand_in set r moment ≡ want.Refuse 400 }
    ensures selection { (set : Settings) (r : Request) (moment : ℕ) → is_unread (errand.info_in r).path r.head.target ≡ true
        → errand.errand_in set r moment ≡ want.Refuse 400 }
    ensures token { (set : Settings) (r : Request) (moment : ℕ) → errand.is_bad r ≡ false → errand.asker set r ≡ who.BadToken
        → errand.errand_in set r moment ≡ want.Refuse 401 }
    ensures upgrade { (set : Settings) (r : Request) (moment : ℕ) → errand.is_bad r ≡ false → errand.is_unknown (errand.asker set r) ≡ false
        → list_any errand.is_upgrade r.head.headers ≡ true → errand.errand_in set r moment ≡ want.Refuse 501 }
    ensures acting { (set : Settings) (r : Request) (moment : ℕ) (code : ℕ) → errand.is_bad r ≡ false
        → errand.is_unknown (errand.asker set r) ≡ false → list_any errand.is_upgrade r.head.headers ≡ false
        → errand.act_refusal (errand.act_in set r) ≡ Some code → errand.errand_in set r moment ≡ want.Refuse code }
{}

/// At which moment a request was read counts for what it wants where its Accept header asks for a Table, and nowhere else.
pub fn errands_have_moments_in_tables()
    ensures { (set : Settings) (r : Request) (moment other : ℕ)
        → asks_table (first_value (codes "accept") r.head.headers) ≡ false
        → errand.errand_in set r moment ≡ errand.errand_in set r other }
{
    moments_count_in_tables();
}

/// A request is served as the user that it acts as, which is the one that authenticated where it acts as no other; it acts
/// as another only where the one that authenticated is of `system:masters`; and each of its events shows both.
pub fn users_are_told_apart()
    ensures effective { (set : Settings) (r : Request)
        → errand.effective_in set r ≡ acting (errand.asker set r) r.head }
    ensures masters { (set : Settings) (r : Request) (user : User) → errand.acting_in set r ≡ Some user
        → Contains (errand.user_in set r).groups (codes "system:masters") }
    ensures shown { (set : Settings) (stamp : Stamp) (r : Request) (handling : Handling) (note : LinkNote) (body : List ℕ)
        (x : Answered) → IsAnswered set stamp r handling note body x
        → AllByRecursion (λ (e : Event). (e.user ≡ errand.user_in set r) × (e.impersonated ≡ errand.acting_in set r))
        (owed x.decision x.facts) }
{
    only_masters_act_as_others();
    both_users_are_shown();
}

/// Where all changes that the routes see are their own, an errand is handled by the rows as they stood before it.
pub fn one_thread_decides()
    ensures routed { (ends : List Endpoint) (own : Errand) (old new : Story) (routed : Routed)
        → routing.Decides ends own old.opening old.seen (placed 0 old.seen) new.seen (placed 0 new.seen) routed
        → routed ≡ routing.routed_by ends (rows_of old) own }
    ensures rows { (ends : List Endpoint) (own : Errand) (old new : Story) (routed : Routed)
        → routing.Decides ends own old.opening old.seen (placed 0 old.seen) new.seen (placed 0 new.seen) routed
        → new.opening ≡ old.opening → rows_of new ≡ routing.rows_by (rows_of old) own }
{}

/// No dry run of a change of APIServices makes a change, by whatever rows it is handled: neither where the query asks for it, nor
/// where the options in the body of a DELETE do.
pub fn dry_runs_make_no_change()
    ensures query { (set : Settings) (r : Request) (moment : ℕ) (rows : List Row) → asks_trial r.head.target ≡ true
        → routing.made rows (errand.errand_in set r moment) ≡ None }
    ensures options { (set : Settings) (r : Request) (moment : ℕ) (rows : List Row) → r.head.method ≡ codes "DELETE"
        → deletion_of r.body ≡ Some deletion.Trial → routing.made rows (errand.errand_in set r moment) ≡ None }
{
    dry_runs_change_nothing();
}

/// A request at level None owes no event, whatever it is and however it is answered.
pub fn none_owes_nothing()
    ensures { (set : Settings) (stamp : Stamp) (r : Request) (handling : Handling) (note : LinkNote) (body : List ℕ)
        (x : Answered) → IsAnswered set stamp r handling note body x → (decision_in set r).level ≡ level.None
        → owed x.decision x.facts ≡ [] }
{}

/// At level Metadata the events of a request don't depend on its body or on that of the reply.
pub fn metadata_shows_no_body()
    ensures { (set : Settings) (stamp : Stamp) (r q : Request) (handling other : Handling) (note noted : LinkNote)
        (body text : List ℕ) (x y : Answered)
        → IsAnswered set stamp r handling note body x → IsAnswered set stamp q other noted text y
        → r.head ≡ q.head → status_of handling note ≡ status_of other noted
        → (decision_in set r).level ≡ level.Metadata
        → owed x.decision x.facts ≡ owed y.decision y.facts }
{
    levels_hide();
}

/// No line that is written has more bytes than a line may have.
pub fn lines_fit()
    ensures { (max : ℕ) (events : List Event) → AllByRecursion (λ line. length line ≤ max) (fitted_lines max events) }
{
    what_fits();
}
