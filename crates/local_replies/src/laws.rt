ghost use Rattle.std.specs.Prelude.{◌≡◌, ◌+◌, ℕ, List, ◌∷◌, ◌++◌, [], true, false, codes, length, All, Option, Some, None};
ghost use Rattle.apiservice_rows.specs.Row.{Row};
ghost use Rattle.apiservice_table.specs.Changes.{patched_in, placed, rows_of, IsLater, Story};
ghost use Rattle.apiservice_table.specs.Services.{service_list_text};
ghost use Rattle.apiservice_table.specs.Table.{row_named};
ghost use Rattle.apiservice_table.specs.declared.change.Change.{Change};
ghost use Rattle.apiservice_table.specs.declared.change.Change.TheVariants as asked;
ghost use Rattle.front_base.specs.declared.info.Info.{Info};
ghost use Rattle.front_base.specs.declared.user.User.{User};
ghost use Rattle.http_head.specs.Name.{first_value};
ghost use Rattle.http_head.specs.declared.request.Head.{Head};
ghost use Rattle.local_replies.specs.Errand.{asks_table, is_master, is_patch, local_errand, tried};
ghost use Rattle.local_replies.specs.Looked.{looked};
ghost use Rattle.local_replies.specs.Paths.{local_of};
ghost use Rattle.local_replies.specs.Serve.{local_reply, rows_after, IsServed};
ghost use Rattle.local_replies.specs.Status.{cause_of, front_refusal, json_reply, refusal, refusal_text, told_codes};
ghost use Rattle.local_replies.specs.declared.errand.LocalErrand.{LocalErrand};
ghost use Rattle.local_replies.specs.declared.errand.LocalErrand.TheVariants as errand;
ghost use Rattle.local_replies.specs.declared.local.Local.{Local};
ghost use Rattle.local_replies.specs.declared.local.Local.TheVariants as local;
ghost use Rattle.local_replies.specs.declared.reply.LocalReply.{LocalReply};
ghost use Rattle.request_info.specs.Query.{query_value};
ghost use Rattle.request_info.specs.Selection.{asks_trial};
ghost use Rattle.write_bodies.specs.Deletion.{deletion_of};
ghost use Rattle.write_bodies.specs.declared.deletion.Deletion.TheVariants as deletion;

use apiservice_table::{a_patch_leaves_its_object, one_user_knows_the_rows};
use front_base::slashes_are_trimmed;

/// A slash at either end of a path makes no other local path of it.
pub fn slashes_at_ends_do_not_count()
    ensures front { (path : List ℕ) → local_of (47 ∷ path) ≡ local_of path }
    ensures back { (path : List ℕ) → local_of (path ++ 47 ∷ []) ≡ local_of path }
{
    slashes_are_trimmed();
}

/// The Status of each code that has a cause is 104 bytes longer than its reason and its message: neither needs an escape. That of a request
/// which may not act as another user has 148.
pub fn lengths_of_refusals()
    ensures told { All (λ code. length (refusal_text code)
        ≡ 104 + length (cause_of code).reason + length (cause_of code).message) told_codes }
    ensures acting { length (front_refusal 403).body ≡ 148 }
{}

/// No request of a user who isn't of `system:masters` asks for a change or for a dry run of one, whatever its path, head and body
/// are.
pub fn only_masters_write()
    ensures write { (local : Local) (info : Info) (head : Head) (moment : ℕ) (body : List ℕ) (user : User) (change : Change)
        → is_master user ≡ false → local_errand local info head moment body user ≡ errand.Write change → ⊥ }
    ensures trial { (local : Local) (info : Info) (head : Head) (moment : ℕ) (body : List ℕ) (user : User) (change : Change)
        → is_master user ≡ false → local_errand local info head moment body user ≡ errand.Try change → ⊥ }
{}

/// A dry run makes no change, and is answered as the request would be without it. Where the query has `dryRun`, or the options in
/// the body of a DELETE, no change is asked for. With the query's the request wants what it wants without, but for the change
/// that is tried then: the reply is the same by the same rows, and they stay.
pub fn dry_runs_change_nothing()
    ensures query { (local : Local) (info : Info) (head : Head) (moment : ℕ) (body : List ℕ) (user : User) (change : Change)
        → asks_trial head.target ≡ true → local_errand local info head moment body user ≡ errand.Write change → ⊥ }
    ensures options { (local : Local) (info : Info) (head : Head) (moment : ℕ) (body : List ℕ) (user : User) (change : Change)
        → head.method ≡ codes "DELETE" → deletion_of body ≡ Some deletion.Trial
        → local_errand local info head moment body user ≡ errand.Write change → ⊥ }
    ensures wants { (local : Local) (info : Info) (head plain : Head) (moment : ℕ) (body : List ℕ) (user : User)
        → head.method ≡ plain.method → head.headers ≡ plain.headers
        → query_value (codes "includeObject") head.target ≡ query_value (codes "includeObject") plain.target
        → asks_trial head.target ≡ true → asks_trial plain.target ≡ false
        → local_errand local info head moment body user ≡ tried (local_errand local info plain moment body user) }
    ensures reply { (rows : List Row) (local : Local) (own : LocalErrand) → local_reply rows local (tried own) ≡ local_reply rows local own }
    ensures rows { (rows : List Row) (own : LocalErrand) → rows_after rows (tried own) ≡ rows }
{}

/// What is served over a table that one user alone changes, as `TableRoutes`, is the reply by the rows as they stood, and
/// they take the change that it tells.
pub fn one_user_is_served()
    ensures { (local : Local) (errand : LocalErrand) (old new : Story) (reply : LocalReply) (change : Option Change)
        → IsLater old.seen new.seen → new.opening ≡ old.opening
        → IsServed local errand old.opening old.seen (placed 0 old.seen) new.seen (placed 0 new.seen) reply change
        → (reply ≡ local_reply (rows_of old) local errand) × (rows_of new ≡ rows_after (rows_of old) errand) }
{
    one_user_knows_the_rows();
}

/// The list of a name has the APIService that has it, and is empty where none does.
pub fn a_named_list_has_one_at_most()
    ensures one { (name : List ℕ) (rows : List Row) (row : Row) → row_named name rows ≡ Some row
        → looked (local.ServicesNamed name) rows ≡ json_reply 200 (service_list_text (row ∷ [])) }
    ensures none { (name : List ℕ) (rows : List Row) → row_named name rows ≡ None
        → looked (local.ServicesNamed name) rows ≡ json_reply 200 (service_list_text []) }
{}

/// A patch that makes a row of the one of its name is answered that row's object: what a look at the APIService is answered then.
/// One that makes none is refused with 422, and changes nothing.
pub fn a_patch_is_answered_its_object()
    ensures made { (path : Local) (name patch : List ℕ) (rows : List Row) (new : Row) → patched_in name patch rows ≡ Some new
        → local_reply rows path (errand.Write (asked.Patch name patch)) ≡ json_reply 200 new.object }
    ensures seen { (path : Local) (name patch : List ℕ) (rows : List Row) (new : Row) → patched_in name patch rows ≡ Some new
        → local_reply rows path (errand.Write (asked.Patch name patch))
        ≡ looked (local.OneService name) (rows_after rows (errand.Write (asked.Patch name patch))) }
    ensures refused { (path : Local) (name patch : List ℕ) (rows : List Row) (own : Row) → row_named name rows ≡ Some own
        → patched_in name patch rows ≡ None
        → (local_reply rows path (errand.Write (asked.Patch name patch)) ≡ refusal 422)
        × (rows_after rows (errand.Write (asked.Patch name patch)) ≡ rows) }
{
    a_patch_leaves_its_object();
}

/// At which moment a request was read counts where its Accept header asks for a Table, and nowhere else.
pub fn moments_count_in_tables()
    ensures { (local : Local) (info : Info) (head : Head) (moment other : ℕ) (body : List ℕ) (user : User)
        → asks_table (first_value (codes "accept") head.headers) ≡ false
        → local_errand local info head moment body user ≡ local_errand local info head other body user }
{}

/// The order of refusals on local paths: one by the path (404) whatever the request is, then one by the method (405)
/// whatever the user and the body are, and one by the type of a patch (415) so too, then one by the user (403), who isn't of
/// `system:masters`, whatever the body is, and at last one by the body (422). Where one name is selected, only the method
/// counts. A patch that isn't of a type that is served is refused by that alone.
pub fn refusals_in_order()
    ensures by_path { (info : Info) (head : Head) (moment : ℕ) (body : List ℕ) (user : User)
        → local_errand local.Unserved info head moment body user ≡ errand.Deny 404 }
    ensures by_method { (local : Local) (info : Info) (head : Head) (moment : ℕ) (body other_body : List ℕ) (user other_user : User)
        → local_errand local info head moment body user ≡ errand.Deny 405
        → local_errand local info head moment other_body other_user ≡ errand.Deny 405 }
    ensures by_type { (name : List ℕ) (info : Info) (head : Head) (moment : ℕ) (body : List ℕ) (user : User)
        → head.method ≡ codes "PATCH" → is_patch (first_value (codes "content-type") head.headers) ≡ false
        → local_errand (local.OneService name) info head moment body user ≡ errand.Deny 415 }
    ensures by_user { (local : Local) (info : Info) (head : Head) (moment : ℕ) (body other_body : List ℕ) (user : User)
        → local_errand local info head moment body user ≡ errand.Deny 403
        → (local_errand local info head moment other_body user ≡ errand.Deny 403) × (is_master user ≡ false) }
    ensures by_body { (local : Local) (info : Info) (head : Head) (moment : ℕ) (body : List ℕ) (user : User)
        → local_errand local info head moment body user ≡ errand.Deny 422 → is_master user ≡ true }
    ensures by_selector { (name : List ℕ) (info : Info) (head : Head) (moment : ℕ) (body other_body : List ℕ) (user other_user : User)
        → local_errand (local.ServicesNamed name) info head moment body user
        ≡ local_errand (local.ServicesNamed name) info head moment other_body other_user }
{}
