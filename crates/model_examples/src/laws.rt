ghost use Rattle.std.specs.Prelude.{◌≡◌, ◌≢◌, ℕ, Bool, true, List, ◌∷◌, [], map, codes};
ghost use Rattle.std.specs.Str.Iter.{HasSubslice};
ghost use Rattle.log_sink.specs.Texts.{log_text};
ghost use Rattle.stage_event.specs.declared.facts.Kept.{Kept};
ghost use Rattle.model_worlds.specs.Steps.{after_steps, answers_to, start};
ghost use Rattle.model_worlds.specs.Worlds.{Alike, is_taken, sink_bytes};
ghost use Rattle.model_examples.specs.Acting.{rooted, acting_steps, acting_log};
ghost use Rattle.model_examples.specs.Managed.{pruned, KeepsAll, with_fields, without_fields, object_steps, shown_body};
ghost use Rattle.model_examples.specs.Served.{served, served_steps, log_of};

use model_worlds::{two_worlds, what_is_alike};
use stage_event::one_kept;

/// Each step of the example is taken, and two runs that differ in the bodies alone are alike.
pub fn a_secret_changes_nothing()
    ensures taken { (body : List ℕ) (reply : Kept)
        → map is_taken (answers_to served (start 1) (served_steps 200 body reply))
        ≡ true ∷ true ∷ true ∷ true ∷ true ∷ true ∷ true ∷ true ∷ [] }
    ensures alike { (body other : List ℕ) (reply text : Kept)
        → Alike served (start 1) (start 1) (served_steps 200 body reply) (served_steps 200 other text) }
{}

/// Two runs that differ in the status of the reply alone are not alike, and their logs are sent other bytes.
pub fn a_status_shows()
    ensures apart { (body : List ℕ) (reply : Kept)
        → Alike served (start 1) (start 1) (served_steps 200 body reply) (served_steps 403 body reply) → ⊥ }
    ensures taken { (body : List ℕ) (reply : Kept)
        → map is_taken (answers_to served (start 1) (served_steps 403 body reply))
        ≡ true ∷ true ∷ true ∷ true ∷ true ∷ true ∷ true ∷ true ∷ [] }
    ensures bytes { (body : List ℕ) (reply : Kept)
        → sink_bytes log_text (after_steps served (start 1) (served_steps 200 body reply)).shared.log
        ≢ sink_bytes log_text (after_steps served (start 1) (served_steps 403 body reply)).shared.log }
{}

/// Where events show bodies without managed fields, two runs whose bodies differ in these alone are alike, and their logs
/// are sent the same bytes, which have the rest of the body. Each step is taken.
pub fn managed_fields_change_nothing()
    ensures taken { (keep : Bool → List ℕ → Kept) → KeepsAll keep
        → map is_taken (answers_to (pruned keep) (start 1) (object_steps with_fields))
        ≡ true ∷ true ∷ true ∷ true ∷ true ∷ true ∷ true ∷ true ∷ [] }
    ensures alike { (keep : Bool → List ℕ → Kept) → KeepsAll keep
        → Alike (pruned keep) (start 1) (start 1) (object_steps with_fields) (object_steps without_fields) }
    ensures shown { (keep : Bool → List ℕ → Kept) → KeepsAll keep
        → HasSubslice (log_of (after_steps (pruned keep) (start 1) (object_steps with_fields))) shown_body }
    ensures bytes { (keep : Bool → List ℕ → Kept) → KeepsAll keep
        → sink_bytes log_text (after_steps (pruned keep) (start 1) (object_steps with_fields)).shared.log
        ≡ sink_bytes log_text (after_steps (pruned keep) (start 1) (object_steps without_fields)).shared.log }
{
    one_kept();
    what_is_alike();
    two_worlds();
}

/// A request that acts as another user is recorded with both. Two runs whose requests act as different users are not alike,
/// and their logs are sent other bytes.
pub fn an_acting_user_shows()
    ensures taken { map is_taken (answers_to rooted (start 1) (acting_steps (codes "ann")))
        ≡ true ∷ true ∷ true ∷ true ∷ true ∷ true ∷ true ∷ true ∷ [] }
    ensures user { HasSubslice (acting_log (codes "ann")) (codes "\"user\":{\"username\":\"root\"") }
    ensures acting { HasSubslice (acting_log (codes "ann")) (codes "\"impersonatedUser\":{\"username\":\"ann\"") }
    ensures apart { Alike rooted (start 1) (start 1) (acting_steps (codes "ann")) (acting_steps (codes "bob")) → ⊥ }
    ensures bytes { acting_log (codes "ann") ≢ acting_log (codes "bob") }
{}
