ghost use Rattle.std.specs.Prelude.{◌≡◌, ℕ, List, [], Result};
ghost use Rattle.std.specs.List.{AllByRecursion};
ghost use Rattle.audit_core.specs.Exchange.{IsAnswered};
ghost use Rattle.audit_core.specs.Owed.{owed, fitted_lines};
ghost use Rattle.audit_core.specs.declared.answered.Answered.{Answered};
ghost use Rattle.audit_core.specs.declared.link_note.LinkNote.{LinkNote};
ghost use Rattle.audit_core.specs.declared.routed.Handling.{Handling};
ghost use Rattle.audit_core.specs.declared.settings.Settings.{Settings};
ghost use Rattle.audit_core.specs.declared.stamp.Stamp.{Stamp};
ghost use Rattle.fact_ranges.specs.InRange.{AreInRange};
ghost use Rattle.policy_rules.specs.declared.decision.Decision.{Decision};
ghost use Rattle.policy_rules.specs.declared.policy.Policy.{Policy};
ghost use Rattle.http_edge.specs.declared.request.Request.{Request};
ghost use Rattle.stage_event.specs.declared.facts.Facts.{Facts};
ghost use Rattle.audit_check.specs.Conforms.{AllConform, IsKnown, Judges};
ghost use Rattle.audit_check.specs.declared.fault.LineFault.{LineFault};
ghost use Rattle.audit_check.specs.Logs.{MayStand, StagesRise};
ghost use Rattle.audit_check.specs.OwnLines.{AreOfFile, AreOfOthers, IsLineOf, IsRecorded};

use audit_reader::reads_back;
use json_prune::{kept_is_json, mended_once};
use request_info::the_method_gives_the_verb_alone;
use token_users::users_are_carried;
use truncate_backend::{no_objects_no_strip, what_fits};

/// A log conforms exactly where each of its lines may stand in one, and each has a later stage than the lines of its request
/// before it.
pub fn whole_logs_conform()
    ensures each { (policy : Policy) (lines : List (List ℕ)) → AllConform policy [] lines → AllByRecursion (MayStand policy) lines }
    ensures order { (policy : Policy) (lines : List (List ℕ)) → AllConform policy [] lines → StagesRise lines }
    ensures enough { (policy : Policy) (lines : List (List ℕ)) → AllByRecursion (MayStand policy) lines → StagesRise lines
        → AllConform policy [] lines }
{
    reads_back();
}

/// No line is judged in two ways: which answer is due is one thing, unless memory runs out.
pub fn one_judgement()
    ensures { (policy : Policy) (before : List (List ℕ)) (text : List ℕ) (a b : Result (Unit {0}) LineFault)
        → IsKnown a → IsKnown b → Judges policy before text a → Judges policy before text b → a ≡ b }
{
    reads_back();
}

/// The lines of each request that is recorded, fitted to any length, conform to the policy that it was recorded by, after any lines of
/// other requests, where the known tokens are those of a token file, or none. It holds whatever came of the request, and each of them is a line of
/// this request.
pub fn recorded_lines()
    ensures conform { (set : Settings) (stamp : Stamp) (r : Request) (d : Decision) (facts : Facts) (max : ℕ)
        (before : List (List ℕ)) → AreOfFile set.tokens → IsRecorded set stamp r d facts → AreInRange facts
        → AreOfOthers before facts.id → AllConform set.policy before (fitted_lines max (owed d facts)) }
    ensures own { (set : Settings) (stamp : Stamp) (r : Request) (d : Decision) (facts : Facts) (max : ℕ)
        → AreOfFile set.tokens → IsRecorded set stamp r d facts → AreInRange facts
        → AllByRecursion (IsLineOf facts.id) (fitted_lines max (owed d facts)) }
{
    kept_is_json();
    mended_once();
    the_method_gives_the_verb_alone();
    users_are_carried();
    what_fits();
    no_objects_no_strip();
    reads_back();
}

/// The lines of each exchange, fitted to any length, conform to the policy that it was recorded by, after any lines of
/// other requests, where the known tokens are those of a token file, or none.
pub fn own_lines()
    ensures { (set : Settings) (stamp : Stamp) (r : Request) (handling : Handling) (note : LinkNote) (body : List ℕ)
        (x : Answered) (max : ℕ) (before : List (List ℕ)) → AreOfFile set.tokens → IsAnswered set stamp r handling note body x
        → AreInRange x.facts → AreOfOthers before x.facts.id → AllConform set.policy before (fitted_lines max (owed x.decision x.facts)) }
{
    recorded_lines();
}
