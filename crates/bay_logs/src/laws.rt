ghost use Rattle.std.specs.Prelude.{ℕ, Bool, List, []};
ghost use Rattle.audit_check.specs.Conforms.{AllConform};
ghost use Rattle.audit_check.specs.OwnLines.{AreOfFile};
ghost use Rattle.audit_core.specs.declared.offers.Outcome.{Outcome};
ghost use Rattle.audit_core.specs.declared.settings.Settings.{Settings};
ghost use Rattle.audit_core.specs.declared.sinks.Sink.{Sink};
ghost use Rattle.bay_logs.specs.Noted.{AreNoted};
ghost use Rattle.bay_logs.specs.Woven.{AreWoven, IsPart, texts};
ghost use Rattle.bay_runs.specs.Runs.{ConnTells, Ran, ServedConn, exchanges_of};
ghost use Rattle.front_base.specs.Line.{Line};
ghost use Rattle.policy_rules.specs.declared.policy.Policy.{Policy};
ghost use Rattle.session_core.specs.Bays.{BayState};
ghost use Rattle.session_core.specs.declared.exchange.Exchange.{Exchange};
ghost use Rattle.truncate_backend.specs.Tries.{Try, done_of, lines_of};

use audit_check::recorded_lines;
use audit_reader::reads_back;

/// Some of the lines of a log that conforms, in their order, conform too: among them those of its tries that were written.
pub fn parts_conform()
    ensures some { (policy : Policy) (lines part : List (List ℕ)) → AllConform policy [] lines → IsPart part lines
        → AllConform policy [] part }
    ensures written { (policy : Policy) (tries : List Try) → AllConform policy [] (texts (lines_of tries))
        → AllConform policy [] (texts (done_of tries)) }
{}

/// Each exchange of a door's connections is recorded as the request that it answered, whatever came of it, with facts in the range of
/// their types. Its audit ID has the bay's word and number, and numbers go up by one.
pub fn exchanges_are_recorded<C>()
    ensures { (tells : C → ConnTells) (set : Settings) (m n : BayState) (all : List (ServedConn C))
        → Ran tells set m all n → AreNoted set m.boot m.lanes.bay m.number (exchanges_of all) }
{}

/// The lines of bays conform to the policy that their exchanges were recorded by, in whichever order the bays take turns, and whichever
/// of their offers were taken, where the known tokens are those of a token file, or none.
pub fn woven_lines_conform()
    ensures { (set : Settings) (boot : ℕ) (keeps : Outcome → Bool) (sink : Sink) (xs : ℕ → List Exchange) (lines : List Line)
        → AreOfFile set.tokens → ((bay : ℕ) → AreNoted set boot bay 0 (xs bay)) → AreWoven keeps set sink xs lines
        → AllConform set.policy [] (texts lines) }
{
    recorded_lines();
    reads_back();
}
