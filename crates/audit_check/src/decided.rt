// Whether an event is recorded as was decided.
ghost use Rattle.std.specs.Prelude.{◌≡◌, ◌↔◌, IsTrue};
ghost use Rattle.audit_check.specs.Agreement.{IsDecided};

use audit_core::omits;
use front_base::Level;
use policy_rules::Decision;
use stage_event::Event;

fn is_same_level(one: Level, other: Level) -> bool
    ensures { IsTrue result ↔ (one ≡ other) }
{
    one == other
}

// Whether the level is the one that was decided, and the stage isn't left out.
pub fn is_decided(decision: Decision, event: &Event) -> bool
    ensures { IsTrue result ↔ IsDecided decision event.now }
{
    !omits(decision.omit, event.stage) && is_same_level(decision.level, event.level)
}
