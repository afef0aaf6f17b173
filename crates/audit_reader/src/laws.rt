ghost use Rattle.std.specs.Prelude.{◌≡◌, Some};
ghost use Rattle.event_text.specs.Line.{line_text};
ghost use Rattle.stage_event.specs.declared.event.Event.{Event};
ghost use Rattle.audit_reader.specs.Plain.{Fits, IsPlain};
ghost use Rattle.audit_reader.specs.EventLine.{event_at};

use event_members::members_read_back;
use json_span::one_length;
use stamp_text::stamps_read_back;

// Each plain event is read from its line.
fn each_is_read()
    ensures { (e : Event) → Fits e → IsPlain e → event_at (line_text e) ≡ Some e }
{
    one_length();
    members_read_back();
    stamps_read_back();
}

/// Each plain event is read from its line, and no two have one line.
pub fn reads_back()
    ensures back { (e : Event) → Fits e → IsPlain e → event_at (line_text e) ≡ Some e }
    ensures one { (a b : Event) → Fits a → IsPlain a → Fits b → IsPlain b
        → line_text a ≡ line_text b → a ≡ b }
{
    each_is_read();
}
