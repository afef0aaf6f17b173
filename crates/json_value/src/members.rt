ghost use Rattle.std.specs.Prelude.{◌≡◌, ◌≤◌, IfSome, option_and_then, option_map};
ghost use Rattle.serde_json.specs.View.{view};
ghost use Rattle.json_value.specs.Members as spec;
ghost use Rattle.json_value.specs.Size.{inside};

use serde_json::Value;

fn not_null<'v>(found: Option<&'v Value>) -> Option<&'v Value>
    ensures { option_map (λ v. view v.now) result
        ≡ option_and_then spec.not_null (option_map (λ v. view v.now) found.entry) }
{
    match found {
        Some(Value::Null) => None,
        found => found,
    }
}

/// The member of that name, where it is there and not null.
pub fn present<'v>(value: &'v Value, name: &str) -> Option<&'v Value>
    ensures value { option_map (λ v. view v.now) result ≡ spec.present name.now (view value.now) }
    ensures few { IfSome result (λ v. inside (view v.now) ≤ inside (view value.now)) }
{
    not_null(value.get(name))
}

/// The member of that name of the member of another name.
pub fn inner<'v>(value: &'v Value, outer: &str, name: &str) -> Option<&'v Value>
    ensures { option_map (λ v. view v.now) result ≡ spec.inner outer.now name.now (view value.now) }
{
    present(present(value, outer)?, name)
}

/// The text of a member, where it is one.
pub fn text_in(found: Option<&Value>) -> Option<&str>
    ensures { option_map (λ s. s.now) result ≡ spec.text_in (option_map (λ v. view v.now) found.entry) }
{
    found?.as_str()
}

/// Whether a member is that very text, byte for byte.
pub fn is_text(text: &str, found: Option<&Value>) -> bool
    ensures { result ≡ spec.is_text text.now (option_map (λ v. view v.now) found.entry) }
{
    match found {
        Some(Value::String(own)) => own.as_str() == text,
        _ => false,
    }
}
