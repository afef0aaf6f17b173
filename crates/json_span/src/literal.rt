ghost use Rattle.std.specs.Prelude.{◌≡◌};
ghost use Rattle.json_span.specs.Machine as spec;

// Which letters of `true`, `false` or `null` are still to come (RFC 8259, section 3).
#[derive(Clone, Copy, Debug, PartialEq, Eq)]
pub enum Letters {
    Rue,
    Ue,
    E,
    Alse,
    Lse,
    Se,
    Ull,
    Ll,
    L,
    Done,
}

pub fn letters_step(letters: Letters, byte: u8) -> Option<Letters>
    ensures { result ≡ spec.letters_step letters byte }
{
    match (letters, byte) {
        (Letters::Rue, b'r') => Some(Letters::Ue),
        (Letters::Ue, b'u') => Some(Letters::E),
        (Letters::E, b'e') => Some(Letters::Done),
        (Letters::Alse, b'a') => Some(Letters::Lse),
        (Letters::Lse, b'l') => Some(Letters::Se),
        (Letters::Se, b's') => Some(Letters::E),
        (Letters::Ull, b'u') => Some(Letters::Ll),
        (Letters::Ll, b'l') => Some(Letters::L),
        (Letters::L, b'l') => Some(Letters::Done),
        _ => None,
    }
}

pub fn letters_end(letters: Letters) -> bool
    ensures { result ≡ spec.letters_end letters }
{
    matches!(letters, Letters::Done)
}
