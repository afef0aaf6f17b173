ghost use Rattle.std.specs.Prelude.{◌≡◌};
ghost use Rattle.json_span.specs.Machine as spec;

// What the last byte of a number was (RFC 8259, section 6).
#[derive(Clone, Copy, Debug, PartialEq, Eq)]
pub enum Last {
    Nothing,
    Minus,
    Zero,
    Whole,
    Point,
    Fraction,
    Mark,
    Sign,
    Exponent,
}

pub fn number_step(last: Last, byte: u8) -> Option<Last>
    ensures { result ≡ spec.number_step last byte }
{
    match last {
        Last::Nothing => match byte {
            b'-' => Some(Last::Minus),
            b'0' => Some(Last::Zero),
            b'1'..=b'9' => Some(Last::Whole),
            _ => None,
        },
        Last::Minus => match byte {
            b'0' => Some(Last::Zero),
            b'1'..=b'9' => Some(Last::Whole),
            _ => None,
        },
        Last::Zero => match byte {
            b'.' => Some(Last::Point),
            b'e' | b'E' => Some(Last::Mark),
            _ => None,
        },
        Last::Whole => match byte {
            b'0'..=b'9' => Some(Last::Whole),
            b'.' => Some(Last::Point),
            b'e' | b'E' => Some(Last::Mark),
            _ => None,
        },
        Last::Point => match byte {
            b'0'..=b'9' => Some(Last::Fraction),
            _ => None,
        },
        Last::Fraction => match byte {
            b'0'..=b'9' => Some(Last::Fraction),
            b'e' | b'E' => Some(Last::Mark),
            _ => None,
        },
        Last::Mark => match byte {
            b'+' | b'-' => Some(Last::Sign),
            b'0'..=b'9' => Some(Last::Exponent),
            _ => None,
        },
        Last::Sign | Last::Exponent => match byte {
            b'0'..=b'9' => Some(Last::Exponent),
            _ => None,
        },
    }
}

pub fn number_ends(last: Last) -> bool
    ensures { result ≡ spec.number_ends last }
{
    matches!(
        last,
        Last::Zero | Last::Whole | Last::Fraction | Last::Exponent
    )
}
