ghost use Rattle.std.specs.Prelude.{◌≡◌, OnOk, IfErr};
ghost use Rattle.json_span.specs.Value.{IsText};
ghost use Rattle.json_span.specs.Fault.{FaultAt};

use crate::fault::JsonFault;
use crate::place::Place;

/// Whether the bytes are one JSON text (RFC 8259) in UTF-8 without a byte order mark, with at most 128 arrays and
/// objects open at once. Lone surrogates may be escaped.
pub fn check(text: &[u8]) -> Result<(), JsonFault>
    ensures ok { OnOk result (IsText text.now) }
    ensures err { IfErr result (λ fault. FaultAt IsText text.now fault.at) }
{
    let mut place = Place::new();
    let mut at = 0;
    while at < text.len() {
        match place.pass(&text[at..]) {
            Some(passed) => at += passed,
            None => return Err(JsonFault { at }),
        }
    }
    if place.ends() {
        Ok(())
    } else {
        Err(JsonFault { at: text.len() })
    }
}
