ghost use Rattle.std.specs.Prelude.{IfOk, IfErr};
ghost use Rattle.json_span.specs.Value.{Compacts};
ghost use Rattle.json_span.specs.Fault.{IsRefusal};

use crate::fault::{JsonError, JsonFault};
use crate::place::Place;
use std::alloc::Global;

/// The tokens of a JSON text joined: each as it is spelled, without the white space between them.
pub fn compact(alloc: Global, text: &[u8]) -> Result<Vec<u8>, JsonError>
    ensures ok { IfOk result (λ joined. Compacts joined.items text.now) }
    ensures err { IfErr result (λ error. IsRefusal text.now error) }
{
    let mut place = Place::new();
    let mut joined = Vec::with_capacity(alloc, text.len())?;
    // What is kept is copied in whole ranges: the one that began at `from` isn't copied yet.
    let (mut from, mut at) = (0, 0);
    while at < text.len() {
        let Some(passed) = place.pass(&text[at..]) else {
            return Err(JsonError::NotJson(JsonFault { at }));
        };
        if !place.keeps(text[at]) {
            joined.extend_from_slice(&text[from..at])?;
            from = at + passed;
        }
        at += passed;
    }
    joined.extend_from_slice(&text[from..])?;
    if place.ends() {
        Ok(joined)
    } else {
        Err(JsonError::NotJson(JsonFault { at: text.len() }))
    }
}
