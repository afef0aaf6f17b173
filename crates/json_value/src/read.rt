ghost use Rattle.std.specs.Prelude.{◌≤◌, length, IfOk};
ghost use Rattle.serde_json.specs.View.{view};
ghost use Rattle.json_value.specs.Read as spec;
ghost use Rattle.json_value.specs.Read.{Gives};
ghost use Rattle.json_value.specs.Size.{inside};

use crate::fault::ValueError;
use serde_json::Value;
use std::alloc::Global;

/// The value that the bytes are as JSON (RFC 8259), in UTF-8 and without a byte order mark. `ValueError::NotJson` lists
/// what is refused.
pub fn read_value(alloc: Global, bytes: &[u8]) -> Result<Value, ValueError>
    ensures value { Gives view result (spec.value_of bytes.now) }
    ensures few { IfOk result (λ value. inside (view value) ≤ length bytes.now) }
{
    let Ok(text) = str::from_utf8(bytes) else {
        return Err(ValueError::NotJson);
    };
    match Value::from_str(alloc, text) {
        Ok(value) => Ok(value),
        Err(error) => {
            if error.is_memory() {
                Err(ValueError::NoMemory)
            } else {
                Err(ValueError::NotJson)
            }
        }
    }
}
