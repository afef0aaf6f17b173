// Bodies as values.
ghost use Rattle.std.specs.Prelude.{◌≡◌, IfOk, option_map};
ghost use Rattle.json_value.specs.Read.{value_of};
ghost use Rattle.serde_json.specs.View.{view};

use front_base::NoMemory;
use json_value::{ValueError, read_value};
use serde_json::Value;
use std::alloc::Global;

// The value of a body, if it is JSON.
pub fn value_in(alloc: Global, body: &[u8]) -> Result<Option<Value>, NoMemory>
    ensures { IfOk result (λ value. option_map view value ≡ value_of body.now) }
{
    match read_value(alloc, body) {
        Ok(value) => Ok(Some(value)),
        Err(ValueError::NotJson) => Ok(None),
        Err(ValueError::NoMemory) => Err(NoMemory),
    }
}
