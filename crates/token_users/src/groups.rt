// The groups in a field of a token file.
ghost use Rattle.std.specs.Prelude.{◌≡◌, IfOk, filter};
ghost use Rattle.token_users.specs.File as spec;

use crate::user::push_copy;
use front_base::{NoMemory, Text, Texts};
use std::alloc::{AllocError, Global};

fn comma_parts<'f>(alloc: Global, field: &'f str) -> Result<Vec<&'f str>, AllocError>
    ensures { IfOk result (λ parts. spec.texts_of parts.items ≡ spec.comma_parts field.now) }
{
    field.split(',').collect(alloc)
}

// The parts that aren't empty.
fn kept_parts(alloc: Global, parts: &[&str]) -> Result<Texts, NoMemory>
    ensures { IfOk result (λ groups. groups ≡ filter spec.is_some_text (spec.texts_of parts.now)) }
{
    let mut groups = Vec::new(alloc);
    for part in parts {
        if !part.is_empty() {
            push_copy(alloc, &mut groups, part)?;
        }
    }
    Ok(Texts::new(groups))
}

pub fn groups_in(alloc: Global, field: &str) -> Result<Texts, NoMemory>
    ensures { IfOk result (λ groups. groups ≡ spec.groups_in field.now) }
{
    let parts = comma_parts(alloc, field)?;
    kept_parts(alloc, parts.as_slice())
}
