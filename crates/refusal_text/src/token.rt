// The lines for the file of a bearer token.
ghost use Rattle.std.specs.Prelude.{◌≡◌, ◌++◌, IfOk, codes, option_map, string_bytes};
ghost use Rattle.refusal_text.specs.Text as spec;

use crate::file_line::reason_or;
use std::alloc::{AllocError, Global};

fn token_head(alloc: Global, name: &str) -> Result<String, AllocError>
    ensures { IfOk result (λ head. string_bytes head ≡ spec.token_head name.now) }
{
    format!(in alloc; "--token-file={name}: ")
}

/// The line for a file of `--token-file` that could not be read, the system having given this reason.
pub fn unread_token_line(
    alloc: Global,
    name: &str,
    reason: Option<&str>,
) -> Result<String, AllocError>
    ensures { IfOk result (λ line. string_bytes line ≡ spec.token_head name.now
        ++ spec.reason_or (codes "could not be read") (option_map (λ own. own.now) reason.entry)) }
{
    let mut line = token_head(alloc, name)?;
    line.push_str(reason_or("could not be read", reason))?;
    Ok(line)
}

/// The line for a file of `--token-file` that holds no token which can stand in a header.
pub fn bad_token_line(alloc: Global, name: &str) -> Result<String, AllocError>
    ensures { IfOk result (λ line. string_bytes line ≡ spec.token_head name.now ++ codes "not of the characters '!' to '~'") }
{
    let mut line = token_head(alloc, name)?;
    line.push_str("not of the characters '!' to '~'")?;
    Ok(line)
}
