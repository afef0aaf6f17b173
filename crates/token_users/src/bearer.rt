// The bearer token of a request, and whose it is.
ghost use Rattle.std.specs.Prelude.{◌≡◌, IfOk};
ghost use Rattle.token_users.specs.Who as spec;

use crate::asker::Who;
use crate::tokens::Tokens;
use front_base::NoMemory;
use http_head::Head;
use std::alloc::Global;

fn is_bearer(value: &[u8]) -> bool
    ensures { result ≡ spec.is_bearer value.now }
{
    7 <= value.len() && value[..7].eq_ignore_ascii_case(b"Bearer ")
}

fn before_space(text: &[u8]) -> &[u8]
    ensures { result.now ≡ spec.before_space text.now }
{
    match text.iter().position(|b| *b == b' ') {
        Some(i) => &text[..i],
        None => text,
    }
}

// The bearer token in a value, which is empty where there is none.
fn token_in(value: &[u8]) -> &[u8]
    ensures { result.now ≡ spec.token_in value.now }
{
    if is_bearer(value) {
        before_space(&value[7..])
    } else {
        &value[..0]
    }
}

fn who_sends(alloc: Global, tokens: &Tokens, value: &[u8]) -> Result<Who, NoMemory>
    ensures { IfOk result (λ who. who ≡ spec.who_sends tokens.now value.now) }
{
    let token = token_in(value);
    if token.is_empty() {
        return Ok(Who::Anonymous);
    }
    match tokens.user(token) {
        Some(user) => Ok(Who::Known(user.copy(alloc)?)),
        None => Ok(Who::BadToken),
    }
}

/// Who asks, by the first Authorization header of a request.
pub fn who(alloc: Global, tokens: &Tokens, head: &Head) -> Result<Who, NoMemory>
    ensures { IfOk result (λ who. who ≡ spec.who tokens.now head.now) }
{
    match head.headers.first_value("authorization") {
        Some(value) => who_sends(alloc, tokens, value),
        None => Ok(Who::Anonymous),
    }
}
