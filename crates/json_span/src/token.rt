ghost use Rattle.std.specs.Prelude.{◌≡◌};
ghost use Rattle.json_span.specs.Machine as spec;

use crate::literal::{Letters, letters_end, letters_step};
use crate::number::{Last, number_ends, number_step};
use crate::string::{Inside, string_ends, string_step};

// Where a token stands that has begun.
#[derive(Clone, Copy, Debug, PartialEq, Eq)]
pub enum Token {
    Number(Last),
    Text(Inside),
    Literal(Letters),
}

pub fn token_first(byte: u8) -> Option<Token>
    ensures { result ≡ spec.token_first byte }
{
    match byte {
        b'"' => Some(Token::Text(Inside::Plain)),
        b't' => Some(Token::Literal(Letters::Rue)),
        b'f' => Some(Token::Literal(Letters::Alse)),
        b'n' => Some(Token::Literal(Letters::Ull)),
        _ => Some(Token::Number(number_step(Last::Nothing, byte)?)),
    }
}

pub fn token_step(token: Token, byte: u8) -> Option<Token>
    ensures { result ≡ spec.token_step token byte }
{
    match token {
        Token::Number(last) => Some(Token::Number(number_step(last, byte)?)),
        Token::Text(inside) => Some(Token::Text(string_step(inside, byte)?)),
        Token::Literal(letters) => Some(Token::Literal(letters_step(letters, byte)?)),
    }
}

pub fn token_ends(token: Token) -> bool
    ensures { result ≡ spec.token_ends token }
{
    match token {
        Token::Number(last) => number_ends(last),
        Token::Text(inside) => string_ends(inside),
        Token::Literal(letters) => letters_end(letters),
    }
}
