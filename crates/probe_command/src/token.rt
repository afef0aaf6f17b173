// The token in a file.
ghost use Rattle.std.specs.Prelude.{◌≡◌, ◌≤◌, IfErr, IfOk, Some, drop, length, take};
ghost use Rattle.probe_command.specs.Token as spec;

use crate::probe::is_token_byte;
use command_ends::{Outcome, Status};
use front_base::{NoMemory, Text};
use front_ports::{FileFail, Files};
use refusal_text::Refusal;
use std::alloc::Global;

// Why there is no token.
#[derive(Clone, Copy, Debug, PartialEq, Eq)]
pub enum TokenStop {
    NotRead,
    NotAToken,
    NoMemory,
}

// How many bytes come before the first one that can't stand in a token.
fn token_size(bytes: &[u8]) -> usize
    ensures size { result ≡ spec.token_size bytes.now }
    ensures within { result ≤ length bytes.now }
{
    let mut size: usize = 0;
    for byte in bytes {
        if !is_token_byte(*byte) {
            return size;
        }
        size += 1;
    }
    size
}

fn is_line_end(rest: &[u8]) -> bool
    ensures { result ≡ spec.is_line_end rest.now }
{
    if rest.is_empty() {
        true
    } else if rest == b"\n".as_slice() {
        true
    } else {
        rest == b"\r\n".as_slice()
    }
}

// The text of these bytes, where they have one.
fn text_in(alloc: Global, bytes: &[u8]) -> Result<Option<Text>, NoMemory>
    ensures { IfOk result (λ text. text ≡ spec.text_in bytes.now) }
{
    match str::from_utf8(bytes) {
        Ok(text) => match Text::copy_of(alloc, text) {
            Ok(own) => Ok(Some(own)),
            Err(NoMemory) => Err(NoMemory),
        },
        Err(_) => Ok(None),
    }
}

fn first_bytes(bytes: &[u8], size: usize) -> &[u8]
    requires { size ≤ length bytes.now }
    ensures { result.now ≡ take size bytes.now }
{
    &bytes[..size]
}

fn later_bytes(bytes: &[u8], size: usize) -> &[u8]
    requires { size ≤ length bytes.now }
    ensures { result.now ≡ drop size bytes.now }
{
    &bytes[size..]
}

fn token_in(alloc: Global, bytes: &[u8]) -> Result<Option<Text>, NoMemory>
    ensures { IfOk result (λ token. token ≡ spec.token_in bytes.now) }
{
    let size = token_size(bytes);
    let rest = later_bytes(bytes, size);
    if !is_line_end(rest) {
        return Ok(None);
    }
    text_in(alloc, first_bytes(bytes, size))
}

// The token of a file with these bytes.
fn token_of(alloc: Global, bytes: &[u8]) -> Result<Option<Text>, TokenStop>
    ensures ok { IfOk result (spec.IsToken bytes.now) }
    ensures err { IfErr result (spec.IsNoToken bytes.now) }
{
    match token_in(alloc, bytes) {
        Ok(Some(token)) => Ok(Some(token)),
        Ok(None) => Err(TokenStop::NotAToken),
        Err(NoMemory) => Err(TokenStop::NoMemory),
    }
}

fn stop_of(fail: FileFail) -> TokenStop
    ensures { result ≡ spec.stop_of fail }
{
    match fail {
        FileFail::Fault => TokenStop::NotRead,
        FileFail::TooLong => TokenStop::NotAToken,
        FileFail::NoMemory => TokenStop::NoMemory,
    }
}

fn read_from<T: Files>(alloc: Global, name: &str, tokens: &mut T) -> Result<Option<Text>, TokenStop>
    ensures ok { IfOk result (spec.HasToken (T.files tokens.old) (Some name.now)) }
    ensures err { IfErr result (spec.IsRefusedSo (T.files tokens.old) (T.faults tokens.old) (T.faults tokens.new)
        (T.failed tokens.old) (T.failed tokens.new) (Some name.now)) }
    ensures later { T.faults tokens.old ≤ T.faults tokens.new }
{
    match tokens.read(alloc, name) {
        Ok(bytes) => token_of(alloc, bytes.as_slice()),
        Err(fail) => Err(stop_of(fail)),
    }
}

// The token in the file of that name, none where no file is named.
pub fn read_token<T: Files>(
    alloc: Global,
    name: &Option<Text>,
    tokens: &mut T,
) -> Result<Option<Text>, TokenStop>
    ensures ok { IfOk result (spec.HasToken (T.files tokens.old) name.now) }
    ensures err { IfErr result (spec.IsRefusedSo (T.files tokens.old) (T.faults tokens.old) (T.faults tokens.new)
        (T.failed tokens.old) (T.failed tokens.new) name.now) }
    ensures later { T.faults tokens.old ≤ T.faults tokens.new }
{
    match name {
        Some(name) => read_from(alloc, name.as_str(), tokens),
        None => Ok(None),
    }
}

fn unread(name: Option<Text>) -> Option<Refusal>
    ensures { result ≡ spec.unread name }
{
    match name {
        Some(name) => Some(Refusal::UnreadToken(name)),
        None => None,
    }
}

fn bad(name: Option<Text>) -> Option<Refusal>
    ensures { result ≡ spec.bad name }
{
    match name {
        Some(name) => Some(Refusal::BadToken(name)),
        None => None,
    }
}

// How a run ends whose file of that name holds no token.
pub fn token_outcome(name: Option<Text>, stop: TokenStop) -> Outcome
    ensures { spec.EndsSo name stop result.status result.why }
{
    match stop {
        TokenStop::NotRead => Outcome {
            status: Status::ReadFault,
            why: unread(name),
        },
        TokenStop::NotAToken => Outcome {
            status: Status::Configuration,
            why: bad(name),
        },
        TokenStop::NoMemory => Outcome {
            status: Status::NoMemory,
            why: None,
        },
    }
}
