ghost use Rattle.std.specs.Prelude.{◌≡◌, ◌++◌, IfOk, codes, option_map, string_bytes};
ghost use Rattle.refusal_text.specs.Text as spec;

use crate::addresses::{front_line, listen_line, own_webhook_line, webhook_line};
use crate::file_line::{file_line, reason_or};
use crate::refusal::Refusal;
use crate::token::{bad_token_line, unread_token_line};
use crate::usage::usage_line;
use command_options::Ranged;
use http_edge::End;
use std::alloc::{AllocError, Global};

fn range_line(alloc: Global, option: Ranged, number: u64) -> Result<String, AllocError>
    ensures { IfOk result (λ line. string_bytes line ≡ spec.range_line option number) }
{
    let name = option.name();
    let least = option.least();
    let most = option.most();
    format!(in alloc; "--{name}={number}: must be {least} to {most}")
}

// The name of a refusal, and the status that it would be answered with over a connection.
fn end_reason(end: End) -> &'static str {
    match end {
        End::Ended => "no request",
        End::Asked => "the last request of its connection",
        End::BadHead => "bad head: 400",
        End::HeadTooLarge => "head too large: 431",
        End::BadFraming => "bad framing: 400",
        End::BodyTooLarge => "body too large: 413",
        End::CutShort => "the input is cut short",
    }
}

fn request_head(alloc: Global, number: u64, byte: u64) -> Result<String, AllocError>
    ensures { IfOk result (λ head. string_bytes head ≡ spec.request_head number byte) }
{
    format!(in alloc; "request {number}, at byte {byte}: ")
}

fn request_line(alloc: Global, number: u64, byte: u64, end: End) -> Result<String, AllocError>
    ensures { IfOk result (λ line. spec.Begins (string_bytes line) (spec.request_head number byte)) }
{
    let mut line = request_head(alloc, number, byte)?;
    line.push_str(end_reason(end))?;
    Ok(line)
}

fn input_line(alloc: Global, reason: Option<&str>) -> Result<String, AllocError>
    ensures { IfOk result (λ line. string_bytes line ≡ codes "standard input: "
        ++ spec.reason_or (codes "could not be read") (option_map (λ own. own.now) reason.entry)) }
{
    let why = reason_or("could not be read", reason);
    format!(in alloc; "standard input: {why}")
}

fn output_line(alloc: Global, reason: Option<&str>) -> Result<String, AllocError>
    ensures { IfOk result (λ line. string_bytes line ≡ codes "standard output: "
        ++ spec.reason_or (codes "could not be written") (option_map (λ own. own.now) reason.entry)) }
{
    let why = reason_or("could not be written", reason);
    format!(in alloc; "standard output: {why}")
}

/// The line on a refusal, without a line feed: the words after `apiaggd: `. Where a file, the input or the output could not
/// be read or written, it has the reason that the system gave, if there is one. Bytes, lines, columns, records and requests
/// are counted from 1, and places in a list of JSON from 0.
pub fn refusal_text(
    alloc: Global,
    words: &[String],
    refusal: &Refusal,
    reason: Option<&str>,
) -> Result<String, AllocError>
    ensures { IfOk result (λ line. spec.Says refusal.now (option_map (λ own. own.now) reason.entry) (string_bytes line)) }
{
    match refusal {
        Refusal::Words(bad) => usage_line(alloc, words, bad),
        Refusal::NotUtf8 => String::from_str(alloc, "a word is not UTF-8. Try 'apiaggd --help'."),
        Refusal::Limits { option, number } => range_line(alloc, *option, *number),
        Refusal::Listen(text) => listen_line(alloc, text.as_str()),
        Refusal::Webhook(url) => webhook_line(alloc, url.as_str()),
        Refusal::OwnWebhook(url) => own_webhook_line(alloc, url.as_str()),
        Refusal::Front(text) => front_line(alloc, text.as_str()),
        Refusal::Token => String::from_str(alloc, "--token: not of the characters '!' to '~'"),
        Refusal::UnreadToken(name) => unread_token_line(alloc, name.as_str(), reason),
        Refusal::BadToken(name) => bad_token_line(alloc, name.as_str()),
        Refusal::Files { names, fault } => file_line(alloc, names, fault, reason),
        Refusal::Request { number, byte, end } => request_line(alloc, *number, *byte, *end),
        Refusal::Input => input_line(alloc, reason),
        Refusal::Output => output_line(alloc, reason),
    }
}
