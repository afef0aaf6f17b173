// How heads are written.
ghost use Rattle.std.specs.Prelude.{◌≡◌, ◌≤◌, ◌<◌, ◌++◌, ℕ, List, [], ◌∷◌, length, codes, IfOk, OnOk};
ghost use Rattle.http_head.specs.Legal.{IsLegalReply, IsLegalRequest, reply_1_1, request_1_1};
ghost use Rattle.http_head.specs.Reply.{IsReplyAnswer};
ghost use Rattle.http_head.specs.Request.{IsRequestAnswer};
ghost use Rattle.http_head.specs.Written as spec;

use crate::answer::HeadAnswer;
use crate::block::MOST_HEAD_BYTES;
use crate::header::Header;
use crate::reply::ReplyHead;
use crate::request::Head;
use front_base::{Bytes, NoMemory};
use http::StatusCode;
use std::alloc::{AllocError, Global};

/// Writes a header's line after what is there.
#[tactic(auto, unfolding(crate::specs::Written::header_lines, crate::specs::Written::line))]
pub fn push_header(out: &mut Vec<u8>, name: &str, value: &[u8]) -> Result<(), AllocError>
    ensures { OnOk result (out.new.items ≡
        out.old.items ++ spec.header_lines (spec.named name.now value.now ∷ [])) }
{
    out.extend_from_slice(name.as_bytes())?;
    out.extend_from_slice(b": ")?;
    out.extend_from_slice(value)?;
    out.extend_from_slice(b"\r\n")?;
    Ok(())
}

/// Writes headers' lines in their order after what is there.
#[tactic(auto, unfolding(crate::specs::Written::header_lines))]
pub fn push_headers(out: &mut Vec<u8>, headers: &[Header]) -> Result<(), AllocError>
    ensures { OnOk result (out.new.items ≡ out.old.items ++ spec.header_lines headers.now) }
{
    for header in headers {
        push_header(out, header.name.as_str(), header.value.as_slice())?;
    }
    Ok(())
}

/// Writes the line that begins a request after what is there. The version is 1.1.
pub fn push_request_line(out: &mut Vec<u8>, method: &str, target: &str) -> Result<(), AllocError>
    ensures { OnOk result (out.new.items ≡ out.old.items ++ spec.request_line method.now target.now) }
{
    out.extend_from_slice(method.as_bytes())?;
    out.extend_from_slice(b" ")?;
    out.extend_from_slice(target.as_bytes())?;
    out.extend_from_slice(b" HTTP/1.1\r\n")?;
    Ok(())
}

// The canonical phrase of a status, or nothing.
#[tactic(auto, unfolding(crate::specs::Written::phrase))]
fn phrase_of(status: &StatusCode) -> &'static str
    ensures { result.now ≡ spec.phrase status.now }
{
    status.canonical_reason().unwrap_or("")
}

/// Writes the line that begins a reply after what is there. The version is 1.1, and a status without a phrase of its own has
/// none.
pub fn push_status_line(out: &mut Vec<u8>, status: u16) -> Result<(), AllocError>
    requires { 100 ≤ status × status < 1000 }
    ensures { OnOk result (out.new.items ≡ out.old.items ++ spec.status_line status) }
{
    let Ok(code) = StatusCode::from_u16(status) else {
        unreachable!();
    };
    out.extend_from_slice(b"HTTP/1.1 ")?;
    out.extend_from_slice(code.as_str().as_bytes())?;
    out.extend_from_slice(b" ")?;
    out.extend_from_slice(phrase_of(&code).as_bytes())?;
    out.extend_from_slice(b"\r\n")?;
    Ok(())
}

/// Writes the empty line that ends a head after what is there.
pub fn push_end(out: &mut Vec<u8>) -> Result<(), AllocError>
    ensures { OnOk result (out.new.items ≡ out.old.items ++ codes "\r\n") }
{
    out.extend_from_slice(b"\r\n")?;
    Ok(())
}

/// Writes the head of a request after what is there, in version 1.1 whatever the head's own is.
pub fn push_request(out: &mut Vec<u8>, head: &Head) -> Result<(), AllocError>
    ensures { OnOk result (out.new.items ≡ out.old.items ++ spec.request_text head.now) }
{
    push_request_line(out, head.method.as_str(), head.target.as_str())?;
    push_headers(out, head.headers.as_slice())?;
    push_end(out)
}

/// Writes the head of a reply after what is there, in version 1.1 whatever the head's own is.
pub fn push_reply(out: &mut Vec<u8>, head: &ReplyHead) -> Result<(), AllocError>
    requires { 100 ≤ head.now.status × head.now.status < 1000 }
    ensures { OnOk result (out.new.items ≡ out.old.items ++ spec.reply_text head.now) }
{
    push_status_line(out, head.status)?;
    push_headers(out, head.headers.as_slice())?;
    push_end(out)
}

/// The text of a request's head, as `push_request` writes it.
pub fn write_request(alloc: Global, head: &Head) -> Result<Bytes, NoMemory>
    ensures { IfOk result (λ text. text ≡ spec.request_text head.now) }
{
    let mut out = Vec::new(alloc);
    push_request(&mut out, head)?;
    Ok(Bytes::new(out))
}

/// The text of a reply's head, as `push_reply` writes it.
pub fn write_reply(alloc: Global, head: &ReplyHead) -> Result<Bytes, NoMemory>
    requires { 100 ≤ head.now.status × head.now.status < 1000 }
    ensures { IfOk result (λ text. text ≡ spec.reply_text head.now) }
{
    let mut out = Vec::new(alloc);
    push_reply(&mut out, head)?;
    Ok(Bytes::new(out))
}

/// A legal head is read back as it was written, in version 1.1, whatever follows it, where it has no more bytes than a head
/// may have.
pub fn written_heads_are_read_back()
    ensures request { (head : Head) (after : List ℕ) → IsLegalRequest head
        → length (spec.request_text head) ≤ MOST_HEAD_BYTES
        → IsRequestAnswer (spec.request_text head ++ after)
        (HeadAnswer.Whole (request_1_1 head) (length (spec.request_text head))) }
    ensures reply { (head : ReplyHead) (after : List ℕ) → IsLegalReply head
        → length (spec.reply_text head) ≤ MOST_HEAD_BYTES
        → IsReplyAnswer (spec.reply_text head ++ after)
        (HeadAnswer.Whole (reply_1_1 head) (length (spec.reply_text head))) }
{}
