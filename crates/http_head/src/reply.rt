// The head of a reply.
ghost use Rattle.std.specs.Prelude.{◌≡◌, ◌≤◌, ℕ, List, length, take, All, IfOk, IfSome, MatchOption};
ghost use Rattle.httparse.specs.Grammar.{ResponseHead};
ghost use Rattle.httparse.specs.Spans.{IsResponseAt, IsResponseWithin};
ghost use Rattle.http_head.specs.Answer.{EndsWithin};
ghost use Rattle.http_head.specs.Block.{IsSearched, line_count};
ghost use Rattle.http_head.specs.Reply as spec;
ghost use Rattle.http_head.specs.Texts.{HasTextName};

use crate::answer::{BlockAnswer, HeadAnswer, StatusAnswer};
use crate::block::{MOST_HEADERS, MOST_LINES, Search, find_block};
use crate::header::Headers;
use crate::spans::headers_of;
use front_base::NoMemory;
use httparse::Status;
use httparse::spans::{EMPTY_HEADER_SPAN, HeaderSpan, ResponseSpans, parse_response};
use std::alloc::Global;

/// The head of a reply.
#[derive(Debug, Drop)]
pub struct ReplyHead {
    /// 0 to 999 in a head that was read: any three digits are a status in the grammar.
    pub status: u16,
    /// The minor version, 0 or 1.
    pub minor: u8,
    pub headers: Headers,
}

// Where the parts of the head stand in its block, or none where the block is no head.
fn spans_of(block: &[u8], headers: &mut [HeaderSpan]) -> Option<ResponseSpans>
    requires room { length headers.old ≡ MOST_HEADERS }
    requires few { line_count block.now ≤ MOST_LINES }
    ensures is { MatchOption result (spec.IsNoReply block.now) (λ r.
        (h : ResponseHead) × spec.IsReply block.now h × IsResponseAt block.now headers.new r h) }
    ensures within { IfSome result (IsResponseWithin block.now headers.new) }
    ensures texts { IfSome result (λ r. All (HasTextName block.now) (take r.headers headers.new)) }
    ensures whole { IfSome result (λ r. r.len ≡ length block.now) }
{
    match parse_response(block, headers) {
        Ok(Status::Complete(head)) => {
            if head.len == block.len() {
                Some(head)
            } else {
                None
            }
        }
        Ok(Status::Partial) => None,
        Err(_) => None,
    }
}

/// The head that a block is, or none where it is no head of a reply.
pub fn reply_of(alloc: Global, block: &[u8]) -> Result<Option<ReplyHead>, NoMemory>
    requires { line_count block.now ≤ MOST_LINES }
    ensures { IfOk result (λ o.
        MatchOption o (spec.IsNoReply block.now) (spec.IsReplyOf block.now)) }
{
    let mut spans = [EMPTY_HEADER_SPAN; MOST_HEADERS];
    let Some(read) = spans_of(block, &mut spans) else {
        return Ok(None);
    };
    let headers = headers_of(alloc, block, &spans[..read.headers])?;
    Ok(Some(ReplyHead {
        status: read.code,
        minor: read.version,
        headers: Headers::new(headers),
    }))
}

// The status of the head that a block is, or none where it is no head of a reply.
fn status_of(block: &[u8]) -> Option<u16>
    requires { line_count block.now ≤ MOST_LINES }
    ensures { MatchOption result (spec.IsNoReply block.now) (spec.IsStatusOf block.now) }
{
    let mut spans = [EMPTY_HEADER_SPAN; MOST_HEADERS];
    let read = spans_of(block, &mut spans)?;
    Some(read.code)
}

/// Reads the head of a reply that a stream begins with. `More` asks for more bytes; the other answers are final.
pub fn read_reply(alloc: Global, bytes: &[u8]) -> Result<HeadAnswer<ReplyHead>, NoMemory>
    ensures answer { IfOk result (spec.IsReplyAnswer bytes.now) }
    ensures within { IfOk result (EndsWithin bytes.now) }
{
    read_reply_on(alloc, bytes, &mut Search::new())
}

/// The same, where the bytes were searched so far, as `find_block` says.
pub fn read_reply_on(
    alloc: Global,
    bytes: &[u8],
    search: &mut Search,
) -> Result<HeadAnswer<ReplyHead>, NoMemory>
    requires { IsSearched bytes.now search.old }
    ensures answer { IfOk result (spec.IsReplyAnswer bytes.now) }
    ensures within { IfOk result (EndsWithin bytes.now) }
    ensures searched { IfOk result (λ answer.
        answer ≡ HeadAnswer.More → IsSearched bytes.now search.new) }
{
    let length = match find_block(bytes, search) {
        BlockAnswer::Whole(length) => length,
        BlockAnswer::More => return Ok(HeadAnswer::More),
        BlockAnswer::TooLarge => return Ok(HeadAnswer::TooLarge),
    };
    match reply_of(alloc, &bytes[..length])? {
        Some(head) => Ok(HeadAnswer::Whole { head, length }),
        None => Ok(HeadAnswer::BadHead),
    }
}

/// Reads the status of a reply that a stream begins with: the answer of `read_reply` with the status alone. It takes no
/// memory, so it never fails.
pub fn read_status(bytes: &[u8]) -> StatusAnswer
    ensures { spec.IsStatusAnswer bytes.now result }
{
    let length = match find_block(bytes, &mut Search::new()) {
        BlockAnswer::Whole(length) => length,
        BlockAnswer::More => return StatusAnswer::More,
        BlockAnswer::TooLarge => return StatusAnswer::TooLarge,
    };
    match status_of(&bytes[..length]) {
        Some(status) => StatusAnswer::Whole { status, length },
        None => StatusAnswer::BadHead,
    }
}

/// A block is one head of a reply at most.
pub fn one_reply()
    ensures { (block : List ℕ) (a b : ReplyHead)
        → spec.IsReplyOf block a → spec.IsReplyOf block b → a ≡ b }
{}

/// The answer of `read_status` is that of `read_reply` with the status alone, whatever the bytes are.
pub fn statuses_are_those_of_replies()
    ensures { (bytes : List ℕ) (status : StatusAnswer) (reply : HeadAnswer ReplyHead)
        → spec.IsStatusAnswer bytes status → spec.IsReplyAnswer bytes reply → status ≡ spec.status_alone reply }
{}
