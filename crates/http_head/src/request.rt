// The head of a request.
ghost use Rattle.std.specs.Prelude.{◌≡◌, ◌≤◌, ℕ, List, length, IfOk, IfSome, MatchOption};
ghost use Rattle.httparse.specs.Grammar.{RequestHead};
ghost use Rattle.httparse.specs.Spans.{IsRequestAt, IsRequestWithin};
ghost use Rattle.http_head.specs.Answer.{EndsWithin};
ghost use Rattle.http_head.specs.Block.{IsSearched, line_count};
ghost use Rattle.http_head.specs.Request as spec;
ghost use Rattle.http_head.specs.Texts.{HasTexts};

use crate::answer::{BlockAnswer, HeadAnswer};
use crate::block::{MOST_HEADERS, MOST_LINES, Search, find_block};
use crate::header::Headers;
use crate::spans::{headers_of, text_at};
use front_base::{Bytes, NoMemory, Text};
use httparse::Status;
use httparse::spans::{EMPTY_HEADER_SPAN, HeaderSpan, RequestSpans, parse_request};
use std::alloc::Global;

/// The head of a request.
#[derive(Debug, Drop)]
pub struct Head {
    pub method: Text,
    /// The target as it came, not decoded.
    pub target: Text,
    /// The minor version, 0 or 1.
    pub minor: u8,
    pub headers: Headers,
}

// Where the parts of the head stand in its block, or none where the block is no head.
fn spans_of(block: &[u8], headers: &mut [HeaderSpan]) -> Option<RequestSpans>
    requires room { length headers.old ≡ MOST_HEADERS }
    requires few { line_count block.now ≤ MOST_LINES }
    ensures is { MatchOption result (spec.IsNoRequest block.now) (λ r.
        (h : RequestHead) × spec.IsRequest block.now h × IsRequestAt block.now headers.new r h) }
    ensures within { IfSome result (IsRequestWithin block.now headers.new) }
    ensures texts { IfSome result (HasTexts block.now headers.new) }
    ensures whole { IfSome result (λ r. r.len ≡ length block.now) }
{
    match parse_request(block, headers) {
        Ok(Status::Complete(head)) => {
            if head.len == block.len() {
                Some(head)
            } else {
                None
            }
        }
        Ok(Status::Partial) => None,
        Err(_) => None,
    }
}

/// The head that a block is, or none where it is no head of a request.
pub fn request_of(alloc: Global, block: &[u8]) -> Result<Option<Head>, NoMemory>
    requires { line_count block.now ≤ MOST_LINES }
    ensures { IfOk result (λ o.
        MatchOption o (spec.IsNoRequest block.now) (spec.IsHeadOf block.now)) }
{
    let mut spans = [EMPTY_HEADER_SPAN; MOST_HEADERS];
    let Some(read) = spans_of(block, &mut spans) else {
        return Ok(None);
    };
    let method = text_at(alloc, block, read.method)?;
    let target = text_at(alloc, block, read.path)?;
    let headers = headers_of(alloc, block, &spans[..read.headers])?;
    Ok(Some(Head {
        method: Text::new(method),
        target: Text::new(target),
        minor: read.version,
        headers: Headers::new(headers),
    }))
}

/// Reads the head of a request that a stream begins with. `More` asks for more bytes; the other answers are final.
pub fn read_request(alloc: Global, bytes: &[u8]) -> Result<HeadAnswer<Head>, NoMemory>
    ensures answer { IfOk result (spec.IsRequestAnswer bytes.now) }
    ensures within { IfOk result (EndsWithin bytes.now) }
{
    read_request_on(alloc, bytes, &mut Search::new())
}

/// The same, where the bytes were searched so far, as `find_block` says.
pub fn read_request_on(
    alloc: Global,
    bytes: &[u8],
    search: &mut Search,
) -> Result<HeadAnswer<Head>, NoMemory>
    requires { IsSearched bytes.now search.old }
    ensures answer { IfOk result (spec.IsRequestAnswer bytes.now) }
    ensures within { IfOk result (EndsWithin bytes.now) }
    ensures searched { IfOk result (λ answer.
        answer ≡ HeadAnswer.More → IsSearched bytes.now search.new) }
{
    let length = match find_block(bytes, search) {
        BlockAnswer::Whole(length) => length,
        BlockAnswer::More => return Ok(HeadAnswer::More),
        BlockAnswer::TooLarge => return Ok(HeadAnswer::TooLarge),
    };
    match request_of(alloc, &bytes[..length])? {
        Some(head) => Ok(HeadAnswer::Whole { head, length }),
        None => Ok(HeadAnswer::BadHead),
    }
}

/// A block is one head at most.
pub fn one_head()
    ensures { (block : List ℕ) (a b : Head)
        → spec.IsHeadOf block a → spec.IsHeadOf block b → a ≡ b }
{}
