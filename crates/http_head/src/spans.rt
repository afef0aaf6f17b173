// What the spans of a head cover in its block.
ghost use Rattle.std.specs.Prelude.{◌≡◌, length, map, All, IfOk, IsUtf8, string_bytes};
ghost use Rattle.httparse.specs.Spans.{IsWithin, IsHeaderWithin, span_bytes, header_bytes};
ghost use Rattle.http_head.specs.Request as spec;
ghost use Rattle.http_head.specs.Texts.{HasTextName};

use crate::header::Header;
use front_base::{Bytes, Text};
use httparse::spans::{HeaderSpan, Span};
use std::alloc::{AllocError, Global};

/// The text of a span.
pub fn text_at(alloc: Global, block: &[u8], span: Span) -> Result<String, AllocError>
    requires within { IsWithin (length block.now) span }
    requires text { IsUtf8 (span_bytes block.now span) }
    ensures { IfOk result (λ s. string_bytes s ≡ span_bytes block.now span) }
{
    match str::from_utf8(span.of(block)) {
        Ok(text) => String::from_str(alloc, text),
        Err(_) => unreachable!(),
    }
}

fn header_at(alloc: Global, block: &[u8], header: HeaderSpan) -> Result<Header, AllocError>
    requires within { IsHeaderWithin (length block.now) header }
    requires text { HasTextName block.now header }
    ensures { IfOk result (λ h. spec.header_view h ≡ header_bytes block.now header) }
{
    let name = text_at(alloc, block, header.name)?;
    let value = header.value.of(block).to_vec(alloc)?;
    Ok(Header {
        name: Text::new(name),
        value: Bytes::new(value),
    })
}

/// The headers of the lines that the spans cover.
pub fn headers_of(
    alloc: Global,
    block: &[u8],
    spans: &[HeaderSpan],
) -> Result<Vec<Header>, AllocError>
    requires within { All (IsHeaderWithin (length block.now)) spans.now }
    requires text { All (HasTextName block.now) spans.now }
    ensures { IfOk result (λ v.
        map spec.header_view v.items ≡ map (header_bytes block.now) spans.now) }
{
    let mut headers = Vec::new(alloc);
    for span in spans {
        headers.push(header_at(alloc, block, *span)?)?;
    }
    Ok(headers)
}
