// The head of a reply as the client gets it.
ghost use Rattle.std.specs.Prelude.{◌≡◌, ◌++◌, [], ◌∷◌, codes, decimal, filter, IfOk, OnOk};
ghost use Rattle.http_head.specs.Written.{named};
ghost use Rattle.forward_link.specs.Client as spec;

use crate::hop::is_hop;
use body_frames::Frame;
use front_base::{AuditId, Bytes, NoMemory, Text, audit_id_text};
use http_head::{Framing, Header, Headers, ReplyHead, framing};
use std::alloc::Global;

fn header(alloc: Global, name: &str, value: &[u8]) -> Result<Header, NoMemory>
    ensures { IfOk result (λ header. header ≡ named name.now value.now) }
{
    Ok(Header {
        name: Text::copy_of(alloc, name)?,
        value: Bytes::new(value.to_vec(alloc)?),
    })
}

fn keeps_length(head: &ReplyHead, frame: &Frame) -> bool
    ensures { result ≡ spec.keeps_length head.now frame.now }
{
    matches!(frame, Frame::NoBody)
        && head.status != 204
        && matches!(framing(&head.headers, head.minor), Framing::Length(_))
}

fn returns(headers: &Headers, keeps: bool, header: &Header) -> bool
    ensures { result ≡ spec.returns headers.now keeps header.now }
{
    !is_hop(headers, header)
        && !header.is_named("audit-id")
        && (keeps || !header.is_named("content-length"))
}

fn returning(alloc: Global, headers: &Headers, keeps: bool) -> Result<Vec<Header>, NoMemory>
    ensures { IfOk result (λ kept. kept.items ≡ filter (spec.returns headers.now keeps) headers.now) }
{
    let mut kept = Vec::new(alloc);
    for own in headers.as_slice() {
        if returns(headers, keeps, own) {
            kept.push(header(alloc, own.name.as_str(), own.value.as_slice())?)?;
        }
    }
    Ok(kept)
}

fn push_named(
    alloc: Global,
    headers: &mut Vec<Header>,
    name: &str,
    value: &[u8],
) -> Result<(), NoMemory>
    ensures { OnOk result (headers.new.items ≡ headers.old.items ++ named name.now value.now ∷ []) }
{
    headers.push(header(alloc, name, value)?)?;
    Ok(())
}

fn push_length(alloc: Global, headers: &mut Vec<Header>, size: u64) -> Result<(), NoMemory>
    ensures { OnOk result (headers.new.items
        ≡ headers.old.items ++ named (codes "Content-Length") (decimal size) ∷ []) }
{
    let text = format!(in alloc; "{size}")?;
    push_named(alloc, headers, "Content-Length", text.as_bytes())?;
    Ok(())
}

fn push_frame(
    alloc: Global,
    headers: &mut Vec<Header>,
    frame: &Frame,
    old_client: bool,
) -> Result<(), NoMemory>
    ensures { OnOk result (headers.new.items
        ≡ headers.old.items ++ spec.frame_headers frame.now old_client) }
{
    match frame {
        Frame::NoBody => Ok(()),
        Frame::Length(size) => push_length(alloc, headers, *size),
        _ if old_client => Ok(()),
        _ => push_named(alloc, headers, "Transfer-Encoding", b"chunked"),
    }
}

fn push_close(alloc: Global, headers: &mut Vec<Header>, closing: bool) -> Result<(), NoMemory>
    ensures { OnOk result (headers.new.items ≡ headers.old.items ++ spec.close_header closing) }
{
    if closing {
        return push_named(alloc, headers, "Connection", b"close");
    }
    Ok(())
}

/// The head that the client gets for a backend's reply whose body has that frame. `old_client` says that the client's version
/// is 1.0, which knows no chunks (RFC 9112, section 6.1), and `closing` that the connection is closed after the reply.
pub fn client_head(
    alloc: Global,
    head: &ReplyHead,
    id: AuditId,
    frame: &Frame,
    old_client: bool,
    closing: bool,
) -> Result<ReplyHead, NoMemory>
    ensures { IfOk result (λ reply. reply ≡ spec.client_head head.now id frame.now old_client closing) }
{
    let id = audit_id_text(alloc, id)?;
    let mut headers = returning(alloc, &head.headers, keeps_length(head, frame))?;
    push_named(alloc, &mut headers, "Audit-ID", id.as_str().as_bytes())?;
    push_frame(alloc, &mut headers, frame, old_client)?;
    push_close(alloc, &mut headers, closing)?;
    Ok(ReplyHead {
        status: head.status,
        minor: 1,
        headers: Headers::new(headers),
    })
}
