// Replies of this server's own.
ghost use Rattle.std.specs.Prelude.{◌≡◌, ◌≤◌, ◌<◌, ◌++◌, ◌∷◌, [], IfOk, OnOk, codes, decimal, length, None, true};
ghost use Rattle.exchange_replies.specs.Own as spec;
ghost use Rattle.forward_link.specs.Client.{close_header};
ghost use Rattle.http_head.specs.Written.{header_lines, named};

use front_base::{AuditId, NoMemory, audit_id_text};
use http_head::{push_end, push_header, push_status_line};
use local_replies::LocalReply;
use std::alloc::Global;

fn push_id(alloc: Global, out: &mut Vec<u8>, id: Option<AuditId>) -> Result<(), NoMemory>
    ensures { OnOk result (out.new.items ≡ out.old.items ++ header_lines (spec.id_header id)) }
{
    match id {
        Some(id) => {
            let text = audit_id_text(alloc, id)?;
            push_header(out, "Audit-ID", text.as_str().as_bytes())?;
            Ok(())
        }
        None => Ok(()),
    }
}

fn push_length(alloc: Global, out: &mut Vec<u8>, size: usize) -> Result<(), NoMemory>
    ensures { OnOk result (out.new.items
        ≡ out.old.items ++ header_lines (named (codes "Content-Length") (decimal size) ∷ [])) }
{
    let text = format!(in alloc; "{size}")?;
    push_header(out, "Content-Length", text.as_bytes())?;
    Ok(())
}

fn push_close(out: &mut Vec<u8>, closing: bool) -> Result<(), NoMemory>
    ensures { OnOk result (out.new.items ≡ out.old.items ++ header_lines (close_header closing)) }
{
    if closing {
        push_header(out, "Connection", b"close".as_slice())?;
    }
    Ok(())
}

/// The head of a reply of this server's own.
pub fn own_head(
    alloc: Global,
    reply: &LocalReply,
    id: Option<AuditId>,
    closing: bool,
) -> Result<Vec<u8>, NoMemory>
    requires { 100 ≤ reply.now.status × reply.now.status < 1000 }
    ensures { IfOk result (λ text. text.items ≡ spec.own_head_text reply.now id closing) }
{
    let mut out = Vec::new(alloc);
    push_status_line(&mut out, reply.status)?;
    push_header(
        &mut out,
        "Content-Type",
        reply.content.media_type().as_bytes(),
    )?;
    push_id(alloc, &mut out, id)?;
    push_length(alloc, &mut out, reply.body.as_slice().len())?;
    push_close(&mut out, closing)?;
    push_end(&mut out)?;
    Ok(out)
}
