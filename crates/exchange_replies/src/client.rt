// What a client gets.
ghost use Rattle.std.specs.Prelude.{◌≡◌, ◌≤◌, ◌<◌, ◌++◌, IfOk, OnErr, Some, length};
ghost use Rattle.exchange_replies.specs.Client as spec;
ghost use Rattle.exchange_replies.specs.Own.{own_text};
ghost use Rattle.exchange_replies.specs.Sent as sent;
ghost use Rattle.exchange_replies.specs.Statuses.{IsFinalHandling, IsFinalReached};
ghost use Rattle.exchange_replies.specs.Writing.{Writes};
ghost use Rattle.front_ports.specs.Cause.{Rose};

use crate::own::own_head;
use crate::reached::Reached;
use crate::reply_tag::ReplyTag;
use crate::writing::{Wrote, put};
use audit_core::Handling;
use forward_link::{client_head, whole_frame};
use front_base::NoMemory;
use front_ports::ByteSink;
use http_edge::Request;
use http_head::{ReplyHead, push_reply};
use local_replies::{LocalReply, front_refusal};
use std::alloc::Global;

/// Whether a reply to this request has no body (RFC 9110, section 9.3.2).
#[tactic(auto, unfolding(crate::specs::Sent::is_head))]
pub fn is_head(request: &Request) -> bool
    ensures { result ≡ sent.is_head request.now }
{
    request.head.method.as_str() == "HEAD"
}

// The body that is sent of one, which HEAD requests don't get.
fn sent_body<'b>(request: &Request, body: &'b [u8]) -> &'b [u8]
    ensures { result.now ≡ spec.body_for (sent.is_head request.now) body.now }
{
    if is_head(request) {
        b"".as_slice()
    } else {
        body
    }
}

// The head of a backend's whole reply that the client gets.
#[tactic(auto, unfolding(crate::specs::Client::whole_head))]
fn whole_head(
    alloc: Global,
    request: &Request,
    tag: ReplyTag,
    head: &ReplyHead,
    size: usize,
) -> Result<Vec<u8>, NoMemory>
    requires { 200 ≤ head.now.status × head.now.status < 1000 }
    ensures { IfOk result (λ text. text.items ≡ spec.whole_head request.now tag head.now size) }
{
    let frame = whole_frame(is_head(request), head.status, size as u64);
    let old_client = request.head.minor == 0;
    let client = client_head(alloc, head, tag.id, &frame, old_client, tag.closing)?;
    let mut out = Vec::new(alloc);
    push_reply(&mut out, &client)?;
    Ok(out)
}

// Writes a reply of this server's own.
fn put_own<O: ByteSink>(
    alloc: Global,
    out: &mut O,
    request: &Request,
    tag: ReplyTag,
    reply: &LocalReply,
) -> Result<Wrote, NoMemory>
    requires { 200 ≤ reply.now.status × reply.now.status < 1000 }
    ensures ok { IfOk result (Writes (O.written out.old) (O.written out.new)
        (own_text (sent.is_head request.now) reply.now (Some tag.id) tag.closing)
        (Rose (O.write_faults out.old) (O.write_faults out.new))) }
    ensures err { OnErr result (O.written out.new ≡ O.written out.old) }
    ensures later { O.write_faults out.old ≤ O.write_faults out.new }
    ensures aside { O.inward out.new ≡ O.inward out.old }
{
    let head = own_head(alloc, reply, Some(tag.id), tag.closing)?;
    put(out, head, sent_body(request, reply.body.as_slice()))
}

// Writes the refusal with a code.
fn put_refusal<O: ByteSink>(
    alloc: Global,
    out: &mut O,
    request: &Request,
    tag: ReplyTag,
    code: u16,
) -> Result<Wrote, NoMemory>
    requires { 200 ≤ code × code < 1000 }
    ensures ok { IfOk result (Writes (O.written out.old) (O.written out.new)
        (spec.refusal_for request.now tag code)
        (Rose (O.write_faults out.old) (O.write_faults out.new))) }
    ensures err { OnErr result (O.written out.new ≡ O.written out.old) }
    ensures later { O.write_faults out.old ≤ O.write_faults out.new }
    ensures aside { O.inward out.new ≡ O.inward out.old }
{
    let reply = front_refusal(alloc, code)?;
    put_own(alloc, out, request, tag, &reply)
}

// The code that says why no reply came.
fn failure(reached: &Reached) -> u16
    ensures { result ≡ spec.failure reached.now }
{
    match reached {
        Reached::BadReply | Reached::Cut | Reached::LinkFault => 502,
        _ => 503,
    }
}

// Writes what this server replies itself.
fn put_by<O: ByteSink>(
    alloc: Global,
    out: &mut O,
    request: &Request,
    tag: ReplyTag,
    handling: &Handling,
    failure: u16,
) -> Result<Wrote, NoMemory>
    requires handling { IsFinalHandling handling.now }
    requires failure { 200 ≤ failure × failure < 1000 }
    ensures ok { IfOk result (Writes (O.written out.old) (O.written out.new)
        (spec.own_text_by request.now tag handling.now failure)
        (Rose (O.write_faults out.old) (O.write_faults out.new))) }
    ensures err { OnErr result (O.written out.new ≡ O.written out.old) }
    ensures later { O.write_faults out.old ≤ O.write_faults out.new }
    ensures aside { O.inward out.new ≡ O.inward out.old }
{
    match handling {
        Handling::Refused(code) => put_refusal(alloc, out, request, tag, *code),
        Handling::Served { reply, .. } => put_own(alloc, out, request, tag, reply),
        Handling::Proxied(_) => put_refusal(alloc, out, request, tag, failure),
    }
}

/// Writes the reply with that tag to a request, which was handled so, and whose link came to that. Where memory runs out,
/// nothing was written.
pub fn answer<O: ByteSink>(
    alloc: Global,
    out: &mut O,
    request: &Request,
    tag: ReplyTag,
    handling: &Handling,
    reached: &Reached,
) -> Result<Wrote, NoMemory>
    requires handling { IsFinalHandling handling.now }
    requires reached { IsFinalReached reached.now }
    ensures ok { IfOk result (Writes (O.written out.old) (O.written out.new)
        (spec.client_text request.now tag handling.now reached.now)
        (Rose (O.write_faults out.old) (O.write_faults out.new))) }
    ensures err { OnErr result (O.written out.new ≡ O.written out.old) }
    ensures later { O.write_faults out.old ≤ O.write_faults out.new }
    ensures aside { O.inward out.new ≡ O.inward out.old }
{
    match reached {
        Reached::Whole { head, body } => {
            let body = body.as_slice();
            let text = whole_head(alloc, request, tag, head, body.len())?;
            put(out, text, body)
        }
        _ => put_by(alloc, out, request, tag, handling, failure(reached)),
    }
}
