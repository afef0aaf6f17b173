ghost use Rattle.std.specs.Prelude.{IfSome};
ghost use Rattle.exchange_replies.specs.Statuses.{IsFinalHandling};
ghost use Rattle.front_ports.specs.Memory.{IsUnused};

use crate::fixtures::{ann, field};
use audit_core::Handling;
use case_rows::{bytes_of, spelled};
use exchange_replies::{ReplyTag, forward, refusal_text, reply_to};
use forward_link::Target;
use front_base::{Address, AuditId, Bytes};
use front_ports::{MemBytes, MemDial, MemLink, Script};
use http_edge::{Request, asks};
use http_head::{HeadAnswer, read_request};
use stage_event::Show;
use std::alloc::Global;
use std::io;

const ID: AuditId = AuditId {
    boot: 1,
    bay: 0,
    number: 2,
};

fn request_of(alloc: Global, head: &str) -> Option<Request> {
    match read_request(alloc, bytes_of(alloc, head).as_slice()) {
        Ok(HeadAnswer::Whole { head, .. }) => Some(Request {
            head,
            body: Bytes::new(Vec::new(alloc)),
        }),
        _ => None,
    }
}

// A backend that sends what the field spells.
fn link_of(alloc: Global, reply: &str) -> Option<MemLink>
    ensures { IfSome result IsUnused }
{
    let script = Script {
        input: Bytes::new(bytes_of(alloc, reply)),
        room: 10_000,
        sizes: Vec::new(alloc),
        read_fails: Vec::new(alloc),
        write_fails: Vec::new(alloc),
    };
    MemLink::new(alloc, script).ok()
}

fn dial_of(alloc: Global, reply: &str) -> Option<MemDial> {
    let links = vec![in alloc; link_of(alloc, reply)?].ok()?;
    MemDial::new(alloc, links, Vec::new(alloc)).ok()
}

// How the link is noted, how the reply ends, and what is kept of it.
fn show_sent(
    rt: &HostRuntime,
    request: &Request,
    dial: &mut MemDial,
    out: &mut MemBytes,
    handling: &Handling,
) -> io::Result<()>
    requires { IsFinalHandling handling.now }
{
    let alloc = rt.alloc();
    let user = ann(alloc);
    let sent = forward(alloc, dial, request, &user, ID, handling, false);
    drop(user);
    match sent {
        Ok(sent) => {
            let note = sent.note();
            let tag = ReplyTag {
                id: ID,
                closing: asks(request),
            };
            let end = reply_to(alloc, dial, out, request, tag, handling, sent, Show::Whole);
            println!(rt; "  {note:?} {end:?}")
        }
        Err(_) => println!(rt; "  out of memory"),
    }
}

// The request is sent on.
fn show_client(
    rt: &HostRuntime,
    request: &Request,
    dial: &mut MemDial,
    out: &mut MemBytes,
) -> io::Result<()> {
    let address = Address {
        ip: [127, 0, 0, 1],
        port: 9001,
    };
    let handling = Handling::Proxied(Target::Delegate { address });
    let shown = show_sent(rt, request, dial, out, &handling);
    drop(handling);
    shown?;
    println!(rt; "  {}", spelled(rt.alloc(), out.bytes()))
}

fn show_over(rt: &HostRuntime, request: &Request, dial: &mut MemDial) -> io::Result<()> {
    let alloc = rt.alloc();
    match MemBytes::new(alloc, 10_000, Vec::new(alloc)) {
        Ok(mut out) => {
            let shown = show_client(rt, request, dial, &mut out);
            drop(out);
            shown
        }
        Err(_) => println!(rt; "  out of memory"),
    }
}

fn show_request(rt: &HostRuntime, row: &str, request: &Request) -> io::Result<()> {
    match dial_of(rt.alloc(), field(row, 1)) {
        Some(mut dial) => {
            let shown = show_over(rt, request, &mut dial);
            drop(dial);
            shown
        }
        None => println!(rt; "  out of memory"),
    }
}

/// What a client gets of a backend's reply. A row has the head of the request, and the reply.
pub fn show_replied(rt: &HostRuntime, row: &str) -> io::Result<()> {
    match request_of(rt.alloc(), field(row, 0)) {
        Some(request) => {
            let shown = show_request(rt, row, &request);
            drop(request);
            shown
        }
        None => println!(rt; "  no request"),
    }
}

/// The refusal of what is no request. A row has its code.
pub fn show_refusal(rt: &HostRuntime, row: &str) -> io::Result<()> {
    let text = match row {
        "400" => refusal_text(400),
        "413" => refusal_text(413),
        "431" => refusal_text(431),
        _ => return println!(rt; "  no code"),
    };
    println!(rt; "  {}", spelled(rt.alloc(), text))
}
