// Requests that are sent on.
ghost use Rattle.std.specs.Prelude.{◌≡◌, ◌≤◌, ◌+◌, ◌++◌, IfOk, OnErr};
ghost use Rattle.forward_link.specs.Exchange.{HandedBack};
ghost use Rattle.forward_link.specs.Target.{address_of};
ghost use Rattle.forward_link.specs.Forwarded.{forwarded_head};
ghost use Rattle.exchange_replies.specs.Sent as spec;
ghost use Rattle.exchange_replies.specs.Streams as streams;

use crate::client::is_head;
use crate::reached::Reached;
use crate::sent_on::SentOn;
use audit_core::Handling;
use forward_link::{LinkAnswer, Target, exchange, forward_head};
use front_base::{AuditId, NoMemory, User};
use front_ports::Dial;
use http_edge::Request;
use http_head::{Framing, framing};
use std::alloc::Global;

// How many bytes of body are said to follow.
fn length_of(request: &Request) -> Option<u64>
    ensures { result ≡ spec.length_of request.now }
{
    match framing(&request.head.headers, request.head.minor) {
        Framing::NoBody => None,
        _ => Some(request.body.as_slice().len() as u64),
    }
}

// Sends these bytes on, and leaves the link open where the reply streams.
fn open<D: Dial>(
    alloc: Global,
    dial: &mut D,
    target: &Target,
    head: &[u8],
    request: &Request,
    long: bool,
) -> Result<SentOn<D::K>, NoMemory>
    ensures ok { IfOk result (streams.ForwardsBy (λ link. record {
      left = D.K.left link;
      written = D.K.written link;
      number = D.K.number link;
      faults = D.K.read_faults link + D.K.write_faults link;
    }) (spec.is_head request.now) long
        (record { to = address_of target.now; text = head.now ++ request.now.body })
        (record { calls = D.calls dial.old; faults = D.faults dial.old; link_faults = D.link_faults dial.old })
        (record { calls = D.calls dial.new; faults = D.faults dial.new; link_faults = D.link_faults dial.new })) }
    ensures err { OnErr result (HandedBack (D.calls dial.old) (D.calls dial.new) (address_of target.now)
        (head.now ++ request.now.body)) }
    ensures status { IfOk result streams.IsFinalSent }
    ensures later { (D.faults dial.old ≤ D.faults dial.new) × (D.link_faults dial.old ≤ D.link_faults dial.new) }
{
    let body = request.body.as_slice();
    match exchange(
        alloc,
        dial,
        target.address(),
        head,
        body,
        is_head(request),
        long,
    ) {
        Ok(LinkAnswer::Whole { head, body }) => Ok(SentOn::Once(Reached::Whole { head, body })),
        Ok(
            LinkAnswer::Streamed {
                head,
                frame,
                rest,
                link,
            },
        ) => Ok(SentOn::Open {
            head,
            frame,
            rest,
            link,
        }),
        Ok(LinkAnswer::DialFailed) => Ok(SentOn::Once(Reached::DialFailed)),
        Ok(LinkAnswer::BadReply) => Ok(SentOn::Once(Reached::BadReply)),
        Ok(LinkAnswer::Cut) => Ok(SentOn::Once(Reached::Cut)),
        Ok(LinkAnswer::LinkFault) => Ok(SentOn::Once(Reached::LinkFault)),
        Err(NoMemory) => Err(NoMemory),
    }
}

/// Sends a request on where it is to be sent on, for that user and with that audit ID. `long` says that it is long-running.
/// The link of a reply that streams is left open. Where memory runs out after the dial, the link was handed back.
pub fn forward<D: Dial>(
    alloc: Global,
    dial: &mut D,
    request: &Request,
    user: &User,
    id: AuditId,
    handling: &Handling,
    long: bool,
) -> Result<SentOn<D::K>, NoMemory>
    ensures ok { IfOk result (streams.Forwards (λ link. record {
      left = D.K.left link;
      written = D.K.written link;
      number = D.K.number link;
      faults = D.K.read_faults link + D.K.write_faults link;
    }) (spec.is_head request.now) long
        (spec.sent_on request.now user.now id handling.now)
        (record { calls = D.calls dial.old; faults = D.faults dial.old; link_faults = D.link_faults dial.old })
        (record { calls = D.calls dial.new; faults = D.faults dial.new; link_faults = D.link_faults dial.new })) }
    ensures err { OnErr result (spec.StopsSending (spec.sent_on request.now user.now id handling.now)
        (record { calls = D.calls dial.old; faults = D.faults dial.old; link_faults = D.link_faults dial.old })
        (record { calls = D.calls dial.new; faults = D.faults dial.new; link_faults = D.link_faults dial.new })) }
    ensures status { IfOk result streams.IsFinalSent }
    ensures later { (D.faults dial.old ≤ D.faults dial.new) × (D.link_faults dial.old ≤ D.link_faults dial.new) }
{
    match handling {
        Handling::Refused(_) => Ok(SentOn::Once(Reached::NotUsed)),
        Handling::Served { .. } => Ok(SentOn::Once(Reached::NotUsed)),
        Handling::Proxied(target) => {
            let head = forward_head(alloc, &request.head, user, target, id, length_of(request))?;
            open(alloc, dial, target, head.as_slice(), request, long)
        }
    }
}
