// One exchange over a link.
ghost use Rattle.std.specs.Prelude.{◌≡◌, ◌≤◌, ◌+◌, ◌++◌, IfOk, OnErr};
ghost use Rattle.front_ports.specs.Cause.{Rose};
ghost use Rattle.forward_link.specs.Exchange as spec;

use crate::talk::{Talk, talk_over};
use body_frames::Frame;
use front_base::{Address, Bytes, NoMemory};
use front_ports::Dial;
use http_head::ReplyHead;
use std::alloc::Global;

/// What came of an exchange.
pub enum LinkAnswer<K> {
    /// A whole reply, which nobody has seen a byte of yet.
    Whole {
        head: ReplyHead,
        body: Bytes,
    },
    /// The head of a reply whose body in that frame is read as it comes: first `rest`, and then what the link gives. The link
    /// is still open.
    Streamed {
        head: ReplyHead,
        frame: Frame,
        rest: Bytes,
        link: K,
    },
    /// No link was opened.
    DialFailed,
    /// What the backend sent is no reply that is taken: no head of HTTP/1, one that is too large, switches protocols, or
    /// frames its body in two ways, or a ninth interim head.
    BadReply,
    /// The backend's bytes end before a final head, or within a body that is read whole.
    Cut,
    /// A read or a write of the link failed.
    LinkFault,
}

/// Sends a request over a link of its own, and reads the reply. `is_head` says that the request's method is HEAD, and
/// `streamed` that it is long-running. A reply is whole where the request isn't long-running and the body has no bytes or a
/// length of at most `MOST_WHOLE_BYTES`; every other one is streamed. The link is handed back, unless the reply is streamed.
pub fn exchange<D: Dial>(
    alloc: Global,
    dial: &mut D,
    to: Address,
    head: &[u8],
    body: &[u8],
    is_head: bool,
    streamed: bool,
) -> Result<LinkAnswer<D::K>, NoMemory>
    ensures ok { IfOk result (λ answer.
        spec.Exchanged (λ link. record {
          left = D.K.left link;
          written = D.K.written link;
          number = D.K.number link;
          faults = D.K.read_faults link + D.K.write_faults link;
        }) is_head streamed (D.calls dial.old) (D.calls dial.new) to (head.now ++ body.now)
        (Rose (D.faults dial.old) (D.faults dial.new)) (Rose (D.link_faults dial.old) (D.link_faults dial.new)) answer) }
    ensures err { OnErr result (spec.HandedBack (D.calls dial.old) (D.calls dial.new) to (head.now ++ body.now)) }
    ensures status { IfOk result spec.HasFinal }
    ensures faults { D.faults dial.old ≤ D.faults dial.new }
    ensures link_faults { D.link_faults dial.old ≤ D.link_faults dial.new }
{
    let mut link = match dial.dial(to, streamed) {
        Ok(link) => link,
        Err(_) => return Ok(LinkAnswer::DialFailed),
    };
    match talk_over(alloc, &mut link, head, body, is_head, streamed) {
        Ok(Talk::Streamed { head, frame, rest }) => Ok(LinkAnswer::Streamed {
            head,
            frame,
            rest,
            link,
        }),
        Ok(Talk::Whole { head, body }) => {
            dial.done(link);
            Ok(LinkAnswer::Whole { head, body })
        }
        Ok(Talk::BadReply) => {
            dial.done(link);
            Ok(LinkAnswer::BadReply)
        }
        Ok(Talk::Cut) => {
            dial.done(link);
            Ok(LinkAnswer::Cut)
        }
        Ok(Talk::LinkFault) => {
            dial.done(link);
            Ok(LinkAnswer::LinkFault)
        }
        Err(NoMemory) => {
            dial.done(link);
            Err(NoMemory)
        }
    }
}
