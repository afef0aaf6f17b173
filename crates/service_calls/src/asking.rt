// One call of a dial.
ghost use Rattle.std.specs.Prelude.{◌≡◌, IfOk, OnErr};
ghost use Rattle.service_calls.specs.Calls.{dial_state};
ghost use Rattle.service_calls.specs.Contacts as spec;

use forward_link::{LinkAnswer, exchange};
use front_base::{Address, NoMemory};
use front_ports::Dial;
use std::alloc::Global;

/// Sends a request over a link of its own, reads the reply up to its final head, and hands the link back. The answer is the head's
/// status, from 200 to 999; none where no link was opened, a read or a write of it failed, or what it held says no final head that is
/// taken, after at most 8 interim ones. Where memory runs out, a prefix of the request was sent.
pub fn ask<D: Dial>(
    alloc: Global,
    dial: &mut D,
    to: Address,
    request: &[u8],
) -> Result<Option<u16>, NoMemory>
    ensures ok { IfOk result (λ answer. spec.Asks (record { to = to; text = request.now }) answer
        (dial_state (D.calls dial.old) (D.faults dial.old) (D.link_faults dial.old))
        (dial_state (D.calls dial.new) (D.faults dial.new) (D.link_faults dial.new))) }
    ensures err { OnErr result (spec.LeavesOff (record { to = to; text = request.now })
        (dial_state (D.calls dial.old) (D.faults dial.old) (D.link_faults dial.old))
        (dial_state (D.calls dial.new) (D.faults dial.new) (D.link_faults dial.new))) }
{
    match exchange(alloc, dial, to, request, b"", false, true) {
        Ok(LinkAnswer::Whole { head, body }) => {
            drop(body);
            Ok(Some(head.status))
        }
        Ok(
            LinkAnswer::Streamed {
                head,
                frame: _frame,
                rest,
                link,
            },
        ) => {
            drop(rest);
            dial.done(link);
            Ok(Some(head.status))
        }
        Ok(LinkAnswer::DialFailed) => Ok(None),
        Ok(LinkAnswer::BadReply) => Ok(None),
        Ok(LinkAnswer::Cut) => Ok(None),
        Ok(LinkAnswer::LinkFault) => Ok(None),
        Err(NoMemory) => Err(NoMemory),
    }
}

/// Whether an answer is a status from 200 to 299 (RFC 9110, section 15.3): a probe is good by it.
pub fn is_good(answer: Option<u16>) -> bool
    ensures { result ≡ spec.is_good answer }
{
    match answer {
        Some(status) => 200 <= status && status < 300,
        None => false,
    }
}
