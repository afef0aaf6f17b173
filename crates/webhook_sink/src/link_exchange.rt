// One exchange over a link of its own.
ghost use Rattle.std.specs.Prelude.{◌≡◌, ◌<◌, ◌≤◌, ◌+◌, ◌^◌, length};
ghost use Rattle.front_ports.specs.Cause.{Rose};
ghost use Rattle.webhook_sink.specs.Exchanges as spec;
ghost use Rattle.webhook_sink.specs.Posts.{post_from};

use crate::buffer::SendBuffer;
use crate::reply::{Intake, Reply};
use front_base::{Address, Line};
use front_ports::{Dial, Link};

// What came of an exchange: how many bytes were sent, and what the link said, or nothing where a call failed.
#[derive(Drop)]
pub struct Outcome {
    pub sent: u64,
    pub reply: Option<Reply>,
}

// Sends the post and reads what the link says.
fn talk<K: Link>(
    buffer: &mut SendBuffer,
    intake: &mut Intake,
    link: &mut K,
    before: &[u8],
    lines: &[Line],
) -> Outcome
    requires few { length lines.now < 2 ^ 32 }
    requires short { length before.now ≤ 2 ^ 40 }
    ensures ends { spec.Ends (K.left link.old) (K.left link.new) (K.written link.old) (K.written link.new)
        (post_from before.now lines.now) (0 < K.read_faults link.new + K.write_faults link.new) result }
    ensures number { K.number link.new ≡ K.number link.old }
{
    match buffer.send_post(link, before, lines) {
        Ok(sent) => match intake.read_reply(link) {
            Ok(reply) => Outcome {
                sent,
                reply: Some(reply),
            },
            Err(_) => Outcome { sent, reply: None },
        },
        Err(sent) => Outcome { sent, reply: None },
    }
}

// Dials once, sends the post and reads what the link says.
pub fn exchange<D: Dial>(
    buffer: &mut SendBuffer,
    intake: &mut Intake,
    dial: &mut D,
    to: Address,
    before: &[u8],
    lines: &[Line],
) -> Outcome
    requires few { length lines.now < 2 ^ 32 }
    requires short { length before.now ≤ 2 ^ 40 }
    ensures exchanged { spec.Exchanged (D.calls dial.old) (D.calls dial.new) to (post_from before.now lines.now)
        (Rose (D.faults dial.old) (D.faults dial.new)) (Rose (D.link_faults dial.old) (D.link_faults dial.new)) result }
{
    let mut link = match dial.dial(to, false) {
        Ok(link) => link,
        Err(_) => {
            return Outcome {
                sent: 0,
                reply: None,
            };
        }
    };
    let talked = talk(buffer, intake, &mut link, before, lines);
    dial.done(link);
    talked
}
