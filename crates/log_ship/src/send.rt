// Lines that are sent in batches.
ghost use Rattle.std.specs.Prelude.{◌≡◌, ◌<◌, ◌≤◌, [], IfOk, List, OnErr, OnOk, length};
ghost use Rattle.front_base.specs.Line as base;
ghost use Rattle.front_base.specs.declared.line.TheConstants.{MOST_LINE_BYTES};
ghost use Rattle.log_ship.specs.Shipped as spec;
ghost use Rattle.log_ship.specs.Chains.{counted};
ghost use Rattle.log_ship.specs.Sides.{side_of};
ghost use Rattle.retry_throttle.specs.Senders.{sender_bucket, sender_clock, sender_rules};

use crate::gathering::Gathering;
use crate::tally::Tally;
use front_base::{Bytes, Line, NoMemory};
use front_ports::Clock;
use retry_throttle::{Sender, Sent};
use std::alloc::Global;
use truncate_backend::BatchSink;

// A batch of so many lines is counted.
fn count(tally: Tally, lines: u64, sent: Sent) -> Tally
    ensures { (batch : List base.Line) → length batch ≡ lines → result ≡ counted batch sent tally }
{
    let (posted, lost, posts) = match sent {
        Sent::Done { posts } => (lines, 0, posts),
        Sent::GaveUp { posts, .. } | Sent::Throttled { posts } => (0, lines, posts),
    };
    Tally {
        posted: tally.posted.saturating_add(posted),
        lost: tally.lost.saturating_add(lost),
        posts: tally.posts.saturating_add(u64::from(posts)),
    }
}

// Sends the lines that wait, and counts them. Then none waits.
fn send_lines<B: BatchSink, K: Clock>(
    batch: &mut Gathering,
    sender: &mut Sender<B, K>,
    tally: &mut Tally,
)
    requires some { 0 < length batch.old.lines }
    requires behind { (sender_bucket sender.old).last ≤ K.last (sender_clock sender.old) }
    ensures sends { spec.SendsLines (sender_rules sender.old) (side_of B.tells K.given K.last K.rests sender.old) batch.old.lines tally.old
        (side_of B.tells K.given K.last K.rests sender.new) tally.new }
    ensures batch { batch.new ≡ record { limits = batch.old.limits; lines = [] } }
    ensures behind { (sender_bucket sender.new).last ≤ K.last (sender_clock sender.new) }
    ensures rules { sender_rules sender.new ≡ sender_rules sender.old }
{
    let lines = batch.lines();
    let size = lines.len() as u64;
    let sent = sender.send(lines);
    *tally = count(*tally, size, sent);
    batch.clear();
}

/// Sends the lines that wait, if any do.
pub fn send_rest<B: BatchSink, K: Clock>(
    batch: &mut Gathering,
    sender: &mut Sender<B, K>,
    tally: &mut Tally,
)
    requires behind { (sender_bucket sender.old).last ≤ K.last (sender_clock sender.old) }
    ensures sends { spec.SendsRest (sender_rules sender.old) (side_of B.tells K.given K.last K.rests sender.old) batch.old.lines tally.old
        (side_of B.tells K.given K.last K.rests sender.new) tally.new }
    ensures behind { (sender_bucket sender.new).last ≤ K.last (sender_clock sender.new) }
    ensures rules { sender_rules sender.new ≡ sender_rules sender.old }
{
    if !batch.lines().is_empty() {
        send_lines(batch, sender, tally);
    }
}

// A line of this text.
fn line_of(alloc: Global, number: u64, text: &[u8]) -> Result<Line, NoMemory>
    requires { length text.now ≤ MOST_LINE_BYTES }
    ensures { IfOk result (λ line. line ≡ record { bay = 0; number = number; bytes = text.now }) }
{
    Ok(Line {
        bay: 0,
        number,
        bytes: Bytes::new(text.to_vec(alloc)?),
    })
}

/// Adds a line of this text to those that wait. Where they can't take it, they are sent first. Without memory nothing changes.
pub fn add_text<B: BatchSink, K: Clock>(
    alloc: Global,
    number: u64,
    text: &[u8],
    batch: &mut Gathering,
    sender: &mut Sender<B, K>,
    tally: &mut Tally,
) -> Result<(), NoMemory>
    requires short { length text.now ≤ MOST_LINE_BYTES }
    requires behind { (sender_bucket sender.old).last ≤ K.last (sender_clock sender.old) }
    ensures ok { OnOk result (spec.Adds (sender_rules sender.old) (side_of B.tells K.given K.last K.rests sender.old) batch.old
        (record { bay = 0; number = number; bytes = text.now }) tally.old (side_of B.tells K.given K.last K.rests sender.new) batch.new tally.new) }
    ensures err { OnErr result (spec.Stays (side_of B.tells K.given K.last K.rests sender.old) batch.old tally.old
        (side_of B.tells K.given K.last K.rests sender.new) batch.new tally.new) }
    ensures behind { (sender_bucket sender.new).last ≤ K.last (sender_clock sender.new) }
    ensures rules { sender_rules sender.new ≡ sender_rules sender.old }
{
    let size = text.len() as u64;
    let Ok(line) = line_of(alloc, number, text) else {
        return Err(NoMemory);
    };
    if !batch.could_take(size) {
        send_lines(batch, sender, tally);
    }
    batch.push(line);
    Ok(())
}
