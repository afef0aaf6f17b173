ghost use Rattle.std.specs.Prelude.{◌≡◌, ◌<◌, ◌≤◌, ◌^◌, true, false, None, Some, IfOk, IsErrOf, length, option_map};
ghost use Rattle.front_ports.specs.Cause.{Rose};
ghost use Rattle.truncate_backend.specs.Tries.{Counted, Tried, answer_of};
ghost use Rattle.webhook_sink.specs.Exchanges.{ExchangedBy};
ghost use Rattle.webhook_sink.specs.Hooked as spec;
ghost use Rattle.webhook_sink.specs.Hooked.{hook_dial, hook_notes, hook_tells};
ghost use Rattle.webhook_sink.specs.Hooks.{hook_named};
ghost use Rattle.webhook_sink.specs.Posts as posts;

use crate::buffer::SendBuffer;
use crate::hook_url::{HookFault, read_url};
use crate::link_exchange::{Outcome, exchange};
use crate::post::PostHead;
use crate::reply::{Intake, Reply};
use front_base::Line;
use front_ports::Dial;
use std::alloc::Global;
use truncate_backend::{BatchSink, Notes, SinkFault, TryAnswer, TryNote};

/// Posts the lines of a try over a link of its own, and notes how many bytes were sent.
///
/// A try for whose note there is no room dials nothing, and from then on the webhook tells no tries.
#[derive(Drop)]
pub struct WebhookSink<D, N> {
    dial: D,
    notes: N,
    head: PostHead,
    buffer: SendBuffer,
    intake: Intake,
    told: bool,
    faults: u64,
    refusals: u64,
}

// What a sink answers to a reply: 200 to 299 takes the lines (RFC 9110, section 15.3). No reply is a call that failed.
fn answer_by(reply: Option<Reply>) -> Result<(), SinkFault>
    ensures { result ≡ spec.answer_by reply }
{
    match reply {
        None => Err(SinkFault::Port),
        Some(Reply::Bad) => Err(SinkFault::BadAnswer),
        Some(Reply::Final(status)) => {
            if 200 <= status && status < 300 {
                Ok(())
            } else {
                Err(SinkFault::Refused { code: status })
            }
        }
    }
}

fn noted(answer: Result<(), SinkFault>) -> TryAnswer
    ensures { result ≡ answer_of answer }
{
    match answer {
        Ok(()) => TryAnswer::Done,
        Err(SinkFault::Port) => TryAnswer::Port,
        Err(SinkFault::Refused { code }) => TryAnswer::Refused(code),
        Err(SinkFault::BadAnswer) => TryAnswer::BadAnswer,
    }
}

impl<D: Dial + Drop, N: Notes + Drop> WebhookSink<D, N> {
    /// A webhook at this URL, as `check_url` takes it. It takes all of its memory here.
    pub fn start(
        alloc: Global,
        url: &str,
        dial: D,
        notes: N,
    ) -> Result<WebhookSink<D, N>, HookFault>
        ensures url { IfOk result (λ hook. hook_named url.now ≡ Some (spec.hook_url hook)) }
        ensures bad { IsErrOf result HookFault.BadUrl → hook_named url.now ≡ None }
        ensures dial { IfOk result (λ hook. hook_dial hook ≡ dial) }
        ensures notes { IfOk result (λ hook. hook_notes hook ≡ notes) }
        ensures tells { IfOk result (λ hook.
            hook_tells D.calls N.tries hook ≡ record {
              tries = N.tries notes;
              faults = 0;
              refusals = 0;
              text = posts.post_text (spec.hook_url hook);
              sent = Some (option_map spec.calls_sent (D.calls dial));
            }) }
    {
        let url = match read_url(alloc, url) {
            Ok(url) => url,
            Err(fault) => return Err(fault),
        };
        let Ok(head) = PostHead::new(alloc, url) else {
            return Err(HookFault::NoMemory);
        };
        let Ok(buffer) = SendBuffer::new(alloc) else {
            return Err(HookFault::NoMemory);
        };
        let Ok(intake) = Intake::new(alloc) else {
            return Err(HookFault::NoMemory);
        };
        Ok(WebhookSink {
            dial,
            notes,
            head,
            buffer,
            intake,
            told: true,
            faults: 0,
            refusals: 0,
        })
    }

    /// What it dials with.
    pub fn dial(&self) -> &D
        ensures { result.now ≡ hook_dial self.now }
    {
        &self.dial
    }

    /// The account of its tries.
    pub fn notes(&self) -> &N
        ensures { result.now ≡ hook_notes self.now }
    {
        &self.notes
    }

    // Counts the answer of a try.
    fn count(&mut self, answer: Result<(), SinkFault>)
        ensures counted { Counted (hook_tells D.calls N.tries self.old) answer (hook_tells D.calls N.tries self.new) }
        ensures tries { (hook_tells D.calls N.tries self.new).tries ≡ (hook_tells D.calls N.tries self.old).tries }
        ensures rest { (hook_dial self.new ≡ hook_dial self.old) × (hook_notes self.new ≡ hook_notes self.old)
            × (spec.hook_url self.new ≡ spec.hook_url self.old) }
    {
        match answer {
            Ok(()) => {}
            Err(SinkFault::Port) => self.faults = self.faults.saturating_add(1),
            Err(SinkFault::Refused { .. }) => self.refusals = self.refusals.saturating_add(1),
            Err(SinkFault::BadAnswer) => self.refusals = self.refusals.saturating_add(1),
        }
    }

    // Dials once, and posts the lines.
    fn post(&mut self, lines: &[Line]) -> Outcome
        requires few { length lines.now < 2 ^ 32 }
        ensures exchanged { ExchangedBy (D.calls (hook_dial self.old)) (D.calls (hook_dial self.new))
            (spec.hook_url self.old).address (posts.post_text (spec.hook_url self.old) lines.now)
            (Rose (D.faults (hook_dial self.old)) (D.faults (hook_dial self.new)))
            (Rose (D.link_faults (hook_dial self.old)) (D.link_faults (hook_dial self.new))) result.sent result.reply }
        ensures rest { (hook_notes self.new ≡ hook_notes self.old) × (spec.hook_url self.new ≡ spec.hook_url self.old)
            × (self.new.told ≡ self.old.told) × (self.new.faults ≡ self.old.faults)
            × (self.new.refusals ≡ self.old.refusals) }
    {
        exchange(
            &mut self.buffer,
            &mut self.intake,
            &mut self.dial,
            self.head.url.address,
            self.head.before.as_slice(),
            lines,
        )
    }

    // A try for whose note there is room.
    fn try_noted(&mut self, lines: &[Line]) -> Result<(), SinkFault>
        requires few { length lines.now < 2 ^ 32 }
        requires room { N.has_room (hook_notes self.old) lines.now ≡ true }
        ensures posted { spec.Posted (hook_tells D.calls N.tries self.old) (D.calls (hook_dial self.old))
            (D.calls (hook_dial self.new)) (spec.hook_url self.old) lines.now
            (Rose (D.faults (hook_dial self.old)) (D.faults (hook_dial self.new)))
            (Rose (D.link_faults (hook_dial self.old)) (D.link_faults (hook_dial self.new))) result
            (hook_tells D.calls N.tries self.new) }
        ensures url { spec.hook_url self.new ≡ spec.hook_url self.old }
        ensures fixed { N.room (hook_notes self.new) ≡ N.room (hook_notes self.old) }
    {
        let outcome = self.post(lines);
        let answer = answer_by(outcome.reply);
        let note = TryNote {
            lines: lines.len() as u32,
            sent: outcome.sent,
            answer: noted(answer),
        };
        self.notes.note(lines, note);
        self.count(answer);
        answer
    }

    fn try_lines(&mut self, lines: &[Line]) -> Result<(), SinkFault>
        requires few { length lines.now < 2 ^ 32 }
        ensures posted { N.has_room (hook_notes self.old) lines.now ≡ true
            → spec.Posted (hook_tells D.calls N.tries self.old) (D.calls (hook_dial self.old)) (D.calls (hook_dial self.new))
            (spec.hook_url self.old) lines.now
            (Rose (D.faults (hook_dial self.old)) (D.faults (hook_dial self.new)))
            (Rose (D.link_faults (hook_dial self.old)) (D.link_faults (hook_dial self.new))) result
            (hook_tells D.calls N.tries self.new) }
        ensures full { N.has_room (hook_notes self.old) lines.now ≡ false
            → spec.NotPosted (D.calls (hook_dial self.old)) (D.calls (hook_dial self.new)) result
            (hook_tells D.calls N.tries self.new) }
        ensures tried { Tried (hook_tells D.calls N.tries self.old) lines.now result (hook_tells D.calls N.tries self.new) }
        ensures url { spec.hook_url self.new ≡ spec.hook_url self.old }
        ensures room { N.room (hook_notes self.new) ≡ N.room (hook_notes self.old) }
    {
        if !self.notes.free(lines) {
            self.told = false;
            self.faults = self.faults.saturating_add(1);
            return Err(SinkFault::Port);
        }
        self.try_noted(lines)
    }
}

impl<D: Dial + Drop, N: Notes + Drop> BatchSink for WebhookSink<D, N> {
    ghost use Rattle.std.specs.Prelude.{◌≡◌, ◌<◌, ◌^◌, true, false, List, length};
    ghost use Rattle.front_ports.specs.Cause.{Rose};
    ghost use Rattle.truncate_backend.specs.Tries.{Tried};
    ghost use Rattle.webhook_sink.specs.Hooked as spec;
    ghost use Rattle.webhook_sink.specs.Hooked.{hook_dial, hook_notes, hook_tells};
    ghost use Rattle.webhook_sink.specs.Accounts.{Accounts};
    ghost use Rattle.front_ports.specs.declared.dial.Call.{Call};

    ghost tells = { λ hook. hook_tells D.calls N.tries hook };

    fn put(&mut self, lines: &[Line]) -> Result<(), SinkFault>
        requires { (0 < length lines.now) × (length lines.now < 2 ^ 32) }
        ensures tried { Tried (hook_tells D.calls N.tries self.old) lines.now result (hook_tells D.calls N.tries self.new) }

        // One dial and one post, and what the link said.
        ensures posted { N.has_room (hook_notes self.old) lines.now ≡ true
            → spec.Posted (hook_tells D.calls N.tries self.old) (D.calls (hook_dial self.old)) (D.calls (hook_dial self.new))
            (spec.hook_url self.old) lines.now
            (Rose (D.faults (hook_dial self.old)) (D.faults (hook_dial self.new)))
            (Rose (D.link_faults (hook_dial self.old)) (D.link_faults (hook_dial self.new))) result
            (hook_tells D.calls N.tries self.new) }
        ensures full { N.has_room (hook_notes self.old) lines.now ≡ false
            → spec.NotPosted (D.calls (hook_dial self.old)) (D.calls (hook_dial self.new)) result
            (hook_tells D.calls N.tries self.new) }
        ensures url { spec.hook_url self.new ≡ spec.hook_url self.old }
        ensures room { N.room (hook_notes self.new) ≡ N.room (hook_notes self.old) }

        // The calls of the dial stay those of the tries.
        ensures accounts { (before : List Call)
            → Accounts (spec.hook_url self.old) before (D.calls (hook_dial self.old)) (hook_tells D.calls N.tries self.old).tries
            → Accounts (spec.hook_url self.new) before (D.calls (hook_dial self.new)) (hook_tells D.calls N.tries self.new).tries }
    {
        self.try_lines(lines)
    }
}
