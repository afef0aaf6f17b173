// The post of a try, which goes out through a buffer.
ghost use Rattle.std.specs.Prelude.{◌≡◌, ◌<◌, ◌≤◌, ◌+◌, ◌^◌, ◌++◌, [], IfOk, OnOk, OnErr, length, decimal, string_bytes};
ghost use Rattle.front_ports.specs.Cause.{HasCause};
ghost use Rattle.webhook_sink.specs.Buffered.{Follows, Stops, Wrote};
ghost use Rattle.webhook_sink.specs.Lists.{separator, lines_text, list_text};
ghost use Rattle.webhook_sink.specs.Posts as spec;

use crate::buffer::SendBuffer;
use crate::hook_url::HookUrl;
use crate::list::{list_head, list_length, list_tail, separator};
use front_base::{Bytes, Line, NoMemory};
use front_ports::{ByteSink, PortFault};
use http_head::{push_header, push_request_line};
use itoa::Buffer;
use std::alloc::Global;

fn host_of(alloc: Global, hook: &HookUrl) -> Result<String, NoMemory>
    ensures { IfOk result (λ host. string_bytes host ≡ spec.host_of hook.now) }
{
    let mut host = String::from_str(alloc, hook.host.as_str())?;
    host.push_str(":")?;
    host.push_str(Buffer::new().format(hook.address.port))?;
    Ok(host)
}

// What stands before the length in the head.
#[tactic(auto, unfolding(crate::specs::Posts::before_length))]
fn before_length(alloc: Global, hook: &HookUrl) -> Result<Bytes, NoMemory>
    ensures { IfOk result (λ text. text ≡ spec.before_length hook.now) }
{
    let host = host_of(alloc, hook)?;
    let mut text = Vec::new(alloc);
    push_request_line(&mut text, "POST", hook.target.as_str())?;
    push_header(&mut text, "Host", host.as_bytes())?;
    push_header(&mut text, "Content-Type", b"application/json")?;
    text.extend_from_slice(b"Content-Length: ")?;
    Ok(Bytes::new(text))
}

// What stands after the length.
#[tactic(auto, unfolding(crate::specs::Posts::after_length))]
fn after_length() -> &'static [u8]
    ensures text { result.now ≡ spec.after_length }
    ensures short { length result.now ≤ 40 }
{
    b"\r\nConnection: close\r\n\r\n"
}

// The most bytes before the length in a head. `url` reads no text that makes more.
const MOST_BEFORE_BYTES: usize = 1_099_511_627_776;

/// What the posts to a URL begin with.
#[derive(Drop)]
pub struct PostHead {
    pub url: HookUrl,
    pub before: Bytes,
    ghost text: { before ≡ spec.before_length url },
    ghost short: { length before ≤ 2 ^ 40 },
}

impl PostHead {
    pub fn new(alloc: Global, url: HookUrl) -> Result<PostHead, NoMemory>
        ensures { IfOk result (λ head. head.url ≡ url) }
    {
        let before = before_length(alloc, &url)?;
        if before.as_slice().len() > MOST_BEFORE_BYTES {
            return Err(NoMemory);
        }
        Ok(PostHead { url, before })
    }
}

impl SendBuffer {
    // Adds the head of a post whose body has so many bytes.
    fn add_head<W: ByteSink>(
        &mut self,
        out: &mut W,
        before: &[u8],
        size: u64,
    ) -> Result<(), PortFault>
        requires room { self.old.sent + length self.old.bytes.items + length before.now < 2 ^ 62 }
        ensures ok { OnOk result (Follows (W.written out.old) self.old.sent self.old.bytes.items
            (before.now ++ (decimal size ++ spec.after_length)) (W.written out.new) self.new.sent self.new.bytes.items) }
        ensures err { OnErr result (Stops (W.written out.old) self.old.sent self.old.bytes.items
            (before.now ++ (decimal size ++ spec.after_length)) (W.written out.new) self.new.sent) }
        ensures counted { OnOk result (self.new.sent + length self.new.bytes.items
            ≤ self.old.sent + length self.old.bytes.items + length before.now + 80) }
        ensures cause { HasCause (W.write_faults out.old) (W.write_faults out.new) result }
        ensures aside { W.inward out.new ≡ W.inward out.old }
    {
        match self.add(out, before) {
            Ok(()) => {}
            Err(fault) => return Err(fault),
        }
        match self.add(out, Buffer::new().format(size).as_bytes()) {
            Ok(()) => self.add(out, after_length()),
            Err(fault) => Err(fault),
        }
    }

    // Adds a line, with a comma before it where it isn't the first.
    fn add_line<W: ByteSink>(
        &mut self,
        out: &mut W,
        index: usize,
        line: &Line,
    ) -> Result<(), PortFault>
        requires room { self.old.sent + length self.old.bytes.items < 2 ^ 62 }
        ensures ok { OnOk result (Follows (W.written out.old) self.old.sent self.old.bytes.items
            (separator index ++ line.now.bytes) (W.written out.new) self.new.sent self.new.bytes.items) }
        ensures err { OnErr result (Stops (W.written out.old) self.old.sent self.old.bytes.items
            (separator index ++ line.now.bytes) (W.written out.new) self.new.sent) }
        ensures counted { OnOk result (self.new.sent + length self.new.bytes.items
            ≤ self.old.sent + length self.old.bytes.items + 4194305) }
        ensures cause { HasCause (W.write_faults out.old) (W.write_faults out.new) result }
        ensures aside { W.inward out.new ≡ W.inward out.old }
    {
        match self.add(out, separator(index)) {
            Ok(()) => self.add(out, line.bytes.as_slice()),
            Err(fault) => Err(fault),
        }
    }

    // Adds all lines.
    fn add_lines<W: ByteSink>(&mut self, out: &mut W, lines: &[Line]) -> Result<(), PortFault>
        requires few { length lines.now < 2 ^ 32 }
        requires room { self.old.sent + length self.old.bytes.items < 2 ^ 61 }
        ensures ok { OnOk result (Follows (W.written out.old) self.old.sent self.old.bytes.items
            (lines_text lines.now) (W.written out.new) self.new.sent self.new.bytes.items) }
        ensures err { OnErr result (Stops (W.written out.old) self.old.sent self.old.bytes.items
            (lines_text lines.now) (W.written out.new) self.new.sent) }
        ensures counted { OnOk result (self.new.sent + length self.new.bytes.items
            ≤ self.old.sent + length self.old.bytes.items + 2 ^ 55) }
        ensures cause { HasCause (W.write_faults out.old) (W.write_faults out.new) result }
        ensures aside { W.inward out.new ≡ W.inward out.old }
    {
        for index in 0..lines.len() {
            match self.add_line(out, index, &lines[index]) {
                Ok(()) => {}
                Err(fault) => return Err(fault),
            }
        }
        Ok(())
    }

    // Adds the list of the lines.
    fn add_list<W: ByteSink>(&mut self, out: &mut W, lines: &[Line]) -> Result<(), PortFault>
        requires few { length lines.now < 2 ^ 32 }
        requires room { self.old.sent + length self.old.bytes.items < 2 ^ 60 }
        ensures ok { OnOk result (Follows (W.written out.old) self.old.sent self.old.bytes.items
            (list_text lines.now) (W.written out.new) self.new.sent self.new.bytes.items) }
        ensures err { OnErr result (Stops (W.written out.old) self.old.sent self.old.bytes.items
            (list_text lines.now) (W.written out.new) self.new.sent) }
        ensures counted { OnOk result (self.new.sent + length self.new.bytes.items
            ≤ self.old.sent + length self.old.bytes.items + 2 ^ 56) }
        ensures cause { HasCause (W.write_faults out.old) (W.write_faults out.new) result }
        ensures aside { W.inward out.new ≡ W.inward out.old }
    {
        match self.add(out, list_head()) {
            Ok(()) => {}
            Err(fault) => return Err(fault),
        }
        match self.add_lines(out, lines) {
            Ok(()) => self.add(out, list_tail()),
            Err(fault) => Err(fault),
        }
    }

    // Adds the post.
    fn add_post<W: ByteSink>(
        &mut self,
        out: &mut W,
        before: &[u8],
        lines: &[Line],
    ) -> Result<(), PortFault>
        requires few { length lines.now < 2 ^ 32 }
        requires short { length before.now ≤ 2 ^ 40 }
        requires first { (self.old.sent ≡ 0) × (self.old.bytes.items ≡ []) }
        ensures ok { OnOk result (Follows (W.written out.old) self.old.sent self.old.bytes.items
            (spec.post_from before.now lines.now) (W.written out.new) self.new.sent self.new.bytes.items) }
        ensures err { OnErr result (Stops (W.written out.old) self.old.sent self.old.bytes.items
            (spec.post_from before.now lines.now) (W.written out.new) self.new.sent) }
        ensures counted { OnOk result (self.new.sent + length self.new.bytes.items ≤ 2 ^ 57) }
        ensures cause { HasCause (W.write_faults out.old) (W.write_faults out.new) result }
        ensures aside { W.inward out.new ≡ W.inward out.old }
    {
        match self.add_head(out, before, list_length(lines)) {
            Ok(()) => self.add_list(out, lines),
            Err(fault) => Err(fault),
        }
    }

    // Sends the post. Answers how many bytes went out, whether a write failed or not.
    pub fn send_post<W: ByteSink>(
        &mut self,
        out: &mut W,
        before: &[u8],
        lines: &[Line],
    ) -> Result<u64, u64>
        requires few { length lines.now < 2 ^ 32 }
        requires short { length before.now ≤ 2 ^ 40 }
        ensures wrote { Wrote (W.written out.old) (W.written out.new) (spec.post_from before.now lines.now) result }
        ensures cause { HasCause (W.write_faults out.old) (W.write_faults out.new) result }
        ensures aside { W.inward out.new ≡ W.inward out.old }
    {
        self.clear();
        match self.add_post(out, before, lines) {
            Ok(()) => {}
            Err(_) => return Err(self.sent),
        }
        match self.flush(out) {
            Ok(()) => Ok(self.sent),
            Err(_) => Err(self.sent),
        }
    }
}
