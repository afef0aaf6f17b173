ghost use Rattle.std.specs.Prelude.{◌≡◌, ◌<◌, ◌≤◌, ◌+◌, ◌^◌, ◌∷◌, [], Some, true, false, IfOk, length, vec_capacity, vec_len, is_some, nat_eq};
ghost use Rattle.front_base.specs.Line as base;
ghost use Rattle.batch_backend.specs.Batches as spec;
ghost use Rattle.batch_backend.specs.Closes.{IsYoung};
ghost use Rattle.batch_backend.specs.Flushes.{FlushedAs, FlushMoved, PumpedOut};
ghost use Rattle.batch_backend.specs.Pumps.{Put, Takes, PumpedAs, PumpMoved, BatchParts, wrote, lost};
ghost use Rattle.truncate_backend.specs.Outlets.{NoneLeft};
ghost use Rattle.truncate_backend.specs.Tries.{KeepsSent};

use crate::limits::Limits;
use crate::pumped::Pumped;
use front_base::{Line, Moment, NoMemory};
use std::alloc::Global;
use std::marker::Model;
use truncate_backend::{
    BatchSink, Outlet, bytes_join, lists_join, one_try, tries_join, tries_keep_what_was_sent,
};

/// Takes lines from an outlet, and puts them into a sink in batches.
#[derive(Drop)]
pub struct Drainer {
    limits: Limits,
    pending: Vec<Line>,
    // How many bytes the pending lines have, and when the first of them was taken.
    bytes: u64,
    since: u64,
}

impl Model for Drainer {
    ghost use Rattle.std.specs.Prelude.{◌≡◌, ◌<◌, ◌≤◌, ◌*◌, ◌^◌, length, vec_capacity};
    ghost use Rattle.truncate_backend.specs.Tries.{bytes_of};
    ghost use Rattle.batch_backend.specs.Batches as seen;

    ghost Value = { seen.Drained };

    ghost view = { λ d. record { limits = d.limits; pending = record { lines = d.pending.items; since = d.since } } };

    ghost invariant = { λ d. (d.bytes ≡ bytes_of d.pending.items) × (length d.pending.items < d.limits.lines)
        × (1 < length d.pending.items → d.bytes ≤ d.limits.bytes) × (d.bytes ≤ 4194304 * length d.pending.items)
        × (d.limits.lines ≤ vec_capacity d.pending) × (d.limits.lines < 2 ^ 32) };
}

impl Drainer {
    /// Nothing waits. It takes all of its memory here: room for the lines of a batch.
    pub fn start(alloc: Global, limits: Limits) -> Result<Drainer, NoMemory>
        requires { 0 < limits.lines }
        ensures new { IfOk result (λ d. d ≡ record { limits = limits; pending = record { lines = []; since = 0 } }) }
        ensures parts { IfOk result (λ d. BatchParts d (Some []) (Some [])) }
    {
        Ok(Drainer {
            limits,
            pending: Vec::with_capacity(alloc, limits.lines as usize)?,
            bytes: 0,
            since: 0,
        })
    }

    fn is_empty(&self) -> bool
        ensures { result ≡ nat_eq (length self.now.pending.lines) 0 }
    {
        self.pending.is_empty()
    }

    fn is_due(&self, now: u64) -> bool
        ensures { result ≡ spec.is_due self.now.limits now self.now.pending }
    {
        !self.pending.is_empty() && now.saturating_sub(self.since) >= self.limits.wait
    }

    fn is_over(&self, line: &Line) -> bool
        ensures { result ≡ spec.is_over self.now.limits self.now.pending line.now }
    {
        !self.pending.is_empty()
            && self.bytes + line.bytes.as_slice().len() as u64 > self.limits.bytes
    }

    // Puts what waits.
    fn put_due<S: BatchSink>(&mut self, sink: &mut S) -> Pumped
        requires { 0 < length self.old.pending.lines }
        ensures put { Put (S.tells sink.old) self.old.pending.lines result (S.tells sink.new) }
        ensures left { self.new ≡ record {
          limits = self.old.limits;
          pending = record { lines = []; since = self.old.pending.since };
        } }
        ensures within { spec.WithinLimits self.old.limits self.old.pending.lines }
    {
        self.bytes = 0;
        put_all(sink, &mut self.pending)
    }

    // Puts what waits, and then this line waits alone.
    fn restart<S: BatchSink>(&mut self, sink: &mut S, line: Line, now: u64) -> Pumped
        requires { 0 < length self.old.pending.lines }
        ensures put { Put (S.tells sink.old) self.old.pending.lines result (S.tells sink.new) }
        ensures left { self.new ≡ record {
          limits = self.old.limits;
          pending = record { lines = line ∷ []; since = now };
        } }
        ensures within { spec.WithinLimits self.old.limits self.old.pending.lines }
    {
        let length = line.bytes.as_slice().len() as u64;
        let answer = put_all(sink, &mut self.pending);
        self.pending.push_reserved(line);
        self.bytes = length;
        self.since = now;
        answer
    }

    // Adds the line, and puts what waits where that is a whole batch.
    fn add<S: BatchSink>(&mut self, sink: &mut S, line: Line, now: u64) -> Pumped
        requires { spec.is_over self.old.limits self.old.pending line ≡ false }
        ensures { Takes self.old now line (S.tells sink.old) result self.new (S.tells sink.new) }
    {
        bytes_join();
        let since = if self.pending.is_empty() {
            now
        } else {
            self.since
        };
        let bytes = self.bytes + line.bytes.as_slice().len() as u64;
        self.since = since;
        self.bytes = bytes;
        self.pending.push_reserved(line);
        if self.pending.len() < self.limits.lines as usize && bytes < self.limits.bytes {
            return Pumped::Took;
        }
        self.bytes = 0;
        put_all(sink, &mut self.pending)
    }

    fn take<S: BatchSink>(&mut self, sink: &mut S, line: Line, now: u64) -> Pumped
        ensures { Takes self.old now line (S.tells sink.old) result self.new (S.tells sink.new) }
    {
        if self.is_over(&line) {
            self.restart(sink, line, now)
        } else {
            self.add(sink, line, now)
        }
    }

    fn pump_once<U: Outlet, S: BatchSink>(
        &mut self,
        outlet: &mut U,
        sink: &mut S,
        now: Moment,
    ) -> Pumped
        ensures pumped { PumpedAs self.old now (U.tells outlet.old) (S.tells sink.old) result
            self.new (U.tells outlet.new) (S.tells sink.new) }
        ensures home { U.home outlet.new ≡ U.home outlet.old }
    {
        let now = now.micros();
        if self.is_due(now) {
            return self.put_due(sink);
        }
        match outlet.pop() {
            Some(line) => self.take(sink, line, now),
            None => {
                if self.pending.is_empty() {
                    Pumped::Idle
                } else {
                    Pumped::Waiting
                }
            }
        }
    }

    /// Does the first of these that applies, with at most one pop and one put:
    ///
    /// 1. Lines wait, and the first of them for at least `wait`: puts them.
    /// 2. Takes a line. Where there is none, it is Waiting or Idle.
    /// 3. The line would carry the bytes of those that wait over the limit: puts these, and then the line waits alone.
    /// 4. Adds the line to them, and puts them where they are a whole batch: they have as many lines as a batch may have,
    ///    or at least its bytes.
    pub fn pump<U: Outlet, S: BatchSink>(
        &mut self,
        outlet: &mut U,
        sink: &mut S,
        now: Moment,
    ) -> Pumped
        ensures pumped { PumpedAs self.old now (U.tells outlet.old) (S.tells sink.old) result
            self.new (U.tells outlet.new) (S.tells sink.new) }
        ensures moved { PumpMoved self.old now (U.tells outlet.old) (S.tells sink.old) (wrote result) (lost result)
            self.new (U.tells outlet.new) (S.tells sink.new) }
        ensures young { IsYoung self.old.limits now self.new.pending }
        ensures sent { KeepsSent (S.tells sink.old) (S.tells sink.new) }
        ensures parts { BatchParts self.old (S.tells sink.old).tries (U.tells outlet.old).taken
            → BatchParts self.new (S.tells sink.new).tries (U.tells outlet.new).taken }
        ensures home { U.home outlet.new ≡ U.home outlet.old }
    {
        tries_join();
        one_try();
        tries_keep_what_was_sent();
        self.pump_once(outlet, sink, now)
    }

    // Pumps until there is no line to take.
    fn pump_all<U: Outlet, S: BatchSink>(
        &mut self,
        outlet: &mut U,
        sink: &mut S,
        now: Moment,
    ) -> (u64, u64)
        requires { is_some (U.tells outlet.old).left ≡ true }
        ensures pumped { PumpedOut self.old now (U.tells outlet.old) (S.tells sink.old) result.0 result.1
            self.new (U.tells outlet.new) (S.tells sink.new) }
        ensures home { U.home outlet.new ≡ U.home outlet.old }
    {
        let mut written: u64 = 0;
        let mut unwritten: u64 = 0;
        'pumps: loop {
            let answer = self.pump_once(outlet, sink, now);
            written = written.saturating_add(answer.wrote());
            unwritten = unwritten.saturating_add(answer.lost());
            if answer.rests() {
                return (written, unwritten);
            }
        }
    }

    /// Pumps until there is no line to take, and puts what waits. Answers how many lines were written, and how many lost.
    pub fn flush_all<U: Outlet, S: BatchSink>(
        &mut self,
        outlet: &mut U,
        sink: &mut S,
        now: Moment,
    ) -> (u64, u64)
        requires { is_some (U.tells outlet.old).left ≡ true }
        ensures flushed { FlushedAs self.old now (U.tells outlet.old) (S.tells sink.old)
            (U.tells outlet.new) (S.tells sink.new) }
        ensures moved { FlushMoved self.old now (U.tells outlet.old) (S.tells sink.old) result
            self.new (U.tells outlet.new) (S.tells sink.new) }
        ensures sent { KeepsSent (S.tells sink.old) (S.tells sink.new) }
        ensures pending { self.new.pending.lines ≡ [] }
        ensures left { (is_some (U.tells outlet.new).left ≡ true) × NoneLeft (U.tells outlet.new).left }
        ensures parts { BatchParts self.old (S.tells sink.old).tries (U.tells outlet.old).taken
            → BatchParts self.new (S.tells sink.new).tries (U.tells outlet.new).taken }
        ensures home { U.home outlet.new ≡ U.home outlet.old }
    {
        tries_join();
        one_try();
        lists_join();
        tries_keep_what_was_sent();
        let (written, unwritten) = self.pump_all(outlet, sink, now);
        if self.is_empty() {
            return (written, unwritten);
        }
        let answer = self.put_due(sink);
        (
            written.saturating_add(answer.wrote()),
            unwritten.saturating_add(answer.lost()),
        )
    }
}

// Puts all these lines.
fn put_all<S: BatchSink>(sink: &mut S, lines: &mut Vec<Line>) -> Pumped
    requires { (0 < length lines.old.items) × (length lines.old.items < 2 ^ 32) }
    ensures put { Put (S.tells sink.old) lines.old.items result (S.tells sink.new) }
    ensures none { lines.new.items ≡ [] }
    ensures room { vec_capacity lines.new ≡ vec_capacity lines.old }
{
    let count = lines.len() as u32;
    let result = sink.put(lines.as_slice());
    lines.clear();
    match result {
        Ok(()) => Pumped::Wrote(count),
        Err(_) => Pumped::Lost(count),
    }
}
