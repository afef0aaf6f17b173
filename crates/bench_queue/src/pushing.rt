ghost use Rattle.std.specs.Prelude.{◌≡◌, IfSome};

use crate::ends::Pusher;
use front_base::{Bytes, Line, MOST_LINE_BYTES};
use role_threads::Role;
use std::alloc::Global;
use std::sync::Wait;
use std::sync::atomic::{AtomicUsize, Ordering};
use std::thread;

/// Pushes so many lines, each until the queue takes it.
#[derive(Drop)]
pub struct PushRole<'t, P> {
    pub alloc: Global,
    pub text: &'t [u8],
    pub lines: u32,
    pub pusher: P,
    /// How many lines the queue took, and how often it refused one.
    pub pushed: u64,
    pub refused: u64,
}

// A line with bytes of its own, as the door makes one.
fn line_of(alloc: Global, bay: u16, number: u64, text: &[u8]) -> Option<Line>
    ensures { IfSome result (λ line. line.bay ≡ bay) }
{
    let bytes = text.to_vec(alloc).ok()?;
    if bytes.len() as u64 > MOST_LINE_BYTES {
        return None;
    }
    Some(Line {
        bay,
        number,
        bytes: Bytes::new(bytes),
    })
}

impl<'t, P: Pusher> PushRole<'t, P> {
    fn push<T: Wait>(&mut self, rt: &T, line: Line)
        requires { line.bay ≡ P.bay self.old.pusher }
        ensures { P.bay self.new.pusher ≡ P.bay self.old.pusher }
    {
        let mut next = line;
        for _ in rt.forever() {
            match self.pusher.push(next) {
                Ok(()) => {
                    self.pushed = self.pushed.saturating_add(1);
                    return;
                }
                Err(back) => next = back,
            }
            self.refused = self.refused.saturating_add(1);
            thread::yield_now();
        }
    }

    fn push_all<T: Wait>(&mut self, rt: &T)
        ensures { P.bay self.new.pusher ≡ P.bay self.old.pusher }
    {
        for number in 0..self.lines {
            let bay = self.pusher.number();
            match line_of(self.alloc, bay, u64::from(number), self.text) {
                Some(line) => self.push(rt, line),
                None => return,
            }
        }
    }
}

impl<'t, P: Pusher, T: Wait> Role<T> for PushRole<'t, P> {
    ghost use Rattle.std.specs.Prelude.{⊤};

    ghost ran = { λ _ _. ⊤ };

    fn run(&mut self, rt: &T, ended: &AtomicUsize, _bays: usize) {
        self.push_all(rt);
        ended.fetch_add(1, Ordering::SeqCst);
    }
}
