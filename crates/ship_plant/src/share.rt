// What the handles of one run share: what became of its posts.
use client_dial::LastError;
use std::io::Eprint;
use std::rt;
use std::sync::atomic::{AtomicU64, Ordering};
use system_errors::reason_of_number;
use tcp_plant::Why;
use truncate_backend::TryAnswer;

// How often progress is said at most, in milliseconds: to a person at a terminal, and else.
const TERMINAL_MILLIS: u64 = 1_000;

const QUIET_MILLIS: u64 = 10_000;

/// What became of the posts of a run, and why the last one failed that did.
#[derive(Drop)]
pub struct PostShare {
    // How many milliseconds pass before progress is said again.
    every: u64,
    // The lines of posts that are done, the number of the last of them, how many posts there were, and how many failed.
    lines: AtomicU64,
    last: AtomicU64,
    posts: AtomicU64,
    failed: AtomicU64,
    // The status of the last reply that refused lines, 0 for none, and the last error.
    status: AtomicU64,
    error: LastError,
    // The moment before which no progress is said.
    next: AtomicU64,
}

fn millis_now(rt: &impl rt::Clock) -> u64 {
    match rt.monotonic() {
        Ok(time) => u64::try_from(time.as_millis()).unwrap_or(u64::MAX),
        Err(_) => 0,
    }
}

impl PostShare {
    /// Nothing was posted. Progress is said on standard error, at most once a second where that is a terminal, and else once in ten seconds.
    pub fn new(is_terminal: bool) -> PostShare {
        PostShare {
            every: if is_terminal {
                TERMINAL_MILLIS
            } else {
                QUIET_MILLIS
            },
            lines: AtomicU64::new(0),
            last: AtomicU64::new(0),
            posts: AtomicU64::new(0),
            failed: AtomicU64::new(0),
            status: AtomicU64::new(0),
            error: LastError::new(),
            next: AtomicU64::new(0),
        }
    }

    /// Why the last post failed that did, where one did.
    pub fn why(&self) -> Option<Why> {
        if self.failed.load(Ordering::SeqCst) == 0 {
            return None;
        }
        match u16::try_from(self.status.load(Ordering::SeqCst)) {
            Ok(status) if status > 0 => Some(Why::Status(status)),
            _ => {
                let reason = reason_of_number(self.error.number());
                Some(Why::Reason(reason.unwrap_or("no answer that is HTTP")))
            }
        }
    }

    /// The number of the last line that was posted, 0 where none was.
    pub fn last_line(&self) -> u64 {
        self.last.load(Ordering::SeqCst)
    }

    // What the dial and its links note their errors in.
    pub(crate) fn error(&self) -> &LastError {
        &self.error
    }

    /// Counts a post with so many lines, whose last one has this number, and says how far it is.
    pub(crate) fn tried<R: rt::Clock + Eprint>(
        &self,
        rt: &R,
        lines: u64,
        last: u64,
        answer: TryAnswer,
    ) {
        self.posts.fetch_add(1, Ordering::SeqCst);
        match answer {
            TryAnswer::Done => {
                self.lines.fetch_add(lines, Ordering::SeqCst);
                self.last.store(last, Ordering::SeqCst);
            }
            TryAnswer::Refused(status) => self.note_failed(u64::from(status)),
            TryAnswer::BadAnswer => {
                self.error.clear();
                self.note_failed(0);
            }
            TryAnswer::Port => self.note_failed(0),
        }
        self.say(rt);
    }

    fn note_failed(&self, status: u64) {
        self.failed.fetch_add(1, Ordering::SeqCst);
        self.status.store(status, Ordering::SeqCst);
    }

    fn say<R: rt::Clock + Eprint>(&self, rt: &R) {
        let now = millis_now(rt);
        let next = self.next.load(Ordering::SeqCst);
        if now < next {
            return;
        }
        self.next
            .store(now.saturating_add(self.every), Ordering::SeqCst);
        // Where it is no terminal a run that ends at once says nothing.
        if next == 0 && self.every == QUIET_MILLIS {
            return;
        }
        let lines = self.lines.load(Ordering::SeqCst);
        let posts = self.posts.load(Ordering::SeqCst);
        let failed = self.failed.load(Ordering::SeqCst);
        let last = self.last_line();
        let _ = eprintln!(rt;
            "apiaggd: {lines} lines posted, the last one line {last}; {posts} posts, of which {failed} failed"
        );
    }
}
