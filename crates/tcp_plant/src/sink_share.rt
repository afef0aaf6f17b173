use crate::notice::{Losses, Notice, Notices, Why};
use crate::open_log::{Followed, OpenLog};
use std::alloc::Global;
use std::fmt::{Display, Formatter};
use std::fs::File;
use std::io::{Eprint, Print};
use std::sync::atomic::{AtomicBool, AtomicI32, AtomicU64, Ordering};
use std::sync::{Mutex, Wait};
use std::{fmt, io, rt};
use system_errors::{number_of, reason_of, reason_of_number};
use tcp_ports::DialFault;
use truncate_backend::TryAnswer;

/// What all handles of one sink share: its log where it is one, what became of its lines, and why it failed last.
#[derive(Drop)]
pub struct SinkShare {
    // As notices name it, such as `audit log audit.log`.
    name: String,
    // Held while lines are written. None until a log is open, and always of a webhook.
    log: Mutex<Option<OpenLog>>,
    notices: Mutex<Notices>,
    // Whether there is anything to say, so that a line that is written takes no lock otherwise.
    pending: AtomicBool,
    offered: AtomicU64,
    written: AtomicU64,
    failed: AtomicU64,
    full: AtomicU64,
    large: AtomicU64,
    // When a line was written last, in seconds since 1970, 0 before the first.
    last_written: AtomicU64,
    // The system's number of the error that it failed by last, 0 for none.
    error: AtomicI32,
    pub(crate) dial_fault: DialFault,
}

/// How many lines of a sink came to what.
#[derive(Clone, Copy, Debug, PartialEq, Eq)]
pub struct SinkCounts {
    /// Lines that it was offered by requests that ended.
    pub offered: u64,
    /// Lines of tries that wrote all of them.
    pub written: u64,
    /// Lines of tries that failed.
    pub failed: u64,
    /// Lines that weren't taken since the buffer was full.
    pub full: u64,
    /// Events that were left out, since even the line without their objects was too large.
    pub large: u64,
    /// When a line was written last, in seconds since 1970, 0 before the first.
    pub last_written: u64,
}

/// How many events that a sink was due came to what.
#[derive(Clone, Copy, Drop)]
pub(crate) struct Offered {
    /// Events whose line was taken, or could not be written.
    pub(crate) kept: u64,
    pub(crate) full: u64,
    pub(crate) large: u64,
}

impl Offered {
    pub(crate) const NONE: Offered = Offered {
        kept: 0,
        full: 0,
        large: 0,
    };

    // Those that had a line.
    fn lines(self) -> u64 {
        self.kept.saturating_add(self.full)
    }

    pub(crate) fn all(self) -> u64 {
        self.lines().saturating_add(self.large)
    }
}

// So many of these, and what became of them, in words.
#[derive(Clone, Copy, Drop)]
struct Counted {
    count: u64,
    noun: &'static str,
    became: &'static str,
}

impl Display for Counted {
    fn fmt<W: fmt::Write>(&self, f: &mut Formatter<W>) -> fmt::Result {
        let Counted {
            count,
            noun,
            became,
        } = *self;
        let plural = if count == 1 { "" } else { "s" };
        write!(f, "{count} {noun}{plural} {became}")
    }
}

fn lost(count: u64) -> Counted {
    Counted {
        count,
        noun: "line",
        became: "lost",
    }
}

fn left_out(count: u64) -> Counted {
    Counted {
        count,
        noun: "event",
        became: "left out",
    }
}

fn print_count<R: Eprint>(rt: &R, name: &str, counted: Counted, why: Why) {
    if counted.count > 0 {
        let _ = eprintln!(rt; "apiaggd: {name}: {counted}: {why}");
    }
}

fn millis_now(rt: &impl rt::Clock) -> u64 {
    match rt.monotonic() {
        Ok(time) => u64::try_from(time.as_millis()).unwrap_or(u64::MAX),
        Err(_) => 0,
    }
}

fn unix_seconds(rt: &impl rt::Clock) -> u64 {
    match rt.since_1970() {
        Ok(time) => time.as_secs(),
        Err(_) => 0,
    }
}

impl SinkShare {
    pub fn new(name: String) -> SinkShare {
        SinkShare {
            name,
            log: Mutex::new(None),
            notices: Mutex::new(Notices::new()),
            pending: AtomicBool::new(false),
            offered: AtomicU64::new(0),
            written: AtomicU64::new(0),
            failed: AtomicU64::new(0),
            full: AtomicU64::new(0),
            large: AtomicU64::new(0),
            last_written: AtomicU64::new(0),
            error: AtomicI32::new(0),
            dial_fault: DialFault::new(),
        }
    }

    /// What became of its lines so far.
    pub fn counts(&self) -> SinkCounts {
        SinkCounts {
            offered: self.offered.load(Ordering::SeqCst),
            written: self.written.load(Ordering::SeqCst),
            failed: self.failed.load(Ordering::SeqCst),
            full: self.full.load(Ordering::SeqCst),
            large: self.large.load(Ordering::SeqCst),
            last_written: self.last_written.load(Ordering::SeqCst),
        }
    }

    // Why a call on its file failed last, where one did.
    fn reason(&self) -> Option<&'static str> {
        reason_of_number(self.error.load(Ordering::SeqCst))
    }

    /// Opens the log of this path, once for all its handles. Another path is an error of an invalid argument.
    pub(crate) fn open_log<R: Wait + rt::Files<File = File>>(
        &self,
        rt: &R,
        alloc: Global,
        path: &str,
    ) -> io::Result<()> {
        let mut log = self.log.lock(rt);
        match &*log {
            Some(open) if open.has_path(path) => return Ok(()),
            Some(_) => return Err(io::Error::from_raw_os_error(libc::EINVAL)),
            None => {}
        }
        *log = Some(OpenLog::open(rt, alloc, path)?);
        Ok(())
    }

    // Writes these lines, under the lock of all handles of the log, to the file that its path names.
    fn write_locked<R: Wait + Print + rt::Files<File = File> + rt::Clock>(
        &self,
        rt: &R,
        lines: &[u8],
    ) -> (Followed, io::Result<()>) {
        let now = millis_now(rt);
        let mut log = self.log.lock(rt);
        match &mut *log {
            Some(open) => {
                let followed = open.follow(rt, now);
                (followed, open.write(rt, lines))
            }
            None => (
                Followed::Same,
                Err(io::Error::from_raw_os_error(libc::EBADF)),
            ),
        }
    }

    /// Writes these lines, of which the last one ends with them, and reports where the log was opened anew, or could not be.
    pub(crate) fn write<R: Wait + Print + rt::Files<File = File> + rt::Clock + Eprint>(
        &self,
        rt: &R,
        lines: &[u8],
    ) -> io::Result<()> {
        let (followed, written) = self.write_locked(rt, lines);
        self.say_followed(rt, followed);
        written
    }

    fn say_followed<R: Eprint>(&self, rt: &R, followed: Followed) {
        let name = self.name.as_str();
        match followed {
            Followed::Same => {}
            Followed::Anew => {
                let _ = eprintln!(rt; "apiaggd: {name}: opened anew");
            }
            Followed::Old(reason) => {
                let _ = eprintln!(rt; "apiaggd: {name}: could not be opened anew: {reason}");
            }
        }
    }

    pub(crate) fn fail(&self, error: &io::Error) {
        self.error.store(number_of(error), Ordering::SeqCst);
    }

    // Why a try failed that a port stopped: an error of its file, or of its last link.
    fn port_reason(&self) -> &'static str {
        if let Some(reason) = self.reason() {
            return reason;
        }
        match self.dial_fault.last_error() {
            Some(error) => reason_of(&error),
            None => "failed",
        }
    }

    fn why(&self, answer: TryAnswer) -> Option<Why> {
        match answer {
            TryAnswer::Done => None,
            TryAnswer::Refused(status) => Some(Why::Status(status)),
            TryAnswer::BadAnswer => Some(Why::Reason("the answer is not HTTP")),
            TryAnswer::Port => Some(Why::Reason(self.port_reason())),
        }
    }

    /// Counts a try with so many lines, and says what there is to say.
    pub(crate) fn tried<R: Wait + rt::Clock + Eprint>(
        &self,
        rt: &R,
        lines: u64,
        answer: TryAnswer,
    ) {
        let why = self.why(answer);
        let notice = match why {
            None => self.note_written(rt, lines),
            Some(why) => self.note_failed(rt, lines, why),
        };
        self.say(rt, notice);
    }

    fn note_written<R: Wait + rt::Clock>(&self, rt: &R, lines: u64) -> Option<Notice> {
        self.written.fetch_add(lines, Ordering::SeqCst);
        self.last_written.store(unix_seconds(rt), Ordering::SeqCst);
        if !self.pending.load(Ordering::SeqCst) {
            return None;
        }
        let mut notices = self.notices.lock(rt);
        let known = &mut *notices;
        known.failing = false;
        self.due(rt, known)
    }

    fn note_failed<R: Wait + rt::Clock>(&self, rt: &R, lost: u64, why: Why) -> Option<Notice> {
        self.failed.fetch_add(lost, Ordering::SeqCst);
        let mut notices = self.notices.lock(rt);
        let known = &mut *notices;
        known.failing = true;
        known.why = why;
        known.losses.add(Losses {
            lost,
            ..Losses::NONE
        });
        self.due(rt, known)
    }

    /// Counts the events that it was due by one exchange, and says what there is to say.
    pub(crate) fn offered<R: Wait + rt::Clock + Eprint>(&self, rt: &R, offered: Offered) {
        self.offered.fetch_add(offered.lines(), Ordering::SeqCst);
        let (large, full) = (offered.large, offered.full);
        if large == 0 && full == 0 {
            return;
        }
        self.large.fetch_add(large, Ordering::SeqCst);
        self.full.fetch_add(full, Ordering::SeqCst);
        let notice = self.note_left_out(rt, large, full);
        self.say(rt, notice);
    }

    fn note_left_out<R: Wait + rt::Clock>(&self, rt: &R, large: u64, full: u64) -> Option<Notice> {
        let mut notices = self.notices.lock(rt);
        let known = &mut *notices;
        known.losses.add(Losses {
            large,
            full,
            ..Losses::NONE
        });
        self.due(rt, known)
    }

    // What there is to say now. The lock is held.
    fn due<R: rt::Clock>(&self, rt: &R, known: &mut Notices) -> Option<Notice> {
        let notice = known.due(millis_now(rt));
        self.pending.store(known.are_pending(), Ordering::SeqCst);
        notice
    }

    // Standard error is written without the lock: whoever reads it slowly stops one thread alone.
    fn say<R: Eprint>(&self, rt: &R, notice: Option<Notice>) {
        let Some(notice) = notice else {
            return;
        };
        let name = self.name.as_str();
        let (losses, why) = (notice.losses, notice.why);
        print_count(rt, name, lost(losses.lost), why);
        print_count(
            rt,
            name,
            lost(losses.full),
            Why::Reason("the buffer is full"),
        );
        print_count(rt, name, left_out(losses.large), Why::Reason("too large"));
        if notice.well {
            let _ = eprintln!(rt; "apiaggd: {name}: lines are written again");
        }
    }
}
