use std::io;
use std::io::ErrorKind;
use std::sync::atomic::{AtomicU64, Ordering};

// The system's number of an error that says that it has no more descriptors for anybody.
const ENFILE: i32 = 23;

/// Whether an error says that the process, or the system, has too many descriptors open.
pub(crate) fn is_short_of_files(error: &io::Error) -> bool {
    match error.raw_os_error() {
        Some(libc::EMFILE | ENFILE) => true,
        _ => false,
    }
}

/// What became of the connections and links of a listener's doors and dials, up to a moment.
#[derive(Clone, Copy, Drop)]
pub struct PortCounts {
    /// Connections that doors gave.
    pub accepted: u64,
    /// Those that weren't handed back yet, each of which takes a bay.
    pub open: u64,
    /// Those that ended after their last reply, or by their client, between two reads.
    pub well: u64,
    /// Those that ended since they were idle.
    pub idle: u64,
    /// Those whose client was late with a head or a body, or was cut at the end of the run while it was read from.
    pub late: u64,
    /// Those whose client took bytes too slowly, or was cut at the end of the run while it was written to.
    pub slow: u64,
    /// Those whose socket broke, as where the client resets it.
    pub gone: u64,
    /// Links that dials were asked for, for backends and webhooks.
    pub dials: u64,
    /// Those that could not be opened.
    pub dials_failed: u64,
    /// How often a door or a dial had no descriptor for a connection or a link. A connection then waits.
    pub no_files: u64,
}

/// How a connection ended, as its port sees it.
#[derive(Clone, Copy, Drop)]
pub(crate) enum ConnEnd {
    Well,
    Idle,
    Late,
    Slow,
    Gone,
}

impl ConnEnd {
    /// That of a connection on which a read failed so.
    pub(crate) fn of_read(error: &io::Error) -> ConnEnd {
        match error.kind() {
            ErrorKind::TimedOut => ConnEnd::Late,
            _ => ConnEnd::Gone,
        }
    }

    /// That of a connection on which a write failed so.
    pub(crate) fn of_write(error: &io::Error) -> ConnEnd {
        match error.kind() {
            ErrorKind::TimedOut => ConnEnd::Slow,
            _ => ConnEnd::Gone,
        }
    }
}

/// The counts of a listener, which all of its doors and dials raise.
#[derive(Drop)]
pub(crate) struct PortCounters {
    accepted: AtomicU64,
    handed_back: AtomicU64,
    idle: AtomicU64,
    late: AtomicU64,
    slow: AtomicU64,
    gone: AtomicU64,
    dials: AtomicU64,
    dials_failed: AtomicU64,
    no_files: AtomicU64,
}

fn add_one(count: &AtomicU64) {
    count.fetch_add(1, Ordering::SeqCst);
}

fn read(count: &AtomicU64) -> u64 {
    count.load(Ordering::SeqCst)
}

impl PortCounters {
    pub(crate) fn new() -> PortCounters {
        PortCounters {
            accepted: AtomicU64::new(0),
            handed_back: AtomicU64::new(0),
            idle: AtomicU64::new(0),
            late: AtomicU64::new(0),
            slow: AtomicU64::new(0),
            gone: AtomicU64::new(0),
            dials: AtomicU64::new(0),
            dials_failed: AtomicU64::new(0),
            no_files: AtomicU64::new(0),
        }
    }

    /// How many connections were not handed back yet.
    pub(crate) fn open(&self) -> u64 {
        // In this order a connection that is handed back meanwhile counts as open.
        let handed_back = read(&self.handed_back);
        read(&self.accepted).saturating_sub(handed_back)
    }

    pub(crate) fn conn_was_given(&self) {
        add_one(&self.accepted);
    }

    pub(crate) fn conn_has_ended(&self, how: ConnEnd) {
        match how {
            ConnEnd::Well => {}
            ConnEnd::Idle => add_one(&self.idle),
            ConnEnd::Late => add_one(&self.late),
            ConnEnd::Slow => add_one(&self.slow),
            ConnEnd::Gone => add_one(&self.gone),
        }
        add_one(&self.handed_back);
    }

    /// A dial was asked for a link, and failed so or didn't.
    pub(crate) fn dialed(&self, error: Option<&io::Error>) {
        add_one(&self.dials);
        if let Some(error) = error {
            add_one(&self.dials_failed);
            if is_short_of_files(error) {
                self.was_short_of_files();
            }
        }
    }

    pub(crate) fn was_short_of_files(&self) {
        add_one(&self.no_files);
    }

    pub(crate) fn now(&self) -> PortCounts {
        let open = self.open();
        let [idle, late, slow, gone] = [
            read(&self.idle),
            read(&self.late),
            read(&self.slow),
            read(&self.gone),
        ];
        let others = idle
            .saturating_add(late)
            .saturating_add(slow)
            .saturating_add(gone);
        PortCounts {
            accepted: read(&self.accepted),
            open,
            well: read(&self.handed_back).saturating_sub(others),
            idle,
            late,
            slow,
            gone,
            dials: read(&self.dials),
            dials_failed: read(&self.dials_failed),
            no_files: read(&self.no_files),
        }
    }
}
