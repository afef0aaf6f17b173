// What a run reports while it serves: its metrics, and that it has too many open files.
use crate::metrics::write_metrics;
use front_base::Text;
use serve_report::RunShape;
use std::rt::Clock;
use system_errors::reason_of;
use tcp_plant::TcpGate;

/// How often metrics are written, in milliseconds.
const METRICS_INTERVAL: u64 = 10_000;

/// How often it is reported that they can't be, and that files can't be opened.
const FAILED_INTERVAL: u64 = 60_000;

const FILES_INTERVAL: u64 = 1_000;

/// Reports of one run, and when each of them comes next, in milliseconds.
#[derive(Drop)]
pub(crate) struct Monitor {
    shape: RunShape,
    // Where metrics are written to, if anywhere.
    path: Option<Text>,
    next_metrics: u64,
    next_failed: u64,
    next_files: u64,
    // How many connections without a descriptor were reported.
    reported: u64,
}

fn millis_now(host: &HostRuntime) -> u64 {
    match host.monotonic() {
        Ok(time) => u64::try_from(time.as_millis()).unwrap_or(u64::MAX),
        Err(_) => 0,
    }
}

impl Monitor {
    pub(crate) fn new(shape: RunShape, path: Option<Text>) -> Monitor {
        Monitor {
            shape,
            path,
            next_metrics: 0,
            next_failed: 0,
            next_files: 0,
            reported: 0,
        }
    }

    // Writes the metrics, where there is a file for them. It is reported once a minute at most where they can't be.
    fn write(&mut self, host: &HostRuntime, gate: &TcpGate, now: u64) {
        let Some(path) = &self.path else {
            return;
        };
        let path = path.as_str();
        let Err(error) = write_metrics(host, host.alloc(), path, self.shape, gate) else {
            return;
        };
        if now >= self.next_failed {
            self.next_failed = now.saturating_add(FAILED_INTERVAL);
            let reason = reason_of(&error);
            let _ = eprintln!(host; "apiaggd: --metrics-path={path}: {reason}");
        }
    }

    // Reports how many connections had no descriptor since the last report.
    fn report_files(&mut self, host: &HostRuntime, gate: &TcpGate, now: u64) {
        let failed = gate.counts().no_files;
        let count = failed.saturating_sub(self.reported);
        if count == 0 || now < self.next_files {
            return;
        }
        self.next_files = now.saturating_add(FILES_INTERVAL);
        self.reported = failed;
        let plural = if count == 1 { "" } else { "s" };
        let _ = eprintln!(host;
            "apiaggd: too many open files: {count} attempt{plural} to accept a connection or to call a backend or webhook failed"
        );
    }

    /// What there is to report now.
    pub(crate) fn turn(&mut self, host: &HostRuntime, gate: &TcpGate) {
        let now = millis_now(host);
        self.report_files(host, gate, now);
        if now >= self.next_metrics {
            self.next_metrics = now.saturating_add(METRICS_INTERVAL);
            self.write(host, gate, now);
        }
    }

    /// What there is to report once the run is over.
    pub(crate) fn end(&mut self, host: &HostRuntime, gate: &TcpGate) {
        let now = millis_now(host);
        self.next_files = 0;
        self.report_files(host, gate, now);
        self.write(host, gate, now);
    }
}
