// What is counted of a run while it lasts.
use audit_core::SinkMode;
use metrics_text::{Answers, Connections, RunCounts, SinkLines};
use tcp_plant::{SinkCounts, TcpGate};

/// A run's bays and the modes of its sinks.
#[derive(Clone, Copy, Debug)]
pub struct RunShape {
    pub bays: u16,
    pub log: SinkMode,
    pub webhook: SinkMode,
}

fn is_batch(mode: SinkMode) -> bool {
    match mode {
        SinkMode::Batch => true,
        SinkMode::Off | SinkMode::Blocking | SinkMode::Strict => false,
    }
}

// A line of a try that failed is lost with its batch in mode batch, and else failed by itself.
fn lines_of(mode: SinkMode, counts: SinkCounts) -> SinkLines {
    let (failed, lost) = if is_batch(mode) {
        (0, counts.failed)
    } else {
        (counts.failed, 0)
    };
    SinkLines {
        offered: counts.offered,
        written: counts.written,
        failed,
        lost,
        not_taken: counts.full,
        too_large: counts.large,
        last_written: counts.last_written,
    }
}

fn answers_of(gate: &TcpGate) -> Answers {
    let counts = gate.requests().counts();
    Answers {
        informational: counts.informational,
        successful: counts.successful,
        redirected: counts.redirected,
        client_errors: counts.client_errors,
        server_errors: counts.server_errors,
    }
}

fn connections_of(bays: u16, gate: &TcpGate) -> Connections {
    let counts = gate.counts();
    Connections {
        accepted: counts.accepted,
        well: counts.well,
        idle: counts.idle,
        late: counts.late,
        slow: counts.slow,
        gone: counts.gone,
        bays: u64::from(bays),
        open: counts.open,
        dials: counts.dials,
        dials_failed: counts.dials_failed,
        no_files: counts.no_files,
    }
}

/// What is counted of a run of this shape over this gate, up to now.
pub fn run_counts(shape: RunShape, gate: &TcpGate) -> RunCounts {
    RunCounts {
        answers: answers_of(gate),
        events: gate.requests().counts().events,
        connections: connections_of(shape.bays, gate),
        log: lines_of(shape.log, gate.log().counts()),
        webhook: lines_of(shape.webhook, gate.hook().counts()),
    }
}
