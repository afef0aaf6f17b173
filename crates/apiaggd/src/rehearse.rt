// The command `rehearse`, over this process's output.
use command_ends::{Status, WriterSink};
use rehearse_plan::MOST_REHEARSED;
use rehearse_runs::run_rehearse;
use std::process::ExitCode;
use std::sync::Wait;
use std::thread::Threads;

// The status's word, and what was refused, or why the output could not be written.
fn say_failed(host: &HostRuntime, status: Status, refused: Option<u64>, reason: Option<&str>) {
    if let Some(word) = status.word() {
        let _ = eprintln!(host; "apiaggd: {word}");
    }
    if status == Status::Usage {
        let _ = eprintln!(host;
            "apiaggd: rehearse: needs START and COUNT, two whole numbers. Try 'apiaggd rehearse --help'."
        );
    }
    if status == Status::WriteFault {
        let why = reason.unwrap_or("could not be written");
        let _ = eprintln!(host; "apiaggd: standard output: {why}");
    }
    if let Some(count) = refused {
        let _ = eprintln!(host; "apiaggd: COUNT {count}: must be 1 to {MOST_REHEARSED}");
    }
}

/// Serves requests in memory by threads, prints what they came to, and gives the status of the program.
pub fn rehearsed<R: Threads + Wait + Copy + Send + Sync + Drop>(
    host: &HostRuntime,
    rt: &R,
    words: &Vec<String>,
) -> ExitCode {
    let mut out = WriterSink::new(host.stdout());
    let done = run_rehearse(rt, host.alloc(), words, &mut out).answer();
    say_failed(host, done.status, done.refused, out.reason());
    ExitCode::from(done.status.code())
}
