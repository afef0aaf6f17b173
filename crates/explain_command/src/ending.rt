use command_ends::Ended;
use std::process::ExitCode;

/// Says how a run ended, the status's word first, and gives its code. `reason` is the system's for what could not be read or
/// written.
pub fn finish_told(
    host: &HostRuntime,
    words: &[String],
    ended: &Ended,
    reason: Option<&str>,
) -> ExitCode {
    match ended.told(host.alloc(), words, reason) {
        Ok(text) => {
            let _ = eprint!(host; "{text}");
        }
        Err(_) => {
            let _ = eprintln!(host; "apiaggd: no memory");
        }
    }
    ExitCode::from(ended.status.code())
}
