// The command `check`, over this process's files, input and output.
use crate::ending::finish_told;
use check_command::{CheckEnded, Checked, reason_text, run_summed};
use command_ends::{Ended, ReaderSource, SystemFiles, WriterSink};
use std::process::ExitCode;
use warned_files::WarnedFiles;

// Says why the first line that doesn't conform doesn't.
fn say_line(host: &HostRuntime, checked: Checked) {
    if let Ok(text) = reason_text(host.alloc(), checked) {
        let _ = eprint!(host; "{text}");
    }
}

/// Checks a log on standard input, says whether it conforms, sums it up where that is asked for, and gives the status of the program.
pub fn checked(host: &HostRuntime, words: &Vec<String>) -> ExitCode {
    let mut files = WarnedFiles::new(host, words.as_slice(), SystemFiles::new(host));
    let mut input = ReaderSource::new(host.stdin());
    let mut out = WriterSink::new(host.stdout());
    let CheckEnded {
        status,
        why,
        checked,
    } = run_summed(host.alloc(), words, &mut files, &mut input, &mut out);
    let ended = Ended::of(status, why);
    let reason = ended.reason(files.files().reason(), input.reason(), out.reason());
    let code = finish_told(host, words.as_slice(), &ended, reason);
    if let Some(checked) = checked {
        say_line(host, checked);
    }
    code
}
