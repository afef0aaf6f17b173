// The command `explain`, over this process's files, input and output.
use crate::ending::finish_told;
use command_ends::{ReaderSource, SystemFiles, WriterSink};
use explain_run::run_desk;
use std::process::ExitCode;
use warned_files::WarnedFiles;

/// Reads requests from standard input, writes their events, and gives the status of the program.
pub fn explained(host: &HostRuntime, words: &Vec<String>) -> ExitCode {
    let alloc = host.alloc();
    let mut files = WarnedFiles::new(host, words.as_slice(), SystemFiles::new(host));
    let mut input = ReaderSource::new(host.stdin());
    let mut out = WriterSink::new(host.stdout());
    let ended = run_desk(alloc, words, &mut files, &mut input, &mut out);
    let reason = ended.reason(files.files().reason(), input.reason(), out.reason());
    finish_told(host, words.as_slice(), &ended, reason)
}
