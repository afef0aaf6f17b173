// Runs of `explain` that are refused, or leave events out, over the files of this folder.
use crate::run::words_of;
use case_rows::{bytes_of, fields};
use command_ends::{Ended, ReaderSource, SystemFiles, WriterSink};
use explain_run::run_desk;
use std::alloc::{AllocError, Global};
use std::io;

// The status of a run, and what standard error says of it.
fn said(
    alloc: Global,
    ended: &Ended,
    words: &[String],
    reason: Option<&str>,
) -> Result<String, AllocError> {
    let text = ended.told(alloc, words, reason)?;
    format!(in alloc; "{}\n{text}", ended.status.code())
}

/// What the run of a command line over an input ends with, and what standard error says of it.
pub fn answer(rt: &HostRuntime, row: &str) -> Result<String, AllocError> {
    let alloc = rt.alloc();
    let (line, input) = fields(row);
    let words = words_of(alloc, line)?;
    let input = bytes_of(alloc, input);
    let mut files = SystemFiles::new(rt);
    let mut source = ReaderSource::new(input.as_slice());
    let mut out = WriterSink::new(io::sink());
    let ended = run_desk(alloc, &words, &mut files, &mut source, &mut out);
    let reason = ended.reason(files.reason(), source.reason(), out.reason());
    let said = said(alloc, &ended, words.as_slice(), reason);
    drop(ended);
    drop(out);
    drop(source);
    drop(files);
    said
}
