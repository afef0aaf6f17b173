// Runs that end before they serve a request.
use crate::endings::{said_of, said_of_own};
use crate::lines::words_of;
use case_rows::fields;
use command_ends::{ReaderSource, SystemFiles, WriterSink, words_outcome};
use command_options::WordsFault;
use explain_run::run_desk;
use serve_config::{ServeConfig, configure_serve};
use std::alloc::{AllocError, Global};
use std::io;

// The bays, the user of the token `a`, and the delegate of a run of `serve` that begins.
fn begun(alloc: Global, config: &ServeConfig) -> Result<String, AllocError> {
    let bays = config.words.bays;
    let user = match config.loaded.tokens.user(b"a") {
        Some(user) => user.name.as_str(),
        None => "-",
    };
    let local = config.loaded.endpoints.of(None);
    format!(in alloc; "bays {bays}, user {user}, local {local:?}\n")
}

fn serve(rt: &HostRuntime, words: &Vec<String>) -> Result<String, AllocError> {
    let alloc = rt.alloc();
    let mut files = SystemFiles::new(rt);
    let config = configure_serve(alloc, words, &mut files);
    drop(files);
    match config {
        Ok(config) => {
            let text = begun(alloc, &config);
            drop(config);
            text
        }
        Err(outcome) => said_of(alloc, words.as_slice(), outcome),
    }
}

// Over an input of no bytes.
fn explain(rt: &HostRuntime, words: &Vec<String>) -> Result<String, AllocError> {
    let alloc = rt.alloc();
    let mut files = SystemFiles::new(rt);
    let mut source = ReaderSource::new(b"".as_slice());
    let mut out = WriterSink::new(io::sink());
    let ended = run_desk(alloc, words, &mut files, &mut source, &mut out);
    drop(files);
    drop(source);
    drop(out);
    said_of_own(alloc, words.as_slice(), ended)
}

// What is said of words that are no command line of that command.
fn misused(alloc: Global, command: &str, words: &Vec<String>) -> Result<String, AllocError> {
    let outcome = words_outcome(command, words, &WordsFault::Usage);
    said_of(alloc, words.as_slice(), outcome)
}

/// How a run of a command ends, and what is said of it: the fields are the command, and the command line. Those of other commands than
/// `serve` and `explain` are no command lines.
pub fn ended(rt: &HostRuntime, row: &str) -> Result<String, AllocError> {
    let (command, line) = fields(row);
    let words = words_of(rt.alloc(), line)?;
    match command {
        "serve" => serve(rt, &words),
        "explain" => explain(rt, &words),
        _ => misused(rt.alloc(), command, &words),
    }
}
