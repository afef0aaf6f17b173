// The options of a command, each in a command line of its own.
use crate::lines::{explain, serve};
use command_options::{ValueKind, kind_of, options_for, sink_of};
use std::alloc::{AllocError, Global};

// A value that the option of that name may have, after its name.
fn some_value(name: &str) -> &'static str {
    match (kind_of(name), name) {
        (_, "bays") => "=1",
        (_, "listen") => "=127.0.0.1:1",
        (ValueKind::Number, _) => "=256",
        (ValueKind::Mode, _) => "=batch",
        (ValueKind::Flag, _) => "",
        (ValueKind::Text, _) => "=http://127.0.0.1/",
    }
}

// A command line with that option, and with that of its sink where it is a sink's mode.
fn line_with(alloc: Global, command: &str, name: &str) -> Result<String, AllocError> {
    let value = some_value(name);
    match sink_of(name) {
        Some(sink) => {
            format!(in alloc; "apiaggd {command} --{name}{value} --{sink}=http://127.0.0.1/")
        }
        None => format!(in alloc; "apiaggd {command} --{name}{value}"),
    }
}

fn asked(alloc: Global, command: &str, line: &str) -> Result<String, AllocError> {
    match command {
        "serve" => serve(alloc, line),
        _ => explain(alloc, line),
    }
}

// The kind of an option's value, a command line with it, and what that asks for.
fn option(alloc: Global, command: &str, name: &str) -> Result<String, AllocError> {
    let kind = kind_of(name);
    let line = line_with(alloc, command, name)?;
    let asked = asked(alloc, command, line.as_str())?;
    format!(in alloc; "{kind:?}: {line} => {asked}")
}

/// All options of a command, a line each.
pub fn table(alloc: Global, command: &str) -> Result<String, AllocError> {
    let mut text = String::from_str(alloc, "\n")?;
    for name in options_for(command) {
        text.push_str(option(alloc, command, name)?.as_str())?;
    }
    Ok(text)
}
