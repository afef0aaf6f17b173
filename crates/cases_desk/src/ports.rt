// The ports between `explain` and the system: readers, writers, files and devices, also where they fail.
use crate::run::words_of;
use case_rows::{bytes_of, spelled};
use command_ends::{ReaderSource, SystemFiles, WriterSink};
use explain_run::run_desk;
use front_ports::{ByteSink, Files, Source, write_all};
use std::alloc::{AllocError, Global};
use std::fs::File;
use std::{fs, io};

// What three reads of two bytes answer, and what the first one gives.
fn reads(alloc: Global) -> Result<String, AllocError> {
    let mut source = ReaderSource::new(b"abc".as_slice());
    let mut buf = [0u8; 2];
    let first = source.read(&mut buf);
    let given = buf;
    let second = source.read(&mut buf);
    let third = source.read(&mut buf);
    format!(in alloc; "{first:?} {given:?}, {second:?}, {third:?}\n")
}

// What a writer answers that takes four bytes and nothing more, and what it got.
fn writes(alloc: Global) -> Result<String, AllocError> {
    let mut room = [0u8; 4];
    let (all, more) = {
        let mut sink = WriterSink::new(room.as_mut_slice());
        (write_all(&mut sink, b"abcd"), sink.write(b"e"))
    };
    format!(in alloc; "{all:?}, {more:?}, {room:?}\n")
}

// What a file holds, or why it is not read.
fn file(rt: &HostRuntime, path: &str) -> Result<String, AllocError> {
    let alloc = rt.alloc();
    let mut files = SystemFiles::new(rt);
    let read = files.read(alloc, path);
    drop(files);
    match read {
        Ok(bytes) => format!(in alloc; "{}\n", spelled(alloc, bytes.as_slice()).as_str()),
        Err(fail) => format!(in alloc; "{fail:?}\n"),
    }
}

// What a read of a device answers.
fn device(rt: &HostRuntime, path: &str) -> Result<String, AllocError> {
    let Ok(file) = fs::open(rt, path) else {
        return String::from_str(rt.alloc(), "no device\n");
    };
    let mut source = ReaderSource::new(file);
    let answer = source.read(&mut [1u8; 2]);
    format!(in rt.alloc(); "{answer:?}\n")
}

// The status of `explain` over an input, with a token file that is empty, where it writes to this file.
fn status_into(rt: &HostRuntime, input: &[u8], file: File) -> Result<u8, AllocError> {
    let words = words_of(rt.alloc(), "apiaggd explain --token-auth-file=/dev/null")?;
    let mut files = SystemFiles::new(rt);
    let mut source = ReaderSource::new(input);
    let mut out = WriterSink::new(file);
    let own = run_desk(rt.alloc(), &words, &mut files, &mut source, &mut out);
    let code = own.status.code();
    drop(own);
    drop(out);
    drop(source);
    drop(files);
    Ok(code)
}

fn full_device(rt: &HostRuntime) -> io::Result<File> {
    File::options().write(true).open(rt, "/dev/full")
}

// The same where it writes to a device that is full.
fn full(rt: &HostRuntime, input: &str) -> Result<String, AllocError> {
    let alloc = rt.alloc();
    let Ok(file) = full_device(rt) else {
        return String::from_str(alloc, "no device\n");
    };
    let status = status_into(rt, bytes_of(alloc, input).as_slice(), file)?;
    format!(in alloc; "{status}\n")
}

/// What the port of a row answers, by its kind.
pub fn answer(rt: &HostRuntime, row: &str) -> Result<String, AllocError> {
    let (kind, what) = row.split_once(' ').unwrap_or((row, ""));
    match kind {
        "reader" => reads(rt.alloc()),
        "writer" => writes(rt.alloc()),
        "file" => file(rt, what),
        "device" => device(rt, what),
        _ => full(rt, what),
    }
}
