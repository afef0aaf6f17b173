// Ports in memory: connections, sinks, files and clocks, also where they fail.
use crate::rows::{input_of, text_of};
use case_rows::{fields, spelled};
use front_base::{Bytes, Moment, NoMemory, Text, number_of};
use front_ports::{
    ByteSink, Clock, Conn, Files, MemBytes, MemClock, MemConn, MemFiles, Script, Source, write_all,
    write_counted,
};
use std::alloc::{AllocError, Global};

/// The numbers of a field, with commas between them: `-` has none. One that memory refuses is left out.
pub fn numbers_of(alloc: Global, field: &str) -> Vec<u64> {
    let mut numbers = Vec::new(alloc);
    for word in field.split(',') {
        if let Some(number) = number_of(word.as_bytes()) {
            let _ = numbers.push(number);
        }
    }
    numbers
}

fn sizes_of(alloc: Global, field: &str) -> Vec<u32> {
    let mut sizes = Vec::new(alloc);
    for word in field.split(',') {
        if let Ok(size) = word.parse() {
            let _ = sizes.push(size);
        }
    }
    sizes
}

// An input, the room for output, the sizes of reads, and which reads and writes fail.
fn script_of(alloc: Global, row: &str) -> Script {
    let (input, rest) = fields(row);
    let (room, rest) = fields(rest);
    let (sizes, rest) = fields(rest);
    let (read_fails, write_fails) = fields(rest);
    Script {
        input: Bytes::new(input_of(alloc, input)),
        room: number_of(room.as_bytes()).unwrap_or(0),
        sizes: sizes_of(alloc, sizes),
        read_fails: numbers_of(alloc, read_fails),
        write_fails: numbers_of(alloc, write_fails),
    }
}

// What a write of this text answers: one write, as many as it takes, or these with a count of what was written.
fn push_write<O: ByteSink>(
    out: &mut String,
    sink: &mut O,
    how: &str,
    text: &[u8],
) -> Result<(), AllocError> {
    if text.is_empty() {
        return out.push_str("no text");
    }
    match how {
        "write" => write!(out, "[{:?}]", sink.write(text)),
        "counted" => write!(out, "[{:?}]", write_counted(sink, text)),
        _ => write!(out, "[{:?}]", write_all(sink, text)),
    }
}

// What a read answers, and the bytes that it gave.
fn push_read<S: Source>(alloc: Global, out: &mut String, source: &mut S) -> Result<(), AllocError> {
    let mut buf = [0u8; 8];
    let answer = source.read(&mut buf);
    let given = spelled(alloc, buf.get(..answer.unwrap_or(0)).unwrap_or_default());
    write!(out, "[{answer:?} {}]", given.as_str())
}

fn push_writes<O: ByteSink>(out: &mut String, sink: &mut O, steps: &str) -> Result<(), AllocError> {
    for step in steps.split(' ') {
        let (how, text) = step.split_once(':').unwrap_or((step, ""));
        push_write(out, sink, how, text.as_bytes())?;
    }
    Ok(())
}

fn push_reads<S: Source>(
    alloc: Global,
    out: &mut String,
    source: &mut S,
    steps: &str,
) -> Result<(), AllocError> {
    for _ in steps.split(' ') {
        push_read(alloc, out, source)?;
    }
    Ok(())
}

fn push_conn(
    alloc: Global,
    out: &mut String,
    conn: &mut MemConn,
    reads: &str,
    writes: &str,
) -> Result<(), AllocError> {
    write!(out, "{:?} ", conn.peer())?;
    push_reads(alloc, out, conn, reads)?;
    push_writes(out, conn, writes)?;
    write!(out, " {}", spelled(alloc, conn.output()).as_str())
}

// Who is the peer of a connection, what its reads and then its writes answer, and its output.
fn show_conn(alloc: Global, out: &mut String, row: &str) -> Result<(), NoMemory> {
    let (reads, rest) = fields(row);
    let (writes, script) = fields(rest);
    match MemConn::new(alloc, [10, 0, 0, 7], script_of(alloc, script)) {
        Ok(mut conn) => {
            let shown = push_conn(alloc, out, &mut conn, reads, writes);
            drop(conn);
            Ok(shown?)
        }
        Err(fault) => Err(fault),
    }
}

// What a connection wishes that was given these, each time that it is asked: four times.
fn show_wishes(alloc: Global, out: &mut String, row: &str) -> Result<(), NoMemory> {
    let mut wishes = Vec::new(alloc);
    for word in row.split(' ') {
        if word != "-" {
            wishes.push(word == "end")?;
        }
    }
    match MemConn::wishing(alloc, [10, 0, 0, 7], script_of(alloc, ""), wishes) {
        Ok(mut conn) => {
            let asked = [
                conn.wishes_to_end(),
                conn.wishes_to_end(),
                conn.wishes_to_end(),
                conn.wishes_to_end(),
            ];
            drop(conn);
            Ok(write!(out, "{asked:?}")?)
        }
        Err(fault) => Err(fault),
    }
}

// What writes answer, and what was written.
fn show_sink(alloc: Global, out: &mut String, row: &str) -> Result<(), NoMemory> {
    let (writes, room) = fields(row);
    let mut sink = MemBytes::new(
        alloc,
        number_of(room.as_bytes()).unwrap_or(0),
        Vec::new(alloc),
    )?;
    let shown = push_writes(out, &mut sink, writes);
    let written = spelled(alloc, sink.bytes());
    drop(sink);
    shown?;
    Ok(write!(out, " {}", written.as_str())?)
}

fn push_file<F: Files>(
    alloc: Global,
    out: &mut String,
    files: &mut F,
    name: &str,
) -> Result<(), AllocError> {
    match files.read(alloc, name) {
        Ok(bytes) => write!(out, "[{}]", spelled(alloc, bytes.as_slice()).as_str()),
        Err(fail) => write!(out, "[{fail:?}]"),
    }
}

fn push_files<F: Files>(
    alloc: Global,
    out: &mut String,
    files: &mut F,
    names: &str,
) -> Result<(), AllocError> {
    for name in names.split(' ') {
        push_file(alloc, out, files, name)?;
    }
    Ok(())
}

// Which reads fail, and then one file: its name and its bytes.
fn files_of(alloc: Global, row: &str) -> Result<MemFiles, AllocError> {
    let (fails, rest) = fields(row);
    let (name, text) = fields(rest);
    let file = (
        Text::new(text_of(alloc, name)),
        Bytes::new(input_of(alloc, text)),
    );
    let files = vec![in alloc; file]?;
    Ok(MemFiles::new(files, numbers_of(alloc, fails)))
}

// What reads of these names answer.
fn show_files(alloc: Global, out: &mut String, row: &str) -> Result<(), NoMemory> {
    let (names, rest) = fields(row);
    let mut files = files_of(alloc, rest)?;
    let shown = push_files(alloc, out, &mut files, names);
    drop(files);
    Ok(shown?)
}

// Four moments, with a rest after each.
fn four_moments<K: Clock>(clock: &mut K) -> [u64; 4] {
    let mut moments = [0; 4];
    for moment in &mut moments {
        *moment = clock.now().micros();
        clock.rest();
    }
    moments
}

// The moments of a clock that starts there and goes on by such steps.
fn show_clock(out: &mut String, row: &str) -> Result<(), NoMemory> {
    let (start, step) = fields(row);
    let start = Moment::new(number_of(start.as_bytes()).unwrap_or(0)).unwrap_or(Moment::epoch());
    let step = number_of(step.as_bytes()).unwrap_or(0);
    Ok(write!(out, "{:?}", four_moments(&mut MemClock::new(start, step)))?)
}

/// What ports answer, for a file whose name begins with `port_`.
pub fn show_port(alloc: Global, out: &mut String, file: &str, row: &str) -> Result<(), NoMemory> {
    match file {
        "port_conns.txt" => show_conn(alloc, out, row),
        "port_wishes.txt" => show_wishes(alloc, out, row),
        "port_sinks.txt" => show_sink(alloc, out, row),
        "port_files.txt" => show_files(alloc, out, row),
        _ => show_clock(out, row),
    }
}
