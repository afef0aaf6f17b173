use crate::rows::input_of;
use crate::runs::Runs;
use case_rows::{fields, spelled};
use front_base::NoMemory;
use http_head::{
    Head, HeadAnswer, Headers, ReplyHead, asks_to_close, framing, has_option, read_reply,
    read_request, read_status, write_reply, write_request,
};
use std::alloc::{AllocError, Global};

fn push_headers(alloc: Global, out: &mut String, headers: &Headers) -> Result<(), AllocError> {
    for header in headers.as_slice() {
        let value = spelled(alloc, header.value.as_slice());
        write!(out, ", {}: \"{value}\"", header.name.as_str())?;
    }
    Ok(())
}

// What a request's head says, how it frames its body, and which options it names.
fn push_head(alloc: Global, out: &mut String, head: &Head) -> Result<(), AllocError> {
    let method = head.method.as_str();
    let target = head.target.as_str();
    write!(out, "{method} {target} 1.{}", head.minor)?;
    push_headers(alloc, out, &head.headers)?;
    write!(out, "; {:?}", framing(&head.headers, head.minor))?;
    if asks_to_close(&head.headers) {
        out.push_str(", close")?;
    }
    if has_option(&head.headers, "te") {
        out.push_str(", te")?;
    }
    Ok(())
}

fn push_request(
    alloc: Global,
    out: &mut String,
    answer: &HeadAnswer<Head>,
) -> Result<(), AllocError> {
    match answer {
        HeadAnswer::Whole { head, length } => {
            write!(out, "Whole, {length} bytes: ")?;
            push_head(alloc, out, head)
        }
        HeadAnswer::More => out.push_str("More"),
        HeadAnswer::BadHead => out.push_str("BadHead"),
        HeadAnswer::TooLarge => out.push_str("TooLarge"),
    }
}

/// The head of a request that the bytes of the row begin with.
pub fn show_request(alloc: Global, out: &mut String, row: &str) -> Result<(), NoMemory> {
    let input = input_of(alloc, row);
    match read_request(alloc, input.as_slice()) {
        Ok(answer) => {
            let shown = push_request(alloc, out, &answer);
            drop(answer);
            Ok(shown?)
        }
        Err(fault) => Err(fault),
    }
}

fn push_reply(
    alloc: Global,
    out: &mut String,
    answer: &HeadAnswer<ReplyHead>,
) -> Result<(), AllocError> {
    match answer {
        HeadAnswer::Whole { head, length } => {
            write!(
                out,
                "Whole, {length} bytes: {} 1.{}",
                head.status, head.minor
            )?;
            push_headers(alloc, out, &head.headers)
        }
        HeadAnswer::More => out.push_str("More"),
        HeadAnswer::BadHead => out.push_str("BadHead"),
        HeadAnswer::TooLarge => out.push_str("TooLarge"),
    }
}

// What the bytes say as the head of a reply. Nothing where memory ran out.
fn reply_answer(alloc: Global, bytes: &[u8]) -> String {
    let mut text = String::new(alloc);
    if let Ok(answer) = read_reply(alloc, bytes) {
        let shown = push_reply(alloc, &mut text, &answer);
        drop(answer);
        if shown.is_err() {
            text.clear();
        }
    }
    text
}

fn add_replies(
    alloc: Global,
    out: &mut String,
    runs: &mut Runs,
    bytes: &[u8],
) -> Result<(), AllocError> {
    for size in 0..bytes.len().saturating_add(1) {
        let answer = reply_answer(alloc, bytes.get(..size).unwrap_or_default());
        let size = u32::try_from(size).unwrap_or(u32::MAX);
        runs.add(out, size, answer.as_str())?;
    }
    Ok(())
}

/// The head of a reply that the first bytes of the row begin with, and the status alone.
pub fn show_reply(alloc: Global, out: &mut String, row: &str) -> Result<(), NoMemory> {
    let input = input_of(alloc, row);
    let mut runs = Runs::new(alloc, "in the first");
    let added = add_replies(alloc, out, &mut runs, input.as_slice());
    push_status(out, &runs, added, input.as_slice())
}

fn push_status(
    out: &mut String,
    runs: &Runs,
    added: Result<(), AllocError>,
    bytes: &[u8],
) -> Result<(), NoMemory> {
    added?;
    runs.end(out)?;
    write!(out, "; read_status: {:?}", read_status(bytes))?;
    Ok(())
}

fn push_named(
    alloc: Global,
    out: &mut String,
    headers: &Headers,
    name: &str,
) -> Result<(), AllocError> {
    match headers.first_value(name) {
        Some(value) => {
            let value = spelled(alloc, value);
            write!(out, "first \"{value}\"")?;
        }
        None => out.push_str("none")?,
    }
    for header in headers.as_slice() {
        let own = header.name.as_str();
        write!(
            out,
            ", {own} named {} begins {}",
            header.is_named(name),
            header.name_begins(name)
        )?;
    }
    Ok(())
}

// The headers of the head of a request, or else of a reply.
fn headers_of(alloc: Global, bytes: &[u8]) -> Result<Option<Headers>, NoMemory> {
    if let HeadAnswer::Whole { head, .. } = read_request(alloc, bytes)? {
        return Ok(Some(head.headers));
    }
    match read_reply(alloc, bytes)? {
        HeadAnswer::Whole { head, .. } => Ok(Some(head.headers)),
        _ => Ok(None),
    }
}

fn count_of(headers: Headers) -> usize {
    headers.into_vec().len()
}

/// The first header of a name, of each header whether it has that name and whether its name begins so, and how many there are.
pub fn show_named(alloc: Global, out: &mut String, row: &str) -> Result<(), NoMemory> {
    let (name, head) = fields(row);
    let input = input_of(alloc, head);
    match headers_of(alloc, input.as_slice()) {
        Ok(Some(headers)) => {
            let shown = push_named(alloc, out, &headers, name);
            let count = count_of(headers);
            shown?;
            Ok(write!(out, ", {count} headers")?)
        }
        Ok(None) => Ok(out.push_str("no head")?),
        Err(fault) => Err(fault),
    }
}

fn written_request(alloc: Global, bytes: &[u8]) -> Result<Vec<u8>, NoMemory> {
    match read_request(alloc, bytes) {
        Ok(HeadAnswer::Whole { head, .. }) => {
            let written = write_request(alloc, &head);
            drop(head);
            Ok(written?.into_vec())
        }
        Ok(_) => Ok(Vec::new(alloc)),
        Err(fault) => Err(fault),
    }
}

fn reply_text(alloc: Global, head: &ReplyHead) -> Result<Vec<u8>, NoMemory> {
    if 100 <= head.status && head.status < 1000 {
        return Ok(write_reply(alloc, head)?.into_vec());
    }
    Ok(Vec::new(alloc))
}

fn written_reply(alloc: Global, bytes: &[u8]) -> Result<Vec<u8>, NoMemory> {
    match read_reply(alloc, bytes) {
        Ok(HeadAnswer::Whole { head, .. }) => {
            let written = reply_text(alloc, &head);
            drop(head);
            written
        }
        Ok(_) => Ok(Vec::new(alloc)),
        Err(fault) => Err(fault),
    }
}

/// How the head of a request or of a reply is written again. Nothing where there is none that can be written.
pub fn show_written(alloc: Global, out: &mut String, row: &str) -> Result<(), NoMemory> {
    let (kind, head) = fields(row);
    let input = input_of(alloc, head);
    let written = match kind {
        "request" => written_request(alloc, input.as_slice()),
        _ => written_reply(alloc, input.as_slice()),
    };
    match written {
        Ok(bytes) => Ok(out.push_str(spelled(alloc, bytes.as_slice()).as_str())?),
        Err(fault) => Err(fault),
    }
}
