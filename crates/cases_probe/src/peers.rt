// What is dialed.
ghost use Rattle.std.specs.Prelude.{IfOk};
ghost use Rattle.std.specs.List.{All};
ghost use Rattle.front_ports.specs.Memory.{IsUnused};

use case_rows::bytes_of;
use front_base::{Bytes, NoMemory};
use front_ports::{MemDial, MemLink, Script};
use std::alloc::{AllocError, Global};

fn stream_of(alloc: Global, input: Vec<u8>) -> Result<MemLink, NoMemory>
    ensures { IfOk result IsUnused }
{
    MemLink::new(
        alloc,
        Script {
            input: Bytes::new(input),
            room: 65_536,
            sizes: Vec::new(alloc),
            read_fails: Vec::new(alloc),
            write_fails: Vec::new(alloc),
        },
    )
}

const LIST: &str =
    r#"{"kind":"APIServiceList","items":[{"apiVersion":"apiregistration.k8s.io/v1","kind":"APIService","metadata":{"name":"v1.g"},"spec":{"group":"g","groupPriorityMinimum":100,"service":{"name":"x","namespace":"s"},"version":"v1","versionPriority":10}},{"metadata":{"name":"v1."},"spec":{"groupPriorityMinimum":18000,"version":"v1","versionPriority":1}}]}"#;

// A reply of that status with that body.
fn reply_with(alloc: Global, status: u16, body: &str) -> Result<Vec<u8>, AllocError> {
    let size = body.len();
    let mut text = format!(in alloc; "HTTP/1.1 {status} Said\r\nContent-Length: {size}\r\n\r\n")?;
    text.push_str(body)?;
    Ok(text.into_bytes())
}

// What a peer says that answers so: a status, a list of APIServices, or bytes that are no reply.
fn reply_of(alloc: Global, word: &str) -> Result<Vec<u8>, AllocError> {
    match word {
        "bad" => Ok(bytes_of(alloc, r"taken\r\n\r\n")),
        "list" => reply_with(alloc, 200, LIST),
        "cut" => Ok(bytes_of(alloc, r"HTTP/1.1 200 Said\r\n")),
        "half" => Ok(bytes_of(alloc, r"HTTP/1.1 200 Said\r\nContent-Length: 9\r\n\r\n{")),
        "continued" => Ok(bytes_of(alloc, r"HTTP/1.1 100 Said\r\n\r\nHTTP/1.1 200 Said\r\n\r\n")),
        "switched" => Ok(bytes_of(alloc, r"HTTP/1.1 101 Said\r\n\r\n")),
        "two" => Ok(bytes_of(
            alloc,
            r"HTTP/1.1 200 Said\r\nContent-Length: 1\r\nContent-Length: 2\r\n\r\n",
        )),
        _ => {
            let head = format!(in alloc;
                "HTTP/1.1 {word} Said\\r\\nContent-Length: 0\\r\\n\\r\\n"
            )?;
            Ok(bytes_of(alloc, &head))
        }
    }
}

fn push_answer(alloc: Global, links: &mut Vec<MemLink>, word: &str) -> Result<(), NoMemory>
    requires { All IsUnused links.old.items }
    ensures { All IsUnused links.new.items }
{
    let link = stream_of(alloc, reply_of(alloc, word)?)?;
    Ok(links.push(link)?)
}

fn failing_dials(alloc: Global, answers: &str) -> Result<Vec<u64>, AllocError> {
    let mut fails = Vec::new(alloc);
    let mut number: u64 = 0;
    for word in answers.split(' ') {
        number = number.saturating_add(1);
        if word == "gone" {
            fails.push(number)?;
        }
    }
    Ok(fails)
}

/// A dial whose links answer so, one after another.
pub fn peer_of(alloc: Global, answers: &str) -> Result<MemDial, NoMemory> {
    let mut links = Vec::new(alloc);
    for word in answers.split(' ') {
        push_answer(alloc, &mut links, word)?;
    }
    let fails = failing_dials(alloc, answers)?;
    MemDial::new(alloc, links, fails)
}
