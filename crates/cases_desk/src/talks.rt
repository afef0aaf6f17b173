// Requests of one run, one after another.
use crate::run::{Ran, run};
use case_rows::{is_row, read_cases};
use front_base::NoMemory;
use std::alloc::{AllocError, Global};

// The body in the file of that name, none where a row names none.
fn body_of(rt: &HostRuntime, name: &str) -> String {
    match read_cases(rt, name) {
        Ok(body) if !name.is_empty() => body,
        _ => String::new(rt.alloc()),
    }
}

// The request of a row, by the words of it: whose token it carries, its method, its target, and the file of its body.
fn request_of(rt: &HostRuntime, row: &str) -> Result<String, AllocError> {
    let alloc = rt.alloc();
    let (who, rest) = row.split_once(' ').unwrap_or((row, ""));
    let (method, rest) = rest.split_once(' ').unwrap_or((rest, ""));
    let (target, file) = rest.split_once(' ').unwrap_or((rest, ""));
    let body = body_of(rt, file);
    let length = body.len();
    match who {
        "none" => {
            format!(in alloc;
                "{method} {target} HTTP/1.1\r\nContent-Length: {length}\r\n\r\n{body}"
            )
        }
        _ => format!(in alloc;
            "{method} {target} HTTP/1.1\r\nContent-Length: {length}\r\nAuthorization: Bearer {who}\r\n\r\n{body}"
        ),
    }
}

// What a line of the output says of its request: the code where the line is the event of an answer, or else the line.
fn said_by(line: &str) -> &str {
    match line.split_once("\"code\":") {
        Some((_, rest)) => match rest.split_once('}') {
            Some((code, _)) => code,
            None => rest,
        },
        None => line,
    }
}

// The rows of a file.
fn rows_of(alloc: Global, cases: &str) -> Result<Vec<&str>, AllocError> {
    let mut rows = Vec::new(alloc);
    for line in cases.lines() {
        if is_row(line) {
            rows.push(line)?;
        }
    }
    Ok(rows)
}

// What the lines of the output say. Of the events of a request the last one is looked at.
fn said_of(alloc: Global, output: &str) -> Result<Vec<&str>, AllocError> {
    let mut said = Vec::new(alloc);
    for line in output.lines() {
        let is_event = line.contains("\"stage\":\"");
        if !is_event || line.contains("\"stage\":\"ResponseComplete\"") {
            said.push(said_by(line))?;
        }
    }
    Ok(said)
}

// Each request with what the output says of it.
fn matched(alloc: Global, requests: &[&str], said: &[&str]) -> Result<String, AllocError> {
    let mut text = String::new(alloc);
    for (at, request) in requests.iter().enumerate() {
        let answer = match said.get(at) {
            Some(answer) => *answer,
            None => "nothing",
        };
        text.push_str(request)?;
        text.push_str(" => ")?;
        text.push_str(answer)?;
        text.push('\n')?;
    }
    Ok(text)
}

fn input_of(rt: &HostRuntime, requests: &[&str]) -> Result<Vec<u8>, AllocError> {
    let mut input = Vec::new(rt.alloc());
    for request in requests {
        input.extend_from_slice(request_of(rt, request)?.as_bytes())?;
    }
    Ok(input)
}

// The status of a run, how many answers there are, and each request with its own.
fn comes_to(alloc: Global, line: &str, requests: &[&str], ran: &Ran) -> Result<String, AllocError> {
    let output = str::from_utf8(ran.output.as_slice()).unwrap_or("not UTF-8");
    let said = said_of(alloc, output)?;
    let answers = matched(alloc, requests, said.as_slice())?;
    format!(in alloc;
        "{line} => {}, {} answers\n{answers}",
        ran.status,
        said.len()
    )
}

/// What each request of the rows comes to, in the run of the command line that is the first row.
pub fn answers(rt: &HostRuntime, cases: &str) -> Result<String, AllocError> {
    let alloc = rt.alloc();
    let rows = rows_of(alloc, cases)?;
    let [line, requests @ ..] = rows.as_slice() else {
        return Ok(String::new(alloc));
    };
    match run(rt, line, input_of(rt, requests)?, "read=100") {
        Ok(ran) => comes_to(alloc, line, requests, &ran),
        Err(NoMemory) => Err(AllocError),
    }
}
