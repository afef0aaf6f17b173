use crate::sources::{source_of, text_of};
use case_rows::{bytes_of, fields};
use front_base::{Bytes, MOST_FILE_BYTES, NoMemory, User};
use http_head::{Head, Header, Headers};
use std::alloc::Global;
use std::io;
use token_users::{TokenFault, Tokens, read_tokens, user_of, who};

/// The tokens of a file.
pub fn tokens_of(alloc: Global, file: &[u8]) -> Result<Tokens, TokenFault> {
    if file.len() as u64 > MOST_FILE_BYTES {
        return Err(TokenFault::NoMemory);
    }
    read_tokens(alloc, file)
}

fn header_of(alloc: Global, line: &str) -> Header {
    let (name, value) = match line.split_once(':') {
        Some(parts) => parts,
        None => (line, ""),
    };
    let value = value.strip_prefix(' ').unwrap_or(value);
    Header {
        name: text_of(alloc, name),
        value: Bytes::new(bytes_of(alloc, value)),
    }
}

/// A head with these header lines.
pub fn head_of(alloc: Global, lines: &str) -> Head {
    let mut headers = Vec::new(alloc);
    for line in lines.split(" | ") {
        let _ = headers.push(header_of(alloc, line));
    }
    Head {
        method: text_of(alloc, "GET"),
        target: text_of(alloc, "/"),
        minor: 1,
        headers: Headers::new(headers),
    }
}

// The user of somebody who is moved.
fn own_user(alloc: Global, tokens: &Tokens, head: &Head) -> Result<User, NoMemory> {
    who(alloc, tokens, head)?.into_user(alloc)
}

/// The user of somebody who is lent.
pub fn lent_user(alloc: Global, tokens: &Tokens, head: &Head) -> Result<User, NoMemory> {
    let asker = who(alloc, tokens, head)?;
    let user = user_of(alloc, &asker);
    drop(asker);
    user
}

fn show_users(rt: &HostRuntime, row: &str, tokens: &Tokens, head: &Head) -> io::Result<()> {
    let alloc = rt.alloc();
    let asker = who(alloc, tokens, head);
    let lent = lent_user(alloc, tokens, head);
    let own = own_user(alloc, tokens, head);
    let shown = println!(rt; "{row} => {asker:?}\n  user_of {lent:?}\n  into_user {own:?}");
    drop(asker);
    drop(lent);
    drop(own);
    shown
}

/// Who asks, and the user that they count as, by a row of a token file and the header lines of a request.
pub fn show_asker(rt: &HostRuntime, row: &str) -> io::Result<()> {
    let alloc = rt.alloc();
    let (source, lines) = fields(row);
    let file = source_of(rt, source);
    match tokens_of(alloc, file.as_slice()) {
        Ok(tokens) => {
            let head = head_of(alloc, lines);
            let shown = show_users(rt, row, &tokens, &head);
            drop(head);
            drop(tokens);
            shown
        }
        Err(fault) => println!(rt; "{row} => {fault:?}"),
    }
}
