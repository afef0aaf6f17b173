// What the files of a program of runs say: the script of a client and of its peers, and the calls of a run that fail.
use case_rows::{bytes_of, fields};
use front_base::number_of;
use std::alloc::{AllocError, Global};

// What such a line of the script says: the most bytes of a read, and a text.
pub fn told_by<'s>(line: &'s str, name: &str) -> Option<(&'s str, &'s str)> {
    let (own, rest) = fields(line);
    if own == name {
        Some(fields(rest))
    } else {
        None
    }
}

fn number_in(fault: &str, call: &str) -> Option<u64> {
    match fault.split_once(' ') {
        Some((name, number)) => {
            if name == call {
                number_of(number.as_bytes())
            } else {
                None
            }
        }
        None => None,
    }
}

fn numbers(alloc: Global, row: &str, call: &str) -> Result<Vec<u64>, AllocError> {
    let mut numbers = Vec::new(alloc);
    for fault in row.split(" | ") {
        if let Some(number) = number_in(fault, call) {
            numbers.push(number)?;
        }
    }
    Ok(numbers)
}

/// The numbers of the calls of that name that fail in the run of a row.
pub fn fails(alloc: Global, row: &str, call: &str) -> Vec<u64> {
    match numbers(alloc, row, call) {
        Ok(numbers) => numbers,
        Err(_) => Vec::new(alloc),
    }
}

/// The same of a call of that port: `client-read`.
pub fn port_fails(alloc: Global, row: &str, port: &str, call: &str) -> Vec<u64> {
    match format!(in alloc; "{port}-{call}") {
        Ok(name) => fails(alloc, row, name.as_str()),
        Err(_) => Vec::new(alloc),
    }
}

/// The same of a call of the link of that number: `link2-read`.
pub fn link_fails(alloc: Global, row: &str, links: &str, number: usize, call: &str) -> Vec<u64> {
    match format!(in alloc; "{links}{number}") {
        Ok(port) => port_fails(alloc, row, port.as_str(), call),
        Err(_) => Vec::new(alloc),
    }
}

// Sixty-four reads of at most so many bytes.
fn equal_sizes(alloc: Global, most: u32) -> Result<Vec<u32>, AllocError> {
    let mut sizes = Vec::new(alloc);
    for _ in 0..64 {
        sizes.push(most)?;
    }
    Ok(sizes)
}

/// The sizes of reads, by the most bytes of one, which is written in decimal. Without a number a read gives what it can.
pub fn sizes_of(alloc: Global, most: &str) -> Vec<u32> {
    let most = match number_of(most.as_bytes()) {
        Some(most) => most.min(65_536) as u32,
        None => 65_536,
    };
    match equal_sizes(alloc, most) {
        Ok(sizes) => sizes,
        Err(_) => Vec::new(alloc),
    }
}

fn sent(alloc: Global, script: &str, client: &str) -> Result<Vec<u8>, AllocError> {
    let mut bytes = Vec::new(alloc);
    for line in script.lines() {
        if let Some((_, text)) = told_by(line, client) {
            bytes.extend_from_slice(bytes_of(alloc, text).as_slice())?;
        }
    }
    Ok(bytes)
}

/// All that a client sends in the run of a row: the texts of the script, one after another, and no more of them than a `cut` of the
/// row leaves.
pub fn client_bytes(alloc: Global, script: &str, row: &str, client: &str) -> Vec<u8> {
    let mut bytes = match sent(alloc, script, client) {
        Ok(bytes) => bytes,
        Err(_) => return Vec::new(alloc),
    };
    for most in fails(alloc, row, "cut") {
        bytes.truncate(most as usize);
    }
    bytes
}

/// For how many lines of a bay the queue has room over the whole run: the number of the script's line `room`, 7 without one.
pub fn allotment_of(script: &str) -> u64 {
    match client_most(script, "room") {
        Some(lines) => number_of(lines.as_bytes()).unwrap_or(7),
        None => 7,
    }
}

/// The option that says how many bays the run of a script has: two where a client comes to the other bay.
pub fn bays_of(script: &str) -> &'static str {
    match client_most(script, "other") {
        Some(_) => "--bays=2",
        None => "--bays=1",
    }
}

/// The most bytes of a read of a client, none where the script has no such client.
pub fn client_most<'s>(script: &'s str, client: &str) -> Option<&'s str> {
    for line in script.lines() {
        if let Some((most, _)) = told_by(line, client) {
            return Some(most);
        }
    }
    None
}
