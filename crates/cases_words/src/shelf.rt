// The files of a configuration, as a row gives them.
ghost use Rattle.std.specs.Prelude.{None};

use apiservice_rows::MOST_ROWS;
use case_rows::{bytes_of, fields};
use command_options::FileNames;
use front_base::{Bytes, MOST_FILE_BYTES, Text};
use front_ports::{FileFail, Files};
use std::alloc::{AllocError, Global};

/// What the files of tokens, policy, APIServices and endpoints hold, and which read fails, counted from 1. A `-` stands for
/// a file that no option names, and a `?` for one that isn't there.
#[derive(Clone, Copy)]
pub struct Given<'t> {
    pub tokens: &'t str,
    pub policy: &'t str,
    pub services: &'t str,
    pub endpoints: &'t str,
    pub fails: u64,
}

/// What a row says of files.
pub fn given_of(row: &str) -> Given<'_> {
    let (tokens, rest) = fields(row);
    let (policy, rest) = fields(rest);
    let (services, rest) = fields(rest);
    let (endpoints, fails) = fields(rest);
    Given {
        tokens,
        policy,
        services,
        endpoints,
        fails: fails.parse::<u64>().unwrap_or_default(),
    }
}

fn name_of(alloc: Global, own: &str, given: &str) -> Option<Text> {
    match given {
        "-" => None,
        _ => Text::copy_of(alloc, own).ok(),
    }
}

/// The names of the files.
pub fn names_of(alloc: Global, given: Given<'_>) -> FileNames {
    FileNames {
        tokens: name_of(alloc, "t.csv", given.tokens),
        policy: name_of(alloc, "a/p.json", given.policy),
        services: name_of(alloc, "s.json", given.services),
        endpoints: name_of(alloc, "e.csv", given.endpoints),
    }
}

// A list of one APIService object more than a table holds.
fn full_list(alloc: Global) -> Result<String, AllocError> {
    let mut text = String::from_str(alloc, "{\"kind\":\"List\",\"items\":[")?;
    for i in 0..MOST_ROWS {
        let item = format!(in alloc;
            "{{\"metadata\":{{\"name\":\"v1.g{i}\"}},\"spec\":{{\"group\":\"g{i}\",\"version\":\"v1\",\
             \"groupPriorityMinimum\":1,\"versionPriority\":1}}}},"
        )?;
        text.push_str(item.as_str())?;
    }
    text.push_str(
        "{\"metadata\":{\"name\":\"v1.\"},\"spec\":{\"version\":\"v1\",\"groupPriorityMinimum\":1,\"versionPriority\":1}}]}",
    )?;
    Ok(text)
}

// What stands for that name in the rows of `contents`, or the name itself.
fn content_of<'c>(contents: &'c str, name: &'c str) -> &'c str {
    for row in contents.lines() {
        let (own, content) = fields(row);
        if own == name {
            return content;
        }
    }
    name
}

// The bytes that a row gives a file: a name of `contents`, or the bytes themselves.
fn held(alloc: Global, contents: &str, given: &str) -> Result<Vec<u8>, AllocError> {
    match given {
        "FULL" => Ok(full_list(alloc)?.into_bytes()),
        _ => Ok(bytes_of(alloc, content_of(contents, given))),
    }
}

/// The files of a row. They are opaque.
#[derive(Drop)]
pub struct Shelf<'t> {
    pub contents: &'t str,
    pub given: Given<'t>,
    pub reads: u64,
    pub faults: u64,
}

impl<'t> Shelf<'t> {
    pub fn new(contents: &'t str, given: Given<'t>) -> Self {
        Shelf {
            contents,
            given,
            reads: 0,
            faults: 0,
        }
    }

    // What the row says of the file of that name.
    fn given(&self, name: &str) -> &'t str {
        match name {
            "t.csv" => self.given.tokens,
            "a/p.json" => self.given.policy,
            "s.json" => self.given.services,
            "e.csv" => self.given.endpoints,
            _ => "?",
        }
    }
}

impl<'t> Files for Shelf<'t> {
    ghost files = { λ _. None };

    ghost faults = { λ s. s.faults };

    ghost failed = { λ _. None };

    fn read(&mut self, alloc: Global, name: &str) -> Result<Bytes, FileFail> {
        self.reads = self.reads.saturating_add(1);
        let given = self.given(name);
        if given == "?" || self.reads == self.given.fails {
            self.faults = self.faults.saturating_add(1);
            return Err(FileFail::Fault);
        }
        if given == "LONG" {
            return Err(FileFail::TooLong);
        }
        let bytes = held(alloc, self.contents, given)?;
        if bytes.len() as u64 > MOST_FILE_BYTES {
            return Err(FileFail::TooLong);
        }
        Ok(Bytes::new(bytes))
    }
}
