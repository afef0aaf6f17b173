// What a reply lists, what a document is read as, and the line of a group version. A row of `data/cases.txt` is `list` with a group version, a
// status and a body; `document` with a document; or `line` with a group version, what was fetched (`-` for nothing) and an earlier document.
use case_rows::{bytes_of, fields, is_row, read_cases, spelled};
use group_resources::{Merged, MergedFault, merged_line, read_list, read_merged};
use std::alloc::{AllocError, Global};
use std::io;

fn list_shown(alloc: Global, row: &str) -> Result<String, AllocError> {
    let (version, rest) = fields(row);
    let (status, body) = fields(rest);
    let body = bytes_of(alloc, body);
    let status = status.parse::<u16>().unwrap_or(0);
    match read_list(alloc, version, status, body.as_slice()) {
        Ok(Some(list)) => {
            let text = spelled(alloc, list.as_slice());
            format!(in alloc; "lists {text}")
        }
        Ok(None) => String::from_str(alloc, "lists nothing"),
        Err(_) => String::from_str(alloc, "no memory"),
    }
}

fn lines_shown(alloc: Global, merged: &Merged) -> Result<String, AllocError> {
    let mut text = String::new(alloc);
    for line in merged.as_slice() {
        let state = line.state;
        let version = spelled(alloc, line.group_version.as_str().as_bytes());
        let resources = spelled(alloc, line.resources.as_slice());
        let shown = format!(in alloc; "\n  {version} {state:?} {resources}")?;
        text.push_str(shown.as_str())?;
    }
    Ok(text)
}

fn document_shown(alloc: Global, row: &str) -> Result<String, AllocError> {
    let bytes = bytes_of(alloc, row);
    match read_merged(alloc, bytes.as_slice()) {
        Ok(merged) => {
            let lines = lines_shown(alloc, &merged)?;
            format!(in alloc; "read{lines}")
        }
        Err(MergedFault::BadLine { line }) => format!(in alloc; "bad line {line}"),
        Err(MergedFault::NoMemory) => String::from_str(alloc, "no memory"),
    }
}

fn line_shown(alloc: Global, row: &str) -> Result<String, AllocError> {
    let (version, rest) = fields(row);
    let (fetched, document) = fields(rest);
    let bytes = bytes_of(alloc, document);
    let Ok(previous) = read_merged(alloc, bytes.as_slice()) else {
        return String::from_str(alloc, "no document");
    };
    let fetched = if fetched == "-" {
        None
    } else {
        Some(fetched.as_bytes())
    };
    match merged_line(alloc, version, fetched, &previous) {
        Ok(line) => Ok(spelled(alloc, line.as_slice())),
        Err(_) => String::from_str(alloc, "no memory"),
    }
}

fn shown(alloc: Global, row: &str) -> Result<String, AllocError> {
    let (kind, rest) = fields(row);
    match kind {
        "list" => list_shown(alloc, rest),
        "document" => document_shown(alloc, rest),
        "line" => line_shown(alloc, rest),
        _ => String::from_str(alloc, "no such kind"),
    }
}

/// Prints each row of `data/cases.txt` with what comes of it.
pub fn show_lists(rt: &HostRuntime) -> io::Result<()> {
    let rows = read_cases(rt, "cases.txt")?;
    for row in rows.lines() {
        if is_row(row) {
            let text = shown(rt.alloc(), row)?;
            println!(rt; "{row}\n  => {text}")?;
        }
    }
    Ok(())
}
