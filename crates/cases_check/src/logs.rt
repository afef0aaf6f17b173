// Audit logs checked against policies. `data/lines.txt` has lines with names: `NAME | LINE`. In `data/logs.txt` a row `policy | TEXT` starts a
// log, where `-` is the policy of no file, and every other row is a line of that log: `NAME | THIS | THAT` is the line of that name with THAT in
// place of the first THIS, and so on with what follows.
use audit_check::Checker;
use case_rows::{bytes_of, fields, is_row, read_cases};
use front_base::MOST_FILE_BYTES;
use log_summary::NoWatch;
use policy_json::read_policy;
use policy_rules::Policy;
use std::alloc::Global;
use std::io;

/// How many parts of a line a row replaces.
const MOST_EDITS: usize = 8;

fn policy_of(alloc: Global, text: &str) -> Option<Policy> {
    if text == "-" {
        return Policy::all_metadata(alloc).ok();
    }
    if text.len() as u64 > MOST_FILE_BYTES {
        return None;
    }
    read_policy(alloc, text.as_bytes()).ok()
}

fn checker_of(alloc: Global, text: &str) -> Option<Checker> {
    match policy_of(alloc, text) {
        Some(policy) => Some(Checker::start(alloc, policy)),
        None => None,
    }
}

// The line of that name.
fn line_named<'t>(lines: &'t str, name: &str) -> Option<&'t str> {
    for row in lines.lines() {
        let (own, line) = fields(row);
        if is_row(row) && own == name {
            return Some(line);
        }
    }
    None
}

// The line with that in place of this.
fn replaced(alloc: Global, line: &str, this: &str, that: &str) -> Option<String> {
    let (before, after) = line.split_once(this)?;
    format!(in alloc; "{before}{that}{after}").ok()
}

// The line after the edits of a row, if it has what they replace.
fn edited(alloc: Global, line: &str, edits: &str) -> Option<String> {
    let mut text = String::from_str(alloc, line).ok()?;
    let mut rest = edits;
    for _ in 0..MOST_EDITS {
        if rest.is_empty() {
            break;
        }
        let (this, more) = fields(rest);
        let (that, more) = fields(more);
        text = replaced(alloc, text.as_str(), this, that)?;
        rest = more;
    }
    Some(text)
}

fn line_of(alloc: Global, lines: &str, row: &str) -> Option<String> {
    let (name, edits) = fields(row);
    edited(alloc, line_named(lines, name)?, edits)
}

fn show_answer(rt: &HostRuntime, checker: &mut Checker, line: &str) -> io::Result<()> {
    let alloc = rt.alloc();
    match checker.line(alloc, bytes_of(alloc, line).as_slice(), &mut NoWatch) {
        Ok(()) => println!(rt; "  conforms"),
        Err(fault) => println!(rt; "  {fault:?}"),
    }
}

fn show_line(
    rt: &HostRuntime,
    checker: &mut Option<Checker>,
    lines: &str,
    row: &str,
) -> io::Result<()> {
    match (checker, line_of(rt.alloc(), lines, row)) {
        (Some(checker), Some(line)) => show_answer(rt, checker, line.as_str()),
        (None, _) => println!(rt; "  no policy"),
        (_, None) => println!(rt; "  no such line"),
    }
}

fn show_row(
    rt: &HostRuntime,
    checker: &mut Option<Checker>,
    lines: &str,
    row: &str,
) -> io::Result<()> {
    println!(rt; "{row}")?;
    match row.strip_prefix("policy | ") {
        Some(policy) => {
            *checker = checker_of(rt.alloc(), policy);
            Ok(())
        }
        None => show_line(rt, checker, lines, row),
    }
}

/// Prints each row of `data/logs.txt`, and below a line what the checker answers.
pub fn show_logs(rt: &HostRuntime) -> io::Result<()> {
    let lines = read_cases(rt, "lines.txt")?;
    let logs = read_cases(rt, "logs.txt")?;
    let mut checker = None;
    for row in logs.lines() {
        if is_row(row) {
            show_row(rt, &mut checker, lines.as_str(), row)?;
        }
    }
    Ok(())
}
