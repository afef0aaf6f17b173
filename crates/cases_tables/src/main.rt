//! Cases of the Table of APIServices and of merge patches: a moment in microseconds since 1970, what a query includes of the objects, and
//! APIServices in JSON: their Table at that moment; what its columns say; and what a patch makes of an APIService, and of any value.
//!
//! Expected texts follow the types of `meta/v1`, kube-aggregator's `ConvertToTable`, kube-apiserver's and kube-aggregator's sources where a
//! file says so, and RFC 7396. What none of them has was worked out by hand.
#![tactic(auto)]

mod columns;
mod merges;
mod tables;

use case_rows::{is_row, read_cases};
use columns::show_column;
use merges::show_merge;
use std::io;
use tables::show_table;

// The files of cases, in the order in which they are shown.
const MATTERS: &str = "\
accepts.txt
durations.txt
columns.txt
tables.txt
objects.txt
ages.txt
patches.txt
rfc7396.txt
merges.txt
";

fn show(rt: &HostRuntime, matter: &str, row: &str) -> io::Result<()> {
    match matter {
        "accepts.txt" | "durations.txt" | "columns.txt" => show_column(rt, matter, row),
        "rfc7396.txt" | "merges.txt" => show_merge(rt, row),
        _ => show_table(rt, matter, row),
    }
}

fn show_all(rt: &HostRuntime, matter: &str) -> io::Result<()> {
    let text = read_cases(rt, matter)?;
    println!(rt; "{matter}")?;
    for line in text.lines() {
        if is_row(line) {
            show(rt, matter, line)?;
        }
    }
    Ok(())
}

fn main(rt: HostRuntime) -> io::Result<()> {
    for matter in MATTERS.lines() {
        show_all(&rt, matter)?;
    }
    Ok(())
}
