//! Stored cases of the layer of routes: what APIService objects are read as, the documents of discovery, the table of APIs and
//! its changes, which paths are local, and what requests on them are answered.
//!
//! Each file of this folder's `data` has a matter, and a line of it is a case; the head of the file says how it is written.
//! The cases of a table are calls one after another on one table. Standard output has each case and its whole answer. The
//! expected answers were worked out from the rules of `docs/FORMATS.md`, which cites Kubernetes' pages on the APIService kind,
//! API discovery and the API conventions. They are no copy of what the program printed.
//!
//! A case is added as a line in `data` with its answer in `stdout`. It needs no proof.
#![tactic(auto)]

mod documents;
mod fixtures;
mod objects;
mod replies;
mod table;

use apiservice_table::TableRoutes;
use case_rows::{is_row, read_cases};
use documents::show_document;
use fixtures::table_for;
use local_replies::LocalPaths;
use objects::{show_list, show_long_list, show_object};
use replies::{show_path, show_refusal, show_request, show_status};
use std::process::ExitCode;
use table::show_call;

const FILES: &str = "\
objects.txt
lists.txt
long-lists.txt
documents.txt
paths.txt
refusals.txt
statuses.txt
table.txt
full-table.txt
requests.txt
replies.txt
patches.txt
trials.txt
tables.txt
";

// Shows the answer to a case of a file.
fn show(rt: &HostRuntime, paths: &LocalPaths, routes: &mut TableRoutes, file: &str, row: &str) {
    match file {
        "objects.txt" => show_object(rt, row),
        "lists.txt" => show_list(rt, row),
        "long-lists.txt" => show_long_list(rt, row),
        "documents.txt" => show_document(rt, row),
        "paths.txt" => show_path(rt, paths, row),
        "refusals.txt" => show_refusal(rt, row),
        "statuses.txt" => show_status(rt, row),
        "table.txt" | "full-table.txt" => show_call(rt, routes, row),
        _ if row == "seen" => show_call(rt, routes, row),
        _ => show_request(rt, paths, routes, row),
    }
}

fn show_rows(
    rt: &HostRuntime,
    paths: &LocalPaths,
    routes: &mut TableRoutes,
    file: &str,
    text: &str,
) {
    for row in text.lines() {
        if is_row(row) {
            let _shown = print!(rt; "{row} => ");
            show(rt, paths, routes, file, row);
        }
    }
}

// Shows the cases of a file, or nothing where it can't be read or memory refuses its table.
fn show_file(rt: &HostRuntime, paths: &LocalPaths, file: &str) {
    let _shown = println!(rt; "== {file}");
    let Ok(text) = read_cases(rt, file) else {
        return;
    };
    if let Some(mut routes) = table_for(rt.alloc(), file) {
        show_rows(rt, paths, &mut routes, file, text.as_str());
        drop(routes);
    }
}

fn show_files(rt: &HostRuntime, paths: &LocalPaths) {
    for file in FILES.lines() {
        show_file(rt, paths, file);
    }
}

fn main(rt: HostRuntime) -> ExitCode {
    match LocalPaths::new(rt.alloc()) {
        Ok(paths) => {
            show_files(&rt, &paths);
            drop(paths);
            ExitCode::from(0)
        }
        Err(_) => ExitCode::from(1),
    }
}
