// The documents of discovery.
use apiservice_rows::{Row, read_rows};
use case_rows::{fields, read_cases};
use discovery_merge::{Group, group, group_list, sorted_groups};
use front_base::Bytes;

// Shows how long a document is, and its text; or why there is none.
fn show_text(rt: &HostRuntime, document: &Bytes) {
    let bytes = document.as_slice();
    let text = str::from_utf8(bytes).unwrap_or("no text");
    let _shown = println!(rt; "{} {text}", bytes.len());
}

// Shows a group on a line of its own: its name and its versions.
fn show_group(rt: &HostRuntime, group: &Group) {
    let _shown = print!(rt; "    {}", group.name.as_str());
    for version in group.versions.as_slice() {
        let _shown = print!(rt; " {}", version.as_str());
    }
    let _shown = println!(rt; "");
}

fn show_groups(rt: &HostRuntime, groups: &[Group]) {
    for group in groups {
        show_group(rt, group);
    }
}

// Shows how many rows there are, and the groups of these in order.
fn show_sorted(rt: &HostRuntime, rows: &[Row]) {
    let _shown = println!(rt; "{} rows", rows.len());
    if let Ok(groups) = sorted_groups(rt.alloc(), rows) {
        show_groups(rt, groups.as_slice());
        drop(groups);
    }
}

fn show_list(rt: &HostRuntime, rows: &[Row]) {
    if let Ok(document) = group_list(rt.alloc(), rows) {
        show_text(rt, &document);
    }
}

fn show_one(rt: &HostRuntime, rows: &[Row], name: &str) {
    match group(rt.alloc(), rows, name) {
        Ok(document) => show_text(rt, &document),
        Err(fault) => {
            let _shown = println!(rt; "{fault:?}");
        }
    }
}

// Shows the groups in order, the document of all of them, or that of one.
fn show_of(rt: &HostRuntime, rows: &[Row], call: &str, name: &str) {
    match call {
        "groups" => show_sorted(rt, rows),
        "list" => show_list(rt, rows),
        _ => show_one(rt, rows, name),
    }
}

/// Shows what a case asks for of the rows of a file.
pub fn show_document(rt: &HostRuntime, row: &str) {
    let (file, rest) = fields(row);
    let (call, name) = fields(rest);
    if let Ok(text) = read_cases(rt, file) {
        match read_rows(rt.alloc(), text.as_bytes()) {
            Ok(rows) => {
                show_of(rt, rows.as_slice(), call, name);
                drop(rows);
            }
            Err(fault) => {
                let _shown = println!(rt; "{fault:?}");
            }
        }
    }
}
