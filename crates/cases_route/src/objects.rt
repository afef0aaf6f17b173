// APIService objects, and lists of them.
use crate::fixtures::list;
use apiservice_rows::{Row, read_row, read_rows};
use case_rows::{bytes_of, fields};
use std::alloc::Global;

/// Shows a text, or that it is none.
pub fn show_text(rt: &HostRuntime, bytes: &[u8]) {
    let _shown = println!(rt; "{}", str::from_utf8(bytes).unwrap_or("no text"));
}

/// Shows a row: its name, its two priorities, its group and version, its service as `NAMESPACE/NAME:PORT`, and whether it is
/// available; and then its object.
pub fn show_row(rt: &HostRuntime, row: &Row) {
    let (name, group, version) = (row.name.as_str(), row.group.as_str(), row.version.as_str());
    let (first, second) = (row.group_priority, row.version_priority);
    let _shown = print!(rt; "{name} {first} {second} {group}/{version} ");
    let _shown = match &row.service {
        None => print!(rt; "-"),
        Some(to) => {
            print!(rt;
                "{}/{}:{}",
                to.namespace.as_str(),
                to.name.as_str(),
                to.port
            )
        }
    };
    let _shown = print!(rt; " {}\n    ", row.available);
    show_text(rt, row.object.as_slice());
}

fn show_copy(rt: &HostRuntime, row: &Row) {
    if let Ok(copy) = row.copy(rt.alloc()) {
        show_row(rt, &copy);
        drop(copy);
    }
}

/// Shows the row of an object, from a copy of it, or the object's first fault.
pub fn show_object(rt: &HostRuntime, text: &str) {
    let alloc = rt.alloc();
    match read_row(alloc, &bytes_of(alloc, text)) {
        Ok(row) => {
            show_copy(rt, &row);
            drop(row);
        }
        Err(fault) => {
            let _shown = println!(rt; "{fault:?}");
        }
    }
}

fn show_rows(rt: &HostRuntime, rows: &[Row]) {
    let _shown = println!(rt; "{}", rows.len());
    for row in rows {
        let _shown = print!(rt; "  ");
        show_row(rt, row);
    }
}

/// Shows how many rows a list has, and each of them, or the list's first fault.
pub fn show_list(rt: &HostRuntime, text: &str) {
    let alloc = rt.alloc();
    match read_rows(alloc, &bytes_of(alloc, text)) {
        Ok(rows) => {
            show_rows(rt, rows.as_slice());
            drop(rows);
        }
        Err(fault) => {
            let _shown = println!(rt; "{fault:?}");
        }
    }
}

/// Shows how many rows a list has, or its first fault. The case says how many objects stand before the last one, what their
/// groups end with, and the last one's group.
pub fn show_long_list(rt: &HostRuntime, row: &str) {
    let alloc = rt.alloc();
    let (count, rest) = fields(row);
    let (end, last) = fields(rest);
    let text = list(alloc, count.parse().unwrap_or(0), end, last);
    let _shown = match read_rows(alloc, text.as_bytes()) {
        Ok(rows) => {
            let count = rows.as_slice().len();
            drop(rows);
            println!(rt; "{count}")
        }
        Err(fault) => println!(rt; "{fault:?}"),
    };
}
