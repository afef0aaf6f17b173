// Calls on a table of APIs.
use crate::fixtures::object;
use crate::objects::{show_row, show_text};
use apiservice_rows::{Row, read_row};
use apiservice_table::{Change, ChangeFault, Routes, TableRoutes};
use case_rows::fields;
use front_base::{Bytes, NoMemory, Text};
use std::alloc::Global;

fn name_of(alloc: Global, version: &str, group: &str) -> Text {
    match format!(in alloc; "{version}.{group}") {
        Ok(name) => Text::new(name),
        Err(_) => Text::new(String::new(alloc)),
    }
}

fn row_of(alloc: Global, version: &str, group: &str) -> Option<Row> {
    read_row(alloc, object(alloc, version, group).as_bytes()).ok()
}

// A patch of the APIService of a group, after which the patch stands.
fn patch_of(alloc: Global, version: &str, rest: &str) -> Option<Change> {
    let (group, patch) = fields(rest);
    let patch = Bytes::new(patch.as_bytes().to_vec(alloc).ok()?);
    Some(Change::Patch {
        name: name_of(alloc, version, group),
        patch,
    })
}

// The change that a call asks for, where it asks for one.
fn change_of(alloc: Global, call: &str, version: &str, group: &str) -> Option<Change> {
    match call {
        "create" => Some(Change::Create(row_of(alloc, version, group)?)),
        "replace" => Some(Change::Replace(row_of(alloc, version, group)?)),
        "delete" => Some(Change::Delete(name_of(alloc, version, group))),
        "patch" => patch_of(alloc, version, group),
        _ => None,
    }
}

// Shows the object that a patch left, and that another change was made.
fn show_done(rt: &HostRuntime, done: Result<Option<Bytes>, ChangeFault>) {
    match done {
        Ok(Some(object)) => {
            show_text(rt, object.as_slice());
            drop(object);
        }
        Ok(None) => show_text(rt, b"done"),
        Err(fault) => {
            let _shown = println!(rt; "{fault:?}");
        }
    }
}

fn show_change(rt: &HostRuntime, routes: &mut TableRoutes, change: Option<Change>) {
    match change {
        Some(change) => show_done(rt, routes.change(rt.alloc(), change)),
        None => {
            let _shown = println!(rt; "no change");
        }
    }
}

fn show_found(rt: &HostRuntime, found: Result<Option<Row>, NoMemory>) {
    match found {
        Ok(Some(row)) => {
            show_row(rt, &row);
            drop(row);
        }
        Ok(None) => show_text(rt, b"none"),
        Err(_) => show_text(rt, b"no memory"),
    }
}

fn show_bytes(rt: &HostRuntime, found: Result<Option<Bytes>, NoMemory>) {
    match found {
        Ok(Some(bytes)) => {
            show_text(rt, bytes.as_slice());
            drop(bytes);
        }
        Ok(None) => show_text(rt, b"none"),
        Err(_) => show_text(rt, b"no memory"),
    }
}

fn show_names_of(rt: &HostRuntime, rows: &[Row]) {
    let _shown = println!(rt; "{} rows", rows.len());
    for row in rows {
        let _shown = println!(rt; "    {}", row.name.as_str());
    }
}

fn show_names(rt: &HostRuntime, routes: &mut TableRoutes) {
    if let Ok(rows) = routes.list(rt.alloc()) {
        show_names_of(rt, rows.as_slice());
        drop(rows);
    }
}

/// Makes a call, and shows what comes of it. The case is the call, a version and a group, a dash for the core group, and after
/// those of a patch the patch.
pub fn show_call(rt: &HostRuntime, routes: &mut TableRoutes, row: &str) {
    let alloc = rt.alloc();
    let (call, rest) = fields(row);
    let (version, group) = fields(rest);
    let group = group.trim_start_matches('-');
    match call {
        "find" => show_found(rt, routes.find(alloc, group, version)),
        "has" => {
            let _shown = println!(rt; "{}", routes.has(group, version));
        }
        "object" => show_bytes(
            rt,
            routes.object(alloc, name_of(alloc, version, group).as_str()),
        ),
        "names" => show_names(rt, routes),
        "seen" => {
            let _shown = println!(rt; "{}", routes.seen_count());
        }
        "services" => show_bytes(rt, routes.service_list(alloc).map(Some)),
        "groups" => show_bytes(rt, routes.group_list(alloc).map(Some)),
        "group" => show_bytes(rt, routes.group(alloc, group)),
        _ => show_change(rt, routes, change_of(alloc, call, version, group)),
    }
}
