use case_rows::fields;
use front_base::Info;
use request_info::{asks_else, audit_info, info, long_running, selected_name};
use std::io;

/// What a request asks for, by a row of its method and its target.
pub fn show_asked(rt: &HostRuntime, row: &str) -> io::Result<()> {
    let (method, target) = fields(row);
    let asked = info(rt.alloc(), method, target);
    let shown = println!(rt; "{row} => {asked:?}");
    drop(asked);
    shown
}

fn show_info(rt: &HostRuntime, row: &str, info: &Info) -> io::Result<()> {
    if long_running(info) {
        return println!(rt; "{row} => long {info:?}");
    }
    println!(rt; "{row} => short {info:?}")
}

/// What is recorded of a request, and whether it may run for long.
pub fn show_recorded(rt: &HostRuntime, row: &str) -> io::Result<()> {
    let (method, target) = fields(row);
    match audit_info(rt.alloc(), method, target) {
        Ok(info) => {
            let shown = show_info(rt, row, &info);
            drop(info);
            shown
        }
        Err(_) => println!(rt; "{row} => no memory"),
    }
}

/// Which one object a target's query selects by its name, and whether it asks for less in another way.
pub fn show_selected(rt: &HostRuntime, row: &str) -> io::Result<()> {
    let name = selected_name(rt.alloc(), row);
    let other = asks_else(rt.alloc(), row);
    let shown = println!(rt; "{row} => {name:?} {other:?}");
    drop(name);
    shown
}
