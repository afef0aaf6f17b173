// Accept headers, ages, and what the columns Service and Available say of an object.
use apiservice_columns::{asks_for_table, available_cell, duration_text, service_cell};
use apiservice_rows::read_row;
use front_base::number_of;
use json_value::read_value;
use std::alloc::Global;
use std::io;

fn age_of(alloc: Global, row: &str) -> Option<String> {
    duration_text(alloc, number_of(row.as_bytes())?).ok()
}

fn show_age(rt: &HostRuntime, row: &str) -> io::Result<()> {
    match age_of(rt.alloc(), row) {
        Some(text) => println!(rt; "{row} => {}", text.as_str()),
        None => println!(rt; "{row} => none"),
    }
}

fn service_of(alloc: Global, row: &str) -> Option<String> {
    let row = read_row(alloc, row.as_bytes()).ok()?;
    service_cell(alloc, &row.service).ok()
}

fn available_of(alloc: Global, text: &str) -> Option<String> {
    let row = read_row(alloc, text.as_bytes()).ok()?;
    let value = read_value(alloc, text.as_bytes()).ok()?;
    available_cell(alloc, &row.service, &value).ok()
}

fn show_object(rt: &HostRuntime, row: &str) -> io::Result<()> {
    match (service_of(rt.alloc(), row), available_of(rt.alloc(), row)) {
        (Some(service), Some(available)) => {
            println!(rt; "{row} => {}, {}", service.as_str(), available.as_str())
        }
        _ => println!(rt; "{row} => none"),
    }
}

/// Shows a case of Accept headers, of ages or of objects.
pub fn show_column(rt: &HostRuntime, matter: &str, row: &str) -> io::Result<()> {
    match matter {
        "accepts.txt" => println!(rt; "{row} => {}", asks_for_table(row.as_bytes())),
        "durations.txt" => show_age(rt, row),
        _ => show_object(rt, row),
    }
}
