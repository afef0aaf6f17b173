// What cases are made of. A text that memory refuses comes out empty, and so the answer is a wrong one.
use apiservice_rows::read_rows;
use apiservice_table::{RouteTable, TableRoutes, read_rows_fit};
use std::alloc::Global;

/// An APIService without a service, as it is served.
pub fn object(alloc: Global, version: &str, group: &str) -> String {
    let head =
        r#"{"apiVersion":"apiregistration.k8s.io/v1","kind":"APIService","metadata":{"name":""#;
    let made = format!(in alloc;
        "{head}{version}.{group}\"}},\"spec\":{{\"group\":\"{group}\",\"groupPriorityMinimum\":100,\
         \"version\":\"{version}\",\"versionPriority\":10}}}}"
    );
    match made {
        Ok(text) => text,
        Err(_) => String::new(alloc),
    }
}

fn push(text: &mut String, more: &str) {
    let _pushed = text.push_str(more);
}

/// A list of so many objects, of the groups `g0`, `g1` and so on, each with this end, and of one of the last group.
pub fn list(alloc: Global, count: u32, end: &str, last: &str) -> String {
    let mut text = String::new(alloc);
    push(&mut text, r#"{"apiVersion":"v1","kind":"List","items":["#);
    for i in 0..count {
        if let Ok(group) = format!(in alloc; "g{i}{end}") {
            push(&mut text, &object(alloc, "v1", &group));
        }
        push(&mut text, ",");
    }
    push(&mut text, &object(alloc, "v1", last));
    push(&mut text, "]}");
    text
}

// The table of a list, or None where memory refuses it.
fn table_of(alloc: Global, list: &str) -> Option<TableRoutes> {
    read_rows_fit();
    let rows = read_rows(alloc, list.as_bytes()).ok()?;
    TableRoutes::new(alloc, RouteTable::from_rows(alloc, rows).ok()?).ok()
}

/// The table that the cases of a file begin with: one as full as a table may be, of the groups `g0` to `g1023`, or an empty
/// one.
pub fn table_for(alloc: Global, file: &str) -> Option<TableRoutes> {
    match file {
        "full-table.txt" => table_of(alloc, &list(alloc, 1023, "", "g1023")),
        _ => table_of(alloc, r#"{"apiVersion":"v1","kind":"List","items":[]}"#),
    }
}
