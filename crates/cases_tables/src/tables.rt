// A moment and APIServices: their Table at that moment. And merge patches of an APIService.
use apiservice_rows::read_rows;
use case_rows::{fields, spelled};
use front_base::{Moment, number_of};
use service_patches::patched_row;
use service_tables::{IncludeObject, include_object, service_table};
use std::alloc::Global;
use std::io;

// What the first field of a row says: a moment, and `includeObject` of the query behind a blank, if it has one.
fn asked(field: &str) -> Option<(Moment, IncludeObject)> {
    let (moment, include) = match field.split_once(' ') {
        Some((moment, include)) => (moment, Some(include)),
        None => (field, None),
    };
    let now = Moment::new(number_of(moment.as_bytes())?)?;
    Some((now, include_object(include)?))
}

fn table_of(alloc: Global, field: &str, objects: &str) -> Option<String> {
    let (now, include) = asked(field)?;
    let rows = read_rows(alloc, objects.as_bytes()).ok()?;
    let text = service_table(alloc, rows.as_slice(), include, now).ok()?;
    Some(spelled(alloc, text.as_slice()))
}

// An APIService that was created at that time.
fn created(alloc: Global, time: &str) -> Option<String> {
    format!(in alloc;
        "{{\"kind\":\"APIService\",\"apiVersion\":\"apiregistration.k8s.io/v1\",\"metadata\":{{\"name\":\"v1.a\",\"creationTimestamp\":{time}}},\"spec\":{{\"group\":\"a\",\"version\":\"v1\",\"groupPriorityMinimum\":1,\"versionPriority\":1}}}}"
    ).ok()
}

fn patched(alloc: Global, object: &str, patch: &str) -> Option<String> {
    let row = patched_row(alloc, "v1.a", object.as_bytes(), patch.as_bytes()).ok()??;
    Some(spelled(alloc, row.object.as_slice()))
}

fn text_of(alloc: Global, matter: &str, row: &str) -> Option<String> {
    let (first, rest) = fields(row);
    match matter {
        "tables.txt" | "objects.txt" => table_of(alloc, first, rest),
        "ages.txt" => table_of(alloc, first, created(alloc, rest)?.as_str()),
        _ => patched(alloc, first, rest),
    }
}

// The part of a Table that its rows are.
fn rows_part(text: &str) -> &str {
    match text.split_once("\"rows\":") {
        Some((_, rows)) => rows,
        None => text,
    }
}

/// Shows a case of Tables, of their rows, of ages in one, or of merge patches of an APIService.
pub fn show_table(rt: &HostRuntime, matter: &str, row: &str) -> io::Result<()> {
    match text_of(rt.alloc(), matter, row) {
        Some(text) if matter == "ages.txt" || matter == "objects.txt" => {
            println!(rt; "{row} => {}", rows_part(text.as_str()))
        }
        Some(text) => println!(rt; "{row} => {}", text.as_str()),
        None => println!(rt; "{row} => none"),
    }
}
