// The text of a summary.
use crate::counts::{Counts, MOST_ROWS, Row};
use crate::summary::{Classes, Levels, Summary};
use front_base::NoMemory;
use std::alloc::Global;

/// The word of the row of what has no row of its own.
const OTHERS: &str = "others";

// A name that a terminal shows as it is, and that is no word of the table itself.
fn is_plain(name: &str) -> bool {
    !name.is_empty()
        && name != OTHERS
        && name
            .bytes()
            .all(|byte| byte.is_ascii_graphic() && byte != b'"')
}

// A row, unless nothing was counted.
fn push_row(text: &mut String, count: u64, name: &str) -> Result<(), NoMemory> {
    if count != 0 {
        write!(text, "{count:>10}  {name}\n")?;
    }
    Ok(())
}

// A row of a name that came from a log: between quotation marks and with escapes, unless it is plain.
fn push_named(text: &mut String, row: Row<'_>) -> Result<(), NoMemory> {
    let (count, name) = (row.count, row.name);
    if is_plain(name) {
        write!(text, "{count:>10}  {name}\n")?;
    } else {
        write!(text, "{count:>10}  {name:?}\n")?;
    }
    Ok(())
}

// A table of those names that have the most requests, and of all the others together.
fn push_counts(text: &mut String, title: &str, counts: &Counts) -> Result<(), NoMemory> {
    if counts.total() == 0 {
        return Ok(());
    }
    write!(text, "\n{title}\n")?;
    let mut others = counts.total();
    let mut last = None;
    for _ in 0..MOST_ROWS {
        let Some(row) = counts.row_after(last) else {
            break;
        };
        push_named(text, row)?;
        others = others.saturating_sub(row.count);
        last = Some(row);
    }
    push_row(text, others, OTHERS)
}

fn push_levels(text: &mut String, levels: &Levels) -> Result<(), NoMemory> {
    text.push_str("\nrequests by level\n")?;
    push_row(text, levels.metadata, "Metadata")?;
    push_row(text, levels.request, "Request")?;
    push_row(text, levels.request_response, "RequestResponse")
}

fn push_classes(text: &mut String, classes: &Classes) -> Result<(), NoMemory> {
    text.push_str("\nrequests by status\n")?;
    push_row(text, classes.informational, "1xx")?;
    push_row(text, classes.success, "2xx")?;
    push_row(text, classes.redirect, "3xx")?;
    push_row(text, classes.client_error, "4xx")?;
    push_row(text, classes.server_error, "5xx")?;
    push_row(text, classes.others, OTHERS)
}

impl Summary {
    /// A table for people: how many lines and requests there are, and the requests by level, verb, status, user and resource, most requests
    /// first. Rows without a request are left out. There is nothing to tell of a log without lines.
    pub fn text(&self, alloc: Global) -> Result<String, NoMemory> {
        let mut text = String::new(alloc);
        if self.requests == 0 {
            return Ok(text);
        }
        self.push_heads(&mut text)?;
        push_levels(&mut text, &self.levels)?;
        push_counts(&mut text, "requests by verb", &self.verbs)?;
        if self.complete != 0 {
            push_classes(&mut text, &self.classes)?;
        }
        push_counts(&mut text, "requests by user", &self.users)?;
        push_counts(&mut text, "requests by resource", &self.resources)?;
        Ok(text)
    }

    fn push_heads(&self, text: &mut String) -> Result<(), NoMemory> {
        let unfinished = self.requests.saturating_sub(self.complete);
        text.push_str("\n")?;
        push_row(text, self.lines, "lines")?;
        push_row(text, self.requests, "requests")?;
        push_row(text, unfinished, "requests without ResponseComplete")?;
        push_row(text, self.without_object, "requests for no resource")
    }
}
