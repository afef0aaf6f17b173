use std::{fs, io};

/// The text of a file of cases, which lies in the folder that the program runs in.
pub fn read_cases(rt: &HostRuntime, name: &str) -> io::Result<String> {
    fs::read_to_string(rt, name)
}

/// Whether a line says what the cases after it show.
pub fn is_comment(line: &str) -> bool {
    line.starts_with('#')
}

/// Whether a line is a case.
pub fn is_row(line: &str) -> bool {
    !line.is_empty() && !is_comment(line)
}

/// The first field of a row, and the rest of the row.
pub fn fields(row: &str) -> (&str, &str) {
    match row.split_once(" | ") {
        Some(parts) => parts,
        None => (row, ""),
    }
}
