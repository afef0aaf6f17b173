// A value, a patch and the value after it, as compact texts whose names stand in the order of their bytes.
use case_rows::fields;
use json_patch::merge_patch;
use json_value::read_value;
use std::alloc::Global;
use std::io;

// The text of the target after the patch, where both are JSON texts.
fn patched(alloc: Global, target: &str, patch: &str) -> Option<String> {
    let target = read_value(alloc, target.as_bytes()).ok()?;
    let patch = read_value(alloc, patch.as_bytes()).ok()?;
    let value = merge_patch(alloc, target, patch).ok()?;
    value.to_string(alloc).ok()
}

/// Shows a case of merge patches of values.
pub fn show_merge(rt: &HostRuntime, row: &str) -> io::Result<()> {
    let (target, patch) = fields(row);
    match patched(rt.alloc(), target, patch) {
        Some(text) => println!(rt; "{row} => {}", text.as_str()),
        None => println!(rt; "{row} => none"),
    }
}
