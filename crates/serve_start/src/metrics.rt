// The file that metrics are written to.
use metrics_text::metrics_text;
use serve_report::{RunShape, run_counts};
use std::alloc::Global;
use std::fs::File;
use std::io::Write;
use std::{fs, io, rt};
use tcp_plant::TcpGate;

// Writes a file anew, by one beside it: whoever reads it finds all of the old text or all of the new.
fn replace<R: rt::Files<File = File>>(
    rt: &R,
    alloc: Global,
    path: &str,
    text: &str,
) -> io::Result<()> {
    let beside = format!(in alloc; "{path}.tmp")?;
    let mut file = File::create(rt, beside.as_str())?;
    file.write_all(text.as_bytes())?;
    drop(file);
    fs::rename(rt, beside.as_str(), path)
}

/// Writes what is counted of a run of this shape to this file.
pub(crate) fn write_metrics<R: rt::Files<File = File>>(
    rt: &R,
    alloc: Global,
    path: &str,
    shape: RunShape,
    gate: &TcpGate,
) -> io::Result<()> {
    let text = metrics_text(alloc, run_counts(shape, gate))?;
    replace(rt, alloc, path, text.as_str())
}
