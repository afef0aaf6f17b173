// What follows the answer of a log that conforms, where a summary is asked for.
ghost use Rattle.std.specs.Prelude.{◌≡◌, ◌≤◌, false, map, string_bytes};
ghost use Rattle.check_command.specs.Run.{Run};
ghost use Rattle.check_command.specs.Summed as spec;
ghost use Rattle.check_command.specs.Words.{asks_summary};
ghost use Rattle.front_ports.specs.FileMap.{KeepsFiles};
ghost use Rattle.command_ends.specs.Ports.{files_port, port};

use crate::run::{CheckEnded, run_check, why_of};
use command_ends::Status;
use command_options::has_flag;
use command_options::names::SUMMARY;
use front_ports::{ByteSink, Files, Source, write_all};
use log_summary::{NoWatch, Summary};
use std::alloc::Global;

// Writes a summary.
fn write_summary<O: ByteSink>(alloc: Global, summary: &Summary, out: &mut O) -> Status
    ensures adds { spec.AddsSummary
        (port (O.written out.old) (O.write_faults out.old) (O.written out.new) (O.write_faults out.new)) result }
    ensures later { O.write_faults out.old ≤ O.write_faults out.new }
{
    let Ok(text) = summary.text(alloc) else {
        return Status::NoMemory;
    };
    match write_all(out, text.as_bytes()) {
        Ok(()) => Status::Done,
        Err(_) => Status::WriteFault,
    }
}

// Adds a summary to the answer of a log that conforms.
fn follow<O: ByteSink>(
    alloc: Global,
    ended: CheckEnded,
    summary: &Summary,
    out: &mut O,
) -> CheckEnded
    ensures follows { spec.Follows ended.status ended.why
        (port (O.written out.old) (O.write_faults out.old) (O.written out.new) (O.write_faults out.new)) result.status result.why }
    ensures same { result.checked ≡ ended.checked }
    ensures later { O.write_faults out.old ≤ O.write_faults out.new }
{
    match ended.status {
        Status::Done => {
            let status = write_summary(alloc, summary, out);
            CheckEnded {
                status,
                why: why_of(status),
                checked: ended.checked,
            }
        }
        _ => ended,
    }
}

/// `run_check`, and where its words ask for it with `--summary`, a summary of a log that conforms below its answer. No clause says what a
/// summary holds. The status is then `WriteFault` where the summary could not be written, and `NoMemory` where there was none for it.
pub fn run_summed<F: Files, S: Source, O: ByteSink>(
    alloc: Global,
    words: &Vec<String>,
    files: &mut F,
    input: &mut S,
    out: &mut O,
) -> CheckEnded
    // Without the flag it is the run.
    ensures alone { asks_summary (map string_bytes words.now.items) ≡ false → Run (map string_bytes words.now.items)
        (files_port (F.files files.old) (F.failed files.old) (F.faults files.old)
        (F.files files.new) (F.failed files.new) (F.faults files.new))
        (port (S.left input.old) (S.read_faults input.old) (S.left input.new) (S.read_faults input.new))
        (port (O.written out.old) (O.write_faults out.old) (O.written out.new) (O.write_faults out.new))
        result.status result.why result.checked }
    ensures run { spec.RunSummed (map string_bytes words.now.items)
        (files_port (F.files files.old) (F.failed files.old) (F.faults files.old)
        (F.files files.new) (F.failed files.new) (F.faults files.new))
        (port (S.left input.old) (S.read_faults input.old) (S.left input.new) (S.read_faults input.new))
        (port (O.written out.old) (O.write_faults out.old) (O.written out.new) (O.write_faults out.new))
        result.status result.why result.checked }
    ensures kept { KeepsFiles (F.files files.old) (F.files files.new) }
    ensures files_later { F.faults files.old ≤ F.faults files.new }
    ensures read_later { S.read_faults input.old ≤ S.read_faults input.new }
    ensures write_later { O.write_faults out.old ≤ O.write_faults out.new }
{
    if !has_flag(SUMMARY, words.as_slice()) {
        return run_check(alloc, words, files, input, out, &mut NoWatch);
    }
    let mut summary = Summary::new(alloc);
    let ended = run_check(alloc, words, files, input, out, &mut summary);
    let ended = follow(alloc, ended, &summary, out);
    drop(summary);
    ended
}
