// The line that tells of a condition that was to change.
ghost use Rattle.std.specs.Prelude.{◌≡◌, ◌≤◌, IfErr, IfOk, OnOk, string_bytes};
ghost use Rattle.std.specs.Io.KnownBytes.{Appends};
ghost use Rattle.probe_rounds.specs.Rounds as spec;
ghost use Rattle.probe_rounds.specs.Standing.{WritesFront, out_tells};

use crate::stop::ProbeStop;
use front_ports::{ByteSink, write_all};
use std::alloc::{AllocError, Global};

fn word_of(up: bool) -> &'static str
    ensures { result.now ≡ spec.word_of up }
{
    if up { "up" } else { "down" }
}

#[tactic(auto, unfolding(crate::specs::Rounds::line))]
fn line_text(
    alloc: Global,
    round: u32,
    name: &str,
    up: bool,
    answer: Option<u16>,
) -> Result<String, AllocError>
    ensures { IfOk result (λ text. string_bytes text ≡ spec.line round name.now up answer) }
{
    let word = word_of(up);
    match answer {
        Some(status) => format!(in alloc; "{round} {name} {word} {status}\n"),
        None => format!(in alloc; "{round} {name} {word} none\n"),
    }
}

/// Writes the line of a condition that was told in a round, and what was answered.
pub fn write_line<O: ByteSink>(
    alloc: Global,
    round: u32,
    name: &str,
    up: bool,
    answer: Option<u16>,
    out: &mut O,
) -> Result<(), ProbeStop>
    ensures ok { OnOk result (Appends (O.written out.old) (O.written out.new) (spec.line round name.now up answer)) }
    ensures sound { OnOk result (O.write_faults out.new ≡ O.write_faults out.old) }
    ensures err { IfErr result (λ stop. WritesFront (spec.line round name.now up answer) stop
        (out_tells (O.written out.old) (O.write_faults out.old)) (out_tells (O.written out.new) (O.write_faults out.new))) }
    ensures later { O.write_faults out.old ≤ O.write_faults out.new }
{
    match line_text(alloc, round, name, up, answer) {
        Ok(text) => match write_all(out, text.as_bytes()) {
            Ok(()) => Ok(()),
            Err(_) => Err(ProbeStop::WriteFault),
        },
        Err(_) => Err(ProbeStop::NoMemory),
    }
}
