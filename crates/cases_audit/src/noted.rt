ghost use Rattle.std.specs.Prelude.{◌≡◌};

use crate::fixtures::{field, line_of, word};
use front_base::Line;
use std::io;
use truncate_backend::{MemNotes, Notes, TryAnswer, TryNote};

fn note() -> TryNote
    ensures { result.lines ≡ 1 }
{
    TryNote {
        lines: 1,
        sent: 3,
        answer: TryAnswer::Done,
    }
}

// Notes a try of this line, where there is room.
fn noted(notes: &mut MemNotes, line: &Line) -> bool {
    let lines = std::slice::from_ref(line);
    let free = notes.free(lines);
    if free {
        notes.note(lines, note());
    }
    free
}

fn show_try(rt: &HostRuntime, notes: &mut MemNotes, text: &str) -> io::Result<()> {
    let line = line_of(rt.alloc(), word(text, 0));
    let word = if noted(notes, &line) {
        "noted"
    } else {
        "no room"
    };
    drop(line);
    println!(rt; "  {text}: {word}")
}

fn show_tries(rt: &HostRuntime, row: &str, notes: &mut MemNotes) -> io::Result<()> {
    for text in row.split(" | ").skip(1) {
        show_try(rt, notes, text)?;
    }
    println!(rt; "  {:?}", notes.notes())
}

/// What there is room to note. A row has the room for tries, lines and bytes, and the lines of the tries, one a try.
pub fn show_notes(rt: &HostRuntime, row: &str) -> io::Result<()> {
    let room = field(row, 0);
    let tries = word(room, 0).parse().unwrap_or(0);
    let lines = word(room, 1).parse().unwrap_or(0);
    let bytes = word(room, 2).parse().unwrap_or(0);
    match MemNotes::new(rt.alloc(), tries, lines, bytes) {
        Ok(mut notes) => {
            let shown = show_tries(rt, row, &mut notes);
            drop(notes);
            shown
        }
        Err(_) => println!(rt; "  out of memory"),
    }
}
