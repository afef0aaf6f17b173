// What is wrong with words that are no command line.
ghost use Rattle.std.specs.Prelude.{◌<◌, IfOk, IfSome};

use crate::asked::is_command;
use crate::given::short_number;
use crate::spelling::behind_dashes;
use crate::table::{ValueKind, excluded_by, kind_of, options_for, required_by, sink_of};
use front_base::cut_at;

// No command has more options.
const MOST_OPTIONS: usize = 32;

/// Why a word can't stand where it stands.
#[derive(Clone, Copy, Debug, PartialEq, Eq)]
pub enum WordFault {
    /// There is no word at all.
    NoCommand,
    /// No command has that name.
    UnknownCommand,
    /// It is neither an option nor the value of one.
    NotOption,
    /// No option has that name.
    UnknownOption,
    /// The option has no value, or one that must stand in the option's own word.
    NoValue,
    /// The option was given before.
    Twice,
    /// The option is a flag, and a value is given.
    HasValue,
    /// The option's value isn't a number that fits 64 bits.
    NotNumber,
    /// The option's value is no mode of a sink.
    NotMode,
    /// The option is the mode of a sink that isn't named.
    NoSink,
    /// The option can't stand beside another one that is given: `excluded_by` names it.
    Excluded,
    /// The command can't be without an option that isn't given: `required_by` names it.
    Lacking,
}

/// The place of a word, from 0, and what is wrong with it.
#[derive(Clone, Copy, Debug, PartialEq, Eq)]
pub struct BadWord {
    pub place: usize,
    pub fault: WordFault,
}

// The place of an option among those of its command.
fn place_of(known: &[&str], name: &str) -> Option<usize> {
    known.iter().position(|own| *own == name)
}

fn is_mode(text: &str) -> bool {
    matches!(text, "batch" | "blocking" | "blocking-strict")
}

// The fault of the value of an option of that name, if it has one.
fn value_fault(name: &str, value: &str) -> Option<WordFault> {
    match kind_of(name) {
        ValueKind::Flag => Some(WordFault::HasValue),
        _ if value.is_empty() => Some(WordFault::NoValue),
        ValueKind::Number if short_number(value).is_none() => Some(WordFault::NotNumber),
        ValueKind::Mode if !is_mode(value) => Some(WordFault::NotMode),
        _ => None,
    }
}

// The fault of the second word of an option.
fn apart_fault(name: &str, value: &str) -> Option<WordFault> {
    if value.starts_with('-') {
        return Some(WordFault::NoValue);
    }
    value_fault(name, value)
}

// The options of a command that were given, each by the place of its word.
#[derive(Drop)]
struct Seen<'k> {
    known: &'k [&'static str],
    places: [Option<usize>; MOST_OPTIONS],
}

impl<'k> Seen<'k> {
    // Notes that the option of that name begins at a place, or tells why it can't.
    fn note(&mut self, name: &str, place: usize) -> Option<WordFault> {
        let Some(option) = place_of(self.known, name) else {
            return Some(WordFault::UnknownOption);
        };
        match self.places.get_mut(option) {
            Some(Some(_)) => Some(WordFault::Twice),
            Some(free) => {
                *free = Some(place);
                None
            }
            None => Some(WordFault::UnknownOption),
        }
    }

    fn place(&self, name: &str) -> Option<usize> {
        let option = place_of(self.known, name)?;
        *self.places.get(option)?
    }

    // The word of the first mode whose sink isn't named.
    fn mode_alone(&self) -> Option<usize> {
        for name in self.known {
            if let (Some(sink), Some(place)) = (sink_of(name), self.place(name)) {
                if self.place(sink).is_none() {
                    return Some(place);
                }
            }
        }
        None
    }

    // The word of the first option that can't stand beside another one that is given.
    fn excluded(&self) -> Option<usize> {
        for name in self.known {
            if let (Some(other), Some(place)) = (excluded_by(name), self.place(name)) {
                if self.place(other).is_some() {
                    return Some(place);
                }
            }
        }
        None
    }
}

// The name of the option that begins with this word, where it waits for its value, or its fault.
fn begun<'w>(
    seen: &mut Seen<'_>,
    place: usize,
    word: &'w str,
) -> Result<Option<&'w str>, WordFault> {
    let Some(text) = behind_dashes(word) else {
        return Err(WordFault::NotOption);
    };
    let (name, value) = match cut_at(text, '=') {
        Some((name, value)) => (name, Some(value)),
        None => (text, None),
    };
    if let Some(fault) = seen.note(name, place) {
        return Err(fault);
    }
    let Some(value) = value else {
        return Ok(match kind_of(name) {
            ValueKind::Flag => None,
            _ => Some(name),
        });
    };
    match value_fault(name, value) {
        None => Ok(None),
        Some(fault) => Err(fault),
    }
}

// What is wrong with the options that were given as a whole: the sink of a mode is missing, two of them can't stand beside one another,
// or one is missing that the command can't be without.
fn lack(command: &str, seen: &Seen<'_>) -> Option<BadWord> {
    if let Some(place) = seen.mode_alone() {
        return Some(BadWord {
            place,
            fault: WordFault::NoSink,
        });
    }
    if let Some(place) = seen.excluded() {
        return Some(BadWord {
            place,
            fault: WordFault::Excluded,
        });
    }
    if seen.place(required_by(command)?).is_some() {
        return None;
    }
    Some(BadWord {
        place: 0,
        fault: WordFault::Lacking,
    })
}

// The first fault of the words after the command's.
fn option_fault(command: &str, words: &[String]) -> Option<BadWord> {
    let mut seen = Seen {
        known: options_for(command),
        places: [None; MOST_OPTIONS],
    };
    let mut waits: Option<(usize, &str)> = None;
    for (place, word) in words.iter().enumerate() {
        if place == 0 {
            continue;
        }
        waits = match waits {
            Some((own, name)) => match apart_fault(name, word.as_str()) {
                Some(fault) => return Some(BadWord { place: own, fault }),
                None => None,
            },
            None => match begun(&mut seen, place, word.as_str()) {
                Ok(name) => name.map(|name| (place, name)),
                Err(fault) => return Some(BadWord { place, fault }),
            },
        };
    }
    match waits {
        Some((place, _)) => Some(BadWord {
            place,
            fault: WordFault::NoValue,
        }),
        None => lack(command, &seen),
    }
}

// The word that `help` can't have: one that names no command, or one after the command's.
fn help_fault(words: &[String]) -> BadWord {
    match words {
        [_, command, _, ..] if is_command(command.as_str()) => BadWord {
            place: 2,
            fault: WordFault::NotOption,
        },
        _ => BadWord {
            place: 1,
            fault: WordFault::UnknownCommand,
        },
    }
}

/// The first word that makes words no command line of that command, and what is wrong with it. A mode whose sink isn't
/// named is told after all others, then an option that can't stand beside another one, and then an option that is missing, of the
/// command's word. Of words that are a command line it says `UnknownCommand`, as of another command's word.
/// After `help`, the first word that names no command is told, or else the one after the command's.
pub fn bad_word(command: &str, words: &[String]) -> BadWord {
    let fault = match words {
        [] => WordFault::NoCommand,
        [word, _, ..] if word.as_str() == "help" => return help_fault(words),
        [word, ..] if word.as_str() != command => WordFault::UnknownCommand,
        _ => match option_fault(command, words) {
            Some(bad) => return bad,
            None => WordFault::UnknownCommand,
        },
    };
    BadWord { place: 0, fault }
}
