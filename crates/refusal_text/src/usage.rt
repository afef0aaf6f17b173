// What is wrong with words that are no command line.
use command_options::{
    BadWord, WordFault, command_with, excluded_by, options_for, ranged_named, required_by, sink_of,
};
use std::alloc::{AllocError, Global};
use strsim::levenshtein;

const PROGRAM_HELP: &str = "Try 'apiaggd --help'.";

// The help that tells the options of the command of that name.
fn help_on(command: &str) -> &'static str {
    match command {
        "explain" => "Try 'apiaggd explain --help'.",
        "check" => "Try 'apiaggd check --help'.",
        "serve" => "Try 'apiaggd serve --help'.",
        "ship" => "Try 'apiaggd ship --help'.",
        "resources" => "Try 'apiaggd resources --help'.",
        "probe" => "Try 'apiaggd probe --help'.",
        "rehearse" => "Try 'apiaggd rehearse --help'.",
        _ => PROGRAM_HELP,
    }
}

// Whether the command of that name reads standard input.
fn reads_input(command: &str) -> bool {
    matches!(command, "explain" | "check" | "ship")
}

// The help that fits a fault of these words.
fn help_for(words: &[String], fault: WordFault) -> &'static str {
    match fault {
        WordFault::NoCommand | WordFault::UnknownCommand => PROGRAM_HELP,
        _ => match words {
            [command, ..] => help_on(command.as_str()),
            [] => PROGRAM_HELP,
        },
    }
}

// Whether a name is near a known one: the start of it, or at most a third of it away in edits.
fn is_near(alloc: Global, name: &str, known: &str) -> Result<bool, AllocError> {
    if name.len() > 2 && known.starts_with(name) {
        return Ok(true);
    }
    if name.len() > 64 {
        return Ok(false);
    }
    Ok(levenshtein(alloc, name, known)? <= known.len() / 3)
}

// A known option near that name, of the command that the first word names.
fn near_option(
    alloc: Global,
    words: &[String],
    name: &str,
) -> Result<Option<&'static str>, AllocError> {
    let [command, ..] = words else {
        return Ok(None);
    };
    for known in options_for(command.as_str()) {
        if is_near(alloc, name, known)? {
            return Ok(Some(*known));
        }
    }
    Ok(None)
}

// The option of a word, with its dashes and without a value.
fn option_in(word: &str) -> &str {
    match word.split_once('=') {
        Some((option, _)) => option,
        None => word,
    }
}

// The command that has this option, with its dashes.
fn owner_of(option: &str) -> Option<&'static str> {
    command_with(option.strip_prefix("--")?)
}

// An option that the command hasn't: it is another command's, or near a known one, or neither.
fn unknown_option(alloc: Global, words: &[String], option: &str) -> Result<String, AllocError> {
    if let Some(command) = owner_of(option) {
        return format!(in alloc; "{option}: an option of {command}");
    }
    let name = option.trim_start_matches('-');
    match near_option(alloc, words, name)? {
        Some(known) => format!(in alloc; "{option}: unknown option; did you mean --{known}?"),
        None => format!(in alloc; "{option}: unknown option"),
    }
}

fn not_number(alloc: Global, option: &str) -> Result<String, AllocError> {
    match ranged_named(option.trim_start_matches('-')) {
        Some(own) => {
            let least = own.least();
            let most = own.most();
            format!(in alloc; "{option}: not a whole number from {least} to {most}")
        }
        None => format!(in alloc; "{option}: not a whole number"),
    }
}

// The mode of a sink that isn't named.
fn no_sink(alloc: Global, option: &str) -> Result<String, AllocError> {
    match sink_of(option.trim_start_matches('-')) {
        Some(sink) => format!(in alloc; "{option}: needs --{sink}"),
        None => format!(in alloc; "{option}: needs its sink"),
    }
}

// An option beside another one that it can't stand beside.
fn excluded(alloc: Global, option: &str) -> Result<String, AllocError> {
    match excluded_by(option.trim_start_matches('-')) {
        Some(other) => format!(in alloc; "{option}: not beside --{other}"),
        None => format!(in alloc; "{option}: not beside another option"),
    }
}

// A word that is no option and no value. Who writes a file's name there is told that it is read from standard input.
fn not_option(alloc: Global, words: &[String], word: &str) -> Result<String, AllocError> {
    match words {
        [command, ..] if reads_input(command.as_str()) && !word.starts_with('-') => {
            let command = command.as_str();
            format!(in alloc; "{word:?}: not an option; {command} reads standard input")
        }
        _ => format!(in alloc; "{word:?}: not an option"),
    }
}

// A command without an option that it can't be without.
fn lacking(alloc: Global, command: &str) -> Result<String, AllocError> {
    match required_by(command) {
        Some(option) => format!(in alloc; "{command}: needs --{option}"),
        None => format!(in alloc; "{command}: needs an option"),
    }
}

// What asks for help or the version, and stands beside no other word.
fn stands_alone(option: &str) -> bool {
    matches!(option, "--help" | "-h" | "--version")
}

fn fault_line(
    alloc: Global,
    words: &[String],
    word: &str,
    fault: WordFault,
) -> Result<String, AllocError> {
    let option = option_in(word);
    if stands_alone(option) {
        return format!(in alloc; "{option} stands alone");
    }
    match fault {
        WordFault::NoCommand => String::from_str(alloc, "no command"),
        WordFault::UnknownCommand => format!(in alloc; "{word:?}: unknown command"),
        WordFault::NotOption => not_option(alloc, words, word),
        WordFault::UnknownOption => unknown_option(alloc, words, option),
        WordFault::NoValue => format!(in alloc; "{option}: no value"),
        WordFault::HasValue => format!(in alloc; "{option}: takes no value"),
        WordFault::Twice => format!(in alloc; "{option}: given twice"),
        WordFault::NotNumber => not_number(alloc, option),
        WordFault::NotMode => format!(in alloc; "{option}: not batch, blocking or blocking-strict"),
        WordFault::NoSink => no_sink(alloc, option),
        WordFault::Excluded => excluded(alloc, option),
        WordFault::Lacking => lacking(alloc, word),
    }
}

/// The line for a bad word of these, which ends with the help that tells more.
pub fn usage_line(alloc: Global, words: &[String], bad: &BadWord) -> Result<String, AllocError> {
    let word = match words.get(bad.place) {
        Some(word) => word.as_str(),
        None => "",
    };
    let mut line = fault_line(alloc, words, word, bad.fault)?;
    let stop = if line.ends_with('?') { " " } else { ". " };
    line.push_str(stop)?;
    line.push_str(help_for(words, bad.fault))?;
    Ok(line)
}
