// The flag of a command, which is handed on as an option that has a value.
ghost use Rattle.std.specs.Prelude.{◌≡◌, IfOk, map, string_bytes};
ghost use Rattle.std.specs.List.{list_any};
ghost use Rattle.command_options.specs.Flag as spec;
ghost use Rattle.command_options.specs.Options as options;

use crate::fault::WordsFault;
use crate::spelling::behind_dashes;
use front_base::{NoMemory, cut_at};
use std::alloc::{AllocError, Global};

fn gives_value(flag: &str, word: &str) -> bool
    ensures { result ≡ spec.gives_value flag.now word.now }
{
    match behind_dashes(word) {
        Some(text) => match cut_at(text, '=') {
            Some((name, _)) => name == flag,
            None => false,
        },
        None => false,
    }
}

// Some word gives the flag a value.
fn has_flag_value(flag: &str, words: &[String]) -> bool
    ensures { result ≡ list_any (spec.gives_value flag.now) (map string_bytes words.now) }
{
    for word in words {
        if gives_value(flag, word.as_str()) {
            return true;
        }
    }
    false
}

fn is_flag(flag: &str, word: &str) -> bool
    ensures { result ≡ spec.is_flag flag.now word.now }
{
    match behind_dashes(word) {
        Some(text) => text == flag,
        None => false,
    }
}

fn as_option(alloc: Global, flag: &str, word: &str) -> Result<String, AllocError>
    ensures { IfOk result (λ own. string_bytes own ≡ spec.as_option flag.now word.now) }
{
    if is_flag(flag, word) {
        format!(in alloc; "{word}=true")
    } else {
        String::from_str(alloc, word)
    }
}

/// Whether some word is the flag of this name.
pub fn has_flag(flag: &str, words: &[String]) -> bool
    ensures { result ≡ list_any (spec.is_flag flag.now) (map string_bytes words.now) }
{
    for word in words {
        if is_flag(flag, word.as_str()) {
            return true;
        }
    }
    false
}

// The words, where the flag is an option in one word.
fn as_options(alloc: Global, flag: &str, words: &[String]) -> Result<Vec<String>, NoMemory>
    ensures { IfOk result (λ own. map string_bytes own.items ≡ map (spec.as_option flag.now) (map string_bytes words.now)) }
{
    let mut own = Vec::new(alloc);
    for word in words {
        own.push(as_option(alloc, flag, word.as_str())?)?;
    }
    Ok(own)
}

/// The words of a command that has the flag of this name, where the flag is an option in one word. Words that give the
/// flag a value are no command line.
pub fn with_flag(alloc: Global, flag: &str, words: &[String]) -> Result<Vec<String>, WordsFault>
    ensures { options.Gives (λ own. map string_bytes own.items) result
        (options.with_flag flag.now (map string_bytes words.now)) }
{
    if has_flag_value(flag, words) {
        return Err(WordsFault::Usage);
    }
    Ok(as_options(alloc, flag, words)?)
}
