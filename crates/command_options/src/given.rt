// The options of a command, each given once at most, as `clap` reads them.
ghost use Rattle.std.specs.Prelude.{◌≡◌, ◌≢◌, [], IfOk, IfSome, None, false, is_some, map, option_map, string_bytes};
ghost use Rattle.clap.specs.Words.{app_of, fault_of, found_of, matches_of, rows_of, rule_of};
ghost use Rattle.command_options.specs.Parser as parser;
ghost use Rattle.command_options.specs.Spelling.{is_among};
ghost use Rattle.command_options.specs.Options as spec;

use crate::fault::WordsFault;
use crate::spelling::has_doubtful;
use clap::error::ErrorKind;
use clap::{Arg, ArgAction, ArgMatches, Command};
use front_base::{NoMemory, Text, number_of};
use std::alloc::{AllocError, Global};
use std::marker::Model;

/// The options that words give, in the order of the words.
#[derive(Drop)]
pub struct Options<'w> {
    matches: ArgMatches<'w>,
}

impl<'w> Model for Options<'w> {
    ghost use Rattle.std.specs.Prelude.{◌≡◌, List, map};
    ghost use Rattle.clap.specs.Words.{found_of, rows_of};
    ghost use Rattle.command_options.specs.Parser.{given_in, row_for};
    ghost use Rattle.command_options.specs.Spelling.{Named};

    ghost Value = { List Named };

    ghost view = { λ o. given_in (rows_of (found_of o.matches)) };

    ghost invariant = { λ o. rows_of (found_of o.matches)
        ≡ map row_for (given_in (rows_of (found_of o.matches))) };
}

// An option that has one value.
fn option<'n>(alloc: Global, name: &'n str) -> Arg<'n>
    ensures rule { rule_of result ≡ parser.option_rule name.entry.now }
    ensures local { result.global ≡ false }
{
    Arg::new(alloc, name).long(name).action(ArgAction::Set)
}

// A command that has no option.
fn bare<'n>(alloc: Global) -> Command<'n>
    ensures { app_of result ≡ parser.bare }
{
    Command::new(alloc, "apiaggd")
        .no_binary_name(true)
        .disable_help_flag(true)
        .disable_version_flag(true)
}

fn command_with<'n>(alloc: Global, names: &[&'n str]) -> Result<Command<'n>, AllocError>
    ensures { IfOk result (λ command. app_of command ≡ parser.app_with (map (λ own. own.now) names.now)) }
{
    let mut command = bare(alloc);
    for name in names {
        command = command.arg(option(alloc, *name))?;
    }
    Ok(command)
}

// What `clap` finds of options of these names, or that it refuses the words.
fn parse<'w>(
    alloc: Global,
    names: &[&'w str],
    words: &'w [String],
) -> Result<Option<ArgMatches<'w>>, NoMemory>
    ensures taken { IfOk result (λ found. IfSome found (λ _.
        fault_of (parser.app_with (map (λ own. own.now) names.now)) (map string_bytes words.entry.now) ≡ [])) }
    ensures rows { IfOk result (λ found. IfSome found (λ m. rows_of (found_of m)
        ≡ matches_of (parser.app_with (map (λ own. own.now) names.now)) (map string_bytes words.entry.now))) }
    ensures refused { IfOk result (λ found. found ≡ None
        → fault_of (parser.app_with (map (λ own. own.now) names.now)) (map string_bytes words.entry.now) ≢ []) }
{
    match command_with(alloc, names)?.try_get_matches_from(words) {
        Ok(matches) => Ok(Some(matches)),
        Err(error) => match error.kind() {
            ErrorKind::OutOfMemory => Err(NoMemory),
            _ => Ok(None),
        },
    }
}

/// The options of a command that has options of these names, or that the words are no command line. An option has a name.
pub fn given_of<'w>(
    alloc: Global,
    names: &[&'w str],
    words: &'w [String],
) -> Result<Options<'w>, WordsFault>
    requires named { is_among (map (λ own. own.now) names.now) [] ≡ false }
    ensures { spec.Gives (λ v. v) result
        (spec.given_of (map (λ own. own.now) names.now) (map string_bytes words.entry.now)) }
{
    if has_doubtful(words) {
        return Err(WordsFault::Usage);
    }
    match parse(alloc, names, words)? {
        Some(matches) => Ok(Options { matches }),
        None => Err(WordsFault::Usage),
    }
}

/// The value of the option of that name.
pub fn value_of<'w>(name: &str, options: &Options<'w>) -> Option<&'w str>
    ensures { option_map (λ value. value.now) result ≡ spec.value_of name.now options.now }
{
    options.matches.get_str(name)
}

/// An option of that name is given.
pub fn is_given(name: &str, options: &Options) -> bool
    ensures { result ≡ is_some (spec.value_of name.now options.now) }
{
    value_of(name, options).is_some()
}

/// The text that an option of that name has.
pub fn text_of(alloc: Global, name: &str, options: &Options) -> Result<Option<Text>, NoMemory>
    ensures { IfOk result (λ text. text ≡ spec.value_of name.now options.now) }
{
    match value_of(name, options) {
        Some(value) => Ok(Some(Text::copy_of(alloc, value)?)),
        None => Ok(None),
    }
}

#[tactic(auto, unfolding(crate::specs::Options::number_of))]
pub fn short_number(text: &str) -> Option<u64>
    ensures { result ≡ spec.number_of text.now }
{
    if text.len() > 20 {
        return None;
    }
    number_of(text.as_bytes())
}

/// The number that an option of that name has, if it is given. A text of another kind makes the words no command line.
pub fn number_in(name: &str, options: &Options) -> Result<Option<u64>, WordsFault>
    ensures { result ≡ spec.number_in (spec.value_of name.now options.now) }
{
    match value_of(name, options) {
        Some(text) => match short_number(text) {
            Some(number) => Ok(Some(number)),
            None => Err(WordsFault::Usage),
        },
        None => Ok(None),
    }
}

/// The number that an option of that name has, or its default. A text of another kind makes the words no command line.
pub fn number_or(default: u64, name: &str, options: &Options) -> Result<u64, WordsFault>
    ensures { result ≡ spec.number_or default (spec.value_of name.now options.now) }
{
    match value_of(name, options) {
        Some(text) => match short_number(text) {
            Some(number) => Ok(number),
            None => Err(WordsFault::Usage),
        },
        None => Ok(default),
    }
}
