// Which command, or which help, the words of a command line ask for.
ghost use Rattle.std.specs.Prelude.{◌≡◌, map, string_bytes};
ghost use Rattle.command_options.specs.Asked as spec;

/// A page of help.
#[derive(Clone, Copy, Debug)]
pub enum Topic {
    /// The commands, and the exit statuses.
    Program,
    Explain,
    Check,
    Serve,
    Ship,
    Resources,
    Probe,
    Rehearse,
}

/// What words ask for.
#[derive(Clone, Copy, Debug)]
pub enum Asked {
    Help(Topic),
    Version,
    Explain,
    Check,
    Serve,
    Ship,
    Resources,
    Probe,
    Rehearse,
    /// There is no command, or none of that name.
    Unknown,
}

fn is_help_option(word: &str) -> bool
    ensures { result ≡ spec.is_help_option word.now }
{
    word == "--help" || word == "-h"
}

fn command_of(word: &str) -> Asked
    ensures { result ≡ spec.command_of word.now }
{
    if word == "explain" {
        Asked::Explain
    } else if word == "check" {
        Asked::Check
    } else if word == "serve" {
        Asked::Serve
    } else if word == "ship" {
        Asked::Ship
    } else if word == "resources" {
        Asked::Resources
    } else if word == "probe" {
        Asked::Probe
    } else if word == "rehearse" {
        Asked::Rehearse
    } else {
        Asked::Unknown
    }
}

/// Whether a command has that name.
pub fn is_command(word: &str) -> bool
    ensures { result ≡ spec.is_command word.now }
{
    word == "explain"
        || word == "check"
        || word == "serve"
        || word == "ship"
        || word == "resources"
        || word == "probe"
        || word == "rehearse"
}

fn help_on(word: &str) -> Asked
    ensures { result ≡ spec.help_on word.now }
{
    if word == "explain" {
        Asked::Help(Topic::Explain)
    } else if word == "check" {
        Asked::Help(Topic::Check)
    } else if word == "serve" {
        Asked::Help(Topic::Serve)
    } else if word == "ship" {
        Asked::Help(Topic::Ship)
    } else if word == "resources" {
        Asked::Help(Topic::Resources)
    } else if word == "probe" {
        Asked::Help(Topic::Probe)
    } else if word == "rehearse" {
        Asked::Help(Topic::Rehearse)
    } else {
        Asked::Unknown
    }
}

fn one_word(word: &str) -> Asked
    ensures { result ≡ spec.one_word word.now }
{
    if is_help_option(word) || word == "help" {
        Asked::Help(Topic::Program)
    } else if word == "--version" {
        Asked::Version
    } else {
        command_of(word)
    }
}

fn two_words(word: &str, next: &str) -> Asked
    ensures { result ≡ spec.two_words word.now next.now }
{
    if word == "help" {
        help_on(next)
    } else if is_help_option(next) {
        help_on(word)
    } else {
        command_of(word)
    }
}

impl Asked {
    /// What the words after the program's name ask for: `--help`, `-h` or `help` for help, `COMMAND --help`, `COMMAND -h` or
    /// `help COMMAND` for that of a command, `--version`, or a command with whatever follows it.
    pub fn of(words: &[String]) -> Asked
        ensures { result ≡ spec.asked (map string_bytes words.now) }
    {
        match words {
            [] => Asked::Unknown,
            [word] => one_word(word.as_str()),
            [word, next] => two_words(word.as_str(), next.as_str()),
            [word, _, _, ..] => command_of(word.as_str()),
        }
    }
}
