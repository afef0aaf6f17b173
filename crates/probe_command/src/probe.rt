// What `probe` is told.
ghost use Rattle.std.specs.Prelude.{◌≡◌, ◌≤◌, IfOk, codes, map, string_bytes};
ghost use Rattle.command_options.specs.Options.{value_of};
ghost use Rattle.probe_command.specs.Probe as spec;

use crate::fault::ProbeFault;
use crate::numbers::{check_numbers, every_of, ranged, ranged_u8, rounds_of};
use command_options::names::{
    ENDPOINTS, EVERY, FRONT, REQUEST_TIMEOUT, ROUNDS, SERVICES, THRESHOLD, TOKEN, TOKEN_FILE,
};
use command_options::{
    FileNames, Options, Ranged, WordsFault, file_names, given_of, text_of, value_of,
};
use front_base::{Address, Text, read_address};
use std::alloc::Global;

/// What `probe` was told.
#[derive(Debug, Drop)]
pub struct ProbeWords {
    /// Those of the APIService objects and of the endpoints.
    pub files: FileNames,
    /// The front door that is told.
    pub front: Address,
    /// The bearer token of the user who tells it, if any: bytes from `!` to `~`.
    pub token: Option<Text>,
    /// The file with that token, if any, of which `-` is standard input. It never stands beside `token`.
    pub token_file: Option<Text>,
    /// How many probes one after another change a condition, from 1 to 10.
    pub threshold: u8,
    /// Seconds from the beginning of a round to that of the next one, from 1 to 86400, or 0 where nothing says so.
    pub every: u32,
    /// How often each service is asked, from 1 to 1000000: where nothing says so, as often as `threshold`, and with `every` 1000000 times.
    pub rounds: u32,
    /// How long one request may take in all, in milliseconds, from 1 to 600000.
    pub request_timeout: u64,
}

// The front door: `--front`, or port 8001 of this machine.
fn front_of(alloc: Global, options: &Options) -> Result<Address, ProbeFault>
    ensures { spec.Gives (λ v. v) result (spec.front_of (value_of (codes "front") options.now)) }
{
    match value_of(FRONT, options) {
        Some(text) => match read_address(text) {
            Some(address) => Ok(address),
            None => Err(ProbeFault::Front(Text::copy_of(alloc, text)?)),
        },
        None => Ok(Address {
            ip: [127, 0, 0, 1],
            port: 8001,
        }),
    }
}

/// Whether a byte can stand in a bearer token: one from `!` to `~`.
pub fn is_token_byte(byte: u8) -> bool
    ensures { result ≡ spec.is_token_byte byte }
{
    33 <= byte && byte <= 126
}

fn is_token(text: &[u8]) -> bool
    ensures { result ≡ spec.is_token text.now }
{
    for byte in text {
        if !is_token_byte(*byte) {
            return false;
        }
    }
    true
}

// The token, where it can stand in a header.
fn token_of(alloc: Global, options: &Options) -> Result<Option<Text>, ProbeFault>
    ensures { spec.Gives (λ v. v) result (spec.token_of (value_of (codes "token") options.now)) }
{
    match value_of(TOKEN, options) {
        Some(text) if is_token(text.as_bytes()) => Ok(Some(Text::copy_of(alloc, text)?)),
        Some(_) => Err(ProbeFault::Token),
        None => Ok(None),
    }
}

// Not both a token and a file with one.
fn check_token(options: &Options) -> Result<(), ProbeFault>
    ensures { spec.Gives (λ u. u) result (spec.one_token (value_of (codes "token") options.now)
        (value_of (codes "token-file") options.now)) }
{
    match value_of(TOKEN, options) {
        Some(_) => match value_of(TOKEN_FILE, options) {
            Some(_) => Err(ProbeFault::Words(WordsFault::Usage)),
            None => Ok(()),
        },
        None => Ok(()),
    }
}

#[tactic(auto, unfolding(crate::specs::Probe::probe_by))]
fn probe_by(alloc: Global, options: &Options) -> Result<ProbeWords, ProbeFault>
    ensures gives { spec.Gives (λ v. v) result (spec.probe_by options.now) }
    ensures least { IfOk result (λ words. (1 ≤ words.rounds) × (1 ≤ words.threshold)) }
    ensures most { IfOk result (λ words. (words.rounds ≤ 1000000) × (words.threshold ≤ 10)) }
{
    check_numbers(options)?;
    check_token(options)?;
    let front = front_of(alloc, options)?;
    let token = token_of(alloc, options)?;
    let threshold = ranged_u8(Ranged::Threshold, options)?;
    let every = every_of(options)?;
    let rounds = rounds_of(threshold, every, options)?;
    let request_timeout = ranged(Ranged::RequestTimeout, options)?;
    let token_file = text_of(alloc, TOKEN_FILE, options)?;
    let files = file_names(alloc, options)?;
    Ok(ProbeWords {
        files,
        front,
        token,
        token_file,
        threshold,
        every,
        rounds,
        request_timeout,
    })
}

fn probe_of(alloc: Global, words: &[String]) -> Result<ProbeWords, ProbeFault>
    ensures gives { spec.Gives (λ v. v) result (spec.probe_of (map string_bytes words.now)) }
    ensures least { IfOk result (λ words. (1 ≤ words.rounds) × (1 ≤ words.threshold)) }
    ensures most { IfOk result (λ words. (words.rounds ≤ 1000000) × (words.threshold ≤ 10)) }
{
    match given_of(
        alloc,
        &[
            SERVICES,
            ENDPOINTS,
            FRONT,
            TOKEN,
            TOKEN_FILE,
            THRESHOLD,
            EVERY,
            ROUNDS,
            REQUEST_TIMEOUT,
        ],
        words,
    ) {
        Ok(options) => probe_by(alloc, &options),
        Err(fault) => Err(ProbeFault::Words(fault)),
    }
}

/// What the words after the program's name ask for: the word `probe`, and its options in any order, as `command_options` spells them. Words
/// that are no command line are refused first, and then the first option out of its range in the order of the fields of `ProbeWords`.
#[tactic(auto, unfolding(crate::specs::Probe::probe_command))]
pub fn read_probe(alloc: Global, words: &Vec<String>) -> Result<ProbeWords, ProbeFault>
    ensures gives { spec.Gives (λ v. v) result (spec.probe_command (map string_bytes words.now.items)) }
    ensures least { IfOk result (λ words. (1 ≤ words.rounds) × (1 ≤ words.threshold)) }
    ensures most { IfOk result (λ words. (words.rounds ≤ 1000000) × (words.threshold ≤ 10)) }
{
    match words.as_slice() {
        [word, options @ ..] if word.as_str() == "probe" => probe_of(alloc, options),
        _ => Err(ProbeFault::Words(WordsFault::Usage)),
    }
}
