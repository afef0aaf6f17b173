// What `serve` is told.
ghost use Rattle.std.specs.Prelude.{IfOk, codes, map, string_bytes};
ghost use Rattle.command_options.specs.Options.{Gives, value_of};
ghost use Rattle.serve_config.specs.Serve as spec;

use crate::batch::{BatchWords, batch_by};
use crate::fault::ServeFault;
use crate::limits::limits_by;
use crate::numbers::{check_numbers, ranged, ranged_u16};
use crate::sinks::{SinkWords, check_webhook, sink_by};
use audit_core::SinkMode;
use command_options::names::{
    BATCH_BUFFER, BATCH_MAX_SIZE, BATCH_MAX_WAIT, BAYS, CONNECTIONS, DIAL_TIMEOUT, ENDPOINTS,
    EXIT_ON_STDIN_EOF, IDLE_TIMEOUT, LISTEN, LOG_MODE, LOG_PATH, MAX_BATCH_SIZE, MAX_EVENT_SIZE,
    METRICS_PATH, MIN_RATE, POLICY, READ_HEADER_TIMEOUT, RESPONSE_HEADER_TIMEOUT, REUSE_PORT,
    SERVICES, SHUTDOWN_TIMEOUT, STALL_TIMEOUT, TOKENS, WEBHOOK_MODE, WEBHOOK_URL,
};
use command_options::{
    FileNames, Options, Ranged, WordsFault, file_names, given_of, is_given, text_of, value_of,
    with_flag,
};
use front_base::{Address, Text, read_address};
use std::alloc::Global;
use tcp_ports::TcpLimits;

/// What `serve` was told.
#[derive(Debug, Drop)]
pub struct ServeWords {
    pub files: FileNames,
    /// The most bytes that the line of an event may have, from 256 to 4194304.
    pub max_event: u64,
    /// Where connections are accepted.
    pub listen: Address,
    /// How many connections are served at once, from 1 to 1024.
    pub bays: u16,
    /// After how many connections each bay ends, 0 for no end.
    pub connections: u64,
    pub log: SinkWords,
    pub webhook: SinkWords,
    pub batch: BatchWords,
    /// How long peers may take.
    pub limits: TcpLimits,
    /// The file that counts are written to; `-` is a file's name too.
    pub metrics_path: Option<Text>,
    /// Whether several processes may listen at that address.
    pub reuse_port: bool,
    /// Whether an end of standard input ends it.
    pub exit_on_stdin_eof: bool,
}

// Where connections are accepted: `--listen`, or port 8001 of this machine alone.
fn listen_of(alloc: Global, options: &Options) -> Result<Address, ServeFault>
    ensures { spec.Gives (λ v. v) result (spec.listen_of (value_of (codes "listen") options.now)) }
{
    match value_of(LISTEN, options) {
        Some(text) => match read_address(text) {
            Some(address) => Ok(address),
            None => Err(ServeFault::Listen(Text::copy_of(alloc, text)?)),
        },
        None => Ok(Address {
            ip: [127, 0, 0, 1],
            port: 8001,
        }),
    }
}

#[tactic(auto, unfolding(crate::specs::Serve::serve_by))]
fn serve_by(alloc: Global, options: &Options) -> Result<ServeWords, ServeFault>
    ensures gives { spec.Gives (λ v. v) result (spec.serve_by options.now) }
    ensures fit { IfOk result spec.IsFit }
{
    check_numbers(options)?;
    let log = sink_by(alloc, SinkMode::Blocking, LOG_PATH, LOG_MODE, options)?;
    let webhook = sink_by(alloc, SinkMode::Batch, WEBHOOK_URL, WEBHOOK_MODE, options)?;
    let max_event = ranged(Ranged::MaxEventSize, options)?;
    let listen = listen_of(alloc, options)?;
    let bays = ranged_u16(Ranged::Bays, options)?;
    let connections = ranged(Ranged::Connections, options)?;
    let batch = batch_by(options)?;
    let limits = limits_by(options)?;
    check_webhook(alloc, listen, &webhook)?;
    let metrics_path = text_of(alloc, METRICS_PATH, options)?;
    let files = file_names(alloc, options)?;
    Ok(ServeWords {
        files,
        max_event,
        listen,
        bays,
        connections,
        log,
        webhook,
        batch,
        limits,
        metrics_path,
        reuse_port: is_given(REUSE_PORT, options),
        exit_on_stdin_eof: is_given(EXIT_ON_STDIN_EOF, options),
    })
}

// What `serve` is told by words where each flag is an option in one word.
fn serve_given(alloc: Global, words: &[String]) -> Result<ServeWords, ServeFault>
    ensures gives { spec.Gives (λ v. v) result (spec.serve_given (map string_bytes words.now)) }
    ensures fit { IfOk result spec.IsFit }
{
    match given_of(
        alloc,
        &[
            TOKENS,
            POLICY,
            SERVICES,
            ENDPOINTS,
            MAX_EVENT_SIZE,
            LISTEN,
            BAYS,
            CONNECTIONS,
            LOG_PATH,
            LOG_MODE,
            WEBHOOK_URL,
            WEBHOOK_MODE,
            BATCH_BUFFER,
            BATCH_MAX_SIZE,
            BATCH_MAX_WAIT,
            MAX_BATCH_SIZE,
            IDLE_TIMEOUT,
            READ_HEADER_TIMEOUT,
            MIN_RATE,
            STALL_TIMEOUT,
            DIAL_TIMEOUT,
            RESPONSE_HEADER_TIMEOUT,
            SHUTDOWN_TIMEOUT,
            METRICS_PATH,
            REUSE_PORT,
            EXIT_ON_STDIN_EOF,
        ],
        words,
    ) {
        Ok(options) => serve_by(alloc, &options),
        Err(fault) => Err(ServeFault::Words(fault)),
    }
}

// The words, where each flag is an option in one word.
#[tactic(auto, unfolding(crate::specs::Serve::with_flags))]
fn with_flags(alloc: Global, words: &[String]) -> Result<Vec<String>, WordsFault>
    ensures { Gives (λ own. map string_bytes own.items) result (spec.with_flags (map string_bytes words.now)) }
{
    let own = with_flag(alloc, EXIT_ON_STDIN_EOF, words)?;
    with_flag(alloc, REUSE_PORT, own.as_slice())
}

fn serve_of(alloc: Global, words: &[String]) -> Result<ServeWords, ServeFault>
    ensures gives { spec.Gives (λ v. v) result (spec.serve_of (map string_bytes words.now)) }
    ensures fit { IfOk result spec.IsFit }
{
    match with_flags(alloc, words) {
        Ok(words) => serve_given(alloc, words.as_slice()),
        Err(fault) => Err(ServeFault::Words(fault)),
    }
}

/// What the words after the program's name ask for: the word `serve`, and its options in any order, as `command_options`
/// spells them. Words that are no command line are refused first, then the first option out of its range in the order of
/// the fields of `ServeWords`, and then the URL of the webhook: one that no webhook can have, or that leads to the address that is
/// listened at. It does where the ports are the same, and either the IPv4 addresses are too; or 0.0.0.0 is listened at and the URL has
/// `localhost` or an address that begins with 127; or 127.0.0.1 is listened at and the URL has 0.0.0.0, which Linux leads there.
#[tactic(auto, unfolding(crate::specs::Serve::serve_command))]
pub fn read_serve(alloc: Global, words: &Vec<String>) -> Result<ServeWords, ServeFault>
    ensures gives { spec.Gives (λ v. v) result (spec.serve_command (map string_bytes words.now.items)) }
    ensures fit { IfOk result spec.IsFit }
{
    match words.as_slice() {
        [word, options @ ..] if word.as_str() == "serve" => serve_of(alloc, options),
        _ => Err(ServeFault::Words(WordsFault::Usage)),
    }
}
