ghost use Rattle.std.specs.Prelude.{◌≡◌, ◌≤◌, is_some, map, string_bytes};
ghost use Rattle.front_ports.specs.FileMap.{KeepsFiles};
ghost use Rattle.probe_command.specs.Listing.{list_due};
ghost use Rattle.probe_command.specs.Run as spec;
ghost use Rattle.probe_rounds.specs.Standing.{pace_tells};
ghost use Rattle.service_calls.specs.Calls.{dial_state};
ghost use Rattle.command_ends.specs.Ports.{files_port, port};

use crate::config::{ProbeConfig, configure_probe};
use crate::ended::ProbeEnded;
use crate::listing::{ListStop, table_for};
use crate::probe::ProbeWords;
use apiservice_table::RouteTable;
use command_ends::{Outcome, Status};
use front_base::Text;
use front_config::Loaded;
use front_ports::{ByteSink, Clock, Dial, Files};
use probe_rounds::{Going, ProbePlan, ProbeStop, run_rounds};
use refusal_text::Refusal;
use std::alloc::Global;

fn status_of(ended: Result<bool, ProbeStop>) -> Status
    ensures { result ≡ spec.status_of ended }
{
    match ended {
        Ok(false) => Status::Done,
        Ok(true) => Status::NotDelivered,
        Err(ProbeStop::WriteFault) => Status::WriteFault,
        Err(ProbeStop::NoMemory) => Status::NoMemory,
    }
}

fn why_of(status: Status) -> Option<Refusal>
    ensures { result ≡ spec.why_of status }
{
    match status {
        Status::WriteFault => Some(Refusal::Output),
        _ => None,
    }
}

// How a run ends that has its rows.
fn ended_by(status: Status) -> ProbeEnded
    ensures { result ≡ spec.ended_by status }
{
    ProbeEnded {
        status,
        why: why_of(status),
        unlisted: None,
    }
}

// How a run ends that has none.
fn ended_without(stop: ListStop) -> ProbeEnded
    ensures { result ≡ spec.ended_without stop }
{
    match stop {
        ListStop::Fault(fault) => ProbeEnded {
            status: Status::NothingListed,
            why: None,
            unlisted: Some(fault),
        },
        ListStop::NoMemory => ProbeEnded {
            status: Status::NoMemory,
            why: None,
            unlisted: None,
        },
    }
}

// How a run ends that is refused.
fn refused(outcome: Outcome) -> ProbeEnded
    ensures { result ≡ spec.refused outcome }
{
    let Outcome { status, why } = outcome;
    ProbeEnded {
        status,
        why,
        unlisted: None,
    }
}

// The token of the file, or else that of the words.
fn token_of(in_file: Option<Text>, in_words: Option<Text>) -> Option<Text>
    ensures { result ≡ spec.token_of in_file in_words }
{
    match in_file {
        Some(token) => Some(token),
        None => in_words,
    }
}

// What a prober is told, the table of its file, and whether a file is named for it.
struct Start {
    plan: ProbePlan,
    table: RouteTable,
    is_named: bool,
}

fn start_of(config: ProbeConfig) -> Start
    ensures plan { result.plan ≡ spec.plan_of config }
    ensures table { result.table ≡ config.loaded.table }
    ensures named { result.is_named ≡ spec.is_named config }
{
    let ProbeConfig {
        words,
        loaded,
        token: in_file,
    } = config;
    let ProbeWords {
        files,
        front,
        token,
        token_file: _,
        threshold,
        every,
        rounds,
        request_timeout: _,
    } = words;
    let Loaded {
        tokens: _,
        policy: _,
        table,
        endpoints,
    } = loaded;
    Start {
        plan: ProbePlan {
            endpoints,
            front,
            token: token_of(in_file, token),
            rounds,
            every,
            threshold,
        },
        table,
        is_named: files.services.is_some(),
    }
}

// Makes the rounds that words and files tell, over the rows of the file or of the front door.
fn probe_over<D: Dial, K: Clock, G: Going, O: ByteSink>(
    alloc: Global,
    config: ProbeConfig,
    dial: &mut D,
    clock: &mut K,
    going: &mut G,
    out: &mut O,
) -> ProbeEnded
    requires threshold { (1 ≤ config.words.threshold) × (config.words.threshold ≤ 10) }
    requires rounds { 1 ≤ config.words.rounds }
    ensures ends { spec.Ends config
        (dial_state (D.calls dial.old) (D.faults dial.old) (D.link_faults dial.old))
        (dial_state (D.calls dial.new) (D.faults dial.new) (D.link_faults dial.new))
        (port (O.written out.old) (O.write_faults out.old) (O.written out.new) (O.write_faults out.new))
        (pace_tells (K.given clock.old) (K.rests clock.old) (G.asked going.old) (G.noes going.old))
        (pace_tells (K.given clock.new) (K.rests clock.new) (G.asked going.new) (G.noes going.new)) result }
    ensures later { K.last clock.old ≤ K.last clock.new }
{
    let Start {
        plan,
        table,
        is_named,
    } = start_of(config);
    match table_for(alloc, plan.front, &plan.token, is_named, table, dial) {
        Ok(table) => {
            let ended = run_rounds(alloc, &plan, table.rows(), dial, clock, going, out);
            ended_by(status_of(ended))
        }
        Err(stop) => ended_without(stop),
    }
}

/// The command `probe`: asks the services of the APIServices that the words name, or else of those that the front door lists, in as many
/// rounds as the words say, and tells the front door of each that is available now or isn't any more.
///
/// The status is `Done` where the front door took what it was told of each row last, and `NotDelivered` where it didn't take that of some
/// row: each line says what it answered. With `NothingListed` no file is named, and the front door gave no list: no line was written.
/// `Usage`, `Configuration`, `ReadFault`, `WriteFault` and `NoMemory` are those of `check`; with the first three nothing was dialed or
/// written, and with the last two a prefix of the calls was made and a prefix of the lines was written. `ReadFault` and `Configuration` stand
/// also for the file with a token, which is read after the other files.
pub fn run_probe<F: Files, T: Files, D: Dial, K: Clock, G: Going, O: ByteSink>(
    alloc: Global,
    words: &Vec<String>,
    files: &mut F,
    tokens: &mut T,
    dial: &mut D,
    clock: &mut K,
    going: &mut G,
    out: &mut O,
) -> ProbeEnded
    ensures run { spec.Run (map string_bytes words.now.items)
        (files_port (F.files files.old) (F.failed files.old) (F.faults files.old)
        (F.files files.new) (F.failed files.new) (F.faults files.new))
        (files_port (T.files tokens.old) (T.failed tokens.old) (T.faults tokens.old)
        (T.files tokens.new) (T.failed tokens.new) (T.faults tokens.new))
        (dial_state (D.calls dial.old) (D.faults dial.old) (D.link_faults dial.old))
        (dial_state (D.calls dial.new) (D.faults dial.new) (D.link_faults dial.new))
        (port (O.written out.old) (O.write_faults out.old) (O.written out.new) (O.write_faults out.new))
        (pace_tells (K.given clock.old) (K.rests clock.old) (G.asked going.old) (G.noes going.old))
        (pace_tells (K.given clock.new) (K.rests clock.new) (G.asked going.new) (G.noes going.new)) result }

    // Told files stay, and the count of faults doesn't fall.
    ensures kept { KeepsFiles (F.files files.old) (F.files files.new) }
    ensures files_later { F.faults files.old ≤ F.faults files.new }
    ensures tokens_later { T.faults tokens.old ≤ T.faults tokens.new }
    ensures clock_later { K.last clock.old ≤ K.last clock.new }
{
    match configure_probe(alloc, words, files, tokens) {
        Ok(config) => probe_over(alloc, config, dial, clock, going, out),
        Err(outcome) => refused(outcome),
    }
}
