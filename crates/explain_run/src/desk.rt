// The command `explain`.
ghost use Rattle.std.specs.Prelude.{◌≡◌, ◌≤◌, ◌⊎◌, Err, IfErr, IfOk, OnOk, map, string_bytes};
ghost use Rattle.command_options.specs.Options.{Gives};
ghost use Rattle.front_config.specs.Words.{command_of};
ghost use Rattle.front_config.specs.declared.command.Command.TheVariants.{Explain};
ghost use Rattle.command_options.specs.declared.fault.WordsFault.TheVariants as words_fault;
ghost use Rattle.front_ports.specs.FileMap.{KeepsFiles};
ghost use Rattle.explain_run.specs.Desk as spec;
ghost use Rattle.command_ends.specs.Ports.{files_port, port};
ghost use Rattle.explain_run.specs.Serving.{Serves};
ghost use Rattle.command_ends.specs.Why.{TellsServing};

use crate::served::served_ended;
use crate::serving::{Progress, serve_requests};
use crate::setup::Setup;
use apiservice_table::{RouteTable, TableRoutes};
use audit_core::{Settings, SinkMode};
use command_ends::{Ended, Outcome, Status, load_outcome, words_outcome};
use command_options::WordsFault;
use front_config::{Command, ExplainWords, Loaded, load, read_words};
use front_ports::{ByteSink, Files, Source};
use local_replies::LocalPaths;
use std::alloc::Global;

// What the command is told, which is the only one that a command line can have here.
fn explain_words(alloc: Global, words: &Vec<String>) -> Result<ExplainWords, WordsFault>
    ensures { Gives Explain result (command_of (map string_bytes words.now.items)) }
{
    match read_words(alloc, words) {
        Ok(Command::Explain(explain)) => Ok(explain),
        Err(fault) => Err(fault),
    }
}

// What a run begins with.
#[derive(Drop)]
struct Start {
    setup: Setup,
    table: RouteTable,
}

fn start_of(explain: ExplainWords, loaded: Loaded) -> Start
    ensures setup { result.setup ≡ spec.setup_of explain loaded }
    ensures table { result.table ≡ loaded.table }
{
    Start {
        setup: Setup {
            settings: Settings {
                tokens: loaded.tokens,
                policy: loaded.policy,
                endpoints: loaded.endpoints,
                max_event: explain.max_event,
                log: SinkMode::Off,
                hook: SinkMode::Off,
            },
            moment: explain.moment,
            routes: explain.routes,
        },
        table: loaded.table,
    }
}

// What words and files tell a run, and the table that it begins with, or why it is refused.
fn configure<F: Files>(alloc: Global, words: &Vec<String>, files: &mut F) -> Result<Start, Outcome>
    ensures ok { IfOk result (λ told.
        spec.Configures (map string_bytes words.now.items) (F.files files.old) told.setup told.table.rows) }
    ensures err { IfErr result (λ outcome. spec.IsRefused (map string_bytes words.now.items)
        (files_port (F.files files.old) (F.failed files.old) (F.faults files.old)
        (F.files files.new) (F.failed files.new) (F.faults files.new)) outcome.status outcome.why) }
    ensures sound { OnOk result (F.faults files.new ≡ F.faults files.old) }
    ensures kept { KeepsFiles (F.files files.old) (F.files files.new) }
    ensures later { F.faults files.old ≤ F.faults files.new }
{
    let explain = match explain_words(alloc, words) {
        Ok(explain) => explain,
        Err(fault) => return Err(words_outcome("explain", words, &fault)),
    };
    match load(alloc, &explain.files, files) {
        Ok(loaded) => Ok(start_of(explain, loaded)),
        Err(fault) => Err(load_outcome(explain.files, fault)),
    }
}

// The requests of an input, over routes of this table.
fn serve_table<S: Source, O: ByteSink>(
    alloc: Global,
    setup: &Setup,
    paths: &LocalPaths,
    table: RouteTable,
    input: &mut S,
    out: &mut O,
    progress: &mut Progress,
) -> Status
    requires { progress.old.too_large ≡ 0 }
    ensures run { Serves setup.now table.rows
        (port (S.left input.old) (S.read_faults input.old) (S.left input.new) (S.read_faults input.new))
        (port (O.written out.old) (O.write_faults out.old) (O.written out.new) (O.write_faults out.new))
        progress.new.too_large result }
    ensures read_later { S.read_faults input.old ≤ S.read_faults input.new }
    ensures write_later { O.write_faults out.old ≤ O.write_faults out.new }
{
    match TableRoutes::new(alloc, table) {
        Ok(routes) => {
            let mut routes = routes;
            serve_requests(alloc, setup, paths, &mut routes, input, out, progress)
        }
        Err(_) => Status::NoMemory,
    }
}

// The same, over the paths that are answered here.
fn serve_paths<S: Source, O: ByteSink>(
    alloc: Global,
    setup: &Setup,
    table: RouteTable,
    input: &mut S,
    out: &mut O,
    progress: &mut Progress,
) -> Status
    requires { progress.old.too_large ≡ 0 }
    ensures run { Serves setup.now table.rows
        (port (S.left input.old) (S.read_faults input.old) (S.left input.new) (S.read_faults input.new))
        (port (O.written out.old) (O.write_faults out.old) (O.written out.new) (O.write_faults out.new))
        progress.new.too_large result }
    ensures read_later { S.read_faults input.old ≤ S.read_faults input.new }
    ensures write_later { O.write_faults out.old ≤ O.write_faults out.new }
{
    match LocalPaths::new(alloc) {
        Ok(paths) => serve_table(alloc, setup, &paths, table, input, out, progress),
        Err(_) => Status::NoMemory,
    }
}

// A run that was told what to do.
fn run_start<S: Source, O: ByteSink>(
    alloc: Global,
    start: Start,
    input: &mut S,
    out: &mut O,
) -> Ended
    ensures run { Serves start.setup start.table.rows
        (port (S.left input.old) (S.read_faults input.old) (S.left input.new) (S.read_faults input.new))
        (port (O.written out.old) (O.write_faults out.old) (O.written out.new) (O.write_faults out.new))
        result.too_large result.status }
    ensures why { TellsServing result.status result.why }
    ensures read_later { S.read_faults input.old ≤ S.read_faults input.new }
    ensures write_later { O.write_faults out.old ≤ O.write_faults out.new }
{
    let Start { setup, table } = start;
    let mut progress = Progress::NONE;
    let status = serve_paths(alloc, &setup, table, input, out, &mut progress);
    served_ended(status, &progress, setup.settings.max_event)
}

/// The command `explain`: reads the requests of an input and writes the audit lines that each of them owes, each with a
/// line feed, under the policy and the tokens of the files that the words name, and by the APIServices of a third one,
/// which the requests may change, and the endpoints of a fourth. Where the words ask for routes, it writes one line of
/// each request instead: its number, and where it goes.
///
/// It answers a `Status`, and what was refused: the fault of the words, or that of a file by its name. Which word is bad,
/// and a refused request's number and first byte, are told too, and no clause speaks of them. It counts the events that are
/// too large for a line and so aren't written: those of all requests that were answered, where it ends early too; with
/// routes asked for, none.
///
/// The status is `Done` where the input was read to its end, or to the last request of its connection; `Usage` where the
/// words, which are those after the program's name, are no command line; `Configuration` where an option is out of its
/// range or a file is invalid; `ReadFault` where a file or the input could not be read; `WriteFault`; `Input` where a request is refused or cut short; `NumbersSpent` where 2^48 requests were served and one
/// more stands next; `NoMemory`. After `Done` and `Input` nothing failed: no count of faults of files, input and output
/// rose. After `WriteFault` and `NoMemory` a prefix of the lines was written. Memory is bounded by one request, the lines
/// that wait to be written, the files, and the changes of the table that were made.
///
/// What the clause says of bytes holds where a port tells them, as those in memory do. Of an input that tells nothing it
/// says that some bytes were read which have these requests, and of an output that tells nothing it says nothing.
pub fn run_desk<F: Files, S: Source, O: ByteSink>(
    alloc: Global,
    words: &Vec<String>,
    files: &mut F,
    input: &mut S,
    out: &mut O,
) -> Ended
    ensures run { spec.Run (map string_bytes words.now.items)
        (files_port (F.files files.old) (F.failed files.old) (F.faults files.old)
        (F.files files.new) (F.failed files.new) (F.faults files.new))
        (port (S.left input.old) (S.read_faults input.old) (S.left input.new) (S.read_faults input.new))
        (port (O.written out.old) (O.write_faults out.old) (O.written out.new) (O.write_faults out.new))
        result.status result.why result.too_large }

    // The words alone decide on `Usage`.
    ensures usage { result.status ≡ Status.Usage
        → command_of (map string_bytes words.now.items) ≡ Err words_fault.Usage }
    ensures misused { command_of (map string_bytes words.now.items) ≡ Err words_fault.Usage
        → (result.status ≡ Status.Usage) ⊎ (result.status ≡ Status.NoMemory) }

    // Told files stay, and the counts of faults don't fall.
    ensures kept { KeepsFiles (F.files files.old) (F.files files.new) }
    ensures files_later { F.faults files.old ≤ F.faults files.new }
    ensures read_later { S.read_faults input.old ≤ S.read_faults input.new }
    ensures write_later { O.write_faults out.old ≤ O.write_faults out.new }
{
    match configure(alloc, words, files) {
        Ok(start) => run_start(alloc, start, input, out),
        Err(outcome) => {
            let Outcome { status, why } = outcome;
            Ended::of(status, why)
        }
    }
}
