ghost use Rattle.std.specs.Prelude.{◌≡◌, IfSome, length};

use crate::{World, parts_of};
use apiservice_table::{RouteTable, TableRoutes};
use command_ends::SystemFiles;
use front_base::Address;
use front_config::Loaded;
use front_plants::MemPlant;
use front_ports::{MemBytes, MemClock, MemDial, MemDoor};
use log_sink::LogSink;
use serve_config::{ServeConfig, ServeWords, configure_serve};
use serve_runs::Ended;
use session_core::MemDiary;
use shared_runs::{can_run, run_configured, settings_of};
use std::alloc::{AllocError, Global};
use std::sync::Wait;
use std::thread::Threads;
use truncate_backend::MemNotes;
use webhook_sink::WebhookSink;

/// The log of a run.
pub type WorldLog = LogSink<MemBytes, MemNotes>;

/// The webhook of a run.
pub type WorldHook = WebhookSink<MemDial, MemNotes>;

/// What a run leaves.
pub type WorldEnd = Ended<TableRoutes, MemDial, WorldLog, WorldHook, MemClock, MemDiary, MemDoor>;

// What each run is told, over files of the folder that the program runs in.
const WORDS: &str =
    "serve --bays=1 --token-auth-file=tokens.csv --apiservices=services.json --endpoints=endpoints.csv";

const LISTEN: Address = Address {
    ip: [127, 0, 0, 1],
    port: 8001,
};

fn push_words(alloc: Global, words: &mut Vec<String>, text: &str) -> Result<(), AllocError> {
    for word in text.split(' ') {
        words.push(String::from_str(alloc, word)?)?;
    }
    Ok(())
}

fn words_of(alloc: Global, options: &str) -> Result<Vec<String>, AllocError> {
    let mut words = Vec::new(alloc);
    push_words(alloc, &mut words, WORDS)?;
    push_words(alloc, &mut words, options)?;
    Ok(words)
}

fn configured(rt: &HostRuntime, options: &str) -> Option<ServeConfig> {
    let words = words_of(rt.alloc(), options).ok()?;
    configure_serve(rt.alloc(), &words, &mut SystemFiles::new(rt)).ok()
}

fn routes_of(alloc: Global, table: RouteTable) -> Option<Vec<TableRoutes>>
    ensures { IfSome result (λ routes. length routes.items ≡ 1) }
{
    let routes = TableRoutes::new(alloc, table).ok()?;
    vec![in alloc; routes].ok()
}

// Runs `serve` with one bay over a plant.
fn run_words<R: Threads + Wait + Copy + Send + Sync + Drop>(
    threads: &R,
    alloc: Global,
    words: &ServeWords,
    loaded: Loaded,
    plant: &mut MemPlant<R>,
) -> Option<WorldEnd> {
    if words.bays != 1 || !can_run(words) {
        drop(loaded);
        return None;
    }
    let (settings, table) = settings_of(words, loaded);
    let Some(routes) = routes_of(alloc, table) else {
        drop(settings);
        return None;
    };
    Some(run_configured(threads, alloc, words, settings, LISTEN, routes, plant))
}

fn run_plant<R: Threads + Wait + Copy + Send + Sync + Drop>(
    rt: &HostRuntime,
    threads: &R,
    options: &str,
    plant: &mut MemPlant<R>,
) -> Option<WorldEnd> {
    let ServeConfig { words, loaded } = configured(rt, options)?;
    run_words(threads, rt.alloc(), &words, loaded, plant)
}

/// Runs `serve` over a world. None where memory or a file is wanting, or where its options aren't those of one bay.
pub fn run_world<R: Threads + Wait + Copy + Send + Sync + Drop>(
    rt: &HostRuntime,
    threads: &R,
    world: &World,
) -> Option<WorldEnd> {
    let alloc = rt.alloc();
    let mut plant = MemPlant::new(threads, alloc, parts_of(alloc, world)).ok()?;
    run_plant(rt, threads, world.options, &mut plant)
}
