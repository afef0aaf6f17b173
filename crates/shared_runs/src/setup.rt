// What words and files make of a run.
ghost use Rattle.std.specs.Prelude.{◌≡◌, IfOk};
ghost use Rattle.shared_runs.specs.Setup as spec;

use apiservice_table::RouteTable;
use audit_core::Settings;
use batch_backend::Limits;
use front_base::{Address, NoMemory, Text};
use front_config::Loaded;
use serve_bays::RunOptions;
use serve_config::ServeWords;
use std::alloc::Global;

// The text of an option, or none.
fn text_of(alloc: Global, text: &Option<Text>) -> Result<Text, NoMemory>
    ensures { IfOk result (λ copy. copy ≡ spec.text_of text.now) }
{
    match text {
        Some(text) => text.copy(alloc),
        None => Text::copy_of(alloc, ""),
    }
}

pub(crate) fn options_of(
    alloc: Global,
    words: &ServeWords,
    listen: Address,
) -> Result<RunOptions, NoMemory>
    ensures { IfOk result (λ options. options ≡ spec.options_of words.now listen) }
{
    Ok(RunOptions {
        listen,
        bays: words.bays,
        connections: words.connections,
        log_path: text_of(alloc, &words.log.target)?,
        hook_url: text_of(alloc, &words.webhook.target)?,
        buffer: words.batch.buffer,
        limits: Limits {
            lines: words.batch.max_lines,
            bytes: words.batch.max_bytes,
            wait: words.batch.max_wait_ms.saturating_mul(1000),
        },
    })
}

/// By which settings requests are answered and recorded, and the table of APIServices that the run begins with.
pub fn settings_of(words: &ServeWords, loaded: Loaded) -> (Settings, RouteTable)
    ensures settings { result.0 ≡ spec.settings_of words.now loaded }
    ensures table { result.1 ≡ loaded.table }
{
    let Loaded {
        tokens,
        policy,
        table,
        endpoints,
    } = loaded;
    let settings = Settings {
        tokens,
        policy,
        endpoints,
        max_event: words.max_event,
        log: words.log.mode,
        hook: words.webhook.mode,
    };
    (settings, table)
}
