// The command line of the run, and what it and the files make of it.
ghost use Rattle.std.specs.Prelude.{◌≡◌, ◌≤◌, ◌++◌, IfOk, length, map, string_bytes, All};
ghost use Rattle.rehearse_plan.specs.declared.plan.TheConstants.{MOST_REHEARSED};
ghost use Rattle.rehearse_plan.specs.Files.{HoldsFiles};
ghost use Rattle.rehearse_setting.specs.Setting as spec;

use apiservice_table::TableRoutes;
use front_base::NoMemory;
use front_config::Loaded;
use front_ports::MemFiles;
use itoa::Buffer;
use rehearse_plan::{Rehearsal, rehearsal_files};
use serve_config::{ServeConfig, configure_serve};
use std::alloc::{AllocError, Global};

// A queue for all lines that the requests may cause.
fn buffer_word(alloc: Global, count: u32) -> Result<String, AllocError>
    requires { count ≤ MOST_REHEARSED }
    ensures { IfOk result (λ word. string_bytes word ≡ spec.buffer_word count) }
{
    let mut word = String::from_str(alloc, "--batch-buffer=")?;
    word.push_str(Buffer::new().format(3 * count))?;
    Ok(word)
}

fn bays_word(alloc: Global, bays: u16) -> Result<String, AllocError>
    ensures { IfOk result (λ word. string_bytes word ≡ spec.bays_word bays) }
{
    let mut word = String::from_str(alloc, "--bays=")?;
    word.push_str(Buffer::new().format(bays))?;
    Ok(word)
}

// The words of the run.
fn words(alloc: Global, plan: Rehearsal) -> Result<Vec<String>, AllocError>
    ensures { IfOk result (λ words. map string_bytes words.items ≡ spec.words_of plan.count plan.bays) }
{
    let mut words = Vec::new(alloc);
    words.push(String::from_str(alloc, "serve")?)?;
    words.push(bays_word(alloc, plan.bays)?)?;
    words.push(String::from_str(alloc, "--audit-policy-file=policy")?)?;
    words.push(String::from_str(alloc, "--apiservices=apiservices")?)?;
    words.push(String::from_str(alloc, "--endpoints=endpoints")?)?;
    words.push(String::from_str(alloc, "--audit-webhook-url=http://127.0.0.1:9400/")?)?;
    words.push(buffer_word(alloc, plan.count)?)?;
    Ok(words)
}

// What words and files say.
fn configured(
    alloc: Global,
    words: &Vec<String>,
    files: &mut MemFiles,
) -> Result<ServeConfig, NoMemory>
    requires { HoldsFiles files.old }
    ensures told { IfOk result (spec.IsConfig (map string_bytes words.now.items)) }
    ensures kept { HoldsFiles files.new }
{
    match configure_serve(alloc, words, files) {
        Ok(config) => Ok(config),
        Err(_) => Err(NoMemory),
    }
}

/// What a rehearsal begins with.
#[derive(Drop)]
pub struct Setting {
    pub config: ServeConfig,
    /// The routes of each bay.
    pub routes: Vec<TableRoutes>,
}

/// The words and the files of a rehearsal of so many requests, as `serve` reads them: its bays, a webhook in batch mode with a
/// queue for all lines, a policy of four rules, two APIs of the delegate, and one whose service is unavailable.
pub fn setting_of(alloc: Global, plan: Rehearsal) -> Result<Setting, NoMemory>
    ensures config { IfOk result (λ setting. spec.IsConfig (spec.words_of plan.count plan.bays) setting.config) }
    ensures routes { IfOk result (λ setting. length setting.routes.items ≡ plan.bays) }
    ensures opening { IfOk result (λ setting. All (spec.Opens (spec.words_of plan.count plan.bays)) setting.routes.items) }
{
    let words = words(alloc, plan)?;
    let mut files = rehearsal_files(alloc)?;
    let config = configured(alloc, &words, &mut files)?;
    let mut routes = Vec::new(alloc);
    for _ in 0..plan.bays {
        let ServeConfig { words: _, loaded } = configured(alloc, &words, &mut files)?;
        let Loaded { table, .. } = loaded;
        routes.push(TableRoutes::new(alloc, table)?)?;
    }
    Ok(Setting { config, routes })
}
