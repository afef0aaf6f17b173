// What `ship` is told.
ghost use Rattle.std.specs.Prelude.{◌≡◌, IfOk, map, string_bytes};
ghost use Rattle.log_ship.specs.Paces.{IsWithin};
ghost use Rattle.ship_command.specs.Ship as spec;

use crate::fault::ShipFault;
use crate::numbers::{check_numbers, ranged, ranged_u32};
use command_options::names::{
    BATCH_MAX_SIZE, BURST, FROM_LINE, MAX_BATCH_SIZE, RATE, RETRY_WAIT, TRIES, WEBHOOK_URL,
};
use command_options::{Options, Ranged, WordsFault, given_of, value_of};
use front_base::Text;
use log_ship::ShipPace;
use std::alloc::Global;
use webhook_sink::{HookFault, check_url};

/// What `ship` was told.
#[derive(Debug, Drop)]
pub struct ShipWords {
    /// The URL of the webhook to which lines are posted.
    pub url: Text,
    /// `--batch-max-size`, `--max-batch-size`, `--tries`, `--rate`, `--burst`, `--retry-wait-ms` and `--from-line`.
    pub pace: ShipPace,
}

#[tactic(auto, unfolding(crate::specs::Ship::pace_by))]
fn pace_by(options: &Options) -> Result<ShipPace, ShipFault>
    ensures gives { spec.Gives (λ v. v) result (spec.pace_by options.now) }
    ensures within { IfOk result IsWithin }
{
    let max_lines = ranged_u32(Ranged::BatchMaxSize, options)?;
    let max_bytes = ranged(Ranged::MaxBatchSize, options)?;
    let tries = ranged_u32(Ranged::Tries, options)?;
    let rate = ranged_u32(Ranged::Rate, options)?;
    let burst = ranged_u32(Ranged::Burst, options)?;
    let wait_ms = ranged_u32(Ranged::RetryWait, options)?;
    let from_line = ranged(Ranged::FromLine, options)?;
    Ok(ShipPace {
        max_lines,
        max_bytes,
        tries,
        rate,
        burst,
        wait_ms,
        from_line,
    })
}

// The URL, where a webhook can have it.
fn hook_url(alloc: Global, url: &str) -> Result<Text, ShipFault>
    ensures { spec.Gives (λ v. v) result (spec.webhook_at url.now) }
{
    match check_url(alloc, url) {
        Ok(()) => Ok(Text::copy_of(alloc, url)?),
        Err(HookFault::NoMemory) => Err(ShipFault::Words(WordsFault::NoMemory)),
        Err(HookFault::BadUrl) => Err(ShipFault::Webhook(Text::copy_of(alloc, url)?)),
    }
}

// What it is told by these options and the text of the URL.
#[tactic(auto, unfolding(crate::specs::Ship::ship_at))]
fn ship_at(alloc: Global, url: &str, options: &Options) -> Result<ShipWords, ShipFault>
    ensures gives { spec.Gives (λ v. v) result (spec.ship_at url.now options.now) }
    ensures within { IfOk result (λ words. IsWithin words.pace) }
{
    check_numbers(options)?;
    let pace = pace_by(options)?;
    let url = hook_url(alloc, url)?;
    Ok(ShipWords { url, pace })
}

fn ship_by(alloc: Global, options: &Options) -> Result<ShipWords, ShipFault>
    ensures gives { spec.Gives (λ v. v) result (spec.ship_by options.now) }
    ensures within { IfOk result (λ words. IsWithin words.pace) }
{
    match value_of(WEBHOOK_URL, options) {
        Some(url) => ship_at(alloc, url, options),
        None => Err(ShipFault::Words(WordsFault::Usage)),
    }
}

fn ship_of(alloc: Global, words: &[String]) -> Result<ShipWords, ShipFault>
    ensures gives { spec.Gives (λ v. v) result (spec.ship_of (map string_bytes words.now)) }
    ensures within { IfOk result (λ words. IsWithin words.pace) }
{
    match given_of(
        alloc,
        &[
            WEBHOOK_URL,
            BATCH_MAX_SIZE,
            MAX_BATCH_SIZE,
            TRIES,
            RATE,
            BURST,
            RETRY_WAIT,
            FROM_LINE,
        ],
        words,
    ) {
        Ok(options) => ship_by(alloc, &options),
        Err(fault) => Err(ShipFault::Words(fault)),
    }
}

/// What the words after the program's name ask for: the word `ship`, and its options in any order, as `command_options` spells them. Words
/// that are no command line, or that name no webhook, are refused first, then the first option out of its range in the order of the fields of
/// `ShipPace`, and then the URL of the webhook.
#[tactic(auto, unfolding(crate::specs::Ship::ship_command))]
pub fn read_ship(alloc: Global, words: &Vec<String>) -> Result<ShipWords, ShipFault>
    ensures gives { spec.Gives (λ v. v) result (spec.ship_command (map string_bytes words.now.items)) }
    ensures within { IfOk result (λ words. IsWithin words.pace) }
{
    match words.as_slice() {
        [word, options @ ..] if word.as_str() == "ship" => ship_of(alloc, options),
        _ => Err(ShipFault::Words(WordsFault::Usage)),
    }
}
