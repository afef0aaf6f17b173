// Where audit events go, and how.
ghost use Rattle.std.specs.Prelude.{◌≡◌};
ghost use Rattle.command_options.specs.Options.{value_of};
ghost use Rattle.serve_config.specs.Serve as spec;

use crate::fault::ServeFault;
use audit_core::SinkMode;
use command_options::{Options, WordsFault, value_of};
use front_base::{Address, Text};
use std::alloc::Global;
use webhook_sink::{HookFault, read_url};

/// A sink of audit events.
#[derive(Debug, Drop)]
pub struct SinkWords {
    /// The path of the log, `-` for standard output, or the URL of the webhook; none where there is no such sink.
    pub target: Option<Text>,
    /// How events go to it. It is off exactly where there is no such sink.
    pub mode: SinkMode,
}

fn mode_named(text: &str) -> Option<SinkMode>
    ensures { result ≡ spec.mode_named text.now }
{
    if text == "batch" {
        Some(SinkMode::Batch)
    } else if text == "blocking" {
        Some(SinkMode::Blocking)
    } else if text == "blocking-strict" {
        Some(SinkMode::Strict)
    } else {
        None
    }
}

// A mode where its sink isn't named.
fn sink_off(name: &str, options: &Options) -> Result<SinkWords, ServeFault>
    ensures { spec.Gives (λ v. v) result (spec.sink_off (value_of name.now options.now)) }
{
    match value_of(name, options) {
        Some(_) => Err(ServeFault::Words(WordsFault::Usage)),
        None => Ok(SinkWords {
            target: None,
            mode: SinkMode::Off,
        }),
    }
}

// How events go to a sink that is named.
fn mode_of(default: SinkMode, name: &str, options: &Options) -> Result<SinkMode, ServeFault>
    ensures { spec.Gives (λ v. v) result (spec.mode_of default (value_of name.now options.now)) }
{
    match value_of(name, options) {
        Some(text) => match mode_named(text) {
            Some(mode) => Ok(mode),
            None => Err(ServeFault::Words(WordsFault::Usage)),
        },
        None => Ok(default),
    }
}

/// The sink that the option of one name tells, with the mode that another one tells, or its default.
pub fn sink_by(
    alloc: Global,
    default: SinkMode,
    target: &str,
    mode: &str,
    options: &Options,
) -> Result<SinkWords, ServeFault>
    ensures { spec.Gives (λ v. v) result
        (spec.sink_by default (value_of target.now options.now) (value_of mode.now options.now)) }
{
    match value_of(target, options) {
        Some(text) => {
            let mode = mode_of(default, mode, options)?;
            Ok(SinkWords {
                target: Some(Text::copy_of(alloc, text)?),
                mode,
            })
        }
        None => sink_off(mode, options),
    }
}

fn is_loopback(ip: [u8; 4]) -> bool
    ensures { result ≡ spec.is_loopback ip }
{
    ip.starts_with(&[127])
}

fn is_any(ip: [u8; 4]) -> bool
    ensures { result ≡ spec.is_any ip }
{
    ip == [0, 0, 0, 0]
}

fn is_same_host(listened: [u8; 4], dialed: [u8; 4]) -> bool
    ensures { result ≡ spec.is_same_host listened dialed }
{
    listened == dialed
        || is_any(listened) && is_loopback(dialed)
        || is_any(dialed) && listened == [127, 0, 0, 1]
}

// Whether who dials the second address reaches who listens at the first one, by the addresses alone.
fn reaches(listen: Address, hook: Address) -> bool
    ensures { result ≡ spec.reaches listen hook }
{
    listen.port == hook.port && is_same_host(listen.ip, hook.ip)
}

// Whom a URL names isn't who listens.
fn check_own(alloc: Global, listen: Address, hook: Address, url: &str) -> Result<(), ServeFault>
    ensures { spec.Gives (λ u. u) result (spec.not_own listen url.now hook) }
{
    if reaches(listen, hook) {
        Err(ServeFault::OwnWebhook(Text::copy_of(alloc, url)?))
    } else {
        Ok(())
    }
}

fn check_hook(alloc: Global, listen: Address, url: &str) -> Result<(), ServeFault>
    ensures { spec.Gives (λ u. u) result (spec.webhook_at listen url.now) }
{
    match read_url(alloc, url) {
        Ok(hook) => check_own(alloc, listen, hook.address, url),
        Err(HookFault::NoMemory) => Err(ServeFault::Words(WordsFault::NoMemory)),
        Err(HookFault::BadUrl) => Err(ServeFault::Webhook(Text::copy_of(alloc, url)?)),
    }
}

/// A webhook can have the URL of this sink, where it is named, and it isn't the address that is listened at.
pub fn check_webhook(alloc: Global, listen: Address, sink: &SinkWords) -> Result<(), ServeFault>
    ensures { spec.Gives (λ u. u) result (spec.webhook_of listen sink.now.target) }
{
    match sink.target.as_ref() {
        Some(url) => check_hook(alloc, listen, url.as_str()),
        None => Ok(()),
    }
}
