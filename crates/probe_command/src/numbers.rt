// The numbers of the options.
ghost use Rattle.std.specs.Prelude.{◌≡◌, ◌≤◌, IfOk};
ghost use Rattle.command_options.specs.Options.{Gives, least, most};
ghost use Rattle.probe_command.specs.Probe as spec;

use crate::fault::ProbeFault;
use command_options::{
    Options, Ranged, WordsFault, have_numbers, in_range, number_given, number_if_given,
};

/// Each option of a number has one.
pub fn check_numbers(options: &Options) -> Result<(), ProbeFault>
    ensures { spec.Gives (λ u. u) result (spec.numbers_of options.now) }
{
    let numbers = [
        Ranged::Threshold,
        Ranged::Every,
        Ranged::Rounds,
        Ranged::RequestTimeout,
    ];
    if have_numbers(&numbers, options) {
        Ok(())
    } else {
        Err(ProbeFault::Words(WordsFault::Usage))
    }
}

#[tactic(auto, unfolding(crate::specs::Probe::number_in))]
fn number_in(option: Ranged, options: &Options) -> Result<u64, WordsFault>
    ensures gives { Gives (λ n. n) result (spec.number_in option options.now) }
    ensures least { IfOk result (λ n. least option ≤ n) }
    ensures most { IfOk result (λ n. n ≤ most option) }
{
    let number = number_given(option, options)?;
    in_range(option, number)
}

/// The number of an option in its range.
pub fn ranged(option: Ranged, options: &Options) -> Result<u64, ProbeFault>
    ensures gives { spec.Gives (λ n. n) result (spec.ranged option options.now) }
    ensures least { IfOk result (λ n. least option ≤ n) }
    ensures most { IfOk result (λ n. n ≤ most option) }
{
    match number_in(option, options) {
        Ok(number) => Ok(number),
        Err(fault) => Err(ProbeFault::Words(fault)),
    }
}

/// The same, of an option whose numbers fit 8 bits.
pub fn ranged_u8(option: Ranged, options: &Options) -> Result<u8, ProbeFault>
    requires fits { most option ≤ 255 }
    ensures gives { spec.Gives (λ n. n) result (spec.ranged option options.now) }
    ensures least { IfOk result (λ n. least option ≤ n) }
    ensures most { IfOk result (λ n. n ≤ most option) }
{
    match ranged(option, options) {
        Ok(number) => Ok(number as u8),
        Err(fault) => Err(fault),
    }
}

#[tactic(auto, unfolding(crate::specs::Probe::every_in))]
fn every_in(options: &Options) -> Result<u64, WordsFault>
    ensures gives { Gives (λ n. n) result (spec.every_in options.now) }
    ensures most { IfOk result (λ n. n ≤ 86400) }
{
    match number_if_given(Ranged::Every, options)? {
        Some(number) => in_range(Ranged::Every, number),
        None => Ok(0),
    }
}

/// The seconds of `--every`, 0 without it.
pub fn every_of(options: &Options) -> Result<u32, ProbeFault>
    ensures gives { spec.Gives (λ n. n) result (spec.every_of options.now) }
    ensures most { IfOk result (λ n. n ≤ 86400) }
{
    match every_in(options) {
        Ok(number) => Ok(number as u32),
        Err(fault) => Err(ProbeFault::Words(fault)),
    }
}

fn rounds_else(threshold: u8, every: u32) -> u64
    requires { (1 ≤ threshold) × (threshold ≤ 10) }
    ensures gives { result ≡ spec.rounds_else threshold every }
    ensures least { 1 ≤ result }
    ensures most { result ≤ 1000000 }
{
    if every == 0 {
        threshold as u64
    } else {
        1_000_000
    }
}

#[tactic(auto, unfolding(crate::specs::Probe::rounds_in))]
fn rounds_in(threshold: u8, every: u32, options: &Options) -> Result<u64, WordsFault>
    requires { (1 ≤ threshold) × (threshold ≤ 10) }
    ensures gives { Gives (λ n. n) result (spec.rounds_in threshold every options.now) }
    ensures least { IfOk result (λ n. 1 ≤ n) }
    ensures most { IfOk result (λ n. n ≤ 1000000) }
{
    match number_if_given(Ranged::Rounds, options)? {
        Some(number) => in_range(Ranged::Rounds, number),
        None => Ok(rounds_else(threshold, every)),
    }
}

/// How many rounds there are: the number of `--rounds`, or else that of `--threshold`, and with `--every` 1000000.
pub fn rounds_of(threshold: u8, every: u32, options: &Options) -> Result<u32, ProbeFault>
    requires { (1 ≤ threshold) × (threshold ≤ 10) }
    ensures gives { spec.Gives (λ n. n) result (spec.rounds_of threshold every options.now) }
    ensures least { IfOk result (λ n. 1 ≤ n) }
    ensures most { IfOk result (λ n. n ≤ 1000000) }
{
    match rounds_in(threshold, every, options) {
        Ok(number) => Ok(number as u32),
        Err(fault) => Err(ProbeFault::Words(fault)),
    }
}
