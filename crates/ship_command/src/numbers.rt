// The numbers of the options.
ghost use Rattle.std.specs.Prelude.{◌≤◌, IfOk};
ghost use Rattle.command_options.specs.Options.{Gives, least, most};
ghost use Rattle.ship_command.specs.Ship as spec;

use crate::fault::ShipFault;
use command_options::{Options, Ranged, WordsFault, have_numbers, in_range, number_given};

/// Each option of a number has one.
pub fn check_numbers(options: &Options) -> Result<(), ShipFault>
    ensures { spec.Gives (λ u. u) result (spec.numbers_of options.now) }
{
    let numbers = [
        Ranged::BatchMaxSize,
        Ranged::MaxBatchSize,
        Ranged::Tries,
        Ranged::Rate,
        Ranged::Burst,
        Ranged::RetryWait,
        Ranged::FromLine,
    ];
    if have_numbers(&numbers, options) {
        Ok(())
    } else {
        Err(ShipFault::Words(WordsFault::Usage))
    }
}

#[tactic(auto, unfolding(crate::specs::Ship::number_in))]
fn number_in(option: Ranged, options: &Options) -> Result<u64, WordsFault>
    ensures gives { Gives (λ n. n) result (spec.number_in option options.now) }
    ensures least { IfOk result (λ n. least option ≤ n) }
    ensures most { IfOk result (λ n. n ≤ most option) }
{
    let number = number_given(option, options)?;
    in_range(option, number)
}

/// The number of an option in its range.
pub fn ranged(option: Ranged, options: &Options) -> Result<u64, ShipFault>
    ensures gives { spec.Gives (λ n. n) result (spec.ranged option options.now) }
    ensures least { IfOk result (λ n. least option ≤ n) }
    ensures most { IfOk result (λ n. n ≤ most option) }
{
    match number_in(option, options) {
        Ok(number) => Ok(number),
        Err(fault) => Err(ShipFault::Words(fault)),
    }
}

/// The same, of an option whose numbers fit 32 bits.
pub fn ranged_u32(option: Ranged, options: &Options) -> Result<u32, ShipFault>
    requires fits { most option ≤ 4294967295 }
    ensures gives { spec.Gives (λ n. n) result (spec.ranged option options.now) }
    ensures least { IfOk result (λ n. least option ≤ n) }
    ensures most { IfOk result (λ n. n ≤ most option) }
{
    match ranged(option, options) {
        Ok(number) => Ok(number as u32),
        Err(fault) => Err(fault),
    }
}
