ghost use Rattle.std.specs.Prelude.{◌≡◌, ◌<◌, IfOk, true};
ghost use Rattle.rehearse_plan.specs.Planned.{Follows};

use crate::exchange::is_planned;
use crate::kind::Kind;
use crate::plan::Rehearsal;
use crate::request::{number_of, share};
use front_base::NoMemory;
use session_core::Exchange;
use std::alloc::Global;

/// Whether these exchanges are all those of a bay, in order.
pub fn follows(
    alloc: Global,
    plan: Rehearsal,
    bay: u16,
    exchanges: &[Exchange],
) -> Result<bool, NoMemory>
    requires bay { bay < plan.bays }
    ensures { IfOk result (λ follows. follows ≡ true → Follows plan.start plan.count plan.bays bay exchanges.now) }
{
    let count = share(plan, bay);
    if exchanges.len() != count as usize {
        return Ok(false);
    }
    for turn in 0..count {
        let number = number_of(plan, bay, turn);
        if !is_planned(
            alloc,
            Kind::at(plan.start, number),
            number,
            &exchanges[turn as usize],
        )? {
            return Ok(false);
        }
    }
    Ok(true)
}
