ghost use Rattle.std.specs.Prelude.{◌≡◌, Ok, Err, IfOk, IfErr, map, string_bytes};
ghost use Rattle.rehearse_plan.specs.Words as spec;
ghost use Rattle.rehearse_plan.specs.declared.plan.TheConstants.{BAYS};

use crate::plan::{BAYS, MOST_REHEARSED, Rehearsal};
use front_base::number_of;

/// Why words ask for no rehearsal.
#[derive(Clone, Copy, Debug, PartialEq, Eq)]
pub enum RehearsalFault {
    /// They are no command line of `rehearse`.
    Usage,
    /// So many requests are none, or too many.
    Count(u64),
}

// The number that 1 to 20 digits spell, where it is below 2^64.
fn short_number(text: &str) -> Option<u64>
    ensures { result ≡ spec.short_number text.now }
{
    if text.len() > 20 {
        return None;
    }
    number_of(text.as_bytes())
}

fn planned(start: u64, count: u64) -> Result<Rehearsal, RehearsalFault>
    ensures ok { IfOk result (λ plan. spec.planned start count ≡ Ok (spec.asked_by plan)) }
    ensures bays { IfOk result (λ plan. plan.bays ≡ BAYS) }
    ensures err { IfErr result (λ fault. spec.planned start count ≡ Err fault) }
{
    if count == 0 || count > u64::from(MOST_REHEARSED) {
        return Err(RehearsalFault::Count(count));
    }
    Ok(Rehearsal {
        start,
        count: count as u32,
        bays: BAYS,
    })
}

/// What the words after the program's name ask for: `rehearse START COUNT`.
pub fn read_rehearsal(words: &[String]) -> Result<Rehearsal, RehearsalFault>
    ensures ok { IfOk result (λ plan. spec.rehearsal_of (map string_bytes words.now) ≡ Ok (spec.asked_by plan)) }
    ensures bays { IfOk result (λ plan. plan.bays ≡ BAYS) }
    ensures err { IfErr result (λ fault. spec.rehearsal_of (map string_bytes words.now) ≡ Err fault) }
{
    match words {
        [word, start, count] if word.as_str() == "rehearse" => {
            match (short_number(start.as_str()), short_number(count.as_str())) {
                (Some(start), Some(count)) => planned(start, count),
                _ => Err(RehearsalFault::Usage),
            }
        }
        _ => Err(RehearsalFault::Usage),
    }
}
