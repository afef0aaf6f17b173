// Numbers in decimal digits.
ghost use Rattle.std.specs.Prelude.{◌≡◌, ◌≤◌, ◌<◌, length, IfOk};
ghost use Rattle.event_members.specs.Values as spec;
ghost use Rattle.event_members.specs.TextMembers.{Gives};

use crate::fault::EventFault;
use front_base::number_of;

// How many digits stand in front.
fn digits_len(bytes: &[u8]) -> usize
    ensures value { result ≡ spec.digits_len bytes.now }
    ensures within { result ≤ length bytes.now }
{
    match bytes.iter().position(|b| !b.is_ascii_digit()) {
        Some(i) => i,
        None => bytes.len(),
    }
}

// The number at the front, where it is below the limit.
#[tactic(auto, unfolding(crate::specs::Values::below_at))]
pub fn below(bytes: &[u8], limit: u64) -> Result<(u64, &[u8]), EventFault>
    ensures read { Gives (λ x. (x.0, x.1.now)) result (spec.below_at limit bytes.now) }
    ensures within { IfOk result (λ x. x.0 < limit) }
{
    let (digits, rest) = bytes.split_at(digits_len(bytes));
    match number_of(digits) {
        Some(number) if number < limit => Ok((number, rest)),
        _ => Err(EventFault::NotAnEvent),
    }
}
