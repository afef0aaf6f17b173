ghost use Rattle.std.specs.Prelude.{◌≡◌, ◌++◌, ◌∷◌, [], OnOk, OnErr, slice_set, slice_index_or};

use front_base::NoMemory;
use model_worlds::Items;

/// Adds a value behind those at a place, if there is that place. Where memory ran out, all stay as they are.
#[tactic(auto, using(crate::proofs::ListLemmas::set_read))]
pub fn push_at<T: Drop>(lanes: &mut Items<Items<T>>, place: usize, value: T) -> Result<(), NoMemory>
    ensures ok { OnOk result
        (lanes.new ≡ slice_set lanes.old place (slice_index_or lanes.old place [] ++ value ∷ [])) }
    ensures err { OnErr result (lanes.new ≡ lanes.old) }
{
    if place >= lanes.as_slice().len() {
        return Ok(());
    }
    lanes.at_mut(place).push(value)
}
