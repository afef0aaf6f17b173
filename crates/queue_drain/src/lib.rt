//! The drainer of one sink: it takes the lines of a queue that all bays share, and puts them into the sink in batches, while
//! bays go on; and once they have ended it puts what is left.
//!
//! The main contract is that of `QueueDrain::finish`. Whatever ran before, each line that a lane accepted stands in the tries
//! of the sink once, in its bay's order, and no other line does; each try is within the limits; and the counts of written
//! and of lost lines are those of the tries. Each try but the last one ended for its number, its bytes or its age. It was put at
//! the first turn of the drainer at which its first line had waited as long as a line may, or before.
//!
//! Nothing is promised of how far the turns lie apart, or whether a drainer keeps up with the bays.
#![tactic(auto)]

mod drain;
mod drain_end;

pub use drain::QueueDrain;
pub use drain_end::DrainEnd;
