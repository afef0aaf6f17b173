//! The lines of an input, shipped to a sink in batches at a pace, each batch as often as it takes, and the summary of what became of them.
//!
//! The main contract is that of `ship_input`: the bucket is full at the first moment of the clock, the lines of the input are shipped from then
//! on, and where its end was reached the counts are written, and nothing else is. The definitions to read are `Ships` of `Runs` and `Sums`, and
//! below them `ShipsInput`, by which `ship_log` says which lines it read, that their batches were sent one after another, each as
//! `retry_throttle` sends one, what became of them, and why it stopped. Memory is that of one batch and of one line.
//!
//! Laws say more of it. `gathering_cuts` and `one_list_of_batches`: what is gathered are the batches of all lines, `AreBatches`, of which there
//! is one list alone. `few_posts_between_moments` bounds the posts between two moments. `each_line_is_counted`: each line that was read from
//! the first one on is counted as posted or as lost, and none as both. `none_lost_is_all_posted`: a count of 0 leaves no batch undone.
//!
//! Nothing is promised of how much of an input is read ahead, nor of what a sink or a clock does that tells nothing.
#![tactic(auto)]

mod cut_laws;
mod end;
mod gathering;
mod input;
mod laws;
mod next;
mod pace;
mod pass;
mod send;
mod ship;
mod summary;
mod tally;
mod texts;

pub use cut_laws::{gathering_cuts, one_list_of_batches};
pub use end::ShipEnd;
pub use input::{ShipEnded, ship_input};
pub use laws::{
    each_line_is_counted, event_lines_are_shippable, few_posts_between_moments,
    none_lost_is_all_posted,
};
pub use pace::ShipPace;
pub use ship::{Shipment, ship_log};
pub use summary::Summed;
pub use tally::Tally;
