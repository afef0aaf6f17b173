//! What an auditor relies on of a whole run: laws over the contract of `serve_runs::run_serve`.
//!
//! `accepted_lines_are_batched` says of a sink in batch mode that its batches have, of each bay, the lines of the events that the bay's
//! requests owed and the sink's buffer took, in order, each once, and no other line; and why a line was not taken. By
//! `drained_tries_are_batched` the same holds of the tries that a drainer made where its sink tells none.
//! `tried_lines_are_those_offered` says of a sink that is written to at once that its tries are one line each of those events. The
//! requests are those of the bay's connections (`run_exchanges`), whatever the diary tells. `sent_bytes_are_those_of_the_record`
//! says of a sink whose port tells its bytes that they are worked out from these, from whose turn each line was, and from the notes of
//! its tries (`audit_bytes`, `run_record`).
//!
//! And that a run loses nothing where nothing fails. What a bay owes a sink is `lines_due`, which speaks of nothing but what was due; by
//! `owed_lines_are_numbered` no two of its lines are equal. `nothing_is_lost_in_batches` says of a sink in batch mode what becomes of each
//! of them. Where no offer was Full, the lines of the tries are all that the bay owed, in order and each once. Where each try was Done, or
//! none of their lines was counted as lost, each was written. Where as many lines were written as bays offered, nothing was lost at all.
//! `nothing_is_lost_at_once` says it of a bay's own sink that counted no fault and no refusal. `a_run_without_faults_is_done`
//! says which runs end with status 0, and `failed_links_are_counted` that a backend that can't be reached is counted.
//!
//! Not promised: that a queue isn't full, but where its capacity has room for the allotments of all bays. Where
//! memory ran out within a connection, a rest of what its last exchange owed isn't spoken of (`BayTold.whole`).
//!
//! Nothing runs here: these are laws of definitions.
#![tactic(auto)]

mod laws;
mod losses;

pub use laws::{
    accepted_lines_are_batched, drained_tries_are_batched, sent_bytes_are_those_of_the_record,
    tried_lines_are_those_offered,
};
pub use losses::{
    a_run_without_faults_is_done, failed_links_are_counted, nothing_is_lost_at_once,
    nothing_is_lost_in_batches, owed_lines_are_numbered,
};
