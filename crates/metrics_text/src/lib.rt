//! The metrics of a run of a server, as text.
//!
//! The main contract is that of `metrics_text`: the text is that of the metrics of these counts in Prometheus' text format. The
//! definitions to read are `Exposition` and `Metrics`. Names are those of kube-apiserver where it counts the same.
//!
//! Nothing is promised of where the counts come from.
#![tactic(auto)]

mod counts;
mod metric;
mod sinks;
mod text;

pub use counts::{Answers, Connections, RunCounts, SinkLines};
pub use text::metrics_text;
