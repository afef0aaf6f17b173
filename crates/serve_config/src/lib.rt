//! What a run of `serve` begins with: what its words ask for, and what the files that they name say; or how it is refused.
//!
//! The main contract is that of `configure_serve`: where it succeeds, the words are a command line of `serve` and the files
//! are loaded as `front_config` loads those of `explain`. Where it doesn't, the status and what is told of it are those of
//! the first refusal, and a file is said to be unreadable only where the files' count of faults rose.
//!
//! What the words ask for, or the first refusal in the order of the options, is what `read_serve` answers, as the definition
//! `serve_command` states it. How words spell options is said in `command_options`. The law `the_limits_are_the_ports_own` says that the
//! defaults of timeouts are those of `tcp_ports`, and `a_sink_is_off_where_it_has_no_name` that a sink is off exactly there.
//!
//! Nothing is promised of which word is told of words that are no command line, nor of what a real file holds. No port is
//! opened here.
#![tactic(auto)]

mod batch;
mod config;
mod fault;
mod laws;
mod limits;
mod numbers;
mod refused;
mod serve;
mod sinks;

pub use batch::BatchWords;
pub use config::{ServeConfig, configure_serve};
pub use fault::ServeFault;
pub use laws::{a_sink_is_off_where_it_has_no_name, the_limits_are_the_ports_own};
pub use serve::{ServeWords, read_serve};
pub use sinks::SinkWords;
