//! What holds after every list of steps, in whatever order bays and sinks took turns: laws over the steps of `model_worlds`.
//!
//! `core_parts` says what becomes of each line that a bay offers to a sink, what is true of each exchange, and who made the
//! changes of the table. A buffer loses no line, adds none, and keeps those of a bay in order: what is in it and what was
//! taken from it are the lines of the offers that are noted as taken, and what was taken was tried or waits for a try. A
//! sink that is written to at once tries the lines of the offers that are noted as taken or failed, one at a time. An
//! exchange that is over was answered as the rows that it saw say, and each event that it owes was offered to each sink
//! that is on, unless nothing of it fits. One that is not over is so as far as it has come. Each change of the table was
//! made by one exchange, and was decided by the rows after the changes before it. Each Begin that a bay took began one
//! exchange, which says what its request means, and whose number is that of the exchanges before it.
//!
//! Nothing runs here: these are laws of definitions. Nothing is promised of the reply of a backend but its status, nor that
//! a step is ever taken: a line may wait in a buffer for ever.
#![tactic(auto)]

mod laws;

pub use laws::core_parts;
