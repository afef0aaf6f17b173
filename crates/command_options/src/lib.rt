//! The grammar of a command line: how words spell options, each given once at most, and what the values of options say.
//!
//! The main contract is that of `given_of`, which reads the options of any command: its answer is the one that the
//! definition `given_of` states for the words and the names of the options. That the crate `clap`, which walks over the
//! words, takes and finds exactly these is proved for all names, and said by the law `clap_agrees`. A flag is read as an
//! option in one word (`with_flag`). `in_range` refuses exactly the numbers that are out of an option's range. `Asked::of` says
//! which command, or which page of help, words ask for.
//!
//! Nothing is promised of what `bad_word` answers but that it returns: tests show which word it tells.
#![tactic(auto)]

mod asked;
mod diagnosis;
mod fault;
mod files;
mod flag;
mod given;
mod laws;
pub mod names;
mod ranged;
mod spelling;
mod table;

pub use asked::{Asked, Topic};
pub use diagnosis::{BadWord, WordFault, bad_word};
pub use fault::WordsFault;
pub use files::{FileNames, file_names};
pub use flag::{has_flag, with_flag};
pub use given::{Options, given_of, is_given, text_of, value_of};
pub use laws::{both_spellings, clap_agrees, the_flag_is_one_word};
pub use ranged::{Ranged, have_numbers, in_range, number_given, number_if_given};
pub use table::{
    ValueKind, command_with, excluded_by, kind_of, options_for, ranged_named, required_by, sink_of,
};
