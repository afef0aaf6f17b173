// What a command line asks for.
use command_options::FileNames;
use front_base::Moment;

/// What `explain` was told.
#[derive(Debug, Drop)]
pub struct ExplainWords {
    pub files: FileNames,
    /// The most bytes that the line of an event may have, from 256 to 4194304.
    pub max_event: u64,
    /// What the clock shows, for all of the run.
    pub moment: Moment,
    /// Whether to say where each request goes, in the place of its audit lines.
    pub routes: bool,
}

/// A command and what it was told.
#[derive(Debug, Drop)]
pub enum Command {
    Explain(ExplainWords),
}
