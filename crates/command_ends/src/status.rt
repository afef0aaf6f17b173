ghost use Rattle.std.specs.Prelude.{◌≡◌};
ghost use Rattle.command_ends.specs.Status.{code_of};

/// How a top call ended.
#[derive(Clone, Copy, Debug, PartialEq, Eq)]
pub enum Status {
    /// All that was asked for was done.
    Done,
    /// The words are no command line.
    Usage,
    /// An option is out of its range, or a file is invalid.
    Configuration,
    /// A file or the input could not be read.
    ReadFault,
    /// A socket or a sink could not be opened.
    PortFault,
    /// Memory ran out.
    NoMemory,
    /// The output could not be written.
    WriteFault,
    /// A connection thread has served as many requests as there are numbers.
    NumbersSpent,
    /// The input holds something that is refused.
    Input,
    /// A line of a log doesn't conform to its policy.
    Log,
    /// What had to be sent wasn't taken: lines of a log are lost, or a front door hasn't taken what it was told last.
    NotDelivered,
    /// No server answered with its list of resources, or a front door gave no list of its APIServices.
    NothingListed,
}

impl Status {
    /// The status that the program ends with.
    pub fn code(self) -> u8
        ensures { result ≡ code_of self }
    {
        match self {
            Status::Done => 0,
            Status::Usage => 2,
            Status::Configuration => 3,
            Status::ReadFault => 4,
            Status::PortFault => 5,
            Status::NoMemory => 6,
            Status::WriteFault => 7,
            Status::NumbersSpent => 8,
            Status::Input => 9,
            Status::Log => 10,
            Status::NotDelivered => 11,
            Status::NothingListed => 12,
        }
    }

    /// The word that names it, none where all was done.
    pub fn word(self) -> Option<&'static str> {
        match self {
            Status::Done => None,
            Status::Usage => Some("usage"),
            Status::Configuration => Some("configuration"),
            Status::ReadFault => Some("read fault"),
            Status::PortFault => Some("port fault"),
            Status::NoMemory => Some("no memory"),
            Status::WriteFault => Some("write fault"),
            Status::NumbersSpent => Some("numbers spent"),
            Status::Input => Some("input"),
            Status::Log => Some("log"),
            Status::NotDelivered => Some("not delivered"),
            Status::NothingListed => Some("nothing listed"),
        }
    }
}
