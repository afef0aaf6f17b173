use apiservice_rows::Row;
use apiservice_table::ChangeFault;
use audit_core::{LinkNote, Outcome, Sink};
use front_base::{Line, Moment};
use http_edge::Request;
use stage_event::Kept;
use truncate_backend::TryAnswer;

/// What the outside answered to a try of a sink.
#[derive(Clone, Copy, Debug, PartialEq, Eq)]
pub struct TryTold {
    pub answer: TryAnswer,
    /// How many bytes of the try's text were written. Where the answer is `Done` all were, whatever stands here.
    pub sent: u64,
}

/// One step of the whole. A bay is a connection thread; each step of a bay or of a sink is atomic, and a list of steps is
/// one way in which the bays and the writers of the sinks took turns.
#[derive(Drop)]
pub enum Step {
    /// A bay received a request.
    Begin {
        bay: u16,
        request: Request,
        /// The IPv4 address of the other end of the connection.
        peer: [u8; 4],
        moment: Moment,
    },
    /// A bay looked at the table, as it was after so many changes.
    Find {
        bay: u16,
        seen: u64,
    },
    /// A bay offered its next line to a sink. Sinks that are written to at once answered so.
    Offer {
        bay: u16,
        sink: Sink,
        works: TryTold,
    },
    /// The head of a long-running request's reply was known.
    Started {
        bay: u16,
        status: u16,
        moment: Moment,
    },
    /// A bay's request was answered: what became of the link, and what is kept of the reply's body.
    Finish {
        bay: u16,
        link: LinkNote,
        reply: Kept,
        moment: Moment,
    },
    /// The change that a bay's request asks for was decided, by the rows after all changes before it.
    Change {
        bay: u16,
    },
    /// The writer of a sink took a line from its buffer.
    Take {
        sink: Sink,
    },
    /// The writer of a sink wrote the lines that it took, and was answered so.
    Cut {
        sink: Sink,
        works: TryTold,
    },
}

/// What a step answers.
#[derive(Drop)]
pub enum StepAnswer {
    Begun,
    /// The row that decides on the request, where it is for an API.
    Found(Option<Row>),
    Offered(Outcome),
    Noted,
    /// Why the change was refused, if it was.
    Changed(Option<ChangeFault>),
    Took(Option<Line>),
    /// So many lines were written.
    Wrote(u32),
    /// So many lines were tried and not written.
    Lost(u32),
    /// The step could not be taken, and nothing changed.
    Idle,
}
