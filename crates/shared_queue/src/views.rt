use front_base::Line;
use std::collections::LinkedList;

/// A lane that ended: its bay, and the lines that it accepted. No value of it is made.
pub struct EndedLane {
    pub bay: u64,
    pub accepted: LinkedList<Line>,
}

/// What a pass of the queue knows. No value of it is made.
pub struct View {
    /// It makes lanes, and takes in those that ended.
    pub makes: bool,
    /// It is a living lane.
    pub pushes: bool,
    /// It pops.
    pub pops: bool,
    /// A lane's bay, and the lines that it accepted.
    pub bay: u64,
    pub accepted: LinkedList<Line>,
    /// The lines that were taken, where it pops.
    pub taken: LinkedList<Line>,
    /// How many lanes the maker made.
    pub made: u64,
    /// The allotments of all lanes.
    pub allotments: LinkedList<u64>,
    /// The lanes that came back to the maker.
    pub ended: LinkedList<EndedLane>,
}
