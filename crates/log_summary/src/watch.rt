use stage_event::Event;

/// Is shown the events of a log, as they are accepted.
pub trait Watch {
    /// Whether it looks at events at all. Where it doesn't, none needs to be shown.
    fn is_watching(&self) -> bool;

    /// An event was accepted. `is_first` says whether none of its request was accepted before it.
    fn accepted(&mut self, event: &Event, is_first: bool);
}

/// Looks at no event.
#[derive(Debug, Drop)]
pub struct NoWatch;

impl Watch for NoWatch {
    fn is_watching(&self) -> bool {
        false
    }

    fn accepted(&mut self, _event: &Event, _is_first: bool) {}
}
