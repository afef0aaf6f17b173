// What the second account knows of a bay and its request.
use crate::wants::Wants;

// A request that isn't over.
#[derive(Clone, Copy)]
pub struct Going {
    pub wants: Wants,
    pub found: bool,
    pub failed: bool,
    pub decided: bool,
    pub started: Option<u16>,
    pub finished: bool,
    pub last: u64,
    pub seen: u64,
    // Two where the log's offer waits and the webhook's behind it, one where the webhook's alone waits.
    pub waits: u8,
    // They are those of its arrival.
    pub arrival: bool,
}

#[derive(Clone, Copy)]
pub struct Bay {
    pub seen: u64,
    // How many requests it began.
    pub requests: u64,
    // How many lines it offered to the log.
    pub lines: u64,
    // How many it offered to the webhook.
    pub posts: u64,
    pub going: Option<Going>,
}

/// What comes next of a bay.
#[derive(Clone, Copy)]
pub enum Next {
    Begin,
    OfferLog,
    OfferHook,
    Find,
    Change,
    Start,
    Finish,
}

impl Bay {
    pub fn new() -> Bay {
        Bay {
            seen: 0,
            requests: 0,
            lines: 0,
            posts: 0,
            going: None,
        }
    }

    pub fn next(self) -> Next {
        match self.going {
            None => Next::Begin,
            Some(going) => going.next(),
        }
    }
}

impl Going {
    pub fn new(wants: Wants, moment: u64) -> Going {
        let going = Going {
            wants,
            found: false,
            failed: false,
            decided: false,
            started: None,
            finished: false,
            last: moment,
            seen: 0,
            waits: 0,
            arrival: true,
        };
        going.waiting(true)
    }

    fn next(self) -> Next {
        if self.waits == 2 {
            Next::OfferLog
        } else if self.waits == 1 {
            Next::OfferHook
        } else if !self.failed && !self.found {
            Next::Find
        } else if !self.failed && self.asks() && !self.decided {
            Next::Change
        } else if self.wants == Wants::Watch && self.started.is_none() {
            Next::Start
        } else {
            Next::Finish
        }
    }

    pub fn asks(self) -> bool {
        self.wants == Wants::Delete || self.wants == Wants::Create
    }

    pub fn is_ready(self, moment: u64) -> bool {
        let decided = self.failed || (self.found && (!self.asks() || self.decided));
        self.waits == 0 && decided && !self.finished && self.last <= moment
    }

    // Two offers come next, or none of what isn't recorded.
    pub fn waiting(self, arrival: bool) -> Going {
        let waits = if self.wants == Wants::Secret { 0 } else { 2 };
        Going {
            waits,
            arrival,
            ..self
        }
    }

    pub fn unless_over(self) -> Option<Going> {
        if self.finished && self.waits == 0 {
            None
        } else {
            Some(self)
        }
    }
}
