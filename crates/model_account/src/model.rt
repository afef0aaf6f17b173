// A plain second account of the steps: what each answers, where the log is written in batches and the webhook is strict.
use crate::draw::Draw;
use crate::going::{Bay, Going, Next};
use crate::said::Said;
use crate::wants::Wants;
use audit_core::{LinkNote, Sink};
use model_worlds::Limits;
use std::alloc::{AllocError, Global};
use truncate_backend::TryAnswer;

/// What the second account knows of the whole.
#[derive(Drop)]
pub struct Model {
    pub bays: Vec<Bay>,
    // Whether the API's row is there: before any change, and after each.
    rows: Vec<bool>,
    // The lines in the log's buffer, by bay and number.
    pub contents: Vec<(u16, u64)>,
    // The lengths of the lines that were taken and not tried.
    pub pending: Vec<u64>,
    // How many lines were taken, and how often lines were tried.
    pub taken: u64,
    pub tries: u64,
    capacity: u32,
    limits: Limits,
}

fn link_status(link: LinkNote) -> u16 {
    match link {
        LinkNote::Whole(status) | LinkNote::Streamed(status) => status,
        LinkNote::NotUsed | LinkNote::DialFailed => 503,
        LinkNote::BadReply | LinkNote::Cut | LinkNote::LinkFault => 502,
    }
}

impl Model {
    /// Before any step, of a core of so many bays whose buffers hold so many lines.
    pub fn new(
        alloc: Global,
        bays: u16,
        capacity: u32,
        limits: Limits,
    ) -> Result<Model, AllocError> {
        let mut own = Vec::new(alloc);
        for _ in 0..bays {
            own.push(Bay::new())?;
        }
        Ok(Model {
            bays: own,
            rows: vec![in alloc; true]?,
            contents: Vec::new(alloc),
            pending: Vec::new(alloc),
            taken: 0,
            tries: 0,
            capacity,
            limits,
        })
    }

    /// How many changes were made.
    pub fn changes(&self) -> u64 {
        (self.rows.len() as u64).saturating_sub(1)
    }

    fn has_row(&self, seen: u64) -> bool {
        match self.rows.get(seen as usize) {
            Some(row) => *row,
            None => false,
        }
    }

    fn bay(&self, bay: u16) -> Option<Bay> {
        self.bays.get(bay as usize).copied()
    }

    /// What comes next of a bay, which begins where it isn't there.
    pub fn next(&self, bay: u16) -> Next {
        match self.bay(bay) {
            Some(own) => own.next(),
            None => Next::Begin,
        }
    }

    fn going(&self, bay: u16) -> Option<(Bay, Going)> {
        let own = self.bay(bay)?;
        let going = own.going?;
        Some((own, going))
    }

    fn set(&mut self, bay: u16, own: Bay) {
        if let Some(place) = self.bays.get_mut(bay as usize) {
            *place = own;
        }
    }

    fn begin(&mut self, bay: u16, wants: Wants, moment: u64) -> Option<Said> {
        let own = self.bay(bay)?;
        if own.going.is_some() {
            return None;
        }
        let going = Some(Going::new(wants, moment));
        let requests = own.requests.wrapping_add(1);
        self.set(
            bay,
            Bay {
                requests,
                going,
                ..own
            },
        );
        Some(Said::Begun)
    }

    fn find(&mut self, bay: u16, seen: u64) -> Option<Said> {
        let (own, going) = self.going(bay)?;
        if going.waits > 0 || going.found || going.failed {
            return None;
        }
        if seen < own.seen || seen > self.changes() {
            return None;
        }
        let going = Some(Going {
            found: true,
            seen,
            ..going
        });
        self.set(bay, Bay { seen, going, ..own });
        let routed = match own.going?.wants {
            Wants::Pod | Wants::Watch | Wants::Secret => true,
            Wants::Health | Wants::Delete | Wants::Create => false,
        };
        if routed && self.has_row(seen) {
            Some(Said::Row)
        } else {
            Some(Said::NoRow)
        }
    }

    fn change(&mut self, bay: u16) -> Result<Option<Said>, AllocError> {
        let Some((own, going)) = self.going(bay) else {
            return Ok(None);
        };
        if going.waits > 0 || !going.found || going.failed || going.decided || !going.asks() {
            return Ok(None);
        }
        let before = self.changes();
        let row = self.has_row(before);
        let makes = row == (going.wants == Wants::Delete);
        if makes {
            self.rows.push(!row)?;
        }
        let going = Some(Going {
            decided: true,
            seen: before,
            ..going
        });
        let seen = self.changes();
        self.set(bay, Bay { seen, going, ..own });
        Ok(Some(if makes { Said::Made } else { Said::Refused }))
    }

    // The status of the answer, where a link came to that.
    fn status(&self, going: Going, link: LinkNote) -> u16 {
        if going.failed {
            500
        } else if self.has_row(going.seen) {
            link_status(link)
        } else {
            404
        }
    }

    fn start(&mut self, bay: u16, status: u16, moment: u64) -> Option<Said> {
        let (own, going) = self.going(bay)?;
        if !going.is_ready(moment) || going.wants != Wants::Watch || going.started.is_some() {
            return None;
        }
        let proxied = !going.failed && self.has_row(going.seen);
        if !proxied && status != self.status(going, LinkNote::NotUsed) {
            return None;
        }
        let going = Going {
            started: Some(status),
            last: moment,
            ..going
        };
        let going = Some(going.waiting(false));
        self.set(bay, Bay { going, ..own });
        Some(Said::Noted)
    }

    fn finish(&mut self, bay: u16, link: LinkNote, moment: u64) -> Option<Said> {
        let (own, going) = self.going(bay)?;
        if !going.is_ready(moment) {
            return None;
        }
        if going.wants == Wants::Watch && going.started != Some(self.status(going, link)) {
            return None;
        }
        let going = Going {
            finished: true,
            last: moment,
            ..going
        };
        let going = going.waiting(false).unless_over();
        self.set(bay, Bay { going, ..own });
        Some(Said::Noted)
    }

    fn push(&mut self, bay: u16, number: u64) -> Result<Said, AllocError> {
        if self.contents.len() as u64 >= u64::from(self.capacity) {
            return Ok(Said::Full);
        }
        self.contents.push((bay, number))?;
        Ok(Said::Taken)
    }

    fn offer_log(&mut self, bay: u16) -> Result<Option<Said>, AllocError> {
        let Some((own, going)) = self.going(bay) else {
            return Ok(None);
        };
        if going.waits != 2 {
            return Ok(None);
        }
        let said = self.push(bay, own.lines)?;
        let going = Some(Going { waits: 1, ..going });
        let lines = own.lines.wrapping_add(1);
        self.set(
            bay,
            Bay {
                going,
                lines,
                ..own
            },
        );
        Ok(Some(said))
    }

    fn offer_hook(&mut self, bay: u16, answer: TryAnswer) -> Option<Said> {
        let (own, going) = self.going(bay)?;
        if going.waits != 1 {
            return None;
        }
        let done = answer == TryAnswer::Done;
        let going = Going {
            waits: 0,
            failed: going.failed || (going.arrival && !done),
            ..going
        };
        let going = going.unless_over();
        let posts = own.posts.wrapping_add(1);
        self.set(
            bay,
            Bay {
                going,
                posts,
                ..own
            },
        );
        Some(if done { Said::Taken } else { Said::Failed })
    }

    fn is_over(&self) -> bool {
        let mut bytes: u64 = 0;
        for length in &self.pending {
            bytes = bytes.saturating_add(*length);
        }
        self.pending.len() > 1 && bytes > self.limits.bytes
    }

    // The line that is taken has that length.
    fn take(&mut self, length: u64) -> Result<Option<Said>, AllocError> {
        if self.pending.len() as u64 >= u64::from(self.limits.lines) || self.is_over() {
            return Ok(None);
        }
        if self.contents.is_empty() {
            return Ok(Some(Said::NoLine));
        }
        self.pending.push(length)?;
        self.taken = self.taken.wrapping_add(1);
        let (bay, number) = self.contents.remove(0);
        Ok(Some(Said::Line(bay, number)))
    }

    fn cut(&mut self, answer: TryAnswer) -> Option<Said> {
        let last = self.pending.last().copied()?;
        let mut count = u32::try_from(self.pending.len()).unwrap_or(u32::MAX);
        let over = self.is_over();
        self.pending.clear();
        self.tries = self.tries.wrapping_add(1);
        if over {
            count = count.saturating_sub(1);
            self.pending.push(last).ok()?;
        }
        Some(if answer == TryAnswer::Done {
            Said::Wrote(count)
        } else {
            Said::Lost(count)
        })
    }

    /// What a step answers. A line that it takes has that length.
    pub fn step(&mut self, draw: Draw, length: u64) -> Result<Said, AllocError> {
        let said = match draw {
            Draw::Begin(bay, wants, moment) => self.begin(bay, wants, moment),
            Draw::Find(bay, seen) => self.find(bay, seen),
            Draw::Offer(bay, Sink::Log, _) => self.offer_log(bay)?,
            Draw::Offer(bay, Sink::Webhook, answer) => self.offer_hook(bay, answer),
            Draw::Started(bay, status, moment) => self.start(bay, status, moment),
            Draw::Finish(bay, link, moment) => self.finish(bay, link, moment),
            Draw::Change(bay) => self.change(bay)?,
            Draw::Take(Sink::Log) => self.take(length)?,
            Draw::Cut(Sink::Log, answer) => self.cut(answer),
            Draw::Take(Sink::Webhook) | Draw::Cut(Sink::Webhook, _) => None,
        };
        Ok(said.unwrap_or(Said::Idle))
    }
}
