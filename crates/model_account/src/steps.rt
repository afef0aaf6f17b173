// Drawn steps as a core takes them.
use crate::setting::{moment_of, request_of};
use crate::{Draw, Wants};
use model_worlds::{Step, TryTold};
use stage_event::Kept;
use std::alloc::Global;
use std::test::Fail;
use truncate_backend::TryAnswer;

fn told(answer: TryAnswer) -> TryTold {
    TryTold { answer, sent: 1 }
}

fn begin_of(alloc: Global, bay: u16, wants: Wants, moment: u64) -> Result<Step, Fail> {
    Ok(Step::Begin {
        bay,
        request: request_of(alloc, wants)?,
        peer: [10, 0, 0, 7],
        moment: moment_of(moment)?,
    })
}

/// A drawn step, with the texts and the moments that it stands for.
pub fn step_of(alloc: Global, draw: Draw) -> Result<Step, Fail> {
    match draw {
        Draw::Begin(bay, wants, moment) => begin_of(alloc, bay, wants, moment),
        Draw::Find(bay, seen) => Ok(Step::Find { bay, seen }),
        Draw::Offer(bay, sink, answer) => Ok(Step::Offer {
            bay,
            sink,
            works: told(answer),
        }),
        Draw::Started(bay, status, moment) => Ok(Step::Started {
            bay,
            status,
            moment: moment_of(moment)?,
        }),
        Draw::Finish(bay, link, moment) => Ok(Step::Finish {
            bay,
            link,
            reply: Kept::NotAsked,
            moment: moment_of(moment)?,
        }),
        Draw::Change(bay) => Ok(Step::Change { bay }),
        Draw::Take(sink) => Ok(Step::Take { sink }),
        Draw::Cut(sink, answer) => Ok(Step::Cut {
            sink,
            works: told(answer),
        }),
    }
}
