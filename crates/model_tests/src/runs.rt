// Runs from a core's start. They are one function, since the end of a core is long to prove.
use crate::drawn::draw_turns;
use crate::worked::{Worked, take_rows};
use model_account::{Form, Turn, are_run, core_of};
use model_steps::Core;
use std::alloc::Global;
use std::test::Fail;

#[derive(Clone, Copy)]
enum Job<'a> {
    Draw { seed: u64, count: u64 },
    Again(&'a [Turn]),
    Rows(&'a str),
}

#[derive(Drop)]
enum Done {
    Turns(Vec<Turn>),
    Same(bool),
    Rows(Worked),
}

fn work(alloc: Global, core: &mut Core, form: Form, job: Job<'_>) -> Result<Done, Fail> {
    match job {
        Job::Draw { seed, count } => Ok(Done::Turns(draw_turns(alloc, core, form, seed, count)?)),
        Job::Again(turns) => Ok(Done::Same(are_run(alloc, core, turns)?)),
        Job::Rows(rows) => Ok(Done::Rows(take_rows(alloc, core, rows)?)),
    }
}

fn run(alloc: Global, form: Form, job: Job<'_>) -> Result<Done, Fail> {
    let mut core = core_of(alloc, form)?;
    work(alloc, &mut core, form, job)
}

/// So many steps, drawn from that seed.
pub fn drawn_turns(alloc: Global, form: Form, seed: u64, count: u64) -> Result<Vec<Turn>, Fail> {
    match run(alloc, form, Job::Draw { seed, count })? {
        Done::Turns(turns) => Ok(turns),
        Done::Same(_) | Done::Rows(_) => Err("turns")?,
    }
}

/// Whether the same steps in one call have the same answers in order.
pub fn run_again(alloc: Global, form: Form, turns: &[Turn]) -> Result<bool, Fail> {
    match run(alloc, form, Job::Again(turns))? {
        Done::Same(same) => Ok(same),
        Done::Turns(_) | Done::Rows(_) => Err("answers")?,
    }
}

/// Takes the steps of these rows, each a step, `|` and what it answers.
pub fn run_rows(alloc: Global, form: Form, rows: &str) -> Result<Worked, Fail> {
    match run(alloc, form, Job::Rows(rows))? {
        Done::Rows(worked) => Ok(worked),
        Done::Turns(_) | Done::Same(_) => Err("rows")?,
    }
}
