// The requests of a rehearsal, and what they come to.
use case_rows::spelled;
use rehearse_plan::{Rehearsal, RehearsalFault, bay_input, read_rehearsal, summary};
use std::alloc::{AllocError, Global};

fn plan_of(alloc: Global, line: &str) -> Result<Rehearsal, RehearsalFault> {
    let mut words = Vec::new(alloc);
    for word in line.split(' ').skip(1) {
        if let Ok(word) = String::from_str(alloc, word) {
            let _ = words.push(word);
        }
    }
    read_rehearsal(words.as_slice())
}

fn summed(alloc: Global, plan: Rehearsal) -> Result<String, AllocError> {
    match summary(alloc, plan) {
        Ok(text) => {
            let text = str::from_utf8(text.as_slice()).unwrap_or("not UTF-8");
            format!(in alloc; "{plan:?}\n{text}")
        }
        Err(_) => Err(AllocError),
    }
}

/// What a command line plans, and the summary of it.
pub fn plan(alloc: Global, line: &str) -> Result<String, AllocError> {
    match plan_of(alloc, line) {
        Ok(plan) => summed(alloc, plan),
        Err(fault) => format!(in alloc; "{fault:?}\n"),
    }
}

fn inputs(alloc: Global, plan: Rehearsal) -> Result<String, AllocError> {
    let mut text = String::from_str(alloc, "\n")?;
    for bay in 0..plan.bays {
        if let Ok(input) = bay_input(alloc, plan, bay) {
            text.push_str(spelled(alloc, input.as_slice()).as_str())?;
        }
        text.push('\n')?;
    }
    Ok(text)
}

/// The input of each bay of what a command line plans, a line each.
pub fn bays(alloc: Global, line: &str) -> Result<String, AllocError> {
    match plan_of(alloc, line) {
        Ok(plan) => inputs(alloc, plan),
        Err(fault) => format!(in alloc; "{fault:?}\n"),
    }
}
