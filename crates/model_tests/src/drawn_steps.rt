// Two thousand drawn steps, beside a second account of them.
use crate::drawn::{first_missing, first_unlike};
use crate::runs::{drawn_turns, run_again};
use audit_core::SinkMode;
use model_account::Form;
use model_worlds::Limits;
use std::test::Fail;

// Three lines are a whole batch, or have more bytes than a batch may have.
const FORM: Form = Form {
    bays: 3,
    log: SinkMode::Batch,
    hook: SinkMode::Strict,
    capacity: 4,
    limits: Limits {
        lines: 3,
        bytes: 1_500,
    },
};

const SEED: u64 = 1;

const STEPS: u64 = 2_000;

// Each kind of step with each answer that it may have where events fit in their lines, so that the run isn't an easy one.
const WORDS: &str = "\
begin begun
begin idle
find row
find no row
find idle
offer taken
offer full
offer failed
offer idle
started noted
started idle
finish noted
finish idle
change made
change refused
change idle
take line
take no line
take idle
cut wrote
cut lost
cut idle
";

#[test]
fn drawn_steps_answer_as_the_second_account(rt: HostRuntime) -> Result<(), Fail> {
    let alloc = rt.alloc();
    let turns = drawn_turns(alloc, FORM, SEED, STEPS)?;
    assert_eq!(rt; turns.len(), 2_000);
    assert_eq!(rt; first_unlike(turns.as_slice()), None);
    assert_eq!(rt; first_missing(turns.as_slice(), WORDS), None);
    assert!(rt; run_again(alloc, FORM, turns.as_slice())?);
    Ok(())
}
