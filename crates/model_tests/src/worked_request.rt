// One request from its arrival to the batch of its two lines, and steps that can't be taken.
use crate::runs::run_rows;
use crate::worked::Worked;
use audit_core::SinkMode;
use model_account::Form;
use model_worlds::Limits;
use std::test::Fail;

const FORM: Form = Form {
    bays: 1,
    log: SinkMode::Off,
    hook: SinkMode::Batch,
    capacity: 1,
    limits: Limits {
        lines: 2,
        bytes: 10_000,
    },
};

const ROWS: &str = "cut|idle
offer|idle
begin|begun
begin|idle
find|idle
offer log|idle
offer|taken
offer|idle
take|line 0
change|idle
finish|idle
find|no row
change|idle
find|idle
finish|noted
finish|idle
offer|taken
take|line 1
take|idle
cut|wrote 2
cut|idle
take|no line
";

#[test]
fn two_lines_of_a_request_are_one_batch(rt: HostRuntime) -> Result<(), Fail> {
    let wanted = Worked {
        rows: 22,
        taken: 2,
        tries: 1,
    };
    assert_eq!(rt; run_rows(rt.alloc(), FORM, ROWS)?, wanted);
    Ok(())
}
