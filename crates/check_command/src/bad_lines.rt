// The lines of a log that don't conform.
ghost use Rattle.std.specs.Prelude.{◌≡◌, ◌≤◌, ◌<◌, ◌+◌, ◌-◌, ◌^◌, ◌++◌, ◌∷◌, [], List, OnErr, OnOk, take};
ghost use Rattle.check_command.specs.Reviews.{KeepsList, Lists};
ghost use Rattle.check_command.specs.declared.bad_lines.BadLine.{BadLine};
ghost use Rattle.check_command.specs.declared.bad_lines.TheConstants.{MOST_LISTED};

use audit_check::LineFault;
use front_base::NoMemory;
use std::alloc::Global;

/// How many lines that don't conform are listed at most.
pub const MOST_LISTED: usize = 100;

/// A line that doesn't conform.
#[derive(Clone, Copy, Debug, PartialEq, Eq)]
pub struct BadLine {
    /// Its number, counted from 1.
    pub number: u64,
    pub why: LineFault,
}

/// The lines that don't conform: the first `MOST_LISTED` of them, and how many there are.
#[derive(Debug, Drop)]
pub struct BadLines {
    pub first: Vec<BadLine>,
    pub count: u64,
}

// Lists one line more, if there is room.
#[tactic(auto, using(crate::proofs::BadLemmas::listed_full, crate::proofs::BadLemmas::listed_room))]
fn push_listed(first: &mut Vec<BadLine>, line: BadLine) -> Result<(), NoMemory>
    ensures lists { OnOk result ((bad : List BadLine) → first.old.items ≡ take MOST_LISTED bad
        → first.new.items ≡ take MOST_LISTED (bad ++ line ∷ [])) }
    ensures kept { OnErr result (first.new.items ≡ first.old.items) }
{
    if first.len() >= MOST_LISTED {
        return Ok(());
    }
    first.push(line)?;
    Ok(())
}

impl BadLines {
    pub fn none(alloc: Global) -> BadLines
        ensures lists { Lists result [] }
        ensures count { result.count ≡ 0 }
    {
        BadLines {
            first: Vec::new(alloc),
            count: 0,
        }
    }

    /// One line more. Where memory runs out, the same lines stay listed.
    #[tactic(auto, using(crate::proofs::BadLemmas::keeps_list))]
    pub fn add(&mut self, line: BadLine) -> Result<(), NoMemory>
        requires { self.old.count < 2 ^ 64 - 1 }
        ensures adds { OnOk result ((bad : List BadLine) → Lists self.old bad → Lists self.new (bad ++ line ∷ [])) }
        ensures count { OnOk result (self.new.count ≡ self.old.count + 1) }
        ensures kept { OnErr result (KeepsList self.old self.new) }
    {
        push_listed(&mut self.first, line)?;
        self.count += 1;
        Ok(())
    }
}
