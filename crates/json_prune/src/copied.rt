ghost use Rattle.std.specs.Prelude.{◌≡◌, ℕ, ◌+◌, ◌≤◌, ◌++◌, [], length, true, slice_index, IfOk, OnOk};
ghost use Rattle.json_span.specs.Value.{comma_if};
ghost use Rattle.json_prune.specs.Walk as spec;

use std::alloc::{AllocError, Global};

// What is copied of a text: all up to some place, but for the ranges that were cut out. The range that began at `from`
// isn't copied yet.
#[derive(Drop)]
pub struct Copied {
    pub out: Vec<u8>,
    pub from: usize,
}

impl Copied {
    pub fn new(alloc: Global, capacity: usize) -> Result<Copied, AllocError>
        ensures { IfOk result (λ copied. (copied.out.items ≡ []) × (copied.from ≡ 0)) }
    {
        Ok(Copied {
            out: Vec::with_capacity(alloc, capacity)?,
            from: 0,
        })
    }

    // Leaves out the bytes from `start` to `end`.
    pub fn cut(&mut self, text: &[u8], start: usize, end: usize) -> Result<(), AllocError>
        requires order { self.old.from ≤ start }
        requires within { start ≤ length text.now }
        ensures { OnOk result ((self.new.from ≡ end)
            × (self.new.out.items ≡ spec.written text.now self.old.out.items self.old.from start)) }
    {
        self.out.extend_from_slice(&text[self.from..start])?;
        self.from = end;
        Ok(())
    }

    // Leaves out the comma before a member, which is what stands from `end` to `at`, where none was kept before it.
    pub fn cut_comma(
        &mut self,
        text: &[u8],
        kept: bool,
        end: usize,
        at: usize,
    ) -> Result<(), AllocError>
        requires order { self.old.from ≤ end }
        requires within { (end ≤ at) × (at ≤ length text.now) }
        requires comma { kept ≡ true → (at ≡ end + 1) × (slice_index text.now end ≡ 44) }
        ensures within { OnOk result (self.new.from ≤ at) }
        ensures comma { OnOk result (spec.written text.now self.new.out.items self.new.from at
            ≡ spec.written text.now self.old.out.items self.old.from end ++ comma_if kept) }
    {
        if kept {
            return Ok(());
        }
        self.cut(text, end, at)
    }
}
