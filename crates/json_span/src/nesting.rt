ghost use Rattle.std.specs.Prelude.{◌≡◌, ◌<◌, [], ◌∷◌, length, Option, Some, None, if◌then◌else◌, nat_lt};
ghost use Rattle.json_span.specs.Nesting as spec;

use std::marker::Model;

/// The most arrays and objects that may be open at once.
pub const MOST_DEPTH: u32 = 128;

#[derive(Clone, Copy, Debug, PartialEq, Eq)]
pub enum Kind {
    Array,
    Object,
}

// The arrays and objects that are open, innermost first: a bit each, and their count. Contracts see the list of kinds.
#[derive(Debug, Drop)]
pub struct Nesting {
    bits: u128,
    count: u32,
}

impl Model for Nesting {
    ghost use Rattle.std.specs.Prelude.{List, ◌<◌, ◌≤◌, ◌^◌};
    ghost use Rattle.json_span.specs.declared.nesting.Kind.{Kind};
    ghost use Rattle.json_span.specs.Nesting.{kinds_of};

    ghost Value = { List Kind };

    ghost view = { λ n. kinds_of n.count n.bits };

    ghost invariant = { λ n. (n.bits < 2 ^ n.count) × (n.count ≤ 128) };
}

impl Nesting {
    pub fn new() -> Nesting
        ensures { result ≡ [] }
    {
        Nesting { bits: 0, count: 0 }
    }

    pub fn is_empty(&self) -> bool
        ensures { result ≡ spec.is_empty self.now }
    {
        self.count == 0
    }

    // Opens one more, unless the most are open.
    pub fn open(&mut self, kind: Kind) -> bool
        ensures room { result ≡ nat_lt (length self.old) 128 }
        ensures opened { self.new ≡ (if result then kind ∷ self.old else self.old) }
    {
        if self.count == MOST_DEPTH {
            return false;
        }
        let bit = match kind {
            Kind::Array => 0,
            Kind::Object => 1,
        };
        self.bits = self.bits * 2 + bit;
        self.count += 1;
        true
    }

    pub fn innermost(&self) -> Option<Kind>
        ensures { result ≡ spec.innermost self.now }
    {
        if self.count == 0 {
            return None;
        }
        Some(if self.bits % 2 == 0 {
            Kind::Array
        } else {
            Kind::Object
        })
    }

    // Closes the innermost, where one is open.
    pub fn close(&mut self)
        ensures { self.new ≡ spec.without_innermost self.old }
    {
        if 0 < self.count {
            self.bits /= 2;
            self.count -= 1;
        }
    }
}
