ghost use Rattle.std.specs.Prelude.{◌≡◌, ◌<◌, ◌++◌, ◌∷◌, [], length, slice_get, slice_set, Some, OnOk, OnErr};
ghost use Rattle.std.specs.Borrow.{Lends, sem};

use front_base::NoMemory;
use std::alloc::Global;
use std::marker::Model;
use std::mem;

/// Values in order, which contracts see as a list.
#[derive(Drop)]
pub struct Items<T> {
    values: Vec<T>,
}

impl<T> Model for Items<T> {
    ghost use Rattle.std.specs.Prelude.{List};

    ghost Value = { List T };

    ghost view = { λ i. i.values.items };
}

impl<T> Items<T> {
    ghost use Rattle.model_worlds.specs.contracts.items.Items.{the_row};

    /// Takes no memory.
    pub fn new(values: Vec<T>) -> Items<T>
        ensures { result ≡ values.items }
    {
        Items { values }
    }

    pub fn as_slice(&self) -> &[T]
        ensures { result.now ≡ self.now }
    {
        self.values.as_slice()
    }

    /// Takes no memory.
    pub fn into_vec(self) -> Vec<T>
        ensures { result.items ≡ self }
    {
        self.values
    }

    /// The value at a place, to be changed.
    pub fn at_mut(&mut self, place: usize) -> &mut T
        requires { place < length self.old }
        ensures* writes_back { sem 𝓛 (Lends (the_row T.row) T.row self.entry result (slice_set self.old place)) }
        ensures value { slice_get self.old place ≡ Some result.now }
    {
        &mut self.values[place]
    }
}

impl<T: Drop> Items<T> {
    /// All values, of which none is left. It takes no memory.
    pub fn take_all(&mut self, alloc: Global) -> Vec<T>
        ensures all { result.items ≡ self.old }
        ensures none { self.new ≡ [] }
    {
        mem::replace(self, Items::new(Vec::new(alloc))).into_vec()
    }

    /// Adds a value behind the others. Where memory ran out, they stay as they are.
    pub fn push(&mut self, value: T) -> Result<(), NoMemory>
        ensures ok { OnOk result (self.new ≡ self.old ++ value ∷ []) }
        ensures err { OnErr result (self.new ≡ self.old) }
    {
        self.values.push(value)?;
        Ok(())
    }
}
