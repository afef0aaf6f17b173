ghost use Rattle.std.specs.Prelude.{◌≡◌, IfOk};
ghost use Rattle.apiservice_table.specs.Changes.{moves_rows};
ghost use Rattle.apiservice_table.specs.declared.change.ChangeFault.TheVariants as fault;

use apiservice_rows::Row;
use front_base::{Bytes, NoMemory, Text};
use std::alloc::{AllocError, AllocFailed, Global};

/// A change of the table, as a client of the API asks for it.
#[derive(Debug, Drop)]
pub enum Change {
    /// A row of a new name.
    Create(Row),
    /// A row in the place of the one of its name.
    Replace(Row),
    /// The row of that name goes.
    Delete(Text),
    /// A merge patch (RFC 7396) of the object of that name. What it makes of it takes its place, where a PUT of that would be
    /// read and has the same name.
    Patch { name: Text, patch: Bytes },
}

impl Change {
    // Whether rows stand at other places after it: a replaced row keeps its place, and so does a patched one.
    pub fn moves_rows(&self) -> bool
        ensures { result ≡ moves_rows self.now }
    {
        match self {
            Change::Create(_) | Change::Delete(_) => true,
            Change::Replace(_) | Change::Patch { .. } => false,
        }
    }

    /// An equal change.
    pub fn copy(&self, alloc: Global) -> Result<Change, NoMemory>
        ensures { IfOk result (λ copy. copy ≡ self.now) }
    {
        Ok(match self {
            Change::Create(row) => Change::Create(row.copy(alloc)?),
            Change::Replace(row) => Change::Replace(row.copy(alloc)?),
            Change::Delete(name) => Change::Delete(name.copy(alloc)?),
            Change::Patch { name, patch } => Change::Patch {
                name: name.copy(alloc)?,
                patch: patch.copy(alloc)?,
            },
        })
    }
}

/// Why a change was not made.
#[derive(Clone, Copy, Debug, PartialEq, Eq)]
pub enum ChangeFault {
    /// A row of that name is there already.
    Exists,
    /// No row of that name is there.
    Missing,
    /// The table holds as many rows as it may.
    Full,
    /// The patch is no JSON, or what it makes of the object would not be read or has another name.
    Invalid,
    NoMemory,
}

impl From<AllocError> for ChangeFault {
    ghost from_gives = { λ _ e. e ≡ fault.NoMemory };

    fn from(_: AllocError) -> Self {
        ChangeFault::NoMemory
    }
}

impl<T: Drop> From<AllocFailed<T>> for ChangeFault {
    ghost from_gives = { λ _ e. e ≡ fault.NoMemory };

    fn from(_: AllocFailed<T>) -> Self {
        ChangeFault::NoMemory
    }
}

impl From<NoMemory> for ChangeFault {
    ghost from_gives = { λ _ e. e ≡ fault.NoMemory };

    fn from(_: NoMemory) -> Self {
        ChangeFault::NoMemory
    }
}
