ghost use Rattle.std.specs.Prelude.{◌≡◌, Some};
ghost use Rattle.apiservice_rows.specs.Fault.{Fails, no_value};
ghost use Rattle.apiservice_rows.specs.declared.fault.RowFault.TheVariants as fault;

use front_base::{NoMemory, Text};
use json_value::ValueError;
use std::alloc::{AllocError, AllocFailed, Global};

/// Why an object or a list of objects gives no row. An `item` is the place of an object in its list, from 0, and None for
/// one that stands alone. A `member` is named by its path in the object, as `spec.service.port`.
#[derive(Debug, Drop)]
pub enum RowFault {
    /// The bytes are no JSON text.
    NotJson,
    /// The member is missing or has another form. `number` stands for any number that isn't whole or doesn't fit 64 bits,
    /// and `items`, of no item, for the list itself.
    BadField { item: Option<usize>, member: Text },
    /// The name isn't the version, a dot and the group.
    NameMismatch { item: Option<usize> },
    /// The number is out of its range.
    Range { item: Option<usize>, member: Text },
    /// The name of this item of a list is that of one before it.
    Repeated { item: usize, name: Text },
    /// A list has more rows than a table holds.
    Full,
    NoMemory,
}

impl From<AllocError> for RowFault {
    ghost from_gives = { λ _ e. e ≡ fault.NoMemory };

    fn from(_: AllocError) -> Self {
        RowFault::NoMemory
    }
}

impl<T: Drop> From<AllocFailed<T>> for RowFault {
    ghost from_gives = { λ _ e. e ≡ fault.NoMemory };

    fn from(_: AllocFailed<T>) -> Self {
        RowFault::NoMemory
    }
}

impl From<NoMemory> for RowFault {
    ghost from_gives = { λ _ e. e ≡ fault.NoMemory };

    fn from(_: NoMemory) -> Self {
        RowFault::NoMemory
    }
}

impl From<ValueError> for RowFault {
    ghost from_gives = { λ error e. e ≡ no_value error };

    fn from(error: ValueError) -> Self {
        match error {
            ValueError::NotJson => RowFault::NotJson,
            ValueError::NoMemory => RowFault::NoMemory,
        }
    }
}

// The fault of a member, unless there is no room for its path.
pub fn bad_field(alloc: Global, item: Option<usize>, member: &str) -> RowFault
    ensures { Fails result (Some (RowFault.BadField item member.now)) }
{
    match Text::copy_of(alloc, member) {
        Ok(member) => RowFault::BadField { item, member },
        Err(_) => RowFault::NoMemory,
    }
}

// The fault of a number, unless there is no room for its path.
pub fn out_of_range(alloc: Global, item: Option<usize>, member: &str) -> RowFault
    ensures { Fails result (Some (RowFault.Range item member.now)) }
{
    match Text::copy_of(alloc, member) {
        Ok(member) => RowFault::Range { item, member },
        Err(_) => RowFault::NoMemory,
    }
}

// The fault of a name that stands twice, unless there is no room for it.
pub fn repeated(alloc: Global, item: usize, name: &str) -> RowFault
    ensures { Fails result (Some (RowFault.Repeated item name.now)) }
{
    match Text::copy_of(alloc, name) {
        Ok(name) => RowFault::Repeated { item, name },
        Err(_) => RowFault::NoMemory,
    }
}
