ghost use Rattle.std.specs.Prelude.{◌≡◌};
ghost use Rattle.token_users.specs.declared.fault.TokenFault.TheVariants as fault;

use front_base::NoMemory as OutOfMemory;
use std::alloc::AllocFailed;

/// The fields of a row that count, in their order.
#[derive(Clone, Copy, Debug, PartialEq, Eq)]
pub enum Field {
    Token,
    User,
    Uid,
    Groups,
}

/// Why a row is no record.
#[derive(Clone, Copy, Debug, PartialEq, Eq)]
pub enum BadRecord {
    /// It has fewer than three fields.
    FewFields,
    /// The field isn't UTF-8.
    NotUtf8(Field),
    /// The user is empty.
    EmptyUser,
    /// The field, which is the user or the groups, has a control character of ASCII.
    Control(Field),
    /// The user, or one of the groups, begins or ends with a space or a tab.
    BlankEnds(Field),
}

/// Why a token file isn't read.
#[derive(Clone, Copy, Debug, PartialEq, Eq)]
pub enum TokenFault {
    /// A row is no record. Rows are counted from 0, without blank lines.
    BadRow { row: u32, why: BadRecord },
    /// The reader of CSV says that its input failed. Bytes in memory give it no reason to, but none of its clauses rules
    /// that out.
    Input,
    /// Memory ran out.
    NoMemory,
}

impl<T: Drop> From<AllocFailed<T>> for TokenFault {
    ghost from_gives = { λ _ e. e ≡ fault.NoMemory };

    fn from(_: AllocFailed<T>) -> Self {
        TokenFault::NoMemory
    }
}

impl From<OutOfMemory> for TokenFault {
    ghost from_gives = { λ _ e. e ≡ fault.NoMemory };

    fn from(_: OutOfMemory) -> Self {
        TokenFault::NoMemory
    }
}
