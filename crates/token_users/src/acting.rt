ghost use Rattle.std.specs.Prelude.{◌≡◌};
ghost use Rattle.token_users.specs.Act as spec;

use front_base::User;

/// As whom a request asks to act, and whether it may.
#[derive(Debug, Drop)]
pub enum Act {
    /// It doesn't ask.
    Own,
    As(User),
    /// It has a header of impersonation other than `Impersonate-User` and `Impersonate-Group`.
    Unserved,
    /// It names no user, or more than one, or a name is empty, isn't UTF-8, or has a control character.
    Bad,
    /// The user that authenticated isn't in `system:masters`.
    Forbidden,
}

impl Act {
    /// The user that a request acts as, given the one that authenticated.
    pub fn user<'u>(&'u self, own: &'u User) -> &'u User
        ensures { result.now ≡ spec.user_acting self.now own.now }
    {
        match self {
            Act::As(user) => user,
            Act::Own | Act::Unserved | Act::Bad | Act::Forbidden => own,
        }
    }
}
