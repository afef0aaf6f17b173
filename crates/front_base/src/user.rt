ghost use Rattle.std.specs.Prelude.{◌≡◌, IfOk};

use crate::memory::NoMemory;
use crate::text::{Text, Texts};
use std::alloc::Global;

/// Who asks: a name, a unique ID and groups, as Kubernetes' `UserInfo` has them.
#[derive(Debug, Drop)]
pub struct User {
    pub name: Text,
    pub uid: Text,
    pub groups: Texts,
}

impl User {
    /// An equal user.
    pub fn copy(&self, alloc: Global) -> Result<User, NoMemory>
        ensures { IfOk result (λ user. user ≡ self.now) }
    {
        Ok(User {
            name: self.name.copy(alloc)?,
            uid: self.uid.copy(alloc)?,
            groups: self.groups.copy(alloc)?,
        })
    }
}
