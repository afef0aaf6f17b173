// Why lists are not fresh, as it is told.
use resource_fetch::Listing;
use resources_command::{Notes, unlisted_text};
use std::alloc::{AllocError, Global};

/// Keeps the lines that tell it. It tells nothing to a contract.
#[derive(Drop)]
pub struct Reasons {
    alloc: Global,
    text: String,
}

impl Reasons {
    pub fn new(alloc: Global) -> Reasons {
        Reasons {
            alloc,
            text: String::new(alloc),
        }
    }

    pub fn text(&self) -> &str {
        self.text.as_str()
    }

    fn push(&mut self, group_version: &str, why: &Listing) -> Result<(), AllocError> {
        let line = unlisted_text(self.alloc, group_version, why, None)?;
        self.text.push_str(line.as_str())
    }
}

impl Notes for Reasons {
    ghost use Rattle.std.specs.Prelude.{None};

    ghost noted = { λ _. None };

    fn note(&mut self, group_version: &str, why: &Listing) {
        let _ = self.push(group_version, why);
    }
}
