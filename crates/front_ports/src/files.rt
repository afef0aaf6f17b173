ghost use Rattle.std.specs.Prelude.{◌≡◌, ◌≢◌, ◌≤◌, List, ℕ, Option, Some, IfOk, length};
ghost use Rattle.front_ports.specs.Cause.{Rose};
ghost use Rattle.front_ports.specs.FileMap.{KeepsFiles, HasFile, HasLongFile, Notes};
ghost use Rattle.front_ports.specs.declared.files.FileFail.TheVariants.{NoMemory};

use front_base::{Bytes, MOST_FILE_BYTES, NoMemory as OutOfMemory};
use std::alloc::{AllocError, Global};

/// Why a file was not read.
#[derive(Clone, Copy, Debug, PartialEq, Eq)]
pub enum FileFail {
    /// There is no such file, or reading it failed.
    Fault,
    /// It has more than `MOST_FILE_BYTES` bytes.
    TooLong,
    NoMemory,
}

impl From<AllocError> for FileFail {
    ghost from_gives = { λ _ e. e ≡ NoMemory };

    fn from(_: AllocError) -> Self {
        FileFail::NoMemory
    }
}

impl From<OutOfMemory> for FileFail {
    ghost from_gives = { λ _ e. e ≡ NoMemory };

    fn from(_: OutOfMemory) -> Self {
        FileFail::NoMemory
    }
}

/// Files by their names.
pub trait Files {
    /// The names, which are distinct, and the bytes, where they are told.
    ghost files: { Self → Option (List (List ℕ × List ℕ)) };

    /// How often a read answered `Fault`. It never falls.
    ghost faults: { Self → ℕ };

    /// The name of the last read that answered `Fault`, none before the first, where that is told. It is told no longer
    /// once a name could not be kept.
    ghost failed: { Self → Option (Option (List ℕ)) };

    /// All bytes of the file of this name. A name that isn't there is a fault. A read that failed is one also where memory
    /// doesn't suffice to keep its name.
    fn read(&mut self, alloc: Global, name: &str) -> Result<Bytes, FileFail>
        ensures kept { KeepsFiles (files self.old) (files self.new) }
        ensures found { IfOk result (HasFile (files self.old) name.now) }
        ensures short { IfOk result (λ bytes. length bytes ≤ MOST_FILE_BYTES) }
        ensures long { result ≡ Err FileFail.TooLong → HasLongFile (files self.old) name.now }

        // A fault is counted, and nothing else is. Its name is kept where it can be.
        ensures later { faults self.old ≤ faults self.new }
        ensures fault { result ≡ Err FileFail.Fault → Rose (faults self.old) (faults self.new) }
        ensures sound { result ≢ Err FileFail.Fault → faults self.new ≡ faults self.old }
        ensures name { result ≡ Err FileFail.Fault
            → Notes (failed self.old) (failed self.new) (Some name.now) }
        ensures no_name { result ≢ Err FileFail.Fault → failed self.new ≡ failed self.old };
}
