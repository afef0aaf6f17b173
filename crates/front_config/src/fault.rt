ghost use Rattle.std.specs.Prelude.{◌≡◌};
ghost use Rattle.front_config.specs.declared.fault.LoadFault.TheVariants as load_fault;

use apiservice_rows::RowFault;
use front_base::{Bytes, NoMemory as OutOfMemory};
use policy_json::PolicyFault;
use service_endpoints::BadEndpoint;
use token_users::BadRecord;

/// The files of a configuration, in the order in which they are read.
#[derive(Clone, Copy, Debug, PartialEq, Eq)]
pub enum Which {
    Tokens,
    Policy,
    Services,
    Endpoints,
}

/// Why the bytes of a file are refused.
#[derive(Debug, Drop)]
pub enum FileFault {
    /// It has more than `front_base::MOST_FILE_BYTES` bytes.
    TooLong,
    /// A file of JSON is refused as none. These are its bytes.
    NotJson(Bytes),
    /// The row of a token file with this number is no record. Rows are counted from 0, without blank lines.
    Token { row: u32, why: BadRecord },
    /// A policy file states no policy, and is JSON.
    PolicyFile(PolicyFault),
    /// A file of APIService objects is refused, and is JSON.
    RowsFile(RowFault),
    /// The row of an endpoints file with this number is no endpoint. Rows are counted from 0, without blank lines.
    Endpoint { row: u32, why: BadEndpoint },
}

/// Why files were not loaded.
#[derive(Debug, Drop)]
pub enum LoadFault {
    /// There is no such file, or reading it failed.
    ReadFault { which: Which },
    /// An invalid file.
    BadFile { which: Which, fault: FileFault },
    /// Memory ran out.
    NoMemory,
}

impl From<OutOfMemory> for LoadFault {
    ghost from_gives = { λ _ e. e ≡ load_fault.NoMemory };

    fn from(_: OutOfMemory) -> Self {
        LoadFault::NoMemory
    }
}
