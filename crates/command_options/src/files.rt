// The files that a command line names.
ghost use Rattle.std.specs.Prelude.{◌≡◌, IfOk};
ghost use Rattle.command_options.specs.Options as spec;

use crate::given::{Options, text_of};
use crate::names::{ENDPOINTS, POLICY, SERVICES, TOKENS};
use front_base::{NoMemory, Text};
use std::alloc::Global;

/// The files that a command line names, by `--token-auth-file`, `--audit-policy-file`, `--apiservices` and `--endpoints`.
#[derive(Debug, Drop)]
pub struct FileNames {
    pub tokens: Option<Text>,
    pub policy: Option<Text>,
    pub services: Option<Text>,
    pub endpoints: Option<Text>,
}

/// The files that these options name.
pub fn file_names(alloc: Global, options: &Options) -> Result<FileNames, NoMemory>
    ensures { IfOk result (λ names. names ≡ spec.file_names options.now) }
{
    Ok(FileNames {
        tokens: text_of(alloc, TOKENS, options)?,
        policy: text_of(alloc, POLICY, options)?,
        services: text_of(alloc, SERVICES, options)?,
        endpoints: text_of(alloc, ENDPOINTS, options)?,
    })
}
