// The files of a configuration.
ghost use Rattle.std.specs.Prelude.{◌≡◌, ◌≤◌, IfOk, IfSome, OnOk, length, option_map};
ghost use Rattle.front_ports.specs.FileMap.{KeepsFiles};
ghost use Rattle.front_config.specs.Load as spec;

use crate::fault::{FileFault, LoadFault, Which};
use apiservice_rows::{RowFault, Rows, read_rows};
use apiservice_table::{RouteTable, read_rows_fit};
use command_options::FileNames;
use front_base::{Bytes, MOST_FILE_BYTES, Text};
use front_ports::{FileFail, Files};
use policy_json::{PolicyFault, read_policy};
use policy_rules::Policy;
use service_endpoints::{EndpointFault, Endpoints, read_endpoints};
use std::alloc::Global;
use token_users::{TokenFault, Tokens, read_tokens};

/// What the files of a configuration say.
#[derive(Drop)]
pub struct Loaded {
    /// Those of the token file; none where no file is named.
    pub tokens: Tokens,
    /// That of the policy file; `Policy::all_metadata` where no file is named.
    pub policy: Policy,
    /// Of the rows of the file of APIService objects, before any change; of no rows where no file is named.
    pub table: RouteTable,
    /// Those of the endpoints file; none where no file is named.
    pub endpoints: Endpoints,
}

fn name_for(names: &FileNames, which: Which) -> Option<&Text>
    ensures { option_map (λ name. name.now) result ≡ spec.name_for names.now which }
{
    match which {
        Which::Tokens => names.tokens.as_ref(),
        Which::Policy => names.policy.as_ref(),
        Which::Services => names.services.as_ref(),
        Which::Endpoints => names.endpoints.as_ref(),
    }
}

// The bytes of a file, none where no file is named.
fn bytes_of<F: Files>(
    alloc: Global,
    names: &FileNames,
    which: Which,
    files: &mut F,
) -> Result<Option<Bytes>, LoadFault>
    ensures bytes { (read : spec.Read)
        × spec.IsRead (F.files files.old) (spec.name_for names.now which) read
        × spec.Gives result (spec.bytes_in which (spec.name_for names.now which) read) }
    ensures short { IfOk result (λ found. IfSome found (λ bytes. length bytes ≤ MOST_FILE_BYTES)) }
    ensures cause { spec.HasCause names.now (F.faults files.old) (F.faults files.new)
        (F.failed files.old) (F.failed files.new) result }
    ensures kept { KeepsFiles (F.files files.old) (F.files files.new) }
    ensures sound { OnOk result (F.faults files.new ≡ F.faults files.old) }
    ensures later { F.faults files.old ≤ F.faults files.new }
{
    let Some(name) = name_for(names, which) else {
        return Ok(None);
    };
    match files.read(alloc, name.as_str()) {
        Ok(bytes) => Ok(Some(bytes)),
        Err(FileFail::Fault) => Err(LoadFault::ReadFault { which }),
        Err(FileFail::TooLong) => Err(LoadFault::BadFile {
            which,
            fault: FileFault::TooLong,
        }),
        Err(FileFail::NoMemory) => Err(LoadFault::NoMemory),
    }
}

fn tokens_in(alloc: Global, bytes: Option<Bytes>) -> Result<Tokens, LoadFault>
    requires { IfSome bytes (λ bytes. length bytes ≤ MOST_FILE_BYTES) }
    ensures { spec.Gives result (spec.tokens_in bytes) }
{
    let Some(bytes) = bytes else {
        return Ok(Tokens::new(alloc, Vec::new(alloc))?);
    };
    match read_tokens(alloc, bytes.as_slice()) {
        Ok(tokens) => Ok(tokens),
        Err(TokenFault::BadRow { row, why }) => Err(LoadFault::BadFile {
            which: Which::Tokens,
            fault: FileFault::Token { row, why },
        }),
        Err(TokenFault::Input | TokenFault::NoMemory) => Err(LoadFault::NoMemory),
    }
}

fn tokens_of<F: Files>(alloc: Global, names: &FileNames, files: &mut F) -> Result<Tokens, LoadFault>
    ensures loaded { (read : spec.Read)
        × spec.IsRead (F.files files.old) names.now.tokens read
        × spec.Gives result (spec.tokens_of names.now.tokens read) }
    ensures cause { spec.HasCause names.now (F.faults files.old) (F.faults files.new)
        (F.failed files.old) (F.failed files.new) result }
    ensures kept { KeepsFiles (F.files files.old) (F.files files.new) }
    ensures sound { OnOk result (F.faults files.new ≡ F.faults files.old) }
    ensures later { F.faults files.old ≤ F.faults files.new }
{
    let bytes = bytes_of(alloc, names, Which::Tokens, files)?;
    tokens_in(alloc, bytes)
}

fn policy_in(alloc: Global, bytes: Option<Bytes>) -> Result<Policy, LoadFault>
    requires { IfSome bytes (λ bytes. length bytes ≤ MOST_FILE_BYTES) }
    ensures { spec.Gives result (spec.policy_in bytes) }
{
    let Some(bytes) = bytes else {
        return Ok(Policy::all_metadata(alloc)?);
    };
    match read_policy(alloc, bytes.as_slice()) {
        Ok(policy) => Ok(policy),
        Err(PolicyFault::NoMemory) => Err(LoadFault::NoMemory),
        Err(PolicyFault::NotJson) => Err(LoadFault::BadFile {
            which: Which::Policy,
            fault: FileFault::NotJson(bytes),
        }),
        Err(fault) => Err(LoadFault::BadFile {
            which: Which::Policy,
            fault: FileFault::PolicyFile(fault),
        }),
    }
}

fn policy_of<F: Files>(alloc: Global, names: &FileNames, files: &mut F) -> Result<Policy, LoadFault>
    ensures loaded { (read : spec.Read)
        × spec.IsRead (F.files files.old) names.now.policy read
        × spec.Gives result (spec.policy_of names.now.policy read) }
    ensures cause { spec.HasCause names.now (F.faults files.old) (F.faults files.new)
        (F.failed files.old) (F.failed files.new) result }
    ensures kept { KeepsFiles (F.files files.old) (F.files files.new) }
    ensures sound { OnOk result (F.faults files.new ≡ F.faults files.old) }
    ensures later { F.faults files.old ≤ F.faults files.new }
{
    let bytes = bytes_of(alloc, names, Which::Policy, files)?;
    policy_in(alloc, bytes)
}

fn table_in(alloc: Global, bytes: Option<Bytes>) -> Result<RouteTable, LoadFault>
    ensures { spec.Gives result (spec.table_in bytes) }
{
    read_rows_fit();
    let Some(bytes) = bytes else {
        return Ok(RouteTable::from_rows(alloc, Rows::new(Vec::new(alloc)))?);
    };
    match read_rows(alloc, bytes.as_slice()) {
        Ok(rows) => Ok(RouteTable::from_rows(alloc, rows)?),
        Err(RowFault::NoMemory) => Err(LoadFault::NoMemory),
        Err(RowFault::NotJson) => Err(LoadFault::BadFile {
            which: Which::Services,
            fault: FileFault::NotJson(bytes),
        }),
        Err(fault) => Err(LoadFault::BadFile {
            which: Which::Services,
            fault: FileFault::RowsFile(fault),
        }),
    }
}

fn table_of<F: Files>(
    alloc: Global,
    names: &FileNames,
    files: &mut F,
) -> Result<RouteTable, LoadFault>
    ensures loaded { (read : spec.Read)
        × spec.IsRead (F.files files.old) names.now.services read
        × spec.Gives result (spec.table_of names.now.services read) }
    ensures cause { spec.HasCause names.now (F.faults files.old) (F.faults files.new)
        (F.failed files.old) (F.failed files.new) result }
    ensures kept { KeepsFiles (F.files files.old) (F.files files.new) }
    ensures sound { OnOk result (F.faults files.new ≡ F.faults files.old) }
    ensures later { F.faults files.old ≤ F.faults files.new }
{
    let bytes = bytes_of(alloc, names, Which::Services, files)?;
    table_in(alloc, bytes)
}

fn endpoints_in(alloc: Global, bytes: Option<Bytes>) -> Result<Endpoints, LoadFault>
    requires { IfSome bytes (λ bytes. length bytes ≤ MOST_FILE_BYTES) }
    ensures { spec.Gives result (spec.endpoints_in bytes) }
{
    let Some(bytes) = bytes else {
        return Ok(Endpoints::none(alloc));
    };
    match read_endpoints(alloc, bytes.as_slice()) {
        Ok(endpoints) => Ok(endpoints),
        Err(EndpointFault::BadRow { row, why }) => Err(LoadFault::BadFile {
            which: Which::Endpoints,
            fault: FileFault::Endpoint { row, why },
        }),
        Err(EndpointFault::Input | EndpointFault::NoMemory) => Err(LoadFault::NoMemory),
    }
}

fn endpoints_of<F: Files>(
    alloc: Global,
    names: &FileNames,
    files: &mut F,
) -> Result<Endpoints, LoadFault>
    ensures loaded { (read : spec.Read)
        × spec.IsRead (F.files files.old) names.now.endpoints read
        × spec.Gives result (spec.endpoints_of names.now.endpoints read) }
    ensures cause { spec.HasCause names.now (F.faults files.old) (F.faults files.new)
        (F.failed files.old) (F.failed files.new) result }
    ensures kept { KeepsFiles (F.files files.old) (F.files files.new) }
    ensures sound { OnOk result (F.faults files.new ≡ F.faults files.old) }
    ensures later { F.faults files.old ≤ F.faults files.new }
{
    let bytes = bytes_of(alloc, names, Which::Endpoints, files)?;
    endpoints_in(alloc, bytes)
}

/// What the named files say. They are read and checked one after the other, in the order of `Which`, and the first
/// refusal is the answer.
pub fn load<F: Files>(alloc: Global, names: &FileNames, files: &mut F) -> Result<Loaded, LoadFault>
    ensures loaded { (reads : spec.Reads) × spec.AreRead (F.files files.old) names.now reads
        × spec.Gives result (spec.load_of names.now reads) }
    ensures cause { spec.HasCause names.now (F.faults files.old) (F.faults files.new)
        (F.failed files.old) (F.failed files.new) result }

    // Told files stay. The count of faults doesn't fall, and stays where nothing failed.
    ensures kept { KeepsFiles (F.files files.old) (F.files files.new) }
    ensures sound { OnOk result (F.faults files.new ≡ F.faults files.old) }
    ensures later { F.faults files.old ≤ F.faults files.new }
{
    let tokens = tokens_of(alloc, names, files)?;
    let policy = policy_of(alloc, names, files)?;
    let table = table_of(alloc, names, files)?;
    let endpoints = endpoints_of(alloc, names, files)?;
    Ok(Loaded {
        tokens,
        policy,
        table,
        endpoints,
    })
}
