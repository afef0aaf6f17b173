// A whole token file.
ghost use Rattle.std.specs.Prelude.{◌≡◌, ◌⊎◌, ◌+◌, ◌<◌, ◌≤◌, ◌^◌, [], ◌∷◌, ◌++◌, IfErr, IfOk, IsOk, OnOk, Err, Ok, length, map};
ghost use Rattle.csv.specs.Records.{fields_of};
ghost use Rattle.csv.specs.declared.record.ByteRecord.{ByteRecord};
ghost use Rattle.token_users.specs.Fault.{Gives};
ghost use Rattle.token_users.specs.File as spec;

use crate::fault::TokenFault;
use crate::record::{Record, record_of};
use crate::tokens::Tokens;
use csv::{ByteRecord, Error, ErrorKind, ReaderBuilder};
use front_base::{MOST_FILE_BYTES, NoMemory};
use std::alloc::Global;

// Why a file isn't read to its end.
fn fault_of(error: Error) -> TokenFault
    requires { spec.IsNotOfRow error }
    ensures { (result ≡ TokenFault.NoMemory) ⊎ (result ≡ TokenFault.Input) }
{
    match error.into_kind() {
        ErrorKind::OutOfMemory => TokenFault::NoMemory,
        ErrorKind::Io(_) => TokenFault::Input,
        _ => unreachable!(),
    }
}

// Adds a row that was read.
fn add_row(rows: &mut Vec<ByteRecord>, row: Result<ByteRecord, Error>) -> Result<(), TokenFault>
    requires { IfErr row spec.IsNotOfRow }
    ensures added { OnOk result ((read : ByteRecord) × (row ≡ Ok read) × (rows.new.items ≡ rows.old.items ++ read ∷ [])) }
    ensures free { (result ≡ Err TokenFault.NoMemory) ⊎ (result ≡ Err TokenFault.Input) ⊎ IsOk result }
{
    match row {
        Ok(row) => Ok(rows.push(row)?),
        Err(error) => Err(fault_of(error)),
    }
}

// The rows of a file, with any number of fields.
fn rows_of(alloc: Global, bytes: &[u8]) -> Result<Vec<ByteRecord>, TokenFault>
    ensures rows { IfOk result (λ rows. map fields_of rows.items ≡ spec.rows_of bytes.now) }
    ensures free { (result ≡ Err TokenFault.NoMemory) ⊎ (result ≡ Err TokenFault.Input) ⊎ IsOk result }
{
    let rdr = ReaderBuilder::new()
        .has_headers(false)
        .flexible(true)
        .from_reader(alloc, bytes);
    let mut rows = Vec::new(alloc);
    for row in rdr.into_byte_records() {
        add_row(&mut rows, row)?;
    }
    Ok(rows)
}

// Adds a record, unless it has no token.
fn add_record(records: &mut Vec<Record>, read: Record) -> Result<(), NoMemory>
    ensures { OnOk result (records.new.items ≡ records.old.items ++ spec.with_record read []) }
{
    if read.token.as_str().is_empty() {
        return Ok(());
    }
    Ok(records.push(read)?)
}

// The records of rows, without those that have no token.
fn records_of(alloc: Global, rows: &[ByteRecord]) -> Result<Vec<Record>, TokenFault>
    requires { length rows.now < 2 ^ 32 }
    ensures { Gives (λ v. v.items) result (spec.records_from 0 (map fields_of rows.now)) }
{
    let mut records = Vec::new(alloc);
    for (i, row) in rows.iter().enumerate() {
        add_record(&mut records, record_of(alloc, i as u32, row)?)?;
    }
    Ok(records)
}

/// The tokens of a file, or its first row that is no record, and why it is none. The file is CSV: token, user, uid and, separated by commas
/// within the one field, groups.
pub fn read_tokens(alloc: Global, bytes: &[u8]) -> Result<Tokens, TokenFault>
    requires { length bytes.now ≤ MOST_FILE_BYTES }
    ensures { Gives (λ t. t) result (spec.file_records bytes.now) }
{
    let rows = rows_of(alloc, bytes)?;
    let records = records_of(alloc, rows.as_slice())?;
    Ok(Tokens::new(alloc, records)?)
}
