// The rows of an endpoints file whose keys stand in later rows too.
ghost use Rattle.std.specs.Prelude.{◌≡◌, IfOk, map, option_map};
ghost use Rattle.csv.specs.Records.{fields_of};
ghost use Rattle.service_endpoints.specs.File.{text_at};
ghost use Rattle.warned_files.specs.Endpoints as spec;

use crate::places::{Places, record_place, report};
use csv::{ByteRecord, ReaderBuilder};
use front_base::{NoMemory, Text};
use std::alloc::Global;
use std::collections::BTreeSet;

// The field at a place, where it is there and is text.
fn text_at(row: &ByteRecord, i: usize) -> Option<&str>
    ensures { option_map (λ s. s.now) result ≡ text_at (fields_of row.now) i }
{
    match str::from_utf8(row.get(i)?) {
        Ok(text) => Some(text),
        Err(_) => None,
    }
}

// The first field, where it is text, and else an empty text, which is no key.
fn key_of(alloc: Global, row: &ByteRecord) -> Result<Text, NoMemory>
    ensures { IfOk result (λ t. t ≡ spec.key_of (fields_of row.now)) }
{
    match text_at(row, 0) {
        Some(key) => Text::copy_of(alloc, key),
        None => Ok(Text::new(String::new(alloc))),
    }
}

// The rows of a file, with any number of fields.
fn rows_of(alloc: Global, bytes: &[u8]) -> Result<Vec<ByteRecord>, NoMemory>
    ensures { IfOk result (λ rows. spec.AreRows bytes.now (map fields_of rows.items)) }
{
    let rdr = ReaderBuilder::new()
        .has_headers(false)
        .flexible(true)
        .from_reader(alloc, bytes);
    let mut rows = Vec::new(alloc);
    for row in rdr.into_byte_records() {
        match row {
            Ok(row) => rows.push(row)?,
            // over bytes only memory can fail
            Err(_) => return Err(NoMemory),
        }
    }
    Ok(rows)
}

fn keys_of(alloc: Global, rows: &[ByteRecord]) -> Result<Vec<Text>, NoMemory>
    ensures { IfOk result (λ keys. keys.items ≡ spec.keys_of (map fields_of rows.now)) }
{
    let mut keys = Vec::new(alloc);
    for row in rows {
        keys.push(key_of(alloc, row)?)?;
    }
    Ok(keys)
}

// The places of the rows whose keys stand in later rows.
fn overridden(alloc: Global, keys: &[Text]) -> Result<Vec<Text>, NoMemory>
    ensures { IfOk result (λ found. found.items ≡ spec.overridden 0 keys.now) }
{
    let mut later: BTreeSet<&str> = BTreeSet::new(alloc);
    let mut found = Vec::new(alloc);
    let mut i = keys.len();
    while 0 < i {
        i -= 1;
        if !later.insert(keys[i].as_str())? {
            found.push(record_place(alloc, i)?)?;
        }
    }
    found.reverse();
    Ok(found)
}

fn unread_rows(alloc: Global, rows: &[ByteRecord]) -> Result<Vec<Text>, NoMemory>
    ensures { IfOk result (λ found. found.items ≡ spec.overridden 0 (spec.keys_of (map fields_of rows.now))) }
{
    let keys = keys_of(alloc, rows)?;
    overridden(alloc, keys.as_slice())
}

/// The rows of an endpoints file that count for nothing, since a later row has their key: `record 1`.
pub fn unread_in_endpoints(alloc: Global, bytes: &[u8]) -> Result<Places, NoMemory>
    ensures { IfOk result (spec.IsReport bytes.now) }
{
    let rows = rows_of(alloc, bytes)?;
    Ok(report(unread_rows(alloc, rows.as_slice())?))
}
