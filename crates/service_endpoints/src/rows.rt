// A whole endpoints file.
ghost use Rattle.std.specs.Prelude.{◌≡◌, ◌⊎◌, ◌<◌, ◌≤◌, ◌^◌, IfOk, IsOk, Err, length, map};
ghost use Rattle.csv.specs.Records.{fields_of};
ghost use Rattle.service_endpoints.specs.Fault.{Gives};
ghost use Rattle.service_endpoints.specs.File as spec;
ghost use Rattle.service_endpoints.specs.Find.{AreShort};

use crate::endpoint::{Endpoint, record_of};
use crate::endpoints::Endpoints;
use crate::fault::EndpointFault;
use csv::{ByteRecord, ErrorKind, ReaderBuilder};
use front_base::MOST_FILE_BYTES;
use std::alloc::Global;

// The rows of a file, with any number of fields.
fn rows_of(alloc: Global, bytes: &[u8]) -> Result<Vec<ByteRecord>, EndpointFault>
    ensures rows { IfOk result (λ rows. map fields_of rows.items ≡ spec.rows_of bytes.now) }
    ensures free { (result ≡ Err EndpointFault.NoMemory) ⊎ (result ≡ Err EndpointFault.Input) ⊎ IsOk result }
{
    let rdr = ReaderBuilder::new()
        .has_headers(false)
        .flexible(true)
        .from_reader(alloc, bytes);
    let mut rows = Vec::new(alloc);
    for row in rdr.into_byte_records() {
        match row {
            Ok(row) => rows.push(row)?,
            Err(error) => match error.into_kind() {
                ErrorKind::OutOfMemory => return Err(EndpointFault::NoMemory),
                ErrorKind::Io(_) => return Err(EndpointFault::Input),
                _ => unreachable!(),
            },
        }
    }
    Ok(rows)
}

fn records_of(alloc: Global, rows: &[ByteRecord]) -> Result<Vec<Endpoint>, EndpointFault>
    requires { length rows.now < 2 ^ 32 }
    ensures value { Gives (λ v. v.items) result (spec.records_from 0 (map fields_of rows.now)) }
    ensures short { IfOk result (λ v. AreShort v.items) }
{
    let mut records = Vec::new(alloc);
    for (i, row) in rows.iter().enumerate() {
        records.push(record_of(alloc, i as u32, row)?)?;
    }
    Ok(records)
}

/// The endpoints of a file, or its first row that is none, and why. The file is CSV of two fields: a key, which is
/// `namespace/name:port`, `local` or `others`, and an address. Rows are read without headers.
pub fn read_endpoints(alloc: Global, bytes: &[u8]) -> Result<Endpoints, EndpointFault>
    requires { length bytes.now ≤ MOST_FILE_BYTES }
    ensures { Gives (λ e. e) result (spec.file_records bytes.now) }
{
    let rows = rows_of(alloc, bytes)?;
    let records = records_of(alloc, rows.as_slice())?;
    Ok(Endpoints::new(alloc, records)?)
}
