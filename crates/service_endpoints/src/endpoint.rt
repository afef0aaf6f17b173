// One row of an endpoints file.
ghost use Rattle.std.specs.Prelude.{◌≡◌, ◌≤◌, length, IfOk, IfSome, option_map};
ghost use Rattle.csv.specs.Records.{fields_of};
ghost use Rattle.service_endpoints.specs.Fault.{Gives};
ghost use Rattle.service_endpoints.specs.File as spec;
ghost use Rattle.service_endpoints.specs.declared.key.TheConstants.{MOST_KEY_BYTES};

use crate::fault::{BadEndpoint, EndpointFault};
use crate::key::is_key;
use csv::ByteRecord;
use front_base::{Address, Text, read_address};
use std::alloc::Global;

/// The address at which a service, the delegate, or what serves the other paths is reached.
#[derive(Debug, Drop)]
pub struct Endpoint {
    /// `namespace/name:port`, `local` for the delegate, or `others` for paths that nothing else serves.
    pub key: Text,
    pub address: Address,
}

// The field at a place, where it is there and is text.
fn text_at(row: &ByteRecord, i: usize) -> Option<&str>
    ensures { option_map (λ s. s.now) result ≡ spec.text_at (fields_of row.now) i }
{
    match str::from_utf8(row.get(i)?) {
        Ok(text) => Some(text),
        Err(_) => None,
    }
}

fn key_in(row: &ByteRecord) -> Option<&str>
    ensures value { option_map (λ s. s.now) result ≡ spec.key_in (fields_of row.now) }
    ensures short { IfSome result (λ s. length s.now ≤ MOST_KEY_BYTES) }
{
    match text_at(row, 0) {
        Some(key) if is_key(key) => Some(key),
        _ => None,
    }
}

fn address_in(row: &ByteRecord) -> Option<Address>
    ensures { result ≡ spec.address_in (fields_of row.now) }
{
    read_address(text_at(row, 1)?)
}

/// The endpoint that the row with this number gives.
#[tactic(auto, unfolding(crate::specs::File::record_of))]
pub fn record_of(alloc: Global, number: u32, row: &ByteRecord) -> Result<Endpoint, EndpointFault>
    ensures value { Gives (λ e. e) result (spec.record_of number (fields_of row.now)) }
    ensures short { IfOk result (λ e. length e.key ≤ MOST_KEY_BYTES) }
{
    if row.len() != 2 {
        return Err(EndpointFault::BadRow {
            row: number,
            why: BadEndpoint::Fields,
        });
    }
    let Some(key) = key_in(row) else {
        return Err(EndpointFault::BadRow {
            row: number,
            why: BadEndpoint::Key,
        });
    };
    let Some(address) = address_in(row) else {
        return Err(EndpointFault::BadRow {
            row: number,
            why: BadEndpoint::Address,
        });
    };
    Ok(Endpoint {
        key: Text::copy_of(alloc, key)?,
        address,
    })
}
