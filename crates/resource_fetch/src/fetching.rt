// One list of resources, fetched.
ghost use Rattle.std.specs.Prelude.{◌≡◌, ◌≤◌, IfOk, OnErr};
ghost use Rattle.resource_fetch.specs.Fetched as spec;
ghost use Rattle.service_calls.specs.Calls.{dial_state};

use crate::listing::Listing;
use crate::version::group_version;
use apiservice_rows::Row;
use front_base::{Address, NoMemory};
use front_ports::Dial;
use group_resources::read_list;
use service_calls::{Fetched, fetch_reply, list_request};
use std::alloc::Global;

// What a reply lists.
fn listing_of(alloc: Global, version: &str, status: u16, body: &[u8]) -> Result<Listing, NoMemory>
    ensures { IfOk result (spec.IsListing version.now status body.now) }
{
    if status != 200 {
        return Ok(Listing::OtherStatus(status));
    }
    match read_list(alloc, version, status, body)? {
        Some(list) => Ok(Listing::Listed(list)),
        None => Ok(Listing::NoList),
    }
}

fn long(status: u16) -> Listing
    ensures { spec.IsLong status result }
{
    if status == 200 {
        Listing::TooLong
    } else {
        Listing::OtherStatus(status)
    }
}

fn read(alloc: Global, version: &str, fetched: Fetched) -> Result<Listing, NoMemory>
    ensures { IfOk result (spec.Reads version.now fetched) }
{
    match fetched {
        Fetched::Reply { status, body } => listing_of(alloc, version, status, body.as_slice()),
        Fetched::TooLong { status } => Ok(long(status)),
        Fetched::NoReply => Ok(Listing::NoReply),
        Fetched::NotDialed => Ok(Listing::NotDialed),
        Fetched::LinkFault => Ok(Listing::LinkFault),
    }
}

// Sends these bytes, and reads what came.
fn fetch_list<D: Dial>(
    alloc: Global,
    dial: &mut D,
    to: Address,
    text: &[u8],
    version: &str,
) -> Result<Listing, NoMemory>
    ensures ok { IfOk result (spec.Fetches (record { version = version.now; due = record { to = to; text = text.now } })
        (dial_state (D.calls dial.old) (D.faults dial.old) (D.link_faults dial.old))
        (dial_state (D.calls dial.new) (D.faults dial.new) (D.link_faults dial.new))) }
    ensures err { OnErr result (spec.StopsFetching (record { version = version.now; due = record { to = to; text = text.now } })
        (dial_state (D.calls dial.old) (D.faults dial.old) (D.link_faults dial.old))
        (dial_state (D.calls dial.new) (D.faults dial.new) (D.link_faults dial.new))) }
    ensures later { (D.faults dial.old ≤ D.faults dial.new) × (D.link_faults dial.old ≤ D.link_faults dial.new) }
{
    match fetch_reply(alloc, dial, to, text) {
        Ok(fetched) => read(alloc, version, fetched),
        Err(NoMemory) => Err(NoMemory),
    }
}

/// Asks the server of a row, at that address, for the resources of the row's group version, and gives the array that it lists, or says why
/// there is none. It makes one call. A reply of more than `MOST_LIST_BYTES` bytes is read to its end, and lists nothing.
pub fn fetch<D: Dial>(
    alloc: Global,
    dial: &mut D,
    row: &Row,
    to: Address,
) -> Result<Listing, NoMemory>
    ensures ok { IfOk result (spec.Fetches (spec.asking row.now to)
        (dial_state (D.calls dial.old) (D.faults dial.old) (D.link_faults dial.old))
        (dial_state (D.calls dial.new) (D.faults dial.new) (D.link_faults dial.new))) }
    ensures err { OnErr result (spec.StopsFetching (spec.asking row.now to)
        (dial_state (D.calls dial.old) (D.faults dial.old) (D.link_faults dial.old))
        (dial_state (D.calls dial.new) (D.faults dial.new) (D.link_faults dial.new))) }
    ensures later { (D.faults dial.old ≤ D.faults dial.new) × (D.link_faults dial.old ≤ D.link_faults dial.new) }
{
    let text = list_request(alloc, row, &to)?;
    let version = group_version(alloc, row.group.as_str(), row.version.as_str())?;
    fetch_list(alloc, dial, to, text.as_slice(), version.as_str())
}
