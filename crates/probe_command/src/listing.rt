// The APIServices that are probed: those of a file, or those that the front door lists.
ghost use Rattle.std.specs.Prelude.{◌≡◌, IfErr, IfOk};
ghost use Rattle.probe_command.specs.Listing as spec;
ghost use Rattle.service_calls.specs.Calls.{dial_state};

use apiservice_rows::{RowFault, read_rows};
use apiservice_table::{RouteTable, read_rows_fit};
use front_base::{Address, NoMemory, Text};
use front_ports::Dial;
use probe_calls::rows_request;
use service_calls::{Fetched, address_text, fetch_reply};
use std::alloc::{AllocError, Global};

/// Why a front door gave no list of its APIServices.
#[derive(Clone, Copy, Debug, PartialEq, Eq)]
pub enum ListFault {
    /// No link was opened.
    NotDialed,
    /// A read or a write of the link failed.
    LinkFault,
    /// No whole reply came.
    NoReply,
    /// The reply's status, another one than 200.
    OtherStatus(u16),
    /// The reply's body has more than `stream_relay::MOST_KEPT_BYTES` bytes.
    TooLong,
    /// The reply's body is none of the files that `--apiservices` may name.
    NoList,
}

// Why there are no rows.
#[derive(Clone, Copy, Debug, PartialEq, Eq)]
pub enum ListStop {
    Fault(ListFault),
    NoMemory,
}

// Why bytes that are refused as a list give no rows.
fn stop_by(fault: RowFault) -> ListStop
    ensures { result ≡ spec.stop_by fault }
{
    match fault {
        RowFault::NoMemory => ListStop::NoMemory,
        _ => ListStop::Fault(ListFault::NoList),
    }
}

// The table of a list.
fn table_in(alloc: Global, body: &[u8]) -> Result<RouteTable, ListStop>
    ensures ok { IfOk result (spec.IsTable body.now) }
    ensures err { IfErr result (spec.IsNoTable body.now) }
{
    read_rows_fit();
    match read_rows(alloc, body) {
        Ok(rows) => match RouteTable::from_rows(alloc, rows) {
            Ok(table) => Ok(table),
            Err(NoMemory) => Err(ListStop::NoMemory),
        },
        Err(fault) => Err(stop_by(fault)),
    }
}

fn long(status: u16) -> ListFault
    ensures { result ≡ spec.long status }
{
    if status == 200 {
        ListFault::TooLong
    } else {
        ListFault::OtherStatus(status)
    }
}

fn table_by(alloc: Global, status: u16, body: &[u8]) -> Result<RouteTable, ListStop>
    ensures ok { IfOk result (spec.IsListed status body.now) }
    ensures err { IfErr result (spec.IsUnlisted status body.now) }
{
    if status == 200 {
        table_in(alloc, body)
    } else {
        Err(ListStop::Fault(ListFault::OtherStatus(status)))
    }
}

// The table that a reply lists.
fn read(alloc: Global, fetched: Fetched) -> Result<RouteTable, ListStop>
    ensures ok { IfOk result (spec.Reads fetched) }
    ensures err { IfErr result (spec.ReadsNone fetched) }
{
    match fetched {
        Fetched::Reply { status, body } => table_by(alloc, status, body.as_slice()),
        Fetched::TooLong { status } => Err(ListStop::Fault(long(status))),
        Fetched::NoReply => Err(ListStop::Fault(ListFault::NoReply)),
        Fetched::NotDialed => Err(ListStop::Fault(ListFault::NotDialed)),
        Fetched::LinkFault => Err(ListStop::Fault(ListFault::LinkFault)),
    }
}

// Sends these bytes, and reads what came.
fn fetch_by<D: Dial>(
    alloc: Global,
    front: Address,
    text: &[u8],
    dial: &mut D,
) -> Result<RouteTable, ListStop>
    ensures ok { IfOk result (spec.Lists (record { to = front; text = text.now })
        (dial_state (D.calls dial.old) (D.faults dial.old) (D.link_faults dial.old))
        (dial_state (D.calls dial.new) (D.faults dial.new) (D.link_faults dial.new))) }
    ensures err { IfErr result (spec.ListsNone (record { to = front; text = text.now })
        (dial_state (D.calls dial.old) (D.faults dial.old) (D.link_faults dial.old))
        (dial_state (D.calls dial.new) (D.faults dial.new) (D.link_faults dial.new))) }
{
    match fetch_reply(alloc, dial, front, text) {
        Ok(fetched) => read(alloc, fetched),
        Err(NoMemory) => Err(ListStop::NoMemory),
    }
}

// Asks the front door for the list of its APIServices, as the user of that token.
fn fetch_rows<D: Dial>(
    alloc: Global,
    front: Address,
    token: &Option<Text>,
    dial: &mut D,
) -> Result<RouteTable, ListStop>
    ensures ok { IfOk result (spec.Lists (spec.list_due front token.now)
        (dial_state (D.calls dial.old) (D.faults dial.old) (D.link_faults dial.old))
        (dial_state (D.calls dial.new) (D.faults dial.new) (D.link_faults dial.new))) }
    ensures err { IfErr result (spec.ListsNone (spec.list_due front token.now)
        (dial_state (D.calls dial.old) (D.faults dial.old) (D.link_faults dial.old))
        (dial_state (D.calls dial.new) (D.faults dial.new) (D.link_faults dial.new))) }
{
    match rows_request(alloc, front, token) {
        Ok(request) => fetch_by(alloc, front, request.as_slice(), dial),
        Err(NoMemory) => Err(ListStop::NoMemory),
    }
}

// The table that was loaded where its file is named, and else that of the front door.
pub fn table_for<D: Dial>(
    alloc: Global,
    front: Address,
    token: &Option<Text>,
    is_named: bool,
    loaded: RouteTable,
    dial: &mut D,
) -> Result<RouteTable, ListStop>
    ensures ok { IfOk result (spec.HasTable (spec.list_due front token.now) is_named loaded
        (dial_state (D.calls dial.old) (D.faults dial.old) (D.link_faults dial.old))
        (dial_state (D.calls dial.new) (D.faults dial.new) (D.link_faults dial.new))) }
    ensures err { IfErr result (spec.HasNone (spec.list_due front token.now) is_named
        (dial_state (D.calls dial.old) (D.faults dial.old) (D.link_faults dial.old))
        (dial_state (D.calls dial.new) (D.faults dial.new) (D.link_faults dial.new))) }
{
    if is_named {
        return Ok(loaded);
    }
    drop(loaded);
    fetch_rows(alloc, front, token, dial)
}

/// What a person is told of it, with a line feed: the front door, and why it gave no list, with the system's reason where it could not be
/// reached and the system gave one.
pub fn list_fault_text(
    alloc: Global,
    front: Address,
    fault: ListFault,
    reason: Option<&str>,
) -> Result<String, AllocError> {
    let at = address_text(alloc, &front)?;
    let at = at.as_str();
    match fault {
        ListFault::NotDialed => {
            let why = reason.unwrap_or("no link was opened");
            format!(in alloc; "apiaggd: --front={at}: {why}\n")
        }
        ListFault::LinkFault => {
            let why = reason.unwrap_or("the link failed");
            format!(in alloc; "apiaggd: --front={at}: {why}\n")
        }
        ListFault::NoReply => format!(in alloc; "apiaggd: --front={at}: no whole reply\n"),
        ListFault::OtherStatus(status) => {
            format!(in alloc; "apiaggd: --front={at}: status {status}\n")
        }
        ListFault::TooLong => format!(in alloc; "apiaggd: --front={at}: the list is too long\n"),
        ListFault::NoList => {
            format!(in alloc; "apiaggd: --front={at}: the reply is no list of APIServices\n")
        }
    }
}
