use crate::sources::{source_of, text_of, word};
use apiservice_rows::ServiceRef;
use case_rows::fields;
use front_base::{Address, MOST_FILE_BYTES};
use service_endpoints::{EndpointFault, Endpoints, read_endpoints};
use std::alloc::Global;
use std::io;

fn read(alloc: Global, file: &[u8]) -> Result<Endpoints, EndpointFault> {
    if file.len() as u64 > MOST_FILE_BYTES {
        return Err(EndpointFault::NoMemory);
    }
    read_endpoints(alloc, file)
}

// The endpoints of a field: `none` are those of no file.
fn endpoints_of(rt: &HostRuntime, field: &str) -> Result<Endpoints, EndpointFault> {
    if field == "none" {
        return Ok(Endpoints::none(rt.alloc()));
    }
    read(rt.alloc(), source_of(rt, field).as_slice())
}

// A service by its fields: namespace, name and port.
fn service_of(alloc: Global, named: &str) -> ServiceRef {
    let (namespace, rest) = fields(named);
    let (name, port) = fields(rest);
    ServiceRef {
        namespace: text_of(alloc, word(namespace)),
        name: text_of(alloc, name),
        port: port.parse().unwrap_or(0),
    }
}

fn address_of(alloc: Global, endpoints: &Endpoints, named: &str) -> Option<Address> {
    match named {
        "" => endpoints.of(None),
        "others" => endpoints.others(),
        _ => {
            let service = service_of(alloc, named);
            let address = endpoints.of(Some(&service));
            drop(service);
            address
        }
    }
}

/// Where a service is reached, or where the other paths go, or the delegate where the row names neither.
pub fn show_address(rt: &HostRuntime, row: &str) -> io::Result<()> {
    let (source, named) = fields(row);
    match endpoints_of(rt, source) {
        Ok(endpoints) => {
            let address = address_of(rt.alloc(), &endpoints, named);
            drop(endpoints);
            println!(rt; "{row} => {address:?}")
        }
        Err(fault) => println!(rt; "{row} => {fault:?}"),
    }
}
