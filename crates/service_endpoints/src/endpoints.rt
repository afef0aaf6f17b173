ghost use Rattle.std.specs.Prelude.{◌≡◌, [], Some, IfOk, option_map};
ghost use Rattle.service_endpoints.specs.Find as spec;
ghost use Rattle.service_endpoints.specs.Find.{AreShort};

use crate::endpoint::Endpoint;
use crate::key::{DELEGATE, OTHERS, service_key};
use apiservice_rows::ServiceRef;
use front_base::{Address, NoMemory};
use std::alloc::Global;
use std::collections::BTreeMap;
use std::marker::Model;

/// Where services, the delegate, and what serves the other paths are reached. Contracts see the list of a file's endpoints; of those with one key the
/// last counts.
#[derive(Drop)]
pub struct Endpoints {
    records: Vec<Endpoint>,
    // the place of each key's last endpoint
    places: BTreeMap<String, usize>,
}

impl Model for Endpoints {
    ghost use Rattle.std.specs.Prelude.{List};
    ghost use Rattle.service_endpoints.specs.Find.{HasPlaces};
    ghost use Rattle.service_endpoints.specs.declared.endpoint.Endpoint.{Endpoint};

    ghost Value = { List Endpoint };

    ghost view = { λ e. e.records.items };

    ghost invariant = { λ e. HasPlaces e.places e.records.items };
}

impl Endpoints {
    /// No endpoints.
    pub fn none(alloc: Global) -> Endpoints
        ensures { result ≡ [] }
    {
        Endpoints {
            records: Vec::new(alloc),
            places: BTreeMap::new(alloc),
        }
    }

    // The endpoints in the order of a file.
    pub(crate) fn new(alloc: Global, records: Vec<Endpoint>) -> Result<Endpoints, NoMemory>
        requires { AreShort records.items }
        ensures { IfOk result (λ endpoints. endpoints ≡ records.items) }
    {
        let mut places = BTreeMap::new(alloc);
        for i in 0..records.len() {
            let key = String::from_str(alloc, records[i].key.as_str())?;
            places.insert(key, i)?;
        }
        Ok(Endpoints { records, places })
    }

    // The address of the last endpoint that has the key.
    fn at(&self, key: &str) -> Option<Address>
        ensures { result ≡ spec.last_address key.now self.now }
    {
        match self.places.get(key) {
            Some(place) => Some(self.records[*place].address),
            None => None,
        }
    }

    fn of_service(&self, service: &ServiceRef) -> Option<Address>
        ensures { result ≡ spec.endpoint_of self.now (Some service.now) }
    {
        // The type keeps that no endpoint has a longer key.
        let _ = &self.records;
        match service_key(service) {
            Some(key) => self.at(key.as_str()),
            None => None,
        }
    }

    /// Where a service is reached, or without one the delegate. None where the file has no such endpoint.
    pub fn of(&self, service: Option<&ServiceRef>) -> Option<Address>
        ensures { result ≡ spec.endpoint_of self.now (option_map (λ s. s.now) service.entry) }
    {
        match service {
            Some(service) => self.of_service(service),
            None => self.at(DELEGATE),
        }
    }

    /// Where paths go that nothing else serves, as `/version`, `/openapi` and `/metrics` of an API server. None where the file
    /// has no such endpoint.
    pub fn others(&self) -> Option<Address>
        ensures { result ≡ spec.others_of self.now }
    {
        self.at(OTHERS)
    }
}
