// Services without an endpoint that requests asked for.
use apiservice_rows::{Row, ServiceRef};
use audit_core::Handling;
use session_core::Exchange;
use std::alloc::Global;
use std::io::Eprint;
use std::sync::{Mutex, Wait};

// How many are remembered. What comes beyond is not reported.
const MOST_KNOWN: usize = 256;

/// The APIServices whose service has no endpoint, as far as requests asked for them. Each is reported once.
#[derive(Drop)]
pub(crate) struct Unreached {
    known: Mutex<Vec<String>>,
}

// The row of a request whose API is available, but whose service is reached nowhere.
fn row_of(exchange: &Exchange) -> Option<&Row> {
    match (&exchange.handling, &exchange.row) {
        (Handling::Refused(503), Some(row)) if row.available => Some(row),
        _ => None,
    }
}

impl Unreached {
    pub(crate) fn new(alloc: Global) -> Unreached {
        Unreached {
            known: Mutex::new(Vec::new(alloc)),
        }
    }

    // Whether nobody knew this text. From then on it is known.
    fn is_new<R: Wait>(&self, rt: &R, alloc: Global, text: &str) -> bool {
        let Ok(own) = String::from_str(alloc, text) else {
            return false;
        };
        let mut known = self.known.lock(rt);
        if known.len() >= MOST_KNOWN || known.iter().any(|one| one.as_str() == text) {
            return false;
        }
        known.push(own).is_ok()
    }

    fn report<R: Wait + Eprint>(&self, rt: &R, alloc: Global, row: &Row, service: &ServiceRef) {
        let (api, namespace) = (row.name.as_str(), service.namespace.as_str());
        let (name, port) = (service.name.as_str(), service.port);
        let Ok(text) = format!(in alloc; "{api}: service {namespace}/{name}:{port} has no endpoint")
        else {
            return;
        };
        let text = text.as_str();
        if self.is_new(rt, alloc, text) {
            let _ = eprintln!(rt; "apiaggd: APIService {text}");
        }
    }

    /// Reports the service that an exchange asked for, where it has no endpoint and nobody reported it before.
    pub(crate) fn note<R: Wait + Eprint>(&self, rt: &R, alloc: Global, exchange: &Exchange) {
        let Some(row) = row_of(exchange) else {
            return;
        };
        if let Some(service) = &row.service {
            self.report(rt, alloc, row, service);
        }
    }
}
