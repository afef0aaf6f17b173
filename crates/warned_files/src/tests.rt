use crate::{Places, unread_in_endpoints, unread_in_policy, unread_in_services};
use front_base::NoMemory;
use std::alloc::Global;

// The places that are shown, each after a space, and how many more there are.
fn told(alloc: Global, places: Result<Places, NoMemory>) -> Result<String, NoMemory> {
    let Places { shown, more } = places?;
    let mut told = format!(in alloc; "{more}")?;
    for place in shown.as_slice() {
        told.push_str(" ")?;
        told.push_str(place.as_str())?;
    }
    Ok(told)
}

// Nothing stands for a place that memory refused.
fn text(told: Result<String, NoMemory>, alloc: Global) -> String {
    match told {
        Ok(text) => text,
        Err(_) => String::new(alloc),
    }
}

const POLICY: &str =
    "{\"kind\":\"Policy\",\"apiVersion\":\"audit.k8s.io/v1\",\"metadata\":{\"any\":{\"name\":1}},\
\"omitManagedFields\":true,\"rule\":[],\"rules\":[{\"level\":\"None\",\"verbs\":[\"get\"]},\
{\"level\":\"None\",\"verb\":[\"get\"],\"resources\":[{\"group\":\"\"},{\"groups\":\"\",\"resource\":null}]}]}";

const SERVICES: &str =
    "{\"kind\":\"List\",\"apiVersion\":\"v1\",\"metadata\":{\"resourceVersion\":\"\"},\"items\":[\
{\"kind\":\"APIService\",\"metadata\":{\"labels\":{\"a\":\"b\"}},\"spec\":{\"caBundle\":\"\",\"groupPriorityMinimum\":1,\
\"service\":{\"name\":\"a\",\"port\":1,\"ports\":2}},\"status\":{\"conditions\":[{\"type\":\"Available\",\"reasons\":\"\"}]}},\
{\"spec\":{\"insecureSkipTLSVerify\":true,\"caBundel\":\"\"},\"data\":1}]}";

const ENDPOINTS: &str =
    "local,127.0.0.1:1\na/b:1,127.0.0.1:2\nlocal,127.0.0.1:3\nothers,127.0.0.1:6\na/b:2,127.0.0.1:4\nlocal,127.0.0.1:5\n";

#[test]
fn what_is_not_read(rt: HostRuntime) {
    let alloc = rt.alloc();
    let policy = unread_in_policy(alloc, POLICY.as_bytes());
    let services = unread_in_services(alloc, SERVICES.as_bytes());
    let endpoints = unread_in_endpoints(alloc, ENDPOINTS.as_bytes());
    let other = unread_in_services(alloc, POLICY.as_bytes());
    assert_eq!(rt;
        text(told(alloc, policy), alloc).as_str(),
        "0 rule rules[1].resources[1].groups rules[1].resources[1].resource rules[1].verb"
    );
    assert_eq!(rt;
        text(told(alloc, services), alloc).as_str(),
        "0 items[0].spec.service.ports items[0].status.conditions[0].reasons items[1].data items[1].spec.caBundel"
    );
    assert_eq!(rt;
        text(told(alloc, endpoints), alloc).as_str(),
        "0 record 1 record 3"
    );
    assert_eq!(rt; text(told(alloc, other), alloc).as_str(), "0");
}
