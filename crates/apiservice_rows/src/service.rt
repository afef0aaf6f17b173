use front_base::Text;

/// The service of a cluster that answers for an API.
#[derive(Debug, Drop)]
pub struct ServiceRef {
    pub namespace: Text,
    pub name: Text,
    /// From 1 to 65535 in a row that was read.
    pub port: u16,
}

// What an object says of its service, before the port is checked.
#[derive(Drop)]
pub struct FoundService {
    pub namespace: Text,
    pub name: Text,
    pub port: u64,
}
