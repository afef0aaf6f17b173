use apiservice_table::RouteTable;
use group_resources::Merged;
use service_endpoints::Endpoints;

/// What a run of `resources` begins with.
#[derive(Drop)]
pub struct Settings {
    pub table: RouteTable,
    pub endpoints: Endpoints,
    /// The earlier document; of no lines where none is named.
    pub previous: Merged,
}
