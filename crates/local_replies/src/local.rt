use front_base::Text;

/// What a local path asks for.
#[derive(Debug, Drop)]
pub enum Local {
    /// Whether the server is up.
    Health,
    /// The groups of all APIs.
    GroupList,
    /// One group, by its name.
    OneGroup(Text),
    /// The resources of the API `apiregistration.k8s.io/v1`.
    ResourceList,
    /// All APIServices.
    AllServices,
    /// One APIService, by its name.
    OneService(Text),
    /// The list of the APIService of that name, if there is one.
    ServicesNamed(Text),
    /// Something in the API `apiregistration.k8s.io/v1` that isn't there.
    Unserved,
}
