// What the rows of a Table carry of their objects.
ghost use Rattle.std.specs.Prelude.{◌≡◌, option_map};
ghost use Rattle.service_tables.specs.Include as spec;

/// What each row of a Table carries of its object (Kubernetes, `meta/v1`: IncludeObjectPolicy).
#[derive(Clone, Copy, Debug, PartialEq, Eq)]
pub enum IncludeObject {
    /// Nothing.
    None,
    /// Its metadata, as a PartialObjectMetadata.
    Metadata,
    /// The whole object.
    Object,
}

fn policy_named(name: &str) -> Option<IncludeObject>
    ensures { result ≡ spec.policy_named name.now }
{
    match name {
        "None" => Some(IncludeObject::None),
        "Object" => Some(IncludeObject::Object),
        "Metadata" => Some(IncludeObject::Metadata),
        "" => Some(IncludeObject::Metadata),
        _ => None,
    }
}

/// What a query asks for by its first `includeObject` (Kubernetes, `meta/v1`: TableOptions), whose value is given decoded: the metadata
/// where it is absent or empty, and `None` where the value names no policy, which is answered with 400.
pub fn include_object(value: Option<&str>) -> Option<IncludeObject>
    ensures { result ≡ spec.include_object (option_map (λ name. name.now) value.entry) }
{
    match value {
        Some(name) => policy_named(name),
        None => Some(IncludeObject::Metadata),
    }
}
