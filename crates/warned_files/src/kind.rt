// Which members the public types of Kubernetes have.
ghost use Rattle.std.specs.Prelude.{◌≡◌};
ghost use Rattle.warned_files.specs.Known as spec;

/// A public type: of `audit.k8s.io/v1` the first three, of `apiregistration.k8s.io/v1` the others.
#[derive(Clone, Copy, Debug)]
pub enum Kind {
    Policy,
    PolicyRule,
    GroupResources,
    ServiceList,
    Service,
    ServiceSpec,
    ServiceReference,
    ServiceStatus,
    ServiceCondition,
}

/// What is known of a member.
#[derive(Clone, Copy, Debug)]
pub enum Member {
    /// The type has no such member.
    Unknown,
    /// The type has it, and what it holds isn't looked at.
    Leaf,
    /// It holds an object of this type, or a list of such.
    Part(Kind),
}

fn is_head(name: &str) -> bool
    ensures { result ≡ spec.is_head name.now }
{
    matches!(name, "apiVersion" | "kind" | "metadata")
}

fn is_omission(name: &str) -> bool
    ensures { result ≡ spec.is_omission name.now }
{
    matches!(name, "omitManagedFields" | "omitStages")
}

fn is_rule_leaf(name: &str) -> bool
    ensures { result ≡ spec.is_rule_leaf name.now }
{
    matches!(
        name,
        "level" | "users" | "userGroups" | "verbs" | "namespaces" | "nonResourceURLs"
    )
}

fn is_group_leaf(name: &str) -> bool
    ensures { result ≡ spec.is_group_leaf name.now }
{
    matches!(name, "group" | "resources" | "resourceNames")
}

fn is_spec_leaf(name: &str) -> bool
    ensures { result ≡ spec.is_spec_leaf name.now }
{
    matches!(
        name,
        "group"
            | "version"
            | "groupPriorityMinimum"
            | "versionPriority"
            | "insecureSkipTLSVerify"
            | "caBundle"
    )
}

fn is_reference_leaf(name: &str) -> bool
    ensures { result ≡ spec.is_reference_leaf name.now }
{
    matches!(name, "namespace" | "name" | "port")
}

fn is_condition_leaf(name: &str) -> bool
    ensures { result ≡ spec.is_condition_leaf name.now }
{
    matches!(
        name,
        "type" | "status" | "lastTransitionTime" | "reason" | "message"
    )
}

impl Kind {
    fn has_leaf(self, name: &str) -> bool
        ensures { result ≡ spec.has_leaf self name.now }
    {
        match self {
            Kind::Policy => is_head(name) || is_omission(name),
            Kind::PolicyRule => is_rule_leaf(name) || is_omission(name),
            Kind::GroupResources => is_group_leaf(name),
            Kind::ServiceList | Kind::Service => is_head(name),
            Kind::ServiceSpec => is_spec_leaf(name),
            Kind::ServiceReference => is_reference_leaf(name),
            Kind::ServiceStatus => false,
            Kind::ServiceCondition => is_condition_leaf(name),
        }
    }

    fn part(self, name: &str) -> Option<Kind>
        ensures { result ≡ spec.part self name.now }
    {
        match self {
            Kind::Policy if name == "rules" => Some(Kind::PolicyRule),
            Kind::PolicyRule if name == "resources" => Some(Kind::GroupResources),
            Kind::ServiceList if name == "items" => Some(Kind::Service),
            Kind::Service if name == "spec" => Some(Kind::ServiceSpec),
            Kind::Service if name == "status" => Some(Kind::ServiceStatus),
            Kind::ServiceSpec if name == "service" => Some(Kind::ServiceReference),
            Kind::ServiceStatus if name == "conditions" => Some(Kind::ServiceCondition),
            _ => None,
        }
    }

    /// What is known of the member of that name.
    pub fn member(self, name: &str) -> Member
        ensures { result ≡ spec.member_of self name.now }
    {
        if self.has_leaf(name) {
            return Member::Leaf;
        }
        match self.part(name) {
            Some(kind) => Member::Part(kind),
            None => Member::Unknown,
        }
    }
}
