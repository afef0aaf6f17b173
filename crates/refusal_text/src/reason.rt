// Why a file is refused, in words.
use apiservice_rows::RowFault;
use policy_json::PolicyFault;
use service_endpoints::BadEndpoint;
use token_users::{BadRecord, Field};

const WHOLE_NUMBERS: &str = "a number with a fraction or an exponent, -0, or one past 64 bits";

const STAGES: &str = "not a list of RequestReceived, ResponseStarted, ResponseComplete or Panic";

const TEXTS: &str = "not a list of texts";

fn not_utf8(field: Field) -> &'static str {
    match field {
        Field::Token => "the token is not UTF-8",
        Field::User => "the user is not UTF-8",
        Field::Uid => "the uid is not UTF-8",
        Field::Groups => "the groups are not UTF-8",
    }
}

pub fn record_reason(why: BadRecord) -> &'static str {
    match why {
        BadRecord::FewFields => "fewer than 3 columns",
        BadRecord::NotUtf8(field) => not_utf8(field),
        BadRecord::EmptyUser => "the user is empty",
        BadRecord::Control(Field::Groups) => "the groups have a control character",
        BadRecord::Control(_) => "the user has a control character",
        BadRecord::BlankEnds(Field::Groups) => "a group begins or ends with a space or a tab",
        BadRecord::BlankEnds(_) => "the user begins or ends with a space or a tab",
    }
}

pub fn endpoint_reason(why: BadEndpoint) -> &'static str {
    match why {
        BadEndpoint::Fields => "not 2 columns",
        BadEndpoint::Key =>
            "the key is not \"local\", \"others\" or NAMESPACE/NAME:PORT of a service",
        BadEndpoint::Address => "the address is not A.B.C.D:PORT or localhost:PORT",
    }
}

// Why a member of a policy, or of its rule, is refused.
fn policy_member(is_rule: bool, name: &str) -> &'static str {
    match name {
        "kind" => "not \"Policy\"",
        "apiVersion" => "not \"audit.k8s.io/v1\"",
        "number" => WHOLE_NUMBERS,
        "rules" if is_rule => "not an object",
        "rules" => "not a list",
        "level" => "not None, Metadata, Request or RequestResponse",
        "omitStages" => STAGES,
        "omitManagedFields" => "not true or false",
        "resources" => "not a list of objects with a group, resources and resourceNames",
        _ => TEXTS,
    }
}

pub fn policy_reason(fault: &PolicyFault) -> &'static str {
    match fault {
        PolicyFault::NotJson => "not JSON",
        PolicyFault::NoRules => "missing or empty",
        PolicyFault::BadField { rule, name } => policy_member(rule.is_some(), name.as_str()),
        PolicyFault::BothKinds { .. } => "nonResourceURLs beside resources or namespaces",
        PolicyFault::BadUrl { .. } => "neither * nor a path with * at most once, at its end",
        PolicyFault::NamesWithoutResources { .. } => "resourceNames without resources",
        PolicyFault::NoMemory => "out of memory",
    }
}

const NAME: &str = "not a text of 1 to 253 lower-case letters, digits, - and .";

// Why a member of an APIService is refused.
fn row_member(member: &str) -> &'static str {
    match member {
        "kind" => "not \"APIService\"",
        "apiVersion" => "not \"apiregistration.k8s.io/v1\"",
        "number" => WHOLE_NUMBERS,
        "items" => "not a list",
        "metadata.name" => "missing or empty",
        "spec.group" => "not a text of at most 253 lower-case letters, digits, - and .",
        "spec.version" =>
            "not a text of 1 to 63 lower-case letters, digits and -, the first a letter",
        "spec.service" | "status" => "not an object",
        "spec.service.namespace" | "spec.service.name" => NAME,
        "status.conditions" => "not a list of objects",
        _ => "not a number",
    }
}

fn range(member: &str) -> &'static str {
    match member {
        "spec.groupPriorityMinimum" => "must be 1 to 20000",
        "spec.versionPriority" => "must be 1 to 1000",
        "spec.service.port" => "must be 1 to 65535",
        _ => "out of range",
    }
}

pub fn row_reason(fault: &RowFault) -> &'static str {
    match fault {
        RowFault::NotJson => "not JSON",
        RowFault::BadField { member, .. } => row_member(member.as_str()),
        RowFault::NameMismatch { .. } => "not spec.version, a dot and spec.group",
        RowFault::Range { member, .. } => range(member.as_str()),
        RowFault::Repeated { .. } => "the name of an item before it",
        RowFault::Full => "more than 1024",
        RowFault::NoMemory => "out of memory",
    }
}
