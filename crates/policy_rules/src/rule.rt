ghost use Rattle.std.specs.Prelude.{◌≡◌};

use crate::omit::Omit;
use front_base::{Level, Text, Texts};
use std::marker::Model;

/// Resources of one API group (`GroupResources` of `audit.k8s.io/v1`).
#[derive(Debug, Drop)]
pub struct GroupResources {
    /// Empty for the core group.
    pub group: Text,
    /// `pods`, `pods/log`, `pods/*` for all subresources of pods, `*/scale`, or `*`. Empty for all.
    pub resources: Texts,
    /// Empty for all.
    pub resource_names: Texts,
}

/// Resources of groups in order, which contracts see as a list.
#[derive(Debug, Drop)]
pub struct Resources(Vec<GroupResources>);

impl Model for Resources {
    ghost use Rattle.std.specs.Prelude.{List};
    ghost use Rattle.policy_rules.specs.declared.rule.GroupResources.{GroupResources};

    ghost Value = { List GroupResources };

    ghost view = { λ r. r.0.items };
}

impl Resources {
    pub fn new(resources: Vec<GroupResources>) -> Resources
        ensures { result ≡ resources.items }
    {
        Resources(resources)
    }

    pub fn as_slice(&self) -> &[GroupResources]
        ensures { result.now ≡ self.now }
    {
        self.0.as_slice()
    }
}

/// A rule of a policy (`PolicyRule` of `audit.k8s.io/v1`). An empty list asks for nothing.
#[derive(Debug, Drop)]
pub struct Rule {
    pub level: Level,
    pub users: Texts,
    /// Of these groups the user needs one.
    pub user_groups: Texts,
    pub verbs: Texts,
    pub resources: Resources,
    /// The empty text stands for requests without a namespace.
    pub namespaces: Texts,
    /// `/healthz`, `/api*` for all paths that begin so, or `*`.
    pub non_resource_urls: Texts,
    pub omit: Omit,
    /// `omitManagedFields`, where the rule gives it.
    pub omit_managed: Option<bool>,
}
