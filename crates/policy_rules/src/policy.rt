ghost use Rattle.std.specs.Prelude.{◌≡◌, ◌<◌, ◌^◌, [], length, IfOk, vec_len};
ghost use Rattle.policy_rules.specs.Policy as spec;

use crate::omit::Omit;
use crate::rule::{Resources, Rule};
use front_base::{Level, NoMemory, Texts};
use std::alloc::Global;
use std::marker::Model;

/// Fewer than 2^32 rules in order, which contracts see as a list.
#[derive(Debug, Drop)]
pub struct Rules(Vec<Rule>);

impl Model for Rules {
    ghost use Rattle.std.specs.Prelude.{List, ◌<◌, ◌^◌, vec_len};
    ghost use Rattle.policy_rules.specs.declared.rule.Rule.{Rule};

    ghost Value = { List Rule };

    ghost view = { λ r. r.0.items };

    ghost invariant = { λ r. vec_len r.0 < 2 ^ 32 };
}

impl Rules {
    pub fn new(rules: Vec<Rule>) -> Rules
        requires { vec_len rules < 2 ^ 32 }
        ensures { result ≡ rules.items }
    {
        Rules(rules)
    }

    pub fn as_slice(&self) -> &[Rule]
        ensures value { result.now ≡ self.now }
        ensures few { length result.now < 2 ^ 32 }
    {
        self.0.as_slice()
    }
}

/// An audit policy (`Policy` of `audit.k8s.io/v1`): the first rule that matches a request decides.
#[derive(Debug, Drop)]
pub struct Policy {
    /// Left out whatever the rule.
    pub omit: Omit,
    /// `omitManagedFields`, where the policy gives it: for rules that don't.
    pub omit_managed: Option<bool>,
    pub rules: Rules,
}

fn no_texts(alloc: Global) -> Texts
    ensures { result ≡ [] }
{
    Texts::new(Vec::new(alloc))
}

impl Policy {
    /// Every request at level Metadata, by one rule.
    pub fn all_metadata(alloc: Global) -> Result<Policy, NoMemory>
        ensures { IfOk result (λ policy. policy ≡ spec.all_metadata) }
    {
        let rule = Rule {
            level: Level::Metadata,
            users: no_texts(alloc),
            user_groups: no_texts(alloc),
            verbs: no_texts(alloc),
            resources: Resources::new(Vec::new(alloc)),
            namespaces: no_texts(alloc),
            non_resource_urls: no_texts(alloc),
            omit: Omit::NOTHING,
            omit_managed: None,
        };
        Ok(Policy {
            omit: Omit::NOTHING,
            omit_managed: None,
            rules: Rules::new(vec![in alloc; rule]?),
        })
    }
}
