ghost use Rattle.std.specs.Prelude.{◌≡◌};
ghost use Rattle.policy_rules.specs.Policy as spec;

use crate::omit::Omit;
use crate::policy::Policy;
use front_base::{Info, Level, User};

/// How a request is recorded.
#[derive(Clone, Copy, Debug, PartialEq, Eq)]
pub struct Decision {
    /// The place of the rule that decided, from 0; None where no rule matched.
    pub rule: Option<u32>,
    pub level: Level,
    pub omit: Omit,
    /// Whether `metadata.managedFields` is left out of recorded bodies.
    pub omit_managed: bool,
}

fn omits_managed(of_rule: Option<bool>, of_policy: Option<bool>) -> bool
    ensures { result ≡ spec.omits_managed of_rule of_policy }
{
    of_rule.or(of_policy).unwrap_or(false)
}

/// The decision of the first rule that matches. A request that no rule matches has the level None.
pub fn decide(policy: &Policy, user: &User, info: &Info) -> Decision
    ensures { result ≡ spec.first policy.now user.now info.now }
{
    let mut place = 0;
    for rule in policy.rules.as_slice() {
        if rule.matches(user, info) {
            return Decision {
                rule: Some(place),
                level: rule.level,
                omit: policy.omit.union(rule.omit),
                omit_managed: omits_managed(rule.omit_managed, policy.omit_managed),
            };
        }
        place += 1;
    }
    let of_policy = omits_managed(None, policy.omit_managed);
    Decision {
        rule: None,
        level: Level::None,
        omit: policy.omit,
        omit_managed: of_policy,
    }
}
