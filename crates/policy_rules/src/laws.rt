ghost use Rattle.std.specs.Prelude.{◌≡◌, ◌↔◌, ℕ, Bool, List, ◌++◌, true, false, codes, unwrap_or};
ghost use Rattle.front_base.specs.declared.info.Info.{Info};
ghost use Rattle.front_base.specs.declared.user.User.{User};
ghost use Rattle.policy_rules.specs.About.{HasResource, IsAbout, NamesPath, NamesResource};
ghost use Rattle.policy_rules.specs.Matching.{element_matches, is_empty, is_resource, is_url, matches};
ghost use Rattle.policy_rules.specs.Policy.{IsFirstMatch, NoneMatches, first, by_rule, by_none};
ghost use Rattle.policy_rules.specs.declared.policy.Policy.{Policy};
ghost use Rattle.policy_rules.specs.declared.rule.GroupResources.{GroupResources};
ghost use Rattle.policy_rules.specs.declared.rule.Rule.{Rule};

/// The first rule that matches decides: no rule before it does, and those after it don't count.
pub fn first_match_decides()
    ensures { (place : ℕ) → (rule : Rule) → (policy : Policy) → (user : User) → (info : Info)
        → IsFirstMatch place rule policy user info
        → first policy user info ≡ by_rule place policy rule }
{}

/// A request that no rule matches isn't recorded.
pub fn no_match_records_nothing()
    ensures { (policy : Policy) → (user : User) → (info : Info)
        → NoneMatches policy.rules user info
        → first policy user info ≡ by_none policy }
{}

/// Managed fields are left out as the first rule that matches says where it gives a value, else as the policy says, else
/// not at all.
pub fn rules_decide_on_managed_fields()
    ensures rule { (place : ℕ) → (rule : Rule) → (policy : Policy) → (user : User) → (info : Info)
        → IsFirstMatch place rule policy user info → (value : Bool) → rule.omit_managed ≡ Some value
        → (first policy user info).omit_managed ≡ value }
    ensures policy { (place : ℕ) → (rule : Rule) → (policy : Policy) → (user : User) → (info : Info)
        → IsFirstMatch place rule policy user info → rule.omit_managed ≡ None
        → (first policy user info).omit_managed ≡ unwrap_or policy.omit_managed false }
    ensures no_rule { (policy : Policy) → (user : User) → (info : Info)
        → NoneMatches policy.rules user info
        → (first policy user info).omit_managed ≡ unwrap_or policy.omit_managed false }
{}

/// Stages that the policy leaves out are left out whatever the request.
pub fn policy_stages_always_count()
    ensures received { (policy : Policy) → (user : User) → (info : Info)
        → policy.omit.received ≡ true → (first policy user info).omit.received ≡ true }
    ensures started { (policy : Policy) → (user : User) → (info : Info)
        → policy.omit.started ≡ true → (first policy user info).omit.started ≡ true }
    ensures complete { (policy : Policy) → (user : User) → (info : Info)
        → policy.omit.complete ≡ true → (first policy user info).omit.complete ≡ true }
{}

/// `*` names every resource, `pods/*` every subresource of pods but not pods, and `*/scale` that subresource of every
/// resource.
pub fn patterns_name_resources()
    ensures all { (info : Info) → is_resource info (codes "*") ≡ true }
    ensures below { (info : Info) → is_empty info.subresource ≡ false
        → is_resource info (info.resource ++ codes "/*") ≡ true }
    ensures not_itself { (info : Info) → is_empty info.subresource ≡ true
        → is_resource info (info.resource ++ codes "/*") ≡ false }
    ensures of_any { (info : Info) → is_empty info.subresource ≡ false
        → is_resource info (codes "*/" ++ info.subresource) ≡ true }
{}

/// A URL that ends in an asterisk names each path that begins with what stands before it.
pub fn prefixes_name_paths()
    ensures { (start rest : List ℕ) → is_url (start ++ rest) (start ++ codes "*") ≡ true }
{}

/// A rule matches exactly the requests that each of its lists is about.
pub fn rules_match_by_lists()
    ensures { (rule : Rule) → (user : User) → (info : Info)
        → matches rule user info ≡ true ↔ IsAbout rule user info }
{}

/// An element of a rule's resources matches exactly the requests for one of its resources, of its group and names.
pub fn elements_match_by_lists()
    ensures { (info : Info) → (element : GroupResources)
        → element_matches info element ≡ true ↔ HasResource info element }
{}

/// A resource that a rule names is exactly the request's, with its subresource where it has one: `pods/*` isn't `pods`.
pub fn resources_are_named()
    ensures { (info : Info) → (named : List ℕ) → is_resource info named ≡ true ↔ NamesResource info named }
{}

/// A URL of a rule is exactly the path, or what the path begins with and an asterisk.
pub fn paths_are_named()
    ensures { (path : List ℕ) → (url : List ℕ) → is_url path url ≡ true ↔ NamesPath path url }
{}
