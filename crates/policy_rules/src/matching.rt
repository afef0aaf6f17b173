// Which requests a rule is about.
ghost use Rattle.std.specs.Prelude.{◌≡◌, ◌∷◌, ◌++◌, bytes_eq};
ghost use Rattle.policy_rules.specs.Matching as spec;

use crate::rule::{GroupResources, Resources, Rule};
use front_base::{Info, Text, Texts, User};

fn has(texts: &[Text], text: &str) -> bool
    ensures { result ≡ spec.has text.now texts.now }
{
    texts.iter().any(|own| own.as_str() == text)
}

// An empty list asks for nothing.
fn admits(texts: &Texts, text: &str) -> bool
    ensures { result ≡ spec.admits texts.now text.now }
{
    texts.as_slice().is_empty() || has(texts.as_slice(), text)
}

fn shares(texts: &[Text], others: &[Text]) -> bool
    ensures { result ≡ spec.shares texts.now others.now }
{
    texts.iter().any(|text| has(others, text.as_str()))
}

fn admits_one(texts: &Texts, others: &Texts) -> bool
    ensures { result ≡ spec.admits_one texts.now others.now }
{
    texts.as_slice().is_empty() || shares(texts.as_slice(), others.as_slice())
}

fn is_slash_and(text: &[u8], back: &[u8]) -> bool
    ensures { result ≡ bytes_eq text.now (47 ∷ back.now) }
{
    match text.strip_prefix(b"/".as_slice()) {
        Some(rest) => rest == back,
        None => false,
    }
}

// Whether a text is both others with a slash between.
fn is_joined(text: &[u8], front: &[u8], back: &[u8]) -> bool
    ensures { result ≡ bytes_eq text.now (front.now ++ 47 ∷ back.now) }
{
    match text.strip_prefix(front) {
        Some(rest) => is_slash_and(rest, back),
        None => false,
    }
}

// Whether a name with a subresource is that of both, or of one of them with `*` for the other.
fn is_subresource(named: &[u8], resource: &[u8], subresource: &[u8]) -> bool
    ensures { result ≡ spec.is_subresource named.now resource.now subresource.now }
{
    is_joined(named, resource, subresource)
        || is_joined(named, b"*".as_slice(), subresource)
        || is_joined(named, resource, b"*".as_slice())
}

// Whether a resource that a rule names is the request's.
#[tactic(auto, unfolding(crate::specs::Matching::is_resource))]
fn is_resource(named: &str, info: &Info) -> bool
    ensures { result ≡ spec.is_resource info.now named.now }
{
    if named == "*" {
        return true;
    }
    let resource = info.resource.as_str();
    let subresource = info.subresource.as_str();
    if subresource.is_empty() {
        return named == resource;
    }
    is_subresource(
        named.as_bytes(),
        resource.as_bytes(),
        subresource.as_bytes(),
    )
}

fn has_resource(named: &[Text], info: &Info) -> bool
    ensures { result ≡ spec.has_resource info.now named.now }
{
    named
        .iter()
        .any(|resource| is_resource(resource.as_str(), info))
}

fn admits_resource(named: &Texts, info: &Info) -> bool
    ensures { result ≡ spec.admits_resource info.now named.now }
{
    named.as_slice().is_empty() || has_resource(named.as_slice(), info)
}

impl GroupResources {
    #[tactic(auto, unfolding(crate::specs::Matching::element_matches))]
    fn matches(&self, info: &Info) -> bool
        ensures { result ≡ spec.element_matches info.now self.now }
    {
        self.group.as_str() == info.group.as_str()
            && admits(&self.resource_names, info.name.as_str())
            && admits_resource(&self.resources, info)
    }
}

fn has_element(elements: &[GroupResources], info: &Info) -> bool
    ensures { result ≡ spec.has_element info.now elements.now }
{
    elements.iter().any(|element| element.matches(info))
}

fn admits_element(elements: &Resources, info: &Info) -> bool
    ensures { result ≡ spec.admits_element info.now elements.now }
{
    elements.as_slice().is_empty() || has_element(elements.as_slice(), info)
}

// Whether a path is a URL of a rule, or begins with what stands before the asterisk at the URL's end.
#[tactic(auto, unfolding(crate::specs::Matching::is_url))]
fn is_url(url: &[u8], path: &[u8]) -> bool
    ensures { result ≡ spec.is_url path.now url.now }
{
    url == path || url.ends_with(b"*".as_slice()) && path.starts_with(&url[..url.len() - 1])
}

fn has_url(urls: &[Text], path: &str) -> bool
    ensures { result ≡ spec.has_url path.now urls.now }
{
    urls.iter()
        .any(|url| is_url(url.as_str().as_bytes(), path.as_bytes()))
}

impl Rule {
    pub fn is_about_resources(&self) -> bool
        ensures { result ≡ spec.is_about_resources self.now }
    {
        !self.resources.as_slice().is_empty() || !self.namespaces.as_slice().is_empty()
    }

    #[tactic(auto, unfolding(crate::specs::Matching::matches_user))]
    fn matches_user(&self, user: &User) -> bool
        ensures { result ≡ spec.matches_user self.now user.now }
    {
        admits(&self.users, user.name.as_str()) && admits_one(&self.user_groups, &user.groups)
    }

    #[tactic(auto, unfolding(crate::specs::Matching::matches_resource))]
    fn matches_resource(&self, info: &Info) -> bool
        ensures { result ≡ spec.matches_resource self.now info.now }
    {
        if !self.is_about_resources() {
            return true;
        }
        info.resource_request
            && admits(&self.namespaces, info.namespace.as_str())
            && admits_element(&self.resources, info)
    }

    #[tactic(auto, unfolding(crate::specs::Matching::matches_url))]
    fn matches_url(&self, info: &Info) -> bool
        ensures { result ≡ spec.matches_url self.now info.now }
    {
        if self.non_resource_urls.as_slice().is_empty() {
            return true;
        }
        !info.resource_request && has_url(self.non_resource_urls.as_slice(), info.path.as_str())
    }

    /// Whether the rule is about a request.
    #[tactic(auto, unfolding(crate::specs::Matching::matches))]
    pub fn matches(&self, user: &User, info: &Info) -> bool
        ensures { result ≡ spec.matches self.now user.now info.now }
    {
        self.matches_user(user)
            && admits(&self.verbs, info.verb.as_str())
            && self.matches_resource(info)
            && self.matches_url(info)
    }
}
