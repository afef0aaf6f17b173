// The URL of a webhook.
ghost use Rattle.std.specs.Prelude.{◌≡◌, Some, None, IfOk, OnOk, IsErrOf, IsTrue, is_some, option_map, List, ℕ};
ghost use Rattle.url.specs.Parts.{nonempty_host};
ghost use Rattle.url.specs.Host.{borrowed_host};
ghost use Rattle.url.specs.declared.host.Host.{Host};
ghost use Rattle.webhook_sink.specs.Hooks as spec;

use front_base::{Address, NoMemory, Text};
use std::alloc::Global;
use url::{Host, ParseError, Url};

/// Why a URL isn't taken.
#[derive(Clone, Copy, Debug, PartialEq, Eq)]
pub enum HookFault {
    /// It is no URL, or none that a webhook can have.
    BadUrl,
    /// Memory ran out.
    NoMemory,
}

impl From<NoMemory> for HookFault {
    ghost use Rattle.std.specs.Prelude.{◌≡◌};
    ghost use Rattle.webhook_sink.specs.declared.hook_url.HookFault.{HookFault};
    ghost use Rattle.webhook_sink.specs.declared.hook_url.HookFault.TheVariants as fault;

    ghost from_gives = { λ _ f. f ≡ fault.NoMemory };

    fn from(_: NoMemory) -> HookFault {
        HookFault::NoMemory
    }
}

/// What a webhook's URL says.
#[derive(Debug, Drop)]
pub struct HookUrl {
    /// The host as `url` writes it: four numbers between dots, or `localhost`.
    pub host: Text,
    /// Whom to dial: `localhost` is 127.0.0.1, and the port is 80 where none is written.
    pub address: Address,
    /// The path, and the query after a question mark.
    pub target: Text,
}

fn ip_of(host: &Host<&str>) -> Option<[u8; 4]>
    ensures { result ≡ spec.ip_of (borrowed_host host.now) }
{
    match host {
        Host::Domain(name) if *name == "localhost" => Some([127, 0, 0, 1]),
        Host::Domain(_) => None,
        Host::Ipv4(address) => Some(address.octets()),
        Host::Ipv6(_) => None,
    }
}

fn is_plain(url: &Url) -> bool
    ensures { result ≡ spec.is_plain url.now }
{
    url.scheme() == "http"
        && url.port() != Some(0)
        && url.username().is_empty()
        && url.password().is_none()
        && url.fragment().is_none()
}

fn target_of(alloc: Global, url: &Url) -> Result<Text, NoMemory>
    ensures { IfOk result (λ text. text ≡ spec.target_with url.now.path url.now.query) }
{
    let mut target = String::from_str(alloc, url.path())?;
    if let Some(query) = url.query() {
        target.push_str("?")?;
        target.push_str(query)?;
    }
    Ok(Text::new(target))
}

// What the URL says, with these four bytes.
fn hook_at(alloc: Global, url: &Url, ip: [u8; 4]) -> Result<HookUrl, NoMemory>
    ensures { IfOk result (λ hook. (host : Host (List ℕ)) → nonempty_host url.now ≡ Some host
        → spec.hook_at url.now host (Some ip) ≡ Some hook) }
{
    let host = Text::copy_of(alloc, url.host_str().unwrap_or(""))?;
    let port = url.port().unwrap_or(80);
    let target = target_of(alloc, url)?;
    Ok(HookUrl {
        host,
        address: Address { ip, port },
        target,
    })
}

fn hook_of(alloc: Global, url: &Url) -> Result<HookUrl, HookFault>
    ensures ok { IfOk result (λ hook. spec.hook_of url.now ≡ Some hook) }
    ensures bad { IsErrOf result HookFault.BadUrl → spec.hook_of url.now ≡ None }
{
    if !is_plain(url) {
        return Err(HookFault::BadUrl);
    }
    let Some(host) = url.host() else {
        return Err(HookFault::BadUrl);
    };
    let Some(ip) = ip_of(&host) else {
        return Err(HookFault::BadUrl);
    };
    match hook_at(alloc, url, ip) {
        Ok(hook) => Ok(hook),
        Err(_) => Err(HookFault::NoMemory),
    }
}

/// Reads the URL of a webhook: `http`, an IPv4 address or `localhost`, a port other than 0, and neither a user nor a
/// password nor a fragment. It is read as the URL Standard says, so `http://127.1` names 127.0.0.1.
pub fn read_url(alloc: Global, text: &str) -> Result<HookUrl, HookFault>
    ensures ok { IfOk result (λ hook. spec.hook_named text.now ≡ Some hook) }
    ensures bad { IsErrOf result HookFault.BadUrl → spec.hook_named text.now ≡ None }
{
    match Url::parse(alloc, text) {
        Ok(url) => hook_of(alloc, &url),
        Err(ParseError::OutOfMemory) => Err(HookFault::NoMemory),
        Err(ParseError::Overflow) => Err(HookFault::NoMemory),
        Err(_) => Err(HookFault::BadUrl),
    }
}

/// Whether a webhook can have this URL.
pub fn check_url(alloc: Global, text: &str) -> Result<(), HookFault>
    ensures ok { OnOk result (IsTrue (is_some (spec.hook_named text.now))) }
    ensures bad { IsErrOf result HookFault.BadUrl → spec.hook_named text.now ≡ None }
{
    match read_url(alloc, text) {
        Ok(_) => Ok(()),
        Err(fault) => Err(fault),
    }
}
