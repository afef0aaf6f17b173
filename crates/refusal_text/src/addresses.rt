// The lines for an address, or a URL, of another form.
ghost use Rattle.std.specs.Prelude.{◌≡◌, IfOk, codes, option_map, string_bytes};
ghost use Rattle.front_base.specs.Cut as base;
ghost use Rattle.refusal_text.specs.Text as spec;

use front_base::{cut_at, number_of, read_address};
use std::alloc::{AllocError, Global};

// Whether the text up to its first colon is a host.
fn has_host(alloc: Global, text: &str) -> Result<bool, AllocError>
    ensures { IfOk result (λ is. is ≡ spec.has_host (base.cut_at 58 text.now)) }
{
    match cut_at(text, ':') {
        Some((host, _)) => {
            let address = format!(in alloc; "{host}:1")?;
            Ok(read_address(address.as_str()).is_some())
        }
        None => Ok(false),
    }
}

fn listen_why(alloc: Global, text: &str) -> Result<&'static str, AllocError>
    ensures { IfOk result (λ why. why.now ≡ spec.listen_why text.now) }
{
    if has_host(alloc, text)? {
        Ok("port: not 1 to 65535")
    } else {
        Ok("not A.B.C.D:PORT or localhost:PORT")
    }
}

/// The line for a text of `--listen` that is no address.
pub fn listen_line(alloc: Global, text: &str) -> Result<String, AllocError>
    ensures { IfOk result (λ line. string_bytes line ≡ spec.listen_line text.now) }
{
    let why = listen_why(alloc, text)?;
    format!(in alloc; "--listen={text}: {why}")
}

/// The line for a text of `--front` that is no address.
pub fn front_line(alloc: Global, text: &str) -> Result<String, AllocError>
    ensures { IfOk result (λ line. string_bytes line ≡ spec.front_line text.now) }
{
    let why = listen_why(alloc, text)?;
    format!(in alloc; "--front={text}: {why}")
}

fn before_slash(text: &str) -> &str
    ensures { result.now ≡ spec.before_slash text.now (base.cut_at 47 text.now) }
{
    match cut_at(text, '/') {
        Some((before, _)) => before,
        None => text,
    }
}

fn after_http(url: &str) -> Option<&str>
    ensures { option_map (λ rest. rest.now) result ≡ spec.after (codes "http://") url.now }
{
    url.strip_prefix("http://")
}

#[tactic(auto, unfolding(crate::specs::Text::port_number))]
fn port_number(url: &str) -> Option<u64>
    ensures { result ≡ spec.port_number url.now }
{
    let rest = after_http(url)?;
    let (_, port) = cut_at(before_slash(rest), ':')?;
    number_of(port.as_bytes())
}

fn has_bad_port(url: &str) -> bool
    ensures { result ≡ spec.is_no_port (spec.port_number url.now) }
{
    match port_number(url) {
        Some(number) => number == 0 || number > 65535,
        None => false,
    }
}

fn is_https(url: &str) -> bool
    ensures { result ≡ spec.is_https url.now }
{
    url.starts_with("https://")
}

fn webhook_why(url: &str) -> &'static str
    ensures { result.now ≡ spec.webhook_why url.now }
{
    if is_https(url) {
        "https is not supported"
    } else if has_bad_port(url) {
        "port: not 1 to 65535"
    } else {
        "not http with an IPv4 address or localhost, and no user or fragment"
    }
}

/// The line for a URL of `--audit-webhook-url` that no webhook can have.
pub fn webhook_line(alloc: Global, url: &str) -> Result<String, AllocError>
    ensures { IfOk result (λ line. string_bytes line ≡ spec.webhook_line url.now) }
{
    let why = webhook_why(url);
    format!(in alloc; "--audit-webhook-url={url}: {why}")
}

/// The line for a URL of `--audit-webhook-url` that leads to the address of `--listen`.
pub fn own_webhook_line(alloc: Global, url: &str) -> Result<String, AllocError>
    ensures { IfOk result (λ line. string_bytes line ≡ spec.own_webhook_line url.now) }
{
    format!(in alloc; "--audit-webhook-url={url}: the address of --listen")
}
