ghost use Rattle.std.specs.Prelude.{◌≡◌};
ghost use Rattle.front_base.specs.Address as spec;
ghost use Rattle.front_base.specs.Number.{plain_number_of};

use crate::cut::cut_at;
use crate::number::plain_number_of;

/// An IPv4 address and a TCP port.
#[derive(Clone, Copy, Debug, PartialEq, Eq, Hash)]
pub struct Address {
    /// The four bytes in the order in which they are written, `127.0.0.1` being 127, 0, 0, 1.
    pub ip: [u8; 4],
    pub port: u16,
}

fn byte_of(text: &str) -> Option<u8>
    ensures { result ≡ plain_number_of 255 text.now }
{
    match plain_number_of(255, text.as_bytes()) {
        Some(number) => Some(number as u8),
        None => None,
    }
}

#[tactic(auto, unfolding(crate::specs::Address::port_of))]
fn port_of(text: &str) -> Option<u16>
    ensures { result ≡ spec.port_of text.now }
{
    match plain_number_of(65535, text.as_bytes()) {
        Some(0) => None,
        Some(number) => Some(number as u16),
        None => None,
    }
}

#[tactic(auto, unfolding(crate::specs::Address::dotted_of))]
fn dotted_of(text: &str) -> Option<[u8; 4]>
    ensures { result ≡ spec.dotted_of text.now }
{
    let (first, rest) = cut_at(text, '.')?;
    let (second, rest) = cut_at(rest, '.')?;
    let (third, fourth) = cut_at(rest, '.')?;
    Some([
        byte_of(first)?,
        byte_of(second)?,
        byte_of(third)?,
        byte_of(fourth)?,
    ])
}

#[tactic(auto, unfolding(crate::specs::Address::host_of))]
fn host_of(text: &str) -> Option<[u8; 4]>
    ensures { result ≡ spec.host_of text.now }
{
    if text == "localhost" {
        Some([127, 0, 0, 1])
    } else {
        dotted_of(text)
    }
}

/// The address that a text spells: `a.b.c.d:port` or `localhost:port`, which is 127.0.0.1. Each of a to d is 0 to 255
/// and port is 1 to 65535, in decimal without leading zeros. Every other text is none.
#[tactic(auto, unfolding(crate::specs::Address::address_of))]
pub fn read_address(text: &str) -> Option<Address>
    ensures { result ≡ spec.address_of text.now }
{
    let (host, port) = cut_at(text, ':')?;
    let ip = host_of(host)?;
    let port = port_of(port)?;
    Some(Address { ip, port })
}
