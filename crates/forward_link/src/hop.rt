// Headers that concern one connection alone.
ghost use Rattle.std.specs.Prelude.{◌≡◌};
ghost use Rattle.forward_link.specs.Hop as spec;

use http_head::{Header, Headers, has_option};

// Whether it is a hop header among these headers, each for the reason beside it.
pub fn is_hop(headers: &Headers, header: &Header) -> bool
    ensures { result ≡ spec.is_hop headers.now header.now }
{
    header.is_named("connection") // RFC 9110, section 7.6.1
        || header.is_named("keep-alive") // RFC 9112, appendix C.2.2
        || header.is_named("te") // RFC 9110, section 10.1.4
        || header.is_named("trailer") // RFC 9110, section 6.6.2: no trailer is sent on
        || header.is_named("transfer-encoding") // RFC 9112, section 6.1
        || header.is_named("upgrade") // RFC 9110, section 7.8
        || header.name_begins("proxy-") // RFC 9110, sections 11.7.1 and 11.7.2, and Proxy-Connection of old clients
        || has_option(headers, header.name.as_str()) // RFC 9110, section 7.6.1: the options of Connection
}
