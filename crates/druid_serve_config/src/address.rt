//! Addresses of servers: an IPv4 address and a port, in the digits that they print as. No name is
//! looked up, so that where a link leads does not change under it. Others than those of this
//! machine are taken only where a config says `"network": true`: there is no way to tell who
//! connects.
ghost use Rattle.std.specs.Prelude.{◌≡◌, ◌<◌, option_map};
ghost use Rattle.druid_base.specs.Numbers as numbers;
ghost use Rattle.druid_serve_config.specs.Addresses.{is_port, is_octet, is_local, after_octet, after_host, is_host_port, is_address};

use crate::limits::{MAX_OCTET, MAX_PORT};
use druid_base::number_of;

// Whether digits are those of a port.
fn is_port(digits: &[u8]) -> bool
    ensures { result ≡ is_port (numbers.number_at digits.now) }
{
    match number_of(digits) {
        Some(port) => 1 <= port && port <= MAX_PORT,
        None => false,
    }
}

// Whether digits are those of one of the four numbers of an IPv4 address.
fn is_octet(digits: &[u8]) -> bool
    ensures { result ≡ is_octet (numbers.number_at digits.now) }
{
    match number_of(digits) {
        Some(number) => number <= MAX_OCTET,
        None => false,
    }
}

// Whether a text is the address of a port of this machine.
fn is_local(text: &str) -> bool
    ensures { result ≡ is_local text.now }
{
    match text.as_bytes().strip_prefix(b"127.0.0.1:") {
        Some(digits) => is_port(digits),
        None => false,
    }
}

// What follows the first such character of a text, where the digits of one of the four numbers stand before it.
fn after_octet(text: &str, end: char) -> Option<&str>
    requires { end < 128 }
    ensures { option_map (λ s. s.now) result ≡ after_octet end text.now }
{
    let Some((number, rest)) = text.split_once(end) else {
        return None;
    };
    if is_octet(number.as_bytes()) {
        Some(rest)
    } else {
        None
    }
}

// What follows the four, dots between them and a colon after them.
#[tactic(auto, unfolding(crate::specs::Addresses::after_host))]
fn after_host(text: &str) -> Option<&str>
    ensures { option_map (λ s. s.now) result ≡ after_host text.now }
{
    let second = after_octet(text, '.')?;
    let third = after_octet(second, '.')?;
    let fourth = after_octet(third, '.')?;
    after_octet(fourth, ':')
}

// Whether a text is the address of a port of any machine.
fn is_host_port(text: &str) -> bool
    ensures { result ≡ is_host_port text.now }
{
    match after_host(text) {
        Some(digits) => is_port(digits.as_bytes()),
        None => false,
    }
}

// Whether a text is an address that a config may have, of this machine alone or of any.
pub(crate) fn is_address(network: bool, text: &str) -> bool
    ensures { result ≡ is_address network text.now }
{
    if network {
        is_host_port(text)
    } else {
        is_local(text)
    }
}
