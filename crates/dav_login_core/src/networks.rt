//! By what the guesses of a client count.
ghost use Rattle.std.specs.Prelude.{◌≡◌, ◌≤◌, length, take};
ghost use Rattle.std.specs.List.{list_any};
ghost use Rattle.std.specs.Net.Addr.{ipv6_segments};
ghost use Rattle.dav_login_core.specs.Networks.{is_bracketed, is_colon_byte, length_before, network_in, network_of, network_of_segments, without_last_part, without_port};

use std::net::{IpAddr, Ipv6Addr};

/// By what the guesses of a client count (own).
#[derive(Clone, Copy)]
pub enum Network {
    /// An address of IPv4.
    V4([u8; 4]),
    /// The first 64 bits of an address of IPv6.
    V6([u8; 8]),
    /// What is no address.
    Unknown,
}

/// The network of an address, which may have a port behind it. An address of IPv4 that is written as one of IPv6, `::ffff:192.0.2.1`, is the same as that of IPv4.
#[tactic(auto, unfolding(crate::specs::Networks::network_of))]
pub(crate) fn network_of(address: &[u8]) -> Network
    ensures { result ≡ network_of address.now }
{
    network_in(without_port(address))
}

// Of the address that the whole text writes.
fn network_in(text: &[u8]) -> Network
    ensures { result ≡ network_in text.now }
{
    match IpAddr::parse_ascii(text) {
        Ok(IpAddr::V4(ip)) => Network::V4(ip.octets()),
        Ok(IpAddr::V6(ip)) => network_of_ipv6(&ip),
        Err(_) => Network::Unknown,
    }
}

fn network_of_ipv6(ip: &Ipv6Addr) -> Network
    ensures { result ≡ network_of_segments (ipv6_segments ip.now) }
{
    match ip.to_ipv4_mapped() {
        Some(mapped) => Network::V4(mapped.octets()),
        None => Network::V6(first_half(&ip.octets())),
    }
}

fn first_half(octets: &[u8; 16]) -> [u8; 8]
    ensures { result ≡ take 8 octets.now }
{
    [
        octets[0], octets[1], octets[2], octets[3], octets[4], octets[5], octets[6], octets[7],
    ]
}

fn without_port(address: &[u8]) -> &[u8]
    ensures { result.now ≡ without_port address.now }
{
    if !is_bracketed(address) {
        return without_last_part(address);
    }
    let inner = &address[1..];
    &inner[..length_before(b']', inner)]
}

fn without_last_part(text: &[u8]) -> &[u8]
    ensures { result.now ≡ without_last_part text.now }
{
    let len = length_before(b':', text);
    if len == text.len() || has_colon(&text[len + 1..]) {
        return text;
    }
    &text[..len]
}

fn is_bracketed(text: &[u8]) -> bool
    ensures { result ≡ is_bracketed text.now }
{
    !text.is_empty() && text[0] == b'['
}

fn length_before(byte: u8, text: &[u8]) -> usize
    ensures value { result ≡ length_before byte text.now }
    ensures within { result ≤ length text.now }
{
    text.iter().take_while(|b| **b != byte).count()
}

fn has_colon(text: &[u8]) -> bool
    ensures { result ≡ list_any is_colon_byte text.now }
{
    text.iter().any(|b| *b == b':')
}
