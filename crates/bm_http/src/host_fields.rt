//! Fields `Host` of requests.
ghost use Rattle.std.specs.Prelude.{◌≡◌, ◌≤◌, ◌↔◌, IsTrue, length};
ghost use Rattle.bm_http.specs.HostFields.{are_digits, IsBracketed, IsHost, begins_hex, from_close, is_name_byte, is_named, is_port, may_stand};

use std::net::Ipv6Addr;

/// What stands for itself in a name, beside letters and digits.
const MARKS: [u8; 14] = *b"-._~!$&'()*+;=";

fn is_name_byte(byte: u8) -> bool
    ensures { result ≡ is_name_byte byte }
{
    byte.is_ascii_alphanumeric() || MARKS.contains(&byte)
}

fn begins_hex(text: &[u8]) -> bool
    ensures { result ≡ begins_hex text.now }
{
    match text {
        [first, second, ..] => first.is_ascii_hexdigit() && second.is_ascii_hexdigit(),
        _ => false,
    }
}

// Whether a byte may stand in a name before this text.
fn may_stand(byte: u8, rest: &[u8]) -> bool
    ensures { result ≡ may_stand byte rest.now }
{
    is_name_byte(byte) || (byte == b'%' && begins_hex(rest))
}

fn are_digits(text: &[u8]) -> bool
    ensures { result ≡ are_digits text.now }
{
    let mut left = text;
    while let [digit, rest @ ..] = left
        && digit.is_ascii_digit()
    {
        left = rest;
    }
    left.is_empty()
}

fn is_port(text: &[u8]) -> bool
    ensures { result ≡ is_port text.now }
{
    match text {
        [] => true,
        [b':', digits @ ..] => are_digits(digits),
        _ => false,
    }
}

fn is_named(value: &[u8]) -> bool
    ensures { result ≡ is_named value.now }
{
    let mut left = value;
    while let [byte, rest @ ..] = left
        && may_stand(*byte, rest)
    {
        left = rest;
    }
    is_port(left)
}

// What stands from the first closing bracket on.
fn from_close(text: &[u8]) -> &[u8]
    ensures value { result.now ≡ from_close text.now }
    ensures part { length result.now ≤ length text.now }
{
    let mut left = text;
    while let [byte, rest @ ..] = left
        && *byte != b']'
    {
        left = rest;
    }
    left
}

// Whether what stands behind an opening bracket is an IPv6 address, a closing bracket and a port.
// The grammar also has addresses of later versions. None exists, so each is refused, as the RFC
// asks of who can't tell what one means.
fn is_bracketed(text: &[u8]) -> bool
    ensures { IsTrue result ↔ IsBracketed text.now }
{
    let left = from_close(text);
    match left {
        [_, port @ ..] => {
            let address = &text[..text.len() - left.len()];
            match Ipv6Addr::parse_ascii(address) {
                Ok(_) => is_port(port),
                Err(_) => false,
            }
        }
        [] => false,
    }
}

/// Whether a field `Host` may hold this (RFC 9112, 3.2). It is a name, which may be empty, or an
/// IPv6 address in brackets. A port may follow. No memory is taken.
pub fn is_host(value: &[u8]) -> bool
    ensures { IsTrue result ↔ IsHost value.now }
{
    match value {
        [] => true,
        [b'[', rest @ ..] => is_bracketed(rest),
        _ => is_named(value),
    }
}
