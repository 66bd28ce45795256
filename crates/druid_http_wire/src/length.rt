//! What the fields of a head say of the body.
ghost use Rattle.std.specs.Prelude.{◌≡◌, ◌≤◌, length, map, All, IfSome, IsSome};
ghost use Rattle.std.specs.List.{list_all};
ghost use Rattle.std.specs.Char.{is_ascii_digit};
ghost use Rattle.httparse.specs.Spans.{IsHeaderWithin, header_bytes};
ghost use Rattle.druid_http_wire.specs.Heads.{is_named, is_length, length_value, length_in, is_coded};

use crate::limits::MAX_BODY;
use httparse::spans::HeaderSpan;
use std::str;

// The most digits of a length.
const MAX_DIGITS: usize = 20;

/// How long the body is said to be.
#[derive(Clone, Copy, Debug, PartialEq, Eq, Drop)]
pub(crate) enum Length {
    // Nothing is said.
    Unsaid,
    // It is said twice, or in another form.
    Unclear,
    // More bytes than a body may have.
    TooLong,
    // So many bytes.
    Is(usize),
}

fn are_digits(text: &[u8]) -> bool
    ensures { result ≡ list_all is_ascii_digit text.now }
{
    text.iter().all(|byte| byte.is_ascii_digit())
}

fn is_length(text: &[u8]) -> bool
    ensures { result ≡ is_length text.now }
{
    1 <= text.len() && text.len() <= MAX_DIGITS && are_digits(text)
}

// The length that a text names.
#[tactic(auto, using(crate::proofs::LengthLemmas::length_text, crate::proofs::LengthLemmas::length_numeral))]
fn length_value(text: &[u8]) -> Length
    ensures { result ≡ length_value text.now }
{
    if !is_length(text) {
        return Length::Unclear;
    }
    let Ok(digits) = str::from_utf8(text) else {
        unreachable!()
    };
    match digits.parse::<u128>() {
        Ok(length) if length <= MAX_BODY as u128 => Length::Is(length as usize),
        Ok(_) => Length::TooLong,
        Err(_) => unreachable!(),
    }
}

// Whether the field has that name.
#[tactic(auto, using(crate::proofs::LengthLemmas::same_name))]
fn is_named(head: &[u8], field: HeaderSpan, name: &[u8]) -> bool
    requires { IsHeaderWithin (length head.now) field }
    ensures { result ≡ is_named name.now (header_bytes head.now field) }
{
    field.name.of(head).eq_ignore_ascii_case(name)
}

// How long the body is said to be.
pub(crate) fn length_in(head: &[u8], fields: &[HeaderSpan]) -> Length
    requires { All (IsHeaderWithin (length head.now)) fields.now }
    ensures { result ≡ length_in (map (header_bytes head.now) fields.now) }
{
    let mut length = Length::Unsaid;
    for field in fields {
        if is_named(head, *field, b"content-length") {
            match length {
                Length::Unsaid => length = length_value(field.value.of(head)),
                _ => return Length::Unclear,
            }
        }
    }
    length
}

// Whether the body is sent in another form than whole.
pub(crate) fn is_coded(head: &[u8], fields: &[HeaderSpan]) -> bool
    requires { All (IsHeaderWithin (length head.now)) fields.now }
    ensures { result ≡ is_coded (map (header_bytes head.now) fields.now) }
{
    for field in fields {
        if is_named(head, *field, b"transfer-encoding") {
            return true;
        }
    }
    false
}
