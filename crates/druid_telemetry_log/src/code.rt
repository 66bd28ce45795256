//! The codes of a fault, as its text begins with them.
ghost use Rattle.std.specs.Prelude.{◌≡◌, ◌<◌, IfSome, IsUtf8, length, position};
ghost use Rattle.druid_telemetry_log.specs.Codes.{is_other, front_to, trimmed, code_in};

use std::str;

// Whether a byte is none of a code: a capital letter, a digit, a colon or a blank.
fn is_other(byte: u8) -> bool
    ensures { result ≡ is_other byte }
{
    !(byte.is_ascii_uppercase() || byte.is_ascii_digit() || byte == b':' || byte == b' ')
}

// Where the first byte stands that is none of a code.
fn other_in(bytes: &[u8]) -> Option<usize>
    ensures value { result ≡ position is_other bytes.now }
    ensures bound { IfSome result (λ place. place < length bytes.now) }
{
    bytes.iter().position(|byte| is_other(*byte))
}

// The front of bytes that is of a code.
fn front(bytes: &[u8]) -> &[u8]
    ensures { result.now ≡ front_to (position is_other bytes.now) bytes.now }
{
    match other_in(bytes) {
        Some(end) => &bytes[..end],
        None => bytes,
    }
}

// Without the colon and the blank at the end.
fn trimmed(bytes: &[u8]) -> &[u8]
    ensures { result.now ≡ trimmed bytes.now }
{
    match bytes.split_at(bytes.len() - bytes.len().min(2)) {
        (before, b": ") => before,
        _ => bytes,
    }
}

/// The codes with which the text of a fault begins: `N2: F4` of `N2: F4: a row outside the interval`.
pub fn code_in(text: &str) -> &str
    ensures { IsUtf8 (code_in text.now) → result.now ≡ code_in text.now }
{
    match str::from_utf8(trimmed(front(text.as_bytes()))) {
        Ok(code) => code,
        Err(_) => text,
    }
}
