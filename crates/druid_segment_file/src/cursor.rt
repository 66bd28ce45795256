//! What is left of the bytes of a file, from which numbers and texts are taken.
ghost use Rattle.std.specs.Prelude.{◌≡◌, ◌==◌, length};
ghost use Rattle.std.specs.Int.{w16, w32, w64};
ghost use Rattle.std.specs.Str.{is_utf8};
ghost use Rattle.druid_segment_file.specs.Parts.{bytes_at, byte_at, number_at, signed_at, at_most, accepted, short_text_at, text_at};
ghost use Rattle.druid_segment_file.specs.Reader.{Gives, GivesAs, TakesAs};

use crate::FileFault;
use druid_segment_rows::MAX_VALUE;
use std::marker::Model;
use std::str;

// The bytes that are left, and the fault where a part passes their end. A call that fails leaves it anywhere.
#[derive(Drop)]
pub(crate) struct Cursor<'a> {
    rest: &'a [u8],
    short: FileFault,
}

impl<'a> Model for Cursor<'a> {
    ghost use Rattle.druid_segment_file.specs.Reader.{Cursor};

    ghost Value = { Cursor };

    ghost view = { λ a. record { rest = a.rest.now; short = a.short } };
}

// A count or a length, which may be the limit at most.
#[tactic(auto, unfolding(crate::specs::Parts::at_most))]
pub(crate) fn at_most(limit: usize, count: usize) -> Result<usize, FileFault>
    ensures { Gives result (at_most limit count) }
{
    if count > limit {
        return Err(FileFault::TooLong);
    }
    Ok(count)
}

#[tactic(auto, using(crate::proofs::TextLemmas::not_utf8, crate::proofs::TextLemmas::utf8_true), unfolding(crate::specs::Parts::accepted))]
fn utf8(bytes: &[u8]) -> Result<&str, FileFault>
    ensures { GivesAs (λ text. text.now) result (accepted is_utf8 bytes.now) }
{
    let Ok(text) = str::from_utf8(bytes) else {
        return Err(FileFault::Field);
    };
    Ok(text)
}

impl<'a> Cursor<'a> {
    pub(crate) fn new(bytes: &'a [u8], short: FileFault) -> Cursor<'a>
        ensures { result ≡ record { rest = bytes.now; short = short } }
    {
        Cursor { rest: bytes, short }
    }

    // The bytes that are left.
    pub(crate) fn rest(&self) -> &'a [u8]
        ensures { result.now ≡ self.now.rest }
    {
        self.rest
    }

    // Another cursor over the same bytes.
    pub(crate) fn again(&self) -> Cursor<'a>
        ensures { result ≡ self.now }
    {
        Cursor {
            rest: self.rest,
            short: self.short,
        }
    }

    // Whether no bytes are left.
    pub(crate) fn is_at_end(&self) -> bool
        ensures { result ≡ (length self.now.rest == 0) }
    {
        self.rest.is_empty()
    }

    // That many bytes.
    #[tactic(auto, unfolding(crate::specs::Parts::bytes_at))]
    pub(crate) fn bytes(&mut self, count: usize) -> Result<&'a [u8], FileFault>
        ensures { TakesAs (λ bytes. bytes.now) self.old self.new result (bytes_at self.old.short count self.old.rest) }
    {
        if self.rest.len() < count {
            return Err(self.short);
        }
        let (part, rest) = self.rest.split_at(count);
        self.rest = rest;
        Ok(part)
    }

    #[tactic(auto, unfolding(crate::specs::Parts::byte_at))]
    pub(crate) fn byte(&mut self) -> Result<u8, FileFault>
        ensures { TakesAs (λ byte. byte) self.old self.new result (byte_at self.old.short self.old.rest) }
    {
        match self.rest {
            [] => Err(self.short),
            [byte, rest @ ..] => {
                self.rest = rest;
                Ok(*byte)
            }
        }
    }

    #[tactic(auto, unfolding(crate::specs::Parts::number_at, crate::specs::Parts::bytes_at))]
    pub(crate) fn u16(&mut self) -> Result<u16, FileFault>
        ensures { TakesAs (λ n. n) self.old self.new result (number_at self.old.short w16 self.old.rest) }
    {
        let Some((number, rest)) = self.rest.split_first_chunk() else {
            return Err(self.short);
        };
        self.rest = rest;
        Ok(u16::from_be_bytes(*number))
    }

    #[tactic(auto, unfolding(crate::specs::Parts::number_at, crate::specs::Parts::bytes_at))]
    pub(crate) fn u32(&mut self) -> Result<u32, FileFault>
        ensures { TakesAs (λ n. n) self.old self.new result (number_at self.old.short w32 self.old.rest) }
    {
        let Some((number, rest)) = self.rest.split_first_chunk() else {
            return Err(self.short);
        };
        self.rest = rest;
        Ok(u32::from_be_bytes(*number))
    }

    #[tactic(auto, unfolding(crate::specs::Parts::number_at, crate::specs::Parts::bytes_at))]
    pub(crate) fn u64(&mut self) -> Result<u64, FileFault>
        ensures { TakesAs (λ n. n) self.old self.new result (number_at self.old.short w64 self.old.rest) }
    {
        let Some((number, rest)) = self.rest.split_first_chunk() else {
            return Err(self.short);
        };
        self.rest = rest;
        Ok(u64::from_be_bytes(*number))
    }

    #[tactic(auto, unfolding(crate::specs::Parts::signed_at, crate::specs::Parts::number_at, crate::specs::Parts::bytes_at))]
    pub(crate) fn i64(&mut self) -> Result<i64, FileFault>
        ensures { TakesAs (λ n. n) self.old self.new result (signed_at self.old.short self.old.rest) }
    {
        let Some((number, rest)) = self.rest.split_first_chunk() else {
            return Err(self.short);
        };
        self.rest = rest;
        Ok(i64::from_be_bytes(*number))
    }

    // A text after its length, which is one byte.
    #[tactic(auto, unfolding(crate::specs::Parts::short_text_at))]
    pub(crate) fn short_text(&mut self, limit: usize) -> Result<&'a [u8], FileFault>
        ensures { TakesAs (λ text. text.now) self.old self.new result (short_text_at self.old.short limit self.old.rest) }
    {
        let len = self.byte()?;
        let len = at_most(limit, usize::from(len))?;
        self.bytes(len)
    }

    // A text after its length, which is two bytes.
    #[tactic(auto, unfolding(crate::specs::Parts::text_at))]
    pub(crate) fn text(&mut self) -> Result<&'a str, FileFault>
        ensures { TakesAs (λ text. text.now) self.old self.new result (text_at self.old.short self.old.rest) }
    {
        let len = self.u16()?;
        let len = at_most(MAX_VALUE, usize::from(len))?;
        utf8(self.bytes(len)?)
    }
}
