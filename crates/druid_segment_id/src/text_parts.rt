//! The texts of identifiers.
ghost use Rattle.std.specs.Prelude.{◌≡◌, ◌+◌, ◌≤◌, ◌++◌, length, take, IfOk, string_bytes};
ghost use Rattle.druid_segment_id.specs.Identifier.{IsIdentifier, identifier_text, partition_suffix};
ghost use Rattle.druid_time.specs.Texts.{instant_text};

use crate::SegmentId;
use druid_time::Instant;
use std::alloc::{AllocError, Global};
use std::str;

// The most bytes that the text of an identifier has.
pub(crate) const LONGEST: usize = 221;

// The most bytes that follow the version.
pub(crate) const LONGEST_SUFFIX: usize = 6;

// Copies the bytes to the place `at`, and returns where they end.
fn append(out: &mut [u8], at: usize, bytes: &[u8]) -> usize
    requires { at + length bytes.now ≤ length out.old }
    ensures end { result ≡ at + length bytes.now }
    ensures text { take result out.new ≡ take at out.old ++ bytes.now }
{
    let end = at + bytes.len();
    out[at..end].copy_from_slice(bytes);
    end
}

fn append_instant(out: &mut [u8], at: usize, instant: Instant) -> usize
    requires { at + 24 ≤ length out.old }
    ensures end { result ≡ at + 24 }
    ensures text { take result out.new ≡ take at out.old ++ instant_text instant }
{
    let mut text = [0; 24];
    instant.write(&mut text);
    append(out, at, &text)
}

// Writes what follows the version.
pub(crate) fn append_suffix(out: &mut [u8], at: usize, partition: u16) -> usize
    requires { at + 6 ≤ length out.old }
    ensures end { result ≡ at + length (partition_suffix partition) }
    ensures short { result ≤ at + 6 }
    ensures text { take result out.new ≡ take at out.old ++ partition_suffix partition }
{
    if partition == 0 {
        return at;
    }
    let beyond = append(out, at, b"_");
    let mut digits = itoa::Buffer::new();
    append(out, beyond, digits.format(partition).as_bytes())
}

impl SegmentId {
    /// `{source}_{start}_{end}_{version}`, followed by `_{partition}` where the partition is not 0.
    ///
    /// # Errors
    ///
    /// Out of memory.
    #[tactic(auto, using(crate::proofs::IdentifierLemmas::text_facts))]
    pub fn text(&self, alloc: Global) -> Result<String, AllocError>
        ensures { IfOk result (λ text. string_bytes text ≡ identifier_text self.now) }
    {
        let mut text = [0; LONGEST];
        let len = self.write_text(&mut text);
        String::from_str(alloc, str::from_utf8(&text[..len]).unwrap())
    }

    // Writes the text, and returns how long it is.
    #[tactic(auto, unfolding(crate::specs::Identifier::identifier_text))]
    pub(crate) fn write_text(&self, out: &mut [u8; LONGEST]) -> usize
        ensures fits { result ≤ 221 }
        ensures text { take result out.new ≡ identifier_text self.now }
        ensures valid { IsIdentifier self.now }
    {
        let at = append(out, 0, self.source.as_str().as_bytes());
        let at = append(out, at, b"_");
        let at = append_instant(out, at, self.interval.start());
        let at = append(out, at, b"_");
        let at = append_instant(out, at, self.interval.end());
        let at = append(out, at, b"_");
        let at = append(out, at, self.version.as_str().as_bytes());
        append_suffix(out, at, self.partition)
    }
}
