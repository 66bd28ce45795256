//! Versions of segments.
ghost use Rattle.std.specs.Prelude.{◌≡◌, ◌↔◌, ◌⊎◌, length, IsTrue, IsOkUnless, IsErrOf, IfOk, IfErr, OnOk, string_bytes, bytes_eq, All};
ghost use Rattle.std.specs.List.{list_all};
ghost use Rattle.std.specs.Cmp.{partial_equiv_from_equiv};
ghost use Rattle.std.specs.Cmp.Lexicographic.{nat_list_eq_equiv};
ghost use Rattle.druid_segment_id.specs.Names.{is_version_byte, is_version, IsVersion};

use crate::IdFault;
use crate::text::Text;
use std::alloc::{AllocError, Global};
use std::marker::Model;

/// The most bytes of a version.
pub const MAX_VERSION: usize = 64;

/// A version: 1 to 64 bytes of printable ASCII without `_`, `/`, `"` and `\`.
/// Versions are ordered only within the rank of a group.
///
/// A contract sees its bytes.
#[derive(Debug, Hash, Drop)]
pub struct Version {
    text: Text,
}

impl Model for Version {
    ghost use Rattle.std.specs.Prelude.{ℕ, List};
    ghost use Rattle.druid_segment_id.specs.Names.{IsVersion};

    ghost Value = { List ℕ };

    ghost view = { λ a. a.text };

    ghost invariant = { λ a. IsVersion a.text };

    ghost inverse = { λ text. record { text = text } };
}

fn is_version_byte(byte: u8) -> bool
    ensures { result ≡ is_version_byte byte }
{
    byte.is_ascii_graphic() && !(byte == b'_' || byte == b'/' || byte == b'"' || byte == b'\\')
}

fn are_version_bytes(bytes: &[u8]) -> bool
    ensures test { result ≡ list_all is_version_byte bytes.now }
    ensures all { IsTrue result ↔ All (λ b. IsTrue (is_version_byte b)) bytes.now }
{
    bytes.iter().all(|byte| is_version_byte(*byte))
}

impl Version {
    /// Whether the text is a version. Does not allocate.
    pub fn accepts(text: &str) -> bool
        ensures test { result ≡ is_version text.now }
        ensures versions { IsTrue result ↔ IsVersion text.now }
    {
        let bytes = text.as_bytes();
        1 <= bytes.len() && bytes.len() <= MAX_VERSION && are_version_bytes(bytes)
    }

    /// The version of that text.
    ///
    /// # Errors
    ///
    /// I2; I9 last.
    pub fn new(alloc: Global, text: &str) -> Result<Version, IdFault>
        ensures value { IfOk result (λ version. version ≡ text.now) }
        ensures versions { OnOk result (IsVersion text.now) }
        ensures accepts { IsVersion text.now → IsOkUnless result IdFault.Memory }
        ensures bad_version { IsErrOf result IdFault.BadVersion ↔ (¬ IsVersion text.now) }
        ensures fault { IfErr result
            (λ fault. (fault ≡ IdFault.BadVersion) ⊎ (fault ≡ IdFault.Memory)) }
    {
        if !Version::accepts(text) {
            return Err(IdFault::BadVersion);
        }
        Ok(Version::copy_of(alloc, text)?)
    }

    pub(crate) fn copy_of(alloc: Global, text: &str) -> Result<Version, AllocError>
        requires { IsVersion text.now }
        ensures { IfOk result (λ version. version ≡ text.now) }
    {
        Ok(Version {
            text: Text::new(alloc, text)?,
        })
    }

    /// A copy of the text.
    ///
    /// # Errors
    ///
    /// Out of memory.
    pub fn text(&self, alloc: Global) -> Result<String, AllocError>
        ensures { IfOk result (λ text. string_bytes text ≡ self.now) }
    {
        String::from_str(alloc, self.as_str())
    }

    /// How many bytes its text has.
    pub fn len(&self) -> usize
        ensures value { result ≡ length self.now }
        ensures version { IsVersion self.now }
    {
        self.text.as_str().len()
    }

    // The text, borrowed. Others get a copy: versions are compared by the rank of their group alone.
    pub(crate) fn as_str(&self) -> &str
        ensures value { result.now ≡ self.now }
        ensures version { IsVersion self.now }
    {
        self.text.as_str()
    }
}

impl Clone for Version {
    ghost is_clone = { λ version copy. copy ≡ version };

    fn clone(&self) -> Result<Version, AllocError> {
        Ok(Version {
            text: self.text.clone()?,
        })
    }
}

impl PartialEq for Version {
    ghost eq = { bytes_eq };

    ghost laws = { partial_equiv_from_equiv nat_list_eq_equiv };

    fn eq(&self, other: &Version) -> bool
        ensures value { result ≡ bytes_eq self.now other.now }
        ensures same { IsTrue result ↔ (self.now ≡ other.now) }
    {
        self.text == other.text
    }
}

impl Eq for Version {
    ghost laws = { nat_list_eq_equiv };
}
