//! Names of data sources.
ghost use Rattle.std.specs.Prelude.{◌≡◌, ◌↔◌, ◌⊎◌, Some, refl, IsTrue, IsOkUnless, IsErrOf, IfOk, IfErr, OnOk, string_bytes, bytes_eq, All};
ghost use Rattle.std.specs.List.{list_all};
ghost use Rattle.std.specs.Cmp.{partial_equiv_from_equiv};
ghost use Rattle.std.specs.Ordering.{nat_cmp};
ghost use Rattle.std.specs.Cmp.Lexicographic.{slice_cmp, nat_list_eq_equiv, nat_list_cmp_total, texts_ties, texts_po};
ghost use Rattle.druid_segment_id.specs.Names.{is_name_byte, is_name, IsName};

use crate::IdFault;
use crate::text::Text;
use std::alloc::{AllocError, Global};
use std::cmp::Ordering;
use std::marker::Model;

/// The most bytes of the name of a data source.
pub const MAX_NAME: usize = 100;

/// The name of a data source: 1 to 100 bytes of `A-Z a-z 0-9 _ - .`, in the order of their bytes.
///
/// A contract sees its bytes.
#[derive(Debug, Hash, Drop)]
pub struct Name {
    text: Text,
}

impl Model for Name {
    ghost use Rattle.std.specs.Prelude.{ℕ, List};
    ghost use Rattle.druid_segment_id.specs.Names.{IsName};

    ghost Value = { List ℕ };

    ghost view = { λ a. a.text };

    ghost invariant = { λ a. IsName a.text };

    ghost inverse = { λ text. record { text = text } };
}

fn is_name_byte(byte: u8) -> bool
    ensures { result ≡ is_name_byte byte }
{
    byte.is_ascii_alphanumeric() || byte == b'_' || byte == b'-' || byte == b'.'
}

fn are_name_bytes(bytes: &[u8]) -> bool
    ensures test { result ≡ list_all is_name_byte bytes.now }
    ensures all { IsTrue result ↔ All (λ b. IsTrue (is_name_byte b)) bytes.now }
{
    bytes.iter().all(|byte| is_name_byte(*byte))
}

impl Name {
    /// Whether the text is a name. Does not allocate.
    pub fn accepts(text: &str) -> bool
        ensures test { result ≡ is_name text.now }
        ensures names { IsTrue result ↔ IsName text.now }
    {
        let bytes = text.as_bytes();
        1 <= bytes.len() && bytes.len() <= MAX_NAME && are_name_bytes(bytes)
    }

    /// The name of that text.
    ///
    /// # Errors
    ///
    /// I1; I9 last.
    pub fn new(alloc: Global, text: &str) -> Result<Name, IdFault>
        ensures value { IfOk result (λ name. name ≡ text.now) }
        ensures names { OnOk result (IsName text.now) }
        ensures accepts { IsName text.now → IsOkUnless result IdFault.Memory }
        ensures bad_name { IsErrOf result IdFault.BadName ↔ (¬ IsName text.now) }
        ensures fault { IfErr result
            (λ fault. (fault ≡ IdFault.BadName) ⊎ (fault ≡ IdFault.Memory)) }
    {
        if !Name::accepts(text) {
            return Err(IdFault::BadName);
        }
        Ok(Name {
            text: Text::new(alloc, text)?,
        })
    }

    /// A copy of the text.
    ///
    /// # Errors
    ///
    /// Out of memory.
    pub fn text(&self, alloc: Global) -> Result<String, AllocError>
        ensures { IfOk result (λ text. string_bytes text ≡ self.now) }
    {
        String::from_str(alloc, self.as_str())
    }

    /// The text.
    pub fn as_str(&self) -> &str
        ensures value { result.now ≡ self.now }
        ensures name { IsName self.now }
    {
        self.text.as_str()
    }
}

impl Clone for Name {
    ghost is_clone = { λ name copy. copy ≡ name };

    fn clone(&self) -> Result<Name, AllocError> {
        Ok(Name {
            text: self.text.clone()?,
        })
    }
}

impl PartialEq for Name {
    ghost eq = { bytes_eq };

    ghost laws = { partial_equiv_from_equiv nat_list_eq_equiv };

    fn eq(&self, other: &Name) -> bool
        ensures value { result ≡ bytes_eq self.now other.now }
        ensures same { IsTrue result ↔ (self.now ≡ other.now) }
    {
        self.text == other.text
    }
}

impl Eq for Name {
    ghost laws = { nat_list_eq_equiv };
}

impl PartialOrd for Name {
    ghost partial_cmp = { λ a b. Some (slice_cmp nat_cmp a b) };

    ghost laws = { texts_po };

    fn partial_cmp(&self, other: &Name) -> Option<Ordering> {
        Some(self.cmp(other))
    }
}

impl Ord for Name {
    ghost cmp = { slice_cmp nat_cmp };

    ghost total = { nat_list_cmp_total };

    ghost matches_partial_cmp = { λ a b. refl };

    ghost matches_eq = { texts_ties };

    fn cmp(&self, other: &Name) -> Ordering {
        self.text.cmp(&other.text)
    }
}
