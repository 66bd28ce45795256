ghost use Rattle.std.specs.Prelude.{◌≡◌, ◌↔◌, List, ℕ, Contains, IfOk, string_bytes};
ghost use Rattle.druid_folder.specs.FileName.{IsFileName};
ghost use Rattle.druid_folder.specs.Folder.{AreInOrder, names_of};

use std::alloc::{AllocError, Global};

// A name that a file can have.
#[derive(Drop)]
pub(crate) struct FileName {
    pub(crate) text: String,
    ghost valid: { IsFileName (string_bytes text) },
}

impl FileName {
    pub(crate) fn new(alloc: Global, text: &str) -> Result<FileName, AllocError>
        requires { IsFileName text.now }
        ensures { IfOk result (λ name. string_bytes name.text ≡ text.now) }
    {
        let text = String::from_str(alloc, text)?;
        Ok(FileName { text })
    }
}

// Puts names in the order of their bytes, and leaves each once.
pub(crate) fn put_in_order(names: &mut Vec<String>)
    ensures order { AreInOrder (names_of names.new.items) }
    ensures same { (name : List ℕ)
        → Contains (names_of names.new.items) name ↔ Contains (names_of names.old.items) name }
{
    names.sort_unstable();
    names.dedup();
}
