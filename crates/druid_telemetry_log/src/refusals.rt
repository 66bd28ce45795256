//! The files that were refused, and why.
ghost use Rattle.std.specs.Prelude.{◌≡◌, ◌↔◌, ◌≢◌, [], Some, None, IfOk, OnOk, OnErr, IsTrue, option_map, string_bytes};
ghost use Rattle.druid_telemetry_log.specs.Refusals.{code_of, Notes};

use std::alloc::{AllocError, Global};
use std::collections::BTreeMap;
use std::marker::Model;

/// The files that a node refused last, each with the code of its fault: what a contract sees.
#[derive(Drop)]
pub struct Refusals {
    alloc: Global,
    files: BTreeMap<String, String>,
}

impl Model for Refusals {
    ghost use Rattle.std.specs.Prelude.{List};
    ghost use Rattle.druid_telemetry_log.specs.Refusals.{Refused, files_of};

    ghost Value = { List Refused };

    ghost view = { λ a. files_of a.files.entries };
}

impl Refusals {
    /// No file was refused.
    pub fn new(alloc: Global) -> Refusals
        ensures { result ≡ [] }
    {
        Refusals {
            alloc,
            files: BTreeMap::new(alloc),
        }
    }

    // The code with which the file of that name was refused.
    #[tactic(auto, using(crate::proofs::RefusalLemmas::code_found))]
    fn code(&self, name: &str) -> Option<&str>
        ensures { option_map (λ s. s.now) result ≡ code_of self.now name.now }
    {
        match self.files.get(name) {
            Some(code) => Some(code.as_str()),
            None => None,
        }
    }

    // Notes a code of the file of that name.
    #[tactic(auto, using(crate::proofs::RefusalLemmas::noted))]
    fn note(&mut self, name: &str, code: &str) -> Result<(), AllocError>
        ensures noted { OnOk result (Notes name.now (Some code.now) self.old self.new) }
        ensures unchanged { OnErr result (self.new ≡ self.old) }
    {
        let name = String::from_str(self.alloc, name)?;
        let code = String::from_str(self.alloc, code)?;
        self.files.insert(name, code)?;
        Ok(())
    }

    /// Notes that the file of that name was refused with a code, and gives whether that is logged:
    /// where it was not noted with that code before.
    ///
    /// # Errors
    ///
    /// Out of memory. Leaves all as it was.
    pub fn refuse(&mut self, name: &str, code: &str) -> Result<bool, AllocError>
        ensures logged { IfOk result (λ logged. IsTrue logged ↔ (code_of self.old name.now ≢ Some code.now)) }
        ensures noted { OnOk result (Notes name.now (Some code.now) self.old self.new) }
        ensures unchanged { OnErr result (self.new ≡ self.old) }
    {
        let logged = self.code(name) != Some(code);
        self.note(name, code)?;
        Ok(logged)
    }

    /// Forgets the file of that name, which is loaded or gone.
    #[tactic(auto, using(crate::proofs::RefusalLemmas::noted))]
    pub fn forget(&mut self, name: &str)
        ensures { Notes name.now None self.old self.new }
    {
        self.files.remove(name);
    }
}
