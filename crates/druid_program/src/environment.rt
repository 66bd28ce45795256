//! What the environment asks of the program.
ghost use Rattle.std.specs.Prelude.{◌≡◌, option_map, string_bytes};

use druid_telemetry_log::Log;
use std::alloc::Global;
use std::marker::Model;
use std::sync::Arc;

/// What the environment asks of the program, and where its events go. A contract sees whether it asks for what is wrong below a fault,
/// and the part of a cluster that it names, if it names one.
#[derive(Drop)]
pub struct Environment {
    explain: bool,
    part: Option<String>,
    log: Arc<Log, Global>,
}

impl Model for Environment {
    ghost use Rattle.std.specs.Prelude.{option_map, string_bytes};
    ghost use Rattle.druid_program.specs.Asked.{Asked};

    ghost Value = { Asked };

    ghost view = { λ a. record { explain = a.explain; part = option_map string_bytes a.part } };
}

impl Environment {
    /// One that asks for these.
    pub fn new(explain: bool, part: Option<String>, log: Arc<Log, Global>) -> Environment
        ensures { result ≡ record { explain = explain; part = option_map string_bytes part } }
    {
        Environment { explain, part, log }
    }

    // Whether what is wrong stands below a fault.
    pub(crate) fn explains(&self) -> bool
        ensures { result ≡ self.now.explain }
    {
        self.explain
    }

    // The part that is served.
    pub(crate) fn part(&self) -> Option<&str>
        ensures { option_map (λ t. t.now) result ≡ self.now.part }
    {
        match &self.part {
            Some(part) => Some(part.as_str()),
            None => None,
        }
    }

    // Where events go.
    pub(crate) fn log(&self) -> &Arc<Log, Global> {
        &self.log
    }
}
