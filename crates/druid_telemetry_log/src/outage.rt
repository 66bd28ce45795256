//! What is logged once, and not at each turn: a state of a few bytes, whose contract says what is
//! logged of one turn more, and no thread.
ghost use Rattle.std.specs.Prelude.{◌≡◌, option_map};
ghost use Rattle.druid_telemetry_log.specs.Outages.{failures_after, report_of, incarnation_of, is_news};

use druid_segment_descriptor::Mark;
use std::marker::Model;

/// What is logged of a turn with a node.
#[derive(Clone, Copy, Debug, PartialEq, Eq, Drop)]
pub enum Report {
    /// Nothing.
    Nothing,
    /// It failed, and the one before had not.
    Begins,
    /// It did not fail, after so many that had.
    Ends(u64),
}

/// How many turns with a node have failed since the last that did not: what a contract sees.
#[derive(Debug, Drop)]
pub struct Outage {
    failed: u64,
}

impl Model for Outage {
    ghost use Rattle.std.specs.Prelude.{ℕ};

    ghost Value = { ℕ };

    ghost view = { λ a. a.failed };
}

impl Outage {
    /// None has failed.
    pub fn new() -> Outage
        ensures { result ≡ 0 }
    {
        Outage { failed: 0 }
    }

    /// Counts a turn, and gives what is logged of it.
    pub fn turn(&mut self, failed: bool) -> Report
        ensures report { result ≡ report_of self.old failed }
        ensures count { self.new ≡ failures_after self.old failed }
    {
        let before = self.failed;
        if failed {
            self.failed = before.saturating_add(1);
            return if before == 0 {
                Report::Begins
            } else {
                Report::Nothing
            };
        }
        self.failed = 0;
        if before == 0 {
            Report::Nothing
        } else {
            Report::Ends(before)
        }
    }
}

/// The incarnation in which a node last showed a mark below the one that is held, if it still does: what a contract sees.
#[derive(Debug, Drop)]
pub struct Fall {
    incarnation: Option<u64>,
}

impl Model for Fall {
    ghost use Rattle.std.specs.Prelude.{ℕ, Option};

    ghost Value = { Option ℕ };

    ghost view = { λ a. a.incarnation };
}

// The incarnation of a mark.
fn incarnation_of(mark: Option<Mark>) -> Option<u64>
    ensures { result ≡ incarnation_of mark }
{
    match mark {
        Some(mark) => Some(mark.incarnation()),
        None => None,
    }
}

impl Fall {
    /// It has shown none.
    pub fn new() -> Fall
        ensures { result ≡ None }
    {
        Fall { incarnation: None }
    }

    /// Takes the mark that a node shows below the one that is held, or None where it shows none such, and gives whether that is
    /// logged: once for each incarnation.
    pub fn show(&mut self, shown: Option<Mark>) -> bool
        ensures logged { result ≡ is_news self.old (incarnation_of shown) }
        ensures state { self.new ≡ incarnation_of shown }
    {
        let before = self.incarnation;
        let now = incarnation_of(shown);
        self.incarnation = now;
        match (now, before) {
            (Some(now), Some(before)) => now != before,
            (Some(_), None) => true,
            (None, _) => false,
        }
    }
}
