//! What is remembered of the exchanges with a node, as a value: the cells around it do nothing
//! else. X2, X3 and X8 mark a node. X9 is the broker's own and says nothing, and with all others
//! the node was there. What a syncer's success clears is what syncers noted alone, since a node may
//! answer what it serves and hang on queries.
ghost use Rattle.std.specs.Prelude.{◌≡◌, ◌≤◌, ◌<◌, ◌^◌, ◌/◌, ◌%◌, IsTrue, ◌↔◌};
ghost use Rattle.druid_link_health.specs.Marks.{Mark, well, ails, capped, after, after_fault, after_failure, after_success, after_cut, standing, after_try, is_tried_since, untried, word_of, digit};
ghost use Rattle.druid_link_health.specs.Limits.{last_milli};

use crate::{Asker, Standing};
use druid_http_message::WireFault;
use std::marker::Model;

// The last millisecond that a mark can keep: three bits of its word are taken.
const LAST_MILLI: u64 = (1 << 61) - 1;

// What is remembered of a node.
#[derive(Clone, Copy, Debug)]
pub(crate) struct Mark {
    // Whether a query's exchange failed, and no query's succeeded since.
    by_query: bool,
    // Whether a syncer's exchange failed, and none succeeded since.
    by_syncer: bool,
    // Whether a query tries the node.
    tried: bool,
    // When the last failure was, or the last try began, in milliseconds.
    at: u64,
}

impl Model for Mark {
    ghost use Rattle.std.specs.Prelude.{◌≤◌};
    ghost use Rattle.druid_link_health.specs.Marks.{Mark};
    ghost use Rattle.druid_link_health.specs.Limits.{last_milli};

    ghost Value = { Mark };

    ghost view = { λ a. record { by_query = a.by_query; by_syncer = a.by_syncer; tried = a.tried; at = a.at } };

    ghost invariant = { λ a. a.at ≤ last_milli };

    ghost inverse = { λ m. record { by_query = m.by_query; by_syncer = m.by_syncer; tried = m.tried; at = m.at } };
}

// The time as a mark keeps it.
fn capped(now: u64) -> u64
    ensures { result ≡ capped now }
{
    now.min(LAST_MILLI)
}

impl Mark {
    // The mark of a node of which nothing failed.
    pub(crate) fn well() -> Mark
        ensures { result ≡ well }
    {
        Mark {
            by_query: false,
            by_syncer: false,
            tried: false,
            at: 0,
        }
    }

    // Whether the node ails.
    pub(crate) fn ails(self) -> bool
        ensures { result ≡ ails self }
    {
        self.by_query || self.by_syncer
    }

    // After an exchange that failed at that time.
    fn after_failure(self, asker: Asker, now: u64) -> Mark
        ensures { result ≡ after_failure asker now self }
    {
        let at = self.at.max(capped(now));
        match asker {
            Asker::Query => Mark {
                by_query: true,
                by_syncer: self.by_syncer,
                tried: false,
                at,
            },
            Asker::Syncer => Mark {
                by_query: self.by_query,
                by_syncer: true,
                tried: false,
                at,
            },
        }
    }

    // After an exchange that succeeded.
    fn after_success(self, asker: Asker) -> Mark
        ensures { result ≡ after_success asker self }
    {
        match asker {
            Asker::Query => Mark::well(),
            Asker::Syncer => {
                if self.by_query {
                    Mark {
                        by_query: true,
                        by_syncer: false,
                        tried: self.tried,
                        at: self.at,
                    }
                } else {
                    Mark::well()
                }
            }
        }
    }

    // After an exchange that ended so at that time.
    pub(crate) fn after(self, asker: Asker, ended: Result<(), WireFault>, now: u64) -> Mark
        ensures { result ≡ after asker ended now self }
    {
        match ended {
            Ok(()) => self.after_success(asker),
            Err(WireFault::Read | WireFault::Write | WireFault::Connect) => {
                self.after_failure(asker, now)
            }
            Err(WireFault::Memory) => self,
            Err(
                WireFault::Cut
                | WireFault::BadHead
                | WireFault::HeadTooLong
                | WireFault::NoLength
                | WireFault::BodyTooLong,
            ) => self.after_success(asker),
        }
    }

    // After an exchange that its query's own deadline cut short.
    pub(crate) fn after_cut(self) -> Mark
        ensures { result ≡ after_cut self }
    {
        Mark {
            by_query: self.by_query,
            by_syncer: self.by_syncer,
            tried: false,
            at: self.at,
        }
    }

    // How the node stands at that time, where an ailing node rests for a pause.
    pub(crate) fn standing(self, pause: u64, now: u64) -> Standing
        ensures { result ≡ standing pause now self }
    {
        if !self.ails() {
            return Standing::Well;
        }
        if pause <= now.saturating_sub(self.at) {
            Standing::Due
        } else {
            Standing::Ailing
        }
    }

    // After a query began to try the node.
    pub(crate) fn after_try(self, now: u64) -> Mark
        ensures { result ≡ after_try now self }
    {
        Mark {
            by_query: self.by_query,
            by_syncer: self.by_syncer,
            tried: true,
            at: capped(now),
        }
    }

    // Whether the query whose try began then tries the node still.
    pub(crate) fn is_tried_since(self, began: u64) -> bool
        ensures { result ≡ is_tried_since began self }
    {
        self.tried && self.at == capped(began)
    }

    // After that query did without the node.
    pub(crate) fn untried(self) -> Mark
        ensures { result ≡ untried self }
    {
        Mark {
            by_query: self.by_query,
            by_syncer: self.by_syncer,
            tried: false,
            at: 0,
        }
    }
}

fn digit(bit: bool) -> u64
    ensures { result ≡ digit bit }
{
    if bit { 1 } else { 0 }
}

// A mark as one word, which a cell holds.
impl Mark {
    pub(crate) fn to_word(self) -> u64
        ensures { result ≡ word_of self }
    {
        self.at * 8 + digit(self.by_query) * 4 + digit(self.by_syncer) * 2 + digit(self.tried)
    }

    // The mark whose word this is.
    pub(crate) fn from_word(word: u64) -> Mark
        ensures { (m : Mark) → word ≡ word_of m → result ≡ m }
    {
        Mark {
            by_query: word / 4 % 2 == 1,
            by_syncer: word / 2 % 2 == 1,
            tried: word % 2 == 1,
            at: word / 8,
        }
    }
}
