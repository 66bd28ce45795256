//! The rule of what views are shown: it is the fold of its list, from the inventory that each named
//! place knows. It keeps of each place which list it is of, since notes of `left_right` cannot
//! carry what a receipt says.
ghost use Rattle.druid_inventory_views.specs.Places.{unnamed, Follows, Names};

use crate::shown::Shown;
use atomic_table::{Join, Split};
use crossbeam_utils::rule::{Outcome, Protocol};
use druid_inventory::Inventory;

/// Of which list a place is, and with which inventory that began, once the place is named. No value of it is made.
pub struct Known {
    pub named: bool,
    pub number: u64,
    pub log_name: u64,
    pub cells_name: u64,
    pub opening: Inventory,
}

/// The rule.
pub struct OneOpening;

impl Protocol<Shown, Known> for OneOpening {
    ghost holds = { Follows };

    ghost first = { unnamed };
}

/// What a look at what is shown tells.
pub struct Looks;

impl Outcome<Shown, Known> for Looks {
    ghost then = { λ v x y w. Names v y w };
}

/// What the publisher's place tells a new one: all that it knows.
pub struct Notes;

impl Split<Known> for Notes {
    ghost left = { λ v. v };

    ghost right = { λ v. v };
}

impl Join<Known> for Notes {
    ghost both = { λ _ w. w };

    ghost spent = { unnamed };
}
