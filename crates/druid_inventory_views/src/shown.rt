//! What views are shown.
ghost use Rattle.std.specs.Prelude.{◌≡◌, length, IfOk};
ghost use Rattle.std.specs.Arc.{arc_value};

use crate::book::{Counted, Pair};
use druid_inventory::Inventory;
use left_right::Absorb;
use logbook::Seen;
use std::alloc::{AllocError, Global};
use std::sync::Arc;

/// An inventory, with the list that it is made of.
#[derive(Drop)]
pub struct Shown {
    pub(crate) inventory: Arc<Inventory, Global>,
    pub(crate) count: u64,
    pub(crate) seen: Seen<Pair, u64, Counted>,
    ghost counted: { count ≡ length seen.log },
}

impl Shown {
    // The same, once more.
    pub(crate) fn again(&self) -> Result<Shown, AllocError>
        ensures inventory { IfOk result (λ shown. arc_value shown.inventory ≡ arc_value self.now.inventory) }
        ensures seen { IfOk result (λ shown. shown.seen ≡ self.now.seen) }
    {
        Ok(Shown {
            inventory: Arc::try_clone(&self.inventory)?,
            count: self.count,
            seen: self.seen.again(),
        })
    }
}

// The last operation counts, whatever is pending before it.
impl Absorb<Shown> for Shown {
    type State = (Inventory, Seen<Pair, u64, Counted>);

    ghost state = { λ s. (arc_value s.inventory, s.seen) };

    ghost applied = { λ _ s. (arc_value s.inventory, s.seen) };

    fn absorb_first(&mut self, operation: &Shown, _other: &Shown) -> Result<(), AllocError> {
        *self = operation.again()?;
        Ok(())
    }

    fn absorb_second(&mut self, operation: Shown, _other: &Shown) -> Result<(), Shown> {
        *self = operation;
        Ok(())
    }
}
