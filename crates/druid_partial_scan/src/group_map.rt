//! Groups that were found so far, by their keys.
ghost use Rattle.std.specs.Prelude.{◌≡◌, ◌∷◌, [], OnOk, IfOk};
ghost use Rattle.druid_partial.specs.Joined.{merged};
ghost use Rattle.druid_partial_scan.specs.Entries.{groups_of};

use crate::key::KeyRef;
use druid_partial::join_numbers;
use druid_query::AggregatorKind;
use std::alloc::AllocError;
use std::collections::BTreeMap;

// The numbers of each key.
pub(crate) type GroupMap<'a> = BTreeMap<KeyRef<'a>, Vec<Option<i64>>>;

// Joins what a row tells to the group of its key.
pub(crate) fn add<'a>(
    kinds: &[AggregatorKind],
    found: &mut GroupMap<'a>,
    key: KeyRef<'a>,
    mut numbers: Vec<Option<i64>>,
) -> Result<(), AllocError>
    ensures { OnOk result (groups_of found.new.entries
        ≡ merged kinds.now (record { key = key.entry; numbers = numbers.items } ∷ []) (groups_of found.old.entries)) }
{
    // For the proof: reading it exposes the invariant of its type.
    let _ = found.len();
    if let Some(held) = found.get_mut(&key) {
        join_numbers(kinds, &mut numbers, held);
        *held = numbers;
        return Ok(());
    }
    found.insert(key, numbers)?;
    Ok(())
}
