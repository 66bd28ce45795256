//! Merges of partials of the same aggregators. That both are of one query is what keeps the merge
//! one of that query; its values are right in any case.
ghost use Rattle.std.specs.Prelude.{◌≡◌, ◌+◌, ◌<◌, ◌≤◌, [], ◌∷◌, None, IfOk, IfErr, IfSome, IfNone, vec_len, vec_capacity, reverse};
ghost use Rattle.druid_query.specs.Query.{Query};
ghost use Rattle.druid_partial.specs.Groups.{IsMerge};
ghost use Rattle.druid_partial.specs.Joined.{merged, turn, Takes};
ghost use Rattle.druid_partial.specs.Partials.{IsPartialFor};

use crate::{Group, Partial};
use druid_query::AggregatorKind;
use std::alloc::Global;
use std::cmp::Ordering;

/// Two partials that were not merged, since memory ran out: as they were.
#[derive(Debug, Drop)]
pub struct MergeRefused {
    /// The first.
    pub left: Partial,
    /// The second.
    pub right: Partial,
}

// Which of two lists has the next group; the last groups come first.
fn turn(left: &[Group], right: &[Group]) -> Ordering
    ensures { result ≡ turn (reverse left.now) (reverse right.now) }
{
    match (left.last(), right.last()) {
        (Some(mine), Some(theirs)) => mine.cmp_key(theirs),
        (Some(_), None) => Ordering::Less,
        (None, _) => Ordering::Greater,
    }
}

// Takes the next group of two lists whose last groups come first; two of one key as one. None at the end.
fn take_next(
    kinds: &[AggregatorKind],
    left: &mut Vec<Group>,
    right: &mut Vec<Group>,
) -> Option<Group>
    ensures { Takes kinds.now (reverse left.old.items) (reverse right.old.items) result
        (reverse left.new.items) (reverse right.new.items) }
{
    match turn(left, right) {
        Ordering::Less => left.pop(),
        Ordering::Greater => right.pop(),
        Ordering::Equal => {
            let mut group = left.pop()?;
            group.join(kinds, &right.pop()?);
            Some(group)
        }
    }
}

/// The merge of two partials of one query: the keys of both, each with what the aggregators tell of
/// the rows of both. It moves the groups, and allocates for their list alone, before it begins.
///
/// # Errors
///
/// `MergeRefused`, out of memory, gives both back as they were.
pub fn merge(alloc: Global, left: Partial, right: Partial) -> Result<Partial, MergeRefused>
    requires { left.kinds ≡ right.kinds }
    ensures groups { IfOk result (λ both. IsMerge left.kinds left.groups right.groups both.groups) }
    ensures kinds { IfOk result (λ both. both.kinds ≡ left.kinds) }
    ensures of_query { (query : Query) → IsPartialFor query left → IsPartialFor query right
        → IfOk result (IsPartialFor query) }
    ensures back { IfErr result (λ back. (back.left ≡ left) × (back.right ≡ right)) }
{
    let room = left.groups().len() + right.groups().len();
    let Ok(mut groups) = Vec::with_capacity(alloc, room) else {
        return Err(MergeRefused { left, right });
    };
    let (kinds, mut mine) = left.into_parts();
    let (_, mut theirs) = right.into_parts();
    mine.reverse();
    theirs.reverse();
    while let Some(group) = take_next(&kinds, &mut mine, &mut theirs) {
        let Ok(()) = groups.push(group) else {
            unreachable!();
        };
    }
    Ok(Partial::new(kinds, groups))
}
