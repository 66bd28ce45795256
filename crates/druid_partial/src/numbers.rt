//! Numbers of groups of one key, joined.
ghost use Rattle.std.specs.Prelude.{◌≡◌, ◌+ℤ◌};
ghost use Rattle.std.specs.Int.{int_wrap, w64};
ghost use Rattle.druid_partial.specs.Joined.{joined, join_numbers};

use druid_query::AggregatorKind;

// The sum, wrapped to 64 bits.
fn sum(mine: i64, theirs: i64) -> i64
    ensures { result ≡ int_wrap w64 (mine +ℤ theirs) }
{
    mine.wrapping_add(theirs)
}

/// What an aggregator tells of the rows after two numbers. Null is of no rows.
pub fn join_number(kind: AggregatorKind, mine: Option<i64>, theirs: Option<i64>) -> Option<i64>
    ensures { result ≡ joined kind mine theirs }
{
    let Some(mine) = mine else {
        return theirs;
    };
    let Some(theirs) = theirs else {
        return Some(mine);
    };
    Some(match kind {
        AggregatorKind::Count | AggregatorKind::LongSum => sum(mine, theirs),
        AggregatorKind::LongMin => mine.min(theirs),
        AggregatorKind::LongMax => mine.max(theirs),
    })
}

/// Joins the numbers of one group to those of another.
#[tactic(auto, using(crate::proofs::JoinLemmas::join_steps))]
pub fn join_numbers(kinds: &[AggregatorKind], mine: &mut [Option<i64>], theirs: &[Option<i64>])
    ensures { mine.new ≡ join_numbers kinds.now mine.old theirs.now }
{
    let len = kinds.len().min(mine.len()).min(theirs.len());
    for place in 0..len {
        mine[place] = join_number(kinds[place], mine[place], theirs[place]);
    }
}
