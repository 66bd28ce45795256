//! What an edit replaces of the runs of a timeline, and by what.
ghost use Rattle.std.specs.Prelude.{◌≡◌, ◌<◌, ◌≤◌, ◌+◌, ◌-◌, ◌*◌, ◌++◌, ◌↔◌, ◌⊎◌, ℕ, [], ◌∷◌, length, map, take, drop, reverse, vec_capacity, IfOk, OnOk, Contains};
ghost use Rattle.druid_time.specs.Extent.{Extent, Has};
ghost use Rattle.druid_segment_id.specs.Group.{Group};
ghost use Rattle.druid_timeline.specs.Candidates.{IsBestOf};
ghost use Rattle.druid_timeline.specs.Pieces.{AreRuns, Shows, cut, shown_at};
ghost use Rattle.druid_timeline.specs.Skyline.{StartInOrder};
ghost use Rattle.druid_timeline.specs.Edited.{AreRunsEdited, IsOverlaid, spliced, turned};
ghost use Rattle.druid_timeline.specs.Stretches.{EndBy};
ghost use Rattle.druid_timeline.specs.Exchanges.{CanExchange, ExchangesBack, exchanged};

use crate::overlay::add_overlaid;
use crate::sweep::{add_best, push_run};
use druid_segment_id::{GroupKey, Meter};
use druid_time::{Instant, Interval};
use std::alloc::{AllocError, Global};

// The runs from one place to another are exchanged for these.
#[derive(Debug, Drop)]
pub(crate) struct Edit {
    pub(crate) from: usize,
    pub(crate) to: usize,
    pub(crate) runs: Vec<(Interval, GroupKey)>,
}

// The first run that ends at the instant or later.
pub(crate) fn first_to(runs: &[(Interval, GroupKey)], instant: Instant) -> usize
    requires { AreRuns (map shown_at runs.now) }
    ensures bound { result ≤ length runs.now }
    ensures before { (run : Extent × Group) → Contains (take result runs.now) run → run.0.end < instant }
    ensures rest { (run : Extent × Group) → Contains (drop result runs.now) run → instant ≤ run.0.end }
{
    runs.partition_point(|run| run.0.end() < instant)
}

// The first run that starts after the instant.
pub(crate) fn first_after(runs: &[(Interval, GroupKey)], instant: Instant) -> usize
    requires { AreRuns (map shown_at runs.now) }
    ensures bound { result ≤ length runs.now }
    ensures before { (run : Extent × Group) → Contains (take result runs.now) run → run.0.start ≤ instant }
    ensures rest { (run : Extent × Group) → Contains (drop result runs.now) run → instant < run.0.start }
{
    runs.partition_point(|run| run.0.start() <= instant)
}

// What the runs from a place on show before an instant, which at most the first of them starts before.
fn front_of(
    alloc: Global,
    runs: &[(Interval, GroupKey)],
    from: usize,
    instant: Instant,
) -> Result<Vec<(Interval, GroupKey)>, AllocError>
    requires runs { AreRuns (map shown_at runs.now) }
    requires rest { (run : Extent × Group) → Contains (drop from runs.now) run → instant ≤ run.0.end }
    ensures runs { IfOk result (λ front. AreRuns (map shown_at front.items)) }
    ensures shows { IfOk result (λ front. (t : ℕ) (g : Group) → Shows (map shown_at front.items) t g
        ↔ (Shows (map shown_at (drop from runs.now)) t g × (t < instant))) }
{
    let mut front = Vec::new(alloc);
    if from < runs.len() {
        let run = &runs[from];
        if let Some(before) = Interval::new(run.0.start(), instant) {
            let key = run.1.clone()?;
            front.push((before, key))?;
        }
    }
    Ok(front)
}

// Adds what the runs before a place show from an instant on, which at most the last of them ends after.
fn add_back(
    middle: &mut Vec<(Interval, GroupKey)>,
    runs: &[(Interval, GroupKey)],
    to: usize,
    instant: Instant,
) -> Result<(), AllocError>
    requires inside { to ≤ length runs.now }
    requires runs { AreRuns (map shown_at runs.now) }
    requires before { (run : Extent × Group) → Contains (take to runs.now) run → run.0.start ≤ instant }
    requires middle { AreRuns (map shown_at middle.old.items) }
    requires ends { EndBy (map shown_at middle.old.items) instant }
    ensures runs { OnOk result (AreRuns (map shown_at middle.new.items)) }
    ensures shows { OnOk result ((t : ℕ) (g : Group) → Shows (map shown_at middle.new.items) t g
        ↔ (Shows (map shown_at middle.old.items) t g ⊎ (Shows (map shown_at (take to runs.now)) t g × (instant ≤ t)))) }
{
    if to == 0 {
        return Ok(());
    }
    let run = &runs[to - 1];
    match Interval::new(instant, run.0.end()) {
        Some(after) => push_run(middle, after, &run.1),
        None => Ok(()),
    }
}

// What the runs become where inside a part the best of these candidates is visible, and outside it what was: the runs
// that overlap the part or touch it are replaced, so that neighbours of one chunk are joined.
pub(crate) fn edit_swept(
    alloc: Global,
    runs: &[(Interval, GroupKey)],
    part: Interval,
    sorted: &[&GroupKey],
    meter: &mut Meter,
) -> Result<Edit, AllocError>
    requires runs { AreRuns (map shown_at runs.now) }
    requires order { StartInOrder (map (λ c. c.now) sorted.now) }
    ensures inside { IfOk result (λ edit. (edit.from ≤ edit.to) × (edit.to ≤ length runs.now)) }
    ensures edited { IfOk result (λ edit. AreRunsEdited part (IsBestOf (map (λ c. c.now) sorted.now)) (map shown_at runs.now)
        (map shown_at (spliced runs.now edit.from edit.to edit.runs.items))) }
    ensures counted { (meter.old ≤ meter.new) × (meter.new ≤ meter.old + 3 * length sorted.now) }
{
    let from = first_to(runs, part.start());
    let to = first_after(runs, part.end());
    let mut middle = front_of(alloc, runs, from, part.start())?;
    add_best(alloc, &mut middle, sorted, part, meter)?;
    add_back(&mut middle, runs, to, part.end())?;
    Ok(Edit {
        from,
        to,
        runs: middle,
    })
}

// The same where inside a chunk's interval the chunk comes over the runs.
pub(crate) fn edit_overlaid(
    alloc: Global,
    runs: &[(Interval, GroupKey)],
    own: &GroupKey,
    meter: &mut Meter,
) -> Result<Edit, AllocError>
    requires { AreRuns (map shown_at runs.now) }
    ensures inside { IfOk result (λ edit. (edit.from ≤ edit.to) × (edit.to ≤ length runs.now)) }
    ensures edited { IfOk result (λ edit. AreRunsEdited own.now.interval (IsOverlaid (map shown_at runs.now) own.now)
        (map shown_at runs.now) (map shown_at (spliced runs.now edit.from edit.to edit.runs.items))) }
    ensures counted { (meter.old ≤ meter.new)
        × (meter.new ≤ meter.old + length (cut (own.now.interval ∷ []) (map shown_at runs.now))) }
{
    let part = own.interval();
    let from = first_to(runs, part.start());
    let to = first_after(runs, part.end());
    let mut middle = front_of(alloc, runs, from, part.start())?;
    add_overlaid(&mut middle, runs, own, meter)?;
    add_back(&mut middle, runs, to, part.end())?;
    Ok(Edit {
        from,
        to,
        runs: middle,
    })
}

// Moves so many items from a place on to the end.
fn turn_slice(runs: &mut [(Interval, GroupKey)], from: usize, count: usize)
    requires { from + count ≤ length runs.old }
    ensures turned { runs.new ≡ turned runs.old from count }
    ensures len { length runs.new ≡ length runs.old }
{
    runs[from..].rotate_left(count);
}

// The same of a vector.
fn turn_tail(runs: &mut Vec<(Interval, GroupKey)>, from: usize, count: usize)
    requires { from + count ≤ length runs.old.items }
    ensures turned { runs.new.items ≡ turned runs.old.items from count }
    ensures capacity { vec_capacity runs.new ≡ vec_capacity runs.old }
{
    turn_slice(runs, from, count);
}

// Exchanges so many runs from a place on for the first of others.
fn swap_slices(
    runs: &mut [(Interval, GroupKey)],
    from: usize,
    others: &mut [(Interval, GroupKey)],
    count: usize,
)
    requires { (from + count ≤ length runs.old) × (count ≤ length others.old) }
    ensures runs { runs.new ≡ spliced runs.old from (from + count) (take count others.old) }
    ensures others { others.new ≡ take count (drop from runs.old) ++ drop count others.old }
    ensures len { length runs.new ≡ length runs.old }
    ensures others_len { length others.new ≡ length others.old }
{
    runs[from..from + count].swap_with_slice(&mut others[..count]);
}

// The same of vectors.
fn swap_runs(
    runs: &mut Vec<(Interval, GroupKey)>,
    from: usize,
    others: &mut Vec<(Interval, GroupKey)>,
    count: usize,
)
    requires { (from + count ≤ length runs.old.items) × (count ≤ length others.old.items) }
    ensures runs { runs.new.items ≡ spliced runs.old.items from (from + count) (take count others.old.items) }
    ensures others { others.new.items ≡ take count (drop from runs.old.items) ++ drop count others.old.items }
    ensures capacity { vec_capacity runs.new ≡ vec_capacity runs.old }
    ensures others_capacity { vec_capacity others.new ≡ vec_capacity others.old }
{
    swap_slices(runs, from, others, count);
}

// Turns round the runs from a place on.
fn reverse_tail(runs: &mut Vec<(Interval, GroupKey)>, from: usize)
    requires { from ≤ length runs.old.items }
    ensures reversed { runs.new.items ≡ take from runs.old.items ++ reverse (drop from runs.old.items) }
    ensures capacity { vec_capacity runs.new ≡ vec_capacity runs.old }
{
    runs[from..].reverse();
}

// Moves the runs from a place on to the end of others, within the room that there is.
fn move_end(
    runs: &mut Vec<(Interval, GroupKey)>,
    from: usize,
    others: &mut Vec<(Interval, GroupKey)>,
)
    requires inside { from ≤ length runs.old.items }
    requires room { length others.old.items + (length runs.old.items - from) ≤ vec_capacity others.old }
    ensures left { runs.new.items ≡ take from runs.old.items }
    ensures moved { others.new.items ≡ others.old.items ++ drop from runs.old.items }
    ensures capacity { vec_capacity runs.new ≡ vec_capacity runs.old }
    ensures others_capacity { vec_capacity others.new ≡ vec_capacity others.old }
{
    let start = others.len();
    while from < runs.len() {
        let Some(run) = runs.pop() else {
            unreachable!()
        };
        others.push_reserved(run);
    }
    reverse_tail(others, start);
}

// Exchanges runs for at least as many: those after them move up once.
fn exchange_for_more(
    runs: &mut Vec<(Interval, GroupKey)>,
    from: usize,
    to: usize,
    middle: &mut Vec<(Interval, GroupKey)>,
)
    requires inside { (from ≤ to) × (to ≤ length runs.old.items) }
    requires more { to - from ≤ length middle.old.items }
    requires room { length runs.old.items + length middle.old.items ≤ vec_capacity runs.old + (to - from) }
    ensures runs { runs.new.items ≡ spliced runs.old.items from to middle.old.items }
    ensures middle { middle.new.items ≡ take (to - from) (drop from runs.old.items) }
    ensures capacity { vec_capacity runs.new ≡ vec_capacity runs.old }
    ensures middle_capacity { vec_capacity middle.new ≡ vec_capacity middle.old }
{
    let gone = to - from;
    let after = runs.len() - to;
    swap_runs(runs, from, middle, gone);
    move_end(middle, gone, runs);
    turn_tail(runs, to, after);
}

// Exchanges runs for at most as many: those after them move down once.
fn exchange_for_fewer(
    runs: &mut Vec<(Interval, GroupKey)>,
    from: usize,
    to: usize,
    middle: &mut Vec<(Interval, GroupKey)>,
)
    requires inside { (from ≤ to) × (to ≤ length runs.old.items) }
    requires fewer { length middle.old.items ≤ to - from }
    requires place { to - from ≤ vec_capacity middle.old }
    ensures runs { runs.new.items ≡ spliced runs.old.items from to middle.old.items }
    ensures middle { middle.new.items ≡ take (to - from) (drop from runs.old.items) }
    ensures capacity { vec_capacity runs.new ≡ vec_capacity runs.old }
    ensures middle_capacity { vec_capacity middle.new ≡ vec_capacity middle.old }
{
    let new = middle.len();
    let less = to - from - new;
    let kept = runs.len() - less;
    swap_runs(runs, from, middle, new);
    turn_tail(runs, from + new, less);
    move_end(runs, kept, middle);
}

// Exchanges runs for others, without allocating.
fn exchange_runs(
    runs: &mut Vec<(Interval, GroupKey)>,
    from: usize,
    to: usize,
    middle: &mut Vec<(Interval, GroupKey)>,
)
    requires inside { (from ≤ to) × (to ≤ length runs.old.items) }
    requires room { length runs.old.items + length middle.old.items ≤ vec_capacity runs.old + (to - from) }
    requires place { to - from ≤ vec_capacity middle.old }
    ensures runs { runs.new.items ≡ spliced runs.old.items from to middle.old.items }
    ensures middle { middle.new.items ≡ take (to - from) (drop from runs.old.items) }
    ensures capacity { vec_capacity runs.new ≡ vec_capacity runs.old }
    ensures middle_capacity { vec_capacity middle.new ≡ vec_capacity middle.old }
{
    if to - from < middle.len() {
        exchange_for_more(runs, from, to, middle);
    } else {
        exchange_for_fewer(runs, from, to, middle);
    }
}

// The same by an edit, and gives the edit that exchanges them back.
pub(crate) fn exchange(runs: &mut Vec<(Interval, GroupKey)>, edit: Edit) -> Edit
    requires { CanExchange runs.old.items (vec_capacity runs.old) edit }
    ensures runs { runs.new.items ≡ exchanged runs.old.items edit }
    ensures back { ExchangesBack runs.old.items runs.new.items (vec_capacity runs.new) result }
    ensures capacity { vec_capacity runs.new ≡ vec_capacity runs.old }
{
    let Edit {
        from,
        to,
        runs: mut middle,
    } = edit;
    let after = runs.len() - to;
    exchange_runs(runs, from, to, &mut middle);
    Edit {
        from,
        to: runs.len() - after,
        runs: middle,
    }
}
