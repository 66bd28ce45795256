//! Drawn edits of a timeline, beside a plain computation over all that is held: at each instant the complete chunk of the
//! greatest version, start and end is visible. Chunks start and end at ticks, which lie a millisecond or hours apart. A
//! chunk is written as a number of the digits VSSEE, version, first tick and end, so that the greater number is the one
//! that is shown.
ghost use Rattle.std.specs.Prelude.{◌<◌};

use crate::drawn::Draws;
use crate::rows::name;
use druid_segment_descriptor::{Descriptor, NodeNo};
use druid_segment_id::{GroupKey, Meter, SegmentId, Version};
use druid_time::{Instant, Interval, IntervalSet};
use druid_timeline::{Holding, Timeline, TimelineFault};
use std::alloc::Global;
use std::process::Abort;

// Of each of the tables that are drawn.
const EDITS: u64 = 2_500;

const TABLES: u64 = 4;

const TICKS: u64 = 24;

// In the order of their bytes, so that the later one is the one that is shown.
const VERSIONS: &[&str] = &["v1", "v10", "v2", "v9"];

// No more is held, so that the plain computation stays quick: in each of the tables, and in one more, of many chunks.
const FEW_HELD: u64 = 40;

const MANY_HELD: u64 = 400;

// A partition of a chunk that a node serves, and how many core partitions it names; or a tombstone.
#[derive(Clone, Copy, PartialEq, Eq, Drop)]
pub(crate) struct Served {
    chunk: u64,
    partition: u16,
    core: u16,
    node: NodeNo,
    is_tombstone: bool,
}

impl Served {
    pub(crate) fn chunk(&self) -> u64 {
        self.chunk
    }

    pub(crate) fn partition(&self) -> u16 {
        self.partition
    }
}

fn start_of(chunk: u64) -> u64 {
    chunk / 100 % 100
}

fn end_of(chunk: u64) -> u64 {
    chunk % 100
}

fn has(chunk: u64, tick: u64) -> bool {
    start_of(chunk) <= tick && tick < end_of(chunk)
}

// Instants that rise, and versions, by their number.
#[derive(Drop)]
pub(crate) struct Table {
    ticks: Vec<Instant>,
    versions: Vec<Version>,
}

impl Table {
    pub(crate) fn new(rt: &impl Abort, alloc: Global, draws: &mut Draws) -> Table {
        let mut ms = 0_i64;
        let mut ticks = Vec::new(alloc);
        for _tick in 0..=TICKS {
            ticks
                .push(Instant::new(ms).expect(rt, "an instant"))
                .expect(rt, "memory");
            let gap = if draws.below(3) == 0 {
                0
            } else {
                draws.below(7_200_000) as i64
            };
            ms = ms.wrapping_add(gap).wrapping_add(1);
        }
        let mut versions = Vec::new(alloc);
        for text in VERSIONS {
            let version = Version::new(alloc, text).expect(rt, "a version");
            versions.push(version).expect(rt, "memory");
        }
        Table { ticks, versions }
    }

    fn interval(&self, rt: &impl Abort, start: u64, end: u64) -> Interval {
        let start = self.ticks.get(start as usize).expect(rt, "a tick");
        let end = self.ticks.get(end as usize).expect(rt, "a tick");
        Interval::new(*start, *end).expect(rt, "an interval")
    }

    fn tick_of(&self, instant: Instant) -> u64 {
        let ticks = self.ticks.iter();
        ticks.take_while(|it| **it < instant).count() as u64
    }

    // The number of a chunk.
    fn number_of(&self, key: &GroupKey) -> u64 {
        let versions = self.versions.iter();
        let version = versions.take_while(|it| *it != key.version()).count() as u64;
        let interval = key.interval();
        let start = self.tick_of(interval.start()).wrapping_mul(100);
        version
            .wrapping_mul(10_000)
            .wrapping_add(start)
            .wrapping_add(self.tick_of(interval.end()))
    }

    fn stretch_of(&self, interval: Interval, key: &GroupKey) -> u64 {
        let start = self.tick_of(interval.start());
        let end = self.tick_of(interval.end());
        stretch(start, end, self.number_of(key))
    }

    fn id(
        &self,
        rt: &impl Abort,
        alloc: Global,
        source: &str,
        chunk: u64,
        partition: u16,
    ) -> SegmentId {
        let interval = self.interval(rt, start_of(chunk), end_of(chunk));
        let version = self
            .versions
            .get((chunk / 10_000) as usize)
            .expect(rt, "a version");
        let version = version.clone().expect(rt, "memory");
        SegmentId::new(name(rt, alloc, source), interval, version, partition)
    }

    pub(crate) fn descriptor(
        &self,
        rt: &impl Abort,
        alloc: Global,
        source: &str,
        served: Served,
    ) -> Descriptor {
        let id = self.id(rt, alloc, source, served.chunk, served.partition);
        if served.is_tombstone {
            Descriptor::tombstone(id).expect(rt, "a tombstone")
        } else {
            Descriptor::new(id, served.core, 1).expect(rt, "a descriptor")
        }
    }
}

// A stretch of ticks in which a chunk is visible, as one number.
fn stretch(start: u64, end: u64, chunk: u64) -> u64 {
    start
        .wrapping_mul(100)
        .wrapping_add(end)
        .wrapping_mul(1_000_000)
        .wrapping_add(chunk)
}

// Whether a chunk has each of its core partitions.
fn is_complete(held: &[Served], chunk: u64) -> bool {
    let core = held
        .iter()
        .filter(|it| it.chunk == chunk)
        .map(|it| it.core)
        .max()
        .unwrap_or(0);
    for partition in 0..core {
        if !held
            .iter()
            .any(|it| it.chunk == chunk && it.partition == partition)
        {
            return false;
        }
    }
    true
}

// The complete chunks, each once.
fn complete_chunks(rt: &impl Abort, alloc: Global, held: &[Served]) -> Vec<u64> {
    let mut chunks: Vec<u64> = Vec::new(alloc);
    for served in held {
        if !chunks.contains(&served.chunk) && is_complete(held, served.chunk) {
            chunks.push(served.chunk).expect(rt, "memory");
        }
    }
    chunks
}

// The chunk that is visible at each tick.
fn visible(rt: &impl Abort, alloc: Global, chunks: &[u64]) -> Vec<Option<u64>> {
    let mut visible = Vec::new(alloc);
    for tick in 0..TICKS {
        let best = chunks.iter().copied().filter(|it| has(*it, tick)).max();
        visible.push(best).expect(rt, "memory");
    }
    visible
}

// The stretches in which one chunk is visible, within some ticks.
fn stretches(
    rt: &impl Abort,
    alloc: Global,
    visible: &[Option<u64>],
    first: u64,
    end: u64,
) -> Vec<u64> {
    let mut found: Vec<u64> = Vec::new(alloc);
    let mut open: Option<(u64, u64)> = None;
    for tick in first..=end {
        let here = if tick < end {
            visible.get(tick as usize).copied().flatten()
        } else {
            None
        };
        if let Some((start, chunk)) = open {
            if here == Some(chunk) {
                continue;
            }
            found.push(stretch(start, tick, chunk)).expect(rt, "memory");
        }
        open = here.map(|chunk| (tick, chunk));
    }
    found
}

// The number that puts chunks in the order of their places: start, end, version.
fn place(chunk: u64) -> u64 {
    (chunk % 10_000)
        .wrapping_mul(10)
        .wrapping_add(chunk / 10_000)
}

// The complete chunks that are never visible, in the order of their places.
fn hidden(rt: &impl Abort, alloc: Global, chunks: &[u64], visible: &[Option<u64>]) -> Vec<u64> {
    let mut hidden = Vec::new(alloc);
    for chunk in chunks {
        if !visible.contains(&Some(*chunk)) {
            hidden.push(*chunk).expect(rt, "memory");
        }
    }
    hidden.sort_unstable_by_key(|chunk| place(*chunk));
    hidden
}

// The partitions of a chunk that are held, rising, each once.
fn partitions(rt: &impl Abort, alloc: Global, held: &[Served], chunk: u64) -> Vec<u16> {
    let mut found: Vec<u16> = Vec::new(alloc);
    for served in held {
        if served.chunk == chunk && !found.contains(&served.partition) {
            found.push(served.partition).expect(rt, "memory");
        }
    }
    found.sort_unstable();
    found
}

// The nodes that hold a segment, rising; those that have its rows alone, or all.
fn nodes(
    rt: &impl Abort,
    alloc: Global,
    held: &[Served],
    chunk: u64,
    partition: u16,
    with_rows: bool,
) -> Vec<NodeNo> {
    let mut found = Vec::new(alloc);
    for served in held {
        let is_one = served.chunk == chunk && served.partition == partition;
        if is_one && !(with_rows && served.is_tombstone) {
            found.push(served.node).expect(rt, "memory");
        }
    }
    found.sort_unstable();
    found
}

// A segment in a visible range, the nodes that hold it, and those that serve its rows.
#[derive(PartialEq, Drop)]
struct Shown {
    range: u64,
    partition: u16,
    replicas: Vec<NodeNo>,
    served: Vec<NodeNo>,
}

// What is shown within some ticks, by what is held: of each visible range all partitions of its chunk, rising.
fn wanted(
    rt: &impl Abort,
    alloc: Global,
    held: &[Served],
    visible: &[Option<u64>],
    window: (u64, u64),
) -> Vec<Shown> {
    let mut shown = Vec::new(alloc);
    for range in &stretches(rt, alloc, visible, window.0, window.1) {
        let chunk = range % 1_000_000;
        for partition in &partitions(rt, alloc, held, chunk) {
            let segment = Shown {
                range: *range,
                partition: *partition,
                replicas: nodes(rt, alloc, held, chunk, *partition, false),
                served: nodes(rt, alloc, held, chunk, *partition, true),
            };
            shown.push(segment).expect(rt, "memory");
        }
    }
    shown
}

// The same as the timeline says it.
fn reported(
    rt: &impl Abort,
    alloc: Global,
    timeline: &Timeline,
    table: &Table,
    window: (u64, u64),
) -> Vec<Shown> {
    let part = table.interval(rt, window.0, window.1);
    let set = IntervalSet::of(alloc, &[part]).expect(rt, "memory");
    let mut shown = Vec::new(alloc);
    for piece in &timeline.lookup(&set).expect(rt, "memory") {
        let chunk = table.number_of(piece.key());
        for partition in piece.parts() {
            let id = table.id(rt, alloc, "wiki", chunk, *partition);
            let segment = Shown {
                range: table.stretch_of(piece.interval(), piece.key()),
                partition: *partition,
                replicas: timeline.replicas(&id).expect(rt, "memory"),
                served: timeline.served(&id).expect(rt, "memory"),
            };
            shown.push(segment).expect(rt, "memory");
        }
    }
    shown
}

// Asserts that the timeline says of what is held what the plain computation says, and what is shown within some ticks.
fn assert_same(
    rt: &impl Abort,
    alloc: Global,
    timeline: &Timeline,
    held: &[Served],
    table: &Table,
    window: (u64, u64),
) {
    let chunks = complete_chunks(rt, alloc, held);
    let visible = visible(rt, alloc, &chunks);
    let mut runs = Vec::new(alloc);
    for (interval, key) in timeline.runs() {
        runs.push(table.stretch_of(*interval, key))
            .expect(rt, "memory");
    }
    assert!(rt; runs == stretches(rt, alloc, &visible, 0, TICKS));
    for (tick, best) in table.ticks.iter().zip(&visible) {
        let key = timeline.at(*tick).map(|key| table.number_of(key));
        assert!(rt; key == *best);
    }
    for window in [window, (0, TICKS)] {
        let wanted = wanted(rt, alloc, held, &visible, window);
        assert!(rt; reported(rt, alloc, timeline, table, window) == wanted);
    }
    let mut meter = Meter::new();
    let mut found = Vec::new(alloc);
    for key in &timeline.overshadowed(&mut meter).expect(rt, "memory") {
        found.push(table.number_of(key)).expect(rt, "memory");
    }
    assert!(rt; found == hidden(rt, alloc, &chunks, &visible));
}

// Asserts who holds the segment of a place, and who has its rows.
fn assert_nodes(
    rt: &impl Abort,
    alloc: Global,
    timeline: &Timeline,
    held: &[Served],
    table: &Table,
    place: &Served,
) {
    let id = table.id(rt, alloc, "wiki", place.chunk, place.partition);
    let replicas = timeline.replicas(&id).expect(rt, "memory");
    let (chunk, partition) = (place.chunk, place.partition);
    assert!(rt; replicas == nodes(rt, alloc, held, chunk, partition, false));
    let served = timeline.served(&id).expect(rt, "memory");
    assert!(rt; served == nodes(rt, alloc, held, chunk, partition, true));
}

// Ticks from one to a later one.
fn draw_ticks(draws: &mut Draws) -> (u64, u64) {
    let start = draws.below(23);
    let length = if draws.below(3) == 0 {
        draws.below(24)
    } else {
        draws.below(3)
    };
    (start, start.wrapping_add(length).wrapping_add(1).min(24))
}

pub(crate) fn draw_served(draws: &mut Draws) -> Served {
    let (start, end) = draw_ticks(draws);
    let version = draws.below(4);
    let chunk = version
        .wrapping_mul(10_000)
        .wrapping_add(start.wrapping_mul(100))
        .wrapping_add(end);
    let is_tombstone = draws.below(8) == 0;
    let node = draws.below(3) as NodeNo;
    if is_tombstone {
        return Served {
            chunk,
            partition: 0,
            core: 1,
            node,
            is_tombstone,
        };
    }
    Served {
        chunk,
        partition: draws.below(3) as u16,
        core: draws.below(3) as u16,
        node,
        is_tombstone,
    }
}

fn is_one_place(one: &Served, other: &Served) -> bool {
    one.chunk == other.chunk && one.partition == other.partition && one.node == other.node
}

// What is served next: something new, another partition of a chunk that is held, or another replica.
fn draw_near(draws: &mut Draws, held: &[Served]) -> Served {
    let drawn = draw_served(draws);
    let place = draws.below(64) as usize;
    match held.get(place) {
        Some(near) if draws.below(4) == 0 => Served {
            node: drawn.node,
            ..*near
        },
        Some(near) => Served {
            chunk: near.chunk,
            ..drawn
        },
        None => drawn,
    }
}

// The source of the timeline, or in one of 16 edits another.
fn draw_source(draws: &mut Draws) -> &'static str {
    if draws.below(16) == 0 {
        "other"
    } else {
        "wiki"
    }
}

// Adds a drawn segment; L2 of another source, and L1 where the node serves it.
fn add(
    rt: &impl Abort,
    alloc: Global,
    draws: &mut Draws,
    timeline: &mut Timeline,
    held: &mut Vec<Served>,
    table: &Table,
) {
    let served = draw_near(draws, held);
    let source = draw_source(draws);
    let is_there = held.iter().any(|it| is_one_place(it, &served));
    let descriptor = table.descriptor(rt, alloc, source, served);
    let mut meter = Meter::new();
    let added = timeline.add(&descriptor, served.node, &mut meter);
    if source != "wiki" {
        assert!(rt; added == Err(TimelineFault::OtherSource));
    } else if is_there {
        assert!(rt; added == Err(TimelineFault::AlreadyThere));
    } else {
        assert!(rt; added == Ok(()));
        held.push(served).expect(rt, "memory");
    }
    assert_nodes(rt, alloc, timeline, held, table, &served);
}

// Removes a drawn segment, most often one that is held; L3 of another source, and where the node does not serve it.
fn remove(
    rt: &impl Abort,
    alloc: Global,
    draws: &mut Draws,
    timeline: &mut Timeline,
    held: &mut Vec<Served>,
    table: &Table,
    most: u64,
)
    requires { 0 < most }
{
    let drawn = draw_served(draws);
    let source = draw_source(draws);
    let place = draws.below(most) as usize;
    let served = held.get(place).copied().unwrap_or(drawn);
    let is_there = source == "wiki" && held.iter().any(|it| is_one_place(it, &served));
    let descriptor = table.descriptor(rt, alloc, source, served);
    let mut meter = Meter::new();
    let removed = timeline.remove(descriptor.id(), served.node, &mut meter);
    if is_there {
        assert!(rt; removed == Ok(()));
        held.retain(|it| !is_one_place(it, &served));
    } else {
        assert!(rt; removed == Err(TimelineFault::NotThere));
    }
    assert_nodes(rt, alloc, timeline, held, table, &served);
}

// The timeline of what a timeline holds, by one sweep.
fn swept(rt: &impl Abort, timeline: &Timeline) -> Timeline {
    let holding = Holding::of(timeline).expect(rt, "memory");
    holding
        .into_timeline(&mut Meter::new())
        .expect(rt, "memory")
}

// Makes drawn edits, with no more than so much held, and compares after each; and some of what sweeps gave, once four edits were made
// while it shared the chunks.
fn edit(rt: &impl Abort, alloc: Global, seed: u64, most: u64)
    requires { 0 < most }
{
    let mut draws = Draws::new(seed);
    let table = Table::new(rt, alloc, &mut draws);
    let mut timeline = Timeline::new(alloc, name(rt, alloc, "wiki"));
    let mut held = Vec::new(alloc);
    let (mut copy, mut copied) = (swept(rt, &timeline), Vec::new(alloc));
    for number in 0..EDITS {
        if (held.len() as u64) < most && draws.below(2) == 0 {
            add(rt, alloc, &mut draws, &mut timeline, &mut held, &table);
        } else {
            remove(
                rt,
                alloc,
                &mut draws,
                &mut timeline,
                &mut held,
                &table,
                most,
            );
        }
        let window = draw_ticks(&mut draws);
        assert_same(rt, alloc, &timeline, &held, &table, window);
        if number % 8 == 0 {
            copy = swept(rt, &timeline);
            copied = held.clone().expect(rt, "memory");
        } else if number % 8 == 4 {
            assert_same(rt, alloc, &copy, &copied, &table, window);
            copy = Timeline::new(alloc, name(rt, alloc, "wiki"));
        }
    }
}

#[test]
fn drawn_edits(rt: HostRuntime) {
    for seed in 0..TABLES {
        edit(&rt, rt.alloc(), seed, FEW_HELD);
    }
    edit(&rt, rt.alloc(), TABLES, MANY_HELD);
}
