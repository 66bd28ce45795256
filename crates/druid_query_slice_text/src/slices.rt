//! Pieces of segments that a node is asked for, and their JSON. A node may be asked for as many as
//! 16 MiB hold, so those that overlap are found by sorting, which takes memory.
ghost use Rattle.std.specs.Prelude.{◌≡◌, ◌↔◌, List, length, Some, IfOk, IfErr, IfSome, IsSome, IsTrue, is_some, option_map, refl};
ghost use Rattle.std.specs.List.{list_all, AllAdjacentBelow};
ghost use Rattle.serde_json.specs.View.{view, items_view};
ghost use Rattle.druid_segment_id.specs.Names.{IsVersion};
ghost use Rattle.druid_base.specs.Each.{each_of};
ghost use Rattle.druid_query.specs.Asked.{Asked, stand_apart, version_of, spelled_at, named_by, asked_at, inside_at, lies_inside, do_overlap, asked_data, segments_in, asked_items};
ghost use Rattle.druid_query.specs.Fields.{each_among};
ghost use Rattle.druid_query.specs.AskedOrder as order;
ghost use Rattle.druid_query.specs.AskedOrder.{asked_cmp, same_asked, AreApart};
ghost use Rattle.druid_query.specs.SubQuery.{pieces_data};

use druid_base::{limited_field, list_field, text_field};
use druid_query::SegmentSlice;
use druid_segment_id::{Name, SegmentId, Version};
use druid_time::Interval;
use serde_json::{Value, json};
use std::alloc::{AllocError, Global};
use std::cmp::Ordering;
use std::marker::Model;

// A piece as it is spelled: both intervals are texts.
#[derive(Drop)]
struct Spelled<'a> {
    chunk: &'a str,
    piece: &'a str,
    partition: u16,
    version: &'a str,
}

impl<'a> Model for Spelled<'a> {
    ghost use Rattle.druid_segment_id.specs.Names.{IsVersion};
    ghost use Rattle.druid_query.specs.Asked.{Spelled};

    ghost Value = { Spelled };

    ghost view = { λ a. record { chunk = a.chunk.now; piece = a.piece.now; partition = a.partition; version = a.version.now } };

    ghost invariant = { λ a. IsVersion a.version.now };
}

// A piece, with borrowed texts. Pieces are in the order of the parts of their segments, and then of their own starts and ends.
#[derive(Drop)]
struct AskedRef<'a> {
    source: &'a str,
    chunk: Interval,
    version: &'a str,
    partition: u16,
    piece: Interval,
}

impl<'a> Model for AskedRef<'a> {
    ghost use Rattle.druid_segment_id.specs.Names.{IsVersion};
    ghost use Rattle.druid_query.specs.Asked.{Asked};

    ghost Value = { Asked };

    ghost view = { λ a. (record { source = a.source.now; interval = a.chunk; version = a.version.now; partition = a.partition }, a.piece) };

    ghost invariant = { λ a. IsVersion a.version.now };
}

impl<'a> PartialEq for AskedRef<'a> {
    ghost eq = { same_asked };

    ghost laws = { order.same_asked-per };

    fn eq(&self, other: &AskedRef<'a>) -> bool
        ensures { result ≡ same_asked self.now other.now }
    {
        self.source == other.source
            && self.chunk.start() == other.chunk.start()
            && self.chunk.end() == other.chunk.end()
            && self.version == other.version
            && self.partition == other.partition
            && self.piece.start() == other.piece.start()
            && self.piece.end() == other.piece.end()
    }
}

impl<'a> Eq for AskedRef<'a> {
    ghost laws = { order.same_asked-equiv };
}

impl<'a> PartialOrd for AskedRef<'a> {
    ghost partial_cmp = { λ a b. Some (asked_cmp a b) };

    ghost laws = { order.asked_cmp-po };

    fn partial_cmp(&self, other: &AskedRef<'a>) -> Option<Ordering> {
        Some(self.cmp(other))
    }
}

impl<'a> Ord for AskedRef<'a> {
    ghost cmp = { asked_cmp };

    ghost total = { order.asked_cmp-total };

    ghost matches_partial_cmp = { λ a b. refl };

    ghost matches_eq = { order.asked_cmp-ties };

    fn cmp(&self, other: &AskedRef<'a>) -> Ordering {
        self.source
            .cmp(other.source)
            .then(self.chunk.start().cmp(&other.chunk.start()))
            .then(self.chunk.end().cmp(&other.chunk.end()))
            .then(self.version.cmp(other.version))
            .then(self.partition.cmp(&other.partition))
            .then(self.piece.start().cmp(&other.piece.start()))
            .then(self.piece.end().cmp(&other.piece.end()))
    }
}

impl<'a> AskedRef<'a> {
    // Whether it lies inside its segment.
    fn lies_inside(&self) -> bool
        ensures { result ≡ lies_inside self.now }
    {
        self.chunk.start() <= self.piece.start() && self.piece.end() <= self.chunk.end()
    }

    // Whether both are of one segment and have an instant in common.
    fn overlaps(&self, other: &AskedRef<'a>) -> bool
        ensures { result ≡ do_overlap self.now other.now }
    {
        self.partition == other.partition
            && self.chunk == other.chunk
            && self.version == other.version
            && self.source == other.source
            && self.piece.overlaps(&other.piece)
    }

    // A copy, whose source is that name.
    fn to_owned_in(&self, alloc: Global, source: &Name) -> Result<SegmentSlice, AllocError>
        requires { source.now ≡ self.now.0.source }
        ensures { IfOk result (λ copy. copy ≡ self.now) }
    {
        // A text that is a version makes one, unless memory runs out.
        let Ok(version) = Version::new(alloc, self.version) else {
            return Err(AllocError);
        };
        let segment = SegmentId::new(source.clone()?, self.chunk, version, self.partition);
        Ok(SegmentSlice::new(segment, self.piece))
    }
}

fn version_of(value: &Value) -> Option<&str>
    ensures text { option_map (λ s. s.now) result ≡ version_of (view value.now) }
    ensures valid { IfSome result (λ s. IsVersion s.now) }
{
    let text = text_field(value, "ver")?;
    if Version::accepts(text) {
        Some(text)
    } else {
        None
    }
}

#[tactic(auto, unfolding(druid_query::specs::Asked::spelled_at))]
fn spelled_of(value: &Value) -> Option<Spelled<'_>>
    ensures { result ≡ spelled_at (view value.now) }
{
    let chunk = text_field(value, "chunk")?;
    let piece = text_field(value, "itvl")?;
    let partition = limited_field(value, "part", u16::MAX)?;
    let version = version_of(value)?;
    Some(Spelled {
        chunk,
        piece,
        partition,
        version,
    })
}

#[tactic(auto, unfolding(druid_query::specs::Asked::named_by))]
fn named_by<'a>(source: &'a str, spelled: &Spelled<'a>) -> Option<AskedRef<'a>>
    ensures { result ≡ named_by source.now spelled.now }
{
    let chunk = Interval::parse(spelled.chunk).ok()?;
    let piece = Interval::parse(spelled.piece).ok()?;
    Some(AskedRef {
        source,
        chunk,
        version: spelled.version,
        partition: spelled.partition,
        piece,
    })
}

// The piece that a value asks for, of a segment of that source.
#[tactic(auto, unfolding(druid_query::specs::Asked::asked_at))]
fn asked_of<'a>(source: &'a str, value: &'a Value) -> Option<AskedRef<'a>>
    ensures { result ≡ asked_at source.now (view value.now) }
{
    named_by(source, &spelled_of(value)?)
}

// The same, where it lies inside its segment.
#[tactic(auto, unfolding(druid_query::specs::Asked::inside_at))]
fn inside_of<'a>(source: &'a str, value: &'a Value) -> Option<AskedRef<'a>>
    ensures { result ≡ inside_at source.now (view value.now) }
{
    let asked = asked_of(source, value)?;
    if asked.lies_inside() {
        Some(asked)
    } else {
        None
    }
}

/// Whether each value is a piece of a segment of that source, and lies inside it. Does not allocate.
pub fn are_inside(source: &str, values: &[Value]) -> bool
    ensures { result ≡ list_all (λ value. is_some (inside_at source.now (view value))) values.now }
{
    values
        .iter()
        .all(|value| inside_of(source, value).is_some())
}

// Whether no piece overlaps the next.
fn stand_apart(pieces: &[AskedRef<'_>]) -> bool
    ensures { IsTrue result ↔ AllAdjacentBelow AreApart pieces.now (length pieces.now) }
{
    for place in 1..pieces.len() {
        if pieces[place - 1].overlaps(&pieces[place]) {
            return false;
        }
    }
    true
}

fn pieces_of<'a>(
    alloc: Global,
    source: &'a str,
    values: &'a [Value],
) -> Result<Vec<AskedRef<'a>>, AllocError>
    requires { IsSome (each_of (inside_at source.now) (items_view values.now)) }
    ensures { IfOk result (λ all. each_of (inside_at source.now) (items_view values.now) ≡ Some all.items) }
{
    let mut all = Vec::with_capacity(alloc, values.len())?;
    for value in values {
        let Some(piece) = inside_of(source, value) else {
            unreachable!()
        };
        all.push(piece)?;
    }
    Ok(all)
}

/// Whether no two pieces of one segment overlap. They are put in order, where those that overlap stand side by side.
///
/// # Errors
///
/// Out of memory.
pub fn are_apart(alloc: Global, source: &str, values: &[Value]) -> Result<bool, AllocError>
    requires { IsSome (each_of (inside_at source.now) (items_view values.now)) }
    ensures { IfOk result (λ apart. (all : List Asked) → each_of (inside_at source.now) (items_view values.now) ≡ Some all
        → apart ≡ stand_apart all) }
{
    let mut pieces = pieces_of(alloc, source, values)?;
    pieces.sort_unstable();
    Ok(stand_apart(&pieces))
}

/// The pieces, where each lies inside its segment.
///
/// # Errors
///
/// Out of memory.
#[tactic(auto, using(crate::proofs::PieceLemmas::inside_source))]
pub fn asked_list(
    alloc: Global,
    source: &Name,
    values: &[Value],
) -> Result<Vec<SegmentSlice>, AllocError>
    requires { IsSome (each_of (inside_at source.now) (items_view values.now)) }
    ensures { IfOk result (λ all. each_of (inside_at source.now) (items_view values.now) ≡ Some all.items) }
{
    let mut all = Vec::with_capacity(alloc, values.len())?;
    for value in values {
        let Some(piece) = inside_of(source.as_str(), value) else {
            unreachable!()
        };
        all.push(piece.to_owned_in(alloc, source)?)?;
    }
    Ok(all)
}

fn are_spelled(values: &[Value]) -> bool
    ensures { result ≡ list_all (λ value. is_some (spelled_at (view value))) values.now }
{
    values.iter().all(|value| spelled_of(value).is_some())
}

// The values, where there are some and each has the shape of a piece.
#[tactic(auto, using(crate::proofs::AmongLemmas::pieces_there, crate::proofs::AmongLemmas::no_pieces, crate::proofs::AmongLemmas::not_pieces))]
fn spelled_among(values: &[Value]) -> Option<&[Value]>
    ensures { option_map (λ vs. items_view vs.now) result ≡ each_among spelled_at (items_view values.now) }
{
    if values.is_empty() {
        return None;
    }
    if !are_spelled(values) {
        return None;
    }
    Some(values)
}

fn segments_in(value: &Value) -> Option<&[Value]>
    ensures { option_map (λ vs. items_view vs.now) result ≡ segments_in (view value.now) }
{
    if text_field(value, "type")? == "segments" {
        list_field(value, "segments")
    } else {
        None
    }
}

/// The list of an object of the type `segments`.
///
/// # Errors
///
/// None where the value is none, the list has no member, or one has another shape than a piece.
#[tactic(auto, unfolding(druid_query::specs::Asked::asked_items))]
pub fn asked_items(value: &Value) -> Option<&[Value]>
    ensures { option_map (λ vs. items_view vs.now) result ≡ asked_items (view value.now) }
{
    spelled_among(segments_in(value)?)
}

/// The JSON of a piece: `chunk`, the interval of the segment; `itvl`, the piece; `part` and `ver`. The data source is left out.
///
/// # Errors
///
/// Out of memory.
#[tactic(auto, unfolding(druid_query::specs::Asked::asked_data))]
pub fn asked_value(alloc: Global, asked: &SegmentSlice) -> Result<Value, AllocError>
    ensures { IfOk result (λ v. view v ≡ asked_data asked.now) }
{
    let segment = asked.id();
    let chunk = segment.interval().text(alloc)?;
    let piece = asked.interval().text(alloc)?;
    let version = segment.version().text(alloc)?;
    json!(in alloc; {
        "chunk": chunk.as_str(),
        "itvl": piece.as_str(),
        "part": segment.partition(),
        "ver": version.as_str(),
    })
}

/// The JSON of each piece, in order.
///
/// # Errors
///
/// Out of memory.
pub fn asked_values(alloc: Global, asked: &[SegmentSlice]) -> Result<Vec<Value>, AllocError>
    ensures { IfOk result (λ vs. items_view vs.items ≡ pieces_data asked.now) }
{
    let mut all = Vec::with_capacity(alloc, asked.len())?;
    for piece in asked {
        all.push(asked_value(alloc, piece)?)?;
    }
    Ok(all)
}

/// Whether `read_asked` reads a piece of a segment of that source. Does not allocate.
pub fn is_asked(source: &Name, value: &Value) -> bool
    ensures { result ≡ is_some (asked_at source.now (view value.now)) }
{
    asked_of(source.as_str(), value).is_some()
}

/// Reads a piece of a segment of that source: `chunk` and `itvl` texts of intervals, `part` a whole
/// number of 0 to 65,535, and `ver` a version. Whether the piece lies inside the segment is not
/// judged.
///
/// # Errors
///
/// None where the value is no such object. Out of memory only of a piece.
#[tactic(auto, using(crate::proofs::PieceLemmas::asked_source))]
pub fn read_asked(
    alloc: Global,
    source: &Name,
    value: &Value,
) -> Result<Option<SegmentSlice>, AllocError>
    ensures read { IfOk result (λ asked. asked ≡ asked_at source.now (view value.now)) }
    ensures memory { IfErr result (λ _. IsSome (asked_at source.now (view value.now))) }
{
    let Some(asked) = asked_of(source.as_str(), value) else {
        return Ok(None);
    };
    Ok(Some(asked.to_owned_in(alloc, source)?))
}
