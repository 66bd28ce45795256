//! Replies, read out of JSON.
ghost use Rattle.std.specs.Prelude.{◌≡◌, ◌≤◌, ◌↔◌, IsTrue, Some, is_some, IfErr, IfOk, IfSome, option_map};
ghost use Rattle.std.specs.List.{list_all};
ghost use Rattle.std.specs.Result.{result_ok};
ghost use Rattle.serde_json.specs.View.{view, items_view};
ghost use Rattle.druid_segment_descriptor.specs.Reply.{IsAsFar};
ghost use Rattle.druid_base.specs.Each.{each_of};
ghost use Rattle.druid_segment_text.specs.Json.{descriptor_at};
ghost use Rattle.druid_sync_text.specs.Borrowed.{change_borrowed, five_borrowed};
ghost use Rattle.druid_sync_text.specs.FirstFault.{shape_first};
ghost use Rattle.druid_sync_text.specs.Read.{mark_at, change_at, load_at, cause_at, five_at, begun_again, none_in, reset_at, snapshot_at, delta_at, changes_at, page_at, paged_at, is_page_reply, unpaged_at, form_at, MayBePage, Answers, IsRead, IsReadOf};

use crate::SyncFault;
use druid_base::{JsonFault, limited_field, list_field, number_field, parse_json, text_field};
use druid_segment_descriptor::{
    Cause, Change, Descriptor, MAX_CHANGES, MAX_PAGE, MAX_PAGES, MAX_SEGMENTS, Mark, Reply,
};
use druid_segment_text::{DescriptorRef, SharedTexts};
use serde_json::Value;
use std::alloc::{AllocError, Global};

// A mark of an incarnation.
#[tactic(auto, unfolding(crate::specs::Read::mark_at))]
fn mark_of(value: &Value) -> Option<Mark>
    ensures value { result ≡ mark_at (view value.now) }
    ensures valid { IfSome result (λ mark. 1 ≤ mark.incarnation) }
{
    let count = number_field(value, "counter")?;
    let incarnation = number_field(value, "hash")?;
    if 1 <= incarnation {
        Some(Mark::new(incarnation, count))
    } else {
        None
    }
}

// A change, with borrowed texts.
#[derive(Drop)]
enum ChangeRef<'a> {
    Load(DescriptorRef<'a>),
    Drop(DescriptorRef<'a>),
}

impl<'a> ChangeRef<'a> {
    // A copy.
    fn to_owned_in(&self, texts: &mut SharedTexts<'a>) -> Result<Change, AllocError>
        ensures { IfOk result (λ copy. copy ≡ change_borrowed self.now) }
    {
        match self {
            ChangeRef::Load(segment) => Ok(Change::Load(segment.to_owned_in(texts)?)),
            ChangeRef::Drop(segment) => Ok(Change::Drop(segment.to_owned_in(texts)?)),
        }
    }
}

fn descriptor_in(value: &Value) -> Option<DescriptorRef<'_>>
    ensures { result ≡ result_ok (descriptor_at (view value.now)) }
{
    match DescriptorRef::of(value) {
        Ok(segment) => Some(segment),
        Err(_) => None,
    }
}

// The change that a value is. Does not allocate.
#[tactic(auto, unfolding(crate::specs::Read::change_at))]
fn change_in(value: &Value) -> Option<ChangeRef<'_>>
    ensures { option_map change_borrowed result ≡ change_at (view value.now) }
{
    let action = text_field(value, "action")?;
    let segment = descriptor_in(value)?;
    if action == "load" {
        return Some(ChangeRef::Load(segment));
    }
    if action == "drop" {
        return Some(ChangeRef::Drop(segment));
    }
    None
}

// The segment that the change loads that a value is. Does not allocate.
fn load_in(value: &Value) -> Option<DescriptorRef<'_>>
    ensures { result ≡ load_at (view value.now) }
{
    match change_in(value)? {
        ChangeRef::Load(segment) => Some(segment),
        ChangeRef::Drop(_segment) => None,
    }
}

fn is_change(value: &Value) -> bool
    ensures { result ≡ is_some (change_at (view value.now)) }
{
    change_in(value).is_some()
}

fn is_load(value: &Value) -> bool
    ensures { result ≡ is_some (load_at (view value.now)) }
{
    load_in(value).is_some()
}

fn are_changes(values: &[Value]) -> bool
    ensures { result ≡ list_all (λ value. is_some (change_at (view value))) values.now }
{
    values.iter().all(|value| is_change(value))
}

fn are_loads(values: &[Value]) -> bool
    ensures { result ≡ list_all (λ value. is_some (load_at (view value))) values.now }
{
    values.iter().all(|value| is_load(value))
}

// The fault of changes: that one is none comes before this one.
#[tactic(auto, using(crate::proofs::FormLemmas::changes_read))]
fn fault_of_changes(values: &[Value], fault: SyncFault) -> SyncFault
    ensures { result ≡ shape_first (each_of change_at (items_view values.now)) fault }
{
    if are_changes(values) {
        fault
    } else {
        SyncFault::Shape
    }
}

// The fault of loads: that one is none comes before this one.
#[tactic(auto, using(crate::proofs::FormLemmas::loads_read))]
fn fault_of_loads(values: &[Value], fault: SyncFault) -> SyncFault
    ensures { result ≡ shape_first (each_of load_at (items_view values.now)) fault }
{
    if are_loads(values) {
        fault
    } else {
        SyncFault::Shape
    }
}

// The changes, in order; None where a value is none.
fn read_changes(alloc: Global, values: &[Value]) -> Result<Option<Vec<Change>>, AllocError>
    ensures { IfOk result (λ read.
        option_map (λ changes. changes.items) read ≡ each_of change_at (items_view values.now)) }
{
    let mut texts = SharedTexts::with_capacity(alloc, values.len())?;
    let mut changes = Vec::with_capacity(alloc, values.len())?;
    for value in values {
        let Some(change) = change_in(value) else {
            return Ok(None);
        };
        changes.push(change.to_owned_in(&mut texts)?)?;
    }
    Ok(Some(changes))
}

// The segments that changes load, in order; None where a value is no load.
fn read_loads(alloc: Global, values: &[Value]) -> Result<Option<Vec<Descriptor>>, AllocError>
    ensures { IfOk result (λ read.
        option_map (λ loads. loads.items) read ≡ each_of load_at (items_view values.now)) }
{
    let mut texts = SharedTexts::with_capacity(alloc, values.len())?;
    let mut loads = Vec::with_capacity(alloc, values.len())?;
    for value in values {
        let Some(load) = load_in(value) else {
            return Ok(None);
        };
        loads.push(load.to_owned_in(&mut texts)?)?;
    }
    Ok(Some(loads))
}

// The changes, in order. Where memory runs out before all were looked at, the rest is judged too.
fn changes_of(alloc: Global, values: &[Value]) -> Result<Vec<Change>, SyncFault>
    ensures ok { IfOk result (λ changes. each_of change_at (items_view values.now) ≡ Some changes.items) }
    ensures fault { IfErr result
        (λ fault. fault ≡ shape_first (each_of change_at (items_view values.now)) SyncFault.Memory) }
{
    match read_changes(alloc, values) {
        Ok(Some(changes)) => Ok(changes),
        Ok(None) => Err(SyncFault::Shape),
        Err(AllocError) => Err(fault_of_changes(values, SyncFault::Memory)),
    }
}

// The segments that changes load, in order, as `changes_of`.
fn loads_of(alloc: Global, values: &[Value]) -> Result<Vec<Descriptor>, SyncFault>
    ensures ok { IfOk result (λ loads. each_of load_at (items_view values.now) ≡ Some loads.items) }
    ensures fault { IfErr result
        (λ fault. fault ≡ shape_first (each_of load_at (items_view values.now)) SyncFault.Memory) }
{
    match read_loads(alloc, values) {
        Ok(Some(loads)) => Ok(loads),
        Ok(None) => Err(SyncFault::Shape),
        Err(AllocError) => Err(fault_of_loads(values, SyncFault::Memory)),
    }
}

// The cause of a reset.
#[tactic(auto, unfolding(crate::specs::Read::cause_at))]
fn cause_of(value: &Value) -> Option<Cause>
    ensures { result ≡ cause_at (view value.now) }
{
    let text = value.as_str()?;
    if text == "OtherIncarnation" {
        return Some(Cause::OtherIncarnation);
    }
    if text == "Ahead" {
        return Some(Cause::Ahead);
    }
    if text == "TooOld" {
        return Some(Cause::TooOld);
    }
    None
}

// The five fields of a reply, borrowed.
#[derive(Drop)]
struct Borrowed<'a> {
    at: Mark,
    from: &'a Value,
    requests: &'a [Value],
    cause: &'a Value,
    reset: bool,
}

#[tactic(auto, unfolding(crate::specs::Read::five_at))]
fn five_of(value: &Value) -> Option<Borrowed<'_>>
    ensures value { option_map five_borrowed result ≡ five_at (view value.now) }
    ensures valid { IfSome result (λ five. 1 ≤ five.at.incarnation) }
{
    let at = mark_of(value.get("counter")?)?;
    let from = value.get("from")?;
    let requests = list_field(value, "requests")?;
    let cause = value.get("resetCause")?;
    let reset = value.get("resetCounter").and_then(Value::as_bool)?;
    Some(Borrowed {
        at,
        from,
        requests,
        cause,
        reset,
    })
}

// Whether there are no changes.
#[tactic(auto, using(crate::proofs::FormLemmas::none_of))]
fn are_none(values: &[Value]) -> bool
    ensures { result ≡ is_some (none_in (items_view values.now)) }
{
    values.is_empty()
}

// The cause, where the five fields are those of a reset.
#[tactic(auto, unfolding(crate::specs::Read::reset_at))]
fn reset_of(five: &Borrowed) -> Option<Cause>
    ensures { option_map (λ cause. begun_again cause five.now.at) result ≡ reset_at (five_borrowed five.now) }
{
    if !five.from.is_null() {
        return None;
    }
    if !are_none(five.requests) {
        return None;
    }
    cause_of(five.cause)
}

// The snapshot of these loads.
#[tactic(auto, unfolding(crate::specs::Read::snapshot_at))]
fn snapshot_of(alloc: Global, at: Mark, loads: &[Value]) -> Result<Reply, SyncFault>
    requires { 1 ≤ at.incarnation }
    ensures { Answers (snapshot_at at (items_view loads.now)) result }
{
    if loads.len() > MAX_SEGMENTS {
        return Err(fault_of_loads(loads, SyncFault::TooMany));
    }
    let segments = match loads_of(alloc, loads) {
        Ok(segments) => segments,
        Err(fault) => return Err(fault),
    };
    match Reply::snapshot(at, segments) {
        Ok(reply) => Ok(reply),
        Err(fault) => Err(SyncFault::from(fault)),
    }
}

// The mark that is so many changes after another one of its incarnation, if there is one.
fn is_as_far(from: Mark, to: Mark, changes: usize) -> bool
    ensures { IsTrue result ↔ IsAsFar from to changes }
{
    to.incarnation() == from.incarnation()
        && from.count().checked_add(changes as u64) == Some(to.count())
}

// The delta of these changes.
#[tactic(auto, unfolding(crate::specs::Read::delta_at))]
fn delta_of(alloc: Global, at: Mark, from: &Value, values: &[Value]) -> Result<Reply, SyncFault>
    requires { 1 ≤ at.incarnation }
    ensures { Answers (delta_at at (view from.now) (items_view values.now)) result }
{
    let Some(from) = mark_of(from) else {
        return Err(SyncFault::Shape);
    };
    if values.len() > MAX_CHANGES {
        return Err(fault_of_changes(values, SyncFault::TooMany));
    }
    if !is_as_far(from, at, values.len()) {
        return Err(fault_of_changes(values, SyncFault::LengthOfDelta));
    }
    let changes = match changes_of(alloc, values) {
        Ok(changes) => changes,
        Err(fault) => return Err(fault),
    };
    match Reply::delta(from, at, changes) {
        Ok(reply) => Ok(reply),
        Err(fault) => Err(SyncFault::from(fault)),
    }
}

// The snapshot or the delta that the five fields are.
#[tactic(auto, unfolding(crate::specs::Read::changes_at))]
fn follow(alloc: Global, five: &Borrowed) -> Result<Reply, SyncFault>
    requires { 1 ≤ five.now.at.incarnation }
    ensures { Answers (changes_at (five_borrowed five.now)) result }
{
    if !five.cause.is_null() {
        return Err(SyncFault::Shape);
    }
    if five.from.is_null() {
        snapshot_of(alloc, five.at, five.requests)
    } else {
        delta_of(alloc, five.at, five.from, five.requests)
    }
}

// Whether a page of so many may have that many segments.
fn may_be_page(page: u16, of: u16, count: usize) -> bool
    ensures { IsTrue result ↔ MayBePage page of count }
{
    if of < 2 || MAX_PAGES < of || of <= page {
        return false;
    }
    count == MAX_PAGE || (1 <= count && page + 1 == of)
}

// The page of these loads.
#[tactic(auto, unfolding(crate::specs::Read::page_at))]
fn page_of(alloc: Global, at: Mark, page: u16, of: u16, loads: &[Value]) -> Result<Reply, SyncFault>
    requires { 1 ≤ at.incarnation }
    ensures { Answers (page_at at page of (items_view loads.now)) result }
{
    if loads.len() > MAX_PAGE {
        return Err(fault_of_loads(loads, SyncFault::TooMany));
    }
    if !may_be_page(page, of, loads.len()) {
        return Err(fault_of_loads(loads, SyncFault::BadPage));
    }
    let segments = match loads_of(alloc, loads) {
        Ok(segments) => segments,
        Err(fault) => return Err(fault),
    };
    match Reply::page(at, page, of, segments) {
        Ok(reply) => Ok(reply),
        Err(fault) => Err(SyncFault::from(fault)),
    }
}

// The page that a value is.
#[tactic(auto, unfolding(crate::specs::Read::paged_at))]
fn page_in(alloc: Global, value: &Value, five: &Borrowed) -> Result<Reply, SyncFault>
    requires { 1 ≤ five.now.at.incarnation }
    ensures { Answers (paged_at (view value.now) (five_borrowed five.now)) result }
{
    let Some(page) = limited_field(value, "page", u16::MAX) else {
        return Err(SyncFault::Shape);
    };
    let Some(of) = limited_field(value, "pages", u16::MAX) else {
        return Err(SyncFault::Shape);
    };
    if !five.from.is_null() {
        return Err(SyncFault::Shape);
    }
    if !five.cause.is_null() {
        return Err(SyncFault::Shape);
    }
    if five.reset {
        return Err(SyncFault::Shape);
    }
    page_of(alloc, five.at, page, of, five.requests)
}

// Whether a value tells one of the two numbers of a page.
fn is_page_reply(value: &Value) -> bool
    ensures { result ≡ is_page_reply (view value.now) }
{
    value.get("page").is_some() || value.get("pages").is_some()
}

// The reply that the five fields of a value are, which tells no page.
fn unpaged_of(alloc: Global, five: &Borrowed) -> Result<Reply, SyncFault>
    requires { 1 ≤ five.now.at.incarnation }
    ensures { Answers (unpaged_at (five_borrowed five.now)) result }
{
    if !five.reset {
        return follow(alloc, five);
    }
    match reset_of(five) {
        Some(cause) => Ok(Reply::reset(cause, five.at)),
        None => Err(SyncFault::Shape),
    }
}

/// Reads a reply. The segments of a snapshot may stand in any order, and other keys than a reply's
/// are passed over.
///
/// # Errors
///
/// Y2; then Y5; then Y3, or Y7 where a page is not one of 2 to 10, or neither full nor the last
/// with a segment at least; then Y9; then Y4, or Y7 where the segments of a page do not rise.
#[tactic(auto, unfolding(crate::specs::Read::form_at))]
pub fn reply_of(alloc: Global, value: &Value) -> Result<Reply, SyncFault>
    ensures { IsRead (view value.now) result }
{
    let Some(five) = five_of(value) else {
        return Err(SyncFault::Shape);
    };
    if is_page_reply(value) {
        page_in(alloc, value, &five)
    } else {
        unpaged_of(alloc, &five)
    }
}

/// Reads a reply of a data node.
///
/// # Errors
///
/// Y1; then those of `reply_of`. Parsing allocates as it goes: of bytes in UTF-8 Y9 may come in
/// place of any.
pub fn read_reply(alloc: Global, bytes: &[u8]) -> Result<Reply, SyncFault>
    ensures { IsReadOf bytes.now result }
{
    match parse_json(alloc, bytes) {
        Ok(value) => reply_of(alloc, &value),
        Err(JsonFault::NotJson) => Err(SyncFault::NotJson),
        Err(JsonFault::Memory) => Err(SyncFault::Memory),
    }
}
