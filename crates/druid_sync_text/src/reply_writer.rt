//! Replies, written.
ghost use Rattle.std.specs.Prelude.{◌≡◌, ◌++◌, false, codes, map, All, Some, IfSome, IfOk, OnOk, string_bytes};
ghost use Rattle.serde_json.specs.Read.{read};
ghost use Rattle.serde_json.specs.Data.{string, put};
ghost use Rattle.serde_json.specs.View.{view, items_of, members_view};
ghost use Rattle.serde_json.specs.Written.{compact_text, comma_if, items_text};
ghost use Rattle.druid_segment_descriptor.specs.Mark.{IsWord};
ghost use Rattle.druid_segment_descriptor.specs.Described.{IsDescribed};
ghost use Rattle.druid_sync_text.specs.Back.{IsReadBack};
ghost use Rattle.druid_sync_text.specs.Written.{from_data, request_data, change_data, load_data, segment_of, numbers_text, front_text, back_text, reply_data, reply_text};

use druid_segment_descriptor::{Body, Cause, Change, Descriptor, Mark, Reply};
use druid_segment_text::{descriptor_value, mark_value};
use serde_json::{Map, Value};
use std::alloc::{AllocError, Global};

// Adds what a change does to the members that describe its segment.
fn put_action(
    alloc: Global,
    members: &mut Map<String, Value>,
    action: &str,
) -> Result<(), AllocError>
    ensures { OnOk result (members_view members.new.entries ≡ put (codes "action") (string action.now) (members_view members.old.entries)) }
{
    let key = String::from_str(alloc, "action")?;
    let action = Value::from(String::from_str(alloc, action)?);
    members.insert(key, action)?;
    Ok(())
}

// The JSON of a change that does this with a segment.
#[tactic(auto, using(crate::proofs::TextLemmas::descriptor_members))]
fn request_value(alloc: Global, action: &str, descriptor: &Descriptor) -> Result<Value, AllocError>
    ensures value { IfOk result (λ v. view v ≡ request_data action.now descriptor.now) }
    ensures described { IfOk result (λ _. IsDescribed descriptor.now) }
{
    // For the proof: reading it exposes the invariant of its type.
    let _ = descriptor.size();
    let mut request = descriptor_value(alloc, descriptor)?;
    let Some(members) = request.as_object_mut() else {
        unreachable!()
    };
    put_action(alloc, members, action)?;
    Ok(request)
}

// What stands before an item of a list.
fn comma(later: bool) -> &'static str
    ensures { result.now ≡ comma_if later }
{
    if later { "," } else { "" }
}

// The text of a change that does this with a segment.
#[tactic(auto, using(crate::proofs::TextLemmas::request_plain))]
fn request_text(alloc: Global, action: &str, descriptor: &Descriptor) -> Result<String, AllocError>
    ensures text { IfOk result (λ text.
        string_bytes text ≡ compact_text (request_data action.now descriptor.now)) }
    ensures described { IfOk result (λ _. IsDescribed descriptor.now) }
{
    request_value(alloc, action, descriptor)?.to_string(alloc)
}

// Appends the JSON of a change that does this with a segment, after a comma where another stands before it.
#[tactic(auto, using(crate::proofs::TextLemmas::two_pushed))]
fn push_request(
    alloc: Global,
    text: &mut String,
    later: bool,
    action: &str,
    descriptor: &Descriptor,
) -> Result<(), AllocError>
    ensures text { OnOk result (string_bytes text.new
        ≡ string_bytes text.old ++ (comma_if later ++ compact_text (request_data action.now descriptor.now))) }
    ensures described { OnOk result (IsDescribed descriptor.now) }
{
    let request = request_text(alloc, action, descriptor)?;
    text.push_str(comma(later))?;
    text.push_str(request.as_str())
}

fn push_change(
    alloc: Global,
    text: &mut String,
    later: bool,
    change: &Change,
) -> Result<(), AllocError>
    ensures text { OnOk result (string_bytes text.new
        ≡ string_bytes text.old ++ (comma_if later ++ compact_text (change_data change.now))) }
    ensures described { OnOk result (IsDescribed (segment_of change.now)) }
{
    match change {
        Change::Load(descriptor) => push_request(alloc, text, later, "load", descriptor),
        Change::Drop(descriptor) => push_request(alloc, text, later, "drop", descriptor),
    }
}

// Appends the JSON of changes, and the bracket after them.
#[tactic(auto, using(crate::proofs::TextLemmas::item_next, crate::proofs::TextLemmas::item_last))]
fn push_changes(alloc: Global, text: &mut String, changes: &[Change]) -> Result<(), AllocError>
    ensures text { OnOk result (string_bytes text.new
        ≡ string_bytes text.old ++ items_text false (items_of (map change_data changes.now))) }
    ensures described { OnOk result (All (λ c. IsDescribed (segment_of c)) changes.now) }
{
    for i in 0..changes.len() {
        push_change(alloc, text, 0 < i, &changes[i])?;
    }
    text.push_str("]")
}

// Appends the JSON of loads of these segments, and the bracket after them.
#[tactic(auto, using(crate::proofs::TextLemmas::item_next, crate::proofs::TextLemmas::item_last))]
fn push_loads(alloc: Global, text: &mut String, segments: &[Descriptor]) -> Result<(), AllocError>
    ensures text { OnOk result (string_bytes text.new
        ≡ string_bytes text.old ++ items_text false (items_of (map load_data segments.now))) }
    ensures described { OnOk result (All IsDescribed segments.now) }
{
    for i in 0..segments.len() {
        push_request(alloc, text, 0 < i, "load", &segments[i])?;
    }
    text.push_str("]")
}

// The text of a mark, or of none.
#[tactic(auto, using(crate::proofs::TextLemmas::from_plain))]
fn from_text(alloc: Global, from: Option<Mark>) -> Result<String, AllocError>
    ensures text { IfOk result (λ text. string_bytes text ≡ compact_text (from_data from)) }
    ensures words { IfOk result (λ _. IfSome from IsWord) }
{
    match from {
        Some(mark) => mark_value(alloc, mark)?.to_string(alloc),
        None => String::from_str(alloc, "null"),
    }
}

// The text of the numbers of a page, if it is one.
fn numbers_text(alloc: Global, numbers: Option<(u16, u16)>) -> Result<String, AllocError>
    ensures { IfOk result (λ text. string_bytes text ≡ numbers_text numbers) }
{
    match numbers {
        Some((page, of)) => format!(in alloc; ",\"page\":{page},\"pages\":{of}"),
        None => String::from_str(alloc, ""),
    }
}

// The text of a reply up to the bracket before its changes.
#[tactic(auto, unfolding(crate::specs::Written::front_text))]
fn front_of(
    alloc: Global,
    counter: Mark,
    from: Option<Mark>,
    numbers: Option<(u16, u16)>,
) -> Result<String, AllocError>
    ensures text { IfOk result (λ text. string_bytes text ≡ front_text counter from numbers ++ codes "[") }
    ensures words { IfOk result (λ _. IsWord counter × IfSome from IsWord) }
{
    let mut text = String::from_str(alloc, "{\"counter\":")?;
    text.push_str(from_text(alloc, Some(counter))?.as_str())?;
    text.push_str(",\"from\":")?;
    text.push_str(from_text(alloc, from)?.as_str())?;
    text.push_str(numbers_text(alloc, numbers)?.as_str())?;
    text.push_str(",\"requests\":[")?;
    Ok(text)
}

// The text of a reply from after its changes on.
#[tactic(auto, using(crate::proofs::TextLemmas::back_of_none, crate::proofs::TextLemmas::back_of_other, crate::proofs::TextLemmas::back_of_ahead, crate::proofs::TextLemmas::back_of_old))]
fn back_of(cause: Option<Cause>) -> &'static str
    ensures { result.now ≡ back_text cause }
{
    match cause {
        None => ",\"resetCause\":null,\"resetCounter\":false}",
        Some(Cause::OtherIncarnation) =>
            ",\"resetCause\":\"OtherIncarnation\",\"resetCounter\":true}",
        Some(Cause::Ahead) => ",\"resetCause\":\"Ahead\",\"resetCounter\":true}",
        Some(Cause::TooOld) => ",\"resetCause\":\"TooOld\",\"resetCounter\":true}",
    }
}

/// The text of a reply: its JSON, compact, with the keys in the order of their bytes. A reader of JSON gets back the reply's.
///
/// # Errors
///
/// Out of memory.
#[tactic(auto, using(crate::proofs::TextLemmas::delta_text, crate::proofs::TextLemmas::snapshot_text, crate::proofs::TextLemmas::page_text, crate::proofs::TextLemmas::reset_text))]
pub fn reply_text(alloc: Global, reply: &Reply) -> Result<String, AllocError>
    ensures text { IfOk result (λ text. string_bytes text ≡ reply_text reply.now) }
    ensures read_back { IfOk result (λ text. read (string_bytes text) ≡ Some (reply_data reply.now)) }
    ensures again { IfOk result (λ _. IsReadBack reply.now) }
{
    match reply.body() {
        Body::Delta { from, to, changes } => {
            let mut text = front_of(alloc, *to, Some(*from), None)?;
            push_changes(alloc, &mut text, changes.as_slice())?;
            text.push_str(back_of(None))?;
            Ok(text)
        }
        Body::Snapshot { at, segments } => {
            let mut text = front_of(alloc, *at, None, None)?;
            push_loads(alloc, &mut text, segments.as_slice())?;
            text.push_str(back_of(None))?;
            Ok(text)
        }
        Body::Page {
            at,
            page,
            of,
            segments,
        } => {
            let mut text = front_of(alloc, *at, None, Some((*page, *of)))?;
            push_loads(alloc, &mut text, segments.as_slice())?;
            text.push_str(back_of(None))?;
            Ok(text)
        }
        Body::Reset { cause, at } => {
            let mut text = front_of(alloc, *at, None, None)?;
            text.push_str("]")?;
            text.push_str(back_of(Some(*cause)))?;
            Ok(text)
        }
    }
}
