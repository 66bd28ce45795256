//! Events as lines of JSON.
ghost use Rattle.std.specs.Prelude.{◌≡◌, IfOk, option_map, string_bytes};
ghost use Rattle.serde_json.specs.View.{view};
ghost use Rattle.serde_json.specs.Written.{compact_text};
ghost use Rattle.druid_segment_text.specs.Json.{mark_data};
ghost use Rattle.druid_time.specs.Texts.{instant_text};
ghost use Rattle.druid_telemetry_log.specs.Events.{file_data, refused_data, lost_data, found_data, fell_data, oversize_data, answered_data, missed_data, event_data, line_at, level_of};

use crate::event::Event;
use crate::level::Level;
use druid_segment_descriptor::Mark;
use druid_segment_text::mark_value;
use druid_time::Instant;
use serde_json::{Value, json};
use std::alloc::{AllocError, Global};

// What is logged of a file.
fn file_value(
    alloc: Global,
    at: &str,
    event: &str,
    file: &str,
    server: &str,
) -> Result<Value, AllocError>
    ensures { IfOk result (λ v. view v ≡ file_data at.now event.now file.now server.now) }
{
    json!(in alloc; {"at": at, "event": event, "file": file, "server": server})
}

fn refused_value(
    alloc: Global,
    at: &str,
    code: &str,
    file: &str,
    server: &str,
) -> Result<Value, AllocError>
    ensures { IfOk result (λ v. view v ≡ refused_data at.now code.now file.now server.now) }
{
    json!(in alloc; {"at": at, "code": code, "event": "refused", "file": file, "server": server})
}

fn lost_value(
    alloc: Global,
    at: &str,
    code: &str,
    node: &str,
    server: &str,
) -> Result<Value, AllocError>
    ensures { IfOk result (λ v. view v ≡ lost_data at.now code.now node.now server.now) }
{
    json!(in alloc; {"at": at, "code": code, "event": "lost", "node": node, "server": server})
}

fn found_value(
    alloc: Global,
    at: &str,
    failed: u64,
    node: &str,
    server: &str,
) -> Result<Value, AllocError>
    ensures { IfOk result (λ v. view v ≡ found_data at.now failed node.now server.now) }
{
    json!(in alloc; {"at": at, "event": "found", "failed": failed, "node": node, "server": server})
}

fn fell_value(
    alloc: Global,
    at: &str,
    held: Mark,
    node: &str,
    server: &str,
    shown: Mark,
) -> Result<Value, AllocError>
    ensures { IfOk result (λ v. view v ≡ fell_data at.now (mark_data held) node.now server.now (mark_data shown)) }
{
    let held = mark_value(alloc, held)?;
    let shown = mark_value(alloc, shown)?;
    json!(in alloc; {
        "at": at,
        "event": "fell",
        "held": held,
        "node": node,
        "server": server,
        "shown": shown,
    })
}

fn oversize_value(
    alloc: Global,
    at: &str,
    code: &str,
    exchanges: u64,
    node: &str,
    server: &str,
) -> Result<Value, AllocError>
    ensures { IfOk result (λ v. view v ≡ oversize_data at.now code.now exchanges node.now server.now) }
{
    json!(in alloc; {
        "at": at,
        "code": code,
        "event": "oversize",
        "exchanges": exchanges,
        "node": node,
        "server": server,
    })
}

fn answered_value(
    alloc: Global,
    at: &str,
    bytes: u64,
    milliseconds: u64,
    route: &str,
    server: &str,
    status: u16,
) -> Result<Value, AllocError>
    ensures { IfOk result (λ v. view v ≡ answered_data at.now bytes milliseconds route.now server.now status) }
{
    json!(in alloc; {
        "at": at,
        "bytes": bytes,
        "event": "answered",
        "milliseconds": milliseconds,
        "route": route,
        "server": server,
        "status": status,
    })
}

fn missed_value(alloc: Global, at: &str, lines: u64, server: &str) -> Result<Value, AllocError>
    ensures { IfOk result (λ v. view v ≡ missed_data at.now lines server.now) }
{
    json!(in alloc; {"at": at, "event": "missed", "lines": lines, "server": server})
}

// The JSON of an event.
fn event_value(
    alloc: Global,
    at: &str,
    server: &str,
    event: &Event<'_>,
) -> Result<Value, AllocError>
    ensures { IfOk result (λ v. view v ≡ event_data at.now server.now event.now) }
{
    match event {
        Event::Loaded { file } => file_value(alloc, at, "loaded", file, server),
        Event::Dropped { file } => file_value(alloc, at, "dropped", file, server),
        Event::Refused { file, code } => refused_value(alloc, at, code, file, server),
        Event::Lost { node, code } => lost_value(alloc, at, code, node, server),
        Event::Found { node, failed } => found_value(alloc, at, *failed, node, server),
        Event::Fell { node, held, shown } => fell_value(alloc, at, *held, node, server, *shown),
        Event::Oversize {
            node,
            code,
            exchanges,
        } => oversize_value(alloc, at, code, *exchanges, node, server),
        Event::Answered {
            route,
            status,
            milliseconds,
            bytes,
        } => answered_value(alloc, at, *bytes, *milliseconds, route, server, *status),
        Event::Missed { lines } => missed_value(alloc, at, *lines, server),
    }
}

fn instant_text(alloc: Global, at: Instant) -> Result<String, AllocError>
    ensures { IfOk result (λ text. string_bytes text ≡ instant_text at) }
{
    format!(in alloc; "{at}")
}

/// The line of an event of a server at an instant: compact JSON, its keys in the order of their bytes, and a line feed; None where
/// the level does not let it through.
///
/// # Errors
///
/// Out of memory.
#[tactic(auto, using(crate::proofs::PlainLemmas::event_plain))]
pub fn line_of(
    alloc: Global,
    level: Level,
    at: Instant,
    server: &str,
    event: &Event<'_>,
) -> Result<Option<String>, AllocError>
    ensures { IfOk result (λ line. option_map string_bytes line ≡ line_at level at server.now event.now) }
{
    if !level.lets(event.level()) {
        return Ok(None);
    }
    let at = instant_text(alloc, at)?;
    let mut line = event_value(alloc, at.as_str(), server, event)?.to_string(alloc)?;
    line.push('\n')?;
    Ok(Some(line))
}
