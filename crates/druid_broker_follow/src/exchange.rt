//! One exchange of a turn: a request, and what comes of it.
ghost use Rattle.std.specs.Prelude.{◌≡◌, ◌≢◌, ◌⊎◌, IfOk, Ok, Err, string_bytes};
ghost use Rattle.druid_link.specs.Links.{came_of};
ghost use Rattle.druid_http_wire.specs.Written.{request_text};
ghost use Rattle.druid_broker_follow.specs.Turns.{get_request, IsAnswerTo, Fetches};
ghost use Rattle.druid_broker_follow.specs.Pages.{request_at};

use crate::TurnFault;
use druid_http_message::{Request, WireFault};
use druid_http_wire::{request_bytes, response_of};
use druid_link::Link;
use druid_segment_descriptor::{Ask, Reply};
use druid_sync_text::{SyncFault, ask_target_at, read_reply};
use http::{Method, StatusCode};
use std::alloc::{AllocError, Global};

// What is reported of a body that does not read.
fn reply_fault(fault: SyncFault) -> TurnFault
    ensures { ((fault ≡ SyncFault.Memory) × (result ≡ TurnFault.Memory)) ⊎ ((fault ≢ SyncFault.Memory) × (result ≡ TurnFault.Reply fault)) }
{
    if fault == SyncFault::Memory {
        TurnFault::Memory
    } else {
        TurnFault::Reply(fault)
    }
}

// What is reported of a link that failed.
fn link_fault(fault: WireFault) -> TurnFault
    ensures { ((fault ≡ WireFault.Memory) × (result ≡ TurnFault.Memory)) ⊎ ((fault ≢ WireFault.Memory) × (result ≡ TurnFault.Wire fault)) }
{
    if fault == WireFault::Memory {
        TurnFault::Memory
    } else {
        TurnFault::Wire(fault)
    }
}

fn reply_in(alloc: Global, bytes: &[u8]) -> Result<Reply, TurnFault>
    ensures { IsAnswerTo (Ok bytes.now) result }
{
    let (status, body) = match response_of(bytes) {
        Ok(response) => response,
        Err(fault) => return Err(TurnFault::Wire(fault)),
    };
    if status != StatusCode::OK {
        return Err(TurnFault::Status(status.as_u16()));
    }
    match read_reply(alloc, body) {
        Ok(reply) => Ok(reply),
        Err(fault) => Err(reply_fault(fault)),
    }
}

// The request for a target, as it is sent.
fn get_bytes(alloc: Global, target: String) -> Result<Vec<u8>, AllocError>
    ensures { IfOk result (λ bytes. bytes.items ≡ request_text (get_request (string_bytes target))) }
{
    request_bytes(alloc, &Request::new(Method::GET, target, Vec::new(alloc)))
}

// Asks for a target, once.
fn get<L: Link>(alloc: Global, target: String, link: &mut L) -> Result<Reply, TurnFault>
    ensures { Fetches L.exchanges (get_request (string_bytes target)) link.old link.new result }
{
    let Ok(request) = get_bytes(alloc, target) else {
        return Err(TurnFault::Memory);
    };
    match link.exchange(alloc, &request) {
        Ok(bytes) => reply_in(alloc, &bytes),
        Err(fault) => Err(link_fault(fault)),
    }
}

/// Asks at a path, once.
pub(crate) fn ask_once<L: Link>(
    alloc: Global,
    path: &str,
    ask: &Ask,
    link: &mut L,
) -> Result<Reply, TurnFault>
    ensures { Fetches L.exchanges (request_at path.now ask.now) link.old link.new result }
{
    match ask_target_at(alloc, path, ask) {
        Ok(target) => get(alloc, target, link),
        Err(_) => Err(TurnFault::Memory),
    }
}
