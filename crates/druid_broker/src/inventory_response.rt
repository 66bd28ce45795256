//! What is answered of the inventory.
ghost use Rattle.std.specs.Prelude.{◌≡◌, ◌++◌, [], IfOk, OnOk, codes, string_bytes};
ghost use Rattle.json.specs.Print.{print};
ghost use Rattle.serde_json.specs.Written.{compact_text};
ghost use Rattle.druid_sync_text.specs.Written.{reply_text};
ghost use Rattle.druid_http_wire.specs.Served.{Reports};
ghost use Rattle.druid_partial_text.specs.Tokens.{tokens_of};
ghost use Rattle.druid_broker.specs.Routes.{names_data, AnswersSources, is_loaded, loaded_text, OrOutOfMemory, AnswersNode};

use druid_http_wire::Response;
use druid_inventory::{Inventory, InventoryFault};
use druid_segment_descriptor::{Ask, NodeNo, Reply};
use druid_segment_id::Name;
use druid_sync_text::reply_text;
use http::StatusCode;
use json::Writer;
use std::alloc::{AllocError, Global};

// The bytes that a text starts with room for.
const FIRST_ROOM: usize = 128;

// Writes a list of names.
#[tactic(auto, using(crate::proofs::NameLemmas::names_first, crate::proofs::NameLemmas::name_next, crate::proofs::NameLemmas::names_last))]
fn push_names(out: &mut Writer, names: &[Name]) -> Result<(), AllocError>
    ensures ok { OnOk result (out.new.tokens ≡ out.old.tokens ++ tokens_of (names_data names.now)) }
    ensures before { out.new.before ≡ out.old.before }
{
    out.begin_array()?;
    for name in names {
        out.string(name.as_str())?;
    }
    out.end_array()
}

// The text that was written into an empty buffer.
fn text_of(out: Writer) -> String
    requires { out.before ≡ [] }
    ensures { string_bytes result ≡ print out.tokens }
{
    let Ok(text) = String::from_utf8(out.into_inner()) else {
        unreachable!()
    };
    text
}

#[tactic(auto, using(crate::proofs::NameLemmas::names_printed))]
fn names_text(alloc: Global, names: &[Name]) -> Result<String, AllocError>
    ensures { IfOk result (λ text. string_bytes text ≡ compact_text (names_data names.now)) }
{
    let mut out = Writer::new(Vec::with_capacity(alloc, FIRST_ROOM)?);
    push_names(&mut out, names)?;
    Ok(text_of(out))
}

/// The data sources.
pub(crate) fn sources_response(alloc: Global, inventory: &Inventory) -> Result<Response, AllocError>
    ensures { IfOk result (λ r. AnswersSources inventory.now r.status r.body) }
{
    let sources = inventory.sources()?;
    let text = names_text(alloc, &sources)?;
    Ok(Response::of_text(StatusCode::OK, text))
}

// Whether each node was synced.
#[tactic(auto, using(crate::proofs::LoadLemmas::not_loaded, crate::proofs::LoadLemmas::loaded_end))]
fn is_loaded(inventory: &Inventory) -> bool
    ensures { result ≡ is_loaded inventory.now }
{
    for node in 0..inventory.node_count() {
        let Some(mark) = inventory.mark(node) else {
            unreachable!()
        };
        if mark.incarnation() < 1 {
            return false;
        }
    }
    true
}

/// Whether each node was synced.
pub(crate) fn load_status_response(inventory: &Inventory) -> Response
    ensures { Reports 200 (loaded_text (is_loaded inventory.now)) result.status result.body }
{
    if is_loaded(inventory) {
        Response::of_static(StatusCode::OK, "{\"inventoryInitialized\":true}")
    } else {
        Response::of_static(StatusCode::OK, "{\"inventoryInitialized\":false}")
    }
}

/// The answer where there is no such node.
pub(crate) fn unknown_node() -> Response
    ensures { Reports 404 (codes "{\"error\":\"V2\"}") result.status result.body }
{
    Response::of_error(StatusCode::NOT_FOUND, "V2")
}

fn reply_response(alloc: Global, reply: &Reply) -> Response
    ensures { OrOutOfMemory (Reports 200 (reply_text reply.now)) result.status result.body }
{
    match reply_text(alloc, reply) {
        Ok(text) => Response::of_text(StatusCode::OK, text),
        Err(_) => Response::out_of_memory(),
    }
}

// What is known of a node of the list, as it is asked for.
fn entry_response(alloc: Global, inventory: &Inventory, node: NodeNo, ask: &Ask) -> Response
    ensures { AnswersNode inventory.now node ask.now result.status result.body }
{
    match inventory.entry_page(node, ask) {
        Ok(reply) => reply_response(alloc, &reply),
        Err(InventoryFault::UnknownNode) => unknown_node(),
        Err(InventoryFault::NotSynced) => Response::of_error(StatusCode::NOT_FOUND, "V3"),
        Err(InventoryFault::Memory) => Response::out_of_memory(),
        Err(InventoryFault::DoubledNode) => unreachable!(),
    }
}

/// What is known of the node of that number, as it is asked for.
#[tactic(auto, using(crate::proofs::LoadLemmas::no_node))]
pub(crate) fn node_response(
    alloc: Global,
    inventory: &Inventory,
    number: u64,
    ask: &Ask,
) -> Response
    ensures { AnswersNode inventory.now number ask.now result.status result.body }
{
    if number >= u64::from(inventory.node_count()) {
        return unknown_node();
    }
    entry_response(alloc, inventory, number as NodeNo, ask)
}
