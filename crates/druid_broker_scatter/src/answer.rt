//! What came back from a node, read.
ghost use Rattle.std.specs.Prelude.{◌≡◌, ℕ, IfOk, OnErr, IfSome, IfNone};
ghost use Rattle.druid_link.specs.Links.{came_of};
ghost use Rattle.druid_partial.specs.Partials.{kinds_of};
ghost use Rattle.druid_broker_scatter.specs.Gathered.{Answers, IsLost};
ghost use Rattle.druid_broker_scatter.specs.Pending.{Reports, ReportsNothing, ReadingLacksMemory, LacksMemory, exchange_of};

use crate::GatherFault;
use druid_http_message::WireFault;
use druid_http_wire::response_of;
use druid_partial_text::{NodeAnswer, PartialFault, read_node_answer};
use druid_query::SubQuery;
use http::StatusCode;
use std::alloc::Global;

// The answer that these bytes are; None where they are none.
fn answer_in(alloc: Global, sub: &SubQuery, bytes: &[u8]) -> Result<Option<NodeAnswer>, GatherFault>
    ensures some { IfOk result (λ read. IfSome read (λ a. Reports sub.now bytes.now a.missing a.partial.groups)) }
    ensures none { IfOk result (λ read. IfNone read (ReportsNothing sub.now bytes.now)) }
    ensures kinds { IfOk result (λ read. IfSome read (λ a. a.partial.kinds ≡ kinds_of sub.now.query)) }
    ensures err { OnErr result (ReadingLacksMemory sub.now bytes.now) }
{
    let Ok(response) = response_of(bytes) else {
        return Ok(None);
    };
    if response.0 != StatusCode::OK {
        return Ok(None);
    }
    match read_node_answer(alloc, sub, response.1) {
        Ok(answer) => Ok(Some(answer)),
        Err(PartialFault::NotJson) => Ok(None),
        Err(PartialFault::Shape) => Ok(None),
        Err(PartialFault::Memory) => Err(GatherFault::Memory),
    }
}

// The answer that came; None where it is none.
pub(crate) fn answer_of(
    alloc: Global,
    sub: &SubQuery,
    came: &Result<Vec<u8>, WireFault>,
) -> Result<Option<NodeAnswer>, GatherFault>
    ensures some { IfOk result (λ read. IfSome read (λ a. (node : ℕ)
        → Answers sub.now.query (exchange_of sub.now (came_of came.now) node) a.missing a.partial.groups)) }
    ensures none { IfOk result (λ read. IfNone read ((node : ℕ)
        → IsLost sub.now.query (exchange_of sub.now (came_of came.now) node))) }
    ensures kinds { IfOk result (λ read. IfSome read (λ a. a.partial.kinds ≡ kinds_of sub.now.query)) }
    ensures err { OnErr result (LacksMemory sub.now (came_of came.now)) }
{
    match came {
        Ok(bytes) => answer_in(alloc, sub, bytes),
        Err(WireFault::Memory) => Err(GatherFault::Memory),
        Err(_) => Ok(None),
    }
}
