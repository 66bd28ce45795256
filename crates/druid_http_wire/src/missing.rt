//! What is missing of a request that comes part by part.
ghost use Rattle.druid_http_wire.specs.Missing.{IsMissing};

use crate::framed::split_head;
use crate::head::parse_request_head;
use druid_http_message::WireFault;

/// What is missing of a request.
#[derive(Clone, Copy, Debug, PartialEq, Eq, Drop)]
pub enum Missing {
    /// Nothing that its answer is known by: it is whole, or has a fault of X4 to X7.
    Nothing,
    /// The end of its head, which may still be within the limit.
    Head,
    /// So many bytes of its body, one at least.
    Body(usize),
}

/// What is missing of the request that these bytes are, or begin. Does not allocate.
#[tactic(auto, using(crate::proofs::MissingLemmas::refused, crate::proofs::MissingLemmas::overlong, crate::proofs::MissingLemmas::whole, crate::proofs::MissingLemmas::body_lacks))]
pub fn missing_of(bytes: &[u8]) -> Missing
    ensures { IsMissing bytes.now result }
{
    let (head, rest) = match split_head(bytes) {
        Ok(parts) => parts,
        Err(WireFault::Cut) => return Missing::Head,
        Err(_) => return Missing::Nothing,
    };
    let parts = match parse_request_head(head) {
        Ok(parts) => parts,
        Err(_) => return Missing::Nothing,
    };
    if rest.len() < parts.length {
        return Missing::Body(parts.length - rest.len());
    }
    Missing::Nothing
}
