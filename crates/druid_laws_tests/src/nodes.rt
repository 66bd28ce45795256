//! What is known of a data node.
ghost use Rattle.std.specs.Prelude.{◌≡◌, ◌≤◌, All, OnOk, IsTrue, length};
ghost use Rattle.druid_segment_descriptor.specs.Reply.{max_page};
ghost use Rattle.druid_segment_descriptor.specs.Described.{IsDescribed};
ghost use Rattle.druid_laws_tests.specs.Nodes.{IsNode};

use druid_node::{NodeFault, NodeState};
use druid_segment_descriptor::{Ask, Body, Descriptor};

// Each descriptor has an identifier.
fn describe_all(segments: &[Descriptor])
    ensures { All IsDescribed segments.now }
{
    for i in 0..segments.len() {
        let _id = segments[i].id();
    }
}

// What a node serves has identifiers, as each descriptor of its snapshot, if one message carries it; then nothing is frozen.
fn describe(state: &mut NodeState) -> Result<(), NodeFault>
    ensures described { OnOk result (All IsDescribed state.old.history.set) }
    ensures small { OnOk result (length state.old.history.set ≤ max_page) }
    ensures same { OnOk result (state.new ≡ state.old) }
{
    let _mark = state.mark();
    let reply = match state.since(&Ask::Whole) {
        Ok(reply) => reply,
        Err(fault) => return Err(fault),
    };
    match reply.body() {
        Body::Snapshot { segments, .. } => {
            describe_all(segments.as_slice());
            Ok(())
        }
        Body::Delta { .. } | Body::Page { .. } | Body::Reset { .. } => Err(NodeFault::Memory),
    }
}

/// What is kept of a node, unless memory ran out or one message does not carry it.
pub(crate) fn know(state: &mut NodeState) -> bool
    ensures node { IsTrue result → IsNode state.old }
    ensures same { IsTrue result → state.new ≡ state.old }
{
    // For the proof: reading it exposes the invariant of its type.
    let _mark = state.mark();
    describe(state).is_ok()
}
