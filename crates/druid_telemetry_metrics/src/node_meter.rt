//! What a node notes of its state.
use crate::families::NodeState;
use crate::meter::Counts;
use std::alloc::{AllocError, Global};

// The places of the numbers.
const INCARNATION: usize = 0;

const CHANGES: usize = 1;

const SEGMENTS: usize = 2;

const ROWS: usize = 3;

const BYTES: usize = 4;

/// What a node notes of its state, in cells that no writer waits for: one thread notes, and others read.
#[derive(Drop)]
pub struct NodeMeter {
    cells: Counts,
}

impl NodeMeter {
    /// One of which nothing was noted.
    ///
    /// # Errors
    ///
    /// Out of memory.
    pub fn new(alloc: Global) -> Result<NodeMeter, AllocError> {
        Ok(NodeMeter {
            cells: Counts::new(alloc, 5)?,
        })
    }

    /// Notes a state, one number after another.
    pub fn note(&self, state: &NodeState) {
        self.cells.set(INCARNATION, state.incarnation);
        self.cells.set(CHANGES, state.changes);
        self.cells.set(SEGMENTS, state.segments);
        self.cells.set(ROWS, state.rows);
        self.cells.set(BYTES, state.bytes);
    }

    /// What was noted: each number is one that it had while this was called.
    pub fn read(&self) -> NodeState {
        NodeState {
            incarnation: self.cells.number(INCARNATION),
            changes: self.cells.number(CHANGES),
            segments: self.cells.number(SEGMENTS),
            rows: self.cells.number(ROWS),
            bytes: self.cells.number(BYTES),
        }
    }
}
