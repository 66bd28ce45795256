//! What is answered of segment slices, by a node and by whoever gathers of nodes.
ghost use Rattle.std.specs.Prelude.{◌≡◌};

use crate::Partial;
use druid_query::SegmentSlice;
use std::marker::Model;

/// What is answered of segment slices: a partial, and the slices that are missing from it, since nobody gave them.
#[derive(Debug, Drop)]
pub struct Answer {
    partial: Partial,
    missing: Vec<SegmentSlice>,
}

impl Model for Answer {
    ghost use Rattle.druid_partial.specs.Answer.{Answer};

    ghost Value = { Answer };

    ghost view = { λ a. record { partial = a.partial; missing = a.missing.items } };
}

impl Answer {
    /// The answer of these parts.
    pub fn new(partial: Partial, missing: Vec<SegmentSlice>) -> Answer
        ensures { result ≡ record { partial = partial; missing = missing.items } }
    {
        Answer { partial, missing }
    }

    /// What all that was given tells.
    pub fn partial(&self) -> &Partial
        ensures { result.now ≡ self.now.partial }
    {
        &self.partial
    }

    /// The slices that are missing: a node's in the order in which it was asked for them, a broker's in that of its plan.
    pub fn missing(&self) -> &[SegmentSlice]
        ensures { result.now ≡ self.now.missing }
    {
        &self.missing
    }

    /// Its parts.
    pub fn into_parts(self) -> (Partial, Vec<SegmentSlice>)
        ensures partial { result.0 ≡ self.partial }
        ensures missing { result.1.items ≡ self.missing }
    {
        (self.partial, self.missing)
    }
}
