//! Borrowed segment slices, in their order: a set of them holds what a contract sees as slices.
ghost use Rattle.std.specs.Prelude.{◌≡◌, Some, refl};
ghost use Rattle.druid_query.specs.AskedOrder.{same_asked, same_asked-per, same_asked-equiv};
ghost use Rattle.druid_query.specs.PieceOrder as order;
ghost use Rattle.druid_query.specs.PieceOrder.{piece_cmp};

use druid_query::SegmentSlice;
use std::cmp::Ordering;
use std::marker::Model;

// A borrowed slice.
#[derive(Drop)]
pub(crate) struct PieceRef<'a> {
    slice: &'a SegmentSlice,
}

impl<'a> Model for PieceRef<'a> {
    ghost use Rattle.druid_query.specs.Asked.{Asked};

    ghost Value = { Asked };

    ghost view = { λ a. a.slice.now };
}

impl<'a> PartialEq for PieceRef<'a> {
    ghost eq = { same_asked };

    ghost laws = { same_asked-per };

    fn eq(&self, other: &PieceRef<'a>) -> bool
        ensures { result ≡ same_asked self.now other.now }
    {
        *self.slice == *other.slice
    }
}

impl<'a> Eq for PieceRef<'a> {
    ghost laws = { same_asked-equiv };
}

impl<'a> PartialOrd for PieceRef<'a> {
    ghost partial_cmp = { λ a b. Some (piece_cmp a b) };

    ghost laws = { order.piece_cmp-po };

    fn partial_cmp(&self, other: &PieceRef<'a>) -> Option<Ordering> {
        Some(self.cmp(other))
    }
}

impl<'a> Ord for PieceRef<'a> {
    ghost cmp = { piece_cmp };

    ghost total = { order.piece_cmp-total };

    ghost matches_partial_cmp = { λ a b. refl };

    ghost matches_eq = { order.piece_cmp-ties };

    fn cmp(&self, other: &PieceRef<'a>) -> Ordering {
        self.slice.cmp(other.slice)
    }
}

impl<'a> PieceRef<'a> {
    pub(crate) fn of(slice: &'a SegmentSlice) -> PieceRef<'a>
        ensures { result ≡ slice.now }
    {
        PieceRef { slice }
    }
}
