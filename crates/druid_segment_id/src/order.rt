//! The order of identifiers: by the bytes of their texts. Values that are no identifiers may share
//! a text, so after it `identifier_cmp` goes by the parts: then the order agrees with equality, and
//! a hash may look at the parts.
ghost use Rattle.std.specs.Prelude.{◌≡◌, ◌++◌, Some, refl};
ghost use Rattle.std.specs.Ordering.{nat_cmp};
ghost use Rattle.std.specs.Cmp.Lexicographic.{slice_cmp};
ghost use Rattle.druid_segment_id.specs.Identifier.{IsIdentifier, identifier_text, partition_suffix, identifier_cmp};
ghost use Rattle.druid_segment_id.specs.IdentifierLaws as order;

use crate::SegmentId;
use crate::text_parts::{LONGEST, LONGEST_SUFFIX, append_suffix};
use std::cmp::Ordering;

// Compares a text with two that stand one after the other.
fn cmp_with_pair(text: &[u8], front: &[u8], rest: &[u8]) -> Ordering
    ensures { result ≡ slice_cmp nat_cmp text.now (front.now ++ rest.now) }
{
    if text.len() < front.len() {
        return text.cmp(front);
    }
    let (mine, left) = text.split_at(front.len());
    mine.cmp(front).then(left.cmp(rest))
}

// Compares two texts, each of which stands in two parts.
fn cmp_pairs(front: &[u8], rest: &[u8], other_front: &[u8], other_rest: &[u8]) -> Ordering
    ensures { result
        ≡ slice_cmp nat_cmp (front.now ++ rest.now) (other_front.now ++ other_rest.now) }
{
    if front.len() <= other_front.len() {
        let (theirs, left) = other_front.split_at(front.len());
        front
            .cmp(theirs)
            .then(cmp_with_pair(rest, left, other_rest))
    } else {
        let (mine, left) = front.split_at(other_front.len());
        mine.cmp(other_front)
            .then(cmp_with_pair(other_rest, left, rest).reverse())
    }
}

impl SegmentId {
    // Compares the texts, from their parts where that is enough.
    #[tactic(auto, using(crate::proofs::IdentifierLemmas::order_facts))]
    fn cmp_by_text(&self, other: &SegmentId) -> Ordering
        ensures value { result ≡ slice_cmp nat_cmp (identifier_text self.now) (identifier_text other.now) }
        ensures valid { IsIdentifier self.now }
        ensures other_valid { IsIdentifier other.now }
    {
        if self.source == other.source {
            return self
                .interval
                .start()
                .cmp(&other.interval.start())
                .then_with(|| self.interval.end().cmp(&other.interval.end()))
                .then_with(|| self.cmp_tail(other));
        }
        let mine = self.source.as_str().as_bytes();
        let theirs = other.source.as_str().as_bytes();
        let common = mine.len().min(theirs.len());
        // Where one source begins with the other, what follows the shorter one decides.
        match mine[..common].cmp(&theirs[..common]) {
            Ordering::Equal => self.cmp_text(other),
            order => order,
        }
    }

    // Compares the texts, printed.
    fn cmp_text(&self, other: &SegmentId) -> Ordering
        ensures { result ≡ slice_cmp nat_cmp (identifier_text self.now) (identifier_text other.now) }
    {
        let mut mine = [0; LONGEST];
        let my_len = self.write_text(&mut mine);
        let mut theirs = [0; LONGEST];
        let their_len = other.write_text(&mut theirs);
        mine[..my_len].cmp(&theirs[..their_len])
    }

    // Compares what follows the end.
    fn cmp_tail(&self, other: &SegmentId) -> Ordering
        ensures { result
            ≡ slice_cmp nat_cmp (self.now.version ++ partition_suffix self.now.partition)
            (other.now.version ++ partition_suffix other.now.partition) }
    {
        let mut mine = [0; LONGEST_SUFFIX];
        let my_len = append_suffix(&mut mine, 0, self.partition);
        let mut theirs = [0; LONGEST_SUFFIX];
        let their_len = append_suffix(&mut theirs, 0, other.partition);
        cmp_pairs(
            self.version.as_str().as_bytes(),
            &mine[..my_len],
            other.version.as_str().as_bytes(),
            &theirs[..their_len],
        )
    }
}

impl PartialOrd for SegmentId {
    ghost partial_cmp = { λ a b. Some (identifier_cmp a b) };

    ghost laws = { order.identifier_cmp-po };

    fn partial_cmp(&self, other: &SegmentId) -> Option<Ordering> {
        Some(self.cmp(other))
    }
}

impl Ord for SegmentId {
    ghost cmp = { identifier_cmp };

    ghost total = { order.identifier_cmp-total };

    ghost matches_partial_cmp = { λ a b. refl };

    ghost matches_eq = { order.identifier_cmp-ties };

    #[tactic(auto, using(crate::proofs::EqualLemmas::order_is_by_text))]
    fn cmp(&self, other: &SegmentId) -> Ordering
        ensures order { result ≡ identifier_cmp self.now other.now }
        ensures texts { result ≡ slice_cmp nat_cmp (identifier_text self.now) (identifier_text other.now) }
    {
        self.cmp_by_text(other)
    }
}
