//! The rest between two turns.
ghost use Rattle.std.specs.Prelude.{◌≡◌};
ghost use Rattle.druid_broker_follow.specs.Rests.{next_rest};

/// The longest rest to which failures lead, in milliseconds.
pub const MAX_REST: u64 = 30_000;

/// How many milliseconds a thread rests before its next turn with a node: `every` after a turn that did not fail; after one that
/// failed, twice the rest before that turn, up to `MAX_REST`, but no less than `every`. So a node that is gone is asked ever more
/// rarely, and the first turn that does not fail ends that. Where `every` is 0 there is no rest, and none comes of failures.
pub fn next_rest(rest: u64, every: u64, failed: bool) -> u64
    ensures { result ≡ next_rest rest every failed }
{
    if !failed {
        return every;
    }
    // Halved first, so that twice of it fits.
    every.max(2 * rest.min(MAX_REST / 2))
}
