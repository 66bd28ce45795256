//! How often exchanges with a node ended in each way.
ghost use Rattle.std.specs.Prelude.{◌≡◌, ◌<◌, length};
ghost use Rattle.druid_link_health.specs.Faults.{number_of, way_of};
ghost use Rattle.druid_link_health.specs.Limits.{ways};

use crossbeam_utils::atomic::AtomicCell;
use druid_http_message::WireFault;

/// How many faults there are, X1 to X9.
pub const FAULTS: usize = 9;

/// In how many ways an exchange ends: it succeeds, or fails with one of the faults.
pub(crate) const WAYS: usize = FAULTS + 1;

/// How many exchanges with a node succeeded, and how many failed with each fault: with X1 at place 0, up to X9 at place 8. After
/// 2^64 - 1 a count begins anew.
#[derive(Clone, Copy, Debug, PartialEq, Eq)]
pub struct Counts {
    /// How many gave bytes.
    pub succeeded: u64,
    /// How many failed with the fault that is numbered one higher than its place.
    pub failed: [u64; FAULTS],
}

// The number of a fault.
fn number_of(fault: WireFault) -> usize
    ensures { result ≡ number_of fault }
{
    match fault {
        WireFault::Cut => 1,
        WireFault::Read => 2,
        WireFault::Write => 3,
        WireFault::BadHead => 4,
        WireFault::HeadTooLong => 5,
        WireFault::NoLength => 6,
        WireFault::BodyTooLong => 7,
        WireFault::Connect => 8,
        WireFault::Memory => 9,
    }
}

// The way in which an exchange ended.
pub(crate) fn way_of(ended: Result<(), WireFault>) -> usize
    ensures number { result ≡ way_of ended }
    ensures bound { result < ways }
{
    match ended {
        Ok(()) => 0,
        Err(fault) => number_of(fault),
    }
}

// What the counters of a node say by now, each read on its own.
pub(crate) fn counts_of(counters: &[AtomicCell<u64>]) -> Counts
    requires { length counters.now ≡ ways }
{
    let mut failed = [0; FAULTS];
    for place in 0..FAULTS {
        failed[place] = counters[place + 1].load();
    }
    Counts {
        succeeded: counters[0].load(),
        failed,
    }
}
