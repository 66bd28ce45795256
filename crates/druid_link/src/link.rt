//! Links to nodes and to other brokers. Which exchanges a link may make each kind of link defines
//! for itself: those of a test may be any.
ghost use Rattle.std.specs.Prelude.{◌≡◌, ◌≤◌, ℕ, List, length, IfOk, IfErr};
ghost use Rattle.druid_link.specs.Limits.{max_exchange};
ghost use Rattle.druid_link.specs.Links.{Came, came_of, IsLinkFault, faults_after};

use druid_http_message::WireFault;
use std::alloc::Global;

/// The most bytes that an exchange gives: a body and a head, each at its limit.
pub const MAX_EXCHANGE: usize = 16_793_600;

/// A way to one server, over which a request is sent and its answer comes back.
pub trait Link {
    /// One exchange: the link before it, the request, what came back, and the link after it.
    ghost exchanges: { Self → List ℕ → Came → Self → Type 0 };

    /// How often the device has failed; at 2^64 - 1 it stays.
    ghost faults: { Self → ℕ };

    /// Sends a request, and gives all bytes that come back until the other side closes.
    ///
    /// # Errors
    ///
    /// X8, X3 or X2 where the device fails, which `faults` counts; X7 of more than `MAX_EXCHANGE`
    /// bytes; X9. Leaves what a step of `exchanges` does, by which a kind of link says when which
    /// comes.
    fn exchange(&mut self, alloc: Global, request: &[u8]) -> Result<Vec<u8>, WireFault>
        ensures step { exchanges self.old request.now (came_of result) self.new }
        ensures bound { IfOk result (λ bytes. length bytes.items ≤ max_exchange) }
        ensures counted { faults self.new ≡ faults_after (came_of result) (faults self.old) }
        ensures fault { IfErr result IsLinkFault };

    /// From now on no exchange takes longer than what is left of so many milliseconds, which begin now; each has one millisecond at
    /// least. `None`: exchanges have the link's own limit alone.
    fn hasten(&mut self, millis: Option<u64>)
        ensures { self.new ≡ self.old };

    /// How often the device has failed; at 2^64 - 1 it stays.
    fn faults(&self) -> u64
        ensures { result ≡ faults self.now };
}
