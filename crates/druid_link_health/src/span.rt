//! How long an exchange took, and whether a query let it take longer. A query of little time marks
//! no node that takes longer than it has; syncers, who have the whole patience, mark one that
//! hangs.
ghost use Rattle.std.specs.Prelude.{◌≡◌};
ghost use Rattle.druid_link_health.specs.Spans.{is_cut, is_late};

use druid_http_message::WireFault;

// Whether an exchange ended so since its time was over, as far as its fault tells.
pub(crate) fn is_late(ended: Result<(), WireFault>) -> bool
    ensures { result ≡ is_late ended }
{
    match ended {
        Err(WireFault::Read | WireFault::Connect) => true,
        Ok(())
        | Err(
            WireFault::Cut
            | WireFault::Write
            | WireFault::BadHead
            | WireFault::HeadTooLong
            | WireFault::NoLength
            | WireFault::BodyTooLong
            | WireFault::Memory,
        ) => false,
    }
}

// When an exchange began and when it ended, and by when its query is to be answered, if it says so, in milliseconds of one clock.
#[derive(Clone, Copy)]
pub(crate) struct Span {
    pub(crate) began: u64,
    pub(crate) ended: u64,
    pub(crate) deadline: Option<u64>,
}

impl Span {
    // Whether its query's deadline cut an exchange short that might have taken so long.
    pub(crate) fn is_cut(self, patience: u64) -> bool
        ensures { result ≡ is_cut patience self.began self.ended self.deadline }
    {
        match self.deadline {
            Some(deadline) => {
                deadline <= self.ended && deadline.saturating_sub(self.began) < patience
            }
            None => false,
        }
    }
}
