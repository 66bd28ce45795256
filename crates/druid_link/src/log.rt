//! The exchanges of a link over a socket, for proofs. Without them each end of a link could follow
//! each start, so that a call could report exchanges that it never made. Of a server no more is
//! known than what came.
ghost use Rattle.std.specs.Prelude.{◌≡◌, List, [], ◌∷◌};
ghost use Rattle.std.specs.Borrow.{ftrue};
ghost use Rattle.druid_link.specs.Exchanged.{Exchanged};

use druid_http_message::WireFault;
use std::marker::Model;

// The exchanges that were made over a link, the newest first. Only proofs read it: it takes no room, and its methods do nothing
// at run time. That a note tells what was sent and what came is the author's word, which tests check over a double of the network.
#[derive(Drop)]
pub(crate) struct ExchangeLog {
    pub ghost made: { List Exchanged },
}

impl Model for ExchangeLog {
    ghost also_owns = { λ _. ftrue };
}

// It owns nothing.
unsafe impl Send for ExchangeLog {}

// An exchange: the request, and what came.
#[derive(Clone, Copy, Drop)]
pub(crate) struct ExchangeNote<'a> {
    pub request: &'a [u8],
    pub came: &'a Result<Vec<u8>, WireFault>,
}

impl ExchangeLog {
    ghost use Rattle.druid_link.specs.Noted.{exchange_of};

    pub(crate) fn new() -> ExchangeLog
        ensures { result.made ≡ [] }
    {
        ExchangeLog {}
    }

    pub(crate) fn then(&self, _note: &ExchangeNote<'_>) -> ExchangeLog
        ensures { result.made ≡ exchange_of _note.now ∷ self.now.made }
    {
        ExchangeLog {}
    }
}
