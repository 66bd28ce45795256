//! The limits of 16 MiB that exchanges met.
ghost use Rattle.std.specs.Prelude.{◌≡◌};
ghost use Rattle.druid_link_health.specs.Ceilings.{ceiling_in};

/// A limit of 16 MiB that an exchange with a node met, as its answer says.
#[derive(Clone, Copy, Debug, PartialEq, Eq)]
pub enum Ceiling {
    /// The node's answer would be longer: `TooLarge`.
    Answer,
    /// The question to the node is longer: `X7`.
    Question,
}

/// How many exchanges met each of them.
#[derive(Clone, Copy, Debug, PartialEq, Eq)]
pub struct Oversize {
    /// Answers of the node.
    pub answers: u64,
    /// Questions to it.
    pub questions: u64,
}

// The limit of which an answer tells.
pub(crate) fn ceiling_in(answer: &[u8]) -> Option<Ceiling>
    ensures { result ≡ ceiling_in answer.now }
{
    if answer.ends_with(b"{\"error\":\"TooLarge\"}") {
        return Some(Ceiling::Answer);
    }
    if answer.ends_with(b"{\"error\":\"X7\"}") {
        return Some(Ceiling::Question);
    }
    None
}
