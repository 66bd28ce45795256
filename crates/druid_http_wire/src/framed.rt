//! The head of a message, in bytes that are at hand: what a link gave at once has no device that
//! may fail.
ghost use Rattle.std.specs.Prelude.{◌≡◌, ◌∷◌, ◌++◌, IfSome, IfNone, IfOk, IfErr};
ghost use Rattle.druid_http_wire.specs.Frame.{IsPlain, IsFramed};
ghost use Rattle.druid_http_wire.specs.Messages.{IsOfBytes};
ghost use Rattle.druid_http_wire.specs.HeadParts.{LacksHead};

use crate::frame::is_blank;
use crate::limits::MAX_HEAD;
use druid_http_message::WireFault;

// The first line, without its line feed, and what follows it; or none where no line ends.
#[tactic(auto, using(crate::proofs::SplitLemmas::parted))]
fn split_line(bytes: &[u8]) -> Option<(&[u8], &[u8])>
    ensures some { IfSome result (λ parts. IsPlain parts.0.now × (bytes.now ≡ parts.0.now ++ 10 ∷ parts.1.now)) }
    ensures none { IfNone result (IsPlain bytes.now) }
{
    for i in 0..bytes.len() {
        if bytes[i] == b'\n' {
            let (line, _) = bytes.split_at(i);
            let (_, beyond) = bytes.split_at(i + 1);
            return Some((line, beyond));
        }
    }
    None
}

// The head, after blank lines, and what follows it.
pub(crate) fn split_head(bytes: &[u8]) -> Result<(&[u8], &[u8]), WireFault>
    ensures ok { IfOk result (λ parts. IsFramed bytes.now parts.0.now parts.1.now) }
    ensures err { IfErr result (LacksHead bytes.now) }
    ensures never { IfErr result IsOfBytes }
{
    // The bytes from the head on, and those after the lines of it that were passed. The limit counts the blank lines before it.
    let mut text = bytes;
    let mut rest = bytes;
    while let Some((line, beyond)) = split_line(rest) {
        if MAX_HEAD < bytes.len() - beyond.len() {
            return Err(WireFault::HeadTooLong);
        }
        if !is_blank(line, 0) {
            rest = beyond;
            continue;
        }
        if rest.len() < text.len() {
            let (head, _) = text.split_at(text.len() - beyond.len());
            return Ok((head, beyond));
        }
        text = beyond;
        rest = beyond;
    }
    if bytes.len() <= MAX_HEAD {
        return Err(WireFault::Cut);
    }
    Err(WireFault::HeadTooLong)
}
