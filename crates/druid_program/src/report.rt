//! What the program reports of its end: the line of a fault, and why, in a second line below it.
ghost use Rattle.std.specs.Prelude.{◌≡◌, ◌∷◌, ◌++◌, [], OnOk, IfSome, option_map, string_bytes};
ghost use Rattle.std.specs.Io.KnownBytes.{Appends};
ghost use Rattle.druid_program.specs.Exits.{status_of};
ghost use Rattle.druid_program.specs.Reasons.{Reports, reason_line};

use crate::{Ending, Exit};
use std::alloc::Global;
use std::fmt::Display;
use std::io;
use std::io::Write;

// The text of a reason, on one line; None where memory runs out, and then the reason is left out.
fn reason_text<T: Display>(alloc: Global, reason: &T) -> Option<String> {
    let Ok(text) = format!(in alloc; "{reason}") else {
        return None;
    };
    text.replace(alloc, "\n", " ").ok()
}

// Writes the line of a fault, and that of a reason below it, if there is one.
fn write_end<F: Display, E: Write>(
    errors: &mut E,
    fault: &F,
    reason: Option<String>,
) -> io::Result<()>
    ensures { IfSome (F.output fault.now) (λ text. OnOk result (Appends (E.contents errors.old) (E.contents errors.new)
        ((text ++ 10 ∷ []) ++ reason_line (option_map string_bytes reason)))) }
{
    writeln!(errors, "{fault}")?;
    match reason {
        Some(text) => writeln!(errors, "  {text}"),
        None => Ok(()),
    }
}

/// Ends so, and reports the line of a fault; where `explain` is set, why stands below it, in a line that is indented, unless
/// memory ran out for it.
pub(crate) fn report<F: Display, T: Display, E: Write>(
    alloc: Global,
    errors: &mut E,
    exit: Exit,
    fault: &F,
    reason: Option<&T>,
    explain: bool,
) -> Ending
    ensures status { result.status ≡ status_of exit }
    ensures reported { IfSome (F.output fault.now) (λ text. OnOk result.reported
        (Reports explain (E.contents errors.old) (E.contents errors.new) (text ++ 10 ∷ []))) }
{
    let reason = match reason {
        Some(reason) if explain => reason_text(alloc, reason),
        _ => None,
    };
    Ending {
        status: exit.status(),
        reported: write_end(errors, fault, reason),
    }
}
