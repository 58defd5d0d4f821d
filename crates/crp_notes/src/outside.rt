//! The moves of a report that are not of the restricted rule.
ghost use Rattle.std.specs.Prelude.{◌≡◌, IfOk};
ghost use Rattle.crp_report.specs.Watching.{ShowsMore};
ghost use Rattle.crp_notes.specs.Outside.{outside_note};

use crate::lines::Lines;
use crate::wording::{bay_words, note_of};
use crp_follow::OutsideMove;
use crp_plan::Sink;
use itoa::Buffer;
use std::alloc::{AllocError, Global};

// The note on a bay, with the line of its first move that is not of the rule.
fn outside_note(alloc: Global, outside: &OutsideMove) -> Result<Vec<u8>, AllocError>
    ensures { IfOk result (λ text. text.items ≡ outside_note outside.now.bay outside.now.line) }
{
    let mut digits = Buffer::new();
    let bay = bay_words(alloc, &outside.bay)?;
    let parts: [&[u8]; 4] = [
        &bay,
        b": line ",
        digits.format(outside.line).as_bytes(),
        b" is outside the rule: the next take is not from its row",
    ];
    note_of(alloc, parts.as_slice())
}

/// Notes the bays of a report that have a move which is not of the restricted rule, a line for each.
pub fn note_outside<E: Sink>(alloc: Global, outside: &[OutsideMove], errors: &mut E)
    ensures { ShowsMore (E.contents errors.old) (E.contents errors.new) }
{
    let mut lines = Lines::new();
    for found in outside {
        lines.note(errors, outside_note(alloc, found));
    }
    lines.end(alloc, errors);
}
