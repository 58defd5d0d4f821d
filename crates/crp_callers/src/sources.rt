//! Certificates out of sources.

ghost use Rattle.std.specs.Prelude.{◌≤◌, ◌+◌, [], ℕ, List, IfSome, length};
ghost use Rattle.crp_plan.specs.Devices.{most_interruptions};
ghost use Rattle.crp_cert.specs.Text.{head_text};
ghost use Rattle.crp_checker.specs.Reading.{IsLeft, AreTaken};

use crp_cert::{Head, head_from};
use crp_checker::Unread;
use crp_plan::{ReadFault, Source};
use std::alloc::Global;

/// The head that the bytes begin with, and how many of them are not read: all but the head, and at most 4096 behind it.
pub fn head_and_unread(alloc: Global, bytes: &[u8]) -> Option<(Head, usize)>
    ensures { IfSome result (λ found. length bytes.now ≤ length (head_text found.0) + 4096 + found.1) }
{
    let mut source = bytes;
    let mut interruptions = 0;
    let Ok(Ok(head)) = head_from(alloc, &mut source, usize::MAX, &mut interruptions) else {
        return None;
    };
    Some((head, source.len()))
}

/// Whether a byte of a file is left, asked for once more where memory was lacking: nothing is lost by that.
pub fn fill_once_more<R: Source>(
    source: &mut R,
    unread: &mut Unread,
    interruptions: &mut u32,
) -> Result<bool, ReadFault>
    requires some { (left : List ℕ) × IsLeft (R.remaining source.old) unread.old left }
    requires passed { interruptions.old ≤ most_interruptions }
    ensures { AreTaken (R.remaining source.old) unread.old [] (R.remaining source.new) unread.new }
{
    match unread.fill(source, interruptions) {
        Err(ReadFault::Memory) => unread.fill(source, interruptions),
        other => other,
    }
}
