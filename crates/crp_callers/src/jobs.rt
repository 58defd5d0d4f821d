//! Callers of the advice on jobs.
ghost use Rattle.std.specs.Prelude.{◌≡◌, ◌≤◌, ◌⊎◌, ◌++◌, ℕ, List, Some, codes, decimal, IfSome};
ghost use Rattle.crp_jobs.specs.Placed.{message_named};

use crp_files::Files;
use crp_jobs::{FoundLine, Job, ToolFault, found_line};
use crp_report::Fault;
use edi_text::EdiFault;
use std::alloc::Global;

/// What is said of the sixth byte of the message `UNB+ LF X`, where a fault names it: that it stands in line 2, and is an X; unless the file
/// shows fewer bytes, and then that it ends in one of the two lines.
pub fn line_on_sixth_byte<F: Files>(alloc: Global, files: &F, job: &Job<'_>) -> Option<FoundLine>
    ensures { (name : List ℕ) → message_named job.now ≡ Some name → (F.known files.now).given name ≡ Some (codes "UNB+\nX")
        → IfSome result (λ line. (line.items ≡ codes "offset 5 is at line 2: X") ⊎ ((n : ℕ) × (n ≤ 2) × (line.items ≡ codes "the file ends at line " ++ decimal n))) }
{
    let fault = ToolFault::Run(Fault::Interchange(EdiFault::Tag { offset: 5 }));
    found_line(alloc, files, job, &fault)
}
