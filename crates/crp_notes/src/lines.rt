//! The lines of notes that a run shows.
ghost use Rattle.crp_report.specs.Watching.{ShowsMore};

use crate::wording::more_note;
use crp_plan::Sink;
use crp_report::show;
use std::alloc::{AllocError, Global};

/// The most lines of a run.
const MAX_LINES: u8 = 20;

/// The notes of a run. The first 19 are shown, the next one waits, and those behind it are counted.
#[derive(Drop)]
pub(crate) struct Lines {
    shown: u8,
    waiting: Option<Vec<u8>>,
    left_out: u64,
}

impl Lines {
    /// No notes.
    pub fn new() -> Lines {
        Lines {
            shown: 0,
            waiting: None,
            left_out: 0,
        }
    }

    /// One note more: it is shown, waits or is counted. One that could not be made is left out.
    pub fn note<E: Sink>(&mut self, errors: &mut E, note: Result<Vec<u8>, AllocError>)
        ensures { ShowsMore (E.contents errors.old) (E.contents errors.new) }
    {
        let Ok(text) = note else {
            return;
        };
        if self.shown < MAX_LINES - 1 {
            self.shown += 1;
            show(errors, &text);
        } else if self.shown < MAX_LINES {
            self.shown = MAX_LINES;
            self.waiting = Some(text);
        } else {
            self.left_out = self.left_out.saturating_add(1);
        }
    }

    /// No note comes any more: the one that waits is shown, or how many are not.
    pub fn end<E: Sink>(&mut self, alloc: Global, errors: &mut E)
        ensures { ShowsMore (E.contents errors.old) (E.contents errors.new) }
    {
        let Some(text) = self.waiting.take() else {
            return;
        };
        if self.left_out == 0 {
            show(errors, &text);
        } else if let Ok(text) = more_note(alloc, self.left_out.saturating_add(1)) {
            show(errors, &text);
        }
    }
}
