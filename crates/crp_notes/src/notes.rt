//! The notes of a run.
ghost use Rattle.crp_report.specs.Watching.{ShowsMore};

use crate::bays::bay_note;
use crate::containers::absent_names;
use crate::lines::Lines;
use crate::message::{MAX_LISTED, Says, handling_codes, is_original, messages, said_by, words_of};
use crate::progress::{Progress, bay_line};
use crate::sizes::{Size, keep_answer, sizes_before};
use crate::slots::shared_note;
use crate::standing::Standing;
use crate::terminal::Terminal;
use crate::unknown::{has_bay, has_message};
use crate::unlisted::unlisted_note_on;
use crate::unread::unread_notes;
use crate::wording::{
    absent_note, alike_note, codes_note, function_note, messages_note, no_codes_note, size_note,
    unknown_bay_note, unknown_message_note,
};
use crp_movins::Loading;
use crp_order::{BayProblem, Mode, Sequence, alike};
use crp_plan::{BayName, Sink};
use crp_report::{Clock, InputSettings, RunSettings, Watch, show};
use crp_solve::{Answer, Solved};
use crp_yard::Yard;
use edi_text::Segments;
use std::alloc::Global;

// Notes bays of one size that are planned with places beyond which nothing stands.
fn note_size<E: Sink>(alloc: Global, lines: &mut Lines, size: &Size, errors: &mut E)
    ensures { ShowsMore (E.contents errors.old) (E.contents errors.new) }
{
    if let Ok(Some(note)) = size.note(alloc) {
        lines.note(errors, Ok(note));
    }
}

// Notes them size by size.
fn note_sizes<E: Sink>(alloc: Global, lines: &mut Lines, sizes: &[Size], errors: &mut E)
    ensures { ShowsMore (E.contents errors.old) (E.contents errors.new) }
{
    for size in sizes {
        note_size(alloc, lines, size, errors);
    }
}

/// The notes of a run: what was noticed of its input and of its bays; and how far it is.
#[derive(Drop)]
pub struct Notes<'a, T> {
    lines: Lines,
    largest: usize,
    certificates: usize,
    // What is kept of each size of the yard's bays; nothing, where memory ran out.
    sizes: Vec<Size>,
    progress: Progress<'a, T>,
    // Whether a line for each bay is wanted where there is no terminal.
    bay_lines: bool,
    terminal: &'a T,
}

impl<'a, T: Terminal> Notes<'a, T> {
    /// No notes yet. A check takes no more than `largest` bytes of certificates in one file; `usize::MAX` where none is written.
    /// How far the run is, is shown on the terminal; where there is none, by a line for each bay, if these are wanted.
    pub fn new(alloc: Global, largest: usize, terminal: &'a T, bay_lines: bool) -> Notes<'a, T> {
        Notes {
            lines: Lines::new(),
            largest,
            certificates: 0,
            sizes: Vec::new(alloc),
            progress: Progress::new(alloc, terminal),
            bay_lines,
            terminal,
        }
    }

    // What a message that is read says of its function, where that is no original's.
    fn function<E: Sink>(
        &mut self,
        alloc: Global,
        standing: &Standing<'_>,
        says: Says<'_>,
        errors: &mut E,
    )
        ensures { ShowsMore (E.contents errors.old) (E.contents errors.new) }
    {
        let Says::Function(function) = says else {
            return;
        };
        if standing.is_read && !is_original(function) {
            let note = function_note(alloc, standing.messages, function, words_of(function));
            self.lines.note(errors, note);
        }
    }

    // Messages that are read and say that they are no original.
    fn functions<E: Sink>(
        &mut self,
        alloc: Global,
        segments: &Segments,
        loading: &Loading,
        errors: &mut E,
    )
        ensures { ShowsMore (E.contents errors.old) (E.contents errors.new) }
    {
        let mut standing = Standing::start();
        for i in 0..segments.count() {
            let says = said_by(segments, i + 1);
            standing = standing.after(&says, loading);
            self.function(alloc, &standing, says, errors);
        }
    }

    // A reference that the words name, and no message has.
    fn message_named<E: Sink>(
        &mut self,
        alloc: Global,
        segments: &Segments,
        reference: &[u8],
        errors: &mut E,
    )
        ensures { ShowsMore (E.contents errors.old) (E.contents errors.new) }
    {
        if !has_message(segments, reference) {
            self.lines
                .note(errors, unknown_message_note(alloc, reference));
        }
    }

    // References that the words name, and no message has.
    fn messages_named<E: Sink>(
        &mut self,
        alloc: Global,
        segments: &Segments,
        loading: &Loading,
        errors: &mut E,
    )
        ensures { ShowsMore (E.contents errors.old) (E.contents errors.new) }
    {
        for reference in loading.messages() {
            self.message_named(alloc, segments, reference.bytes(), errors);
        }
    }

    // A bay that the words name, and the yard has not.
    fn bay_named<E: Sink>(&mut self, alloc: Global, yard: &Yard, name: &BayName, errors: &mut E)
        ensures { ShowsMore (E.contents errors.old) (E.contents errors.new) }
    {
        if !has_bay(yard, name) {
            self.lines.note(errors, unknown_bay_note(alloc, name));
        }
    }

    // Bays that the words name, and the yard has not.
    fn bays_named<E: Sink>(&mut self, alloc: Global, yard: &Yard, names: &[BayName], errors: &mut E)
        ensures { ShowsMore (E.contents errors.old) (E.contents errors.new) }
    {
        for name in names {
            self.bay_named(alloc, yard, name, errors);
        }
    }

    // No order under the loading code.
    fn codes<E: Sink>(
        &mut self,
        alloc: Global,
        segments: &Segments,
        sequence: &Sequence,
        settings: &InputSettings,
        errors: &mut E,
    )
        ensures { ShowsMore (E.contents errors.old) (E.contents errors.new) }
    {
        let loading = settings.loading();
        let is_read = loading.messages().is_empty() || messages(segments, loading) > 0;
        let is_for_all = settings.bays().is_empty() && is_read;
        if !is_for_all || !sequence.list().is_empty() {
            return;
        }
        let code = loading.code();
        let Ok((found, more)) = handling_codes(alloc, segments, loading) else {
            return;
        };
        let note = if found.is_empty() {
            no_codes_note(alloc, code)
        } else {
            codes_note(alloc, code, &found, more)
        };
        self.lines.note(errors, note);
    }

    // Orders that are not read, since they stand under another handling code.
    fn unread<E: Sink>(
        &mut self,
        alloc: Global,
        segments: &Segments,
        loading: &Loading,
        errors: &mut E,
    )
        ensures { ShowsMore (E.contents errors.old) (E.contents errors.new) }
    {
        let Ok(notes) = unread_notes(alloc, segments, loading) else {
            return;
        };
        for note in notes {
            self.lines.note(errors, Ok(note));
        }
    }

    // Several messages whose containers are mixed.
    fn mixed<E: Sink>(
        &mut self,
        alloc: Global,
        segments: &Segments,
        settings: &InputSettings,
        errors: &mut E,
    )
        ensures { ShowsMore (E.contents errors.old) (E.contents errors.new) }
    {
        let messages = messages(segments, settings.loading());
        if settings.mode() == Mode::Stowage && messages > 1 {
            self.lines.note(errors, messages_note(alloc, messages));
        }
    }

    // Slots that several orders name.
    fn slots<E: Sink>(
        &mut self,
        alloc: Global,
        segments: &Segments,
        loading: &Loading,
        errors: &mut E,
    )
        ensures { ShowsMore (E.contents errors.old) (E.contents errors.new) }
    {
        if let Ok(Some(note)) = shared_note(alloc, segments, loading) {
            self.lines.note(errors, Ok(note));
        }
    }

    // A name that is like that of an absent container.
    fn alike_one<E: Sink>(&mut self, alloc: Global, yard: &Yard, name: &[u8], errors: &mut E)
        ensures { ShowsMore (E.contents errors.old) (E.contents errors.new) }
    {
        if let Ok(Some(other)) = alike(alloc, yard, name) {
            self.lines.note(errors, alike_note(alloc, name, other));
        }
    }

    // Names that are like those of absent containers.
    fn alike<E: Sink>(&mut self, alloc: Global, yard: &Yard, names: &[&[u8]], errors: &mut E)
        ensures { ShowsMore (E.contents errors.old) (E.contents errors.new) }
    {
        for name in names {
            self.alike_one(alloc, yard, name, errors);
        }
    }

    // Ordered containers that are not in the yard.
    fn absent<E: Sink>(&mut self, alloc: Global, yard: &Yard, sequence: &Sequence, errors: &mut E)
        ensures { ShowsMore (E.contents errors.old) (E.contents errors.new) }
    {
        let Ok(names) = absent_names(alloc, yard, sequence) else {
            return;
        };
        if names.is_empty() {
            return;
        }
        let first = &names[..names.len().min(MAX_LISTED)];
        let more = names.len() > MAX_LISTED;
        self.lines
            .note(errors, absent_note(alloc, names.len(), first, more));
        self.alike(alloc, yard, &names, errors);
    }

    // Bays that the list of sizes leaves out.
    fn unlisted<E: Sink>(&mut self, alloc: Global, yard: &Yard, errors: &mut E)
        ensures { ShowsMore (E.contents errors.old) (E.contents errors.new) }
    {
        if let Ok(Some(note)) = unlisted_note_on(alloc, yard) {
            self.lines.note(errors, Ok(note));
        }
    }

    // A bay that is answered, maybe with a plan.
    fn keep(&mut self, alloc: Global, bay: &BayName, answer: &Answer) {
        if keep_answer(alloc, &mut self.sizes, bay, answer).is_err() {
            self.sizes = Vec::new(alloc);
        }
    }

    // A bay that is left open, or has no plan.
    fn bay<E: Sink>(&mut self, alloc: Global, bay: &BayProblem, answer: &Answer, errors: &mut E)
        ensures { ShowsMore (E.contents errors.old) (E.contents errors.new) }
    {
        if let Ok(Some(note)) = bay_note(alloc, &bay.bay, answer, self.terminal.was_stopped()) {
            self.lines.note(errors, Ok(note));
        }
    }

    // One certificate more, with which the file may grow past what a check takes.
    fn size<E: Sink>(&mut self, alloc: Global, bay: &BayProblem, bytes: usize, errors: &mut E)
        ensures { ShowsMore (E.contents errors.old) (E.contents errors.new) }
    {
        let before = self.certificates;
        self.certificates = before.saturating_add(bytes);
        if before <= self.largest && self.largest < self.certificates {
            self.lines
                .note(errors, size_note(alloc, self.largest, &bay.bay));
        }
    }
}

impl<'a, T: Terminal + Sync> Watch for Notes<'a, T> {
    type Gate = Progress<'a, T>;

    fn gate(&self) -> &Progress<'a, T> {
        &self.progress
    }

    fn accepts<E: Sink>(
        &mut self,
        alloc: Global,
        yard: &Yard,
        segments: &Segments,
        sequence: &Sequence,
        settings: &RunSettings,
        errors: &mut E,
    ) {
        let input = settings.input();
        let loading = input.loading();
        self.messages_named(alloc, segments, loading, errors);
        self.bays_named(alloc, yard, input.bays(), errors);
        self.functions(alloc, segments, loading, errors);
        self.codes(alloc, segments, sequence, input, errors);
        self.unread(alloc, segments, loading, errors);
        self.mixed(alloc, segments, input, errors);
        self.slots(alloc, segments, loading, errors);
        self.absent(alloc, yard, sequence, errors);
        self.unlisted(alloc, yard, errors);
        self.sizes = sizes_before(alloc, yard).unwrap_or(Vec::new(alloc));
    }

    fn begins<E: Sink>(
        &mut self,
        alloc: Global,
        bay: &BayProblem,
        behind: usize,
        bays: usize,
        errors: &mut E,
    ) {
        self.progress.begin(&bay.bay, &bay.problem, behind, bays);
        if !self.bay_lines || self.progress.is_there() {
            return;
        }
        if let Ok(line) = bay_line(alloc, &bay.bay, behind, bays) {
            show(errors, &line);
        }
    }

    fn searched(&mut self) {
        self.progress.clear();
    }

    fn answers<E: Sink>(
        &mut self,
        alloc: Global,
        bay: &BayProblem,
        solved: &Solved,
        bytes: usize,
        errors: &mut E,
    ) {
        self.bay(alloc, bay, &solved.answer, errors);
        self.size(alloc, bay, bytes, errors);
        self.keep(alloc, &bay.bay, &solved.answer);
    }

    fn ends<E: Sink>(&mut self, alloc: Global, errors: &mut E) {
        self.progress.clear();
        note_sizes(alloc, &mut self.lines, &self.sizes, errors);
        self.lines.end(alloc, errors);
    }
}
