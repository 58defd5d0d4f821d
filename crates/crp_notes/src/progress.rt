//! How far a run is: a line on a terminal that is rewritten in place, or a line for each bay.
//!
//! Nothing is proved of these lines but that they end, and nothing rests on them.
use crate::one_line::{OneLine, push_grouped};
use crate::terminal::Terminal;
use crp_bay::Position;
use crp_bounds::look_ahead;
use crp_plan::{BayName, Problem};
use crp_solve::Gate;
use crp_tree::Name;
use itoa::Buffer;
use std::alloc::{AllocError, Global};
use std::sync::atomic::{AtomicU64, Ordering};

// That no plan is known.
const NO_PLAN: u64 = u64::MAX;

/// The line of a run on its terminal, which is shown at most once in a tenth of a second. It is the gate of the searches.
#[derive(Drop)]
pub struct Progress<'a, T> {
    alloc: Global,
    terminal: &'a T,
    // Which bay is searched, and the look-ahead bound of its first position.
    bay: Vec<u8>,
    lower: u32,
    positions: AtomicU64,
    // The fewest relocations of a plan that is known.
    planned: AtomicU64,
    line: OneLine,
}

// Which bay is searched, behind so many others of so many in all.
fn bay_words(
    alloc: Global,
    bay: &BayName,
    behind: usize,
    bays: usize,
) -> Result<Vec<u8>, AllocError> {
    let (mut number, mut all, mut name) = (Buffer::new(), Buffer::new(), Buffer::new());
    let parts: [&[u8]; 7] = [
        b"bay ",
        number.format(behind.saturating_add(1)).as_bytes(),
        b" of ",
        all.format(bays).as_bytes(),
        b", ",
        bay.block(),
        b" ",
    ];
    let mut words = Vec::new(alloc);
    for part in parts {
        words.extend_from_slice(part)?;
    }
    words.extend_from_slice(name.format(bay.bay()).as_bytes())?;
    Ok(words)
}

/// The line for a bay that is searched, behind so many others of so many in all.
pub(crate) fn bay_line(
    alloc: Global,
    bay: &BayName,
    behind: usize,
    bays: usize,
) -> Result<Vec<u8>, AllocError> {
    let words = bay_words(alloc, bay, behind, bays)?;
    let mut line = Vec::from_slice(alloc, b"crp: ")?;
    line.extend_from_slice(&words)?;
    line.push(b'\n')?;
    Ok(line)
}

// Adds the bounds on the relocations of a bay.
fn push_bounds(text: &mut Vec<u8>, lower: u32, planned: u64) -> Result<(), AllocError> {
    let (mut least, mut most) = (Buffer::new(), Buffer::new());
    if planned == NO_PLAN {
        text.extend_from_slice(b", at least ")?;
        return text.extend_from_slice(least.format(lower).as_bytes());
    }
    text.extend_from_slice(b", between ")?;
    text.extend_from_slice(least.format(lower).as_bytes())?;
    text.extend_from_slice(b" and ")?;
    text.extend_from_slice(most.format(planned).as_bytes())
}

impl<'a, T: Terminal> Progress<'a, T> {
    /// No bay yet.
    pub fn new(alloc: Global, terminal: &'a T) -> Progress<'a, T> {
        Progress {
            alloc,
            terminal,
            bay: Vec::new(alloc),
            lower: 0,
            positions: AtomicU64::new(0),
            planned: AtomicU64::new(NO_PLAN),
            line: OneLine::new(),
        }
    }

    /// Whether there is a terminal.
    pub fn is_there(&self) -> bool {
        self.terminal.is_there()
    }

    /// The search of a bay begins, behind so many others of so many in all.
    pub fn begin(&mut self, bay: &BayName, problem: &Problem, behind: usize, bays: usize) {
        if !self.is_there() {
            return;
        }
        self.bay = bay_words(self.alloc, bay, behind, bays).unwrap_or(Vec::new(self.alloc));
        self.lower = look_ahead(&Position::start(problem));
        self.positions.store(0, Ordering::Relaxed);
        self.planned.store(NO_PLAN, Ordering::Relaxed);
        self.show();
    }

    /// Takes the line away.
    pub fn clear(&self) {
        self.line.clear(self.terminal);
    }

    // The text of the line.
    fn text(&self) -> Result<Vec<u8>, AllocError> {
        let mut text = Vec::from_slice(self.alloc, &self.bay)?;
        text.extend_from_slice(b": ")?;
        push_grouped(&mut text, self.positions.load(Ordering::Relaxed))?;
        text.extend_from_slice(b" positions")?;
        push_bounds(&mut text, self.lower, self.planned.load(Ordering::Relaxed))?;
        Ok(text)
    }

    // Shows the line, where it is due.
    fn show(&self) {
        if !self.line.is_due(self.terminal) {
            return;
        }
        if let Ok(text) = self.text() {
            self.line.show(self.alloc, self.terminal, &text);
        }
    }
}

impl<T: Terminal> Gate for Progress<'_, T> {
    fn begun(&self, _worker: u32, _task: &Name) {
        self.show();
    }

    fn planned(&self, relocations: u32) {
        self.planned
            .fetch_min(u64::from(relocations), Ordering::Relaxed);
        self.show();
    }

    fn claimed(&self, positions: u32) {
        self.positions
            .fetch_add(u64::from(positions), Ordering::Relaxed);
        self.show();
    }

    fn looks_first(&self) -> bool {
        true
    }
}
