//! What is kept of the bays of one size: where containers stand in them, and which of them are planned with places beyond.
ghost use Rattle.std.specs.Prelude.{◌≡◌, ◌∷◌, ◌++◌, [], List, IfOk, OnOk};
ghost use Rattle.std.specs.Option.{option_map};
ghost use Rattle.crp_yard.specs.Inventory.{Inventory};
ghost use Rattle.crp_solve.specs.Answers.{plan_of};
ghost use Rattle.crp_notes.specs.Beyond.{Planned, note_on};
ghost use Rattle.crp_notes.specs.Kept.{IsKept};

use crate::reaching::go_beyond;
use crate::rows::{highest_of, sizes_of};
use crate::wording::beyond_note;
use crp_plan::{BayName, Move, Plan, Problem};
use crp_solve::Answer;
use crp_yard::Yard;
use std::alloc::{AllocError, Global};

/// The bays of one size: the heights of their rows, the last row and the highest tier at which a container of the yard stands in one of
/// them, and those whose plans put a container into a row beyond, or above that tier.
#[derive(Drop)]
pub(crate) struct Size {
    heights: Vec<u8>,
    row: u8,
    tier: usize,
    beyond: Vec<BayName>,
}

impl Size {
    // The bays of this size, before one is planned.
    fn of(alloc: Global, yard: &Yard, heights: &[u8]) -> Result<Size, AllocError>
        ensures size { IfOk result (λ size. size.heights.items ≡ heights.now) }
        ensures kept { IfOk result (IsKept yard.now []) }
    {
        let (row, tier) = highest_of(yard, heights);
        let heights = Vec::from_slice(alloc, heights)?;
        Ok(Size {
            heights,
            row,
            tier,
            beyond: Vec::new(alloc),
        })
    }

    // With a bay more that is planned by these moves.
    fn add(&mut self, bay: &BayName, problem: &Problem, moves: &[Move]) -> Result<(), AllocError>
        ensures { OnOk result ((yard : Inventory) (planned : List Planned) → IsKept yard planned self.old
            → IsKept yard (planned ++ record { bay = bay.now; problem = problem.now; moves = moves.now } ∷ []) self.new) }
    {
        if problem.heights() == self.heights.as_slice()
            && go_beyond(problem, moves, self.row, self.tier)
        {
            self.beyond.push(bay.copy())?;
        }
        Ok(())
    }

    /// The note on them, if there is one.
    pub fn note(&self, alloc: Global) -> Result<Option<Vec<u8>>, AllocError>
        ensures { (yard : Inventory) (planned : List Planned) → IsKept yard planned self.now
            → IfOk result (λ note. option_map (λ text. text.items) note ≡ note_on yard planned self.now.heights.items) }
    {
        let (heights, count) = (self.heights.as_slice(), self.beyond.len());
        let Some(first) = self.beyond.first() else {
            return Ok(None);
        };
        let note = beyond_note(alloc, heights, first, count, self.row, self.tier)?;
        Ok(Some(note))
    }
}

/// What is kept of each size of the bays of a yard, before one of them is planned.
pub(crate) fn sizes_before(alloc: Global, yard: &Yard) -> Result<Vec<Size>, AllocError> {
    let mut sizes = Vec::new(alloc);
    for heights in &sizes_of(alloc, yard)? {
        sizes.push(Size::of(alloc, yard, heights)?)?;
    }
    Ok(sizes)
}

// The plan that an answer gives, if it gives one.
fn plan_of(answer: &Answer) -> Option<&Plan>
    ensures { option_map (λ plan. plan.now.path) result ≡ plan_of answer.now }
{
    match answer {
        Answer::Optimal { plan, .. } | Answer::First { plan, .. } => Some(plan),
        Answer::NoPlan { .. } => None,
        Answer::Between { plan, .. } => plan.as_ref(),
    }
}

/// Keeps that a bay is answered.
pub(crate) fn keep_answer(
    alloc: Global,
    sizes: &mut Vec<Size>,
    bay: &BayName,
    answer: &Answer,
) -> Result<(), AllocError> {
    let Some(plan) = plan_of(answer) else {
        return Ok(());
    };
    let moves = plan.moves(alloc)?;
    for i in 0..sizes.len() {
        sizes[i].add(bay, plan.problem(), &moves)?;
    }
    Ok(())
}
