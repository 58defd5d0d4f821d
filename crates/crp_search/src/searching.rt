//! Search for the fewest relocations.
ghost use Rattle.std.specs.Prelude.{◌≡◌, ◌≤◌, ◌++◌, ◌∷◌, [], length, All, IfOk, refl};
ghost use Rattle.std.proofs.Common.{◌∙◌};
ghost use Rattle.crp_plan.specs.Bay.{IsAt, Position as Place};
ghost use Rattle.crp_plan.specs.Faults.{IsPlanPath};
ghost use Rattle.crp_tree.specs.Parts.{IsKeptPart, given_of, cuts_in, branches_in, nodes_of};
ghost use Rattle.crp_search.specs.Limits.{Advances};
ghost use Rattle.crp_search.specs.Searched.{Grants, IsClosed, NeedsLookAhead, IsBelow, AreHeldAlong, IsShort, PutsMore};

use crate::limit::Limit;
use crate::reasons::{Reasons, Thinning, Way};
use crate::seeking::Seek;
use crate::walk_end::WalkEnd;
use crate::walking::walk;
use crp_bay::Position;
use crp_plan::{Plan, Problem};
use crp_tree::{Name, Part};
use std::alloc::{AllocError, Global};

/// Offers the plan.
fn offer_plan<L: Limit>(plan: &Plan, limit: &mut L)
    requires problem { plan.now.problem ≡ L.problem limit.old }
    requires whole { IsPlanPath (L.problem limit.old) plan.now.path }
    ensures seen { (L.view limit.new).seen ≤ length plan.now.path }
    ensures advances { Advances (L.problem limit.old) (L.view limit.old) (L.view limit.new) }
    ensures claims { ((L.view limit.new).granted ≡ (L.view limit.old).granted) × ((L.view limit.new).refused ≡ (L.view limit.old).refused) }
    ensures same { (L.problem limit.new ≡ L.problem limit.old) × (L.budget limit.new ≡ L.budget limit.old) × (L.puts limit.new ≡ L.puts limit.old) }
{
    limit.offer(plan);
}

/// Looks for plans of fewer relocations than the limit says, which falls as they are offered.
#[derive(Drop)]
struct SeekFewest {
    reasons: Reasons,
}

impl Seek for SeekFewest {
    ghost use Rattle.crp_search.specs.declared.walk_end.WalkEnd.TheVariants.{Memory};
    ghost use Rattle.crp_search.specs.Searched.{IsSearchedSoFar};
    ghost use Rattle.crp_search.specs.Meeting.{none_met, one_met, met_any, more_met_as};

    ghost bar = { λ _ view. view.seen };

    ghost ready = { λ _ _. Unit {0} };

    ghost text = { λ a. a.reasons.text.items };

    ghost meets = { λ p split a old b new met. (b.reasons.thinning ≡ a.reasons.thinning) × IsSearchedSoFar p split a.reasons.thinning.most old new met };

    ghost ends = { λ p split a old b new met end. (end ≡ Memory) × (b.reasons.thinning ≡ a.reasons.thinning) × IsSearchedSoFar p split a.reasons.thinning.most old new met };

    fn enough<L: Limit>(&mut self, limit: &mut L) -> u64 {
        limit.see()
    }

    fn finish<L: Limit>(&mut self, plan: Plan, limit: &mut L) {
        offer_plan(&plan, limit);
    }

    #[inline(always)]
    fn go_on<L: Limit>(
        &mut self,
        position: &Position,
        need: u64,
        limit: &mut L,
    ) -> Result<Way, WalkEnd> {
        let way = self.reasons.go_on(position, need, limit)?;
        Ok(way)
    }

    fn text(&self) -> &[u8] {
        self.reasons.text()
    }

    ghost none = { λ p split a d. (refl, none_met p split a.reasons.thinning.most d) };

    ghost one = { λ p split a d e node met only held. (refl, one_met p split a.reasons.thinning.most d e node (met_any split a.reasons.thinning.most d e (node ∷ []) met) only held) };

    ghost onward = { λ p split a b c d e f xs ys so_far more. (more.0 ∙ so_far.0, more_met_as p split a.reasons.thinning b.reasons.thinning d e f xs ys so_far.0 so_far.1 more.1) };

    ghost ended = { λ p split a b c d e f xs ys _ so_far more. (more.0, more.1 ∙ so_far.0, more_met_as p split a.reasons.thinning b.reasons.thinning d e f xs ys so_far.0 so_far.1 more.2) };

    ghost short = { λ _ _ _ _ _ _ _ so_far. (refl, so_far.0, so_far.1) };

    ghost placed = { λ _ _ _ _ _ _ _ so_far. so_far.1.dealings.in_place };

    ghost still = { λ _ _ _ _ _ _ _ _ _. tt };
}

/// Searches the part of this name. The name must be a path of the problem, and the limit be of the problem.
///
/// At a path the limit is seen, and a bound suffices that reaches it. A finished path's plan is offered where it has fewer
/// relocations. Where no bound suffices, reasons are looked for, with a claim for each thinned branch; at a node that they do not close
/// one more is claimed, for a branch. Where a claim is refused the node is a cut, by the blocking bound where both are equal, else by the look-ahead
/// bound. For the rest, how a part is searched, see `walk`.
pub fn search<L: Limit>(
    alloc: Global,
    problem: &Problem,
    name: Name,
    limit: &mut L,
    split: u8,
    thinning: Thinning,
) -> Result<Part, AllocError>
    requires problem { problem.now ≡ L.problem limit.old }
    requires path { (s : Place) × IsAt problem.now name s }

    // The part, its tree and its floor.
    ensures problem { IfOk result (λ part. part.problem ≡ problem.now) }
    ensures name { IfOk result (λ part. part.name ≡ name) }
    ensures part { IfOk result (λ part. IsKeptPart part) }

    // What it took from the limit, and what it left there.
    ensures grants { IfOk result (λ part. Grants thinning.most (L.view limit.old).granted (length (branches_in part)) (L.view limit.new).granted) }
    ensures puts { IfOk result (λ part. L.puts limit.new ≡ L.puts limit.old ++ given_of part) }
    ensures short { IfOk result (λ part. All (IsShort split) (given_of part)) }
    ensures cuts { IfOk result (λ part. All (IsClosed (L.view limit.new)) (cuts_in part)) }
    ensures look_ahead { IfOk result (λ part. All (NeedsLookAhead (L.view limit.old).seen) (cuts_in part)) }
    ensures branches { IfOk result (λ part. All (IsBelow (L.view limit.old).seen) (branches_in part)) }

    // In the order of the nodes: each was met while the limit seen last was so much, which never rose.
    ensures along { IfOk result (λ part. AreHeldAlong (L.view limit.new).refused (L.view limit.old).seen (L.view limit.new).seen (nodes_of part)) }

    // Whether memory lasted or not.
    ensures advances { Advances problem.now (L.view limit.old) (L.view limit.new) }
    ensures same { (L.problem limit.new ≡ L.problem limit.old) × (L.budget limit.new ≡ L.budget limit.old) }
    ensures more_puts { PutsMore (L.puts limit.old) (L.puts limit.new) }
{
    let mut seek = SeekFewest {
        reasons: Reasons::new(alloc, thinning),
    };
    match walk(alloc, problem, name, &mut seek, limit, split) {
        Ok(part) => Ok(part),
        Err(WalkEnd::Memory) => Err(AllocError),
        Err(WalkEnd::Refused) => unreachable!(),
    }
}
