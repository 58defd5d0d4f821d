//! Search for the first plan of the fewest relocations.
ghost use Rattle.std.specs.Prelude.{◌≡◌, ◌++◌, ◌∷◌, [], length, All, IfOk, IfErr, IfSome, IfNone, refl};
ghost use Rattle.std.proofs.Common.{ap, sym, subst, ◌∙◌};
ghost use Rattle.crp_plan.specs.Bay.{IsAt, Position as Place};
ghost use Rattle.crp_tree.specs.Parts.{IsKeptPart, given_of, cuts_in, branches_in};
ghost use Rattle.crp_search.specs.Limits.{dealt};
ghost use Rattle.crp_search.specs.Searched.{Grants, NeedsLookAhead, IsBelow, IsShort, PutsMore};
ghost use Rattle.crp_search.specs.Firsts.{IsLowerBound, IsFirstHere, IsNoneHere, MeetsOwn, HoldsByOwn, OnlyClaims, EndsAs};
ghost use Rattle.crp_search.specs.FirstsFound.{CameSoFar};

use crate::first_part::FirstPart;
use crate::limit::Limit;
use crate::reasons::{Reasons, Thinning, Way};
use crate::seeking::Seek;
use crate::walk_end::WalkEnd;
use crate::walking::walk;
use crp_bay::Position;
use crp_plan::{Plan, Problem};
use crp_tree::Name;
use std::alloc::Global;

/// Looks for the first plan of so many relocations: one more suffices until it is met, and so many from then on.
#[derive(Drop)]
struct SeekFirst {
    count: u32,
    plan: Option<Plan>,
    reasons: Reasons,
}

impl Seek for SeekFirst {
    ghost use Rattle.crp_search.specs.FirstsFound.{need, IsFirstSoFar, SameSearch};
    ghost use Rattle.crp_search.specs.Meeting.{met_any};
    ghost use Rattle.crp_search.specs.FirstMeeting.{same_search, search_on, first_none, first_one, first_more_as, first_ends};

    ghost bar = { λ a _. need a.count a.plan };

    ghost ready = { λ p a. IsLowerBound p a.count };

    ghost text = { λ a. a.reasons.text.items };

    ghost meets = { λ p split a old b new met. SameSearch a.count a.reasons.thinning b.count b.reasons.thinning
        × IsFirstSoFar p a.count split a.reasons.thinning.most a.plan b.plan old new met × (new.view.refused ≡ old.view.refused) };

    ghost ends = { λ p split a old b new met end. SameSearch a.count a.reasons.thinning b.count b.reasons.thinning
        × IsFirstSoFar p a.count split a.reasons.thinning.most a.plan b.plan old new met × EndsAs old.view new.view end };

    fn enough<L: Limit>(&mut self, _limit: &mut L) -> u64 {
        match self.plan {
            Some(_) => u64::from(self.count),
            None => u64::from(self.count) + 1,
        }
    }

    fn finish<L: Limit>(&mut self, plan: Plan, _limit: &mut L) {
        self.plan = Some(plan);
    }

    fn go_on<L: Limit>(
        &mut self,
        position: &Position,
        need: u64,
        limit: &mut L,
    ) -> Result<Way, WalkEnd> {
        let way = self.reasons.go_on(position, need, limit)?;
        match way {
            Way::Refused => Err(WalkEnd::Refused),
            way => Ok(way),
        }
    }

    fn text(&self) -> &[u8] {
        self.reasons.text()
    }

    ghost none = { λ p split a d. (same_search a.count a.reasons.thinning, first_none p a.count split a.reasons.thinning.most a.plan d, refl) };

    ghost one = { λ p split a d e node met only held. (
      same_search a.count a.reasons.thinning,
      first_one p a.count split a.reasons.thinning.most a.plan d e node (met_any split a.reasons.thinning.most d e (node ∷ []) met) only held,
      ap (λ v. v.refused) only,
    ) };

    ghost onward = { λ p split a b c d e f xs ys so_far more. (search_on so_far.0 more.0, first_more_as p split so_far.0 so_far.1 more.1, more.2 ∙ so_far.2) };

    ghost ended = { λ p split a b c d e f xs ys end so_far more. (search_on so_far.0 more.0, first_more_as p split so_far.0 so_far.1 more.1, first_ends d.view e.view f.view end so_far.2 more.2) };

    ghost short = { λ p split a b d e xs so_far. (so_far.0, so_far.1, so_far.2) };

    ghost placed = { λ _ _ _ _ _ _ _ so_far. so_far.1.dealings.in_place };

    ghost still = { λ p split a b d e xs so_far ready. subst (IsLowerBound p) (sym so_far.0.count) ready };
}

/// Searches the part of this name for the first plan of `count` relocations that belongs to it. The name must be a path of
/// the problem, the limit be of the problem, and no complete plan may have fewer relocations.
///
/// What suffices is one more than `count` until the search has met a plan of so many relocations, and `count` from then on. The
/// limit is neither seen nor offered a plan, and a refused claim ends the search. For the rest, how a part is searched, see `walk`.
pub fn search_first<L: Limit>(
    alloc: Global,
    problem: &Problem,
    name: Name,
    count: u32,
    limit: &mut L,
    split: u8,
    thinning: Thinning,
) -> Result<FirstPart, WalkEnd>
    requires problem { problem.now ≡ L.problem limit.old }
    requires path { (s : Place) × IsAt problem.now name s }
    requires least { IsLowerBound problem.now count }

    // The part, its tree and its floor.
    ensures problem { IfOk result (λ first. first.part.problem ≡ problem.now) }
    ensures name { IfOk result (λ first. first.part.name ≡ name) }
    ensures part { IfOk result (λ first. IsKeptPart first.part) }
    ensures cuts { IfOk result (λ first. All (MeetsOwn count first.plan) (cuts_in first.part)) }
    ensures look_ahead { IfOk result (λ first. All (HoldsByOwn NeedsLookAhead count first.plan) (cuts_in first.part)) }
    ensures branches { IfOk result (λ first. All (HoldsByOwn IsBelow count first.plan) (branches_in first.part)) }

    // The plan: it is of the problem, and the first that belongs to the part; without one none belongs to it.
    ensures plan { IfOk result (λ first. IfSome first.plan (λ plan. plan.problem ≡ problem.now)) }
    ensures first { IfOk result (λ first. IfSome first.plan (λ plan. IsFirstHere problem.now count name (given_of first.part) plan.path)) }
    ensures none { IfOk result (λ first. IfNone first.plan (IsNoneHere problem.now count name (given_of first.part))) }

    // What it took from the limit, and what it left there.
    ensures grants { IfOk result (λ first. Grants thinning.most (L.view limit.old).granted (length (branches_in first.part)) (L.view limit.new).granted) }
    ensures not_refused { IfOk result (λ first. (L.view limit.new).refused ≡ (L.view limit.old).refused) }
    ensures puts { IfOk result (λ first. L.puts limit.new ≡ L.puts limit.old ++ given_of first.part) }
    ensures short { IfOk result (λ first. All (IsShort split) (given_of first.part)) }

    // Whether it ended before its time or not.
    ensures end { IfErr result (EndsAs (L.view limit.old) (L.view limit.new)) }
    ensures so_far { IfErr result (λ end. CameSoFar problem.now count split thinning.most name (dealt (L.view limit.old) (L.puts limit.old)) (dealt (L.view limit.new) (L.puts limit.new))) }
    ensures claims { OnlyClaims (L.view limit.old) (L.view limit.new) }
    ensures same { (L.problem limit.new ≡ L.problem limit.old) × (L.budget limit.new ≡ L.budget limit.old) }
    ensures more_puts { PutsMore (L.puts limit.old) (L.puts limit.new) }
{
    let mut seek = SeekFirst {
        count,
        plan: None,
        reasons: Reasons::new(alloc, thinning),
    };
    let part = walk(alloc, problem, name, &mut seek, limit, split)?;
    Ok(FirstPart {
        part,
        plan: seek.plan,
    })
}
