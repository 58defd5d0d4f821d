ghost use Rattle.std.specs.Prelude.{◌≡◌, ℕ, Bool, List, [], ◌∷◌, ◌++◌, length, MatchResult};
ghost use Rattle.crp_plan.specs.declared.running.View.{View};
ghost use Rattle.crp_plan.specs.Bay.{Problem as Statement};
ghost use Rattle.crp_search.specs.Limits.{SeesLimit, OffersPlan, ClaimsExpansion};

use crp_plan::Plan;
use crp_thinning::Claims;
use crp_tree::Name;

/// What one worker of a search may do to the limit, the claims and the names that the workers share. A claim is for one expansion, or for one thinned branch.
pub trait Limit: Claims {
    /// What the worker knows of the limit and the claims, and what it did to them.
    ghost view: { Self → View };

    /// The problem that is searched.
    ghost problem: { Self → Statement };

    /// How many expansions may be granted to all workers together.
    ghost budget: { Self → ℕ };

    /// The names that the worker has put, in order.
    ghost puts: { Self → List (List ℕ) };

    /// Sees the limit: only plans of fewer relocations are wanted.
    fn see(&mut self) -> u64
        ensures step { SeesLimit (view self.old) result (view self.new) }
        ensures same { (problem self.new ≡ problem self.old) × (budget self.new ≡ budget self.old) × (puts self.new ≡ puts self.old) };

    /// Offers a plan of the problem, which lowers the limit where the plan has fewer relocations.
    fn offer(&mut self, plan: &Plan)
        requires { plan.now.problem ≡ problem self.old }
        ensures step { OffersPlan (length plan.now.path) (view self.old) (view self.new) }
        ensures same { (problem self.new ≡ problem self.old) × (budget self.new ≡ budget self.old) × (puts self.new ≡ puts self.old) };

    /// Puts a name where other workers may take it; a name that is refused comes back.
    fn put(&mut self, name: Name) -> Result<(), Name>
        ensures put { MatchResult result (λ _. puts self.new ≡ puts self.old ++ name ∷ []) (λ back. (back ≡ name) × (puts self.new ≡ puts self.old)) }
        ensures same { (problem self.new ≡ problem self.old) × (budget self.new ≡ budget self.old) × (view self.new ≡ view self.old) };

    /// What a claim does.
    ghost claimed: { (old new : Self) (granted : Bool) → Self.claims old granted new
        → ClaimsExpansion (budget old) (view old) granted (view new) × ((problem new ≡ problem old) × (budget new ≡ budget old) × (puts new ≡ puts old)) };
}
