//! What a walk over a part looks for.
ghost use Rattle.std.specs.Prelude.{◌≡◌, ℕ, ◌<◌, List, [], ◌∷◌, ◌++◌, length, All, IfOk, IfErr};
ghost use Rattle.crp_plan.specs.declared.running.View.{View};
ghost use Rattle.crp_plan.specs.Bay.{Problem as Statement};
ghost use Rattle.crp_plan.specs.Faults.{IsPlanPath};
ghost use Rattle.crp_tree.specs.Mark.{B};
ghost use Rattle.crp_tree.specs.Trees.{Node, IsInPlace};
ghost use Rattle.crp_search.specs.declared.walk_end.WalkEnd.{WalkEnd as WhyEnded};
ghost use Rattle.crp_search.specs.declared.walk_end.WalkEnd.TheVariants.{Memory};
ghost use Rattle.crp_search.specs.Limits.{Dealings, dealt, OnlyGrants};
ghost use Rattle.crp_search.specs.Searched.{IsHeld, IsMet, IsOnWay};
ghost use Rattle.crp_search.specs.Tries.{IfCloses};

use crate::limit::Limit;
use crate::reasons::Way;
use crate::walk_end::WalkEnd;
use crp_bay::Position;
use crp_plan::Plan;

/// What a walk over a part looks for: what suffices at a node, what a finished path does, and how it goes on where no bound closes a node.
pub trait Seek {
    /// What suffices: a node is closed by a bound that reaches it.
    ghost bar: { Self → View → ℕ };

    /// What it takes for granted of the problem.
    ghost ready: { Statement → Self → Type 0 };

    /// The text of the reasons that were given last.
    ghost text: { Self → List ℕ };

    /// What holds once these nodes were met, one after the other, each given name having so many rows at most.
    ghost meets: { Statement → ℕ → Self → Dealings → Self → Dealings → List Node → Type 0 };

    /// What holds once the walk has ended before its time, after it met these nodes.
    ghost ends: { Statement → ℕ → Self → Dealings → Self → Dealings → List Node → WhyEnded → Type 0 };

    /// What suffices now.
    fn enough<L: Limit>(&mut self, limit: &mut L) -> u64
        ensures bar { result ≡ bar self.new (L.view limit.new) }
        ensures met { (p : Statement) (split : ℕ) → meets p split self.old (dealt (L.view limit.old) (L.puts limit.old)) self.new (dealt (L.view limit.new) (L.puts limit.new)) [] }
        ensures same { (L.problem limit.new ≡ L.problem limit.old) × (L.budget limit.new ≡ L.budget limit.old) };

    /// Takes a plan with fewer relocations than suffice.
    fn finish<L: Limit>(&mut self, plan: Plan, limit: &mut L)
        requires problem { plan.problem ≡ L.problem limit.old }
        requires ready { ready (L.problem limit.old) self.old }
        requires whole { IsPlanPath (L.problem limit.old) plan.path }
        requires below { length plan.path < bar self.old (L.view limit.old) }
        ensures met { (split : ℕ) (node : Node) → node.path ≡ plan.path → node.mark ≡ B
            → meets (L.problem limit.old) split self.old (dealt (L.view limit.old) (L.puts limit.old)) self.new (dealt (L.view limit.new) (L.puts limit.new)) (node ∷ []) }
        ensures same { (L.problem limit.new ≡ L.problem limit.old) × (L.budget limit.new ≡ L.budget limit.old) };

    /// Goes on at an unfinished node that no bound closes, where so many relocations more suffice: closes it by reasons, or asks for an
    /// expansion. Where a claim is refused, the walk goes on after a cut, or ends.
    fn go_on<L: Limit>(
        &mut self,
        position: &Position,
        need: u64,
        limit: &mut L,
    ) -> Result<Way, WalkEnd>
        ensures shown { IfOk result (IfCloses position.now.place need (text self.new)) }
        ensures met { IfOk result (λ way. (split : ℕ) (node : Node) → IsInPlace node → IsOnWay way (bar self.old (L.view limit.old)) node
            → meets (L.problem limit.old) split self.old (dealt (L.view limit.old) (L.puts limit.old)) self.new (dealt (L.view limit.new) (L.puts limit.new)) (node ∷ [])) }
        ensures end { IfErr result (λ end. (split : ℕ)
            → ends (L.problem limit.old) split self.old (dealt (L.view limit.old) (L.puts limit.old)) self.new (dealt (L.view limit.new) (L.puts limit.new)) [] end) }
        ensures same { (L.problem limit.new ≡ L.problem limit.old) × (L.budget limit.new ≡ L.budget limit.old) × (L.puts limit.new ≡ L.puts limit.old) };

    /// The text of the reasons that were given last.
    fn text(&self) -> &[u8]
        ensures { result.now ≡ text self.now };

    /// No node was met.
    ghost none: { (p : Statement) (split : ℕ) (a : Self) (d : Dealings) → meets p split a d a d [] };

    /// One was met for which nothing but a claim or a put was made.
    ghost one: { (p : Statement) (split : ℕ) (a : Self) (d e : Dealings) (node : Node) → IsMet split 0 d e (node ∷ []) → OnlyGrants d.view e.view
        → IsHeld 0 (bar a d.view) node → meets p split a d a e (node ∷ []) };

    /// Some were met, and then others.
    ghost onward: { (p : Statement) (split : ℕ) (a b c : Self) (d e f : Dealings) (xs ys : List Node) → meets p split a d b e xs → meets p split b e c f ys
        → meets p split a d c f (xs ++ ys) };

    /// Some were met, and then the walk ended.
    ghost ended: { (p : Statement) (split : ℕ) (a b c : Self) (d e f : Dealings) (xs ys : List Node) (end : WhyEnded) → meets p split a d b e xs → ends p split b e c f ys end
        → ends p split a d c f (xs ++ ys) end };

    /// Some were met, and then no memory was left.
    ghost short: { (p : Statement) (split : ℕ) (a b : Self) (d e : Dealings) (xs : List Node) → meets p split a d b e xs → ends p split a d b e xs Memory };

    /// Each node may stand where it was met.
    ghost placed: { (p : Statement) (split : ℕ) (a b : Self) (d e : Dealings) (xs : List Node) → meets p split a d b e xs → All IsInPlace xs };

    /// What is taken for granted stays so.
    ghost still: { (p : Statement) (split : ℕ) (a b : Self) (d e : Dealings) (xs : List Node) → meets p split a d b e xs → ready p a → ready p b };
}
