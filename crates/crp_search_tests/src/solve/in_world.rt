//! A search whose steps are also those of a world of one worker.
ghost use Rattle.std.specs.Prelude.{◌≡◌, ◌+◌, ◌^◌, ◌≤◌};

use crate::bays::{BAYS, problem_of};
use crate::compare::assert_at;
use crp_plan::{Plan, Problem, Words};
use crp_row::Kind as SymbolKind;
use crp_search::{Claims, Limit, Thinning, first_plan, search};
use crp_solve::{Answer, Settings, solve_alone};
use crp_steps::{Bound, Event, Kind, World};
use crp_tree::{Name, Tree};
use std::alloc::{AllocError, Global};
use std::process::Abort;
use std::test::Fail;

/// A node of a tree: a branch, or a cut.
#[derive(Drop)]
enum Node {
    Branch,
    Blocking,
    LookAhead,
    Reasons { number: u8, text: Vec<u8> },
}

/// The words of a worker that shares them with nobody, and a world in which it takes the same steps.
#[derive(Drop)]
struct InWorld {
    problem: Problem,
    words: Words,
    budget: u64,
    world: World,
    /// The nodes of the same search, in order.
    nodes: Vec<Node>,
    /// How many of them were closed or branched.
    ended: usize,
    /// The current path was seen, and is neither closed nor branched yet.
    is_open: bool,
    /// A claim was made there that the world has not followed yet: only the next step says which branch it was for.
    is_claimed: bool,
    /// The world allowed each step, and saw the same.
    agrees: bool,
    ghost below_seen: { words.limit ≤ words.view.seen },
    ghost below_mine: { words.limit ≤ words.view.mine },
    ghost counted: { words.spent ≡ words.view.granted + words.view.refused },
    ghost refused_once: { words.view.refused ≤ 1 },
    ghost within_budget: { words.view.granted ≤ budget },
    ghost small: { budget ≤ 2 ^ 40 },
}

// Follows a step of the worker, and answers whether the world allows it.
fn follow(world: &mut World, kind: Kind<'_>) -> bool {
    world.apply(Event { worker: 0, kind }).is_ok()
}

// Ends the current path as this node: the last claim there was for its branch, or for a thinned one where it is closed.
fn end_as(world: &mut World, node: &Node, is_claimed: bool) -> bool {
    let bound = match node {
        Node::Branch => return is_claimed && follow(world, Kind::Claim),
        Node::Blocking => Bound::Blocking,
        Node::LookAhead => Bound::LookAhead,
        Node::Reasons { number, text } => Bound::Reasons {
            number: *number,
            text: text.as_slice(),
        },
    };
    (!is_claimed || follow(world, Kind::Try)) && follow(world, Kind::Leaf { bound })
}

// The nodes of a tree, in the order of the search.
fn push_nodes(alloc: Global, nodes: &mut Vec<Node>, tree: &Tree) -> Result<(), AllocError> {
    let mut rest = tree.symbols();
    for _ in 0..rest.len() {
        match rest.next() {
            Some((SymbolKind::CutB, _)) => nodes.push(Node::Blocking)?,
            Some((SymbolKind::CutL, _)) => nodes.push(Node::LookAhead)?,
            Some((SymbolKind::CutR(number), text)) => {
                let text = text.to_vec(alloc)?;
                nodes.push(Node::Reasons { number, text })?;
            }
            Some((SymbolKind::Branch(_), _)) => nodes.push(Node::Branch)?,
            Some((SymbolKind::Given, _)) | None => {}
        }
    }
    Ok(())
}

// The same of all trees that one worker makes.
fn push_all_nodes(
    nodes: &mut Vec<Node>,
    alloc: Global,
    problem: &Problem,
    settings: Settings,
) -> Result<(), AllocError> {
    let solved = solve_alone(alloc, problem, settings)?;
    let (Answer::Optimal { cert, .. }
    | Answer::First { cert, .. }
    | Answer::NoPlan { cert }
    | Answer::Between { cert, .. }) = &solved.answer;
    for part in cert.parts() {
        push_nodes(alloc, nodes, part.tree())?;
    }
    Ok(())
}

impl InWorld {
    // Ends the current path, if one is open.
    fn end_path(&mut self)
        ensures words { self.new.words ≡ self.old.words }
        ensures problem { self.new.problem ≡ self.old.problem }
        ensures budget { self.new.budget ≡ self.old.budget }
    {
        if !self.is_open {
            return;
        }
        self.agrees &= match self.nodes.get(self.ended) {
            Some(node) => end_as(&mut self.world, node, self.is_claimed),
            None => false,
        };
        self.ended = self.ended.wrapping_add(1);
        self.is_open = false;
        self.is_claimed = false;
    }

    // Ends the last path, and the task.
    fn end(&mut self) {
        self.end_path();
        self.agrees &= follow(&mut self.world, Kind::Finish);
    }

    // Whether the world agreed with each step, and is closed now with this least leaf and with the worker's words.
    fn ends_at(&self, floor: u32) -> bool {
        self.agrees
            && self.world.is_closed()
            && self.world.least_leaf() == floor
            && self.world.limit() == self.words.limit
            && self.world.spent() == self.words.spent
    }
}

impl Claims for InWorld {
    ghost use Rattle.std.specs.Prelude.{◌≡◌, ℕ, List, []};
    ghost use Rattle.crp_search.specs.Limits.{ClaimsExpansion};

    ghost claims = { λ old granted new. ClaimsExpansion old.budget old.words.view granted new.words.view
        × ((new.problem ≡ old.problem) × (new.budget ≡ old.budget) × (◌≡◌ {A = List (List ℕ)} [] [])) };

    fn claim(&mut self) -> bool {
        if self.words.view.refused > 0 {
            return false;
        }
        // Behind a claim for an expansion that is granted a child is seen first.
        if self.is_claimed {
            self.agrees &= follow(&mut self.world, Kind::Try);
        }
        self.is_claimed = true;
        self.words.claim(self.budget)
    }
}

impl Limit for InWorld {
    ghost use Rattle.std.specs.Prelude.{[]};

    ghost claimed = { λ _ _ _ claim. claim };

    ghost view = { λ l. l.words.view };

    ghost problem = { λ l. l.problem };

    ghost budget = { λ l. l.budget };

    ghost puts = { λ _. [] };

    fn see(&mut self) -> u64 {
        self.end_path();
        self.is_open = true;
        let limit = self.words.see();
        self.agrees &= follow(&mut self.world, Kind::See) && self.world.limit() == limit;
        limit
    }

    fn offer(&mut self, plan: &Plan) {
        self.words.offer(plan.count());
        self.agrees &= follow(&mut self.world, Kind::Offer);
    }

    fn put(&mut self, name: Name) -> Result<(), Name> {
        Err(name)
    }
}

// Searches a problem with a budget, trying so many thinned branches at a node, and closes its world; answers whether the world agreed with each step, and ends as the search does.
fn ends_alike(
    rt: &impl Abort,
    alloc: Global,
    problem: &Problem,
    budget: u64,
    most: u32,
) -> Result<bool, Fail> {
    assert!(rt; budget <= 1000000);
    let mut nodes = Vec::new(alloc);
    let settings = Settings::new(1, budget, 0)?.with_thinning(most)?;
    push_all_nodes(&mut nodes, alloc, problem, settings)?;
    let first = first_plan(problem);
    let mut world = World::start(alloc, problem, 1, budget, 0, first.as_ref())?;
    let begun = follow(&mut world, Kind::Take);
    let limit = world.limit();
    let mut worker = InWorld {
        problem: problem.copy(),
        words: Words::start(limit, 65),
        budget,
        world,
        nodes,
        ended: 0,
        is_open: false,
        is_claimed: false,
        agrees: begun,
    };
    let name = Name::root();
    assert_at(rt, name.position(problem).is_some(), &"the root is a path");
    let part = search(
        alloc,
        problem,
        name,
        &mut worker,
        0,
        Thinning { most, rows: 0 },
    )?;
    worker.end();
    Ok(worker.ends_at(part.floor()))
}

#[test]
fn a_search_closes_its_world(rt: HostRuntime) -> Result<(), Fail> {
    for bay in BAYS {
        let problem = problem_of(rt.alloc(), &bay)?;
        for budget in [0, 1, 2, 3, 1000000] {
            for most in [0, 20] {
                let alike = ends_alike(&rt, rt.alloc(), &problem, budget, most)?;
                assert_at(&rt, alike, &(bay.name, budget, most));
            }
        }
    }
    Ok(())
}
