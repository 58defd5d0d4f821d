//! The levels of a beam search. What they find is a plan once `Plan::from_rows` says so, so their contracts say no more than keeps
//! them safe.
ghost use Rattle.std.specs.Prelude.{◌≤◌, ◌+◌, length, vec_len};

use crate::greedy::greedy_row;
use crp_bay::Position;
use crp_bounds::look_ahead;
use crp_plan::{MAX_RELOCATIONS, Problem};
use std::alloc::{AllocError, Global};

/// A child of a position that was kept. The fields stand in the order in which children are compared. A level stands in the order of
/// its paths, so the last two compare the children's paths.
#[derive(Clone, Copy, PartialEq, Eq, PartialOrd, Ord)]
struct Child {
    completion: u32,
    bound: u32,
    parent: usize,
    row: u8,
}

/// The fewest relocations of a plan that was met, and the path from which the greedy rule goes along it.
#[derive(Drop)]
struct Best {
    count: u32,
    path: Vec<u8>,
}

/// The path and one row more.
fn longer(path: &Vec<u8>, row: u8) -> Result<Vec<u8>, AllocError> {
    let mut longer = path.clone()?;
    longer.push(row)?;
    Ok(longer)
}

/// The position at the path.
fn position_at(problem: &Problem, path: &Vec<u8>) -> Position {
    let mut position = Position::start(problem);
    for row in path {
        let _pushed = position.push(*row);
    }
    position
}

/// How many relocations the greedy rule makes from the position on. Where it leads to a dead end it is the cap, which is more.
fn completion(problem: &Problem, position: &mut Position) -> u32
    ensures { result ≤ 673 }
{
    let cap = problem.cap();
    for count in 0..cap {
        if position.is_done() {
            return count;
        }
        let Some(row) = greedy_row(problem, position) else {
            return cap;
        };
        let _pushed = position.push(row);
    }
    cap
}

/// Adds the child at the row, and keeps its completion where that is the best plan so far, with `depth` relocations to the child. One
/// that cannot lead to fewer relocations than that plan is not completed.
fn add_child(
    problem: &Problem,
    child: &mut Position,
    depth: u32,
    parent: (usize, &Vec<u8>),
    row: u8,
    children: &mut Vec<Child>,
    best: &mut Best,
) -> Result<(), AllocError>
    requires { depth ≤ 672 }
{
    let bound = look_ahead(child);
    if bound >= best.count.saturating_sub(depth) {
        return Ok(());
    }
    let completion = completion(problem, child);
    if depth + completion < best.count {
        best.path = longer(parent.1, row)?;
        best.count = depth + completion;
    }
    children.push(Child {
        completion,
        bound,
        parent: parent.0,
        row,
    })?;
    Ok(())
}

/// Adds the children of the position at the path, from which they are `depth` relocations away from the start.
fn add_children(
    problem: &Problem,
    depth: u32,
    parent: usize,
    path: &Vec<u8>,
    children: &mut Vec<Child>,
    best: &mut Best,
) -> Result<(), AllocError>
    requires { depth ≤ 672 }
{
    let position = position_at(problem, path);
    for row in position.targets().as_slice() {
        if let Some(mut child) = position.child(*row) {
            add_child(
                problem,
                &mut child,
                depth,
                (parent, path),
                *row,
                children,
                best,
            )?;
        }
    }
    Ok(())
}

/// The children of a level.
fn children_of(
    alloc: Global,
    problem: &Problem,
    depth: u32,
    level: &Vec<Vec<u8>>,
    best: &mut Best,
) -> Result<Vec<Child>, AllocError>
    requires { depth ≤ 672 }
{
    let mut children = Vec::new(alloc);
    for (parent, path) in level.iter().enumerate() {
        add_children(problem, depth, parent, path, &mut children, best)?;
    }
    Ok(children)
}

/// The paths of the children that are kept, in their order. Those whose bound is not below this number are dropped.
fn kept(
    alloc: Global,
    level: &Vec<Vec<u8>>,
    mut children: Vec<Child>,
    width: usize,
    below: u32,
) -> Result<Vec<Vec<u8>>, AllocError> {
    children.retain(|child| child.bound < below);
    children.sort_unstable();
    children.truncate(width);
    children.sort_unstable_by_key(|child| (child.parent, child.row));
    let mut next = Vec::new(alloc);
    for child in &children {
        if let Some(path) = level.get(child.parent) {
            next.push(longer(path, child.row)?)?;
        }
    }
    Ok(next)
}

/// The path from which the greedy rule goes along the best plan that the beam meets, with fewer relocations than the limit; where it
/// meets none, the empty path.
pub(crate) fn best_path(
    alloc: Global,
    problem: &Problem,
    width: usize,
    limit: u32,
) -> Result<Vec<u8>, AllocError> {
    let mut best = Best {
        count: limit,
        path: Vec::new(alloc),
    };
    let mut level = Vec::new(alloc);
    level.push(Vec::new(alloc))?;
    for depth in 1..MAX_RELOCATIONS as u32 + 1 {
        let children = children_of(alloc, problem, depth, &level, &mut best)?;
        let below = best.count.saturating_sub(depth);
        level = kept(alloc, &level, children, width, below)?;
        if level.is_empty() {
            break;
        }
    }
    Ok(best.path)
}
