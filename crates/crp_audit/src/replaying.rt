//! Replaying lines of moves by the restricted rule. No line is taken apart: in a position few moves are legal, and the line of each can be written.
ghost use Rattle.std.specs.Prelude.{◌≡◌, ◌++◌, ◌∷◌, [], ℕ, List, map, IfOk, OnOk, IfSome, IfNone};
ghost use Rattle.crp_plan.specs.declared.moves.Move.{Move as Step};
ghost use Rattle.crp_plan.specs.Bay.{Position, IsSound, Legal, path_of, start};
ghost use Rattle.crp_said.specs.MoveLines.{move_line};
ghost use Rattle.crp_audit.specs.Replayed.{IsReplayed};

use crp_plan::{Move, Problem, Walk};
use crp_said::push_line;
use std::alloc::{AllocError, Global};

/// Where lines of moves lead.
#[derive(Drop)]
pub enum Replayed {
    /// So many bytes are lines of legal moves, and the next line is that of none that is legal then.
    Stopped { read: usize },
    /// All are lines of legal moves: the rows of their relocations, and whether they take all.
    Through { path: Vec<u8>, finished: bool },
}

/// What follows the line of a legal move, where the bytes begin with it.
fn behind_line<'a>(
    alloc: Global,
    names: &[Vec<u8>],
    walk: &Walk,
    step: Move,
    bytes: &'a [u8],
) -> Result<Option<&'a [u8]>, AllocError>
    requires sound { IsSound walk.now }
    requires legal { (t : Position) × Legal walk.now step t }
    ensures found { IfOk result (λ x. IfSome x (λ rest. bytes.now ≡ move_line (map (λ name. name.items) names.now) walk.now step ++ rest.now)) }
    ensures none { IfOk result (λ x. IfNone x ((more : List ℕ) → bytes.now ≡ move_line (map (λ name. name.items) names.now) walk.now step ++ more → ⊥)) }
{
    let mut line = Vec::new(alloc);
    push_line(&mut line, names, walk, step)?;
    if !bytes.starts_with(&line) {
        return Ok(None);
    }
    Ok(Some(&bytes[line.len()..]))
}

/// Makes the legal move with whose line the bytes begin, and gives what follows the line.
pub(crate) fn replay_line<'a>(
    alloc: Global,
    names: &[Vec<u8>],
    walk: &mut Walk,
    bytes: &'a [u8],
) -> Result<Option<(Move, &'a [u8])>, AllocError>
    requires { IsSound walk.old }
    ensures made { IfOk result (λ x. IfSome x (λ p. Legal walk.old p.0 walk.new
        × (bytes.now ≡ move_line (map (λ name. name.items) names.now) walk.old p.0 ++ p.1.now))) }
    ensures none { IfOk result (λ x. IfNone x ((m : Step) (t : Position) (more : List ℕ) → Legal walk.old m t
        → bytes.now ≡ move_line (map (λ name. name.items) names.now) walk.old m ++ more → ⊥)) }
{
    let mut taken = walk.copy();
    if let Some(row) = taken.take_next() {
        let step = Move::Take { row };
        return match behind_line(alloc, names, walk, step, bytes)? {
            None => Ok(None),
            Some(rest) => {
                *walk = taken;
                Ok(Some((step, rest)))
            }
        };
    }
    for i in 0..walk.rows() {
        let to = i + 1;
        let mut shifted = walk.copy();
        let Some(from) = shifted.shift(to) else {
            continue;
        };
        let step = Move::Shift { from, to };
        match behind_line(alloc, names, walk, step, bytes)? {
            None => {}
            Some(rest) => {
                *walk = shifted;
                return Ok(Some((step, rest)));
            }
        }
    }
    Ok(None)
}

// Adds the row of a relocation.
fn push_row(path: &mut Vec<u8>, step: Move) -> Result<(), AllocError>
    ensures { OnOk result (path.new.items ≡ path.old.items ++ path_of (step ∷ [])) }
{
    match step {
        Move::Shift { to, .. } => {
            path.push(to)?;
            Ok(())
        }
        Move::Take { .. } => Ok(()),
    }
}

/// Replays lines of moves from the start of a problem.
pub fn replay_lines(
    alloc: Global,
    names: &[Vec<u8>],
    problem: &Problem,
    lines: &[u8],
) -> Result<Replayed, AllocError>
    ensures { IfOk result (IsReplayed (map (λ name. name.items) names.now) (start problem.now) lines.now) }
{
    let mut walk = Walk::before(problem);
    let mut path = Vec::new(alloc);
    let mut rest = lines;
    while !rest.is_empty() {
        let Some((step, after)) = replay_line(alloc, names, &mut walk, rest)? else {
            return Ok(Replayed::Stopped {
                read: lines.len() - rest.len(),
            });
        };
        push_row(&mut path, step)?;
        rest = after;
    }
    Ok(Replayed::Through {
        path,
        finished: walk.is_finished(),
    })
}
