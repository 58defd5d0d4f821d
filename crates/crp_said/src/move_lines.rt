//! The moves of a plan as lines of text.
ghost use Rattle.std.specs.Prelude.{◌≡◌, ◌<◌, ◌+◌, ◌-◌, ◌++◌, ◌∷◌, IfOk, OnOk, map};
ghost use Rattle.crp_plan.specs.Bay.{Position, IsSound, Legal, IsPlan, start};
ghost use Rattle.crp_yard.specs.Ranks.{name_of_rank};
ghost use Rattle.crp_said.specs.MoveLines.{rank_names, spaced_place, move_words, move_said, move_line, AreMoveLines};

use crate::moves::{Place, SaidMove};
use crp_cert::push_decimal;
use crp_plan::{Container, Move, Plan, Walk};
use std::alloc::{AllocError, Global};

/// The names of containers, by rank.
pub fn names_of(alloc: Global, containers: &[Container]) -> Result<Vec<Vec<u8>>, AllocError>
    ensures { IfOk result (λ names. map (λ name. name.items) names.items ≡ containers.now) }
{
    let mut names = Vec::new(alloc);
    for container in containers {
        names.push(Vec::from_slice(alloc, container.bytes())?)?;
    }
    Ok(names)
}

/// The numbers of the ranks from 1 as their names.
pub fn names_of_ranks(alloc: Global, containers: u8) -> Result<Vec<Vec<u8>>, AllocError>
    ensures { IfOk result (λ names. map (λ name. name.items) names.items ≡ rank_names containers) }
{
    let mut names = Vec::new(alloc);
    for i in 0..containers {
        let mut name = Vec::new(alloc);
        push_decimal(&mut name, i + 1)?;
        names.push(name)?;
    }
    Ok(names)
}

fn push_numbers(text: &mut Vec<u8>, row: u32, tier: u32) -> Result<(), AllocError>
    ensures { OnOk result (text.new.items ≡ text.old.items ++ spaced_place (record { row = row; tier = tier })) }
{
    text.push(b' ')?;
    push_decimal(text, row)?;
    text.push(b'.')?;
    push_decimal(text, tier)
}

fn push_place(text: &mut Vec<u8>, row: u8, tier: u8) -> Result<(), AllocError>
    ensures { OnOk result (text.new.items ≡ text.old.items ++ spaced_place (record { row = row; tier = tier })) }
{
    push_numbers(text, row as u32, tier as u32)
}

fn push_stated(text: &mut Vec<u8>, place: Place) -> Result<(), AllocError>
    ensures { OnOk result (text.new.items ≡ text.old.items ++ spaced_place place) }
{
    push_numbers(text, place.row, place.tier)
}

fn push_name(text: &mut Vec<u8>, container: &Container) -> Result<(), AllocError>
    ensures { OnOk result (text.new.items ≡ text.old.items ++ 32 ∷ container.now) }
{
    text.push(b' ')?;
    text.extend_from_slice(container.bytes())
}

/// Adds a move in words, as it is stated.
pub fn push_words(text: &mut Vec<u8>, said: &SaidMove) -> Result<(), AllocError>
    ensures { OnOk result (text.new.items ≡ text.old.items ++ move_words said.now) }
{
    match said {
        SaidMove::Shift {
            from,
            to,
            container,
        } => {
            text.extend_from_slice(b"shift")?;
            push_stated(text, *from)?;
            push_stated(text, *to)?;
            push_name(text, container)
        }
        SaidMove::Take { from, container } => {
            text.extend_from_slice(b"take")?;
            push_stated(text, *from)?;
            push_name(text, container)
        }
    }
}

// What a rank is called.
fn name_at(names: &[Vec<u8>], rank: u8) -> &[u8]
    ensures { result.now ≡ name_of_rank (map (λ name. name.items) names.now) rank }
{
    match names.get(rank.saturating_sub(1) as usize) {
        Some(name) => name.as_slice(),
        None => b"",
    }
}

fn push_container(text: &mut Vec<u8>, names: &[Vec<u8>], rank: u8) -> Result<(), AllocError>
    ensures { OnOk result (text.new.items ≡ text.old.items ++ 32 ∷ name_of_rank (map (λ name. name.items) names.now) rank) }
{
    text.push(b' ')?;
    text.extend_from_slice(name_at(names, rank))
}

// A move in words, before it is made.
fn push_move(
    text: &mut Vec<u8>,
    names: &[Vec<u8>],
    walk: &Walk,
    step: Move,
) -> Result<(), AllocError>
    requires sound { IsSound walk.now }
    requires legal { (t : Position) × Legal walk.now step t }
    ensures { OnOk result (text.new.items ≡ text.old.items ++ move_words (move_said (map (λ name. name.items) names.now) walk.now step)) }
{
    match step {
        Move::Shift { from, to } => {
            let stack = walk.stack(from);
            text.extend_from_slice(b"shift")?;
            push_place(text, from, stack.len() as u8)?;
            push_place(text, to, walk.stack(to).len() as u8 + 1)?;
            push_container(text, names, stack[stack.len() - 1])
        }
        Move::Take { row } => {
            text.extend_from_slice(b"take")?;
            push_place(text, row, walk.stack(row).len() as u8)?;
            push_container(text, names, walk.next())
        }
    }
}

/// Adds the line of a move, before it is made, with the names of the containers by rank.
pub fn push_line(
    text: &mut Vec<u8>,
    names: &[Vec<u8>],
    walk: &Walk,
    step: Move,
) -> Result<(), AllocError>
    requires sound { IsSound walk.now }
    requires legal { (t : Position) × Legal walk.now step t }
    ensures { OnOk result (text.new.items ≡ text.old.items ++ move_line (map (λ name. name.items) names.now) walk.now step) }
{
    push_move(text, names, walk, step)?;
    text.push(b'\n')?;
    Ok(())
}

/// The lines of all moves of a plan.
pub fn lines_of(
    alloc: Global,
    plan: &Plan,
    moves: &[Move],
    names: &[Vec<u8>],
) -> Result<Vec<u8>, AllocError>
    requires { IsPlan plan.now.problem moves.now }
    ensures { IfOk result (λ text. AreMoveLines (map (λ name. name.items) names.now) (start plan.now.problem) moves.now text.items) }
{
    let mut walk = Walk::before(plan.problem());
    let mut text = Vec::new(alloc);
    for step in moves {
        push_line(&mut text, names, &walk, *step)?;
        walk.make(*step);
    }
    Ok(text)
}
