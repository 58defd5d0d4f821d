//! One search in three parts, put together in every order and with parts too many and too few.
use crate::bays::{FOUR, SIX, problem_of};
use crate::compare::assert_same;
use crp_bay::Position;
use crp_bounds::{blocking, look_ahead};
use crp_gather::{GatherFault, gather};
use crp_plan::Problem;
use crp_row::{Kind, Row};
use crp_tree::{Cert, Name, Part, Tree};
use std::alloc::{AllocError, Global};
use std::test::Fail;

/// A part that a test hands in.
#[derive(Clone, Copy)]
enum Piece {
    /// The root of the search of the six, which gives all of its subtrees to other parts.
    Root,
    /// Cut by the look-ahead bound at row 2.
    Second,
    /// Cut by the blocking bound at row 3.
    Third,
    /// Cut by the blocking bound at row 3 and then row 2.
    Below,
    /// Cut by the look-ahead bound at row 2 of the four.
    Foreign,
}

/// The part at the root that gives all of its subtrees away.
fn give_all(alloc: Global, problem: &Problem) -> Result<Option<Part>, AllocError> {
    let place = Position::start(problem);
    if place.next() > place.ordered() {
        return Ok(None);
    }
    let targets = place.targets();
    let mut row = Row::new(alloc);
    row.push(Kind::Branch(targets.len() as u8), &[])?;
    for _ in 0..targets.len() {
        row.push(Kind::Given, &[])?;
    }
    let tree = Tree::from_row(row);
    let part = Part::new(alloc, problem, Name::root(), tree, problem.cap())?;
    Ok(Some(part))
}

/// The part at these rows that is cut by the look-ahead bound.
fn cut_ahead(alloc: Global, problem: &Problem, rows: &[u8]) -> Result<Option<Part>, AllocError> {
    let Some(name) = Name::from_rows(rows) else {
        return Ok(None);
    };
    let Some(place) = name.position(problem) else {
        return Ok(None);
    };
    let value = name.rows().len() as u32 + look_ahead(&place);
    let floor = value.min(problem.cap());
    let mut row = Row::new(alloc);
    row.push(Kind::CutL, &[])?;
    let tree = Tree::from_row(row);
    Ok(Some(Part::new(alloc, problem, name, tree, floor)?))
}

/// The part at these rows that is cut by the blocking bound.
fn cut_blocking(alloc: Global, problem: &Problem, rows: &[u8]) -> Result<Option<Part>, AllocError> {
    let Some(name) = Name::from_rows(rows) else {
        return Ok(None);
    };
    let Some(place) = name.position(problem) else {
        return Ok(None);
    };
    let value = name.rows().len() as u32 + blocking(&place);
    let floor = value.min(problem.cap());
    let mut row = Row::new(alloc);
    row.push(Kind::CutB, &[])?;
    let tree = Tree::from_row(row);
    Ok(Some(Part::new(alloc, problem, name, tree, floor)?))
}

fn part_of(alloc: Global, piece: Piece, problem: &Problem) -> Result<Option<Part>, Fail> {
    match piece {
        Piece::Root => Ok(give_all(alloc, problem)?),
        Piece::Second => Ok(cut_ahead(alloc, problem, &[2])?),
        Piece::Third => Ok(cut_blocking(alloc, problem, &[3])?),
        Piece::Below => Ok(cut_blocking(alloc, problem, &[3, 2])?),
        Piece::Foreign => Ok(cut_ahead(alloc, &problem_of(alloc, &FOUR)?, &[2])?),
    }
}

/// What is made of these pieces of the search of the six.
fn gathered(alloc: Global, pieces: &[Piece]) -> Result<Result<Cert, GatherFault>, Fail> {
    let problem = problem_of(alloc, &SIX)?;
    let mut parts = Vec::new(alloc);
    for piece in pieces {
        let part = part_of(alloc, *piece, &problem)?.ok_or("a part")?;
        parts.push(part)?;
    }
    Ok(gather(alloc, &problem, parts))
}

/// A certificate's bound, and the name and the floor of each of its parts; or why there is none.
fn text_of(alloc: Global, made: Result<Cert, GatherFault>) -> Result<String, AllocError> {
    let cert = match made {
        Ok(cert) => cert,
        Err(fault) => return format!(in alloc; "{fault}"),
    };
    let mut text = format!(in alloc; "at least {}", cert.lower())?;
    for part in cert.parts() {
        write!(text, ", {} {}", part.name(), part.floor())?;
    }
    Ok(text)
}

const WHOLE: &str = "at least 3, / 13, 2 3, 3 3";

/// Pieces, and what they make.
const CASES: [(&[Piece], &str); 17] = [
    (&[Piece::Root, Piece::Second, Piece::Third], WHOLE),
    (&[Piece::Root, Piece::Third, Piece::Second], WHOLE),
    (&[Piece::Second, Piece::Root, Piece::Third], WHOLE),
    (&[Piece::Second, Piece::Third, Piece::Root], WHOLE),
    (&[Piece::Third, Piece::Root, Piece::Second], WHOLE),
    (&[Piece::Third, Piece::Second, Piece::Root], WHOLE),
    (&[], "G1 at /"),
    (&[Piece::Second], "G1 at /"),
    (&[Piece::Root], "G1 at 2"),
    (&[Piece::Root, Piece::Second], "G1 at 3"),
    (&[Piece::Second, Piece::Below, Piece::Root], "G1 at 3"),
    (
        &[Piece::Third, Piece::Second, Piece::Root, Piece::Second],
        "G2 at 2",
    ),
    (&[Piece::Second, Piece::Foreign], "G2 at 2"),
    (&[Piece::Root, Piece::Root], "G2 at /"),
    (
        &[Piece::Below, Piece::Third, Piece::Second, Piece::Root],
        "G3 at 3.2",
    ),
    (&[Piece::Root, Piece::Third, Piece::Foreign], "G3 at 2"),
    (
        &[Piece::Below, Piece::Third, Piece::Foreign, Piece::Root],
        "G3 at 2",
    ),
];

#[test]
fn the_root_gives_two_names_away(rt: HostRuntime) -> Result<(), Fail> {
    let problem = problem_of(rt.alloc(), &SIX)?;
    let root = part_of(rt.alloc(), Piece::Root, &problem)?.ok_or("a part")?;
    let given = root.given_names();
    assert_same(&rt, &given.len(), &2);
    for (name, row) in given.iter().zip([2, 3]) {
        assert_same(&rt, &name.rows(), &[row].as_slice());
    }
    Ok(())
}

#[test]
fn parts_of_one_search_are_put_together(rt: HostRuntime) -> Result<(), Fail> {
    for (pieces, wanted) in CASES {
        let text = text_of(rt.alloc(), gathered(rt.alloc(), pieces)?)?;
        assert_same(&rt, &text.as_str(), &wanted);
    }
    let text = text_of(rt.alloc(), Err(GatherFault::from(AllocError)))?;
    assert_same(&rt, &text.as_str(), &"no memory is left");
    Ok(())
}
