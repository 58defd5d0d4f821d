//! The text of a certificate, the lines of whose parts are written by several workers, and the letters of a long one: each writes a share of the
//! text, and no share is copied.
ghost use Rattle.std.specs.Prelude.{◌≡◌, ◌≤◌, ◌++◌, length, map, IfOk};
ghost use Rattle.std.specs.List.{flat_map};
ghost use Rattle.std.specs.Option.{option_copied};
ghost use Rattle.std.specs.Thread.{IsSync};
ghost use Rattle.crp_tree.specs.Parts.{part_of};
ghost use Rattle.crp_cert.specs.Letters.{letter};
ghost use Rattle.crp_cert.specs.Script.{part_line};
ghost use Rattle.crp_cert.specs.Writing.{text_under};

use crp_cert::{Claim, push_end, push_head, push_letters, push_opening, push_part, push_parts};
use crp_plan::{BayName, Plan, Problem};
use crp_row::Kind;
use crp_tree::{Cert, Part};
use std::alloc::{AllocError, Global};
use std::thread;
use std::thread::Threads;

// No thread is started for parts that have fewer symbols.
const LEAST: usize = 1 << 16;

// How many symbols a part has.
fn symbols_of(part: &Part) -> usize {
    part.tree().symbols().kinds().len()
}

// How many symbols parts have, one after the other, down to where there are so many; and behind how many parts that is.
fn reach(parts: &[Part], most: usize) -> (usize, usize)
    ensures { result.1 ≤ length parts.now }
{
    let mut symbols: usize = 0;
    for i in 0..parts.len() {
        if symbols >= most {
            return (symbols, i);
        }
        symbols = symbols.saturating_add(symbols_of(&parts[i]));
    }
    (symbols, parts.len())
}

// As much of a whole as a part is of all, rounded, and no more than the whole.
fn share_of(whole: usize, part: usize, all: usize) -> usize
    ensures { result ≤ whole }
{
    let twice = whole.saturating_mul(part).saturating_mul(2);
    ((twice / all.max(1)).saturating_add(1) / 2).min(whole)
}

// A text as one share.
pub(crate) fn as_share(alloc: Global, text: Vec<u8>) -> Result<Vec<Vec<u8>>, AllocError>
    ensures { IfOk result (λ shares. flat_map (λ share. share.items) shares.items ≡ text.items) }
{
    let mut shares = Vec::new(alloc);
    shares.push(text).map_err(AllocError::from)?;
    Ok(shares)
}

// The shares of a text behind which the first letters of symbols are added, by so many workers.
#[tactic(auto, using(std::proofs::lemmas::Grind::common_steps))]
fn with_letters<T: Threads + Sync>(
    rt: &T,
    alloc: Global,
    workers: usize,
    mut text: Vec<u8>,
    kinds: &[Kind],
) -> Result<Vec<Vec<u8>>, AllocError>
    ensures { IfOk result (λ all. flat_map (λ share. share.items) all.items ≡ text.items ++ map letter kinds.now) }
{
    if workers < 2 || kinds.len() < LEAST {
        push_letters(&mut text, kinds)?;
        return as_share(alloc, text);
    }
    let others = workers / 2;
    let own = workers - others;
    let (left, right) = kinds.split_at(share_of(kinds.len(), own, workers));
    let (behind, before) = thread::join(
        rt,
        move || -> Result<Vec<Vec<u8>>, AllocError>
            requires { IsSync T.row }
            ensures { IfOk result (λ all. flat_map (λ share. share.items) all.items ≡ map letter right.entry.now) }
        { with_letters(rt, alloc, others, Vec::new(alloc), right) },
        move || -> Result<Vec<Vec<u8>>, AllocError>
            requires { IsSync T.row }
            ensures { IfOk result (λ all. flat_map (λ share. share.items) all.items ≡ text.items ++ map letter left.entry.now) }
        { with_letters(rt, alloc, own, text, left) },
    );
    let mut all = before?;
    all.append(&mut behind?)?;
    Ok(all)
}

// The shares of a text behind which the line of a part is added, by so many workers.
fn with_part<T: Threads + Sync>(
    rt: &T,
    alloc: Global,
    workers: usize,
    mut text: Vec<u8>,
    part: &Part,
) -> Result<Vec<Vec<u8>>, AllocError>
    ensures { IfOk result (λ all. flat_map (λ share. share.items) all.items ≡ text.items ++ part_line (part_of part.now)) }
{
    let symbols = part.tree().symbols();
    if symbols.has_reasons() {
        push_part(&mut text, part)?;
        return as_share(alloc, text);
    }
    push_opening(&mut text, part.name())?;
    let mut all = with_letters(rt, alloc, workers, text, symbols.kinds())?;
    let mut end = Vec::new(alloc);
    end.push(b'\n')?;
    all.push(end).map_err(AllocError::from)?;
    Ok(all)
}

// The shares of a text behind which lines of parts are added, by so many workers.
#[tactic(auto, using(std::proofs::lemmas::Grind::common_steps))]
fn with_parts<T: Threads + Sync>(
    rt: &T,
    alloc: Global,
    workers: usize,
    mut text: Vec<u8>,
    parts: &[Part],
) -> Result<Vec<Vec<u8>>, AllocError>
    ensures { IfOk result (λ all. flat_map (λ share. share.items) all.items ≡ text.items ++ flat_map (λ part. part_line (part_of part)) parts.now) }
{
    let (symbols, _all) = reach(parts, usize::MAX);
    if workers < 2 || symbols < LEAST {
        push_parts(&mut text, parts)?;
        return as_share(alloc, text);
    }
    if let [part] = parts {
        return with_part(rt, alloc, workers, text, part);
    }
    let (_half, middle) = reach(parts, symbols / 2);
    let (left, right) = parts.split_at(middle.min(parts.len().saturating_sub(1)));
    let (begun, _left) = reach(left, usize::MAX);
    let own = share_of(workers, begun, symbols).max(1).min(workers - 1);
    let others = workers - own;
    let (behind, before) = thread::join(
        rt,
        move || -> Result<Vec<Vec<u8>>, AllocError>
            requires { IsSync T.row }
            ensures { IfOk result (λ all. flat_map (λ share. share.items) all.items ≡ flat_map (λ part. part_line (part_of part)) right.entry.now) }
        { with_parts(rt, alloc, others, Vec::new(alloc), right) },
        move || -> Result<Vec<Vec<u8>>, AllocError>
            requires { IsSync T.row }
            ensures { IfOk result (λ all. flat_map (λ share. share.items) all.items ≡ text.items ++ flat_map (λ part. part_line (part_of part)) left.entry.now) }
        { with_parts(rt, alloc, own, text, left) },
    );
    let mut all = before?;
    all.append(&mut behind?)?;
    Ok(all)
}

/// The shares of the text of a certificate of a problem under a claim, with a plan or none. So many workers write it, one of them alone where it is short.
pub(crate) fn text_by<T: Threads + Sync>(
    rt: &T,
    alloc: Global,
    workers: usize,
    bay: &BayName,
    problem: &Problem,
    cert: &Cert,
    claim: Claim,
    plan: Option<&Plan>,
) -> Result<Vec<Vec<u8>>, AllocError>
    ensures { IfOk result (λ shares. flat_map (λ share. share.items) shares.items ≡ text_under bay.now problem.now cert.now claim (option_copied plan.entry)) }
{
    let mut text = Vec::new(alloc);
    push_head(&mut text, bay, problem, cert, claim, plan)?;
    let mut shares = with_parts(rt, alloc, workers, text, cert.parts())?;
    let mut end = Vec::new(alloc);
    push_end(&mut end, cert)?;
    shares.push(end).map_err(AllocError::from)?;
    Ok(shares)
}
