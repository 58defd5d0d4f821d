//! Reading a whole certificate.
ghost use Rattle.std.specs.Prelude.{◌≡◌, ◌≤◌, ◌+◌, ◌⊎◌, ◌↔◌, ◌++◌, None, IsTrue, IfOk, IfErr, AllPairs, codes};
ghost use Rattle.crp_plan.specs.Bay.{IsProblem};
ghost use Rattle.crp_tree.specs.Names.{Precedes};
ghost use Rattle.crp_tree.specs.Claims.{names};
ghost use Rattle.crp_cert.specs.Script.{part_line, end_line, IsPartLine, IsScriptOf};
ghost use Rattle.crp_cert.specs.ScriptFaults.{ComesAfter, IsLineFault, IsFirstFaultOfScript};
ghost use Rattle.crp_cert.specs.Reading.{Reads, tag_at};
ghost use Rattle.crp_cert.specs.PartReading.{AreParts, IsPartsFault};

use crate::fault::CertFault;
use crate::fields::{after_newline, after_tag};
use crate::part_fields::part_line;
use crate::parts::{PartLine, Parts};
use crate::reading::head_and_rest;
use crate::script::Script;
use crate::trees::{are_symbols, read_tree};
use crate::version::Version;
use arrayvec::ArrayVec;
use crp_plan::Problem;
use crp_tree::Name;
use itoa::Buffer;
use std::alloc::Global;

/// Whether a name comes after the names of parts, which rise.
fn comes_after(parts: &[PartLine], name: &Name) -> bool
    requires { AllPairs Precedes (names parts.now) }
    ensures { IsTrue result ↔ ComesAfter parts.now name.now }
{
    match parts.last() {
        Some(last) => last.name().precedes(name),
        None => true,
    }
}

/// The part that a line states after these parts, and what follows the line. The line has this
/// number, and its first word is read.
fn next_part<'a>(
    alloc: Global,
    version: Version,
    problem: &Problem,
    parts: &[PartLine],
    line: u32,
    bytes: &'a [u8],
) -> Result<(PartLine, &'a [u8]), CertFault>
    requires { AllPairs Precedes (names parts.now) }
    ensures part { IfOk result (λ parsed. IsPartLine version problem.now parsed.0) }
    ensures after { IfOk result (λ parsed. ComesAfter parts.now parsed.0.name) }
    ensures text { IfOk result (λ parsed. codes "part " ++ bytes.now ≡ part_line parsed.0 ++ parsed.1.now) }
    ensures refused { IfErr result (λ fault. (fault ≡ CertFault.Memory)
        ⊎ IsLineFault version problem.now parts.now line (codes "part " ++ bytes.now) fault) }
{
    let Some(mut parsed) = part_line(problem, bytes) else {
        return Err(CertFault::Part { line });
    };
    if !comes_after(parts, &parsed.name) {
        return Err(CertFault::Order { line });
    }
    let symbols = parsed.symbols;
    if !are_symbols(version, symbols) {
        return Err(CertFault::Symbol { line });
    }
    let Some((tree, left)) = read_tree(alloc, &mut parsed.place, symbols)? else {
        return Err(CertFault::Unfinished { line });
    };
    if !left.is_empty() {
        return Err(CertFault::Trailing { line });
    }
    Ok((PartLine::new(parsed.name, tree), parsed.rest))
}

/// The parts that the lines from the first one on state, and what follows the last of these lines.
fn all_parts<'a>(
    alloc: Global,
    version: Version,
    problem: &Problem,
    first: u32,
    bytes: &'a [u8],
) -> Result<(Vec<PartLine>, &'a [u8]), CertFault>
    requires problem { IsProblem problem.now }
    requires first { first ≤ 19 }
    ensures parts { IfOk result (λ parsed. AreParts version problem.now bytes.now parsed.0.items parsed.1.now) }
    ensures all { IfOk result (λ parsed. tag_at (codes "part ") parsed.1.now ≡ None) }
    ensures refused { IfErr result (λ fault. (fault ≡ CertFault.Memory) ⊎ IsPartsFault version problem.now first bytes.now fault) }
{
    let mut parts = Vec::new(alloc);
    let mut rest = bytes;
    while let Some(after) = after_tag(b"part ", rest) {
        let line = first + parts.len() as u32;
        let (part, after) = next_part(alloc, version, problem, &parts, line, after)?;
        let Ok(()) = parts.push(part) else {
            return Err(CertFault::Memory);
        };
        rest = after;
    }
    Ok((parts, rest))
}

/// What follows the last line, which states how many parts there are.
fn after_end(count: usize, bytes: &[u8]) -> Option<&[u8]>
    ensures { Reads (λ x. x.now) result (tag_at (end_line count) bytes.now) }
{
    let mut digits = Buffer::new();
    let rest = after_tag(b"end ", bytes)?;
    let rest = after_tag(digits.format(count).as_bytes(), rest)?;
    after_newline(rest)
}

/// The most bytes that the last line has: its word, 20 digits and LF.
pub const MAX_END: usize = 25;

/// The last line of a certificate with so many parts.
pub fn end_line(count: usize) -> ArrayVec<u8, MAX_END>
    ensures { result.items ≡ end_line count }
{
    let mut digits = Buffer::new();
    let mut line = ArrayVec::new();
    let Ok(()) = line.try_extend_from_slice(b"end ") else {
        unreachable!()
    };
    let Ok(()) = line.try_extend_from_slice(digits.format(count).as_bytes()) else {
        unreachable!()
    };
    let Ok(()) = line.try_extend_from_slice(b"\n") else {
        unreachable!()
    };
    line
}

/// The script whose text the bytes are. Else the first line that is not as said, or that no memory
/// is left.
///
/// Nothing is promised of the parts but that their names are paths of the problem and rise, that
/// each branch has a tree for each legal row, and that no part is given to another as a whole: no
/// bound is looked at, nor whether the parts give each other all that is needed.
pub fn read_cert(alloc: Global, bytes: &[u8]) -> Result<Script, CertFault>
    ensures found { IfOk result (IsScriptOf bytes.now) }
    ensures refused { IfErr result (λ fault. (fault ≡ CertFault.Memory) ⊎ IsFirstFaultOfScript bytes.now fault) }
{
    let (head, rest) = head_and_rest(alloc, bytes)?;
    let first = head.first_part();
    let (parts, rest) = all_parts(alloc, head.version, &head.problem, first, rest)?;
    let last = first + parts.len() as u32;
    let Some(rest) = after_end(parts.len(), rest) else {
        return Err(CertFault::End { line: last });
    };
    if !rest.is_empty() {
        return Err(CertFault::End { line: last + 1 });
    }
    Ok(Script {
        head,
        parts: Parts::of(parts),
    })
}
