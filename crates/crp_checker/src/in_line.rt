//! Reading on at the beginning of a line after the head.
ghost use Rattle.std.specs.Prelude.{◌≡◌, ◌≤◌, ◌⊎◌, ◌++◌, List, ℕ, Option, IfOk, length, take};
ghost use Rattle.crp_plan.specs.Bay.{Problem as Statement};
ghost use Rattle.crp_cert.specs.declared.script.Script.{Script};
ghost use Rattle.crp_cert.specs.ScriptFaults.{BeginsWithParts};
ghost use Rattle.crp_cert.specs.Settled.{IsName};
ghost use Rattle.crp_checker.specs.Openings.{IsBegunWith, part_word, named_line};
ghost use Rattle.crp_checker.specs.Stages.{AreFindings, IsAtLine, HasCome};

use crate::findings::Findings;
use crate::line::SymbolLine;
use crate::opening::{Opening, begins_with, open_by};
use crate::stage::Stage;
use crp_cert::CertFault;
use crp_tree::Name;
use std::alloc::{AllocError, Global};

/// What the name of a part line leads to.
fn begin_part(alloc: Global, findings: Findings, name: Name) -> Result<Stage, AllocError>
    requires { IsName findings.problem name }
    ensures { IfOk result (λ stage. (wanted : Option Statement) (bytes : List ℕ) (script : Script) (line : ℕ)
        → AreFindings wanted script findings → BeginsWithParts bytes script.head script.parts line (named_line name)
        → HasCome wanted bytes stage) }
{
    let Some(place) = name.bounded(&findings.problem) else {
        unreachable!()
    };
    let line = SymbolLine::new(alloc, name.rows(), place)?;
    Ok(Stage::Part {
        findings,
        name,
        line,
    })
}

/// The fault of a line of which only these bytes are there.
pub fn open_fault(line: u32, begun: &[u8]) -> CertFault
    ensures { (IsBegunWith begun.now part_word × (result ≡ CertFault.Part line))
        ⊎ ((IsBegunWith begun.now part_word → ⊥) × (result ≡ CertFault.End line)) }
{
    if begins_with(begun, b"part ") {
        return CertFault::Part { line };
    }
    CertFault::End { line }
}

/// Reads on in a line, of which these bytes came: what that leads to, and how many of the bytes it took.
pub fn read_on(
    alloc: Global,
    findings: Findings,
    begun: Vec<u8>,
    bytes: &[u8],
) -> Result<(Stage, usize), AllocError>
    requires { 1 ≤ length bytes.now }
    ensures some { IfOk result (λ next. 1 ≤ next.1) }
    ensures within { IfOk result (λ next. next.1 ≤ length bytes.now) }
    ensures come { IfOk result (λ next. (wanted : Option Statement) (before : List ℕ)
        → IsAtLine wanted before findings begun.items → HasCome wanted (before ++ take next.1 bytes.now) next.0) }
{
    let mut begun = begun;
    let count = findings.names.count();
    for (i, byte) in bytes.iter().enumerate() {
        match open_by(&findings.problem, count, findings.line, &mut begun, *byte)? {
            Opening::Open => {}
            Opening::Name(name) => return Ok((begin_part(alloc, findings, name)?, i + 1)),
            Opening::Ended => return Ok((Stage::Ended { findings }, i + 1)),
            Opening::Refused(fault) => return Ok((findings.faulty(fault), i + 1)),
        }
    }
    Ok((Stage::Line { findings, begun }, bytes.len()))
}
