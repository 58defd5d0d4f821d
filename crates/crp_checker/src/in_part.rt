//! Reading on in the symbols of a part.
ghost use Rattle.std.specs.Prelude.{◌≤◌, ◌++◌, ◌∷◌, [], List, ℕ, Option, IfOk, length, take};
ghost use Rattle.crp_plan.specs.Bay.{Problem as Statement};
ghost use Rattle.crp_checker.specs.Stages.{IsAtPart, HasCome};

use crate::findings::Findings;
use crate::line::SymbolLine;
use crate::line_end::LineEnd;
use crate::stage::Stage;
use crate::watch::line_len;
use crp_cert::CertFault;
use crp_tree::Name;
use std::alloc::{AllocError, Global};

/// What the end of a part line leads to.
fn end_part(
    alloc: Global,
    findings: Findings,
    name: Name,
    line: SymbolLine,
) -> Result<Stage, AllocError>
    ensures { IfOk result (λ stage. (wanted : Option Statement) (before : List ℕ)
        → IsAtPart wanted before findings name line → HasCome wanted (before ++ 10 ∷ []) stage) }
{
    let number = findings.line;
    if !findings.names.come_before(&name) {
        return Ok(findings.faulty(CertFault::Order { line: number }));
    }
    match line.end() {
        LineEnd::Unknown => Ok(findings.faulty(CertFault::Symbol { line: number })),
        LineEnd::Unfinished => Ok(findings.faulty(CertFault::Unfinished { line: number })),
        LineEnd::Trailing => Ok(findings.faulty(CertFault::Trailing { line: number })),
        LineEnd::Whole { wrong, given } => Ok(Stage::Line {
            findings: findings.with_part(alloc, name, wrong, given)?,
            begun: Vec::new(alloc),
        }),
    }
}

/// Reads on in the symbols of a part, of which this is kept: what that leads to, and how many of the bytes it took.
pub fn read_on(
    alloc: Global,
    findings: Findings,
    name: Name,
    line: SymbolLine,
    bytes: &[u8],
) -> Result<(Stage, usize), AllocError>
    requires { 1 ≤ length bytes.now }
    ensures some { IfOk result (λ next. 1 ≤ next.1) }
    ensures within { IfOk result (λ next. next.1 ≤ length bytes.now) }
    ensures come { IfOk result (λ next. (wanted : Option Statement) (before : List ℕ)
        → IsAtPart wanted before findings name line → HasCome wanted (before ++ take next.1 bytes.now) next.0) }
{
    let mut line = line;
    let len = line_len(bytes);
    line.feed(alloc, &findings.need, &bytes[..len])?;
    if len < bytes.len() {
        return Ok((end_part(alloc, findings, name, line)?, len + 1));
    }
    let stage = Stage::Part {
        findings,
        name,
        line,
    };
    Ok((stage, len))
}
