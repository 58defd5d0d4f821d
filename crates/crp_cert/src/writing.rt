//! Writing a certificate.
ghost use Rattle.std.specs.Prelude.{◌≡◌, ◌≤◌, ◌+◌, ℕ, ◌++◌, ◌∷◌, [], length, map, take, is_ok, if◌then◌else◌, IfOk, OnOk, IsErrOf};
ghost use Rattle.std.specs.Option.{option_copied};
ghost use Rattle.std.specs.List.{flat_map, list_any};
ghost use Rattle.std.specs.Io.KnownBytes.{Appends};
ghost use Rattle.crp_plan.specs.Devices.{AppendsPart, TransfersAlone};
ghost use Rattle.crp_tree.specs.Claims.{path_in};
ghost use Rattle.crp_tree.specs.Parts.{part_of};
ghost use Rattle.crp_cert.specs.Text.{numbers_line, title_line, bay_line, size_line, stated_heights, size_of, row_line, claim_line, plan_line, head_text};
ghost use Rattle.crp_tree.specs.Names.{name_text};
ghost use Rattle.crp_cert.specs.Script.{symbols_of, has_reasons, opening_of, part_line, end_line};
ghost use Rattle.crp_tree.specs.Spots.{symbol_text};
ghost use Rattle.crp_row.specs.Reasons.{reasons_text};
ghost use Rattle.crp_row.specs.Rows.{symbol_of};
ghost use Rattle.crp_cert.specs.Writing.{are_equal, version_for, version_under, head_for, text_under, certificate_text, first_certificate_text};

use crate::claim::Claim;
use crate::letters::push_letters;
use crate::version::Version;
use arrayvec::ArrayVec;
use crp_plan::{BayName, MAX_ROWS, Plan, Problem, Sink, WriteFault, tallest, write_text};
use crp_row::Kind;
use crp_tree::{Cert, Name, Part, Tree};
use itoa::{Buffer, Integer};
use std::alloc::{AllocError, Global};

/// Adds a number in decimal to a text. Where no memory is left, the text is unchanged.
pub fn push_decimal<N: Integer>(text: &mut Vec<u8>, n: N) -> Result<(), AllocError>
    ensures { text.new.items ≡ (if is_ok result then text.old.items ++ N.text n else text.old.items) }
{
    let mut digits = Buffer::new();
    text.extend_from_slice(digits.format(n).as_bytes())
}

/// Adds a line of a word and numbers.
fn push_numbers(text: &mut Vec<u8>, word: &[u8], numbers: &[u8]) -> Result<(), AllocError>
    ensures { OnOk result (text.new.items ≡ text.old.items ++ numbers_line word.now numbers.now) }
{
    text.extend_from_slice(word)?;
    for number in numbers {
        text.push(b' ')?;
        push_decimal(text, *number)?;
    }
    text.push(b'\n')?;
    Ok(())
}

/// Adds a line of a word and one number.
fn push_number(text: &mut Vec<u8>, word: &[u8], number: usize) -> Result<(), AllocError>
    ensures { OnOk result (text.new.items ≡ text.old.items ++ numbers_line word.now (number ∷ [])) }
{
    text.extend_from_slice(word)?;
    text.push(b' ')?;
    push_decimal(text, number)?;
    text.push(b'\n')?;
    Ok(())
}

/// Adds the line of a bay to a text: the word, the block, the bay's number, and the line's end. Where no
/// memory is left, the text is unchanged.
pub fn push_bay(text: &mut Vec<u8>, bay: &BayName) -> Result<(), AllocError>
    ensures { text.new.items ≡ (if is_ok result then text.old.items ++ bay_line bay.now else text.old.items) }
{
    let before = text.len();
    let added = push_bay_parts(text, bay);
    if added.is_err() {
        text.truncate(before);
    }
    added
}

/// Adds the parts of that line, one after the other, until no memory is left.
fn push_bay_parts(text: &mut Vec<u8>, bay: &BayName) -> Result<(), AllocError>
    ensures added { OnOk result (text.new.items ≡ text.old.items ++ bay_line bay.now) }
    ensures begun { take (length text.old.items) text.new.items ≡ text.old.items }
{
    text.extend_from_slice(b"bay ")?;
    text.extend_from_slice(bay.block())?;
    text.push(b' ')?;
    push_decimal(text, bay.bay())?;
    text.push(b'\n')?;
    Ok(())
}

/// Adds the line of a problem's size.
fn push_size(text: &mut Vec<u8>, problem: &Problem) -> Result<(), AllocError>
    ensures { OnOk result (text.new.items ≡ text.old.items ++ size_line (size_of problem.now)) }
{
    let rows = problem.rows();
    let tiers = problem.tiers();
    let ordered = problem.ordered();
    let total = problem.total();
    push_numbers(text, b"size", &[rows, tiers, ordered, total])
}

/// How high each row of a problem may be.
fn heights_of(problem: &Problem) -> ArrayVec<u8, MAX_ROWS>
    ensures { result.items ≡ problem.now.heights }
{
    let mut heights = ArrayVec::new();
    for i in 0..problem.rows() {
        heights.push(problem.height(i + 1));
    }
    heights
}

/// Whether each height is the largest of them.
fn are_equal(heights: &[u8]) -> bool
    ensures { result ≡ are_equal heights.now }
{
    let tiers = tallest(heights);
    heights.iter().all(|height| *height == tiers)
}

/// The version in which a problem is written.
fn version_of(problem: &Problem) -> Version
    ensures { result ≡ version_for problem.now }
{
    if are_equal(heights_of(problem).as_slice()) {
        return Version::One;
    }
    Version::Two
}

/// Whether a cut of the tree has its reasons.
fn has_reasons(tree: &Tree) -> bool
    ensures { result ≡ has_reasons tree.now }
{
    tree.symbols().has_reasons()
}

/// Whether a cut of these parts has its reasons.
fn have_reasons(parts: &[Part]) -> bool
    ensures { result ≡ list_any (λ part. has_reasons part.tree) parts.now }
{
    parts.iter().any(|part| has_reasons(part.tree()))
}

/// The version in which a claim of a problem with these parts is written.
fn version_under(problem: &Problem, claim: Claim, parts: &[Part]) -> Version
    ensures { result ≡ version_under problem.now claim (map part_of parts.now) }
{
    if have_reasons(parts) {
        return Version::Three;
    }
    match claim {
        Claim::AtLeast(_) => version_of(problem),
        Claim::First(_) => Version::Two,
    }
}

/// Adds the title of a version.
fn push_title(text: &mut Vec<u8>, version: Version) -> Result<(), AllocError>
    ensures { OnOk result (text.new.items ≡ text.old.items ++ title_line version) }
{
    match version {
        Version::One => text.extend_from_slice(b"CRP-CERT 1\n"),
        Version::Two => text.extend_from_slice(b"CRP-CERT 2\n"),
        Version::Three => text.extend_from_slice(b"CRP-CERT 3\n"),
    }
}

/// Adds the line of a problem's heights, where the version has one.
fn push_heights(text: &mut Vec<u8>, version: Version, problem: &Problem) -> Result<(), AllocError>
    ensures { OnOk result (text.new.items ≡ text.old.items ++ stated_heights version problem.now.heights) }
{
    match version {
        Version::One => Ok(()),
        Version::Two | Version::Three => push_numbers(
            text,
            b"heights",
            heights_of(problem).as_slice(),
        ),
    }
}

/// Adds the lines of a problem's rows.
fn push_rows(text: &mut Vec<u8>, problem: &Problem) -> Result<(), AllocError>
    ensures { OnOk result (text.new.items ≡ text.old.items ++ flat_map row_line problem.now.stacks) }
{
    for i in 0..problem.rows() {
        push_numbers(text, b"row", problem.stack(i + 1))?;
    }
    Ok(())
}

/// Adds the line of a claim.
fn push_claim(text: &mut Vec<u8>, claim: Claim) -> Result<(), AllocError>
    ensures { OnOk result (text.new.items ≡ text.old.items ++ claim_line claim) }
{
    match claim {
        Claim::AtLeast(least) => push_number(text, b"at least", least as usize),
        Claim::First(least) => push_number(text, b"first", least as usize),
    }
}

/// Adds the line of a plan, or that there is none.
fn push_plan(text: &mut Vec<u8>, plan: Option<&Plan>) -> Result<(), AllocError>
    ensures { OnOk result (text.new.items ≡ text.old.items ++ plan_line (path_in (option_copied plan.entry))) }
{
    match plan {
        Some(plan) => push_numbers(text, b"plan", plan.rows()),
        None => text.extend_from_slice(b"plan -\n"),
    }
}

/// Adds a name.
fn push_name(text: &mut Vec<u8>, name: &Name) -> Result<(), AllocError>
    ensures { OnOk result (text.new.items ≡ text.old.items ++ name_text name.now) }
{
    let [first, further @ ..] = name.rows() else {
        text.push(b'/')?;
        return Ok(());
    };
    push_decimal(text, *first)?;
    for row in further {
        text.push(b'.')?;
        push_decimal(text, *row)?;
    }
    Ok(())
}

/// Adds the head of a certificate of a problem under a claim, down to its plan, a plan or none. Where no memory is left, a part of it may
/// be added.
pub fn push_head(
    text: &mut Vec<u8>,
    bay: &BayName,
    problem: &Problem,
    cert: &Cert,
    claim: Claim,
    plan: Option<&Plan>,
) -> Result<(), AllocError>
    ensures { OnOk result (text.new.items ≡ text.old.items ++ head_text (head_for (version_under problem.now claim (map part_of cert.now.parts)) bay.now problem.now claim (option_copied plan.entry))) }
{
    let version = version_under(problem, claim, cert.parts());
    push_title(text, version)?;
    push_bay(text, bay)?;
    push_size(text, problem)?;
    push_heights(text, version, problem)?;
    push_rows(text, problem)?;
    push_claim(text, claim)?;
    push_plan(text, plan)
}

/// Adds reasons in brackets.
fn push_reasons(text: &mut Vec<u8>, bound: u8, reasons: &[u8]) -> Result<(), AllocError>
    ensures { OnOk result (text.new.items ≡ text.old.items ++ reasons_text bound reasons.now) }
{
    text.push(b'[')?;
    push_decimal(text, bound)?;
    text.push(b':')?;
    text.extend_from_slice(reasons)?;
    text.push(b']')?;
    Ok(())
}

/// Adds a symbol, with the text of its reasons if it has one.
fn push_symbol(text: &mut Vec<u8>, kind: Kind, reasons: &[u8]) -> Result<(), AllocError>
    ensures { OnOk result (text.new.items ≡ text.old.items ++ symbol_text (symbol_of kind reasons.now)) }
{
    match kind {
        Kind::CutB => text.push(b'B')?,
        Kind::CutL => text.push(b'L')?,
        Kind::CutR(bound) => push_reasons(text, bound, reasons)?,
        Kind::Branch(_) => text.push(b'X')?,
        Kind::Given => text.push(b'G')?,
    }
    Ok(())
}

/// Adds the symbols of a tree.
fn push_tree(text: &mut Vec<u8>, tree: &Tree) -> Result<(), AllocError>
    ensures { OnOk result (text.new.items ≡ text.old.items ++ symbols_of tree.now) }
{
    let mut rest = tree.symbols();
    if !rest.has_reasons() {
        return push_letters(text, rest.kinds());
    }
    while let Some((kind, reasons)) = rest.next() {
        push_symbol(text, kind, reasons)?;
    }
    Ok(())
}

/// Adds what stands before the symbols of a part of this name. Where no memory is left, some of it may be added.
pub fn push_opening(text: &mut Vec<u8>, name: &Name) -> Result<(), AllocError>
    ensures { OnOk result (text.new.items ≡ text.old.items ++ opening_of name.now) }
{
    text.extend_from_slice(b"part ")?;
    push_name(text, name)?;
    text.extend_from_slice(b": ")
}

/// Adds the line of a part. Where no memory is left, some of it may be added.
pub fn push_part(text: &mut Vec<u8>, part: &Part) -> Result<(), AllocError>
    ensures { OnOk result (text.new.items ≡ text.old.items ++ part_line (part_of part.now)) }
{
    push_opening(text, part.name())?;
    push_tree(text, part.tree())?;
    text.push(b'\n')?;
    Ok(())
}

/// Adds the lines of parts. Where no memory is left, some of them may be added.
pub fn push_parts(text: &mut Vec<u8>, parts: &[Part]) -> Result<(), AllocError>
    ensures { OnOk result (text.new.items ≡ text.old.items ++ flat_map (λ part. part_line (part_of part)) parts.now) }
{
    for part in parts {
        push_part(text, part)?;
    }
    Ok(())
}

/// Adds the last line of a certificate, which counts its parts. Where no memory is left, a part of it may be added.
pub fn push_end(text: &mut Vec<u8>, cert: &Cert) -> Result<(), AllocError>
    ensures { OnOk result (text.new.items ≡ text.old.items ++ end_line (length cert.now.parts)) }
{
    push_number(text, b"end", cert.parts().len())
}

/// The text of a certificate of a problem under a claim, with a plan or none.
fn text_under(
    alloc: Global,
    bay: &BayName,
    problem: &Problem,
    cert: &Cert,
    claim: Claim,
    plan: Option<&Plan>,
) -> Result<Vec<u8>, AllocError>
    ensures { IfOk result (λ text. text.items ≡ text_under bay.now problem.now cert.now claim (option_copied plan.entry)) }
{
    let mut text = Vec::new(alloc);
    push_head(&mut text, bay, problem, cert, claim, plan)?;
    push_parts(&mut text, cert.parts())?;
    push_end(&mut text, cert)?;
    Ok(text)
}

/// The text of a certificate of a problem, with a plan or none.
pub fn cert_text(
    alloc: Global,
    bay: &BayName,
    problem: &Problem,
    cert: &Cert,
    plan: Option<&Plan>,
) -> Result<Vec<u8>, AllocError>
    ensures { IfOk result (λ text. text.items ≡ certificate_text bay.now problem.now cert.now (option_copied plan.entry)) }
{
    text_under(
        alloc,
        bay,
        problem,
        cert,
        Claim::AtLeast(cert.lower()),
        plan,
    )
}

/// The text of a certificate of a problem, in version 2 or 3, which claims the plan to be the first best
/// one.
pub fn first_text(
    alloc: Global,
    bay: &BayName,
    problem: &Problem,
    cert: &Cert,
    plan: &Plan,
) -> Result<Vec<u8>, AllocError>
    ensures { IfOk result (λ text. text.items ≡ first_certificate_text bay.now problem.now cert.now plan.now) }
{
    text_under(
        alloc,
        bay,
        problem,
        cert,
        Claim::First(cert.lower()),
        Some(plan),
    )
}

/// Hands the text of a certificate to a sink. Where no memory is left, nothing is handed over. It
/// counts its interruptions itself; whoever counts them over a whole run takes `cert_text`.
pub fn write_cert<W: Sink>(
    alloc: Global,
    writer: &mut W,
    bay: &BayName,
    problem: &Problem,
    cert: &Cert,
    plan: Option<&Plan>,
) -> Result<(), WriteFault>
    ensures all { OnOk result (Appends (W.contents writer.old) (W.contents writer.new) (certificate_text bay.now problem.now cert.now (option_copied plan.entry))) }
    ensures part { IsErrOf result WriteFault.Failed → AppendsPart (W.contents writer.old) (W.contents writer.new) (certificate_text bay.now problem.now cert.now (option_copied plan.entry)) }
    ensures memory { IsErrOf result WriteFault.Memory → writer.new ≡ writer.old }
    ensures done { OnOk result (TransfersAlone 0 (W.failures writer.old) (W.failures writer.new) (W.interrupted writer.old) (W.interrupted writer.new)) }
    ensures gave_up { IsErrOf result WriteFault.Failed → TransfersAlone 1 (W.failures writer.old) (W.failures writer.new) (W.interrupted writer.old) (W.interrupted writer.new) }
{
    let text = cert_text(alloc, bay, problem, cert, plan)?;
    write_text(writer, &text)?;
    Ok(())
}

/// Hands the text of a certificate that claims the plan to be the first best one to a sink. Where
/// no memory is left, nothing is handed over. It counts its interruptions itself; whoever counts
/// them over a whole run takes `first_text`.
pub fn write_first<W: Sink>(
    alloc: Global,
    writer: &mut W,
    bay: &BayName,
    problem: &Problem,
    cert: &Cert,
    plan: &Plan,
) -> Result<(), WriteFault>
    ensures all { OnOk result (Appends (W.contents writer.old) (W.contents writer.new) (first_certificate_text bay.now problem.now cert.now plan.now)) }
    ensures part { IsErrOf result WriteFault.Failed → AppendsPart (W.contents writer.old) (W.contents writer.new) (first_certificate_text bay.now problem.now cert.now plan.now) }
    ensures memory { IsErrOf result WriteFault.Memory → writer.new ≡ writer.old }
    ensures done { OnOk result (TransfersAlone 0 (W.failures writer.old) (W.failures writer.new) (W.interrupted writer.old) (W.interrupted writer.new)) }
    ensures gave_up { IsErrOf result WriteFault.Failed → TransfersAlone 1 (W.failures writer.old) (W.failures writer.new) (W.interrupted writer.old) (W.interrupted writer.new) }
{
    let text = first_text(alloc, bay, problem, cert, plan)?;
    write_text(writer, &text)?;
    Ok(())
}
