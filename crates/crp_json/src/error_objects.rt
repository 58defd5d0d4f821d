//! Writing the object of a line of the standard error.
ghost use Rattle.std.specs.Prelude.{◌≡◌, ◌++◌, ◌∷◌, [], Some, None, codes, IfOk, IfSome};
ghost use Rattle.std.specs.Str.{IsUtf8};
ghost use Rattle.json.specs.Token.{null};
ghost use Rattle.crp_cert.specs.Reading.{Reads, tag_at};
ghost use Rattle.crp_json.specs.Adding.{Adds};
ghost use Rattle.crp_json.specs.Objects.{member};
ghost use Rattle.crp_json.specs.Errors.{begun_members, ends_code, is_short_code, is_long_code, code_at, behind_colon, coded_at, place_member, code_members, fault_members, told_members, line_members, error_object, error_line};

use crate::members::{push_bytes, push_text};
use crp_cert::after_tag;
use json::Writer;
use std::alloc::{AllocError, Global};

// Whether a code ends before these bytes.
fn ends_code(bytes: &[u8]) -> bool
    ensures { result ≡ ends_code bytes.now }
{
    match bytes {
        [] => true,
        [b, ..] => *b == b' ',
    }
}

// Whether the text begins with a code of one digit.
fn is_short_code(text: &[u8]) -> bool
    ensures { result ≡ is_short_code text.now }
{
    match text {
        [a, b, rest @ ..] => a.is_ascii_uppercase() && b.is_ascii_digit() && ends_code(rest),
        _ => false,
    }
}

// Whether it begins with one of two digits.
fn is_long_code(text: &[u8]) -> bool
    ensures { result ≡ is_long_code text.now }
{
    match text {
        [a, b, c, rest @ ..] => {
            a.is_ascii_uppercase() && b.is_ascii_digit() && c.is_ascii_digit() && ends_code(rest)
        }
        _ => false,
    }
}

// The code that a text begins with, and what is behind it.
fn code(text: &[u8]) -> Option<(&[u8], &[u8])>
    ensures value { Reads (λ x. (x.0.now, x.1.now)) result (code_at text.now) }
    ensures text { IfSome result (λ x. IsUtf8 x.0.now) }
{
    if is_short_code(text) {
        return Some(text.split_at(2));
    }
    if is_long_code(text) {
        return Some(text.split_at(3));
    }
    None
}

// What is behind the first colon with a blank.
fn behind_colon(text: &[u8]) -> Option<&[u8]>
    ensures { Reads (λ x. x.now) result (behind_colon text.now) }
{
    let mut rest = text;
    while let [_, more @ ..] = rest {
        if let Some(found) = after_tag(b": ", rest) {
            return Some(found);
        }
        rest = more;
    }
    None
}

// The code of a fault, and what is behind it.
fn coded(text: &[u8]) -> Option<(&[u8], &[u8])>
    ensures value { Reads (λ x. (x.0.now, x.1.now)) result (coded_at text.now) }
    ensures text { IfSome result (λ x. IsUtf8 x.0.now) }
{
    if let Some(found) = code(text) {
        return Some(found);
    }
    let rest = behind_colon(text)?;
    code(rest)
}

// Adds a member that is null.
fn push_null(out: &mut Writer, name: &str) -> Result<(), AllocError>
    ensures { Adds result out.old out.new (member name.now (null ∷ [])) }
{
    out.key(name)?;
    out.null()
}

// Adds where a fault is, by what is behind its code.
fn push_place(alloc: Global, out: &mut Writer, rest: &[u8]) -> Result<(), AllocError>
    ensures { Adds result out.old out.new (place_member (tag_at (codes " at ") rest.now)) }
{
    match after_tag(b" at ", rest) {
        Some(place) => push_bytes(alloc, out, "at", "at_hex", place),
        None => push_null(out, "at"),
    }
}

// Adds that a fault has no code.
fn push_no_code(out: &mut Writer) -> Result<(), AllocError>
    ensures { Adds result out.old out.new (code_members None) }
{
    push_null(out, "code")?;
    push_null(out, "at")
}

// Adds the code of a fault, and where it is.
fn push_that_code(
    alloc: Global,
    out: &mut Writer,
    code: &[u8],
    rest: &[u8],
) -> Result<(), AllocError>
    requires { IsUtf8 code.now }
    ensures { Adds result out.old out.new (code_members (Some (code.now, rest.now))) }
{
    let Ok(code) = str::from_utf8(code) else {
        unreachable!()
    };
    push_text(out, "code", code)?;
    push_place(alloc, out, rest)
}

// The same, if it has one.
fn push_code(alloc: Global, out: &mut Writer, text: &[u8]) -> Result<(), AllocError>
    ensures { Adds result out.old out.new (code_members (coded_at text.now)) }
{
    match coded(text) {
        Some((code, rest)) => push_that_code(alloc, out, code, rest),
        None => push_no_code(out),
    }
}

// Adds a fault.
fn push_fault(alloc: Global, out: &mut Writer, text: &[u8]) -> Result<(), AllocError>
    ensures { Adds result out.old out.new (fault_members text.now) }
{
    push_bytes(alloc, out, "fault", "fault_hex", text)?;
    push_code(alloc, out, text)
}

// Adds what is no note.
fn push_begun(alloc: Global, out: &mut Writer, text: &[u8]) -> Result<(), AllocError>
    ensures { Adds result out.old out.new (begun_members text.now (tag_at (codes "bay ") text.now)) }
{
    match after_tag(b"bay ", text) {
        Some(_) => push_bytes(alloc, out, "progress", "progress_hex", text),
        None => push_fault(alloc, out, text),
    }
}

// Adds what is said behind `crp: `.
fn push_told(alloc: Global, out: &mut Writer, text: &[u8]) -> Result<(), AllocError>
    ensures { Adds result out.old out.new (told_members text.now (tag_at (codes "note: ") text.now)) }
{
    match after_tag(b"note: ", text) {
        Some(note) => push_bytes(alloc, out, "note", "note_hex", note),
        None => push_begun(alloc, out, text),
    }
}

// Adds what a line says.
fn push_line(alloc: Global, out: &mut Writer, line: &[u8]) -> Result<(), AllocError>
    ensures { Adds result out.old out.new (line_members line.now (tag_at (codes "crp: ") line.now)) }
{
    match after_tag(b"crp: ", line) {
        Some(text) => push_told(alloc, out, text),
        None => push_bytes(alloc, out, "advice", "advice_hex", line),
    }
}

// Adds the object of a line.
fn push_object(alloc: Global, out: &mut Writer, line: &[u8]) -> Result<(), AllocError>
    ensures { Adds result out.old out.new (error_object line.now) }
{
    out.begin_object()?;
    push_line(alloc, out, line)?;
    out.end_object()
}

/// Adds the object of a line of the standard error, by its bytes without its LF, as a line.
#[tactic(auto, unfolding(crate::specs::Errors::error_line))]
pub(crate) fn with_error_line(
    alloc: Global,
    before: Vec<u8>,
    line: &[u8],
) -> Result<Vec<u8>, AllocError>
    ensures { IfOk result (λ lines. lines.items ≡ before.items ++ error_line line.now) }
{
    let mut out = Writer::new(before);
    push_object(alloc, &mut out, line)?;
    let mut lines = out.into_inner();
    lines.push(b'\n')?;
    Ok(lines)
}

/// The object of a line of the standard error, by its bytes without its LF, as a line.
pub fn error_line_of(alloc: Global, line: &[u8]) -> Result<Vec<u8>, AllocError>
    ensures { IfOk result (λ object. object.items ≡ error_line line.now) }
{
    with_error_line(alloc, Vec::new(alloc), line)
}
