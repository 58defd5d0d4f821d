//! What is said of a certificate that is refused, where others stand before it in its file.
ghost use Rattle.std.specs.Prelude.{◌≡◌, ◌+◌, ◌-◌, ◌<◌, ◌≤◌, [], IfOk, IfSome, MatchOption, codes, if◌then◌else◌, length, option_map};
ghost use Rattle.crp_follow.specs.Lines.{pieces_of};
ghost use Rattle.crp_jobs.specs.CertificateLines.{IsCertificateLine, begins_text, behind_ends, certificate_text, certificates_named, checked_name};
ghost use Rattle.crp_jobs.specs.Found.{IsPlainText, begins};

use crate::job::{FileCommand, Job};
use crate::named::report_name;
use crate::placed::shown;
use crate::plain::FoundLine;
use crate::report_lines::{MOST_REPORT, line_numbered};
use crp_cert::push_decimal;
use crp_files::Files;
use crp_said::cut_line;
use std::alloc::{AllocError, Global};

// The file of a command that checks one; the standard input has no name.
fn checked_name<'a>(file: &'a str, command: &FileCommand) -> Option<&'a str>
    ensures { option_map (λ name. name.now) result ≡ checked_name file.now command.now }
{
    match command {
        FileCommand::Check { .. } => report_name(file),
        FileCommand::Replay
        | FileCommand::Bound { .. }
        | FileCommand::Prove(_)
        | FileCommand::Rewrite => None,
    }
}

/// The certificates of a job that checks a file.
pub(crate) fn certificates_named<'a>(job: &Job<'a>) -> Option<&'a str>
    ensures { option_map (λ name. name.now) result ≡ certificates_named job.now }
{
    match job {
        Job::OneFile { file, command, .. } => checked_name(file, command),
        Job::Absent { .. }
        | Job::Audit { .. }
        | Job::Follow { .. }
        | Job::Compare { .. }
        | Job::Solve { .. } => None,
    }
}

// How many lines that end certificates are left behind this one.
fn left_behind(line: &[u8], left: u64) -> u64
    requires { 0 < left }
    ensures { result ≡ (if begins (codes "end ") line.now then left - 1 else left) }
{
    if line.starts_with(b"end ") {
        left - 1
    } else {
        left
    }
}

// What stands behind so many lines that end certificates, and how many lines there are before it; nothing where there are fewer.
fn behind_ends(text: &[u8], ends: u64) -> Option<(&[u8], usize)>
    ensures there { MatchOption result (behind_ends ends (pieces_of text.now) ≡ []) (λ x. behind_ends ends (pieces_of text.now) ≡ behind_ends 0 (pieces_of x.0.now)) }
    ensures passed { IfSome result (λ x. x.1 + length (pieces_of x.0.now) ≡ length (pieces_of text.now)) }
    ensures few { IfSome result (λ x. x.1 ≤ length text.now) }
{
    let mut left = ends;
    let mut passed = 0;
    let mut rest = text;
    while left > 0 {
        let Some((line, behind)) = cut_line(rest) else {
            return None;
        };
        left = left_behind(line, left);
        passed += 1;
        rest = behind;
    }
    Some((rest, passed))
}

// What is said of one that begins at this line, by the line that names its bay.
fn begins_text(alloc: Global, number: u64, line: usize, bay: &[u8]) -> Result<Vec<u8>, AllocError>
    ensures { IfOk result (λ said. said.items ≡ begins_text number line bay.now) }
{
    let mut said = Vec::new(alloc);
    said.extend_from_slice(b"certificate ")?;
    push_decimal(&mut said, number)?;
    said.extend_from_slice(b" begins at line ")?;
    push_decimal(&mut said, line)?;
    said.extend_from_slice(b": ")?;
    said.extend_from_slice(bay)?;
    Ok(said)
}

// What is said of the certificate with this number; of the first nothing.
fn certificate_text(alloc: Global, number: u64, text: &[u8]) -> Result<Option<Vec<u8>>, AllocError>
    ensures { IfOk result (λ said. option_map (λ s. s.items) said ≡ certificate_text number text.now) }
{
    if number < 2 {
        return Ok(None);
    }
    let Some((rest, passed)) = behind_ends(text, number - 1) else {
        return Ok(None);
    };
    let Some(line) = line_numbered(rest, 2) else {
        return Ok(None);
    };
    Ok(Some(begins_text(alloc, number, passed + 1, line)?))
}

/// The line on the certificate with this number.
pub(crate) fn line_on_certificate<F: Files>(
    alloc: Global,
    files: &F,
    name: &str,
    number: u64,
) -> Option<FoundLine>
    ensures plain { IfSome result (λ line. IsPlainText line.items) }
    ensures said { IfSome result (λ line. IsCertificateLine ((F.known files.now).given name.now) number line.items) }
{
    let text = files.begins(alloc, name, MOST_REPORT)?;
    let Ok(said) = certificate_text(alloc, number, text.as_slice()) else {
        return None;
    };
    let words = said?;
    Some(shown(words.as_slice()))
}
