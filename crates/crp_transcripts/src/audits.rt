//! The audit of a run of `solve`.
use std::alloc::{AllocError, Global};

/// The file of the report that is audited.
pub(crate) const REPORT: &str = "audited-report.txt";

// The options of `solve` that say what its input means.
const OF_INPUT: [&str; 9] = [
    "--rows",
    "--tiers",
    "--heights",
    "--sizes",
    "--separator",
    "--order",
    "--code",
    "--message",
    "--bay",
];

// Its other options with a value.
const OF_SEARCH: [&str; 7] = [
    "--workers",
    "--budget",
    "--split",
    "--beam",
    "--thin",
    "--after",
    "--cert",
];

// An option and its value, where a word has both.
fn parted(word: &str) -> (&str, Option<&str>) {
    match word.split_once("=") {
        Some((name, value)) => (name, Some(value)),
        None => (word, None),
    }
}

/// The words of the audit of a run of `solve` with these words: its input, its report and its certificates. Nothing where the words are
/// others, or the run writes no certificates, or another report than is read.
pub(crate) fn audit_of<'a>(
    alloc: Global,
    words: &[&'a str],
) -> Result<Option<Vec<&'a str>>, AllocError> {
    let Some((command, rest)) = words.split_first() else {
        return Ok(None);
    };
    if *command != "solve" {
        return Ok(None);
    }
    let mut audit = Vec::new(alloc);
    audit.push("audit")?;
    let mut certificates = None;
    // The option whose value is the next word.
    let mut begun = None;
    for word in rest {
        let (name, value) = match begun {
            Some(name) => (name, Some(*word)),
            None => parted(word),
        };
        begun = None;
        match value {
            Some(value) if name == "--cert" => certificates = Some(value),
            Some(value) if OF_INPUT.contains(&name) => {
                audit.push(name)?;
                audit.push(value)?;
            }
            Some(_) => {}
            None if OF_INPUT.contains(&name) || OF_SEARCH.contains(&name) => begun = Some(name),
            None if name == "--json" => return Ok(None),
            None if !name.starts_with("--") => audit.push(name)?,
            None => {}
        }
    }
    let Some(certificates) = certificates else {
        return Ok(None);
    };
    audit.push(REPORT)?;
    audit.push(certificates)?;
    Ok(Some(audit))
}
