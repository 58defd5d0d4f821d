//! The names that parts give.
ghost use Rattle.std.specs.Prelude.{◌≡◌, ◌++◌, ◌∷◌, [], Some, OnOk};
ghost use Rattle.crp_checker.specs.Gathered.{gathered, joined, first_of_both};

use crate::path::Path;
use crp_tree::Name;
use std::alloc::{AllocError, Global};
use std::marker::Model;

/// The names that parts give, and of those that no part can have, since they have more than 8 rows, the first alone. So a certificate
/// that gives many takes little memory for each.
#[derive(Drop)]
pub struct GivenNames {
    short: Vec<Name>,
    longer: Option<Path>,
}

impl Model for GivenNames {
    ghost use Rattle.crp_checker.specs.Gathered.{Gathered};

    ghost Value = { Gathered };

    ghost view = { λ given. record { short = given.short.items; longer = given.longer } };
}

/// Keeps the path in place of one that does not come before it.
fn keep_first(alloc: Global, first: &mut Option<Path>, path: &[u8]) -> Result<(), AllocError>
    ensures { OnOk result (first.new ≡ first_of_both first.old (Some path.now)) }
{
    if let Some(kept) = &*first {
        if !path.cmp(&kept.rows()).is_lt() {
            return Ok(());
        }
    }
    *first = Some(Path::from_rows(alloc, path)?);
    Ok(())
}

/// The same of a path, if there is one.
fn keep_first_of(
    alloc: Global,
    first: &mut Option<Path>,
    path: Option<Path>,
) -> Result<(), AllocError>
    ensures { OnOk result (first.new ≡ first_of_both first.old path) }
{
    match path {
        Some(path) => keep_first(alloc, first, path.rows()),
        None => Ok(()),
    }
}

/// Adds names to others.
fn add_names(names: &mut Vec<Name>, more: Vec<Name>) -> Result<(), AllocError>
    ensures { OnOk result (names.new.items ≡ names.old.items ++ more.items) }
{
    for name in more {
        names.push(name)?;
    }
    Ok(())
}

impl GivenNames {
    /// No names.
    pub fn none(alloc: Global) -> GivenNames
        ensures { result ≡ gathered [] }
    {
        GivenNames {
            short: Vec::new(alloc),
            longer: None,
        }
    }

    /// Adds the name of these rows.
    pub fn push(&mut self, alloc: Global, path: &[u8]) -> Result<(), AllocError>
        ensures { OnOk result (self.new ≡ joined self.old (gathered (path.now ∷ []))) }
    {
        let Some(name) = Name::from_rows(path) else {
            return keep_first(alloc, &mut self.longer, path);
        };
        self.short.push(name)?;
        Ok(())
    }

    /// Adds what was kept of more names.
    pub fn append(&mut self, alloc: Global, more: GivenNames) -> Result<(), AllocError>
        ensures { OnOk result (self.new ≡ joined self.old more) }
    {
        let GivenNames { short, longer } = more;
        add_names(&mut self.short, short)?;
        keep_first_of(alloc, &mut self.longer, longer)
    }

    /// The names of at most 8 rows, and the first of the longer ones.
    pub fn into_parts(self) -> (Vec<Name>, Option<Path>)
        ensures short { result.0.items ≡ self.short }
        ensures longer { result.1 ≡ self.longer }
    {
        (self.short, self.longer)
    }
}
