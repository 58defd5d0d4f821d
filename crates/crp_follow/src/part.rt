//! A part of a report by name.
ghost use Rattle.std.specs.Prelude.{◌≡◌, map};
ghost use Rattle.std.specs.List.{list_any};
ghost use Rattle.std.specs.Str.{bytes_eq};
ghost use Rattle.crp_plan.specs.BayNames.{same_bay};

use crp_plan::BayName;
use std::alloc::{AllocError, Global};
use std::marker::Model;

/// Some bays, and those of some blocks; all, where nothing is named.
#[derive(Drop)]
pub struct Part<'a> {
    bays: Vec<BayName>,
    blocks: Vec<&'a str>,
}

impl<'a> Model for Part<'a> {
    ghost use Rattle.std.specs.Prelude.{map};
    ghost use Rattle.crp_follow.specs.Parts.{NamedPart};

    ghost Value = { NamedPart };

    ghost view = { λ p. record { bays = p.bays.items; blocks = map (λ block. block.now) p.blocks.items } };
}

// Whether the bay has one of these names.
fn is_among(names: &[BayName], bay: &BayName) -> bool
    ensures { result ≡ list_any (λ name. same_bay name bay.now) names.now }
{
    for name in names {
        if *name == *bay {
            return true;
        }
    }
    false
}

// Whether it stands in one of these blocks.
fn is_in_one(blocks: &[&str], bay: &BayName) -> bool
    ensures { result ≡ list_any (λ block. bytes_eq block bay.now.block) (map (λ block. block.now) blocks.now) }
{
    for block in blocks {
        if block.as_bytes() == bay.block() {
            return true;
        }
    }
    false
}

impl<'a> Part<'a> {
    ghost use Rattle.std.specs.Prelude.{◌≡◌, IfOk, length, map};
    ghost use Rattle.crp_follow.specs.Parts.{is_in_part};

    /// The bays of these names, and those of these blocks. Takes no memory.
    pub fn new(bays: Vec<BayName>, blocks: Vec<&'a str>) -> Part<'a>
        ensures { result ≡ record { bays = bays.items; blocks = map (λ block. block.now) blocks.entry.items } }
    {
        Part { bays, blocks }
    }

    /// The names of the bays.
    pub(crate) fn bays(&self) -> &[BayName]
        ensures { result.now ≡ self.now.bays }
    {
        &self.bays
    }

    /// The blocks.
    pub(crate) fn blocks(&self) -> &[&'a str]
        ensures { map (λ block. block.now) result.now ≡ self.now.blocks }
    {
        &self.blocks
    }

    /// The same part.
    pub fn copy(&self, alloc: Global) -> Result<Part<'a>, AllocError>
        ensures { IfOk result (λ part. part ≡ self.now) }
    {
        let mut bays = Vec::new(alloc);
        for bay in &self.bays {
            bays.push(bay.copy())?;
        }
        let blocks = Vec::from_slice(alloc, &self.blocks)?;
        Ok(Part { bays, blocks })
    }

    /// Whether the bay is named, or stands in a block that is; or nothing is named.
    pub(crate) fn has(&self, bay: &BayName) -> bool
        ensures { result ≡ is_in_part self.now bay.now }
    {
        (self.bays.is_empty() && self.blocks.is_empty())
            || is_among(&self.bays, bay)
            || is_in_one(&self.blocks, bay)
    }
}
