//! The symbols of one part line, byte by byte.
ghost use Rattle.std.specs.Prelude.{◌≡◌, ◌++◌, ◌∷◌, [], ℕ, List, false, OnOk, IfOk, None, Some};
ghost use Rattle.crp_cert.specs.declared.version.Version.{Version as Numbered};
ghost use Rattle.crp_tree.specs.Spots.{Spot};
ghost use Rattle.crp_checker.specs.Walks.{IsStopped};
ghost use Rattle.crp_checker.specs.Kept.{need_by};
ghost use Rattle.crp_checker.specs.Lines.{BeginsNoReasons, TookReasons, LineIs};
ghost use Rattle.crp_reasons.specs.Rests.{Left};
ghost use Rattle.crp_checker.specs.Ends.{IsEndOfSymbols};

use crate::found::Found;
use crate::given_names::GivenNames;
use crate::line_end::LineEnd;
use crate::need::Need;
use crate::owing::Owing;
use crate::symbol::{note, symbol_of};
use crate::wrong::Wrong;
use crp_bounds::Bounded;
use crp_cert::Version;
use crp_reasons::{ReasonsReader, Step};
use std::alloc::{AllocError, Global};

/// The symbols of a part line as far as they came.
#[derive(Drop)]
pub struct SymbolLine {
    /// Where trees are owed.
    pub owing: Owing,
    /// What was met among those that trees were owed for.
    pub found: Found,
    /// Whether symbols followed behind the tree.
    pub trailing: bool,
    /// Whether a byte came that may not stand there.
    pub unknown: bool,
    /// The reasons that have begun and not ended.
    pub reasons: Option<ReasonsReader>,
}

impl SymbolLine {
    /// The line of a part whose name has these rows and leads to this place.
    pub fn new(alloc: Global, name: &[u8], place: Bounded) -> Result<SymbolLine, AllocError>
        ensures { IfOk result (λ line. (needs : List ℕ → ℕ) (version : Numbered)
            → LineIs needs version (record { path = name.now; place = place.place }) [] line) }
    {
        let owing = Owing::new(alloc, name, place)?;
        let found = Found {
            count: 0,
            wrong: None,
            given: GivenNames::none(alloc),
        };
        Ok(SymbolLine {
            owing,
            found,
            trailing: false,
            unknown: false,
            reasons: None,
        })
    }

    /// Reads one byte more, with which no reasons begin, and which no tree that is owed can take as its symbol.
    fn read_letter(&mut self, byte: u8)
        requires known { self.old.unknown ≡ false }
        requires closed { self.old.reasons ≡ None }
        requires stopped { IsStopped self.old.owing self.old.found.count byte }
        ensures { (needs : List ℕ → ℕ) (version : Numbered) (top : Spot) (before : List ℕ) → BeginsNoReasons version byte → LineIs needs version top before self.old
            → LineIs needs version top (before ++ byte ∷ []) self.new }
    {
        match symbol_of(self.found.count, byte) {
            Some(_) => self.trailing = true,
            None => self.unknown = true,
        }
    }

    /// Reads one byte more, which no tree that is owed can take as its symbol.
    fn read_behind(&mut self, need: &Need, byte: u8)
        requires known { self.old.unknown ≡ false }
        requires closed { self.old.reasons ≡ None }
        requires stopped { IsStopped self.old.owing self.old.found.count byte }
        ensures { (top : Spot) (before : List ℕ) → LineIs (need_by need.now) need.now.version top before self.old
            → LineIs (need_by need.now) need.now.version top (before ++ byte ∷ []) self.new }
    {
        match (byte, need.version) {
            (b'[', Version::Three) => {
                let place = self.owing.place_of_next();
                self.reasons = Some(ReasonsReader::begin(place));
            }
            _ => self.read_letter(byte),
        }
    }

    /// Reasons with this number come, which do or do not show it.
    fn take_reasons(&mut self, need: &Need, bound: u8, shown: bool) -> Result<(), AllocError>
        ensures took { OnOk result (TookReasons (need_by need.now) bound shown self.old.owing self.old self.new) }
        ensures same { OnOk result ((self.new.unknown ≡ self.old.unknown) × (self.new.reasons ≡ self.old.reasons)) }
    {
        if self.owing.is_paid() {
            self.trailing = true;
            return Ok(());
        }
        let Some(symbol) = self.found.count.checked_add(1) else {
            return Err(AllocError);
        };
        let low = self.owing.pay(need, bound);
        note(&mut self.found.wrong, low, Wrong::Low { symbol });
        note(&mut self.found.wrong, !shown, Wrong::Unshown { symbol });
        self.found.count = symbol;
        Ok(())
    }

    /// Reads one byte more of reasons that have begun.
    fn read_reasons(&mut self, need: &Need, byte: u8) -> Result<(), AllocError>
        requires known { self.old.unknown ≡ false }
        requires open { (left : Left) × (self.old.reasons ≡ Some left) }
        ensures { OnOk result ((top : Spot) (before : List ℕ) → LineIs (need_by need.now) need.now.version top before self.old
            → LineIs (need_by need.now) need.now.version top (before ++ byte ∷ []) self.new) }
    {
        let Some(reader) = &mut self.reasons else {
            unreachable!()
        };
        match reader.feed(byte) {
            Step::On => {}
            Step::Wrong => {
                self.reasons = None;
                self.unknown = true;
            }
            Step::Ended { number, shown } => {
                self.reasons = None;
                self.take_reasons(need, number, shown)?;
            }
        }
        Ok(())
    }

    /// Reads a piece.
    pub fn feed(&mut self, alloc: Global, need: &Need, piece: &[u8]) -> Result<(), AllocError>
        ensures { OnOk result ((top : Spot) (before : List ℕ) → LineIs (need_by need.now) need.now.version top before self.old
            → LineIs (need_by need.now) need.now.version top (before ++ piece.now) self.new) }
    {
        let mut rest = piece;
        while let Some((byte, behind)) = rest.split_first() {
            if self.unknown {
                return Ok(());
            }
            if self.reasons.is_some() {
                self.read_reasons(need, *byte)?;
                rest = behind;
                continue;
            }
            let walked = self.owing.walk(alloc, need, &mut self.found, rest)?;
            if walked == 0 {
                self.read_behind(need, *byte);
                rest = behind;
                continue;
            }
            rest = &rest[walked..];
        }
        Ok(())
    }

    /// What the symbols are, now that the line ends.
    pub fn end(self) -> LineEnd
        ensures { (needs : List ℕ → ℕ) (version : Numbered) (top : Spot) (bytes : List ℕ) → LineIs needs version top bytes self → IsEndOfSymbols needs version top bytes result }
    {
        if self.unknown {
            return LineEnd::Unknown;
        }
        if self.reasons.is_some() {
            return LineEnd::Unknown;
        }
        if self.trailing {
            return LineEnd::Trailing;
        }
        if !self.owing.is_paid() {
            return LineEnd::Unfinished;
        }
        LineEnd::Whole {
            wrong: self.found.wrong,
            given: self.found.given,
        }
    }
}
