ghost use Rattle.std.specs.Prelude.{◌≡◌, ◌<◌, ◌++◌, ◌∷◌, [], false, map, OnOk, OnErr};
ghost use Rattle.std.specs.List.{list_any};
ghost use Rattle.crp_row.specs.Symbol.{CutR};
ghost use Rattle.crp_row.specs.Rows.{symbol_of, kind_of, has_text as takes_text, gives_away as gives_subtree};

use crate::kind::{Kind, gives_away};
use crate::rest::Rest;
use crate::text::Text;
use std::alloc::{AllocError, Global};
use std::marker::Model;

/// Symbols in a row.
#[derive(Drop)]
pub struct Row {
    alloc: Global,
    kinds: Vec<Kind>,
    texts: Vec<Text>,
    gives: bool,
}

impl Model for Row {
    ghost use Rattle.std.specs.Prelude.{◌≡◌, ◌-◌, length, vec_len, vec_capacity};
    ghost use Rattle.std.specs.List.{list_any};
    ghost use Rattle.crp_row.specs.Rows.{Row as Kept, symbols_of, texts_in, gives_away as gives_subtree, row_code};

    ghost Value = { Kept };

    ghost coded = { row_code };

    ghost view = { λ r. record { symbols = symbols_of r.kinds.items r.texts.items; room = vec_capacity r.kinds - vec_len r.kinds } };

    ghost invariant = { λ r. (texts_in r.kinds.items ≡ length r.texts.items) × (r.gives ≡ list_any gives_subtree r.kinds.items) };
}

impl Row {
    /// No symbols. It takes no memory.
    pub fn new(alloc: Global) -> Row
        ensures { result.symbols ≡ [] }
    {
        Row {
            alloc,
            kinds: Vec::new(alloc),
            texts: Vec::new(alloc),
            gives: false,
        }
    }

    /// Makes room for one symbol more, where there is none.
    #[inline]
    pub fn make_room(&mut self) -> Result<(), AllocError>
        ensures symbols { self.new.symbols ≡ self.old.symbols }
        ensures room { OnOk result (0 < self.new.room) }
    {
        if self.kinds.len() < self.kinds.capacity() {
            return Ok(());
        }
        self.kinds.reserve(1)
    }

    /// Adds a symbol without a text, for which there must be room.
    #[inline]
    pub fn push_reserved(&mut self, kind: Kind)
        requires room { 0 < self.old.room }
        requires plain { takes_text kind ≡ false }
        ensures { self.new.symbols ≡ self.old.symbols ++ symbol_of kind [] ∷ [] }
    {
        self.kinds.push_reserved(kind);
        self.gives |= gives_away(kind);
    }

    /// Adds a cut by reasons with a copy of their text; they show that so many relocations are still to come.
    #[inline(never)]
    pub fn push_reasons(&mut self, bound: u8, text: &[u8]) -> Result<(), AllocError>
        ensures symbols { OnOk result (self.new.symbols ≡ self.old.symbols ++ CutR bound text.now ∷ []) }
        ensures same { OnErr result (self.new.symbols ≡ self.old.symbols) }
    {
        self.kinds.reserve(1)?;
        self.texts.push(Text::of(self.alloc, text)?)?;
        self.kinds.push_reserved(Kind::CutR(bound));
        Ok(())
    }

    /// Adds a symbol, with a copy of this text if it has one.
    #[inline(always)]
    pub fn push(&mut self, kind: Kind, text: &[u8]) -> Result<(), AllocError>
        ensures symbols { OnOk result (self.new.symbols ≡ self.old.symbols ++ symbol_of kind text.now ∷ []) }
        ensures same { OnErr result (self.new.symbols ≡ self.old.symbols) }
    {
        if let Kind::CutR(bound) = kind {
            return self.push_reasons(bound, text);
        }
        self.make_room()?;
        self.push_reserved(kind);
        Ok(())
    }

    /// Whether one of its symbols gives a subtree away. It looks at none.
    pub fn gives(&self) -> bool
        ensures { result ≡ list_any gives_subtree (map kind_of self.now.symbols) }
    {
        self.gives
    }

    /// Its symbols, to be read.
    pub fn symbols(&self) -> Rest<'_>
        ensures { result ≡ self.now.symbols }
    {
        Rest::of(self.kinds.as_slice(), self.texts.as_slice())
    }
}
