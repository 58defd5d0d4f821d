ghost use Rattle.std.specs.Prelude.{◌≡◌, [], ◌∷◌, length, map, IfSome, IfNone};
ghost use Rattle.std.specs.List.{list_any};
ghost use Rattle.crp_row.specs.Rows.{symbol_of, kind_of, has_text as takes_text};

use crate::kind::{Kind, has_text};
use crate::text::Text;
use std::marker::Model;

/// Symbols of a row that are read one after the other: those that are left.
#[derive(Drop)]
pub struct Rest<'a> {
    kinds: &'a [Kind],
    texts: &'a [Text],
}

impl<'a> Model for Rest<'a> {
    ghost use Rattle.std.specs.Prelude.{◌≡◌, List, length};
    ghost use Rattle.std.specs.Coded.{coded_list};
    ghost use Rattle.crp_row.specs.Symbol.{Symbol};
    ghost use Rattle.crp_row.specs.Rows.{symbols_of, texts_in, symbol_code};

    ghost Value = { List Symbol };

    ghost coded = { coded_list symbol_code };

    ghost view = { λ r. symbols_of r.kinds.now r.texts.now };

    ghost invariant = { λ r. texts_in r.kinds.now ≡ length r.texts.now };
}

impl<'a> Rest<'a> {
    ghost use Rattle.std.specs.Prelude.{◌≡◌, length};
    ghost use Rattle.crp_row.specs.Rows.{symbols_of, texts_in};

    /// All of these.
    pub(crate) fn of(kinds: &'a [Kind], texts: &'a [Text]) -> Rest<'a>
        requires { texts_in kinds.now ≡ length texts.now }
        ensures { result ≡ symbols_of kinds.now texts.now }
    {
        Rest { kinds, texts }
    }

    /// The same symbols.
    pub fn again(&self) -> Rest<'a>
        ensures { result ≡ self.now }
    {
        Rest {
            kinds: self.kinds,
            texts: self.texts,
        }
    }

    /// How many are left.
    pub fn len(&self) -> usize
        ensures { result ≡ length self.now }
    {
        self.kinds.len()
    }

    /// What each of them is.
    pub fn kinds(&self) -> &'a [Kind]
        ensures { result.now ≡ map kind_of self.now }
    {
        self.kinds
    }

    /// Whether one of them has reasons. It looks at none.
    pub fn has_reasons(&self) -> bool
        ensures { result ≡ list_any takes_text (map kind_of self.now) }
    {
        !self.texts.is_empty()
    }

    /// The next symbol, which is no longer left then: what it is, and the text of its reasons; that of a symbol without reasons is empty.
    pub fn next(&mut self) -> Option<(Kind, &'a [u8])>
        ensures some { IfSome result (λ next. self.old ≡ symbol_of next.0 next.1.now ∷ self.new) }
        ensures none { IfNone result (self.old ≡ []) }
        ensures same { IfNone result (self.new ≡ self.old) }
    {
        let (kind, kinds) = self.kinds.split_first()?;
        if !has_text(*kind) {
            self.kinds = kinds;
            return Some((*kind, &[]));
        }
        let Some((text, texts)) = self.texts.split_first() else {
            unreachable!()
        };
        self.kinds = kinds;
        self.texts = texts;
        Some((*kind, text.bytes()))
    }
}
