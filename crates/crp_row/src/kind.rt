ghost use Rattle.std.specs.Prelude.{◌≡◌};
ghost use Rattle.crp_row.specs.Rows.{has_text as takes_text, gives_away as gives_subtree};

/// What a symbol of a search tree is.
#[derive(Clone, Copy, Debug, Drop, PartialEq, Eq)]
pub enum Kind {
    /// The search was cut by the blocking bound.
    CutB,
    /// The search was cut by the look-ahead bound.
    CutL,
    /// The search was cut by reasons that have a text; they show that so many relocations are still to come, or more.
    CutR(u8),
    /// So many trees follow, one for each legal row of the position, rising.
    Branch(u8),
    /// The subtree was given to a part of its own.
    Given,
}

/// Whether a symbol of this kind has a text.
pub(crate) fn has_text(kind: Kind) -> bool
    ensures { result ≡ takes_text kind }
{
    match kind {
        Kind::CutR(_) => true,
        Kind::CutB | Kind::CutL | Kind::Branch(_) | Kind::Given => false,
    }
}

/// Whether a symbol of this kind gives a subtree away.
#[inline]
pub(crate) fn gives_away(kind: Kind) -> bool
    ensures { result ≡ gives_subtree kind }
{
    match kind {
        Kind::Given => true,
        Kind::CutB | Kind::CutL | Kind::CutR(_) | Kind::Branch(_) => false,
    }
}
