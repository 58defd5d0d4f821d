ghost use Rattle.std.specs.Prelude.{◌≡◌};
ghost use Rattle.crp_thinning.specs.Stages.{is_done as done, is_refused as refused};

/// What comes next of a text that is followed.
#[derive(Clone, Copy, Drop)]
pub enum Stage {
    /// A tree.
    Tree,
    /// The rest of a family.
    Family,
    /// Nothing: all trees have come.
    Done,
    /// Nothing that would fit.
    Refused,
}

impl Stage {
    /// Whether all trees have come.
    pub fn is_done(self) -> bool
        ensures { result ≡ done self }
    {
        match self {
            Stage::Tree => false,
            Stage::Family => false,
            Stage::Done => true,
            Stage::Refused => false,
        }
    }

    /// Whether nothing fits.
    pub fn is_refused(self) -> bool
        ensures { result ≡ refused self }
    {
        match self {
            Stage::Tree => false,
            Stage::Family => false,
            Stage::Done => false,
            Stage::Refused => true,
        }
    }
}
