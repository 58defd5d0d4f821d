ghost use Rattle.std.specs.Prelude.{◌≡◌};
ghost use Rattle.crp_thinning.specs.Steps.{is_move};

/// One step on the way to a thinned position. Rows are counted from 0.
#[derive(Clone, Copy, Default, Drop)]
pub enum Step {
    /// The container whose turn it was left the row.
    Took { row: u8 },
    /// The rank whose turn it was is missing.
    #[default]
    Passed,
    /// The blocker went from one row to another.
    Put { from: u8, to: u8 },
    /// The blocker of this rank was lifted out of the row.
    Lifted { from: u8, rank: u8 },
}

/// Whether a step is a relocation or a lift.
pub fn is_move(step: Step) -> bool
    ensures { result ≡ is_move step }
{
    match step {
        Step::Took { row: _ } => false,
        Step::Passed => false,
        Step::Put { from: _, to: _ } => true,
        Step::Lifted { from: _, rank: _ } => true,
    }
}
