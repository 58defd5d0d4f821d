ghost use Rattle.std.specs.Prelude.{◌≡◌};
ghost use Rattle.crp_c.specs.Numbers.{numbers_of};

use crp_checker::Verdict;

/// Nothing is known.
pub const NOTHING: u32 = 0;

/// The fewest relocations of a plan are known.
pub const OPTIMAL: u32 = 1;

/// There is no plan.
pub const NO_PLAN: u32 = 2;

/// No plan has fewer relocations than the lower bound.
pub const BOUNDS: u32 = 3;

/// The plan is the first of all plans with the fewest relocations.
pub const FIRST: u32 = 4;

/// Stands for a number that there is not.
pub const NONE: u32 = u32::MAX;

/// What is known of a bay.
#[repr(C)]
#[derive(Clone, Copy)]
pub struct Known {
    /// `OPTIMAL`, `NO_PLAN`, `BOUNDS`, `FIRST`, or else `NOTHING`.
    pub kind: u32,
    /// No plan has fewer relocations.
    pub lower: u32,
    /// A plan has so many, or `NONE`.
    pub upper: u32,
}

/// That nothing is known.
pub(crate) fn nothing() -> Known {
    Known {
        kind: NOTHING,
        lower: 0,
        upper: NONE,
    }
}

/// What a verdict says, in numbers.
pub(crate) fn known_by(verdict: Verdict) -> Known
    ensures { result ≡ numbers_of verdict }
{
    match verdict {
        Verdict::Optimal(count) => Known {
            kind: OPTIMAL,
            lower: count,
            upper: count,
        },
        Verdict::NoPlan => Known {
            kind: NO_PLAN,
            lower: NONE,
            upper: NONE,
        },
        Verdict::Bounds { lower, upper } => Known {
            kind: BOUNDS,
            lower,
            upper: upper.unwrap_or(NONE),
        },
        Verdict::First(count) => Known {
            kind: FIRST,
            lower: count,
            upper: count,
        },
    }
}
