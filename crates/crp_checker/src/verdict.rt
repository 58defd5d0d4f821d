/// What an accepted certificate shows of its problem. Counts are relocations.
#[derive(Clone, Copy, Debug, PartialEq, Eq)]
pub enum Verdict {
    /// The fewest relocations of a plan.
    Optimal(u32),
    /// There is no plan.
    NoPlan,
    /// Neither is known: no plan has fewer relocations than the lower bound.
    Bounds {
        /// No plan has fewer relocations.
        lower: u32,
        /// The relocations of the plan that was found, if one was.
        upper: Option<u32>,
    },
    /// The plan of the certificate has the fewest relocations, so many, and of all plans with as many
    /// its path is the first.
    First(u32),
}
