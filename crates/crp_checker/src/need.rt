//! What a head says of the symbols of parts.
ghost use Rattle.std.specs.Prelude.{◌≡◌, ◌≤◌, ℕ, List};
ghost use Rattle.crp_tree.specs.First.{need_at};
ghost use Rattle.crp_checker.specs.Kept.{need_by};

use crp_cert::{Claim, Rows, Version};

/// What is kept of a head to say which symbols parts may have, and the values that their cuts need.
#[derive(Drop)]
pub struct Need {
    /// The version of the text.
    pub version: Version,
    /// What is claimed.
    pub claim: Claim,
    /// The rows of the plan, if there is one.
    pub plan: Option<Rows>,
}

/// The value that a cut at a path needs, where the first best plan is claimed to have so many relocations, and the
/// plan has these rows: one more before it.
fn first_need(least: u32, plan: &[u8], path: &[u8]) -> usize
    ensures { result ≡ need_at least plan.now path.now }
{
    if path.cmp(&plan).is_lt() {
        return least as usize + 1;
    }
    least as usize
}

impl Need {
    /// The value that a cut at a path needs.
    #[inline]
    pub fn at(&self, path: &[u8]) -> usize
        ensures { result ≡ need_by self.now path.now }
    {
        match (self.claim, &self.plan) {
            (Claim::First(least), Some(plan)) => first_need(least, plan.as_slice(), path),
            (claim, _) => claim.bound() as usize,
        }
    }

    /// What no cut needs more than, at whatever path.
    pub fn most(&self) -> usize
        ensures { (path : List ℕ) → need_by self.now path ≤ result }
    {
        match self.claim {
            Claim::AtLeast(least) => least as usize,
            Claim::First(least) => least as usize + 1,
        }
    }
}
