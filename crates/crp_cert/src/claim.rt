/// What a certificate claims of the relocations of plans.
#[derive(Clone, Copy, Debug, Drop, PartialEq, Eq)]
pub enum Claim {
    /// Each plan has at least so many.
    AtLeast(u32),
    /// The plan of the certificate has so many, each plan has at least as many, and of those with as
    /// many its path is the first.
    First(u32),
}

impl Claim {
    ghost use Rattle.std.specs.Prelude.{◌≡◌};
    ghost use Rattle.crp_cert.specs.Text.{bound};

    /// The relocations that each plan is claimed to have at least.
    pub fn bound(self) -> u32
        ensures { result ≡ bound self }
    {
        match self {
            Claim::AtLeast(least) => least,
            Claim::First(least) => least,
        }
    }
}
