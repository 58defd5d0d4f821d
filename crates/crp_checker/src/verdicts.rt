use crate::refused::Refused;
use crate::verdict::Verdict;
use crp_plan::BayName;
use std::fmt;
use std::marker::Model;
use thiserror::Error;

/// Whose certificates these are, and what they show, in order. A contract sees them as a list.
#[derive(Drop)]
pub struct Verdicts {
    verdicts: Vec<(BayName, Verdict)>,
}

impl Model for Verdicts {
    ghost use Rattle.std.specs.Prelude.{List};
    ghost use Rattle.crp_plan.specs.BayNames.{YardBay};
    ghost use Rattle.crp_checker.specs.declared.verdict.Verdict.{Verdict};

    ghost Value = { List (YardBay × Verdict) };

    ghost view = { λ a. a.verdicts.items };
}

impl Verdicts {
    ghost use Rattle.std.specs.Prelude.{◌≡◌};

    /// These verdicts.
    pub fn of(verdicts: Vec<(BayName, Verdict)>) -> Verdicts
        ensures { result ≡ verdicts.items }
    {
        Verdicts { verdicts }
    }

    /// The verdicts, in order.
    pub fn as_slice(&self) -> &[(BayName, Verdict)]
        ensures { result.now ≡ self.now }
    {
        self.verdicts.as_slice()
    }

    /// The verdicts, in a vector.
    pub fn into_vec(self) -> Vec<(BayName, Verdict)>
        ensures { result.items ≡ self }
    {
        self.verdicts
    }
}

impl fmt::Debug for Verdicts {
    fn fmt<W: fmt::Write>(&self, f: &mut fmt::Formatter<W>) -> fmt::Result {
        let count = self.verdicts.len();
        write!(f, "{count} verdicts")
    }
}

/// Why a file of certificates is refused.
#[derive(Debug, Drop, Error)]
#[error("certificate {number}: {refused}")]
pub struct FileRefused {
    /// Whose the certificates before are, and what they show.
    pub before: Verdicts,
    /// The number of the certificate that is refused, from 1.
    pub number: u64,
    /// Why it is refused.
    pub refused: Refused,
}
