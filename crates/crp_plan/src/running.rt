//! What one worker of a search does to the limit and the claims, and what it knows of them.
ghost use Rattle.std.specs.Prelude.{◌≡◌, ◌+◌, ◌^◌, ◌<◌};

/// What one worker knows of the words that the workers of a search share, and what it did to them.
#[derive(Clone, Copy, PartialEq, Eq, Debug)]
pub struct View {
    /// The limit as the worker saw it last, in relocations.
    pub seen: u64,
    /// The fewest relocations of the plans that it offered; the limit at the start where it offered none.
    pub mine: u64,
    /// How many of its claims were granted.
    pub granted: u64,
    /// How many of its claims were refused.
    pub refused: u64,
    /// How many of the seats at the words it has.
    pub share: u64,
}

/// The words, and the view of a worker that shares them with nobody.
#[derive(Clone, Copy, PartialEq, Eq, Debug)]
pub struct Words {
    /// A plan is wanted that has fewer relocations than this.
    pub limit: u64,
    /// How many expansions were claimed.
    pub spent: u64,
    /// What the worker knows.
    pub view: View,
}

impl Words {
    ghost use Rattle.crp_plan.specs.Running.{after_see, after_offer, after_claim, is_granted};

    /// The words as a search begins, where the worker has all seats.
    pub fn start(limit: u64, share: u64) -> Words
        ensures { result ≡ record { limit = limit; spent = 0; view = record { seen = limit; mine = limit; granted = 0; refused = 0; share = share } } }
    {
        let view = View {
            seen: limit,
            mine: limit,
            granted: 0,
            refused: 0,
            share,
        };
        Words {
            limit,
            spent: 0,
            view,
        }
    }

    /// Sees the limit.
    pub fn see(&mut self) -> u64
        ensures limit { result ≡ self.old.limit }
        ensures step { self.new ≡ after_see self.old }
    {
        let limit = self.limit;
        self.view.seen = limit;
        limit
    }

    /// Offers a plan with so many relocations.
    pub fn offer(&mut self, count: u32)
        ensures { self.new ≡ after_offer count self.old }
    {
        let count = u64::from(count);
        self.limit = self.limit.min(count);
        self.view.seen = self.limit;
        self.view.mine = self.view.mine.min(count);
    }

    /// Claims one expansion of so many in all, and answers whether it was granted.
    pub fn claim(&mut self, budget: u64) -> bool
        requires { self.old.spent + self.old.view.granted + self.old.view.refused < 2 ^ 63 }
        ensures answer { result ≡ is_granted budget self.old }
        ensures step { self.new ≡ after_claim budget self.old }
    {
        let granted = self.spent < budget;
        self.spent += 1;
        if granted {
            self.view.granted += 1;
        } else {
            self.view.refused += 1;
        }
        granted
    }
}
