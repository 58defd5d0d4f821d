//! Going on at a node that no bound closes.
ghost use Rattle.std.specs.Prelude.{◌≡◌, ◌≤◌, [], IfOk, IfErr, OnErr};
ghost use Rattle.crp_thinning.specs.Symbols.{Closes};
ghost use Rattle.crp_search.specs.Tries.{EndsTry, GoesOn, IfCloses, OnlyGranted};

use crate::limit::Limit;
use crp_bay::Position;
use crp_thinning::{Thinned, Unclosed, close_thinned};
use std::alloc::{AllocError, Global};

/// Which reasons may close a node that no bound closes: thinned branches and chains.
#[derive(Clone, Copy, Debug, PartialEq, Eq)]
pub struct Thinning {
    /// The most thinned branches of a try at a node; with 0 none is made.
    pub most: u32,
    /// The most rows that may be open to any container of a chain; with 0 no chains are looked for.
    pub rows: u8,
}

impl Thinning {
    /// No reasons: the bounds alone close nodes.
    pub fn none() -> Thinning
        ensures { result ≡ record { most = 0; rows = 0 } }
    {
        Thinning { most: 0, rows: 0 }
    }
}

/// How a walk goes on at a node that no bound closes.
#[derive(Clone, Copy, Debug, Drop, PartialEq, Eq)]
pub enum Way {
    /// Reasons close it, which show so many relocations.
    Closed(u8),
    /// An expansion was granted.
    Granted,
    /// A claim was refused.
    Refused,
}

/// Which reasons a search may give, and the text of those that it gave last.
#[derive(Drop)]
pub struct Reasons {
    thinning: Thinning,
    text: Vec<u8>,
}

impl Reasons {
    ghost use Rattle.std.specs.Prelude.{◌≡◌};

    /// No reasons are given yet.
    pub fn new(alloc: Global, thinning: Thinning) -> Reasons
        ensures { result.thinning ≡ thinning }
    {
        Reasons {
            thinning,
            text: Vec::new(alloc),
        }
    }

    /// The text of the reasons that were given last.
    pub fn text(&self) -> &[u8]
        ensures { result.now ≡ self.now.text.items }
    {
        self.text.as_slice()
    }

    // Tries to close a node by reasons that show just so many relocations. It stands apart, since a bay with its thinned branches takes more
    // than a kilobyte, which a caller that has this in itself would clear at each node.
    #[inline(never)]
    fn close_at<L: Limit>(
        &mut self,
        position: &Position,
        bound: u8,
        limit: &mut L,
    ) -> Result<(), Unclosed>
        ensures thinning { self.new.thinning ≡ self.old.thinning }
        ensures shown { IfOk result (λ _. Closes position.now.place bound self.new.text.items) }
        ensures granted { IfOk result (λ _. OnlyGranted 0 self.old.thinning.most (L.view limit.old) (L.view limit.new)) }
        ensures ended { IfErr result (λ why. EndsTry self.old.thinning.most why (L.view limit.old) (L.view limit.new)) }
        ensures open { OnErr result (self.new.text.items ≡ []) }
        ensures same { (L.problem limit.new ≡ L.problem limit.old) × (L.budget limit.new ≡ L.budget limit.old) × (L.puts limit.new ≡ L.puts limit.old) }
    {
        let Thinning { most, rows } = self.thinning;
        self.text.clear();
        let mut place = Thinned::of(position);
        close_thinned(
            &mut place,
            u32::from(bound),
            most,
            rows,
            limit,
            &mut self.text,
        )?;
        Ok(())
    }

    /// Tries to close a node by reasons that show so many relocations. More than a byte says are not shown.
    #[inline(always)]
    fn close<L: Limit>(
        &mut self,
        position: &Position,
        need: u64,
        limit: &mut L,
    ) -> Result<u8, Unclosed>
        ensures thinning { self.new.thinning ≡ self.old.thinning }
        ensures shown { IfOk result (λ bound. (bound ≡ need) × Closes position.now.place bound self.new.text.items) }
        ensures granted { IfOk result (λ _. OnlyGranted 0 self.old.thinning.most (L.view limit.old) (L.view limit.new)) }
        ensures ended { IfErr result (λ why. EndsTry self.old.thinning.most why (L.view limit.old) (L.view limit.new)) }
        ensures same { (L.problem limit.new ≡ L.problem limit.old) × (L.budget limit.new ≡ L.budget limit.old) × (L.puts limit.new ≡ L.puts limit.old) }
    {
        let Thinning { most, rows } = self.thinning;
        if need > 255 || (most == 0 && rows == 0) {
            return Err(Unclosed::Open);
        }
        let bound = need as u8;
        self.close_at(position, bound, limit)?;
        Ok(bound)
    }

    /// Goes on at a node where so many relocations more suffice: closes it by reasons, or claims an expansion.
    #[inline(always)]
    pub fn go_on<L: Limit>(
        &mut self,
        position: &Position,
        need: u64,
        limit: &mut L,
    ) -> Result<Way, AllocError>
        ensures thinning { self.new.thinning ≡ self.old.thinning }
        ensures shown { IfOk result (IfCloses position.now.place need self.new.text.items) }
        ensures way { IfOk result (λ way. GoesOn self.old.thinning.most way (L.view limit.old) (L.view limit.new)) }
        ensures short { IfErr result (λ _. OnlyGranted 0 self.old.thinning.most (L.view limit.old) (L.view limit.new)) }
        ensures same { (L.problem limit.new ≡ L.problem limit.old) × (L.budget limit.new ≡ L.budget limit.old) × (L.puts limit.new ≡ L.puts limit.old) }
    {
        match self.close(position, need, limit) {
            Ok(bound) => return Ok(Way::Closed(bound)),
            Err(Unclosed::Refused) => return Ok(Way::Refused),
            Err(Unclosed::Memory) => return Err(AllocError),
            Err(Unclosed::Open) => {}
        }
        if limit.claim() {
            Ok(Way::Granted)
        } else {
            Ok(Way::Refused)
        }
    }
}
