//! What a planner chooses for a run.
ghost use Rattle.std.specs.Prelude.{◌≡◌, ◌↔◌, IfOk, IfErr, IsTrue, [], replicate};
ghost use Rattle.crp_plan.specs.Faults.{HasTiers, AreHeights};
ghost use Rattle.crp_sizes.specs.Heights.{CanBeHeights};
ghost use Rattle.crp_sizes.specs.Sizes.{CanBeSizes, one_size};
ghost use Rattle.crp_report.specs.Chosen.{IsRowCount, IsRunFault};
ghost use Rattle.crp_report.specs.declared.settings.RunFault.TheVariants.{Heights, Memory};

use crp_movins::{Loading, Reference};
use crp_order::Mode;
use crp_plan::{BayName, MAX_ROWS, MAX_TIERS};
use crp_sizes::Sizes;
use crp_solve::Settings;
use std::alloc::{AllocError, Global};
use std::marker::Model;
use thiserror::Error;

/// Why settings are refused: the first fault, in this order.
#[derive(Clone, Copy, Debug, Drop, PartialEq, Eq, Error)]
pub enum RunFault {
    /// The bays have no rows, or more than 12.
    #[error("S5")]
    Rows,
    /// The rows have no tiers, or more than 8.
    #[error("S6")]
    Tiers,
    /// There are not 1 to 12 heights of rows, or one of them is not 1 to 8.
    #[error("S4")]
    Heights,
    /// No memory is left.
    #[error("no memory is left")]
    Memory,
}

impl From<AllocError> for RunFault {
    ghost from_gives = { λ _ fault. fault ≡ Memory };

    fn from(_error: AllocError) -> RunFault {
        RunFault::Memory
    }
}

// Whether each row has tiers, and not too many.
fn are_heights(heights: &[u8]) -> bool
    ensures { IsTrue result ↔ AreHeights heights.now }
{
    heights
        .iter()
        .all(|height| *height >= 1 && *height as usize <= MAX_TIERS)
}

/// What a planner chooses for the input of a run: what its yard list and its message mean.
#[derive(Drop)]
pub struct InputSettings {
    sizes: Sizes,
    mode: Mode,
    loading: Loading,
    bays: Vec<BayName>,
}

impl Model for InputSettings {
    ghost use Rattle.crp_report.specs.Chosen.{InputChosen};

    ghost Value = { InputChosen };

    ghost view = { λ s. record { sizes = s.sizes; mode = s.mode; loading = s.loading; bays = s.bays.items } };
}

impl InputSettings {
    /// Bays of so many rows with so many tiers each, the order in which containers leave, and the handling code of what is to be
    /// loaded; of all messages, and for all bays.
    pub fn new(
        alloc: Global,
        rows: u8,
        tiers: u8,
        mode: Mode,
        code: &[u8],
    ) -> Result<InputSettings, RunFault>
        ensures accepted { IfOk result (λ settings. IsRowCount rows × HasTiers tiers) }
        ensures value { IfOk result (λ settings. settings ≡ record { sizes = one_size (replicate rows tiers); mode = mode; loading = (record { code = code.now; messages = [] }); bays = [] }) }
        ensures refused { IfErr result (IsRunFault rows tiers) }
    {
        if rows == 0 || rows as usize > MAX_ROWS {
            return Err(RunFault::Rows);
        }
        if tiers == 0 || tiers as usize > MAX_TIERS {
            return Err(RunFault::Tiers);
        }
        let loading = Loading::new(alloc, code)?;
        let same = [tiers; MAX_ROWS];
        Ok(InputSettings {
            sizes: Sizes::of_heights(alloc, &same[..rows as usize]),
            mode,
            loading,
            bays: Vec::new(alloc),
        })
    }

    /// These settings with the orders of the messages with these references alone; of all messages where there is none. Takes no memory.
    pub fn of_messages(self, messages: Vec<Reference>) -> InputSettings
        ensures { result ≡ record self { loading = record self.loading { messages = messages.items } } }
    {
        InputSettings {
            sizes: self.sizes,
            mode: self.mode,
            loading: self.loading.of_messages(messages),
            bays: self.bays,
        }
    }

    /// These settings for these bays alone; for all where there is none. Takes no memory.
    pub fn of_bays(mut self, bays: Vec<BayName>) -> InputSettings
        ensures { result ≡ record self { bays = bays.items } }
    {
        self.bays = bays;
        self
    }

    /// These settings for all bays, and the bays that they were for. Takes no memory.
    pub fn for_all(self) -> (InputSettings, Vec<BayName>)
        ensures settings { result.0 ≡ record self { bays = [] } }
        ensures bays { result.1.items ≡ self.bays }
    {
        let all = Vec::new(*self.bays.allocator());
        let InputSettings {
            sizes,
            mode,
            loading,
            bays,
        } = self;
        let settings = InputSettings {
            sizes,
            mode,
            loading,
            bays: all,
        };
        (settings, bays)
    }

    /// These settings with bays that have a height for each row. Refused exactly where there are not 1 to 12 heights, or one of
    /// them is not 1 to 8. No memory is taken.
    pub fn with_heights(mut self, heights: &[u8]) -> Result<InputSettings, RunFault>
        ensures accepted { IfOk result (λ settings. CanBeHeights heights.now) }
        ensures value { IfOk result (λ settings. settings ≡ record self { sizes = one_size heights.now }) }
        ensures refused { IfErr result (λ fault. (fault ≡ Heights) × ¬ CanBeHeights heights.now) }
    {
        if heights.is_empty() || heights.len() > MAX_ROWS || !are_heights(heights) {
            return Err(RunFault::Heights);
        }
        self.sizes = Sizes::of_heights(*self.bays.allocator(), heights);
        Ok(self)
    }

    /// A copy of these settings, with these sizes of the bays.
    pub fn sized(&self, alloc: Global, sizes: Sizes) -> Result<InputSettings, AllocError>
        ensures { IfOk result (λ settings. settings ≡ record self.now { sizes = sizes }) }
    {
        let loading = self.loading.copy(alloc)?;
        let mut bays = Vec::new(alloc);
        for bay in &self.bays {
            bays.push(bay.copy())?;
        }
        Ok(InputSettings {
            sizes,
            mode: self.mode,
            loading,
            bays,
        })
    }

    /// The sizes of the bays: how many tiers each row of a bay has, from row 1, 1 to 12 rows of 1 to 8 tiers.
    pub fn sizes(&self) -> &Sizes
        ensures value { result.now ≡ self.now.sizes }
        ensures chosen { CanBeSizes self.now.sizes }
    {
        // Each value of Sizes can be sizes of bays, and says so.
        let _common = self.sizes.common();
        &self.sizes
    }

    /// The order in which the ordered containers leave.
    pub fn mode(&self) -> Mode
        ensures { result ≡ self.now.mode }
    {
        self.mode
    }

    /// What is read of the message.
    pub fn loading(&self) -> &Loading
        ensures { result.now ≡ self.now.loading }
    {
        &self.loading
    }

    /// The bays that the run is for; none stands for all.
    pub fn bays(&self) -> &[BayName]
        ensures { result.now ≡ self.now.bays }
    {
        &self.bays
    }
}

/// What a planner chooses for a run.
#[derive(Drop)]
pub struct RunSettings {
    search: Settings,
    input: InputSettings,
}

impl Model for RunSettings {
    ghost use Rattle.crp_report.specs.Chosen.{RunChosen};

    ghost Value = { RunChosen };

    ghost view = { λ s. record { search = s.search; input = s.input } };
}

impl RunSettings {
    /// These settings of the search and of the input.
    pub fn new(search: Settings, input: InputSettings) -> RunSettings
        ensures { result ≡ record { search = search; input = input } }
    {
        RunSettings { search, input }
    }

    /// The settings of the search of each bay.
    pub fn search(&self) -> Settings
        ensures { result ≡ self.now.search }
    {
        self.search
    }

    /// What the input means.
    pub fn input(&self) -> &InputSettings
        ensures value { result.now ≡ self.now.input }
    {
        &self.input
    }
}
