//! What the messages say of their ship and of their date.

ghost use Rattle.std.specs.Prelude.{◌≡◌, IfOk};

use std::alloc::{AllocError, Global};
use std::marker::Model;

/// The ship, its voyage and the date of the message, in bytes as the first message says them that is read and does so (UN/EDIFACT
/// D.95B, TDT and DTM); no bytes where none does.
#[derive(Drop)]
pub struct Heading {
    ship: Vec<u8>,
    voyage: Vec<u8>,
    date: Vec<u8>,
}

impl Model for Heading {
    ghost use Rattle.crp_movins.specs.Headings.{Heading};

    ghost Value = { Heading };

    ghost view = { λ a. record { ship = a.ship.items; voyage = a.voyage.items; date = a.date.items } };
}

impl Heading {
    /// The heading of these.
    pub fn new(
        alloc: Global,
        ship: &[u8],
        voyage: &[u8],
        date: &[u8],
    ) -> Result<Heading, AllocError>
        ensures { IfOk result (λ heading. heading ≡ record { ship = ship.now; voyage = voyage.now; date = date.now }) }
    {
        let ship = Vec::from_slice(alloc, ship)?;
        let voyage = Vec::from_slice(alloc, voyage)?;
        let date = Vec::from_slice(alloc, date)?;
        Ok(Heading { ship, voyage, date })
    }

    /// The same once more.
    pub fn copy(&self, alloc: Global) -> Result<Heading, AllocError>
        ensures { IfOk result (λ heading. heading ≡ self.now) }
    {
        Heading::new(alloc, &self.ship, &self.voyage, &self.date)
    }

    /// The name of the ship, and where that is left out its identification.
    pub fn ship(&self) -> &[u8]
        ensures { result.now ≡ self.now.ship }
    {
        &self.ship
    }

    /// The number of the voyage.
    pub fn voyage(&self) -> &[u8]
        ensures { result.now ≡ self.now.voyage }
    {
        &self.voyage
    }

    /// The date of the message: CCYYMMDD, or CCYYMMDDHHMM with the time, where the message is right.
    pub fn date(&self) -> &[u8]
        ensures { result.now ≡ self.now.date }
    {
        &self.date
    }
}
