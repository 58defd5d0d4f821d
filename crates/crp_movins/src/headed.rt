//! Where the ship and the date are said.

ghost use Rattle.std.specs.Prelude.{◌≡◌, ◌+◌, ℕ, Bool, List, IfOk};
ghost use Rattle.edi_text.specs.Parts.{SegmentParts};
ghost use Rattle.crp_movins.specs.Loading.{Loading};
ghost use Rattle.crp_movins.specs.Places.{is_read};
ghost use Rattle.crp_movins.specs.Headings.{names_ship, is_date_format, is_document_date, names_date, text_in, ship_in, heading_in};
ghost use Rattle.crp_movins.specs.Standings.{headed_before};

use crate::heading::Heading;
use crate::kind::{is_text, text_at};
use crate::standing::Place;
use edi_text::Segments;
use std::alloc::{AllocError, Global};

/// The first segments that say the ship and the date, by their numbers.
#[derive(Clone, Copy, Debug, PartialEq, Eq)]
pub(crate) struct Headed {
    /// Of the TDT.
    pub ship: Option<usize>,
    /// Of the DTM 137.
    pub date: Option<usize>,
}

impl Headed {
    /// At the first segment.
    pub fn start() -> Headed
        ensures { (segments : List SegmentParts) (loading : Loading) → result ≡ headed_before segments loading 1 }
    {
        Headed {
            ship: None,
            date: None,
        }
    }

    /// With the segment too.
    pub fn after(self, at: &Place, read: bool) -> Headed
        requires here { self ≡ headed_before at.now.segments.now at.now.loading.now at.now.number }
        requires message { read ≡ is_read at.now.segments.now at.now.loading.now at.now.number }
        ensures { result ≡ headed_before at.now.segments.now at.now.loading.now (at.now.number + 1) }
    {
        let ship = names_ship(at, read).then_some(at.number);
        let date = names_date(at, read).then_some(at.number);
        Headed {
            ship: self.ship.or(ship),
            date: self.date.or(date),
        }
    }

    /// What they say.
    pub fn read(self, alloc: Global, segments: &Segments) -> Result<Heading, AllocError>
        ensures { IfOk result (λ heading. heading ≡ heading_in segments.now self.ship self.date) }
    {
        let voyage = text_in(segments, self.ship, 2, 1);
        let date = text_in(segments, self.date, 1, 2);
        Heading::new(alloc, ship_in(segments, self.ship), voyage, date)
    }
}

/// A TDT, where the message is read.
fn names_ship(at: &Place, read: bool) -> bool
    requires { read ≡ is_read at.now.segments.now at.now.loading.now at.now.number }
    ensures { result ≡ names_ship at.now.segments.now at.now.loading.now at.now.number }
{
    read && is_text(at.tag(), b"TDT")
}

/// A DTM with the date of the message, where that is read.
fn names_date(at: &Place, read: bool) -> bool
    requires { read ≡ is_read at.now.segments.now at.now.loading.now at.now.number }
    ensures { result ≡ names_date at.now.segments.now at.now.loading.now at.now.number }
{
    read && is_document_date(at)
}

/// A DTM 137 in a format that is known.
fn is_document_date(at: &Place) -> bool
    ensures { result ≡ is_document_date at.now.segments.now at.now.number }
{
    let is_dated = is_text(at.tag(), b"DTM") && is_text(at.text(1, 1), b"137");
    is_dated && is_date_format(at.text(1, 3))
}

fn is_date_format(format: &[u8]) -> bool
    ensures { result ≡ is_date_format format.now }
{
    is_text(format, b"102") || is_text(format, b"203")
}

fn text_in<'a>(
    segments: &'a Segments,
    place: Option<usize>,
    element: usize,
    component: usize,
) -> &'a [u8]
    ensures { result.now ≡ text_in segments.now place element component }
{
    match place {
        Some(number) => text_at(segments, number, element, component),
        None => &[],
    }
}

fn ship_in<'a>(segments: &'a Segments, place: Option<usize>) -> &'a [u8]
    ensures { result.now ≡ ship_in segments.now place }
{
    let name = text_in(segments, place, 8, 4);
    if name.is_empty() {
        text_in(segments, place, 8, 1)
    } else {
        name
    }
}
