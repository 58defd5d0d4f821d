//! What a segment is to the reader of load orders.

ghost use Rattle.std.specs.Prelude.{◌≡◌};
ghost use Rattle.std.specs.Str.{bytes_eq};
ghost use Rattle.crp_movins.specs.Kinds.{kind_of, names_container, names_slot, is_interchange_header, is_message_header, is_functional_group, belongs_outside, may_follow, is_equipment};
ghost use Rattle.crp_movins.specs.Places.{kind_at, text_at, elements_at, tag_at};

use edi_text::{Segment, Segments};

/// The kinds of segments that the profile speaks of.
#[derive(Clone, Copy, Debug, PartialEq, Eq)]
pub(crate) enum Kind {
    /// UNB.
    InterchangeHeader,
    /// UNH.
    MessageHeader,
    /// UNT.
    MessageTrailer,
    /// UNZ.
    InterchangeTrailer,
    /// UNG or UNE.
    FunctionalGroup,
    /// HAN.
    Handling,
    /// LOC with the qualifier 147.
    SlotGroup,
    /// EQD with the qualifier CN that names a container.
    Equipment,
    /// Any other segment.
    Other,
}

impl Kind {
    pub fn is_interchange_header(self) -> bool
        ensures { result ≡ is_interchange_header self }
    {
        matches!(self, Kind::InterchangeHeader)
    }

    pub fn is_message_header(self) -> bool
        ensures { result ≡ is_message_header self }
    {
        matches!(self, Kind::MessageHeader)
    }

    pub fn is_functional_group(self) -> bool
        ensures { result ≡ is_functional_group self }
    {
        matches!(self, Kind::FunctionalGroup)
    }

    pub fn is_equipment(self) -> bool
        ensures { result ≡ is_equipment self }
    {
        matches!(self, Kind::Equipment)
    }

    /// UNB, UNH or UNZ, which may not stand inside a message.
    pub fn belongs_outside(self) -> bool
        ensures { result ≡ belongs_outside self }
    {
        matches!(
            self,
            Kind::InterchangeHeader | Kind::MessageHeader | Kind::InterchangeTrailer
        )
    }

    /// UNH or UNZ, which alone may stand outside of a message after the first segment.
    pub fn may_follow(self) -> bool
        ensures { result ≡ may_follow self }
    {
        matches!(self, Kind::MessageHeader | Kind::InterchangeTrailer)
    }
}

/// The bytes are this text, byte for byte.
pub(crate) fn is_text(bytes: &[u8], text: &[u8]) -> bool
    ensures { result ≡ bytes_eq bytes.now text.now }
{
    bytes == text
}

/// The segment is qualified as a container, and names one.
fn names_container(segment: &Segment) -> bool
    ensures { result ≡ names_container segment.now }
{
    is_text(segment.component(1, 1), b"CN") && !segment.component(2, 1).is_empty()
}

/// The segment is qualified as a place on board.
fn names_slot(segment: &Segment) -> bool
    ensures { result ≡ names_slot segment.now }
{
    is_text(segment.component(1, 1), b"147")
}

#[tactic(auto, unfolding(crate::specs::Kinds::kind_of))]
fn kind_of(segment: &Segment) -> Kind
    ensures { result ≡ kind_of segment.now }
{
    let tag = segment.tag();
    if is_text(tag, b"EQD") {
        if names_container(segment) {
            Kind::Equipment
        } else {
            Kind::Other
        }
    } else if is_text(tag, b"LOC") {
        if names_slot(segment) {
            Kind::SlotGroup
        } else {
            Kind::Other
        }
    } else if is_text(tag, b"HAN") {
        Kind::Handling
    } else if is_text(tag, b"UNB") {
        Kind::InterchangeHeader
    } else if is_text(tag, b"UNH") {
        Kind::MessageHeader
    } else if is_text(tag, b"UNT") {
        Kind::MessageTrailer
    } else if is_text(tag, b"UNZ") {
        Kind::InterchangeTrailer
    } else if is_text(tag, b"UNG") {
        Kind::FunctionalGroup
    } else if is_text(tag, b"UNE") {
        Kind::FunctionalGroup
    } else {
        Kind::Other
    }
}

/// What the segment with this number is.
#[tactic(auto, unfolding(crate::specs::Kinds::kind_of, crate::specs::Places::kind_at))]
pub(crate) fn kind_at(segments: &Segments, number: usize) -> Kind
    ensures { result ≡ kind_at segments.now number }
{
    match segments.segment(number) {
        Some(segment) => kind_of(&segment),
        None => Kind::Other,
    }
}

#[tactic(auto, unfolding(crate::specs::Places::tag_at))]
/// The tag of the segment with this number; no bytes where there is no such segment.
pub(crate) fn tag_at<'a>(segments: &'a Segments, number: usize) -> &'a [u8]
    ensures { result.now ≡ tag_at segments.now number }
{
    match segments.segment(number) {
        Some(segment) => segment.tag(),
        None => &[],
    }
}

#[tactic(auto, unfolding(crate::specs::Places::text_at))]
/// A component of the segment with this number; no bytes where there is no such segment.
pub(crate) fn text_at<'a>(
    segments: &'a Segments,
    number: usize,
    element: usize,
    component: usize,
) -> &'a [u8]
    ensures { result.now ≡ text_at segments.now number element component }
{
    match segments.segment(number) {
        Some(segment) => segment.component(element, component),
        None => &[],
    }
}

#[tactic(auto, unfolding(crate::specs::Places::elements_at))]
/// How many elements stand behind the tag of the segment with this number.
pub(crate) fn elements_at(segments: &Segments, number: usize) -> usize
    ensures { result ≡ elements_at segments.now number }
{
    match segments.segment(number) {
        Some(segment) => segment.elements(),
        None => 0,
    }
}
