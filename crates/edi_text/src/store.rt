//! Where the segments lie in memory.

ghost use Rattle.std.specs.Prelude.{◌≡◌, ◌↔◌, ◌≤◌, ◌<◌, ◌^◌, ◌-◌, ◌++◌, ◌∷◌, [], IsTrue, OnOk, length, slice_index_or};
ghost use Rattle.edi_text.specs.Parts.{HasTag, IsTag};
ghost use Rattle.edi_text.specs.Stored.{component_at};
ghost use Rattle.edi_text.specs.Spans.{nth_span};
ghost use Rattle.edi_text.specs.Reading.{after_mark};

use crate::mark::Mark;
use std::alloc::{AllocError, Global};
use std::marker::Model;

/// Segments as lists of elements, these as lists of components, and these as bytes. All bytes lie in
/// one vector, and each end states how many of the layer below come before it. What stands after the
/// last end belongs to a segment that is being read.
#[derive(Drop)]
pub(crate) struct Store {
    bytes: Vec<u8>,
    component_ends: Vec<usize>,
    element_ends: Vec<usize>,
    segment_ends: Vec<usize>,
}

impl Model for Store {
    ghost use Rattle.edi_text.specs.Stored.{contents_of, Contents, IsCutUp};

    ghost Value = { Contents };

    ghost view = { λ s. contents_of s.bytes.items s.component_ends.items s.element_ends.items s.segment_ends.items };

    ghost invariant = { λ s. IsCutUp s.bytes.items s.component_ends.items s.element_ends.items s.segment_ends.items };
}

impl Store {
    pub fn new(alloc: Global) -> Store
        ensures { result ≡ record { segments = []; elements = []; components = []; bytes = [] } }
    {
        Store {
            bytes: Vec::new(alloc),
            component_ends: Vec::new(alloc),
            element_ends: Vec::new(alloc),
            segment_ends: Vec::new(alloc),
        }
    }

    pub fn push_byte(&mut self, byte: u8) -> Result<(), AllocError>
        ensures { OnOk result (self.new ≡ record self.old { bytes = self.old.bytes ++ byte ∷ [] }) }
    {
        self.bytes.push(byte)?;
        Ok(())
    }

    /// The bytes since the last component are one.
    pub fn end_component(&mut self) -> Result<(), AllocError>
        ensures { OnOk result (self.new ≡ record self.old {
          components = self.old.components ++ self.old.bytes ∷ [];
          bytes = [];
        }) }
    {
        self.component_ends.push(self.bytes.len())?;
        Ok(())
    }

    /// The components since the last element are one.
    pub fn end_element(&mut self) -> Result<(), AllocError>
        ensures { OnOk result (self.new ≡ record self.old {
          elements = self.old.elements ++ self.old.components ∷ [];
          components = [];
        }) }
    {
        self.element_ends.push(self.component_ends.len())?;
        Ok(())
    }

    /// The elements since the last segment are one.
    pub fn end_segment(&mut self) -> Result<(), AllocError>
        ensures { OnOk result (self.new ≡ record self.old {
          segments = self.old.segments ++ self.old.elements ∷ [];
          elements = [];
        }) }
    {
        self.segment_ends.push(self.element_ends.len())?;
        Ok(())
    }

    /// Takes one mark more of the segment that is being read.
    pub fn add(&mut self, mark: Mark) -> Result<(), AllocError>
        ensures { OnOk result (self.new ≡ after_mark mark self.old) }
    {
        match mark {
            Mark::Data(byte) => self.push_byte(byte),
            Mark::ComponentEnd => self.end_component(),
            Mark::ElementEnd => {
                self.end_component()?;
                self.end_element()
            }
            Mark::SegmentEnd => {
                self.end_component()?;
                self.end_element()?;
                self.end_segment()
            }
        }
    }

    pub fn segment_count(&self) -> usize
        ensures value { result ≡ length self.now.segments }
        ensures small { result < 2 ^ 63 }
    {
        self.segment_ends.len()
    }

    /// How many elements the segment has, the tag among them; 0 where there is no such segment.
    pub fn element_count(&self, segment: usize) -> usize
        ensures { result ≡ length (slice_index_or self.now.segments segment []) }
    {
        let segments = Span::whole(self.segment_ends.len());
        nth(&self.segment_ends, segments, segment).len()
    }

    /// How many components the element has; 0 where there is none.
    pub fn component_count(&self, segment: usize, element: usize) -> usize
        ensures { result ≡ length (slice_index_or (slice_index_or self.now.segments segment []) element []) }
    {
        let segments = Span::whole(self.segment_ends.len());
        let elements = nth(&self.segment_ends, segments, segment);
        nth(&self.element_ends, elements, element).len()
    }

    /// The bytes of the component, with all three counted from 0; none where there is none.
    pub fn component(&self, segment: usize, element: usize, component: usize) -> &[u8]
        ensures { result.now ≡ component_at self.now.segments segment element component }
    {
        let segments = Span::whole(self.segment_ends.len());
        let elements = nth(&self.segment_ends, segments, segment);
        let components = nth(&self.element_ends, elements, element);
        let bytes = nth(&self.component_ends, components, component);
        &self.bytes[bytes.start..bytes.end]
    }

    /// The first element of the segment is one component of three letters.
    pub fn has_tag(&self, segment: usize) -> bool
        ensures { IsTrue result ↔ HasTag (slice_index_or self.now.segments segment []) }
    {
        self.component_count(segment, 0) == 1 && is_tag(self.component(segment, 0, 0))
    }
}

/// Three letters from A to Z.
fn is_tag(bytes: &[u8]) -> bool
    ensures { IsTrue result ↔ IsTag bytes.now }
{
    match bytes {
        [a, b, c] => a.is_ascii_uppercase() && b.is_ascii_uppercase() && c.is_ascii_uppercase(),
        _ => false,
    }
}

/// The items from `start` on that come before `end`.
#[derive(Clone, Copy, Debug, PartialEq, Eq)]
pub(crate) struct Span {
    pub start: usize,
    pub end: usize,
}

impl Span {
    fn whole(count: usize) -> Span
        ensures { result ≡ record { start = 0; end = count } }
    {
        Span {
            start: 0,
            end: count,
        }
    }

    fn len(self) -> usize
        requires { self.start ≤ self.end }
        ensures { result ≡ self.end - self.start }
    {
        self.end - self.start
    }
}

/// Where the piece with this index among the pieces of the span lies, and an empty span where there is
/// none.
fn nth(ends: &[usize], span: Span, index: usize) -> Span
    requires rising { span.start ≤ span.end }
    requires within { span.end ≤ length ends.now }
    ensures { result ≡ nth_span ends.now span index }
{
    if index >= span.len() {
        return Span::whole(0);
    }
    let at = span.start + index;
    let start = if at == 0 { 0 } else { ends[at - 1] };
    Span {
        start,
        end: ends[at],
    }
}
