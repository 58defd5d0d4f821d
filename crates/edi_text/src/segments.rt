//! The segments of a text that was read, and what one of them says.

ghost use Rattle.std.specs.Prelude.{◌≡◌, ◌<◌, ◌^◌, length, map, slice_index_or};
ghost use Rattle.std.specs.List.{AllByRecursion};
ghost use Rattle.edi_text.specs.Parts.{HasTag, segment_of, no_segment, segment_at, component_of};

use crate::store::Store;
use std::marker::Model;

/// The segments of an interchange (ISO 9735), in their order.
#[derive(Drop)]
pub struct Segments {
    store: Store,
}

impl Model for Segments {
    ghost use Rattle.std.specs.Prelude.{List, map};
    ghost use Rattle.std.specs.List.{AllByRecursion};
    ghost use Rattle.edi_text.specs.Parts.{SegmentParts, HasTag, segment_of};

    ghost Value = { List SegmentParts };

    ghost view = { λ s. map segment_of s.store.segments };

    ghost invariant = { λ s. AllByRecursion HasTag s.store.segments };
}

impl Segments {
    pub(crate) fn from_store(store: Store) -> Segments
        requires { AllByRecursion HasTag store.segments }
        ensures { result ≡ map segment_of store.segments }
    {
        Segments { store }
    }

    /// How many segments there are. Service string advice is none.
    pub fn count(&self) -> usize
        ensures value { result ≡ length self.now }
        ensures small { result < 2 ^ 63 }
    {
        self.store.segment_count()
    }

    /// The segment with this number, counted from 1; `None` where there is no such segment.
    pub fn segment(&self, number: usize) -> Option<Segment<'_>>
        ensures { result ≡ segment_at self.now number }
    {
        if number == 0 || number > self.count() {
            return None;
        }
        Some(Segment {
            segments: self,
            index: number - 1,
        })
    }
}

/// One segment of an interchange: a tag, and elements that are lists of components (ISO 9735).
#[derive(Drop)]
pub struct Segment<'a> {
    segments: &'a Segments,
    index: usize,
}

impl<'a> Model for Segment<'a> {
    ghost use Rattle.std.specs.Prelude.{◌<◌, length, slice_index_or};
    ghost use Rattle.edi_text.specs.Parts.{SegmentParts, no_segment};

    ghost Value = { SegmentParts };

    ghost view = { λ s. slice_index_or s.segments.now s.index no_segment };

    ghost invariant = { λ s. s.index < length s.segments.now };
}

impl<'a> Segment<'a> {
    /// The three letters that name the segment.
    pub fn tag(&self) -> &'a [u8]
        ensures { result.now ≡ self.now.tag }
    {
        let segments = self.segments;
        segments.store.component(self.index, 0, 0)
    }

    /// How many elements stand behind the tag.
    pub fn elements(&self) -> usize
        ensures { result ≡ length self.now.elements }
    {
        let segments = self.segments;
        segments.store.element_count(self.index) - 1
    }

    /// The bytes of the component of the element, with both counted from 1 and the tag aside. They are
    /// none where there is no such component. Release characters are not among them.
    pub fn component(&self, element: usize, component: usize) -> &'a [u8]
        ensures { result.now ≡ component_of self.now element component }
    {
        if element == 0 || component == 0 {
            return &[];
        }
        let segments = self.segments;
        segments.store.component(self.index, element, component - 1)
    }
}
