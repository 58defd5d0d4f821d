//! What the segments of a message leave in force for its orders.
ghost use Rattle.std.specs.Prelude.{◌≡◌, ◌<◌, ◌≤◌, ◌+◌, ◌^◌, ℕ, ◌&&◌, List};
ghost use Rattle.std.specs.Option.{option_map};
ghost use Rattle.std.specs.Str.{bytes_eq};
ghost use Rattle.edi_text.specs.Parts.{SegmentParts};
ghost use Rattle.crp_movins.specs.Loading.{Loading};
ghost use Rattle.crp_movins.specs.Places.{segment_numbered, text_at, ordered_group};
ghost use Rattle.crp_notes.specs.Slots.{named_group};
ghost use Rattle.crp_notes.specs.Unread.{order_at};
ghost use Rattle.crp_notes.specs.Messages.{IsSaid, IsStanding, texts};

use crate::message::Says;
use crp_movins::Loading;

/// What the segments before one leave in force.
#[derive(Clone, Copy, Drop)]
pub(crate) struct Standing<'a> {
    /// How many messages have begun.
    pub messages: usize,
    /// The message of the last UNH is read.
    pub is_read: bool,
    /// The loading code is in force.
    is_loading: bool,
    /// The slot of the open loading slot group.
    group: Option<&'a [u8]>,
    /// A container stands in the open slot group.
    has_container: bool,
    /// The code of the last HAN.
    code: &'a [u8],
    /// That code is in force, and the message is read.
    is_ordering: bool,
    /// A slot group is open under that code.
    is_open: bool,
}

impl<'a> Standing<'a> {
    /// At the first segment.
    pub fn start() -> Standing<'a>
        ensures { (segments : List SegmentParts) (loading : Loading) → IsStanding segments loading 1 result }
    {
        Standing {
            messages: 0,
            is_read: false,
            is_loading: false,
            group: None,
            has_container: false,
            code: b"",
            is_ordering: false,
            is_open: false,
        }
    }

    /// The slot that an order names at a segment that says this.
    pub fn named(&self, says: &Says<'a>) -> Option<&'a [u8]>
        ensures { (segments : List SegmentParts) (loading : Loading) (i : ℕ) → IsStanding segments loading i self.now → IsSaid (segment_numbered segments i) says.now
            → option_map (λ slot. slot.now) result ≡ option_map (λ j. text_at segments j 2 1) (named_group segments loading i) }
    {
        match *says {
            Says::Slot(slot) => { if self.is_loading { Some(slot) } else { None } }
            Says::Container(_) => { if self.has_container { self.group } else { None } }
            Says::Begins(_) | Says::Function(_) | Says::Code(_) | Says::Other => None,
        }
    }

    /// The slot to which a segment that says this orders a container, and the container.
    pub fn placed(&self, says: &Says<'a>) -> Option<(&'a [u8], &'a [u8])>
        ensures { (segments : List SegmentParts) (loading : Loading) (i : ℕ) → IsStanding segments loading i self.now → IsSaid (segment_numbered segments i) says.now
            → option_map (λ p. texts p.0.now p.1.now) result ≡ option_map (λ j. texts (text_at segments j 2 1) (text_at segments i 2 1)) (ordered_group segments loading i) }
    {
        match *says {
            Says::Container(name) => match self.group {
                Some(slot) => Some((slot, name)),
                None => None,
            },
            Says::Begins(_) | Says::Function(_) | Says::Code(_) | Says::Slot(_) | Says::Other =>
                None,
        }
    }

    /// The code under which a segment that says this orders a container.
    pub fn ordered(&self, says: &Says<'a>) -> Option<&'a [u8]>
        ensures { (segments : List SegmentParts) (loading : Loading) (i : ℕ) → IsStanding segments loading i self.now → IsSaid (segment_numbered segments i) says.now
            → option_map (λ code. (self.now.messages, code.now)) result ≡ order_at segments loading i }
    {
        match *says {
            Says::Container(_) => { if self.is_open { Some(self.code) } else { None } }
            Says::Begins(_) | Says::Function(_) | Says::Code(_) | Says::Slot(_) | Says::Other =>
                None,
        }
    }

    // A HAN with this code brings the loading code into force.
    fn loads(&self, found: &[u8], loading: &Loading) -> bool
        ensures { result ≡ (bytes_eq found.now loading.now.code && self.now.is_read) }
    {
        found == loading.code() && self.is_read
    }

    /// What a segment that says this leaves in force, where this is read.
    pub fn after(self, says: &Says<'a>, loading: &Loading) -> Standing<'a>
        requires { self.messages < 2 ^ 63 }
        ensures few { result.messages ≤ self.entry.messages + 1 }
        ensures stands { (segments : List SegmentParts) (i : ℕ) → IsStanding segments loading.now i self.entry → IsSaid (segment_numbered segments i) says.now → IsStanding segments loading.now (i + 1) result }
    {
        match *says {
            Says::Begins(reference) => Standing {
                messages: self.messages + 1,
                is_read: loading.reads(reference),
                is_loading: false,
                group: None,
                has_container: false,
                code: self.code,
                is_ordering: false,
                is_open: false,
            },
            Says::Code(found) => Standing {
                is_loading: self.loads(found, loading),
                group: None,
                has_container: false,
                code: found,
                is_ordering: self.is_read,
                is_open: false,
                ..self
            },
            Says::Slot(slot) => Standing {
                group: if self.is_loading { Some(slot) } else { None },
                has_container: false,
                is_open: self.is_ordering,
                ..self
            },
            Says::Container(_) => Standing {
                has_container: true,
                ..self
            },
            Says::Function(_) | Says::Other => self,
        }
    }
}
