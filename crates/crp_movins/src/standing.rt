//! What is in force at a place of an interchange, and the fault of the segment there.

ghost use Rattle.std.specs.Prelude.{◌≡◌, ◌≤◌, ◌<◌, ◌^◌, ℕ, ◌+◌, ◌&&◌, List, ◌++◌, None, OnOk, IfErr, option_to_list};
ghost use Rattle.std.specs.Str.{bytes_eq};
ghost use Rattle.edi_text.specs.Parts.{SegmentParts};
ghost use Rattle.crp_movins.specs.Loading.{Loading};
ghost use Rattle.crp_movins.specs.Kinds.{is_message_header};
ghost use Rattle.crp_movins.specs.Places.{kind_at, tag_at, text_at, is_read, is_loading, count_before, open_message};
ghost use Rattle.crp_movins.specs.LoadOrders.{orders_before, order_at};
ghost use Rattle.crp_movins.specs.Faults.{is_out_of_place, is_movins, own_faults, first_of, fault_at, first_fault_before};
ghost use Rattle.crp_movins.specs.Standings.{standing_before, open_slot};
ghost use Rattle.crp_movins.specs.declared.fault.MovinsFault.TheVariants.{Memory};
ghost use Rattle.crp_movins.specs.declared.kind.Kind.TheVariants.{InterchangeHeader, MessageHeader, MessageTrailer, InterchangeTrailer, SlotGroup, Equipment};

use crate::collected::Collected;
use crate::digits::counts;
use crate::fault::MovinsFault;
use crate::kind::{Kind, elements_at, is_text, tag_at, text_at};
use crate::loading::Loading;
use crate::ordering::ordering_before;
use crate::reading::MAX_ORDERS;
use crate::slot::{Slot, slot_of};
use edi_text::Segments;
use std::alloc::Global;

/// A segment by its number in an interchange of which this is read.
#[derive(Clone, Copy, Drop)]
pub(crate) struct Place<'a> {
    pub segments: &'a Segments,
    pub loading: &'a Loading,
    pub number: usize,
}

impl<'a> Place<'a> {
    pub fn tag(&self) -> &'a [u8]
        ensures { result.now ≡ tag_at self.now.segments.now self.now.number }
    {
        tag_at(self.segments, self.number)
    }

    pub fn text(&self, element: usize, component: usize) -> &'a [u8]
        ensures { result.now ≡ text_at self.now.segments.now self.now.number element component }
    {
        text_at(self.segments, self.number, element, component)
    }
}

/// What the segments before a place leave in force.
#[derive(Clone, Copy, Debug, PartialEq, Eq)]
pub(crate) struct Standing {
    /// UNZ has come.
    pub is_closed: bool,
    /// The number of the UNH of the open message.
    pub message: Option<usize>,
    /// How many messages have begun.
    pub messages: usize,
    /// The message of the last UNH is read.
    pub is_read: bool,
    /// The loading code is in force.
    pub is_loading: bool,
    /// The slot of the open loading group.
    pub group: Option<Slot>,
    /// A container is ordered to that slot.
    pub is_filled: bool,
    /// How many loading groups have no container yet.
    pub vacant: usize,
}

impl Standing {
    /// At the first segment.
    pub fn start() -> Standing
        ensures { (segments : List SegmentParts) (loading : Loading) → result ≡ standing_before segments loading 1 }
    {
        Standing {
            is_closed: false,
            message: None,
            messages: 0,
            is_read: false,
            is_loading: false,
            group: None,
            is_filled: false,
            vacant: 0,
        }
    }

    /// The fault of the segment.
    #[tactic(auto, unfolding(crate::specs::Faults::fault_at))]
    pub fn fault(&self, at: &Place, kind: Kind, orders: &Collected) -> Option<MovinsFault>
        requires kind { kind ≡ kind_at at.now.segments.now at.now.number }
        requires here { self.now ≡ standing_before at.now.segments.now at.now.loading.now at.now.number }
        requires orders { orders.now ≡ orders_before at.now.segments.now at.now.loading.now at.now.number }
        requires numbered { 1 ≤ at.now.number }
        requires faultless { first_fault_before at.now.segments.now at.now.loading.now at.now.number ≡ None }
        requires small { at.now.number < 2 ^ 63 }
        ensures { result ≡ fault_at at.now.segments.now at.now.loading.now at.now.number }
    {
        let segment = at.number;
        if self.is_closed {
            return Some(MovinsFault::AfterTrailer { segment });
        }
        if kind.is_functional_group() {
            return Some(MovinsFault::FunctionalGroup { segment });
        }
        if self.is_out_of_place(at, kind) {
            return Some(MovinsFault::OutOfPlace { segment });
        }
        let lacks_header = segment == 1 && !kind.is_interchange_header();
        if lacks_header {
            return Some(MovinsFault::NoInterchangeHeader { segment });
        }
        self.own_fault(at, kind, orders)
    }

    /// Takes the order that the segment gives, if it gives one.
    pub fn take_order<'a>(
        &self,
        alloc: Global,
        at: &Place<'a>,
        kind: Kind,
        orders: &mut Collected<'a>,
    ) -> Result<(), MovinsFault>
        requires kind { kind ≡ kind_at at.now.segments.now at.now.number }
        requires here { self.now.group ≡ open_slot at.now.segments.now at.now.loading.now at.now.number }
        requires orders { orders.old ≡ orders_before at.now.segments.now at.now.loading.now at.now.number }
        requires faultless { fault_at at.now.segments.now at.now.loading.now at.now.number ≡ None }
        ensures taken { OnOk result (orders.new ≡ orders.old ++ option_to_list (order_at at.now.segments.now at.now.loading.now at.now.number)) }
        ensures refused { IfErr result (λ fault. fault ≡ Memory) }
    {
        if let (Kind::Equipment, Some(slot)) = (kind, self.group) {
            orders.push(alloc, at.text(2, 1), slot)?;
        }
        Ok(())
    }

    /// What the segment leaves in force.
    pub fn after(self, at: &Place, kind: Kind) -> Standing
        requires kind { kind ≡ kind_at at.now.segments.now at.now.number }
        requires here { self ≡ standing_before at.now.segments.now at.now.loading.now at.now.number }
        requires faultless { fault_at at.now.segments.now at.now.loading.now at.now.number ≡ None }
        requires small { at.now.number < 2 ^ 63 }
        ensures { result ≡ standing_before at.now.segments.now at.now.loading.now (at.now.number + 1) }
    {
        match kind {
            Kind::InterchangeTrailer => Standing {
                is_closed: true,
                ..self
            },
            Kind::MessageHeader => Standing {
                message: Some(at.number),
                messages: self.messages + 1,
                is_read: at.loading.reads(at.text(1, 1)),
                is_loading: false,
                group: None,
                is_filled: false,
                ..self
            },
            Kind::MessageTrailer => Standing {
                message: None,
                ..self
            },
            Kind::Handling => Standing {
                is_loading: self.loads(at),
                group: None,
                is_filled: false,
                ..self
            },
            Kind::SlotGroup => self.with_group(at),
            Kind::Equipment => self.with_order(at),
            Kind::InterchangeHeader | Kind::FunctionalGroup | Kind::Other => self,
        }
    }

    /// The segment, a HAN, brings the loading code into force.
    fn loads(&self, at: &Place) -> bool
        requires here { self.now.is_read ≡ is_read at.now.segments.now at.now.loading.now at.now.number }
        ensures { result ≡ (bytes_eq (text_at at.now.segments.now at.now.number 1 1) at.now.loading.now.code && is_read at.now.segments.now at.now.loading.now at.now.number) }
    {
        is_text(at.text(1, 1), at.loading.code()) && self.is_read
    }

    /// The segment opens a slot group.
    fn with_group(self, at: &Place) -> Standing
        requires kind { kind_at at.now.segments.now at.now.number ≡ SlotGroup }
        requires here { self ≡ standing_before at.now.segments.now at.now.loading.now at.now.number }
        requires faultless { fault_at at.now.segments.now at.now.loading.now at.now.number ≡ None }
        requires small { at.now.number < 2 ^ 63 }
        ensures { result ≡ standing_before at.now.segments.now at.now.loading.now (at.now.number + 1) }
    {
        if !self.is_loading {
            return Standing {
                group: None,
                is_filled: false,
                ..self
            };
        }
        Standing {
            group: slot_of(at.text(2, 1)),
            is_filled: false,
            vacant: self.vacant + 1,
            ..self
        }
    }

    /// The segment orders a container to the open loading group, if there is one.
    fn with_order(self, at: &Place) -> Standing
        requires kind { kind_at at.now.segments.now at.now.number ≡ Equipment }
        requires here { self ≡ standing_before at.now.segments.now at.now.loading.now at.now.number }
        ensures { result ≡ standing_before at.now.segments.now at.now.loading.now (at.now.number + 1) }
    {
        if let None = self.group {
            return self;
        }
        if self.is_filled {
            return self;
        }
        Standing {
            is_filled: true,
            vacant: self.vacant - 1,
            ..self
        }
    }

    #[tactic(auto, unfolding(crate::specs::Faults::is_out_of_place))]
    fn is_out_of_place(&self, at: &Place, kind: Kind) -> bool
        requires kind { kind ≡ kind_at at.now.segments.now at.now.number }
        requires here { self.now.message ≡ open_message at.now.segments.now at.now.number }
        ensures { result ≡ is_out_of_place at.now.segments.now at.now.number }
    {
        let lacks_reference = kind.is_message_header() && at.text(1, 1).is_empty();
        let is_misplaced = if self.message.is_some() {
            kind.belongs_outside()
        } else {
            at.number > 1 && !kind.may_follow()
        };
        lacks_reference || is_misplaced
    }

    /// The fault that only a segment of this kind may have.
    fn own_fault(&self, at: &Place, kind: Kind, orders: &Collected) -> Option<MovinsFault>
        requires here { self.now ≡ standing_before at.now.segments.now at.now.loading.now at.now.number }
        requires orders { orders.now ≡ orders_before at.now.segments.now at.now.loading.now at.now.number }
        requires numbered { 1 ≤ at.now.number }
        requires faultless { first_fault_before at.now.segments.now at.now.loading.now at.now.number ≡ None }
        requires small { at.now.number < 2 ^ 63 }
        ensures { result ≡ first_of (own_faults kind at.now.segments.now at.now.loading.now at.now.number) }
    {
        match kind {
            Kind::InterchangeHeader => header_fault(at),
            Kind::MessageHeader => message_fault(at),
            Kind::MessageTrailer => self.trailer_fault(at),
            Kind::InterchangeTrailer => self.closing_fault(at),
            Kind::SlotGroup => self.slot_fault(at),
            Kind::Equipment => self.order_fault(at, orders),
            Kind::FunctionalGroup | Kind::Handling | Kind::Other => None,
        }
    }

    fn trailer_fault(&self, at: &Place) -> Option<MovinsFault>
        requires here { self.now.message ≡ open_message at.now.segments.now at.now.number }
        requires small { at.now.number < 2 ^ 63 }
        ensures { result ≡ first_of (own_faults MessageTrailer at.now.segments.now at.now.loading.now at.now.number) }
    {
        let segment = at.number;
        let header = self.message.unwrap_or(0);
        if !counts(at.text(1, 1), segment.saturating_sub(header) + 1) {
            return Some(MovinsFault::MessageCount { segment });
        }
        if !is_text(at.text(2, 1), text_at(at.segments, header, 1, 1)) {
            return Some(MovinsFault::MessageReference { segment });
        }
        None
    }

    fn closing_fault(&self, at: &Place) -> Option<MovinsFault>
        requires here { self.now.messages ≡ count_before is_message_header at.now.segments.now at.now.number }
        ensures { result ≡ first_of (own_faults InterchangeTrailer at.now.segments.now at.now.loading.now at.now.number) }
    {
        let segment = at.number;
        if !counts(at.text(1, 1), self.messages) {
            return Some(MovinsFault::InterchangeCount { segment });
        }
        if !is_text(at.text(2, 1), text_at(at.segments, 1, 5, 1)) {
            return Some(MovinsFault::InterchangeReference { segment });
        }
        None
    }

    fn slot_fault(&self, at: &Place) -> Option<MovinsFault>
        requires here { self.now.is_loading ≡ is_loading at.now.segments.now at.now.loading.now at.now.number }
        ensures { result ≡ first_of (own_faults SlotGroup at.now.segments.now at.now.loading.now at.now.number) }
    {
        let segment = at.number;
        if self.is_loading && slot_of(at.text(2, 1)).is_none() {
            return Some(MovinsFault::SlotNumber { segment });
        }
        None
    }

    fn order_fault(&self, at: &Place, orders: &Collected) -> Option<MovinsFault>
        requires here { self.now.group ≡ open_slot at.now.segments.now at.now.loading.now at.now.number }
        requires orders { orders.now ≡ orders_before at.now.segments.now at.now.loading.now at.now.number }
        requires numbered { 1 ≤ at.now.number }
        requires faultless { first_fault_before at.now.segments.now at.now.loading.now at.now.number ≡ None }
        requires small { at.now.number < 2 ^ 63 }
        ensures { result ≡ first_of (own_faults Equipment at.now.segments.now at.now.loading.now at.now.number) }
    {
        let segment = at.number;
        if self.group.is_none() {
            return None;
        }
        if orders.has(at.text(2, 1)) {
            let first = ordering_before(at, at.text(2, 1));
            return Some(MovinsFault::OrderedTwice { segment, first });
        }
        if orders.len() >= MAX_ORDERS {
            return Some(MovinsFault::TooManyOrders { segment });
        }
        None
    }
}

/// The fault of a UNB by itself.
fn header_fault(at: &Place) -> Option<MovinsFault>
    ensures { result ≡ first_of (own_faults InterchangeHeader at.now.segments.now at.now.loading.now at.now.number) }
{
    let segment = at.number;
    if elements_at(at.segments, segment) < 5 || at.text(5, 1).is_empty() {
        return Some(MovinsFault::InterchangeHeader { segment });
    }
    None
}

/// The fault of a UNH by itself.
fn message_fault(at: &Place) -> Option<MovinsFault>
    ensures { result ≡ first_of (own_faults MessageHeader at.now.segments.now at.now.loading.now at.now.number) }
{
    let segment = at.number;
    if is_movins(at) {
        None
    } else {
        Some(MovinsFault::MessageType { segment })
    }
}

/// The message type, its version, release and agency.
fn is_movins(at: &Place) -> bool
    ensures { result ≡ is_movins at.now.segments.now at.now.number }
{
    is_text(at.text(2, 1), b"MOVINS")
        && is_text(at.text(2, 2), b"D")
        && is_text(at.text(2, 3), b"95B")
        && is_text(at.text(2, 4), b"UN")
}
