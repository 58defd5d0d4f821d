//! What a run reads.
ghost use Rattle.std.specs.Prelude.{ℕ, ◌≤◌, List, IfOk, IfErr, MatchResult};
ghost use Rattle.crp_plan.specs.Devices.{most_interruptions};
ghost use Rattle.crp_yard.specs.Reading.{IsTextOf, IsYardListOf};
ghost use Rattle.crp_report.specs.Runs.{AreOrders, failures_of_fault};
ghost use Rattle.crp_report.specs.BayTexts.{AreFailuresCounted, IsNoYard, IsNoOrders, IsNoMessage};

use crate::fault::{Fault, Input};
use crp_movins::{Loading, Orders, load_orders};
use crp_plan::{ReadFault, Source, read_all};
use crp_sizes::Sizes;
use crp_yard::{MAX_BYTES, Yard, YardFault, yard_of_sizes};
use edi_text::{EdiFault, MAX_TEXT, Segments, read_segments};
use std::alloc::Global;

/// The yard that the bytes of a source list, of bays of these sizes.
pub fn yard_from<Y: Source>(
    alloc: Global,
    source: &mut Y,
    sizes: &Sizes,
    interruptions: &mut u32,
) -> Result<Yard, Fault>
    requires { interruptions.old ≤ most_interruptions }
    ensures accepted { IfOk result (λ yard. (text : List ℕ) × IsTextOf (Y.remaining source.old) text × IsYardListOf sizes.now text yard) }
    ensures refused { IfErr result (IsNoYard sizes.now (Y.remaining source.old) (Y.failures source.old) (Y.failures source.new)) }
    ensures counted { MatchResult result
        (λ _. AreFailuresCounted 0 (Y.failures source.old) (Y.failures source.new) interruptions.old interruptions.new)
        (λ fault. AreFailuresCounted (failures_of_fault fault) (Y.failures source.old) (Y.failures source.new) interruptions.old interruptions.new) }
    ensures passed { interruptions.new ≤ most_interruptions }
{
    let text = match read_all(alloc, source, MAX_BYTES, interruptions) {
        Ok(text) => text,
        Err(ReadFault::Failed) => return Err(Fault::Read(Input::Yard)),
        Err(ReadFault::TooLarge) => return Err(Fault::Yard(YardFault::TooLarge)),
        Err(ReadFault::Memory) => return Err(Fault::Memory),
    };
    let yard = yard_of_sizes(alloc, &text, sizes)?;
    Ok(yard)
}

/// A message: its segments, and the load orders that are read of it.
#[derive(Drop)]
pub struct Message {
    pub segments: Segments,
    pub orders: Orders,
}

// What is read of an interchange.
fn message_of(alloc: Global, text: &[u8], loading: &Loading) -> Result<Message, Fault>
    ensures accepted { IfOk result (λ message. AreOrders loading.now text.now message.orders) }
    ensures refused { IfErr result (IsNoOrders loading.now text.now) }
{
    let segments = read_segments(alloc, text)?;
    let orders = load_orders(alloc, &segments, loading)?;
    Ok(Message { segments, orders })
}

/// What is read of the message that the bytes of a source are.
pub fn message_from<M: Source>(
    alloc: Global,
    source: &mut M,
    loading: &Loading,
    interruptions: &mut u32,
) -> Result<Message, Fault>
    requires { interruptions.old ≤ most_interruptions }
    ensures accepted { IfOk result (λ message. (text : List ℕ) × IsTextOf (M.remaining source.old) text × AreOrders loading.now text message.orders) }
    ensures refused { IfErr result (IsNoMessage loading.now (M.remaining source.old) (M.failures source.old) (M.failures source.new)) }
    ensures counted { MatchResult result
        (λ _. AreFailuresCounted 0 (M.failures source.old) (M.failures source.new) interruptions.old interruptions.new)
        (λ fault. AreFailuresCounted (failures_of_fault fault) (M.failures source.old) (M.failures source.new) interruptions.old interruptions.new) }
    ensures count { M.failures source.old ≤ M.failures source.new }
    ensures passed { interruptions.new ≤ most_interruptions }
{
    let text = match read_all(alloc, source, MAX_TEXT, interruptions) {
        Ok(text) => text,
        Err(ReadFault::Failed) => return Err(Fault::Read(Input::Movins)),
        Err(ReadFault::TooLarge) => {
            return Err(Fault::Interchange(EdiFault::TooLong { offset: MAX_TEXT }));
        }
        Err(ReadFault::Memory) => return Err(Fault::Memory),
    };
    message_of(alloc, &text, loading)
}
