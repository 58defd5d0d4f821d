//! Writes the page, figure by figure.
ghost use Rattle.std.specs.Prelude.{◌≡◌, ◌≤◌, ◌++◌, ℕ, List, length, map, flat_map, codes, IfOk, OnOk, IsErrOf};
ghost use Rattle.std.specs.List.{AllByRecursion};
ghost use Rattle.std.specs.Io.KnownBytes.{Appends};
ghost use Rattle.crp_plan.specs.Devices.{AppendsFront, AppendsPart, Transfers, most_interruptions};
ghost use Rattle.crp_follow.specs.Followed.{AreFollowed};
ghost use Rattle.crp_follow.specs.Stated.{BayStated};
ghost use Rattle.crp_follow.specs.Table.{StandFew};
ghost use Rattle.crp_follow.specs.Views.{bay_followed};
ghost use Rattle.crp_page.specs.Few.{LeaveFew};
ghost use Rattle.crp_page.specs.Numbered.{numbered_text};
ghost use Rattle.crp_page.specs.Sections.{frame_figure, section};
ghost use Rattle.crp_page.specs.Page.{page_text};
ghost use Rattle.crp_page.specs.Writing.{SinkNow, sink_now, Wrote};

use crate::front::page_front;
use crate::grounds::{Ground, ground_of};
use crate::ordered::OrderNumbers;
use crate::section::{frame_text, section_end, section_front};
use crate::turns::turns_part;
use crp_follow::{Followed, FollowedBay, what_columns_say};
use crp_loading::Ship;
use crp_picture::{DrawnBay, LaterFrames, frames};
use crp_plan::{Sink, WriteFault, write_all};
use crp_sizes::Sizes;
use crp_yard::Yard;
use std::alloc::{AllocError, Global};

/// Writes a text, if it was made.
fn write_made<W: Sink>(
    sink: &mut W,
    made: Result<Vec<u8>, AllocError>,
    interruptions: &mut u32,
) -> Result<(), WriteFault>
    requires { interruptions.old ≤ most_interruptions }
    ensures wrote { (text : List ℕ) → IfOk made (λ m. m.items ≡ text)
        → Wrote result text (sink_now (W.contents sink.old) (W.failures sink.old) (W.interrupted sink.old) interruptions.old)
        (sink_now (W.contents sink.new) (W.failures sink.new) (W.interrupted sink.new) interruptions.new) }
    ensures passed { interruptions.new ≤ most_interruptions }
{
    let text = made?;
    write_all(sink, &text, interruptions)?;
    Ok(())
}

/// Writes the figures of the frames of a bay that are still to come. Each is made when it is written, and not kept.
fn write_frames<W: Sink>(
    alloc: Global,
    sink: &mut W,
    on: Ground,
    ship: &Option<Ship<'_>>,
    bay: &DrawnBay<'_>,
    frames: LaterFrames<'_>,
    interruptions: &mut u32,
) -> Result<(), WriteFault>
    requires { interruptions.old ≤ most_interruptions }
    ensures wrote { Wrote result (flat_map (frame_figure on ship.now bay.now) frames.entry)
        (sink_now (W.contents sink.old) (W.failures sink.old) (W.interrupted sink.old) interruptions.old)
        (sink_now (W.contents sink.new) (W.failures sink.new) (W.interrupted sink.new) interruptions.new) }
    ensures passed { interruptions.new ≤ most_interruptions }
{
    let mut rest = frames;
    while let Some((frame, later)) = rest.next(alloc)? {
        write_made(
            sink,
            frame_text(alloc, on, ship, bay, &frame),
            interruptions,
        )?;
        rest = later;
    }
    Ok(())
}

/// Writes the section with this number.
fn write_section<W: Sink>(
    alloc: Global,
    sink: &mut W,
    sizes: &Sizes,
    ship: &Option<Ship<'_>>,
    number: u64,
    bay: &FollowedBay,
    interruptions: &mut u32,
) -> Result<(), WriteFault>
    requires passed { interruptions.old ≤ most_interruptions }
    requires few { StandFew (bay_followed bay.now) }
    requires left { LeaveFew (bay_followed bay.now) }
    ensures wrote { Wrote result (section sizes.now ship.now number (bay_followed bay.now))
        (sink_now (W.contents sink.old) (W.failures sink.old) (W.interrupted sink.old) interruptions.old)
        (sink_now (W.contents sink.new) (W.failures sink.new) (W.interrupted sink.new) interruptions.new) }
    ensures passed { interruptions.new ≤ most_interruptions }
{
    let drawn = DrawnBay::of(alloc, bay)?;
    let frames = frames(alloc, bay)?;
    let on = ground_of(sizes, number, &bay.stated.bay);
    write_made(
        sink,
        section_front(alloc, sizes, number, bay),
        interruptions,
    )?;
    write_frames(alloc, sink, on, ship, &drawn, frames, interruptions)?;
    write_made(sink, section_end(alloc, on, bay), interruptions)
}

/// Writes the sections of bays.
fn write_sections<W: Sink>(
    alloc: Global,
    sink: &mut W,
    sizes: &Sizes,
    ship: &Option<Ship<'_>>,
    bays: &[FollowedBay],
    interruptions: &mut u32,
) -> Result<(), WriteFault>
    requires passed { interruptions.old ≤ most_interruptions }
    requires few { AllByRecursion StandFew (map bay_followed bays.now) }
    requires left { AllByRecursion LeaveFew (map bay_followed bays.now) }
    ensures wrote { Wrote result (numbered_text (section sizes.now ship.now) 1 (map bay_followed bays.now))
        (sink_now (W.contents sink.old) (W.failures sink.old) (W.interrupted sink.old) interruptions.old)
        (sink_now (W.contents sink.new) (W.failures sink.new) (W.interrupted sink.new) interruptions.new) }
    ensures passed { interruptions.new ≤ most_interruptions }
{
    for (i, bay) in bays.iter().enumerate() {
        write_section(alloc, sink, sizes, ship, i as u64 + 1, bay, interruptions)?;
    }
    Ok(())
}

/// Writes the parts of the page.
fn write_parts<W: Sink>(
    alloc: Global,
    sink: &mut W,
    yard: &Yard,
    numbers: OrderNumbers,
    ship: &Option<Ship<'_>>,
    followed: &Followed,
    interruptions: &mut u32,
) -> Result<(), WriteFault>
    requires passed { interruptions.old ≤ most_interruptions }
    requires followed { (stated : List BayStated) × AreFollowed yard.now stated (map bay_followed followed.now.bays.items) }
    ensures { Wrote result (page_text yard.now numbers ship.now (map bay_followed followed.now.bays.items))
        (sink_now (W.contents sink.old) (W.failures sink.old) (W.interrupted sink.old) interruptions.old)
        (sink_now (W.contents sink.new) (W.failures sink.new) (W.interrupted sink.new) interruptions.new) }
{
    what_columns_say();
    let sizes = yard.sizes();
    let bays: &[FollowedBay] = &followed.bays;
    write_made(
        sink,
        page_front(alloc, yard, numbers, ship, followed),
        interruptions,
    )?;
    write_made(sink, turns_part(alloc, ship, bays), interruptions)?;
    write_sections(alloc, sink, sizes, ship, bays, interruptions)?;
    write_made(
        sink,
        Vec::from_slice(alloc, b"</main></body></html>\n"),
        interruptions,
    )
}

/// Writes the page of a report that is followed over the yard, with these numbers of what is ordered and, where there is one, the order of the ship, figure by figure. An interrupted call is tried again, and counted. Where
/// memory runs out, a front of the page is written.
pub fn write_page<W: Sink>(
    alloc: Global,
    sink: &mut W,
    yard: &Yard,
    numbers: OrderNumbers,
    ship: &Option<Ship<'_>>,
    followed: &Followed,
    interruptions: &mut u32,
) -> Result<(), WriteFault>
    requires passed { interruptions.old ≤ most_interruptions }
    requires followed { (stated : List BayStated) × AreFollowed yard.now stated (map bay_followed followed.now.bays.items) }
    ensures all { OnOk result (Appends (W.contents sink.old) (W.contents sink.new) (page_text yard.now numbers ship.now (map bay_followed followed.now.bays.items))) }
    ensures part { IsErrOf result WriteFault.Failed
        → AppendsPart (W.contents sink.old) (W.contents sink.new) (page_text yard.now numbers ship.now (map bay_followed followed.now.bays.items)) }
    ensures memory { IsErrOf result WriteFault.Memory
        → AppendsFront (W.contents sink.old) (W.contents sink.new) (page_text yard.now numbers ship.now (map bay_followed followed.now.bays.items)) }
    ensures done { OnOk result (Transfers 0 interruptions.old interruptions.new (W.failures sink.old) (W.failures sink.new) (W.interrupted sink.old) (W.interrupted sink.new)) }
    ensures gave_up { IsErrOf result WriteFault.Failed
        → Transfers 1 interruptions.old interruptions.new (W.failures sink.old) (W.failures sink.new) (W.interrupted sink.old) (W.interrupted sink.new) }
    ensures stopped { IsErrOf result WriteFault.Memory
        → Transfers 0 interruptions.old interruptions.new (W.failures sink.old) (W.failures sink.new) (W.interrupted sink.old) (W.interrupted sink.new) }
{
    write_parts(alloc, sink, yard, numbers, ship, followed, interruptions)
}
