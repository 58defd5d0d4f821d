//! The command `follow`: from the bytes of a yard list and a report, and of a message where one is asked for, to the table of the moves, and
//! to their page and the list of the yard behind them where these are asked for.
ghost use Rattle.std.specs.Prelude.{◌≡◌, ◌≤◌, ◌+◌, ◌-◌, ◌&&◌, [], ℕ, List, None, Option, map, IfOk, IfErr, IsTrue, MatchResult, false, is_some, not};
ghost use Rattle.std.specs.Bool.{OnFalse};
ghost use Rattle.std.specs.List.{AllByRecursion};
ghost use Rattle.crp_plan.specs.Devices.{most_interruptions};
ghost use Rattle.crp_yard.specs.Reading.{IsTextOf};
ghost use Rattle.crp_follow.specs.Behind.{IsListBehind, first_moves};
ghost use Rattle.crp_follow.specs.Followed.{AreFollowed, IsFollowed};
ghost use Rattle.crp_follow.specs.Stated.{BayStated};
ghost use Rattle.crp_follow.specs.Table.{StandFew};
ghost use Rattle.crp_follow.specs.Unstated.{bays_of_part, first_unstated};
ghost use Rattle.crp_follow.specs.Views.{bay_followed};
ghost use Rattle.crp_page.specs.Page.{page_text};
ghost use Rattle.crp_report.specs.BayTexts.{AreFailuresCounted};
ghost use Rattle.crp_report.specs.Runs.{SourceSeen, failures_of_fault, sink_seen, source_seen};
ghost use Rattle.crp_jobs.specs.declared.outcome.ToolFault.TheVariants.{Run};
ghost use Rattle.crp_report.specs.declared.fault.Fault.TheVariants.{Write};
ghost use Rattle.crp_report.specs.declared.fault.Output.TheVariants.{YardAfter};
ghost use Rattle.crp_commands.specs.Calls.{failures_of_tool_fault};
ghost use Rattle.crp_commands.specs.Follow.{FollowEnds, FollowFails, FollowSeen, HasNoTexts, IsFollowInput, IsNoFollowInput, IsNoReport, IsPartedList, StopsPage, StopsWriting, Texts, TextsSeen, WritesAll, WritesPart, WritesWhole, chosen_in, if_asked, loading_faults, made_for, numbers_for, order_for, source_failures, table_for};
ghost use Rattle.crp_separated.specs.Inputs.{with_separator};
ghost use Rattle.crp_commands.specs.Noted.{IsNotedBy};

use crate::auditing::{InputRead, input_from};
use crate::partial::report_in;
use crate::tables::{check_takes, table_for};
use crp_follow::{
    FollowFault, Followed, MAX_BYTES, Part, choose_part, first_unstated, list_behind, move_counts,
};
use crp_jobs::{Statement, ToolFault};
use crp_loading::{Ship, counts_up_to};
use crp_movins::Orders;
use crp_notes::note_left;
use crp_order::Sequence;
use crp_page::{OrderNumbers, write_page};
use crp_plan::{ReadFault, Sink, Source, WriteFault, read_all, write_all};
use crp_report::{Fault, InputSettings, Output, Status, numbers_of, yard_from};
use crp_said::Numbers;
use crp_separated::with_separator;
use crp_yard::Yard;
use std::alloc::{AllocError, Global};

/// What is asked for where a report is followed.
#[derive(Clone, Copy)]
pub struct FollowSettings<'a> {
    /// What the yard list and the message mean.
    pub input: &'a InputSettings,
    /// The part of the report whose texts are written.
    pub part: &'a Part<'a>,
    /// Whether there is a message, in whose order the table is to be; else it is bay by bay.
    pub ship: bool,
    /// Whether the page of the moves is wanted.
    pub page: bool,
    /// Whether the list of the yard behind the moves is wanted.
    pub list: bool,
    /// How many containers the ship has got, if the list is that of the yard then.
    pub loaded: Option<u64>,
    /// Whether the report may end early, without its last line.
    pub partial: bool,
    /// Whether the table is to be that of the bays, in place of that of the moves.
    pub summary: bool,
    /// The byte between the fields of the table and of the list.
    pub separator: u8,
}

/// Where a yard list and a message come from.
#[derive(Drop)]
pub struct Listed<Y, M> {
    /// The yard list.
    pub yard: Y,
    /// The message.
    pub movins: M,
}

/// Where the page of a report and the list of the yard behind its moves go.
#[derive(Drop)]
pub struct TextFiles<P, A> {
    /// The page.
    pub page: P,
    /// The list.
    pub list: A,
}

// What a yard list says and, where one is asked for, a message: its load orders, and their sequence.
#[derive(Drop)]
struct FollowInput {
    yard: Yard,
    ship: Option<(Orders, Sequence)>,
}

// The part of a report that is followed, with the list of the yard behind its moves, if that is wanted, and their table.
#[derive(Drop)]
struct FollowMade {
    followed: Followed,
    list: Vec<u8>,
    table: Vec<u8>,
}

// What the sources of a yard list and, where one is asked for, of a message say.
fn follow_input<Y: Source, M: Source>(
    alloc: Global,
    listed: &mut Listed<Y, M>,
    settings: &FollowSettings<'_>,
    interruptions: &mut u32,
) -> Result<FollowInput, Fault>
    requires first { interruptions.old ≡ 0 }
    ensures read { IfOk result (λ input. IsFollowInput settings.now.input.now
        (source_seen Y.remaining Y.failures listed.old.yard listed.new.yard)
        (if_asked settings.now.ship (source_seen M.remaining M.failures listed.old.movins listed.new.movins)) input.yard input.ship) }
    ensures refused { IfErr result (IsNoFollowInput settings.now.input.now
        (source_seen Y.remaining Y.failures listed.old.yard listed.new.yard)
        (if_asked settings.now.ship (source_seen M.remaining M.failures listed.old.movins listed.new.movins))) }
    ensures alone { OnFalse settings.now.ship (listed.new.movins ≡ listed.old.movins) }
    ensures counted { let message : SourceSeen = source_seen M.remaining M.failures listed.old.movins listed.new.movins
        in MatchResult result
        (λ _. (Y.failures listed.new.yard - Y.failures listed.old.yard) + source_failures (if_asked settings.now.ship message) ≤ interruptions.new)
        (λ fault. (Y.failures listed.new.yard - Y.failures listed.old.yard) + source_failures (if_asked settings.now.ship message) ≤ interruptions.new + failures_of_fault fault) }
    ensures passed { interruptions.new ≤ most_interruptions }
{
    if settings.ship {
        let InputRead {
            yard,
            orders,
            sequence,
        } = input_from(
            alloc,
            &mut listed.yard,
            &mut listed.movins,
            settings.input,
            interruptions,
        )?;
        return Ok(FollowInput {
            yard,
            ship: Some((orders, sequence)),
        });
    }
    let yard = yard_from(
        alloc,
        &mut listed.yard,
        settings.input.sizes(),
        interruptions,
    )?;
    Ok(FollowInput { yard, ship: None })
}

// The bytes of a report.
pub(crate) fn report_from<R: Source>(
    alloc: Global,
    source: &mut R,
    interruptions: &mut u32,
) -> Result<Vec<u8>, ToolFault>
    requires { interruptions.old ≤ most_interruptions }
    ensures read { IfOk result (λ text. IsTextOf (R.remaining source.old) text.items) }
    ensures refused { IfErr result (IsNoReport (source_seen R.remaining R.failures source.old source.new)) }
    ensures counted { MatchResult result
        (λ _. AreFailuresCounted 0 (R.failures source.old) (R.failures source.new) interruptions.old interruptions.new)
        (λ fault. AreFailuresCounted (failures_of_tool_fault fault) (R.failures source.old) (R.failures source.new) interruptions.old interruptions.new) }
    ensures count { R.failures source.old ≤ R.failures source.new }
    ensures passed { interruptions.new ≤ most_interruptions }
{
    match read_all(alloc, source, MAX_BYTES, interruptions) {
        Ok(text) => Ok(text),
        Err(ReadFault::Failed) => Err(ToolFault::ReadOf(Statement::Report)),
        Err(ReadFault::TooLarge) => Err(ToolFault::Followed(FollowFault::TooLong)),
        Err(ReadFault::Memory) => Err(ToolFault::Memory),
    }
}

// How many of its moves were made in each bay.
fn counts_for(
    alloc: Global,
    followed: &Followed,
    ship: &Option<(Orders, Sequence)>,
    loaded: Option<u64>,
) -> Result<Vec<usize>, AllocError>
    ensures { IfOk result (λ counts. first_moves counts.items (map bay_followed followed.now.bays.items) ≡ made_for ship.now loaded (map bay_followed followed.now.bays.items)) }
{
    match (ship, loaded) {
        (Some((orders, sequence)), Some(loaded)) => {
            counts_up_to(alloc, followed, orders, sequence, loaded)
        }
        _ => move_counts(alloc, followed),
    }
}

// The list of the yard behind the moves of a report, if it is wanted.
fn list_if(
    alloc: Global,
    input: &FollowInput,
    followed: &Followed,
    settings: &FollowSettings<'_>,
) -> Result<Vec<u8>, AllocError>
    requires { (stated : List BayStated) × AreFollowed input.now.yard stated (map bay_followed followed.now.bays.items) }
    ensures { IfOk result (λ text. IsTrue settings.now.list
        → IsListBehind input.now.yard (made_for input.now.ship settings.now.loaded (map bay_followed followed.now.bays.items)) text.items) }
{
    if !settings.list {
        return Ok(Vec::new(alloc));
    }
    let counts = counts_for(alloc, followed, &input.ship, settings.loaded)?;
    list_behind(alloc, &input.yard, followed, &counts)
}

// Follows the moves of a report over a yard. It has all bays and blocks that are named.
fn followed_in(
    alloc: Global,
    input: &FollowInput,
    report: &[u8],
    part: &Part<'_>,
) -> Result<Followed, ToolFault>
    ensures followed { IfOk result (λ whole. IsFollowed input.now.yard report.now whole.numbers (map bay_followed whole.bays.items)) }
    ensures faultless { IfOk result (λ whole. loading_faults input.now.ship (map bay_followed whole.bays.items) ≡ []) }
    ensures stated { IfOk result (λ whole. first_unstated part.now (map bay_followed whole.bays.items) ≡ None) }
    ensures few { IfOk result (λ whole. AllByRecursion StandFew (map bay_followed whole.bays.items)) }
    ensures refused { IfErr result (HasNoTexts part.now input.now.ship input.now.yard report.now) }
{
    let followed = crp_follow::follow(alloc, &input.yard, report)?;
    check_takes(alloc, &followed, &input.ship)?;
    if let Some(unstated) = first_unstated(&followed, part) {
        return Err(ToolFault::Unstated(unstated));
    }
    Ok(followed)
}

// The part of a report that is followed. Its texts are made before a byte is written, but for the page.
fn made_of(
    alloc: Global,
    input: &FollowInput,
    whole: Followed,
    settings: &FollowSettings<'_>,
) -> Result<FollowMade, AllocError>
    requires followed { (stated : List BayStated) × AreFollowed input.now.yard stated (map bay_followed whole.bays.items) }
    requires few { AllByRecursion StandFew (map bay_followed whole.bays.items) }
    ensures numbers { IfOk result (λ made. made.followed.numbers ≡ whole.numbers) }
    ensures bays { IfOk result (λ made. map bay_followed made.followed.bays.items ≡ bays_of_part settings.now.part.now (map bay_followed whole.bays.items)) }
    ensures followed { IfOk result (λ made. (stated : List BayStated) × AreFollowed input.now.yard stated (map bay_followed made.followed.bays.items)) }
    ensures list { IfOk result (λ made. IsTrue settings.now.list
        → IsPartedList settings.now.separator input.now.yard (made_for input.now.ship settings.now.loaded (map bay_followed made.followed.bays.items)) made.list.items) }
    ensures table { IfOk result (λ made. made.table.items ≡ with_separator settings.now.separator (table_for settings.now.summary input.now.ship (map bay_followed made.followed.bays.items))) }
{
    let followed = choose_part(whole, settings.part);
    let shown = table_for(alloc, &followed, &input.ship, settings.summary)?;
    let table = with_separator(alloc, shown, settings.separator)?;
    let left = list_if(alloc, input, &followed, settings)?;
    let list = with_separator(alloc, left, settings.separator)?;
    Ok(FollowMade {
        followed,
        list,
        table,
    })
}

// Notes what a report leaves of what is ordered, where there is a message.
#[tactic(auto, using(crate::proofs::Noted::unnoted))]
fn note_ship<E: Sink>(
    alloc: Global,
    input: &FollowInput,
    followed: &Followed,
    loaded: Option<u64>,
    errors: &mut E,
)
    requires { (report : List ℕ) × IsFollowed input.now.yard report followed.now.numbers (map bay_followed followed.now.bays.items) }
    ensures { IsNotedBy (not (is_some input.now.ship)) (sink_seen E.contents E.failures errors.old errors.new) }
{
    if let Some((_, sequence)) = &input.ship {
        note_left(alloc, &input.yard, followed, sequence, loaded, errors);
    }
}

// The numbers on the page: counted from the yard and the message, where there is one, or else as the report states them.
fn numbers_for(input: &FollowInput, stated: Numbers) -> OrderNumbers
    ensures { result ≡ numbers_for input.now.ship input.now.yard stated }
{
    match &input.ship {
        Some((orders, sequence)) => {
            OrderNumbers::Counted(numbers_of(&input.yard, orders, sequence))
        }
        None => OrderNumbers::Stated(stated),
    }
}

// The order of the ship on the page, where there is one.
fn order_for<'a>(
    alloc: Global,
    ship: &'a Option<(Orders, Sequence)>,
) -> Result<Option<Ship<'a>>, AllocError>
    ensures { IfOk result (λ order. order ≡ order_for ship.now) }
{
    match ship {
        Some((orders, sequence)) => Ok(Some(Ship::new(alloc, sequence, orders)?)),
        None => Ok(None),
    }
}

// Writes the page of a report that is followed, where one is asked for.
fn write_page_if<P: Sink>(
    alloc: Global,
    input: &FollowInput,
    followed: &Followed,
    asked: bool,
    page: &mut P,
    interruptions: &mut u32,
) -> Result<(), ToolFault>
    requires passed { interruptions.old ≤ most_interruptions }
    requires followed { (stated : List BayStated) × AreFollowed input.now.yard stated (map bay_followed followed.now.bays.items) }
    ensures ended { let text = page_text input.now.yard (numbers_for input.now.ship input.now.yard followed.now.numbers) (order_for input.now.ship) (map bay_followed followed.now.bays.items)
        in let seen = if_asked asked (sink_seen P.contents P.failures page.old page.new)
        in MatchResult result (λ _. WritesWhole text seen) (StopsPage text seen) }
    ensures alone { OnFalse asked (page.new ≡ page.old) }
    ensures counted { MatchResult result
        (λ _. AreFailuresCounted 0 (P.failures page.old) (P.failures page.new) interruptions.old interruptions.new)
        (λ fault. AreFailuresCounted (failures_of_tool_fault fault) (P.failures page.old) (P.failures page.new) interruptions.old interruptions.new) }
    ensures count { P.failures page.old ≤ P.failures page.new }
    ensures passed { interruptions.new ≤ most_interruptions }
{
    if !asked {
        return Ok(());
    }
    let numbers = numbers_for(input, followed.numbers);
    let order = order_for(alloc, &input.ship)?;
    let written = write_page(
        alloc,
        page,
        &input.yard,
        numbers,
        &order,
        followed,
        interruptions,
    );
    drop(order);
    match written {
        Ok(()) => Ok(()),
        Err(WriteFault::Failed) => Err(ToolFault::WritePage),
        Err(WriteFault::Memory) => Err(ToolFault::Memory),
    }
}

// Writes the list of the yard behind the moves, where it is asked for.
fn write_list_if<A: Sink>(
    text: &[u8],
    asked: bool,
    list: &mut A,
    interruptions: &mut u32,
) -> Result<(), ToolFault>
    requires { interruptions.old ≤ most_interruptions }
    ensures ended { let seen = if_asked asked (sink_seen A.contents A.failures list.old list.new)
        in MatchResult result (λ _. WritesWhole text.now seen) (λ fault. (fault ≡ Run (Write YardAfter)) × WritesPart text.now seen) }
    ensures alone { OnFalse asked (list.new ≡ list.old) }
    ensures counted { MatchResult result
        (λ _. AreFailuresCounted 0 (A.failures list.old) (A.failures list.new) interruptions.old interruptions.new)
        (λ fault. AreFailuresCounted (failures_of_tool_fault fault) (A.failures list.old) (A.failures list.new) interruptions.old interruptions.new) }
    ensures count { A.failures list.old ≤ A.failures list.new }
    ensures passed { interruptions.new ≤ most_interruptions }
{
    if !asked {
        return Ok(());
    }
    match write_all(list, text, interruptions) {
        Ok(()) => Ok(()),
        Err(_) => Err(ToolFault::Run(Fault::Write(Output::YardAfter))),
    }
}

// Writes the texts of a report that is followed: the page, where one is asked for, behind it the list, where that is, and then the table.
fn write_texts<P: Sink, A: Sink, W: Sink>(
    alloc: Global,
    input: &FollowInput,
    made: &FollowMade,
    settings: &FollowSettings<'_>,
    files: &mut TextFiles<P, A>,
    out: &mut W,
    interruptions: &mut u32,
) -> Result<(), ToolFault>
    requires passed { interruptions.old ≤ most_interruptions }
    requires followed { (stated : List BayStated) × AreFollowed input.now.yard stated (map bay_followed made.now.followed.bays.items) }
    ensures ended { let texts : Texts = record {
      page = page_text input.now.yard (numbers_for input.now.ship input.now.yard made.now.followed.numbers) (order_for input.now.ship) (map bay_followed made.now.followed.bays.items);
      list = made.now.list.items;
      table = made.now.table.items;
    } in let seen : TextsSeen = record {
      page = if_asked settings.now.page (sink_seen P.contents P.failures files.old.page files.new.page);
      list = if_asked settings.now.list (sink_seen A.contents A.failures files.old.list files.new.list);
      table = sink_seen W.contents W.failures out.old out.new;
    } in MatchResult result (λ _. WritesAll texts seen) (StopsWriting texts seen) }
    ensures alone { OnFalse settings.now.page (files.new.page ≡ files.old.page) }
    ensures list_alone { OnFalse settings.now.list (files.new.list ≡ files.old.list) }
    ensures counted { MatchResult result
        (λ _. (P.failures files.new.page + (A.failures files.new.list + W.failures out.new)) + interruptions.old
        ≤ (P.failures files.old.page + (A.failures files.old.list + W.failures out.old)) + interruptions.new)
        (λ fault. (P.failures files.new.page + (A.failures files.new.list + W.failures out.new)) + interruptions.old
        ≤ (P.failures files.old.page + (A.failures files.old.list + W.failures out.old)) + interruptions.new + failures_of_tool_fault fault) }
    ensures count { P.failures files.old.page ≤ P.failures files.new.page }
    ensures list_count { A.failures files.old.list ≤ A.failures files.new.list }
    ensures out_count { W.failures out.old ≤ W.failures out.new }
    ensures passed { interruptions.new ≤ most_interruptions }
{
    write_page_if(
        alloc,
        input,
        &made.followed,
        settings.page,
        &mut files.page,
        interruptions,
    )?;
    write_list_if(&made.list, settings.list, &mut files.list, interruptions)?;
    let Ok(()) = write_all(out, &made.table, interruptions) else {
        return Err(ToolFault::WriteTable);
    };
    Ok(())
}

/// Follows the moves of a report, whoever wrote it, over the yard that a list of bays gives. Of the part that is named it writes the page of
/// the moves, where one is wanted, behind it the list of the yard as they leave it, where that is, and then the table of them, in the order
/// in which the ship gets all its containers where a message is asked for, or, where that is asked for, the table of the bays; where
/// something is refused, nothing. With a message it notes on `errors` what the whole report leaves of what is ordered. A report that may end
/// early is followed as far as it goes, which is noted too.
#[tactic(auto, using(crate::proofs::Noted::unnoted))]
pub fn follow<Y: Source, M: Source, R: Source, P: Sink, A: Sink, W: Sink, E: Sink>(
    alloc: Global,
    listed: &mut Listed<Y, M>,
    report: &mut R,
    settings: &FollowSettings<'_>,
    files: &mut TextFiles<P, A>,
    out: &mut W,
    errors: &mut E,
) -> Result<Status, ToolFault>
    ensures ended { let texts : TextsSeen = record {
      page = if_asked settings.now.page (sink_seen P.contents P.failures files.old.page files.new.page);
      list = if_asked settings.now.list (sink_seen A.contents A.failures files.old.list files.new.list);
      table = sink_seen W.contents W.failures out.old out.new;
    } in let seen : FollowSeen = record {
      yard = source_seen Y.remaining Y.failures listed.old.yard listed.new.yard;
      movins = if_asked settings.now.ship (source_seen M.remaining M.failures listed.old.movins listed.new.movins);
      report = source_seen R.remaining R.failures report.old report.new;
      texts = texts;
    } in MatchResult result (FollowEnds (chosen_in settings.now) seen) (FollowFails (chosen_in settings.now) seen) }
    ensures unread { OnFalse settings.now.ship (listed.new.movins ≡ listed.old.movins) }
    ensures alone { OnFalse settings.now.page (files.new.page ≡ files.old.page) }
    ensures list_alone { OnFalse settings.now.list (files.new.list ≡ files.old.list) }
    ensures noted { IsNotedBy (not settings.now.partial && not settings.now.ship) (sink_seen E.contents E.failures errors.old errors.new) }
{
    let mut interruptions = 0;
    let input = follow_input(alloc, listed, settings, &mut interruptions)?;
    let text = report_from(alloc, report, &mut interruptions)?;
    let whole = report_in(alloc, text, settings.partial, errors)?;
    let followed = followed_in(alloc, &input, &whole.text, settings.part)?;
    note_ship(alloc, &input, &followed, settings.loaded, errors);
    let made = made_of(alloc, &input, followed, settings)?;
    write_texts(
        alloc,
        &input,
        &made,
        settings,
        files,
        out,
        &mut interruptions,
    )?;
    Ok(Status::Decided)
}
