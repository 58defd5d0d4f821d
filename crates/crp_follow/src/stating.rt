//! What a report states, line by line.
ghost use Rattle.std.specs.Prelude.{◌≡◌, ◌≢◌, ◌⊎◌, ◌+◌, ◌++◌, ◌∷◌, ◌<◌, ◌≤◌, ◌^◌, ◌↔◌, [], ℕ, suc, length, map, flat_map, count_by, IfOk, IfErr, IfSome, IfNone, OnOk, IsTrue};
ghost use Rattle.std.specs.List.{AllByRecursion};
ghost use Rattle.crp_said.specs.Said.{bays_line, counts_line, is_settled};
ghost use Rattle.crp_said.specs.Spelled.{most, AreSmall, CanBeStated, ended, IsBayLine};
ghost use Rattle.crp_follow.specs.declared.fault.FollowFault.{FollowFault as Fault};
ghost use Rattle.crp_follow.specs.Lines.{Line, lines_in};
ghost use Rattle.crp_follow.specs.Rewritten.{HasFewMoves, IsEdited, IsEditedFault};
ghost use Rattle.crp_follow.specs.Stated.{most_bytes, BayStated, moves_of, move_line, bay_lines, IsStatable, CountsBays, GoOnWith, States};
ghost use Rattle.crp_follow.specs.TextFaults.{Begins, IsMoveLine, IsBehind, IsNoOrders, IsNoLine, IsWrongCount, IsFrontFault, IsTextFault};
ghost use Rattle.crp_follow.specs.Views.{bay_stated, unread_lines};

use crate::fault::FollowFault;
use crate::lines::{UnreadLines, after_mark, line_behind, next_line};
use crate::pushing::add;
use crate::stated::{StatedBay, StatedMove};
use crp_said::{Numbers, read_bay, read_last, read_move, read_numbers};
use std::alloc::{AllocError, Global};

/// The most bytes of a report.
pub const MAX_BYTES: usize = 8388608;

/// The move that the next line states, if it states one, and what is not read behind it.
fn next_move<'a>(
    alloc: Global,
    unread: UnreadLines<'a>,
) -> Result<Option<(StatedMove, UnreadLines<'a>)>, AllocError>
    requires room { unread.first + length unread.bytes.now < 2 ^ 64 }
    ensures found { IfOk result (λ read. IfSome read (λ x. CanBeStated x.0.said × (unread_lines unread.entry ≡ move_line x.0 ∷ unread_lines x.1))) }
    ensures room { IfOk result (λ read. IfSome read (λ x. x.1.first + length x.1.bytes.now ≤ unread.entry.first + length unread.entry.bytes.now)) }
    ensures fewer { IfOk result (λ read. IfSome read (λ x. length x.1.bytes.now < length unread.entry.bytes.now)) }
    ensures none { IfOk result (λ read. IfNone read (¬ Begins IsMoveLine (unread_lines unread.entry))) }
{
    let Some((line, body, after)) = next_line(unread) else {
        return Ok(None);
    };
    match read_move(alloc, body)? {
        None => Ok(None),
        Some(said) => Ok(Some((StatedMove { line, said }, after))),
    }
}

/// The moves that the next lines state, and what is not read behind them.
fn moves_from<'a>(
    alloc: Global,
    unread: UnreadLines<'a>,
) -> Result<(Vec<StatedMove>, UnreadLines<'a>), AllocError>
    requires room { unread.first + length unread.bytes.now < 2 ^ 64 }
    ensures lines { IfOk result (λ x. unread_lines unread.entry ≡ map move_line x.0.items ++ unread_lines x.1) }
    ensures stated { IfOk result (λ x. AllByRecursion CanBeStated (moves_of x.0.items)) }
    ensures room { IfOk result (λ x. x.1.first + length x.1.bytes.now ≤ unread.entry.first + length unread.entry.bytes.now) }
    ensures fewer { IfOk result (λ x. length x.1.bytes.now ≤ length unread.entry.bytes.now) }
    ensures none { IfOk result (λ x. ¬ Begins IsMoveLine (unread_lines x.1)) }
{
    let mut moves = Vec::new(alloc);
    let mut rest = unread;
    while let Some((stated, after)) = next_move(alloc, rest)? {
        add(&mut moves, stated)?;
        rest = after;
    }
    Ok((moves, rest))
}

/// The bay that the next line states, if it states one, with its moves, and what is not read behind them.
fn next_bay<'a>(
    alloc: Global,
    unread: UnreadLines<'a>,
) -> Result<Option<(StatedBay, UnreadLines<'a>)>, AllocError>
    requires room { unread.first + length unread.bytes.now < 2 ^ 64 }
    ensures statable { IfOk result (λ read. IfSome read (λ x. IsStatable (bay_stated x.0))) }
    ensures lines { IfOk result (λ read. IfSome read (λ x. unread_lines unread.entry ≡ bay_lines (bay_stated x.0) ++ unread_lines x.1)) }
    ensures no_move { IfOk result (λ read. IfSome read (λ x. ¬ Begins IsMoveLine (unread_lines x.1))) }
    ensures room { IfOk result (λ read. IfSome read (λ x. x.1.first + length x.1.bytes.now ≤ unread.entry.first + length unread.entry.bytes.now)) }
    ensures fewer { IfOk result (λ read. IfSome read (λ x. length x.1.bytes.now < length unread.entry.bytes.now)) }
    ensures none { IfOk result (λ read. IfNone read (¬ Begins IsBayLine (unread_lines unread.entry))) }
{
    let Some((line, body, after)) = next_line(unread) else {
        return Ok(None);
    };
    let Some((bay, said)) = read_bay(body) else {
        return Ok(None);
    };
    let (moves, after) = moves_from(alloc, after)?;
    let stated = StatedBay {
        line,
        bay,
        said,
        moves,
    };
    Ok(Some((stated, after)))
}

/// The bays that the next lines state with their moves, and what is not read behind them.
fn bays_from<'a>(
    alloc: Global,
    unread: UnreadLines<'a>,
) -> Result<(Vec<StatedBay>, UnreadLines<'a>), AllocError>
    requires room { unread.first + length unread.bytes.now < 2 ^ 64 }
    ensures statable { IfOk result (λ x. AllByRecursion IsStatable (map bay_stated x.0.items)) }
    ensures lines { IfOk result (λ x. unread_lines unread.entry ≡ flat_map bay_lines (map bay_stated x.0.items) ++ unread_lines x.1) }
    ensures behind { IfOk result (λ x. IsBehind (map bay_stated x.0.items) (unread_lines x.1)) }
    ensures room { IfOk result (λ x. x.1.first + length x.1.bytes.now ≤ unread.entry.first + length unread.entry.bytes.now) }
{
    let mut bays = Vec::new(alloc);
    let mut rest = unread;
    while let Some((stated, after)) = next_bay(alloc, rest)? {
        add(&mut bays, stated)?;
        rest = after;
    }
    Ok((bays, rest))
}

/// The three numbers of the first line, and what is not read behind it.
fn orders_from(unread: UnreadLines<'_>) -> Result<(Numbers, UnreadLines<'_>), FollowFault>
    requires room { unread.first + length unread.bytes.now < 2 ^ 64 }
    ensures small { IfOk result (λ x. AreSmall x.0) }
    ensures line { IfOk result (λ x. (l : Line) × (ended l.body ≡ counts_line x.0) × (unread_lines unread.entry ≡ l ∷ unread_lines x.1)) }
    ensures room { IfOk result (λ x. x.1.first + length x.1.bytes.now ≤ unread.entry.first + length unread.entry.bytes.now) }
    ensures wrong { IfErr result (λ fault. (fault ≡ FollowFault.Memory)
        ⊎ ((line : ℕ) × (fault ≡ FollowFault.Orders line) × IsNoOrders (unread_lines unread.entry) line)) }
{
    let Some((line, body, after)) = next_line(unread) else {
        return Err(FollowFault::Orders { line: 1 });
    };
    match read_numbers(body) {
        Some(numbers) => Ok((numbers, after)),
        None => Err(FollowFault::Orders { line }),
    }
}

/// How many of the bays are settled.
fn settled_of(bays: &[StatedBay]) -> usize
    ensures { result ≡ count_by (λ b. is_settled b.said) (map bay_stated bays.now) }
{
    let mut settled: usize = 0;
    for bay in bays {
        if bay.said.is_settled() {
            settled += 1;
        }
    }
    settled
}

/// Whether there are so many bays, and so many of them settled.
fn are_counted(bays: &[StatedBay], count: u32, settled: u32) -> bool
    ensures right { IsTrue result ↔ ((count ≡ length bays.now) × (settled ≡ count_by (λ b. is_settled b.said) (map bay_stated bays.now))) }
    ensures few { length bays.now < 2 ^ 64 }
{
    count as usize == bays.len() && settled as usize == settled_of(bays)
}

/// The number of the last line, and the two numbers that it says. The number of the line behind all is known.
#[tactic(auto, using(crate::proofs::Reading::more_behind, crate::proofs::Reading::no_last_line))]
fn last_from(unread: UnreadLines<'_>, behind: u64) -> Result<(u64, u32, u32), FollowFault>
    requires room { unread.first + length unread.bytes.now < 2 ^ 64 }
    ensures last { IfOk result (λ x. (l : Line) × (unread_lines unread.entry ≡ l ∷ []) × (l.number ≡ x.0) × (x.1 ≤ most) × (x.2 ≤ most)
        × (ended l.body ≡ bays_line x.1 x.2)) }
    ensures wrong { IfErr result (λ fault. ((line : ℕ) × (fault ≡ FollowFault.NoLine line) × IsNoLine (unread_lines unread.entry) line)
        ⊎ ((fault ≡ FollowFault.Count behind) × (unread_lines unread.entry ≡ []))) }
{
    let Some((line, body, after)) = next_line(unread) else {
        return Err(FollowFault::Count { line: behind });
    };
    if let Some(_) = next_line(after) {
        return Err(FollowFault::NoLine { line });
    }
    let Some((count, settled)) = read_last(body) else {
        return Err(FollowFault::NoLine { line });
    };
    Ok((line, count, settled))
}

/// Checks the last line behind bays. The number of the line behind all is known.
#[tactic(auto, using(crate::proofs::Reading::lacking_last, crate::proofs::Reading::right_count, crate::proofs::Reading::wrong_count))]
fn check_last(bays: &[StatedBay], unread: UnreadLines<'_>, behind: u64) -> Result<(), FollowFault>
    requires room { unread.first + length unread.bytes.now < 2 ^ 64 }
    ensures last { OnOk result ((l : Line) × (unread_lines unread.entry ≡ l ∷ []) × CountsBays (map bay_stated bays.now) l) }
    ensures wrong { IfErr result (λ fault. (fault ≡ FollowFault.Memory)
        ⊎ (((line : ℕ) × (fault ≡ FollowFault.NoLine line) × IsNoLine (unread_lines unread.entry) line)
        ⊎ ((line : ℕ) × (fault ≡ FollowFault.Count line) × IsWrongCount behind (map bay_stated bays.now) (unread_lines unread.entry) line))) }
{
    let (line, count, settled) = last_from(unread, behind)?;
    if !are_counted(bays, count, settled) {
        return Err(FollowFault::Count { line });
    }
    Ok(())
}

/// The three numbers of a report, its bays with their moves, and what is not read behind them. Else the first fault of its front.
fn front_of(
    alloc: Global,
    report: &[u8],
) -> Result<(Numbers, Vec<StatedBay>, UnreadLines<'_>), FollowFault>
    ensures short { IfOk result (λ _. length report.now ≤ most_bytes) }
    ensures front { IfOk result (λ x. GoOnWith (lines_in report.now) x.0 (map bay_stated x.1.items) (unread_lines x.2)) }
    ensures behind { IfOk result (λ x. IsBehind (map bay_stated x.1.items) (unread_lines x.2)) }
    ensures room { IfOk result (λ x. x.2.first + length x.2.bytes.now < 2 ^ 64) }
    ensures wrong { IfErr result (λ fault. (fault ≡ FollowFault.Memory) ⊎ IsFrontFault report.now fault) }
{
    if report.len() > MAX_BYTES {
        return Err(FollowFault::TooLong);
    }
    let unread = UnreadLines {
        first: 1,
        bytes: after_mark(report),
    };
    let (numbers, rest) = orders_from(unread)?;
    let (bays, rest) = bays_from(alloc, rest)?;
    Ok((numbers, bays, rest))
}

/// What a report states, line by line: exactly that whose lines these are. Else the first fault of the text.
#[tactic(auto, using(crate::proofs::RewritingSteps::front_is_text))]
pub(crate) fn state(alloc: Global, report: &[u8]) -> Result<(Numbers, Vec<StatedBay>), FollowFault>
    ensures stated { IfOk result (λ x. States report.now x.0 (map bay_stated x.1.items)) }
    ensures wrong { IfErr result (λ fault. (fault ≡ FollowFault.Memory) ⊎ IsTextFault report.now fault) }
{
    let (numbers, bays, rest) = front_of(alloc, report)?;
    check_last(&bays, rest, line_behind(after_mark(report)))?;
    Ok((numbers, bays))
}

/// The same, whatever the last line counts.
#[tactic(auto, using(crate::proofs::RewritingSteps::all_few_moves, crate::proofs::RewritingSteps::front_is_edited))]
pub(crate) fn state_edited(
    alloc: Global,
    report: &[u8],
) -> Result<(Numbers, Vec<StatedBay>), FollowFault>
    ensures stated { IfOk result (λ x. IsEdited report.now x.0 (map bay_stated x.1.items)) }
    ensures few { IfOk result (λ x. AllByRecursion HasFewMoves (map bay_stated x.1.items)) }
    ensures wrong { IfErr result (λ fault. (fault ≡ FollowFault.Memory) ⊎ IsEditedFault report.now fault) }
{
    let (numbers, bays, rest) = front_of(alloc, report)?;
    last_from(rest, line_behind(after_mark(report)))?;
    Ok((numbers, bays))
}
