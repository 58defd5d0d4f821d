//! Under which other settings the moves of a report that is audited fit: the yard list, the message and the report are read again.
ghost use Rattle.std.specs.Prelude.{◌≡◌, ◌↔◌, List, ℕ, IfSome, IfOk, IsTrue};
ghost use Rattle.std.specs.List.{AllByRecursion};
ghost use Rattle.crp_yard.specs.Naming.{IsNamedBay};
ghost use Rattle.crp_jobs.specs.Found.{IsPlainText};
ghost use Rattle.crp_jobs.specs.OtherSettings.{AreFitting, AreInputNumbers, AreSettingWords, FitLargest, FitOtherOrder, HasOrders, IsMisfitLine, IsNumbersLine, largest, number_words, order_words, other_mode, setting_words, size_words};

use crate::job::{AuditFiles, Job};
use crate::moves::{yard_again, yard_of_job};
use crate::partial::{part_of, report_again};
use crate::placed::line_front;
use crate::plain::FoundLine;
use crate::report_lines::line_on_ended;
use crp_audit::moves_fit;
use crp_files::Files;
use crp_movins::{Loading, Orders, load_orders};
use crp_order::{Mode, sequence_of_bays};
use crp_plan::{MAX_ROWS, MAX_TIERS};
use crp_report::{InputSettings, numbers_of};
use crp_said::{Numbers, numbers_text};
use crp_sizes::Sizes;
use crp_yard::Yard;
use edi_text::{MAX_TEXT, read_segments};
use std::alloc::{AllocError, Global};

// The other order of leaving.
fn other_mode(mode: Mode) -> Mode
    ensures { result ≡ other_mode mode }
{
    match mode {
        Mode::Listed => Mode::Stowage,
        Mode::Stowage => Mode::Listed,
    }
}

// The largest size that bays may have.
fn largest(alloc: Global) -> Sizes
    ensures { result ≡ largest }
{
    let same = [MAX_TIERS as u8; MAX_ROWS];
    Sizes::of_heights(alloc, &same)
}

// The load orders that are read of the message of an audit.
fn orders_again<F: Files>(
    alloc: Global,
    files: &F,
    names: &AuditFiles<'_>,
    loading: &Loading,
) -> Option<Orders>
    ensures { IfSome result (HasOrders (F.known files.now) names.now loading.now) }
{
    let text = files.begins(alloc, names.movins, MAX_TEXT)?;
    let Ok(segments) = read_segments(alloc, text.as_slice()) else {
        return None;
    };
    let Ok(orders) = load_orders(alloc, &segments, loading) else {
        return None;
    };
    Some(orders)
}

// Whether the moves of the report of an audit fit this yard, where the ordered containers leave in the order of this mode.
fn fit_yard<F: Files>(
    alloc: Global,
    files: &F,
    names: &AuditFiles<'_>,
    settings: &InputSettings,
    yard: &Yard,
    mode: Mode,
) -> Option<bool>
    requires named { AllByRecursion IsNamedBay yard.now.bays }
    ensures { IfSome result (AreFitting (F.known files.now) names.now settings.now yard.now mode) }
{
    let orders = orders_again(alloc, files, names, settings.loading())?;
    let report = report_again(alloc, files, names.report, names.partial)?;
    let Ok(sequence) = sequence_of_bays(alloc, yard, settings.bays(), orders, mode) else {
        return None;
    };
    let Ok(part) = part_of(alloc, yard, sequence, report.bays) else {
        return None;
    };
    let Ok(fit) = moves_fit(alloc, yard, &part, report.text.as_slice()) else {
        return None;
    };
    Some(fit)
}

// Whether they fit where the containers leave in the other order.
fn fit_other_order<F: Files>(
    alloc: Global,
    files: &F,
    job: &Job<'_>,
    names: &AuditFiles<'_>,
    settings: &InputSettings,
) -> Option<bool>
    ensures { IfSome result (FitOtherOrder (F.known files.now) job.now names.now settings.now) }
{
    let yard = yard_of_job(alloc, files, job, names.yard, settings.sizes())?;
    let mode = other_mode(settings.mode());
    fit_yard(alloc, files, names, settings, &yard, mode)
}

// Whether they fit where all bays are of the largest size.
fn fit_largest<F: Files>(
    alloc: Global,
    files: &F,
    names: &AuditFiles<'_>,
    settings: &InputSettings,
) -> Option<bool>
    ensures { IfSome result (FitLargest (F.known files.now) names.now settings.now) }
{
    let yard = yard_again(alloc, files, names.separator, names.yard, &largest(alloc))?;
    fit_yard(alloc, files, names, settings, &yard, settings.mode())
}

// That the moves fit under this order.
fn order_words(mode: Mode) -> &'static str
    ensures { result.now ≡ order_words mode }
{
    match mode {
        Mode::Listed => "; the moves fit under --order listed",
        Mode::Stowage => "; the moves fit under --order stowage",
    }
}

// The words on the settings under which the moves fit, of which there may be none.
fn setting_words(mode: Mode, by_order: bool, by_size: bool) -> &'static str
    ensures { result.now ≡ setting_words mode by_order by_size }
{
    if by_order {
        return order_words(other_mode(mode));
    }
    if by_size {
        return "; the moves fit with --rows 12 --tiers 8: look at --rows, --tiers, --heights and --sizes";
    }
    ""
}

// The same of the report of an audit.
fn words_on_settings<F: Files>(
    alloc: Global,
    files: &F,
    job: &Job<'_>,
    names: &AuditFiles<'_>,
    settings: &InputSettings,
) -> Option<&'static str>
    ensures { IfSome result (λ words. AreSettingWords (F.known files.now) job.now names.now settings.now words.now) }
{
    let by_order = fit_other_order(alloc, files, job, names, settings)?;
    let by_size = fit_largest(alloc, files, names, settings)?;
    Some(setting_words(settings.mode(), by_order, by_size))
}

// The three numbers that the input of an audit gives.
fn numbers_again<F: Files>(
    alloc: Global,
    files: &F,
    job: &Job<'_>,
    names: &AuditFiles<'_>,
    settings: &InputSettings,
) -> Option<Numbers>
    ensures { IfSome result (AreInputNumbers (F.known files.now) job.now names.now settings.now) }
{
    let yard = yard_of_job(alloc, files, job, names.yard, settings.sizes())?;
    let orders = orders_again(alloc, files, names, settings.loading())?;
    let Ok(same) = orders.copy(alloc) else {
        return None;
    };
    let Ok(sequence) = sequence_of_bays(alloc, &yard, settings.bays(), same, settings.mode()) else {
        return None;
    };
    Some(numbers_of(&yard, &orders, &sequence))
}

// The words on the first line that would be right.
fn number_words(alloc: Global, numbers: Numbers) -> Result<Vec<u8>, AllocError>
    ensures { IfOk result (λ words. words.items ≡ number_words numbers) }
{
    let mut words = Vec::new(alloc);
    words.extend_from_slice(b"; by the yard list and the message it is ")?;
    let line = numbers_text(alloc, numbers)?;
    words.extend_from_slice(line_front(line.as_slice()))?;
    Ok(words)
}

/// The line on a move at this line of a report that is not legal there, with the settings under which its moves fit.
pub(crate) fn line_on_misfit<F: Files>(
    alloc: Global,
    files: &F,
    job: &Job<'_>,
    name: &str,
    number: u64,
) -> Option<FoundLine>
    ensures plain { IfSome result (λ line. IsPlainText line.items) }
    ensures said { IfSome result (λ line. IsMisfitLine (F.known files.now) job.now ((F.known files.now).given name.now) number line.items) }
{
    let Job::Audit {
        files: names,
        settings,
    } = job
    else {
        return None;
    };
    let words = words_on_settings(alloc, files, job, names, settings)?;
    line_on_ended(alloc, files, name, number, words.as_bytes())
}

/// The line on the first line of a report whose three numbers are not those of the input, with those that are.
pub(crate) fn line_on_numbers<F: Files>(
    alloc: Global,
    files: &F,
    job: &Job<'_>,
    name: &str,
) -> Option<FoundLine>
    ensures plain { IfSome result (λ line. IsPlainText line.items) }
    ensures said { IfSome result (λ line. IsNumbersLine (F.known files.now) job.now ((F.known files.now).given name.now) line.items) }
{
    let Job::Audit {
        files: names,
        settings,
    } = job
    else {
        return None;
    };
    let numbers = numbers_again(alloc, files, job, names, settings)?;
    let Ok(words) = number_words(alloc, numbers) else {
        return None;
    };
    line_on_ended(alloc, files, name, 1, words.as_slice())
}
