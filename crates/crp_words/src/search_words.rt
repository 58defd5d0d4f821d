//! How a bay is searched, by the words.
ghost use Rattle.std.specs.Prelude.{◌≡◌, ◌↔◌, ◌≤◌, IfOk, IfErr, IsTrue, false};
ghost use Rattle.clap.specs.Words.{found_of, rows_of};
ghost use Rattle.crp_solve.specs.Chosen.{IsWorkers, IsBudget, IsSplitDepth, IsBeam, IsThin, no_limits};
ghost use Rattle.crp_words.specs.Words.{AreSecondsBeyond, AreWorkersBeyond, HasFlags, HasNumberOrStrong, HasOwnNumberBeyond, HasTime, HasUntimed, HasWorkers, IsGivenOrStrong, IsJust, IsLeftToStrong, IsSearchFault, IsTimeFault, Lacks, MayHaveSeconds, MayNameStop};

use crate::given::{is_given, number_within};
use crate::seconds::millis_in;
use crate::usage::{Mistake, SettingFault, Usage};
use clap::ArgMatches;
use crp_solve::{MAX_BEAM, MAX_BUDGET, MAX_SPLIT, MAX_THIN, MAX_WORKERS, Settings, TimeLimits};
use std::alloc::Global;

// The most workers.
const MOST_WORKERS: u64 = MAX_WORKERS as u64;

// The most rows of a path at which subtrees are given away.
const MOST_SPLIT: u64 = MAX_SPLIT as u64;

// The widest beam, and that of `--strong`.
const BEAMS: (u64, u64) = (MAX_BEAM as u64, 100);

// The most thinned branches of a try, and those of `--strong`.
const THIN: (u64, u64) = (MAX_THIN as u64, 10_000);

// Whether the words give the flag, or `--strong`.
fn is_given_or_strong(matches: &ArgMatches<'_>, name: &str) -> bool
    ensures { IsTrue result ↔ IsGivenOrStrong name.now (rows_of (found_of matches.now)) }
{
    is_given(matches, name) || is_given(matches, "strong")
}

// Whether the words give `--strong`, and not this option.
fn is_left_to_strong(matches: &ArgMatches<'_>, name: &str) -> bool
    ensures { IsTrue result ↔ IsLeftToStrong name.now (rows_of (found_of matches.now)) }
{
    is_given(matches, "strong") && !is_given(matches, name)
}

// The whole number of an option that is at most the first of these, or where it is left to `--strong` the second.
fn number_or_strong(
    alloc: Global,
    matches: &ArgMatches<'_>,
    name: &str,
    numbers: (u64, u64),
    fault: SettingFault,
) -> Result<u64, Usage>
    requires { numbers.1 ≤ numbers.0 }
    ensures ok { IfOk result (HasNumberOrStrong name.now numbers.0 numbers.1 (rows_of (found_of matches.now))) }
    ensures within { IfOk result (λ number. number ≤ numbers.0) }
    ensures err { IfErr result (Lacks (HasNumberOrStrong name.now numbers.0 numbers.1 (rows_of (found_of matches.now)))
        (IsJust fault (HasOwnNumberBeyond name.now numbers.0 (rows_of (found_of matches.now))))) }
{
    if is_left_to_strong(matches, name) {
        return Ok(numbers.1);
    }
    number_within(alloc, matches, name, (0, numbers.0), fault)
}

// The settings of a search with these numbers, in which no flag is given, and no limit of time.
fn settings_with(workers: u32, budget: u64, split: u8, beam: u32, thin: u32) -> Settings
    requires workers { IsWorkers workers }
    requires budget { IsBudget budget }
    requires split { IsSplitDepth split }
    requires beam { IsBeam beam }
    requires thin { IsThin thin }
    ensures { result ≡ record { workers = workers; budget = budget; split = split; first = false; beam = beam; deepen = false; thin = thin; chains = false; time = no_limits } }
{
    let Ok(search) = Settings::new(workers, budget, split) else {
        unreachable!()
    };
    let Ok(search) = search.with_beam(beam) else {
        unreachable!()
    };
    let Ok(search) = search.with_thinning(thin) else {
        unreachable!()
    };
    search
}

// These settings, in which no flag is given, with the flags that the words give.
fn with_flags(search: Settings, matches: &ArgMatches<'_>) -> Settings
    requires { search.first ≡ false }
    ensures numbers { result ≡ record search { first = result.first; deepen = result.deepen; chains = result.chains } }
    ensures flags { HasFlags (rows_of (found_of matches.now)) result }
{
    let search = search
        .with_deepening(is_given_or_strong(matches, "deepen"))
        .with_chains(is_given_or_strong(matches, "chains"));
    if is_given(matches, "first") {
        search.with_first()
    } else {
        search
    }
}

/// How many workers there are.
pub(crate) fn workers_of(alloc: Global, matches: &ArgMatches<'_>) -> Result<u32, Usage>
    ensures ok { IfOk result (HasWorkers (rows_of (found_of matches.now))) }
    ensures err { IfErr result (Lacks (HasWorkers (rows_of (found_of matches.now))) (IsJust SettingFault.Workers (AreWorkersBeyond (rows_of (found_of matches.now))))) }
{
    let workers = number_within(
        alloc,
        matches,
        "workers",
        (1, MOST_WORKERS),
        SettingFault::Workers,
    )?;
    Ok(workers as u32)
}

/// The settings of a search, but for its limits of time.
pub(crate) fn search_of(alloc: Global, matches: &ArgMatches<'_>) -> Result<Settings, Usage>
    ensures ok { IfOk result (HasUntimed (rows_of (found_of matches.now))) }
    ensures err { IfErr result (Lacks (HasUntimed (rows_of (found_of matches.now))) (IsSearchFault (rows_of (found_of matches.now)))) }
{
    let workers = workers_of(alloc, matches)?;
    let budget = number_within(
        alloc,
        matches,
        "budget",
        (0, MAX_BUDGET),
        SettingFault::Budget,
    )?;
    let split = number_within(
        alloc,
        matches,
        "split",
        (0, MOST_SPLIT),
        SettingFault::Split,
    )?;
    let beam = number_or_strong(alloc, matches, "beam", BEAMS, SettingFault::Beam)?;
    let thin = number_or_strong(alloc, matches, "thin", THIN, SettingFault::Thin)?;
    let search = settings_with(workers, budget, split as u8, beam as u32, thin as u32);
    Ok(with_flags(search, matches))
}

// The milliseconds of an option that takes a number of seconds, if it is given.
fn millis_of(
    matches: &ArgMatches<'_>,
    name: &str,
    fault: SettingFault,
) -> Result<Option<u64>, Usage>
    ensures ok { IfOk result (MayHaveSeconds name.now (rows_of (found_of matches.now))) }
    ensures err { IfErr result (Lacks (MayHaveSeconds name.now (rows_of (found_of matches.now)))
        (IsJust fault (AreSecondsBeyond name.now (rows_of (found_of matches.now))))) }
{
    let Some(text) = matches.get_str(name) else {
        return Ok(None);
    };
    match millis_in(text) {
        Some(millis) => Ok(Some(millis)),
        None => Err(Usage::Wrong(Mistake::Setting(fault))),
    }
}

/// The file that stops a search, if one does.
pub(crate) fn stop_of<'a>(matches: &ArgMatches<'a>) -> Option<&'a str>
    ensures { MayNameStop (rows_of (found_of matches.now)) result }
{
    matches.get_str("stop")
}

/// The limits of the time of a search: that of each bay, that of all bays together, and whether a file may stop it.
pub(crate) fn time_of(matches: &ArgMatches<'_>) -> Result<TimeLimits, Usage>
    ensures ok { IfOk result (HasTime (rows_of (found_of matches.now))) }
    ensures err { IfErr result (Lacks (HasTime (rows_of (found_of matches.now))) (IsTimeFault (rows_of (found_of matches.now)))) }
{
    let bay = millis_of(matches, "seconds", SettingFault::Seconds)?;
    let all = millis_of(matches, "total-seconds", SettingFault::TotalSeconds)?;
    Ok(TimeLimits {
        bay,
        all,
        stop: stop_of(matches).is_some(),
    })
}
