//! The command `follow` over its files.
ghost use Rattle.std.specs.Prelude.{◌≡◌, ◌&&◌, MatchResult, is_some, not, option_map, option_and_then};
ghost use Rattle.crp_report.specs.Runs.{SourceSeen, SinkSeen, sink_seen, source_seen};
ghost use Rattle.crp_jobs.specs.Names.{after_name};
ghost use Rattle.crp_jobs.specs.Opened.{FilesSeen};
ghost use Rattle.crp_commands.specs.Follow.{AnswersOver, FollowReportsOverFiles, FollowFailsOverFiles, IsOverTexts, IsOverReport, Opened, RefusesFile, chosen_by, if_asked};
ghost use Rattle.crp_commands.specs.Noted.{IsNotedBy};

use crate::finishing::unless_unfinished;
use crate::following::{FollowSettings, Listed, TextFiles, follow};
use crate::streams::Streams;
use crp_files::{Files, Named, Wanted, first_shared, prepare_wanted};
use crp_jobs::{FollowFiles, Statement, ToolFault};
use crp_plan::{Sink, Source};
use crp_report::{Fault, Input, InputSettings, Output, Status};
use crp_separated::ListInput;
use std::alloc::Global;
use std::marker::Brand;

// What is asked for where a report is followed: its files, and what the yard list and the message mean.
#[derive(Clone, Copy)]
struct FollowAsked<'a> {
    names: &'a FollowFiles<'a>,
    settings: &'a InputSettings,
}

// The file of the yard behind the moves, if it is wanted, and how many containers the ship has got then, if that is said.
fn list_of<'a>(names: &FollowFiles<'a>) -> (Option<&'a str>, Option<u64>)
    ensures name { option_map (λ name. name.now) result.0 ≡ after_name names.now.after }
    ensures loaded { result.1 ≡ option_and_then (λ file. file.loaded) names.now.after }
{
    match names.after {
        Some(after) => (Some(after.name), after.loaded),
        None => (None, None),
    }
}

// Makes the files of the page and of the list, if they are wanted and are no other ones, and follows the moves of the report.
#[tactic(auto, using(crate::proofs::Noted::unnoted))]
fn follow_to<F: Files, Y: Source, M: Source, R: Source, W: Sink, E: Sink, P: Named, A: Named>(
    alloc: Global,
    files: &mut F,
    asked: &FollowAsked<'_>,
    listed: &mut Listed<Y, M>,
    report: &mut R,
    out: &mut W,
    errors: &mut E,
) -> Result<Status, ToolFault>
    requires page { option_map (λ name. name.now) asked.now.names.now.page ≡ P.name }
    requires list { after_name asked.now.names.now.after ≡ A.name }
    ensures ended { let devices : Opened = record {
      yard = source_seen Y.remaining Y.failures listed.old.yard listed.new.yard;
      movins = if_asked (is_some asked.now.names.now.movins) (source_seen M.remaining M.failures listed.old.movins listed.new.movins);
      out = sink_seen W.contents W.failures out.old out.new;
    } in let from : SourceSeen = source_seen R.remaining R.failures report.old report.new
        in let all : FilesSeen = record { known = F.known files.old; left = F.known files.new; before = F.failures files.old; after = F.failures files.new }
        in AnswersOver (chosen_by asked.now.names.now asked.now.settings.now) (IsOverTexts asked.now.names.now all devices from)
        (RefusesFile asked.now.names.now all devices from) result }
    ensures noted { IsNotedBy (not asked.now.names.now.partial && not (is_some asked.now.names.now.movins)) (sink_seen E.contents E.failures errors.old errors.new) }
{
    let names = asked.names;
    let (after, loaded) = list_of(names);
    prepare_wanted(files, names.page);
    prepare_wanted(files, after);
    if let Some(shared) = first_shared(files, names) {
        return Err(ToolFault::OneFile(shared));
    }
    let Ok(page) = Wanted::<F, P>::create(files, names.page) else {
        return Err(ToolFault::WritePage);
    };
    let Ok(list) = Wanted::<F, A>::create(files, after) else {
        return Err(ToolFault::Run(Fault::Write(Output::YardAfter)));
    };
    let mut texts = TextFiles { page, list };
    let settings = FollowSettings {
        input: asked.settings,
        part: &names.part,
        ship: names.movins.is_some(),
        page: names.page.is_some(),
        list: names.after.is_some(),
        loaded,
        partial: names.partial,
        summary: names.summary,
        separator: names.separator,
    };
    let answer = follow(alloc, listed, report, &settings, &mut texts, out, errors);
    let paged = texts.page.finish(files, names.page);
    let left = texts.list.finish(files, after);
    let answer = unless_unfinished(answer, paged, ToolFault::WritePage);
    unless_unfinished(
        answer,
        left,
        ToolFault::Run(Fault::Write(Output::YardAfter)),
    )
}

// Opens the report, unless it is the standard input, and then the files of the page and of the list.
#[tactic(auto, using(crate::proofs::Noted::unnoted))]
fn follow_report<F: Files, Y: Source, M: Source, R: Source, W: Sink, E: Sink>(
    alloc: Global,
    files: &mut F,
    asked: &FollowAsked<'_>,
    listed: &mut Listed<Y, M>,
    streams: &mut Streams<R, W, E>,
) -> Result<Status, ToolFault>
    ensures ended { let devices : Opened = record {
      yard = source_seen Y.remaining Y.failures listed.old.yard listed.new.yard;
      movins = if_asked (is_some asked.now.names.now.movins) (source_seen M.remaining M.failures listed.old.movins listed.new.movins);
      out = sink_seen W.contents W.failures streams.old.out streams.new.out;
    } in let given : SourceSeen = source_seen R.remaining R.failures streams.old.input streams.new.input
        in let all : FilesSeen = record { known = F.known files.old; left = F.known files.new; before = F.failures files.old; after = F.failures files.new }
        in AnswersOver (chosen_by asked.now.names.now asked.now.settings.now) (IsOverReport asked.now.names.now all devices given)
        (RefusesFile asked.now.names.now all devices given) result }
    ensures noted { IsNotedBy (not asked.now.names.now.partial && not (is_some asked.now.names.now.movins)) (sink_seen E.contents E.failures streams.old.errors streams.new.errors) }
{
    if asked.names.report == "-" {
        return follow_to::<F, Y, M, R, W, E, Brand, Brand>(
            alloc,
            files,
            asked,
            listed,
            &mut streams.input,
            &mut streams.out,
            &mut streams.errors,
        );
    }
    let Ok(mut report) = files.open(asked.names.report) else {
        return Err(ToolFault::ReadOf(Statement::Report));
    };
    let answer = follow_to::<F, Y, M, F::Input, W, E, Brand, Brand>(
        alloc,
        files,
        asked,
        listed,
        &mut report,
        &mut streams.out,
        &mut streams.errors,
    );
    files.close(report);
    answer
}

/// Opens the files, before anything is read: the yard list, the message, if there is one, the report, and the files of the page and of the
/// yard after, which are made where they are not there. Where one that is written is another one of these, or stands behind a standard
/// stream, no file is emptied, and that is the fault. Else follows the moves of the report. One named `-` is the standard input. The table
/// goes to the standard output, and with a message, or of a report that ends early, notes go to the standard error.
#[tactic(auto, using(crate::proofs::Noted::unnoted))]
pub fn follow_files<F: Files, R: Source, W: Sink, E: Sink>(
    alloc: Global,
    files: &mut F,
    streams: &mut Streams<R, W, E>,
    names: &FollowFiles<'_>,
    settings: &InputSettings,
) -> Result<Status, ToolFault>
    ensures ended { let all : FilesSeen = record { known = F.known files.old; left = F.known files.new; before = F.failures files.old; after = F.failures files.new }
        in let given : SourceSeen = source_seen R.remaining R.failures streams.old.input streams.new.input
        in let shown : SinkSeen = sink_seen W.contents W.failures streams.old.out streams.new.out
        in MatchResult result (FollowReportsOverFiles names.now settings.now all given shown) (FollowFailsOverFiles names.now settings.now all given shown) }
    ensures noted { IsNotedBy (not names.now.partial && not (is_some names.now.movins)) (sink_seen E.contents E.failures streams.old.errors streams.new.errors) }
{
    let Ok(list) = files.open(names.yard) else {
        return Err(ToolFault::Run(Fault::Read(Input::Yard)));
    };
    let yard = ListInput::with_commas(list, names.separator);
    let asked = FollowAsked { names, settings };
    match names.movins {
        Some(name) => {
            let Ok(movins) = files.open(name) else {
                return Err(ToolFault::Run(Fault::Read(Input::Movins)));
            };
            let mut listed = Listed { yard, movins };
            let answer = follow_report(alloc, files, &asked, &mut listed, streams);
            files.close(listed.movins);
            files.close(listed.yard.into_file());
            answer
        }
        None => {
            let movins: &[u8] = b"";
            let mut listed = Listed { yard, movins };
            let answer = follow_report(alloc, files, &asked, &mut listed, streams);
            files.close(listed.yard.into_file());
            answer
        }
    }
}
