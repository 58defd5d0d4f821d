//! What the program may be asked for.

ghost use Rattle.std.specs.Prelude.{◌≡◌, IfOk, option_map};
ghost use Rattle.crp_jobs.specs.Partial.{is_partial};
ghost use Rattle.crp_jobs.specs.Printed.{is_json, is_json_by};
ghost use Rattle.crp_jobs.specs.Sized.{list_named, separator_of, with_sizes};

use crp_follow::Part;
use crp_report::{InputSettings, RunSettings};
use crp_sizes::Sizes;
use crp_solve::Settings;
use std::alloc::{AllocError, Global};

/// What is done with the bytes of one file.
#[derive(Clone, Copy)]
pub enum FileCommand {
    /// To print the moves of the plan of a certificate's head.
    Replay,
    /// To print the lower bounds of the problem of a certificate's head.
    Bound {
        /// Whether one by chains of containers is printed too.
        chains: bool,
        /// Whether they are to be printed as JSON Lines.
        json: bool,
    },
    /// To check a file of certificates.
    Check {
        /// Whether it may have any size.
        any_size: bool,
        /// How many workers check it, side by side.
        workers: u32,
        /// Whether what it shows is to be printed as JSON Lines.
        json: bool,
    },
    /// To solve the problem of a certificate's head, by this search.
    Prove(Settings),
    /// To print a report, whose moves may have been edited, with lines that count its moves.
    Rewrite,
}

/// The files of a run over a yard, by their names, and how its report is printed.
#[derive(Clone, Copy)]
pub struct RunFiles<'a> {
    /// The yard list.
    pub yard: &'a str,
    /// The list of sizes, if bays have others than the common one.
    pub sizes: Option<&'a str>,
    /// The message.
    pub movins: &'a str,
    /// What gets the certificates, if they are wanted.
    pub cert: Option<&'a str>,
    /// What gets the yard after the plans, if it is wanted.
    pub after: Option<&'a str>,
    /// The file that stops the searches as soon as it is there, if one does. It is not opened.
    pub stop: Option<&'a str>,
    /// Whether the report is to be printed as JSON Lines.
    pub json: bool,
    /// The byte between the fields of its lists: a comma, unless another one is asked for.
    pub separator: u8,
}

/// The files of an audit, by their names.
#[derive(Clone, Copy)]
pub struct AuditFiles<'a> {
    /// The yard list.
    pub yard: &'a str,
    /// The list of sizes, if bays have others than the common one.
    pub sizes: Option<&'a str>,
    /// The message.
    pub movins: &'a str,
    /// The report.
    pub report: &'a str,
    /// Whether it may end early, without its last line.
    pub partial: bool,
    /// The certificates.
    pub certificates: &'a str,
    /// The byte between the fields of its lists: a comma, unless another one is asked for.
    pub separator: u8,
    /// Whether what is found is to be printed as JSON Lines.
    pub json: bool,
}

/// The files of a list of absent containers, by their names.
#[derive(Clone, Copy)]
pub struct AbsentFiles<'a> {
    /// The yard list.
    pub yard: &'a str,
    /// The list of sizes, if bays have others than the common one.
    pub sizes: Option<&'a str>,
    /// The message.
    pub movins: &'a str,
    /// The byte between the fields of its lists: a comma, unless another one is asked for.
    pub separator: u8,
}

/// What gets the yard as the moves of a report leave it.
#[derive(Clone, Copy)]
pub struct AfterFile<'a> {
    /// Its name.
    pub name: &'a str,
    /// How many containers the ship has got, if no more moves are made than until then.
    pub loaded: Option<u64>,
}

/// The files of a report that is followed, by their names.
#[derive(Drop)]
pub struct FollowFiles<'a> {
    /// The yard list.
    pub yard: &'a str,
    /// The list of sizes, if bays have others than the common one.
    pub sizes: Option<&'a str>,
    /// The report. One named `-` is the standard input.
    pub report: &'a str,
    /// Whether it may end early, without its last line.
    pub partial: bool,
    /// Whether the table is to be that of the bays, in place of that of the moves.
    pub summary: bool,
    /// The message, in whose order the table is to be, if there is one.
    pub movins: Option<&'a str>,
    /// What gets the page of its moves, if it is wanted.
    pub page: Option<&'a str>,
    /// What gets the yard as its moves leave it, if it is wanted.
    pub after: Option<AfterFile<'a>>,
    /// The bays whose moves are wanted.
    pub part: Part<'a>,
    /// The byte between the fields of its lists: a comma, unless another one is asked for.
    pub separator: u8,
}

/// The files of two reports that are compared, by their names.
#[derive(Clone, Copy)]
pub struct CompareFiles<'a> {
    /// The yard list.
    pub yard: &'a str,
    /// The list of sizes, if bays have others than the common one.
    pub sizes: Option<&'a str>,
    /// The report. One named `-` is the standard input.
    pub report: &'a str,
    /// The second report. One named `-` is the standard input, unless the first one is.
    pub second: &'a str,
    /// Whether they may end early, without their last lines.
    pub partial: bool,
    /// The byte between the fields of lists.
    pub separator: u8,
}

/// What the program is to do.
#[derive(Drop)]
pub enum Job<'a> {
    /// A command over the bytes of one file.
    OneFile {
        /// The file. One named `-` is the standard input.
        file: &'a str,
        /// What is done with its bytes.
        command: FileCommand,
        /// The file that stops a search as soon as it is there, if one does. It is not opened.
        stop: Option<&'a str>,
    },
    /// To list the ordered containers of a message that are not in the yard.
    Absent {
        /// The files of the list.
        files: AbsentFiles<'a>,
        /// What the yard list and the message mean.
        settings: InputSettings,
    },
    /// To audit a report and its certificates against a yard list and a message.
    Audit {
        /// The files of the audit.
        files: AuditFiles<'a>,
        /// What the yard list and the message mean.
        settings: InputSettings,
    },
    /// To follow the moves of a report over a yard.
    Follow {
        /// The files of the report that is followed.
        files: FollowFiles<'a>,
        /// What the yard list and the message mean.
        settings: InputSettings,
    },
    /// To compare two reports, whose moves are followed over one yard.
    Compare {
        /// The files of the two reports.
        files: CompareFiles<'a>,
        /// What the yard list means.
        settings: InputSettings,
    },
    /// To solve the bays of a yard for the load orders of a message.
    Solve {
        /// The files of the run.
        files: RunFiles<'a>,
        /// How the bays are solved.
        settings: RunSettings,
        /// Whether notes are left out, and how far the run is.
        quiet: bool,
        /// Whether a line says that each bay begins, where there is no terminal.
        progress: bool,
    },
}

impl<'a> FollowFiles<'a> {
    // The same files.
    fn copy(&self, alloc: Global) -> Result<FollowFiles<'a>, AllocError>
        ensures { IfOk result (λ files. files ≡ self.now) }
    {
        let part = self.part.copy(alloc)?;
        Ok(FollowFiles {
            yard: self.yard,
            sizes: self.sizes,
            report: self.report,
            partial: self.partial,
            summary: self.summary,
            movins: self.movins,
            page: self.page,
            after: self.after,
            part,
            separator: self.separator,
        })
    }
}

impl FileCommand {
    /// Whether what it writes is to be printed as JSON Lines.
    pub fn is_json(&self) -> bool
        ensures { result ≡ is_json_by self.now }
    {
        match self {
            FileCommand::Bound { json, .. } | FileCommand::Check { json, .. } => *json,
            FileCommand::Replay | FileCommand::Prove(_) | FileCommand::Rewrite => false,
        }
    }
}

impl<'a> Job<'a> {
    /// Whether what it writes is to be printed as JSON Lines.
    pub fn is_json(&self) -> bool
        ensures { result ≡ is_json self.now }
    {
        match self {
            Job::OneFile { command, .. } => command.is_json(),
            Job::Audit { files, .. } => files.json,
            Job::Solve { files, .. } => files.json,
            Job::Absent { .. } | Job::Follow { .. } | Job::Compare { .. } => false,
        }
    }

    /// The byte between the fields of its lists, of which one over the bytes of one file has none.
    pub fn separator(&self) -> u8
        ensures { result ≡ separator_of self.now }
    {
        match self {
            Job::OneFile { .. } => b',',
            Job::Absent { files, .. } => files.separator,
            Job::Audit { files, .. } => files.separator,
            Job::Follow { files, .. } => files.separator,
            Job::Compare { files, .. } => files.separator,
            Job::Solve { files, .. } => files.separator,
        }
    }

    /// Whether its reports may end early.
    pub fn is_partial(&self) -> bool
        ensures { result ≡ is_partial self.now }
    {
        match self {
            Job::Audit { files, .. } => files.partial,
            Job::Follow { files, .. } => files.partial,
            Job::Compare { files, .. } => files.partial,
            Job::OneFile { .. } | Job::Absent { .. } | Job::Solve { .. } => false,
        }
    }

    /// The list of sizes that the job names, if it names one, and what its input means without that.
    pub fn list_of_sizes(&self) -> Option<(&'a str, &InputSettings)>
        ensures { option_map (λ list. (list.0.now, list.1.now)) result ≡ list_named self.now }
    {
        match self {
            Job::OneFile { .. } => None,
            Job::Absent { files, settings } => Some((files.sizes?, settings)),
            Job::Audit { files, settings } => Some((files.sizes?, settings)),
            Job::Follow { files, settings } => Some((files.sizes?, settings)),
            Job::Compare { files, settings } => Some((files.sizes?, settings)),
            Job::Solve {
                files,
                settings,
                ..
            } => Some((files.sizes?, settings.input())),
        }
    }

    /// The same job over a yard whose bays have these sizes.
    pub fn with_sizes(&self, alloc: Global, sizes: Sizes) -> Result<Job<'a>, AllocError>
        ensures { IfOk result (λ job. job ≡ with_sizes sizes self.now) }
    {
        Ok(match self {
            Job::OneFile {
                file,
                command,
                stop,
            } => Job::OneFile {
                file: *file,
                command: *command,
                stop: *stop,
            },
            Job::Absent { files, settings } => Job::Absent {
                files: *files,
                settings: settings.sized(alloc, sizes)?,
            },
            Job::Audit { files, settings } => Job::Audit {
                files: *files,
                settings: settings.sized(alloc, sizes)?,
            },
            Job::Follow { files, settings } => Job::Follow {
                files: files.copy(alloc)?,
                settings: settings.sized(alloc, sizes)?,
            },
            Job::Compare { files, settings } => Job::Compare {
                files: *files,
                settings: settings.sized(alloc, sizes)?,
            },
            Job::Solve {
                files,
                settings,
                quiet,
                progress,
            } => Job::Solve {
                files: *files,
                settings: RunSettings::new(
                    settings.search(),
                    settings.input().sized(alloc, sizes)?,
                ),
                quiet: *quiet,
                progress: *progress,
            },
        })
    }
}
