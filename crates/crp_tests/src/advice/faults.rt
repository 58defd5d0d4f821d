//! Faults, one of each code.
use crp_cert::CertFault;
use crp_movins::MovinsFault;
use crp_plan::PlanFault;
use crp_report::{Fault, Input, Output};
use crp_sizes::SizesFault;
use crp_words::SettingFault;
use crp_yard::YardFault;
use edi_text::EdiFault;

// Faults of an interchange.
pub(super) const OF_INTERCHANGES: [EdiFault; 7] = [
    EdiFault::NoSegment { offset: 0 },
    EdiFault::Advice { offset: 1 },
    EdiFault::Unfinished { offset: 2 },
    EdiFault::Tag { offset: 3 },
    EdiFault::Release { offset: 4 },
    EdiFault::Control { offset: 5 },
    EdiFault::TooLong { offset: 6 },
];

// Faults of a message.
pub(super) const OF_MESSAGES: [MovinsFault; 13] = [
    MovinsFault::NoInterchangeHeader { segment: 1 },
    MovinsFault::InterchangeHeader { segment: 2 },
    MovinsFault::FunctionalGroup { segment: 3 },
    MovinsFault::OutOfPlace { segment: 4 },
    MovinsFault::MessageCount { segment: 5 },
    MovinsFault::MessageReference { segment: 6 },
    MovinsFault::InterchangeCount { segment: 7 },
    MovinsFault::InterchangeReference { segment: 8 },
    MovinsFault::AfterTrailer { segment: 9 },
    MovinsFault::MessageType { segment: 10 },
    MovinsFault::SlotNumber { segment: 11 },
    MovinsFault::OrderedTwice {
        segment: 12,
        first: 6,
    },
    MovinsFault::TooManyOrders { segment: 13 },
];

// Faults of a yard list.
pub(super) const OF_YARD_LISTS: [YardFault; 9] = [
    YardFault::Header { record: 1 },
    YardFault::Fields { record: 2 },
    YardFault::Digits { record: 3 },
    YardFault::Outside { record: 4 },
    YardFault::PlaceTaken { record: 5 },
    YardFault::Floating { record: 6 },
    YardFault::StandsAlready { record: 7 },
    YardFault::TooMany { record: 8 },
    YardFault::TooLarge,
];

// Faults of a list of sizes.
pub(super) const OF_SIZES: [SizesFault; 6] = [
    SizesFault::Header { record: 1 },
    SizesFault::Fields { record: 2 },
    SizesFault::Digits { record: 3 },
    SizesFault::Heights { record: 4 },
    SizesFault::Twice { record: 5 },
    SizesFault::TooLarge,
];

// Faults of the text of a certificate.
pub(super) const OF_CERTIFICATES: [CertFault; 11] = [
    CertFault::Opening { line: 2 },
    CertFault::Size { line: 3 },
    CertFault::Row { line: 4 },
    CertFault::Claim { line: 5 },
    CertFault::Plan { line: 6 },
    CertFault::Part { line: 7 },
    CertFault::Order { line: 8 },
    CertFault::Symbol { line: 9 },
    CertFault::Unfinished { line: 10 },
    CertFault::Trailing { line: 11 },
    CertFault::End { line: 12 },
];

// Faults of a plan.
pub(super) const OF_PLANS: [PlanFault; 4] = [
    PlanFault::NoSuchRow { step: 1 },
    PlanFault::NotLegal { step: 2 },
    PlanFault::LeftOver { step: 3 },
    PlanFault::Incomplete,
];

// Reads and writes of a run that failed.
pub(super) const OF_RUNS: [Fault; 5] = [
    Fault::Read(Input::Yard),
    Fault::Read(Input::Movins),
    Fault::Write(Output::Report),
    Fault::Write(Output::Certificates),
    Fault::Write(Output::YardAfter),
];

// Settings beyond their limits.
pub(super) const OF_SETTINGS: [SettingFault; 11] = [
    SettingFault::Workers,
    SettingFault::Budget,
    SettingFault::Split,
    SettingFault::Beam,
    SettingFault::Thin,
    SettingFault::Heights,
    SettingFault::Rows,
    SettingFault::Tiers,
    SettingFault::Bay,
    SettingFault::Seconds,
    SettingFault::TotalSeconds,
];
