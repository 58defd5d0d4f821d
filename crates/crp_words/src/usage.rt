//! Why the words of the command line ask for nothing.
use thiserror::Error;

/// Which setting of the command line is the first beyond its limits, in this order.
#[derive(Clone, Copy, Debug, Drop, PartialEq, Eq, Error)]
pub enum SettingFault {
    /// The workers are none or more than 64.
    #[error("S1")]
    Workers,
    /// The budget is above 1099511627776.
    #[error("S2")]
    Budget,
    /// The split is above 8.
    #[error("S3")]
    Split,
    /// The beam keeps more than 10000 positions.
    #[error("S7")]
    Beam,
    /// A try to close a position takes more than 1000000 thinned branches.
    #[error("S9")]
    Thin,
    /// The rows are none or more than 12.
    #[error("S5")]
    Rows,
    /// The tiers are none or more than 8.
    #[error("S6")]
    Tiers,
    /// The heights are not 1 to 12 digits from 1 to 8, joined by points.
    #[error("S4")]
    Heights,
    /// A text names no bay.
    #[error("S10")]
    Bay,
    /// The limit of the time of a bay is no number of seconds from 0.001 to 86400.
    #[error("S11")]
    Seconds,
    /// The limit of the time of all bays together is no such number.
    #[error("S12")]
    TotalSeconds,
}

/// What is wrong with the words.
#[derive(Drop)]
pub enum Mistake {
    /// They are no command with its files and options, with the text for the user.
    Words(String),
    /// A setting is beyond its limits.
    Setting(SettingFault),
}

/// Why the words ask for nothing that can be done.
#[derive(Drop)]
pub enum Usage {
    /// Help or the version was asked for, with the text for the user.
    Help(String),
    /// The words are wrong.
    Wrong(Mistake),
    /// No memory is left.
    Memory,
}
