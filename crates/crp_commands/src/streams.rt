//! The standard streams of a job.

/// The standard streams: where a job reads what is named `-`, where its report goes, and where its notes and its faults go.
#[derive(Drop)]
pub struct Streams<R, W, E> {
    /// The standard input.
    pub input: R,
    /// The standard output.
    pub out: W,
    /// The standard error.
    pub errors: E,
}
