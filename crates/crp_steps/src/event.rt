/// The lower bound by which a path is closed as a leaf.
#[derive(Clone, Copy, Debug, PartialEq, Eq)]
pub enum Bound<'a> {
    /// The blocking bound.
    Blocking,
    /// The look-ahead bound.
    LookAhead,
    /// Reasons: a number of relocations, and the symbols of a tree with thinned branches that shows as many.
    Reasons { number: u8, text: &'a [u8] },
}

/// What a worker does in one step.
#[derive(Clone, Copy, Debug, PartialEq, Eq)]
pub enum Kind<'a> {
    /// Sees the limit.
    See,
    /// Takes the last name of its own deque as its task.
    Take,
    /// Takes the first name of another worker's deque as its task.
    Steal { victim: u32 },
    /// Claims an expansion of its current path.
    Claim,
    /// Claims a thinned branch of a try to close its current path, which stays as it is.
    Try,
    /// Puts a path of its hand into its deque. The index counts from 0, the oldest path first.
    Put { index: u32 },
    /// Closes its current path as a leaf.
    Leaf { bound: Bound<'a> },
    /// Offers its current path, which is finished.
    Offer,
    /// Ends its task.
    Finish,
}

/// One step of one worker. Workers count from 0.
#[derive(Clone, Copy, Debug, PartialEq, Eq)]
pub struct Event<'a> {
    pub worker: u32,
    pub kind: Kind<'a>,
}

/// Why an event was not followed.
#[derive(Clone, Copy, Debug, PartialEq, Eq)]
pub enum Stopped {
    /// The event is not allowed now.
    NotNow,
    /// Out of memory for an event that is allowed.
    Memory,
}
