use crp_plan::Plan;
use crp_tree::Part;

/// A part, and the first of the plans that belong to it.
#[derive(Drop)]
pub struct FirstPart {
    /// The part.
    pub part: Part,
    /// The first plan of the fewest relocations that belongs to the part, if there is one.
    pub plan: Option<Plan>,
}
