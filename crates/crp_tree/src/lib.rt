//! Search trees over the paths of a problem, the names of their parts, and the lower bounds that they show.
#![tactic(auto)]

mod cert;
mod laws;
mod name;
mod part;
mod part_list;
mod path_text;
mod tree;

pub use cert::Cert;
pub use laws::{
    accepted_means, claims_are_accepted, first_means, firsts_are_accepted, names_are_ordered,
    names_given, names_once, needs_as_numbers, needs_pass_on, nodes_of_parts, nodes_of_trees,
    one_first_best, parts_cover, trees_show, whole_part_bounds,
};
pub use name::{MAX_NAME, Name};
pub use part::Part;
pub use part_list::Parts;
pub use path_text::PathText;
pub use tree::{Tree, pass_trees};
