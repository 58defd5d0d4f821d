//! Reports and certificates, whoever made them.
//!
//! What they promise is said in `specs/Headline.antt`, what a report that ends early does in `specs/Part.antt`, and why they are refused
//! in `specs/Faults.antt`.
#![tactic(auto)]

mod auditing;
mod certified;
mod fault;
mod fitting;
mod laws;
mod lines_read;
mod looking;
mod part;
mod replaying;

pub use auditing::audit;
pub use fault::{AuditFault, AuditStop, AuditStopped};
pub use fitting::moves_fit;
pub use laws::{
    first_bays_are_stated, headlines_are_read, headlines_have_no_fault, headlines_show,
    one_list_of_verdicts, one_plan_is_printed, printed_plans_are_followed, true_if_it_looks_so,
};
pub use looking::{Looked, look_at};
pub use part::{Part, first_bays};
pub use replaying::{Replayed, replay_lines};
