//! The fewest relocations of a bay, with a certificate: the settings of a search, its answer, and the solvers of one worker and of many.
#![tactic(auto)]

mod alone;
mod answer;
mod answering;
mod end;
mod laws;
mod looking;
mod rounds;
mod search;
mod second;
mod settings;
mod solver;
mod start;
mod workers;

pub use alone::solve_alone;
pub use answer::{Answer, Cause, Second, Solved};
pub use answering::answer_to;
pub use end::{Lost, Together};
pub use laws::{answers_agree, each_has_an_answer, one_first_limit};
pub use looking::look;
pub use rounds::with_known;
pub use search::Search;
pub use settings::{
    MAX_BEAM, MAX_BUDGET, MAX_SPLIT, MAX_THIN, MAX_WORKERS, Settings, SettingsFault, TimeLimits,
};
pub use solver::solve;
pub use workers::common::{Common, Gate, NoGate};
pub use workers::group::Group;
