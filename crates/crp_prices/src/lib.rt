//! A lower bound on the relocations that a position of a bay still takes, by prices of the jobs that rows can do.
#![tactic(auto)]

mod all_jobs;
mod bound;
mod columns;
mod job;
mod laws;
mod list;
mod mosts;
mod pass;
mod prices;
mod row;
mod table;

pub use all_jobs::jobs_of;
pub use bound::{firsts_of, price_bound_of};
pub use job::{Job, MarkedJob};
pub use laws::{
    job_words_mean, pass_is_most, price_list_worked, prices_bound, prices_fall_slowly, prices_grow,
    prices_pass, prices_worked, rows_keep_most,
};
pub use list::{PriceList, Priced};
pub use mosts::mosts_of;
pub use prices::Prices;
