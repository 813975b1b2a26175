// The claims about the whole hart, and functions whose contracts say them of the program.
#![tactic(auto)]

mod after_run;
mod saved;

pub use after_run::{query_from_reset, query_from_text};
pub use saved::resaved;
