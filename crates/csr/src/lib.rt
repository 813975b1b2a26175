// Control and status registers but those of protection: who may access which, what a read gives, and what a write stores.
#![tactic(auto)]

mod operation;
mod permit;
mod show;
mod store;
mod table;

pub use operation::{operate, value_written};
pub use permit::{attempts_write, is_illegal};
pub use show::read;
