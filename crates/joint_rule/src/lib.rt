//! The joint rule of pages in the pool, of pools and of the account.
#![tactic(auto)]

mod laws;

pub use laws::{
    disks_begin, locks_are_of_the_disk, phases_go_on, rule_keeps, values_fit, writebacks_keep_pages,
};
