//! What a finished phase and a row at rest tell, by the plain disk. Definitions and laws.
#![tactic(auto)]

mod laws;

pub use laws::{disks_begin, phases_begin, phases_end, pools_count, rows_print, rows_stand};
