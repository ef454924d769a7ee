//! What a job may print, over a plain disk: a list of sectors with an order of calls for each
//! page.
//! Definitions alone; the layers above cite them.
#![tactic(auto)]
