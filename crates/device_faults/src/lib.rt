//! The two faults of a device, event by event: of a read, and of a write of a part of a page.
#![tactic(auto)]

#[cfg(test)]
mod tests;
