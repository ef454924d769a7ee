//! A page's entry: the form in which the page is kept, the order of the calls on it in the phase,
//! and the time of its last access. And the forms themselves: which one a page has, and back.
#![tactic(auto)]

mod entry;
mod form;
mod kept;
mod laws;
mod limits;

pub use entry::Entry;
pub use form::{Form, expand, form_of, restore, thaw};
pub use kept::{Kept, Stored};
pub use laws::{
    forms_tell_pages, kept_bytes_have_one_page, packed_objects_have_classes, plain_pages_are_pages,
    weights_tell_forms,
};
pub use limits::{HUGE_CLASS, MOST_PACKED};

#[cfg(test)]
mod mark_tests;
#[cfg(test)]
mod tests;
