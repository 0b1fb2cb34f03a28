//! The page of errors.

use crate::others::OTHERS;
use crate::refused::REFUSED;

/// What a name of a result line means.
pub struct Entry {
    /// The name, without what follows it in brackets.
    pub name: &'static str,
    /// What the page says below the name.
    pub text: &'static str,
}

/// The entries of a page, in two parts.
#[derive(Clone, Copy)]
pub struct Page {
    /// The names of refusals.
    pub refused: &'static [Entry],
    /// The names of bad units and of faults.
    pub others: &'static [Entry],
}

/// Returns the page of errors.
pub fn page_of_errors() -> Page {
    Page {
        refused: &REFUSED,
        others: &OTHERS,
    }
}
