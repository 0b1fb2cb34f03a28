//! Workspaces, written by hand from the rules. A case has files, each after a line `@ PATH`, and a
//! line `---`. After this line comes what the loader answers. After a colon in the first line come
//! words for selections: a name for `-p`, `*` for all members, `-` if nothing is named.

pub mod checked;
pub mod found;
pub mod inherited;
pub mod loaded;
pub mod members;
pub mod selected;

use checked::CHECKED;
use found::FOUND;
use inherited::INHERITED;
use loaded::LOADED;
use members::MEMBERS;
use selected::SELECTED;

/// The tables of cases by subject, and how many each has.
pub static CASES: &[(&str, usize)] = &[
    (FOUND, 21),
    (MEMBERS, 22),
    (LOADED, 18),
    (INHERITED, 12),
    (CHECKED, 14),
    (SELECTED, 8),
];
