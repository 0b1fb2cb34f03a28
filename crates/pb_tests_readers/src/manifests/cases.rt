//! Manifests and what each manifest means, by The Cargo Book and this project's own choices, sorted
//! by subject.

pub mod dependencies;
pub mod features;
pub mod orders;
pub mod package;
pub mod profiles;
pub mod targets;
pub mod workspace;

use dependencies::DEPENDENCIES;
use features::FEATURES;
use orders::ORDERS;
use package::PACKAGE;
use profiles::PROFILES;
use targets::TARGETS;
use workspace::WORKSPACE;

/// Each table of cases, and how many it has.
pub static CASES: &[(&str, usize)] = &[
    (PACKAGE, 70),
    (ORDERS, 24),
    (TARGETS, 29),
    (DEPENDENCIES, 47),
    (FEATURES, 33),
    (PROFILES, 59),
    (WORKSPACE, 46),
];
