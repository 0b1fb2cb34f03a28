//! How a variable differs. Unless the values of all variables are requested, only values of
//! variables that the builder itself sets are shown. The value of any other variable may be a
//! secret.

use crate::values::{values_detail, words_only};
use pb_tool_reasons::Detail;
use std::alloc::{AllocError, Global};

/// The names of the variables that the builder sets.
static OWN: &[&str] = &[
    "CARGO",
    "CARGO_BIN_NAME",
    "CARGO_CRATE_NAME",
    "CARGO_ENCODED_RUSTFLAGS",
    "CARGO_MANIFEST_DIR",
    "CARGO_MANIFEST_LINKS",
    "CARGO_MANIFEST_PATH",
    "DEBUG",
    "HOST",
    "NUM_JOBS",
    "OPT_LEVEL",
    "OUT_DIR",
    "PROFILE",
    "RUSTC",
    "TARGET",
];

/// The beginnings of the names of the other variables that the builder sets.
static OWN_FIRST: &[&str] = &["CARGO_FEATURE_", "CARGO_PKG_"];

/// Returns whether the builder itself sets a variable of this name.
fn is_own(name: &str) -> bool {
    OWN.iter().any(|own| *own == name) || OWN_FIRST.iter().any(|first| name.starts_with(*first))
}

/// Returns how a variable differs, without its values.
fn presence_detail(
    alloc: Global,
    old: Option<&str>,
    new: Option<&str>,
) -> Result<Detail, AllocError> {
    match (old, new) {
        (None, Some(_)) => words_only(alloc, "is new"),
        (Some(_), None) => words_only(alloc, "is gone"),
        _ => Ok(Detail::Nothing),
    }
}

/// Returns how an inherited variable differs. `values` says whether its values are shown.
pub(crate) fn inherited_detail(
    alloc: Global,
    values: bool,
    old: Option<&str>,
    new: Option<&str>,
) -> Result<Detail, AllocError> {
    if values {
        values_detail(alloc, old, new)
    } else {
        presence_detail(alloc, old, new)
    }
}

/// Returns how a variable differs, if only one of two commands sets the variable, or the commands
/// set it to different texts. If `values` is true, the values are shown even if the builder itself
/// does not set the variable.
pub(crate) fn variable_detail(
    alloc: Global,
    name: &str,
    values: bool,
    old: Option<&str>,
    new: Option<&str>,
) -> Result<Detail, AllocError> {
    inherited_detail(alloc, values || is_own(name), old, new)
}
