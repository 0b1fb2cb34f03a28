//! The number of processors.

use std::fs;

/// Returns how many numbers a range contains. A range is written as `4` or as `0-3`.
fn in_range(range: &str) -> Option<u64> {
    let Some((first, last)) = range.split_once('-') else {
        let _: u64 = range.parse().ok()?;
        return Some(1);
    };
    let first: u64 = first.parse().ok()?;
    let last: u64 = last.parse().ok()?;
    last.checked_sub(first)?.checked_add(1)
}

/// Returns how many numbers a list of ranges contains. Commas separate the ranges.
fn in_list(list: &str) -> Option<u64> {
    let mut count = 0u64;
    for range in list.split(',') {
        count = count.saturating_add(in_range(range)?);
    }
    Some(count)
}

/// Returns how many processors a process may use, by its status as Linux reports it.
fn in_status(status: &str) -> Option<u64> {
    let (_, rest) = status.split_once("\nCpus_allowed_list:")?;
    let line = rest.lines().next()?;
    in_list(line.trim())
}

/// Returns how many processors this process may use, by `/proc/self/status`. If this file does not
/// contain the number, as on a system other than Linux, the function returns 1. (std returns the
/// number only to programs that may start threads.)
pub(crate) fn processors(rt: &HostRuntime) -> u64 {
    let Ok(status) = fs::read_to_string(rt, "/proc/self/status") else {
        return 1;
    };
    in_status(status.as_str()).unwrap_or(1)
}
