//! A folder for each test.

use pb_place_types::PathText;
use std::test::Fail;
use std::{env, fs, process};

/// Returns the path of a test's folder.
fn path_of(rt: &HostRuntime, name: &str) -> Result<String, Fail> {
    let all = env::temp_dir(rt)?;
    let number = process::id(rt.process());
    Ok(format!(in rt.alloc(); "{}/pb_tests_place-{number}-{name}", all.as_str())?)
}

/// Returns an empty folder there.
fn empty_folder(rt: &HostRuntime, text: &str) -> Result<PathText, Fail> {
    // An earlier run with this number may have been cut off, and may have left files.
    let _ = fs::remove_dir_all(rt, text);
    fs::create_dir_all(rt, text)?;
    Ok(PathText::parse(rt.alloc(), text)?)
}

/// Returns an empty folder for a test.
pub(crate) fn fresh(rt: &HostRuntime, name: &str) -> Result<PathText, Fail> {
    let text = path_of(rt, name)?;
    empty_folder(rt, text.as_str())
}

/// Removes a test's folder.
pub(crate) fn finish(rt: &HostRuntime, folder: &PathText) -> Result<(), Fail> {
    fs::remove_dir_all(rt, folder.as_str())?;
    Ok(())
}
