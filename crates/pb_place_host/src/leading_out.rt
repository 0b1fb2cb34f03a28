//! Links that a script left in its output folder and that lead out of the target folder.

use crate::meaning::led_to;
use crate::report::Report;
use pb_data::TryCopy;
use pb_place_types::{Command, PathText};
use std::alloc::{AllocError, Global};
use std::fs;
use std::rt::Files;

/// How the name of the output folder of a script's run ends.
const RUN: &str = ".run";

/// The greatest number of links and folders that are looked at. Further links are not reported.
const MOST_LOOKS: usize = 100_000;

/// A search for the links that a script left: the target folder, what the script printed, and the
/// folders that are still to be looked at.
#[derive(Drop)]
struct Left<'a> {
    /// The target folder, without links.
    target: PathText,
    /// What the script printed.
    stdout: &'a str,
    /// The folders that are still to be looked at.
    waiting: Vec<PathText>,
}

/// Adds a link to a report, if the link leads out of the target folder to a path that the script
/// did not print.
///
/// Errors: out of memory.
fn weigh_link<R: Files + AllocGlobal>(
    runtime: &R,
    alloc: Global,
    report: &mut Report,
    left: &Left,
    link: &PathText,
) -> Result<(), AllocError> {
    let Some(goal) = led_to(runtime, alloc, link)? else {
        return Ok(());
    };
    if goal.starts_with(&left.target) || left.stdout.contains(goal.as_str()) {
        return Ok(());
    }
    let link = link.as_str();
    let goal = goal.as_str();
    let text = format!(in alloc;
        "in {link}: this link leads to {goal}, out of the target folder; unless its script names that as an input (cargo::rerun-if-changed={goal}), a change there may not be noticed"
    )?;
    report.say(alloc, text.as_str());
    Ok(())
}

/// Looks at an entry of a folder. A link is checked, and a folder is added to the waiting folders.
///
/// Errors: out of memory.
fn look_at<R: Files + AllocGlobal>(
    runtime: &R,
    alloc: Global,
    report: &mut Report,
    left: &mut Left,
    folder: &PathText,
    name: &str,
) -> Result<(), AllocError> {
    let Ok(path) = folder.join(alloc, name) else {
        return Ok(());
    };
    match fs::symlink_metadata(runtime, path.as_str()) {
        Ok(metadata) if metadata.is_symlink() => weigh_link(runtime, alloc, report, left, &path),
        Ok(metadata) if metadata.is_dir() => {
            left.waiting.push(path)?;
            Ok(())
        }
        _ => Ok(()),
    }
}

/// Looks at the entries of a folder. An entry that cannot be read is left out.
///
/// Errors: out of memory.
fn look_into<R: Files + AllocGlobal>(
    runtime: &R,
    alloc: Global,
    report: &mut Report,
    left: &mut Left,
    folder: &PathText,
) -> Result<(), AllocError> {
    let Ok(entries) = fs::read_dir(&runtime, folder.as_str()) else {
        return Ok(());
    };
    for entry in entries {
        if let Ok(entry) = entry {
            look_at(runtime, alloc, report, left, folder, entry.file_name())?;
        }
    }
    Ok(())
}

/// Looks at the waiting folders, and at everything in them.
///
/// Errors: out of memory.
fn look_around<R: Files + AllocGlobal>(
    runtime: &R,
    alloc: Global,
    report: &mut Report,
    left: &mut Left,
) -> Result<(), AllocError> {
    for _ in 0..MOST_LOOKS {
        match left.waiting.pop() {
            Some(folder) => look_into(runtime, alloc, report, left, &folder)?,
            None => break,
        }
    }
    Ok(())
}

/// Adds the links at or below an output folder that lead out of the target folder.
///
/// Errors: out of memory.
fn report_links<R: Files + AllocGlobal>(
    runtime: &R,
    alloc: Global,
    report: &mut Report,
    target: &PathText,
    out: &PathText,
    stdout: &str,
) -> Result<(), AllocError> {
    let Some(target) = led_to(runtime, alloc, target)? else {
        return Ok(());
    };
    let mut left = Left {
        target,
        stdout,
        waiting: Vec::new(alloc),
    };
    left.waiting.push(out.copy(alloc)?)?;
    look_around(runtime, alloc, report, &mut left)
}

/// Returns a report on links that lead out of the target folder. The script of a command left these
/// links in its output folder, and did not print the paths to which they lead. The report may be
/// empty for the command of a compiler, or if memory runs out.
pub(crate) fn links_out<R: Files + AllocGlobal>(
    runtime: &R,
    alloc: Global,
    command: &Command,
    stdout: &[u8],
) -> Report {
    let mut report = Report::new(alloc);
    if let Some(out) = &command.out {
        if out.last_part().ends_with(RUN) {
            let stdout = str::from_utf8(stdout).unwrap_or("");
            let _ = report_links(runtime, alloc, &mut report, &command.target, out, stdout);
        }
    }
    report
}
