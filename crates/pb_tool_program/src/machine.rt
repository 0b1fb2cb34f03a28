//! The program over the machine.

use crate::folder_lock::FolderLock;
use crate::processors::processors;
use crate::running::{BAD_COMMAND_LINE, FAILED, run};
use pb_place_host::HostPlace;
use pb_place_types::{Over, PathFault, PathText, write_all};
use pb_tool_arguments::Here;
use pb_tool_explain::page_of_errors;
use pb_tool_screen::{Colored, Counted, Rendered, Spoken, StatusLine};
use pb_tool_witness::Witness;
use std::env::VarError;
use std::io::{ErrorKind, IsTerminal};
use std::time::{Duration, Instant};
use std::{env, io};

/// Returns the arguments of the command line, the program's own name first.
fn words(rt: &HostRuntime) -> io::Result<Vec<String>> {
    let words = env::args(rt)?.collect(rt.alloc())?;
    Ok(words)
}

/// Returns the current folder.
fn folder(rt: &HostRuntime) -> io::Result<PathText> {
    let path = env::current_dir(rt)?;
    match PathText::parse(rt.alloc(), path.as_str()) {
        Ok(path) => Ok(path),
        Err(PathFault::OutOfMemory) => Err(io::Error::from(ErrorKind::OutOfMemory)),
        Err(_) => Err(io::Error::from(ErrorKind::InvalidInput)),
    }
}

/// Returns whether the variable `NO_COLOR` is set and not empty. The variable asks programs to use
/// no colours.
fn has_no_color(rt: &HostRuntime) -> bool {
    match env::var(rt, "NO_COLOR") {
        Ok(value) => !value.is_empty(),
        Err(VarError::NotPresent) => false,
        Err(_) => true,
    }
}

/// Writes to standard error why nothing was done.
fn say(rt: &HostRuntime, text: &str) {
    let _ = write_all(&mut Over::new(rt.stderr()), text.as_bytes());
}

/// Writes that memory ran out, and returns the status for it.
fn out_of_memory(rt: &HostRuntime) -> u8 {
    say(rt, "error: fault memory OutOfMemory\n");
    FAILED
}

/// Returns a time in seconds, such as `31 s`. A time below ten seconds has tenths.
fn seconds(rt: &HostRuntime, time: Duration) -> io::Result<String> {
    let whole = time.as_secs();
    let text = if whole < 10 {
        let tenths = time.subsec_millis() / 100;
        format!(in rt.alloc(); "{whole}.{tenths} s")?
    } else {
        format!(in rt.alloc(); "{whole} s")?
    };
    Ok(text)
}

/// Writes how many units a build has built and kept, and how long the build took.
fn say_counts(rt: &HostRuntime, counted: Counted, start: Instant) -> io::Result<()> {
    let time = seconds(rt, start.elapsed(rt)?)?;
    let Counted { built, kept } = counted;
    let line = format!(in rt.alloc(); "{built} built, {kept} kept in {time}\n")?;
    say(rt, line.as_str());
    Ok(())
}

/// Does what the arguments of this process request, and returns the exit status. Files, variables
/// and children are those of the machine.
///
/// The status is that of `run`. If an argument is not UTF-8, the status is 1. If the current folder
/// is unknown, or memory runs out for the arguments or the folder, the status is 101. Each reason
/// is written to standard error.
pub fn tool(rt: &HostRuntime) -> u8 {
    let words = match words(rt) {
        Ok(words) => words,
        Err(error) if error.kind() == ErrorKind::OutOfMemory => return out_of_memory(rt),
        Err(_) => {
            say(rt, "error: an argument of the command line is not UTF-8\n");
            return BAD_COMMAND_LINE;
        }
    };
    let folder = match folder(rt) {
        Ok(folder) => folder,
        Err(error) if error.kind() == ErrorKind::OutOfMemory => return out_of_memory(rt),
        Err(_) => {
            say(rt, "error: the current folder is not known\n");
            return FAILED;
        }
    };
    let is_terminal = rt.stderr().is_terminal();
    let here = Here {
        folder,
        processors: processors(rt),
        is_terminal,
        shows_colors: is_terminal && !has_no_color(rt),
    };
    let start = Instant::now(rt);
    let mut line = StatusLine::new(rt.alloc(), Over::new(rt.stderr()));
    let status = run(
        rt.alloc(),
        words.as_slice(),
        &here,
        &page_of_errors(),
        &mut Witness::new(
            rt.alloc(),
            Spoken::new(HostPlace::new(rt.alloc(), rt), Over::new(rt.stderr())),
        ),
        &mut FolderLock::new(rt),
        &mut Rendered::new(
            rt.alloc(),
            Over::new(io::writer(rt)),
            Over::new(rt.stderr()),
        ),
        &mut Colored::new(Over::new(rt.stderr())),
        &mut line,
    );
    // The time is used only here: nothing that is proved depends on the time.
    if let (Ok(start), Some(counted)) = (start, line.last_count()) {
        let _ = say_counts(rt, counted, start);
    }
    status
}
