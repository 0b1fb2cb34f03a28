//! Runs the examples: sessions in memory, and scripts that run the programs `pb_tool` and `pb_mini`
//! over real folders and real children.
//!
//! This program is also `pb_tool` and `pb_mini`. If this program is started under a name that ends
//! in `pb_tool` or `pb_mini`, it does what the program of that name does. Under any other name, it
//! runs the files of the current folder, in byte order of their names:
//!
//! - `NAME.json` is a session, which the program runs as `pb_tool session` does.
//! - `NAME.sh` is a script. The shell runs the script in a new folder. This folder contains links
//!   to this program under both names. In what a script prints, `/w` replaces the path of that
//!   folder.
//!
//! Before each session or script, the program prints a line `== NAME`.
//!
//! The gate starts this program in a copy of `data/` and compares what it prints with the file
//! `stdout`. So a new example needs its file in `data/` and its part of `stdout`.
#![tactic(auto)]

use pb_mini_program::compiler;
use pb_place_types::Over;
use pb_tool_program::{run_session, tool};
use std::os::unix::fs::symlink;
use std::process::{Command, ExitCode};
use std::rt::Env;
use std::{env, fs, io};

/// The programs, by the names under which they are started.
const PROGRAMS: [&str; 2] = ["pb_mini", "pb_tool"];

/// Returns the names of the files of sessions and scripts, in byte order.
fn names(rt: &HostRuntime) -> io::Result<Vec<String>> {
    let mut names = Vec::new(rt.alloc());
    for entry in fs::read_dir(rt, ".")? {
        let entry = entry?;
        let name = entry.file_name();
        if name.ends_with(".json") || name.ends_with(".sh") {
            names.push(String::from_str(rt.alloc(), name)?)?;
        }
    }
    names.sort_unstable();
    Ok(names)
}

/// Returns the name under which this program was started, or an empty text if the name is not
/// known.
fn own_name(rt: &HostRuntime) -> io::Result<String> {
    let mut bytes = [0u8; 4096];
    let Ok(length) = rt.arg(0, &mut bytes) else {
        return Ok(String::new(rt.alloc()));
    };
    let name = str::from_utf8(&bytes[..length]).unwrap_or("");
    let name = String::from_str(rt.alloc(), name)?;
    Ok(name)
}

/// Makes the links to this program in the folder `bin`.
fn link_programs(rt: &HostRuntime) -> io::Result<()> {
    let program = own_name(rt)?;
    fs::create_dir_all(rt, "bin")?;
    for name in PROGRAMS {
        let link = format!(in rt.alloc(); "bin/{name}")?;
        symlink(rt, program.as_str(), link.as_str())?;
    }
    Ok(())
}

/// Runs a session, which prints its lines.
fn print_session(rt: &HostRuntime, name: &str) -> io::Result<()> {
    print!(rt; "== {name}\n")?;
    let file = format!(in rt.alloc(); "{name}.json")?;
    let session = fs::read(rt, file.as_str())?;
    let mut out = Over::new(io::writer(rt));
    let mut err = Over::new(io::writer(rt));
    run_session(rt.alloc(), session.as_slice(), &mut out, &mut err);
    Ok(())
}

/// Lets the shell carry out a script in a new folder, and prints what the script printed.
fn print_script(rt: &HostRuntime, here: &str, name: &str) -> io::Result<()> {
    let folder = format!(in rt.alloc(); "{here}/in/{name}")?;
    fs::create_dir_all(rt, folder.as_str())?;
    let mut shell = Command::new(rt.alloc(), "/bin/sh")?;
    shell.arg("../../script")?;
    shell.arg(name)?;
    shell.current_dir(folder.as_str())?;
    let output = shell.output(rt)?;
    let text = String::from_utf8(output.stdout).map_err(|_| io::Error::from(
        io::ErrorKind::InvalidData,
    ))?;
    let text = text.replace(rt.alloc(), folder.as_str(), "/w")?;
    print!(rt; "== {name}\n{text}")
}

/// Carries out all sessions and scripts, if there are some.
fn print_all(rt: &HostRuntime) -> io::Result<()> {
    let here = env::current_dir(rt)?;
    let names = names(rt)?;
    if names.is_empty() {
        return Ok(());
    }
    link_programs(rt)?;
    for file in names.as_slice() {
        if let Some(name) = file.as_str().strip_suffix(".json") {
            print_session(rt, name)?;
        }
        if let Some(name) = file.as_str().strip_suffix(".sh") {
            print_script(rt, here.as_str(), name)?;
        }
    }
    Ok(())
}

/// Does what the program of this name does, and returns the status with which this program must
/// end.
fn status(rt: &HostRuntime) -> u8 {
    let Ok(name) = own_name(rt) else {
        return 1;
    };
    if name.as_str().ends_with("pb_tool") {
        return tool(rt);
    }
    if name.as_str().ends_with("pb_mini") {
        return compiler(rt);
    }
    match print_all(rt) {
        Ok(()) => 0,
        Err(_) => 1,
    }
}

fn main(rt: HostRuntime) -> ExitCode {
    ExitCode::from(status(&rt))
}
