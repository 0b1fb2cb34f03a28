//! The small compiler over the machine.

use crate::program::carry_out;
use pb_data::{Items, Text};
use pb_place_host::{HostPlace, HostView};
use pb_place_types::Over;
use std::{env, io};

/// Returns the arguments after the program's own name.
fn words(rt: &HostRuntime) -> io::Result<Items<Text>> {
    let mut words = Items::new(rt.alloc());
    for word in env::args(rt)?.skip(1) {
        words.push(Text::new(word))?;
    }
    Ok(words)
}

/// The status of a program that could not do its work.
const FAILED: u8 = 2;

/// Carries out what this process's arguments request, over its files and variables. Returns the
/// status with which the process must end. The status is 2 if the arguments cannot be read, if a
/// read or a write fails, or if memory runs out.
pub fn compiler(rt: &HostRuntime) -> u8 {
    let Ok(words) = words(rt) else {
        return FAILED;
    };
    let answer = carry_out(
        rt.alloc(),
        words.as_slice(),
        &HostView::new(rt),
        &mut HostPlace::new(rt.alloc(), rt),
        &mut Over::new(io::writer(rt)),
        &mut Over::new(rt.stderr()),
    );
    match answer {
        Ok(status) => u8::try_from(status).unwrap_or(FAILED),
        Err(_) => FAILED,
    }
}
