//! The query of the compiler's version.

ghost use Rattle.std.specs.Prelude.{◌≡◌, ◌⊎◌, ◌+◌, max, length, IsTrue, IfOk, OnErr, OnOk, MatchResult, Some, None};
ghost use Rattle.std.specs.List.{list_any};
ghost use Rattle.pb_place_types.specs.World.{ChangesOnlyInSome, Ends, from_nothing};
ghost use Rattle.pb_build.specs.Causes.{AskEnds, MayAsk, OnlyAsks, MayStart, OneStart, RunsOnce, SpawnEnds, CountsAs, child_fault};
ghost use Rattle.pb_build.specs.Result.{is_host, says_host, toolchain_in, toolchain_of};
ghost use Rattle.pb_directive.specs.Lines.{lines_of};
ghost use Rattle.pb_build_result.specs.declared.fault.BuildFault.TheVariants as build_fault;
ghost use Rattle.pb_run.specs.Running.{Calls};

use crate::environment::Environment;
use pb_build_result::BuildFault;
use pb_command::{ended_fault, query};
use pb_command_types::Project;
use pb_data::{Bytes, Text};
use pb_directive::lines::lines_of;
use pb_directive::texts::text_of;
use pb_place_types::{Command, Ended, Place, StartFault};
use std::alloc::Global;

/// Returns whether a line reports the host: whether the line consists of `host: ` and a text that
/// is not empty.
fn is_host(line: &[u8]) -> bool
    ensures { result ≡ is_host line.now }
{
    line.len() > 6 && line.starts_with(b"host: ")
}

/// Returns whether one of the lines of a text reports the host.
fn has_host(text: &[u8]) -> bool
    ensures { result ≡ list_any is_host (lines_of text.now) }
{
    for line in lines_of(text) {
        if is_host(line) {
            return true;
        }
    }
    false
}

/// Returns whether an output is a text with a line that reports the host.
fn says_host(stdout: &[u8]) -> bool
    ensures { result ≡ says_host stdout.now }
{
    text_of(stdout).is_some() && has_host(stdout)
}

/// Returns the compiler's version from an answer to the query. Returns none if the status is not 0,
/// if a stream is too long, or if no line reports the host.
fn toolchain_in(ended: Ended) -> Option<Bytes>
    ensures { result ≡ toolchain_in ended }
{
    if ended_fault(&ended).is_none() && says_host(ended.stdout.as_slice()) {
        Some(ended.stdout)
    } else {
        None
    }
}

/// Returns the fault of a child that did not answer, with the child's name. The fault `OutOfMemory`
/// contains no name.
fn child_fault(unit: Text, fault: StartFault) -> BuildFault
    ensures { result ≡ child_fault unit fault }
{
    match fault {
        StartFault::OutOfMemory => BuildFault::OutOfMemory,
        fault => BuildFault::Child { unit, fault },
    }
}

/// Starts a child, by one call, and waits for its end.
///
/// Errors:
///
/// - `Child` with this name, if the child cannot be started or does not answer.
/// - `OutOfMemory`.
fn start<P: Place>(
    alloc: Global,
    place: &mut P,
    name: &str,
    command: &Command,
) -> Result<Ended, BuildFault>
    ensures ok { IsTrue P.is_modelled → IfOk result (λ ended. Ends (P.child command.now) command.now
        (P.at place.old).world ended (P.at place.new).world) }
    ensures only { ChangesOnlyInSome command.now.out (P.at place.old).world
        (P.at place.new).world }

    // How the greatest number of children in flight changes. After a fault, the number may or may
    // not count this child.
    ensures most { OnOk result ((P.at place.new).most
        ≡ max (P.at place.old).most (length (P.at place.old).counts.starts.flying + 1)) }
    ensures most_else { OnErr result (((P.at place.new).most ≡ (P.at place.old).most)
        ⊎ ((P.at place.new).most
        ≡ max (P.at place.old).most (length (P.at place.old).counts.starts.flying + 1))) }
    ensures takes { CountsAs OneStart (MayStart name.now) result (P.at place.old).counts
        (P.at place.new).counts }
    ensures calls { Calls RunsOnce SpawnEnds result (P.at place.old).counts
        (P.at place.new).counts }
{
    let unit = match Text::from_str(alloc, name) {
        Ok(unit) => unit,
        Err(_) => return Err(BuildFault::OutOfMemory),
    };
    match place.start(alloc, command) {
        Ok(ended) => Ok(ended),
        Err(fault) => Err(child_fault(unit, fault)),
    }
}

/// Queries the compiler's version.
///
/// Errors:
///
/// - `Toolchain`, if the compiler does not report its host.
/// - `Child` with `-vV`, if the compiler does not answer.
/// - `OutOfMemory`.
#[tactic(auto, using(crate::proofs::Called::ask_laws))]
pub(crate) fn ask<P: Place>(
    alloc: Global,
    place: &mut P,
    environment: &Environment,
    project: &Project,
) -> Result<Bytes, BuildFault>
    ensures answer { IsTrue P.is_modelled
        → MatchResult result
        (λ toolchain.
        toolchain_of P.child environment.now project.now
        (from_nothing project.now.workspace.target (P.at place.old).world)
        ≡ Some toolchain)
        (λ e.
        e ≡ build_fault.Toolchain
        → toolchain_of P.child environment.now project.now
        (from_nothing project.now.workspace.target
        (P.at place.old).world)
        ≡ None) }
    ensures asks { OnlyAsks MayAsk result (P.at place.old) (P.at place.new) }
    ensures calls { Calls RunsOnce AskEnds result (P.at place.old).counts (P.at place.new).counts }
{
    let command = match query(alloc, &environment.rustc, &project.workspace) {
        Ok(command) => command,
        Err(_) => return Err(BuildFault::OutOfMemory),
    };
    let ended = match start(alloc, place, "-vV", &command) {
        Ok(ended) => ended,
        Err(fault) => return Err(fault),
    };
    match toolchain_in(ended) {
        Some(toolchain) => Ok(toolchain),
        None => Err(BuildFault::Toolchain),
    }
}
