//! Steps in words: what changes, which units run, and what the steps report.

ghost use Rattle.std.specs.Prelude.{◌≡◌, ◌≢◌, IfOk};
ghost use Rattle.pb_place_types.specs.declared.place.StartFault.TheVariants as StartFault;
ghost use Rattle.pb_run.specs.Invariants.{records_folder};

use crate::units::ready::{Bench, put_file, store_of};
use crate::units::running::{begin_and_drop, run};
use pb_command_types::Setup;
use pb_data::{Bytes, Text};
use pb_mini::Mini;
use pb_place::Memory;
use pb_place_types::{PathText, Place, StartFault};
use pb_run::OrderedProject;
use pb_tests_files::{Trial, Untold, try_cases};
use std::alloc::Global;
use std::process::Abort;
use std::test::Fail;

/// Returns the words of a step: its verb, the next word, and all after it.
pub fn words_of(line: &str) -> (&str, &str, &str) {
    let (verb, words) = line.split_once(' ').unwrap_or((line, ""));
    let (first, rest) = words.split_once(' ').unwrap_or((words, ""));
    (verb, first, rest)
}

/// Returns the kind of a death.
fn kind_of(word: &str) -> Result<StartFault, Fail>
    ensures { IfOk result (λ kind. kind ≢ StartFault.OutOfMemory) }
{
    match word {
        "CannotStart" => Ok(StartFault::CannotStart),
        "Died" => Ok(StartFault::Died),
        "Capture" => Ok(StartFault::Capture),
        _ => Err(Fail::from("no such death")),
    }
}

/// Sets how many calls succeed before one fails.
fn fuse(place: &mut Memory<Mini>, word: &str) -> Result<(), Fail> {
    match word.parse::<u64>() {
        Ok(calls) => {
            place.fuse(calls);
            Ok(())
        }
        Err(_) => Err(Fail::from("no number of calls")),
    }
}

/// Removes the files at and below a path.
fn take_away(alloc: Global, place: &mut Memory<Mini>, path: &str) -> Result<(), Fail> {
    let path = PathText::parse(alloc, path)?;
    Ok(place.remove(alloc, &path)?)
}

/// Changes the files, the variables, or what will fail, in words; another step changes nothing.
fn change(
    alloc: Global,
    place: &mut Memory<Mini>,
    verb: &str,
    first: &str,
    rest: &str,
) -> Result<(), Fail> {
    match verb {
        "file" => put_file(alloc, place, first, rest),
        "gone" => take_away(alloc, place, first),
        "set" => Ok(place.set(alloc, first, rest)?),
        "unset" => Ok(place.unset(alloc, first)?),
        "die" => Ok(place.die(alloc, first, kind_of(rest)?)?),
        "fuse" => fuse(place, first),
        _ => Ok(()),
    }
}

/// Changes how things are compiled, in words; another step changes nothing.
fn set_up(alloc: Global, setup: &mut Setup, verb: &str, first: &str) -> Result<(), Fail> {
    match verb {
        "tool" => setup.tool = Text::from_str(alloc, first)?,
        "compiler" => setup.rustc = Text::from_str(alloc, first)?,
        "version" => setup.toolchain = Bytes::from_slice(alloc, first.as_bytes())?,
        "flag" => setup.flags.push(Text::from_str(alloc, first)?)?,
        _ => {}
    }
    Ok(())
}

/// Returns the index of a unit in a word.
fn index_of(word: &str) -> Result<usize, Fail> {
    match word.parse::<usize>() {
        Ok(index) => Ok(index),
        Err(_) => Err(Fail::from("no index of a unit")),
    }
}

/// Runs units, in words; another step does nothing here.
pub fn call(
    alloc: Global,
    place: &mut Untold<Mini>,
    project: &OrderedProject,
    bench: &mut Bench,
    verb: &str,
    first: &str,
) -> Result<String, Fail>
    requires folder { bench.old.store.folder ≡ records_folder project.now }
    ensures folder { bench.new.store.folder ≡ records_folder project.now }
{
    match verb {
        "run" => Ok(run(alloc, place, project, bench, index_of(first)?)?),
        "drop" => Ok(begin_and_drop(alloc, place, project, bench, index_of(first)?)?),
        _ => Ok(String::new(alloc)),
    }
}

/// Returns whether a file is there, in words.
fn tell_file(alloc: Global, place: &Memory<Mini>, path: &str) -> Result<String, Fail> {
    let path = PathText::parse(alloc, path)?;
    let file = place.file(alloc, &path)?;
    let said = if file.is_some() { "there" } else { "gone" };
    Ok(String::from_str(alloc, said)?)
}

/// Returns what the test sees of the place and of what units reported, in words; nothing for
/// another step.
fn look(
    alloc: Global,
    place: &Memory<Mini>,
    bench: &Bench,
    verb: &str,
    first: &str,
) -> Result<String, Fail> {
    match verb {
        "there" => tell_file(alloc, place, first),
        "starts" => Ok(format!(in alloc; "{} starts", place.starts())?),
        "late" => Ok(format!(in alloc; "{} late", place.late())?),
        "lines" => Ok(String::from_str(alloc, bench.told.lines.as_str())?),
        _ => Ok(String::new(alloc)),
    }
}

/// Opens the store again. A store contains the run numbers of the records; after an edit or a
/// failed call they may be wrong.
pub fn reopen(
    alloc: Global,
    place: &mut Untold<Mini>,
    project: &OrderedProject,
    bench: &mut Bench,
) -> Result<(), Fail>
    requires folder { bench.old.store.folder ≡ records_folder project.now }
    ensures folder { bench.new.store.folder ≡ records_folder project.now }
{
    bench.store = store_of(alloc, place, project)?;
    Ok(())
}

/// Adds the report, if there is one, and a line feed.
fn add(told: &mut String, said: &str) -> Result<(), Fail> {
    if !said.is_empty() {
        told.push_str(said)?;
        told.push_str("\n")?;
    }
    Ok(())
}

/// The words with which a step begins.
const VERBS: &[&str] = &[
    "open", "file", "gone", "set", "unset", "die", "fuse", "tool", "compiler", "version", "flag",
    "run", "drop", "there", "starts", "late", "lines",
];

/// Takes one step. A word that is not one of these verbs is an error.
fn step(
    alloc: Global,
    place: &mut Untold<Mini>,
    project: &OrderedProject,
    bench: &mut Bench,
    line: &str,
    told: &mut String,
) -> Result<(), Fail>
    requires folder { bench.old.store.folder ≡ records_folder project.now }
    ensures folder { bench.new.store.folder ≡ records_folder project.now }
{
    let (verb, first, rest) = words_of(line);
    if !VERBS.iter().any(|known| *known == verb) {
        return Err(Fail::from("no such step"));
    }
    if verb == "open" {
        return reopen(alloc, place, project, bench);
    }
    change(alloc, &mut place.inside, verb, first, rest)?;
    set_up(alloc, &mut bench.setup, verb, first)?;
    let said = call(alloc, place, project, bench, verb, first)?;
    add(told, said.as_str())?;
    let seen = look(alloc, &place.inside, bench, verb, first)?;
    add(told, seen.as_str())
}

/// Makes steps, one a line, with a line feed after the report of each.
pub fn make_steps(
    alloc: Global,
    place: &mut Untold<Mini>,
    project: &OrderedProject,
    bench: &mut Bench,
    steps: &str,
) -> Result<String, Fail>
    requires folder { bench.old.store.folder ≡ records_folder project.now }
    ensures folder { bench.new.store.folder ≡ records_folder project.now }
{
    let mut told = String::new(alloc);
    for line in steps.lines() {
        step(alloc, place, project, bench, line, &mut told)?;
    }
    Ok(told)
}

/// Asserts each case of a table, and how many there are.
pub fn assert_cases<T: Trial>(
    rt: &impl Abort,
    alloc: Global,
    table: &str,
    trial: &T,
    count: usize,
) -> Result<(), Fail> {
    let tried = try_cases(alloc, table, trial)?;
    assert!(rt; tried.wrong.says(""), "{}", tried.wrong.as_str());
    assert_eq!(rt; tried.count, count);
    drop(tried);
    Ok(())
}
