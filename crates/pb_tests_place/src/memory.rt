//! A place in memory, by each of its calls.

ghost use Rattle.std.specs.Prelude.{◌≢◌, IfOk};
ghost use Rattle.pb_place_types.specs.declared.place.StartFault.{StartFault};

use crate::calls::CHANGES;
use crate::echo::{Echo, say};
use crate::flights::{DEATHS, FLIGHTS, FUSES, HALVES, ORDERS, STARTS_OF_TWO_CALLS, THREE_FILES};
use crate::told::{
    self, Step, answer_of, compare, done_or_fault, end_text, file_text, numbers, path_in, step_of,
};
use pb_place::{Memory, Seen};
use pb_place_types::{PathText, Place, StartFault};
use std::alloc::Global;
use std::test::Fail;

/// A place in memory whose calls are seen.
type Tried = Seen<Memory<Echo>>;

/// Returns the fault of this name.
fn death_of(name: &str) -> Result<StartFault, Fail>
    ensures { IfOk result (λ death. death ≢ StartFault.OutOfMemory) }
{
    match name {
        "CannotStart" => Ok(StartFault::CannotStart),
        "Died" => Ok(StartFault::Died),
        "Capture" => Ok(StartFault::Capture),
        _ => Err(Fail::from("no such death")),
    }
}

/// Sets how many calls succeed before one fails.
fn fuse(memory: &mut Memory<Echo>, word: &str) -> Result<(), Fail> {
    match word.parse::<u64>() {
        Ok(calls) => {
            memory.fuse(calls);
            Ok(())
        }
        Err(_) => Err(Fail::from("no number of calls")),
    }
}

/// Edits a place as a session does.
fn edit(
    alloc: Global,
    memory: &mut Memory<Echo>,
    step: &Step,
    path: &PathText,
) -> Result<(), Fail> {
    match step.call {
        "put" => Ok(memory.put(alloc, path, step.text.as_bytes())?),
        "forget" => Ok(memory.remove(alloc, path)?),
        "set" => Ok(memory.set(alloc, step.name, step.text)?),
        "unset" => Ok(memory.unset(alloc, step.name)?),
        "die" => Ok(memory.die(alloc, step.name, death_of(step.text)?)?),
        "fuse" => fuse(memory, step.name),
        _ => Err(Fail::from("no such edit")),
    }
}

/// Returns the ticket of a child, or the fault.
fn ticket_text(alloc: Global, answer: Result<u64, StartFault>) -> Result<String, Fail> {
    let text = match answer {
        Ok(ticket) => format!(in alloc; "{ticket}"),
        Err(fault) => format!(in alloc; "{fault:?}"),
    };
    Ok(text?)
}

/// Starts or spawns a child that looks at a path: how it ended, or its ticket, or the fault.
fn begin<P: Place>(alloc: Global, place: &mut P, step: &Step) -> Result<String, Fail> {
    let command = say(alloc, step.name, step.text)?;
    let text = if step.call == "start" {
        answer_of(alloc, place, &command)
    } else {
        ticket_text(alloc, place.spawn(alloc, &command))
    };
    drop(command);
    text
}

/// Edits a place, and reports that it is done.
fn edit_place(
    alloc: Global,
    memory: &mut Memory<Echo>,
    step: &Step,
    path: &PathText,
) -> Result<String, Fail> {
    edit(alloc, memory, step, path)?;
    Ok(done_or_fault(alloc, Ok(()))?)
}

/// Returns the text of the file at a path, without a call of the place.
fn file_at(alloc: Global, memory: &Memory<Echo>, path: &PathText) -> Result<String, Fail> {
    let file = memory.file(alloc, path)?;
    Ok(file_text(alloc, Ok(file))?)
}

/// Returns how the child of a ticket ended.
fn finish(alloc: Global, memory: &mut Memory<Echo>, ticket: &str) -> Result<String, Fail> {
    let ticket = ticket.parse::<u64>().unwrap_or(9);
    let text = if memory.flies(ticket) {
        end_text(alloc, memory.finish(alloc, ticket))
    } else {
        String::from_str(alloc, "no child")
    };
    Ok(text?)
}

/// Returns what a step answers. `seen` is the number of calls after the first failing call.
fn answer(
    alloc: Global,
    place: &mut Tried,
    step: &Step,
    paths: (&PathText, &PathText),
) -> Result<String, Fail> {
    match step.call {
        "put" | "forget" | "set" | "unset" | "die" | "fuse" => {
            edit_place(alloc, &mut place.place, step, paths.0)
        }
        "file" => file_at(alloc, &place.place, paths.0),
        "finish" => finish(alloc, &mut place.place, step.name),
        "seen" => Ok(numbers(alloc, place.failures(), place.after)?),
        "start" | "spawn" => begin(alloc, place, step),
        _ => told::answer(alloc, place, "", step, paths),
    }
}

/// Carries a step out, and compares the answer.
fn try_step(alloc: Global, place: &mut Tried, root: &PathText, step: &Step) -> Result<(), Fail> {
    let path = path_in(alloc, root, step.name)?;
    let other = path_in(alloc, root, step.text)?;
    compare(step, answer(alloc, place, step, (&path, &other)))
}

/// Carries steps out, one a line, and compares the answers.
fn try_steps(alloc: Global, place: &mut Tried, root: &PathText, steps: &str) -> Result<(), Fail> {
    for line in steps.lines() {
        try_step(alloc, place, root, &step_of(line))?;
    }
    Ok(())
}

/// Carries the parts of a script out, one after another.
fn try_parts(
    alloc: Global,
    place: &mut Tried,
    root: &PathText,
    parts: &[&str],
) -> Result<(), Fail> {
    for steps in parts {
        try_steps(alloc, place, root, *steps)?;
    }
    Ok(())
}

/// Carries a script out at a new place.
fn try_script(alloc: Global, parts: &[&str]) -> Result<(), Fail> {
    let root = PathText::parse(alloc, "/")?;
    let mut place = Seen::new(Memory::new(alloc, Echo));
    let went = try_parts(alloc, &mut place, &root, parts);
    drop(place);
    went
}

/// Carries out scripts that are separated by an empty line. Each script is carried out at a fresh
/// place, after these steps.
fn try_scripts(alloc: Global, first: &str, scripts: &str) -> Result<(), Fail> {
    for steps in scripts.split("\n\n") {
        try_script(alloc, &[first, steps])?;
    }
    Ok(())
}

/// Files in a folder and below a file, and in the target folder `/w/target`, and a variable.
const FURNISHED: &str = "put /w/target/hidden hidden -> done\n\
     put /w/ab longer -> done\n\
     put /w/target/dep/lib read -> done\n\
     put /w/target/dep folder -> done\n\
     put /w/a beside -> done\n\
     put /w/target target -> done\n\
     put /w/a/b inside -> done\n\
     set NAME value -> done";

/// Lists and reads.
const LISTS_AND_READS: &str =
    "list /w/target -> /w/target/dep /w/target/dep/lib /w/target/hidden \n\
     list /w/a -> /w/a/b \n\
     list /w/a/b -> \n\
     list /x -> \n\
     read /w/a -> beside\n\
     read /w/a/b -> inside\n\
     read /w -> none\n\
     file /w/ab -> longer\n\
     file /w/abc -> none\n\
     counts -> 0 0\n\
     starts -> 0 0";

/// Lists outside a folder.
const LISTS_OUTSIDE: &str = "outside / /w/target -> /w/a /w/a/b /w/ab \n\
     outside /w /w/a -> /w/ab /w/target /w/target/dep /w/target/dep/lib /w/target/hidden \n\
     outside /w /w/ab/c -> /w/a /w/a/b /w/ab /w/target /w/target/dep /w/target/dep/lib /w/target/hidden \n\
     outside /w/target /w/target/dep -> /w/target/hidden \n\
     outside /w/target /w/target -> \n\
     outside /w/target /w -> \n\
     outside /x /w -> \n\
     counts -> 0 0\n\
     starts -> 0 0";

/// Lists the files directly in a folder.
const LISTS_DIRECTLY: &str = "directly /w/target -> /w/target/dep /w/target/hidden \n\
     directly /w -> /w/a /w/ab /w/target \n\
     directly / -> \n\
     directly /w/a -> /w/a/b \n\
     directly /w/a/b -> \n\
     directly /x -> \n\
     write /f -> done\n\
     directly / -> /f \n\
     counts -> 0 0\n\
     starts -> 0 0";

/// Asks for files, and lists the folders directly in a folder.
const ASKS: &str = "is /w/a -> true\n\
     is /w/a/b -> true\n\
     is /w -> false\n\
     is /w/abc -> false\n\
     is / -> false\n\
     folders / /x -> /w \n\
     folders /w /x -> /w/a /w/target \n\
     folders /w /w/target -> /w/a \n\
     folders /w /w/target/dep -> /w/a /w/target \n\
     folders /w/target /x -> /w/target/dep \n\
     folders /w/target /w/target/dep -> \n\
     folders /w/target /w -> \n\
     folders /w/a /x -> \n\
     folders /x /y -> \n\
     counts -> 0 0\n\
     fuse 1 -> done\n\
     is /w/a -> Read\n\
     counts -> 1 0\n\
     fuse 1 -> done\n\
     folders /w /x -> List\n\
     counts -> 2 0\n\
     seen -> 2 1";

/// Writes and removes.
const WRITES_AND_REMOVES: &str = "remove /w/target -> done\n\
     list / -> /w/a /w/a/b /w/ab \n\
     remove /w/a -> done\n\
     remove /w/nothing -> done\n\
     list / -> /w/ab \n\
     write /w/b/c new -> done\n\
     write /w/ab -> done\n\
     write / root -> done\n\
     list / -> /w/ab /w/b/c \n\
     pieces /w/b/d one|two||three -> done\n\
     read /w/b/d -> onetwothree\n\
     pieces /w/b/d -> done\n\
     read /w/b/d -> \n\
     read /w/ab -> \n\
     read / -> root\n\
     remove / -> done\n\
     read / -> none\n\
     counts -> 0 0\n\
     starts -> 0 0";

/// Edits of a session.
const EDITS: &str = "put /w/a again -> done\n\
     file /w/a -> again\n\
     forget /w/a -> done\n\
     file /w/a -> none\n\
     file /w/a/b -> none\n\
     file /w/ab -> longer\n\
     variable NAME -> value\n\
     variable OTHER -> none\n\
     set NAME -> done\n\
     variable NAME -> \n\
     set  a=b -> done\n\
     unset NAME -> done\n\
     variable NAME -> none\n\
     variable -> a=b\n\
     counts -> 0 0\n\
     starts -> 0 0";

/// Starts of a child.
const STARTS: &str = "start /w/a /w/target/out -> 7(beside)(value) 1 0\n\
     list / -> /w/a /w/a/b /w/ab /w/target /w/target/dep /w/target/dep/lib /w/target/hidden /w/target/out/a /w/target/out/d/b \n\
     read /w/target/out/a -> beside\n\
     read /w/target/out/d/b -> beside\n\
     start /w/a/b /w/target/out -> 7(inside)(value) 2 0\n\
     read /w/target/out/d/b -> inside\n\
     start /w/target /w/target/out -> 7()(value) 3 0\n\
     start /w/target/hidden /w/target/out -> 7()(value) 4 0\n\
     start /w/target/dep /w/target/out -> 7()(value) 5 0\n\
     start /w/target/dep/lib /w/target/out -> 7(read)(value) 6 0\n\
     set NAME -> done\n\
     start /w/nothing /w/target/out -> 7()() 7 0\n\
     counts -> 0 0\n\
     starts -> 7 1";

/// The calls, each kind at a fresh place.
static CALLS: &[&str] = &[
    LISTS_AND_READS,
    LISTS_OUTSIDE,
    LISTS_DIRECTLY,
    ASKS,
    WRITES_AND_REMOVES,
    EDITS,
    STARTS,
];

/// Rules: `places.calls`, `places.children`.
#[test]
fn at_a_place_in_memory(rt: HostRuntime) -> Result<(), Fail> {
    for steps in CALLS {
        try_script(rt.alloc(), &[FURNISHED, *steps])?;
    }
    try_script(rt.alloc(), &[CHANGES])?;
    for parts in ORDERS {
        try_script(rt.alloc(), *parts)?;
    }
    try_scripts(rt.alloc(), "", DEATHS)?;
    try_scripts(rt.alloc(), THREE_FILES, FUSES)?;
    try_scripts(rt.alloc(), THREE_FILES, HALVES)?;
    try_scripts(rt.alloc(), "", STARTS_OF_TWO_CALLS)?;
    try_scripts(rt.alloc(), "", FLIGHTS)
}
