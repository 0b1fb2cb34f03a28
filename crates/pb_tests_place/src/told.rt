//! What the calls of a place answer, in words. The words are the same for each place.

use pb_data::{Bytes, Items, Text};
use pb_place_types::{Command, Ended, PathText, Place, PlaceFault, StartFault};
use std::alloc::{AllocError, Global};
use std::test::Fail;

/// A call, the name of a path or of a variable, a text that is written or names a second path, and
/// the wanted answer.
#[derive(Clone, Copy)]
pub struct Step<'a> {
    pub call: &'a str,
    pub name: &'a str,
    pub text: &'a str,
    pub wanted: &'a str,
}

/// Returns the step of a line `CALL NAME TEXT -> ANSWER`, in which the name and the text may be
/// missing.
pub fn step_of(line: &str) -> Step {
    let (asked, wanted) = line.split_once(" -> ").unwrap_or((line, "no answer"));
    let (call, names) = asked.split_once(' ').unwrap_or((asked, ""));
    let (name, text) = names.split_once(' ').unwrap_or((names, ""));
    Step {
        call,
        name,
        text,
        wanted,
    }
}

/// Returns the path of a name in a folder.
pub fn path_in(alloc: Global, folder: &PathText, name: &str) -> Result<PathText, Fail> {
    let path = folder.join(alloc, name)?;
    Ok(path)
}

/// Returns the name of a fault.
fn fault_text(alloc: Global, fault: PlaceFault) -> Result<String, AllocError> {
    format!(in alloc; "{fault:?}")
}

/// Returns the text of a file, `none`, `wrong` if it is not UTF-8, or the fault.
pub fn file_text(
    alloc: Global,
    answer: Result<Option<Bytes>, PlaceFault>,
) -> Result<String, AllocError> {
    let text = match &answer {
        Ok(Some(bytes)) => {
            let text = str::from_utf8(bytes.as_slice()).unwrap_or("wrong");
            String::from_str(alloc, text)
        }
        Ok(None) => String::from_str(alloc, "none"),
        Err(fault) => fault_text(alloc, *fault),
    };
    drop(answer);
    text
}

/// Returns the value of a variable, `none`, or the fault.
fn value_text(
    alloc: Global,
    answer: Result<Option<Text>, PlaceFault>,
) -> Result<String, AllocError> {
    let text = match &answer {
        Ok(Some(value)) => String::from_str(alloc, value.as_str()),
        Ok(None) => String::from_str(alloc, "none"),
        Err(fault) => fault_text(alloc, *fault),
    };
    drop(answer);
    text
}

/// Returns the names of paths below a root, each with a space after it.
fn names(alloc: Global, root: &str, paths: &[PathText]) -> Result<String, AllocError> {
    let mut text = String::new(alloc);
    for path in paths {
        text.push_str(path.as_str().strip_prefix(root).unwrap_or("?"))?;
        text.push_str(" ")?;
    }
    Ok(text)
}

/// Returns the names that are listed, or the fault.
fn names_or_fault(
    alloc: Global,
    root: &str,
    answer: Result<Items<PathText>, PlaceFault>,
) -> Result<String, AllocError> {
    let text = match &answer {
        Ok(paths) => names(alloc, root, paths.as_slice()),
        Err(fault) => fault_text(alloc, *fault),
    };
    drop(answer);
    text
}

/// Returns `true`, `false`, or the fault.
fn truth(alloc: Global, answer: Result<bool, PlaceFault>) -> Result<String, AllocError> {
    match answer {
        Ok(answer) => format!(in alloc; "{answer}"),
        Err(fault) => fault_text(alloc, fault),
    }
}

/// Returns `done`, or the fault.
pub fn done_or_fault(alloc: Global, answer: Result<(), PlaceFault>) -> Result<String, AllocError> {
    match answer {
        Ok(()) => String::from_str(alloc, "done"),
        Err(fault) => fault_text(alloc, fault),
    }
}

/// Returns two numbers.
pub fn numbers(alloc: Global, first: u64, second: u64) -> Result<String, AllocError> {
    format!(in alloc; "{first} {second}")
}

/// Returns the first bytes of a file. The text of the step says how many.
fn first_text<P: Place>(
    alloc: Global,
    place: &mut P,
    path: &PathText,
    step: &Step,
) -> Result<String, AllocError> {
    match step.text.parse::<usize>() {
        Ok(most) => file_text(alloc, place.read_first(alloc, path, most)),
        Err(_) => String::from_str(alloc, "no number"),
    }
}

/// Returns the pieces of a text, with `|` between two; none for an empty text.
fn pieces_of(alloc: Global, text: &str) -> Result<Items<Bytes>, AllocError> {
    let mut pieces = Items::new(alloc);
    if text.is_empty() {
        return Ok(pieces);
    }
    for piece in text.split('|') {
        pieces.push(Bytes::from_slice(alloc, piece.as_bytes())?)?;
    }
    Ok(pieces)
}

/// Writes the text of a step in pieces.
fn write_pieces<P: Place>(
    alloc: Global,
    place: &mut P,
    path: &PathText,
    step: &Step,
) -> Result<String, AllocError> {
    let pieces = pieces_of(alloc, step.text)?;
    done_or_fault(alloc, place.write_pieces(alloc, path, pieces.as_slice()))
}

/// Returns what a step with these two paths answers. `counts` answers how many calls failed, and
/// how many calls came since the last failure. `starts` answers how many children were started, and
/// the greatest number in flight at a time.
pub fn answer<P: Place>(
    alloc: Global,
    place: &mut P,
    root: &str,
    step: &Step,
    paths: (&PathText, &PathText),
) -> Result<String, Fail> {
    let (path, other) = paths;
    let said = match step.call {
        "read" => file_text(alloc, place.read(alloc, path)),
        "first" => first_text(alloc, place, path, step),
        "list" => names_or_fault(alloc, root, place.list(alloc, path)),
        "outside" => names_or_fault(alloc, root, place.list_outside(alloc, path, other)),
        "directly" => names_or_fault(alloc, root, place.list_directly(alloc, path)),
        "folders" => names_or_fault(alloc, root, place.list_folders(alloc, path, other)),
        "is" => truth(alloc, place.is_file(alloc, path)),
        "write" => done_or_fault(alloc, place.write(alloc, path, step.text.as_bytes())),
        "pieces" => write_pieces(alloc, place, path, step),
        "remove" => done_or_fault(alloc, place.remove_tree(alloc, path)),
        "variable" => value_text(alloc, place.variable(alloc, step.name)),
        "counts" => numbers(alloc, place.failures(), place.late()),
        "starts" => numbers(alloc, place.starts(), place.most()),
        _ => String::from_str(alloc, "no such call"),
    };
    Ok(said?)
}

/// Compares the answer of a step with the wanted answer, if memory was not refused.
pub fn compare(step: &Step, said: Result<String, Fail>) -> Result<(), Fail> {
    let said = said?;
    let said = said.as_str();
    if said != step.wanted {
        return Err(Fail::new(format_args!("{} {} {}: {said}", step.call, step.name, step.text)));
    }
    Ok(())
}

/// Tries that a text is this, if memory was not refused.
pub fn try_said(said: Result<String, Fail>, wanted: &str) -> Result<(), Fail> {
    let said = said?;
    let said = said.as_str();
    if said != wanted {
        return Err(Fail::new(format_args!("{said} in place of {wanted}")));
    }
    Ok(())
}

/// Returns how a child ended, as a text: its status, and its two streams, each in brackets. A
/// stream that is not UTF-8 is `wrong`. If the child did not answer, returns the fault.
pub fn end_text(alloc: Global, answer: Result<Ended, StartFault>) -> Result<String, AllocError> {
    let text = match &answer {
        Ok(ended) => {
            let status = ended.status;
            let stdout = str::from_utf8(ended.stdout.as_slice()).unwrap_or("wrong");
            let stderr = str::from_utf8(ended.stderr.as_slice()).unwrap_or("wrong");
            format!(in alloc; "{status}({stdout})({stderr})")
        }
        Err(fault) => format!(in alloc; "{fault:?}"),
    };
    drop(answer);
    text
}

/// Returns how the child of a command ended, and the numbers of starts and failures.
pub fn answer_of<P: Place>(
    alloc: Global,
    place: &mut P,
    command: &Command,
) -> Result<String, Fail> {
    let end = end_text(alloc, place.start(alloc, command))?;
    let (starts, failures) = (place.starts(), place.failures());
    Ok(format!(in alloc; "{} {starts} {failures}", end.as_str())?)
}
