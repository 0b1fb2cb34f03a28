//! Commands and answers as texts.

use crate::show::put_texts;
use pb_command_types::{CheckedReply, UnitFault};
use pb_data::Text;
use pb_directive::Directives;
use pb_place_types::{Command, PathText};
use pb_record::InputName;
use pb_tests_files::Shown;

/// Puts the words after the word that says what a panic does.
fn put_tail(out: &mut Shown, words: &[Text]) {
    let mut before = "";
    let mut behind = false;
    for word in words {
        if behind {
            out.put(&[before, word.as_str()]);
            before = " ";
        }
        behind = behind || word.as_str().starts_with("panic=");
    }
}

/// Puts a value, with `~` for each byte 0x1f.
fn put_value(out: &mut Shown, value: &str) {
    for (number, part) in value.split('\u{1f}').enumerate() {
        if number > 0 {
            out.put(&["~"]);
        }
        out.put(&[part]);
    }
}

/// Puts names and values, with spaces between them.
fn put_pairs(out: &mut Shown, pairs: &[(Text, Text)]) {
    let mut before = "";
    for (name, value) in pairs {
        out.put(&[before, name.as_str(), "="]);
        put_value(out, value.as_str());
        before = " ";
    }
}

/// Puts the value of a name, or `-` if it is not set.
fn put_pair(out: &mut Shown, pairs: &[(Text, Text)], wanted: &str) {
    for (name, value) in pairs {
        if name.as_str() == wanted {
            return out.put(&[value.as_str()]);
        }
    }
    out.put(&["-"]);
}

/// Puts a path, or `-`.
pub fn put_path(out: &mut Shown, path: &Option<PathText>) {
    match path {
        Some(path) => out.put(&[path.as_str()]),
        None => out.put(&["-"]),
    }
}

/// Puts the program of a command and its folders, and after a bar the folders that the child may
/// read.
pub fn put_rest(out: &mut Shown, command: &Command) {
    out.put(&[command.program.as_str(), " ", command.folder.as_str(), " "]);
    put_path(out, &command.out);
    out.put(&[" ", command.target.as_str(), " | "]);
    let mut before = "";
    for path in command.reads.as_slice() {
        out.put(&[before, path.as_str()]);
        before = " ";
    }
}

/// Puts a part of a command.
pub fn put_part(out: &mut Shown, command: &Command, what: &str) {
    match what {
        "words" => put_texts(out, command.words.as_slice()),
        "tail" => put_tail(out, command.words.as_slice()),
        "pairs" => put_pairs(out, command.pairs.as_slice()),
        "rest" => put_rest(out, command),
        name => put_pair(out, command.pairs.as_slice(), name),
    }
}

/// Puts how many directives there are, or `-`.
fn put_count(out: &mut Shown, directives: &Option<Directives>) {
    match directives {
        Some(said) => out.put_number(said.len() as u64),
        None => out.put(&["-"]),
    }
}

/// Puts what a good answer contains: how many directives there are, and the inputs. An input is a
/// path, or the name of a variable after a `$`.
fn put_good(out: &mut Shown, answer: &CheckedReply) {
    put_count(out, &answer.directives);
    for input in answer.inputs.as_slice() {
        match input {
            InputName::Path(path) => out.put(&[" ", path.as_str()]),
            InputName::Variable(name) => out.put(&[" $", name.as_str()]),
        }
    }
}

/// Puts what an answer contains, or the name of its fault.
pub fn put_answer(out: &mut Shown, answer: &Result<CheckedReply, UnitFault>) {
    match answer {
        Ok(answer) => put_good(out, answer),
        Err(UnitFault::ForeignInput(path)) => out.put(&["ForeignInput(", path.as_str(), ")"]),
        Err(fault) => out.put_value(fault),
    }
}
