//! The messages of a unit, made from the answer of its child.

ghost use Rattle.std.specs.Prelude.{◌≡◌, ◌++◌, ◌∷◌, [], if◌then◌else◌, IfOk, OnOk, map};
ghost use Rattle.pb_directive.specs.Directives.{directives_of};
ghost use Rattle.std.specs.List.{filter_map};
ghost use Rattle.pb_command_types.specs.Targets.{made_file_of};
ghost use Rattle.pb_message_units.specs.Telling.{artifacts, compiler_messages, note_in, notes_in, library_in, search_in, condition_in, variable_in, executed, good_messages, gives_diagnostics, bad_messages, said_by, is_binary};

use pb_command_types::{Project, UnitFault, made_file};
use pb_data::{Bytes, Items, Text, TryCopy};
use pb_directive::{Directive, Directives, LineFault, read_directives};
use pb_message::{Artifact, Executed, Level, Message, diagnostics, plain_lines};
use pb_place_types::Ended;
use pb_unit::{Planned, What};
use std::alloc::{AllocError, Global};

/// Adds the diagnostics of a compiler's standard error.
fn add_diagnostics(
    alloc: Global,
    messages: &mut Items<Message>,
    stderr: &Bytes,
) -> Result<(), AllocError>
    ensures { OnOk result (messages.new ≡ messages.old ++ compiler_messages stderr.now) }
{
    for text in diagnostics(alloc, stderr.as_slice())?.into_vec() {
        messages.push(Message::CompilerMessage(text))?;
    }
    Ok(())
}

/// Returns whether a unit is a binary.
fn is_binary(what: &What) -> bool
    ensures { result ≡ is_binary what.now }
{
    matches!(what, What::Bin(_))
}

/// Returns copies of texts.
fn copy_texts(alloc: Global, texts: &[Text]) -> Result<Items<Text>, AllocError>
    ensures { IfOk result (λ made. made ≡ texts.now) }
{
    let mut made = Items::new(alloc);
    for text in texts {
        made.push(text.copy(alloc)?)?;
    }
    Ok(made)
}

/// Adds the message for what a compile made.
fn add_artifact(
    alloc: Global,
    messages: &mut Items<Message>,
    project: &Project,
    unit: &Planned,
) -> Result<(), AllocError>
    ensures { OnOk result (messages.new ≡ messages.old
        ++ artifacts project.now unit.now (made_file_of project.now unit.now)) }
{
    let file = match made_file(alloc, project, unit)? {
        None => return Ok(()),
        Some(file) => file,
    };
    let features = project
        .features
        .features_of(unit.unit.package, unit.unit.side);
    messages.push(Message::CompilerArtifact(Artifact {
        settings: unit.settings,
        features: copy_texts(alloc, features)?,
        file,
        is_executable: is_binary(&unit.unit.what),
    }))?;
    Ok(())
}

/// Returns the note in a directive, if the directive is a note.
fn note_in(alloc: Global, directive: &Directive) -> Result<Option<Message>, AllocError>
    ensures { IfOk result (λ made. made ≡ note_in directive.now) }
{
    match directive {
        Directive::Warning(text) => Ok(Some(Message::BuildScriptNote(
            Level::Warning,
            text.copy(alloc)?,
        ))),
        Directive::Error(text) => Ok(Some(Message::BuildScriptNote(
            Level::Error,
            text.copy(alloc)?,
        ))),
        _ => Ok(None),
    }
}

/// Adds the notes of a script, in printed order.
fn add_notes(
    alloc: Global,
    messages: &mut Items<Message>,
    directives: &[Directive],
) -> Result<(), AllocError>
    ensures { OnOk result (messages.new ≡ messages.old ++ filter_map note_in directives.now) }
{
    for directive in directives {
        if let Some(note) = note_in(alloc, directive)? {
            messages.push(note)?;
        }
    }
    Ok(())
}

/// Returns the library to link that a directive names, if it names such a library.
fn library_in(alloc: Global, directive: &Directive) -> Result<Option<Text>, AllocError>
    ensures { IfOk result (λ made. made ≡ library_in directive.now) }
{
    match directive {
        Directive::LinkLib(name) => Ok(Some(name.copy(alloc)?)),
        _ => Ok(None),
    }
}

/// Returns the libraries to link.
fn libraries_in(alloc: Global, directives: &[Directive]) -> Result<Items<Text>, AllocError>
    ensures { IfOk result (λ made. made ≡ filter_map library_in directives.now) }
{
    let mut made = Items::new(alloc);
    for directive in directives {
        if let Some(name) = library_in(alloc, directive)? {
            made.push(name)?;
        }
    }
    Ok(made)
}

/// Returns the search folder for libraries that a directive names, if it names such a folder.
fn search_in(alloc: Global, directive: &Directive) -> Result<Option<Text>, AllocError>
    ensures { IfOk result (λ made. made ≡ search_in directive.now) }
{
    match directive {
        Directive::LinkSearch(folder) => Ok(Some(folder.copy(alloc)?)),
        _ => Ok(None),
    }
}

/// Returns the search folders for libraries.
fn searches_in(alloc: Global, directives: &[Directive]) -> Result<Items<Text>, AllocError>
    ensures { IfOk result (λ made. made ≡ filter_map search_in directives.now) }
{
    let mut made = Items::new(alloc);
    for directive in directives {
        if let Some(folder) = search_in(alloc, directive)? {
            made.push(folder)?;
        }
    }
    Ok(made)
}

/// Returns the condition that a directive turns on, if it turns on a condition.
fn condition_in(alloc: Global, directive: &Directive) -> Result<Option<Text>, AllocError>
    ensures { IfOk result (λ made. made ≡ condition_in directive.now) }
{
    match directive {
        Directive::Cfg(condition) => Ok(Some(condition.copy(alloc)?)),
        _ => Ok(None),
    }
}

/// Returns the conditions that are on.
fn conditions_in(alloc: Global, directives: &[Directive]) -> Result<Items<Text>, AllocError>
    ensures { IfOk result (λ made. made ≡ filter_map condition_in directives.now) }
{
    let mut made = Items::new(alloc);
    for directive in directives {
        if let Some(condition) = condition_in(alloc, directive)? {
            made.push(condition)?;
        }
    }
    Ok(made)
}

/// Returns the variable that a directive sets, if it sets a variable.
fn variable_in(alloc: Global, directive: &Directive) -> Result<Option<(Text, Text)>, AllocError>
    ensures { IfOk result (λ made. made ≡ variable_in directive.now) }
{
    match directive {
        Directive::Env(name, value) => Ok(Some((name.copy(alloc)?, value.copy(alloc)?))),
        _ => Ok(None),
    }
}

/// Returns the variables.
fn variables_in(alloc: Global, directives: &[Directive]) -> Result<Items<(Text, Text)>, AllocError>
    ensures { IfOk result (λ made. made ≡ filter_map variable_in directives.now) }
{
    let mut made = Items::new(alloc);
    for directive in directives {
        if let Some(variable) = variable_in(alloc, directive)? {
            made.push(variable)?;
        }
    }
    Ok(made)
}

/// Returns the message for what a script passes to the compiler.
fn script_message(
    alloc: Global,
    unit: &Planned,
    directives: &[Directive],
) -> Result<Message, AllocError>
    ensures { IfOk result (λ made. made ≡ executed unit.now directives.now) }
{
    let linked_libraries = libraries_in(alloc, directives)?;
    let linked_paths = searches_in(alloc, directives)?;
    let conditions = conditions_in(alloc, directives)?;
    let variables = variables_in(alloc, directives)?;
    let out_folder = unit.out.copy(alloc)?;
    Ok(Message::BuildScriptExecuted(Executed {
        linked_libraries,
        linked_paths,
        conditions,
        variables,
        out_folder,
    }))
}

/// Returns the messages of a unit whose child's answer is good. A script's run has directives. A
/// compile has no directives.
///
/// Errors: out of memory.
pub fn good_messages(
    alloc: Global,
    project: &Project,
    unit: &Planned,
    stderr: &Bytes,
    directives: &Option<Directives>,
) -> Result<Items<Message>, AllocError>
    ensures { IfOk result (λ messages. messages
        ≡ good_messages project.now unit.now stderr.now directives.now) }
{
    let mut messages = Items::new(alloc);
    match directives {
        None => {
            add_diagnostics(alloc, &mut messages, stderr)?;
            add_artifact(alloc, &mut messages, project, unit)?;
        }
        Some(directives) => {
            add_notes(alloc, &mut messages, directives.as_slice())?;
            messages.push(script_message(alloc, unit, directives.as_slice())?)?;
        }
    }
    Ok(messages)
}

/// Returns whether a bad unit reports its diagnostics: a compile does, unless a stream is too long.
fn gives_diagnostics(what: &What, fault: &UnitFault) -> bool
    ensures { result ≡ gives_diagnostics what.now fault.now }
{
    match what {
        What::Run => false,
        _ => !matches!(fault, UnitFault::OutputTooLong),
    }
}

/// Returns the notes of a script's output. If the output is malformed, there are no notes.
fn notes_of(alloc: Global, stdout: &Bytes) -> Result<Items<Message>, AllocError>
    ensures { IfOk result (λ messages. messages ≡ notes_in (directives_of stdout.now)) }
{
    let mut messages = Items::new(alloc);
    match read_directives(alloc, stdout.as_slice()) {
        Ok(said) => {
            add_notes(alloc, &mut messages, said.as_slice())?;
            Ok(messages)
        }
        Err(LineFault::OutOfMemory) => Err(AllocError),
        Err(_) => Ok(messages),
    }
}

/// Returns the diagnostics of a bad unit, if the unit reports diagnostics.
fn diagnostics_by(
    alloc: Global,
    what: &What,
    fault: &UnitFault,
    stderr: &Bytes,
) -> Result<Items<Message>, AllocError>
    ensures { IfOk result (λ messages. messages
        ≡ (if gives_diagnostics what.now fault.now then compiler_messages stderr.now else [])) }
{
    let mut messages = Items::new(alloc);
    if gives_diagnostics(what, fault) {
        add_diagnostics(alloc, &mut messages, stderr)?;
    }
    Ok(messages)
}

/// Returns the messages of a unit whose child's answer is bad. For a compile, the messages are its
/// diagnostics, unless a stream is too long. For a script that reported an error, the messages are
/// its notes.
///
/// Errors: out of memory.
pub fn bad_messages(
    alloc: Global,
    what: &What,
    fault: &UnitFault,
    ended: &Ended,
) -> Result<Items<Message>, AllocError>
    ensures { IfOk result (λ messages. messages ≡ bad_messages what.now fault.now ended.now) }
{
    match fault {
        UnitFault::ScriptError => notes_of(alloc, &ended.stdout),
        _ => diagnostics_by(alloc, what, fault, &ended.stderr),
    }
}

/// Returns both streams of a child, one after the other.
fn both(alloc: Global, ended: &Ended) -> Result<Bytes, AllocError>
    ensures { IfOk result (λ said. said ≡ ended.now.stdout ++ ended.now.stderr) }
{
    let mut said = Vec::new(alloc);
    said.extend_from_slice(ended.stdout.as_slice())?;
    said.extend_from_slice(ended.stderr.as_slice())?;
    Ok(Bytes::new(said))
}

/// Returns the output of a bad unit's child, except what messages contain (our own choice):
///
/// - If a stream is too long, the result is empty.
/// - For a script that reported an error, the result is standard error.
/// - For any other script, the result is both streams.
/// - For a compile, the result is the lines that are not diagnostics.
///
/// Errors: out of memory.
pub fn said_by(
    alloc: Global,
    what: &What,
    fault: &UnitFault,
    ended: &Ended,
) -> Result<Bytes, AllocError>
    ensures { IfOk result (λ said. said ≡ said_by what.now fault.now ended.now) }
{
    match fault {
        UnitFault::OutputTooLong => Ok(Bytes::new(Vec::new(alloc))),
        UnitFault::ScriptError => ended.stderr.copy(alloc),
        _ => match what {
            What::Run => both(alloc, ended),
            _ => plain_lines(alloc, ended.stderr.as_slice()),
        },
    }
}
