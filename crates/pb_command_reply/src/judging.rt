//! The judgement of a reply.

ghost use Rattle.std.specs.Prelude.{◌≡◌, ◌++◌, ◌∷◌, [], IsTrue, IfOk, OnOk, option_map};
ghost use Rattle.std.specs.List.{flat_map, list_any};
ghost use Rattle.pb_data.specs.UnlessOom.{UnlessOom, lifted};
ghost use Rattle.pb_directive.specs.Directives.{directives_of};
ghost use Rattle.pb_command_types.specs.Targets.{folder_of};
ghost use Rattle.pb_command_reply.specs.Answers.{is_too_long, ended_fault, info_in, read_info, inputs_of, info_inputs, compile_answered, changed_path, changed_variable, is_error, unless_error, said_in, marked_inputs, rerun_inputs, said_inputs, run_answered, answered_by, answered_of, named_in};
ghost use Rattle.pb_command_types.specs.declared.fault.UnitFault.TheVariants as unit_fault;

use crate::input_names::{inputs_of, once, paths_from, variables_not_set};
use crate::meaning::{ByPlace, ByText, Meaning};
use pb_command_types::{CheckedReply, Project, UnitFault, folder_of};
use pb_data::{Bytes, Items, MAX_STREAM_BYTES, Text, TryCopy};
use pb_directive::{DepInfo, Directive, LineFault, read_dep_info, read_directives};
use pb_place_types::{Command, Ended, PathText, Place};
use pb_record::InputName;
use pb_unit::{Planned, What};
use std::alloc::{AllocError, Global};

/// Returns whether there are too many bytes for a stream or dep-info.
fn is_too_long(bytes: &Bytes) -> bool
    ensures { result ≡ is_too_long bytes.now }
{
    bytes.as_slice().len() > MAX_STREAM_BYTES
}

/// Returns the fault of a child's end, or none. If a stream has more than 4,194,304 bytes, the
/// fault is `OutputTooLong`. Otherwise the fault is `Status` if the status is not 0. No memory is
/// used.
pub fn ended_fault(ended: &Ended) -> Option<UnitFault>
    ensures { result ≡ ended_fault ended.now }
{
    if is_too_long(&ended.stdout) || is_too_long(&ended.stderr) {
        return Some(UnitFault::OutputTooLong);
    }
    if ended.status != 0 {
        return Some(UnitFault::Status(ended.status));
    }
    None
}

/// Returns the dep-info in some bytes.
fn info_in(alloc: Global, bytes: &Bytes) -> Result<DepInfo, UnitFault>
    ensures { UnlessOom unit_fault.OutOfMemory (λ info. info) result (info_in bytes.now) }
{
    match read_dep_info(alloc, bytes.as_slice()) {
        Ok(info) => Ok(info),
        Err(LineFault::OutOfMemory) => Err(UnitFault::OutOfMemory),
        Err(_) => Err(UnitFault::NoDepInfo),
    }
}

/// Returns the dep-info of a compile.
///
/// Errors:
///
/// - `NoDepInfo`, if there is no dep-info, or if the dep-info is too long or cannot be read.
/// - `OutOfMemory`.
fn read_info(alloc: Global, dep_info: Option<&Bytes>) -> Result<DepInfo, UnitFault>
    ensures { UnlessOom unit_fault.OutOfMemory (λ info.
        info) result (read_info (option_map (λ bytes. bytes.now) dep_info.entry)) }
{
    match dep_info {
        Some(bytes) => {
            if is_too_long(bytes) {
                return Err(UnitFault::NoDepInfo);
            }
            info_in(alloc, bytes)
        }
        None => Err(UnitFault::NoDepInfo),
    }
}

/// Returns the inputs that dep-info lists.
fn info_inputs<M: Meaning>(
    alloc: Global,
    meaning: &M,
    command: &Command,
    info: &DepInfo,
) -> Result<Items<InputName>, UnitFault>
    ensures { IsTrue M.joins →
        UnlessOom unit_fault.OutOfMemory (λ inputs.
        inputs) result (info_inputs command.now info.now) }
{
    let paths = paths_from(alloc, meaning, &command.folder, info.words.as_slice())?;
    let names = variables_not_set(alloc, command, info.variables.as_slice())?;
    inputs_of(alloc, command, paths, names)
}

/// Returns what the reply of a compile yields.
fn compile_answered<M: Meaning>(
    alloc: Global,
    meaning: &M,
    command: &Command,
    dep_info: Option<&Bytes>,
) -> Result<CheckedReply, UnitFault>
    ensures { IsTrue M.joins →
        UnlessOom unit_fault.OutOfMemory (λ a.
        a) result (compile_answered command.now (option_map (λ bytes. bytes.now) dep_info.entry)) }
{
    let info = read_info(alloc, dep_info)?;
    let inputs = info_inputs(alloc, meaning, command, &info);
    drop(info);
    Ok(CheckedReply {
        directives: None,
        inputs: inputs?,
    })
}

/// Adds the path of a line `rerun-if-changed`.
fn push_path(
    alloc: Global,
    paths: &mut Items<Text>,
    directive: &Directive,
) -> Result<(), AllocError>
    ensures { OnOk result (paths.new ≡ paths.old ++ changed_path directive.now) }
{
    match directive {
        Directive::RerunIfChanged(path) => {
            paths.push(path.copy(alloc)?)?;
            Ok(())
        }
        _ => Ok(()),
    }
}

/// Returns the paths of the lines `rerun-if-changed`.
fn changed_paths(alloc: Global, said: &[Directive]) -> Result<Items<Text>, AllocError>
    ensures { IfOk result (λ paths. paths ≡ flat_map changed_path said.now) }
{
    let mut paths = Items::new(alloc);
    for directive in said {
        push_path(alloc, &mut paths, directive)?;
    }
    Ok(paths)
}

/// Adds the name of a line `rerun-if-env-changed`.
fn push_variable(
    alloc: Global,
    names: &mut Items<Text>,
    directive: &Directive,
) -> Result<(), AllocError>
    ensures { OnOk result (names.new ≡ names.old ++ changed_variable directive.now) }
{
    match directive {
        Directive::RerunIfEnvChanged(name) => {
            names.push(name.copy(alloc)?)?;
            Ok(())
        }
        _ => Ok(()),
    }
}

/// Returns the names of the lines `rerun-if-env-changed`.
fn changed_variables(alloc: Global, said: &[Directive]) -> Result<Items<Text>, AllocError>
    ensures { IfOk result (λ names. names ≡ flat_map changed_variable said.now) }
{
    let mut names = Items::new(alloc);
    for directive in said {
        push_variable(alloc, &mut names, directive)?;
    }
    Ok(names)
}

/// Returns the inputs for the paths and the names of variables that lines of a script contain.
fn marked_inputs<M: Meaning>(
    alloc: Global,
    meaning: &M,
    command: &Command,
    folder: &PathText,
    paths: &[Text],
    names: &[Text],
) -> Result<Items<InputName>, UnitFault>
    ensures { IsTrue M.joins →
        UnlessOom unit_fault.OutOfMemory (λ inputs.
        inputs) result (marked_inputs command.now folder.now paths.now names.now) }
{
    let paths = paths_from(alloc, meaning, folder, paths)?;
    let names = once(alloc, names)?;
    inputs_of(alloc, command, paths, names)
}

/// Returns the inputs for a whole folder.
fn folder_inputs(
    alloc: Global,
    command: &Command,
    folder: &PathText,
) -> Result<Items<InputName>, UnitFault>
    ensures { UnlessOom unit_fault.OutOfMemory (λ inputs.
        inputs) result (inputs_of command.now (folder.now ∷ []) []) }
{
    let mut paths = Items::new(alloc);
    paths.push(folder.copy(alloc)?)?;
    inputs_of(alloc, command, paths, Items::new(alloc))
}

/// Returns the inputs for the paths and variables in lines, or for the whole folder if there is no
/// path and no variable.
fn rerun_inputs<M: Meaning>(
    alloc: Global,
    meaning: &M,
    command: &Command,
    folder: &PathText,
    paths: &[Text],
    names: &[Text],
) -> Result<Items<InputName>, UnitFault>
    ensures { IsTrue M.joins →
        UnlessOom unit_fault.OutOfMemory (λ inputs.
        inputs) result (rerun_inputs command.now folder.now paths.now names.now) }
{
    match paths {
        [] => match names {
            [] => folder_inputs(alloc, command, folder),
            [_, ..] => marked_inputs(alloc, meaning, command, folder, paths, names),
        },
        [_, ..] => marked_inputs(alloc, meaning, command, folder, paths, names),
    }
}

/// Returns the inputs that the lines of a run declare.
fn said_inputs<M: Meaning>(
    alloc: Global,
    meaning: &M,
    command: &Command,
    folder: &PathText,
    said: &[Directive],
) -> Result<Items<InputName>, UnitFault>
    ensures { IsTrue M.joins →
        UnlessOom unit_fault.OutOfMemory (λ inputs.
        inputs) result (said_inputs command.now folder.now said.now) }
{
    let paths = changed_paths(alloc, said)?;
    let names = changed_variables(alloc, said)?;
    rerun_inputs(
        alloc,
        meaning,
        command,
        folder,
        paths.as_slice(),
        names.as_slice(),
    )
}

/// Returns whether a line reports an error.
fn is_error(directive: &Directive) -> bool
    ensures { result ≡ is_error directive.now }
{
    matches!(directive, Directive::Error(_))
}

/// Returns the directives in the lines of a run.
fn lines_in(alloc: Global, ended: &Ended) -> Result<Items<Directive>, UnitFault>
    ensures { UnlessOom unit_fault.OutOfMemory (λ said.
        said) result (lifted unit_fault.Directive (directives_of ended.now.stdout)) }
{
    match read_directives(alloc, ended.stdout.as_slice()) {
        Ok(said) => Ok(said),
        Err(LineFault::OutOfMemory) => Err(UnitFault::OutOfMemory),
        Err(fault) => Err(UnitFault::Directive(fault)),
    }
}

/// Returns whether one of these lines reports an error.
fn tells_error(said: &[Directive]) -> bool
    ensures { result ≡ list_any is_error said.now }
{
    said.iter().any(is_error)
}

/// Returns the lines, unless one of them reports an error.
fn unless_error(said: Items<Directive>) -> Result<Items<Directive>, UnitFault>
    ensures { result ≡ unless_error said }
{
    if tells_error(said.as_slice()) {
        return Err(UnitFault::ScriptError);
    }
    Ok(said)
}

/// Returns the directives of a run, unless one of them reports an error.
fn said_in(alloc: Global, ended: &Ended) -> Result<Items<Directive>, UnitFault>
    ensures { UnlessOom unit_fault.OutOfMemory (λ said. said) result (said_in ended.now) }
{
    let said = lines_in(alloc, ended)?;
    unless_error(said)
}

/// Returns what the reply of a run yields.
fn run_answered<M: Meaning>(
    alloc: Global,
    meaning: &M,
    command: &Command,
    folder: &PathText,
    ended: &Ended,
) -> Result<CheckedReply, UnitFault>
    ensures { IsTrue M.joins →
        UnlessOom unit_fault.OutOfMemory (λ a.
        a) result (run_answered command.now folder.now ended.now) }
{
    let said = said_in(alloc, ended)?;
    let inputs = said_inputs(alloc, meaning, command, folder, said.as_slice())?;
    Ok(CheckedReply {
        directives: Some(said),
        inputs,
    })
}

/// Returns what a reply yields, if the child's end is not a fault.
fn answered_by<M: Meaning>(
    alloc: Global,
    meaning: &M,
    what: &What,
    command: &Command,
    folder: &PathText,
    ended: &Ended,
    dep_info: Option<&Bytes>,
) -> Result<CheckedReply, UnitFault>
    ensures { IsTrue M.joins →
        UnlessOom unit_fault.OutOfMemory (λ a.
        a) result (answered_by what.now command.now folder.now ended.now (option_map (λ bytes.
        bytes.now) dep_info.entry)) }
{
    match what {
        What::Run => run_answered(alloc, meaning, command, folder, ended),
        _ => compile_answered(alloc, meaning, command, dep_info),
    }
}

/// Returns what the reply of a unit's child yields. `meaning` determines the paths of texts.
fn answered_with<M: Meaning>(
    alloc: Global,
    meaning: &M,
    project: &Project,
    unit: &Planned,
    command: &Command,
    ended: &Ended,
    dep_info: Option<&Bytes>,
) -> Result<CheckedReply, UnitFault>
    ensures { IsTrue M.joins →
        UnlessOom unit_fault.OutOfMemory (λ a.
        a) result (answered_of project.now unit.now command.now
        ended.now (option_map (λ bytes. bytes.now) dep_info.entry)) }
{
    match ended_fault(ended) {
        Some(fault) => Err(fault),
        None => {
            let what = &unit.unit.what;
            let folder = folder_of(project, unit);
            answered_by(alloc, meaning, what, command, folder, ended, dep_info)
        }
    }
}

/// Returns what the reply of a unit's child yields. `dep_info` is the content of the file at
/// `dep_info_path` of `pb_command_types`, or none if there is no such file. For a run, `dep_info`
/// has no effect.
///
/// The inputs of a compile are the paths and variables of its dep-info, without the variables that
/// the command sets (The Cargo Book, Build Cache). The inputs of a run are the paths and variables
/// of its lines `rerun-if-changed` and `rerun-if-env-changed`. Without these lines, the folder of
/// its package is the input (The Cargo Book, Build Scripts). Paths in the folder of a reached unit
/// are left out, since the reached unit covers them. The path of a text is the one that
/// `PathText::join` returns.
///
/// Errors: the first of these that occurs.
///
/// - `OutputTooLong` and `Status`, as `ended_fault` determines.
/// - For a run: `Directive`, if a line of its output has a fault; `ScriptError`, if a line is
///   `cargo::error`.
/// - For a compile: `NoDepInfo`, if its dep-info does not exist, cannot be read, or has more than
///   4,194,304 bytes.
/// - `ForeignInput`, with the first input at or below the target folder that is in no folder of a
///   reached unit.
/// - `OutOfMemory`.
pub fn check_reply(
    alloc: Global,
    project: &Project,
    unit: &Planned,
    command: &Command,
    ended: &Ended,
    dep_info: Option<&Bytes>,
) -> Result<CheckedReply, UnitFault>
    ensures { UnlessOom unit_fault.OutOfMemory (λ a.
        a) result (answered_of project.now unit.now command.now ended.now (option_map (λ bytes.
        bytes.now) dep_info.entry)) }
{
    answered_with(alloc, &ByText {}, project, unit, command, ended, dep_info)
}

/// Returns what the reply of a unit's child yields, as `check_reply` does, and with the same
/// errors. `check_reply_at` takes the path of a text from the place (`Place::path_from`). On a
/// machine, a `..` after a link leads to the folder that contains the link's target.
pub fn check_reply_at<P: Place>(
    alloc: Global,
    place: &P,
    project: &Project,
    unit: &Planned,
    command: &Command,
    ended: &Ended,
    dep_info: Option<&Bytes>,
) -> Result<CheckedReply, UnitFault>
    ensures { IsTrue P.is_modelled →
        UnlessOom unit_fault.OutOfMemory (λ a.
        a) result (answered_of project.now unit.now command.now
        ended.now (option_map (λ bytes. bytes.now) dep_info.entry)) }
{
    answered_with(
        alloc,
        &ByPlace { place },
        project,
        unit,
        command,
        ended,
        dep_info,
    )
}

/// Returns the names of the inputs of a unit, from its child's reply.
///
/// Errors: those of `check_reply`.
pub fn inputs(
    alloc: Global,
    project: &Project,
    unit: &Planned,
    command: &Command,
    ended: &Ended,
    dep_info: Option<&Bytes>,
) -> Result<Items<InputName>, UnitFault>
    ensures { UnlessOom unit_fault.OutOfMemory (λ names.
        names) result (named_in (answered_of project.now unit.now command.now ended.now
        (option_map (λ bytes. bytes.now) dep_info.entry))) }
{
    match check_reply(alloc, project, unit, command, ended, dep_info) {
        Ok(found) => Ok(found.inputs),
        Err(fault) => Err(fault),
    }
}
