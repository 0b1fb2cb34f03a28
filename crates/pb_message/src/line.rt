//! The lines of messages.

ghost use Rattle.std.specs.Prelude.{◌≡◌, ◌++◌, ◌∷◌, Bool, IfOk, OnOk, map, string_bytes, codes, nat_eq};
ghost use Rattle.std.specs.List.{ends_with};
ghost use Rattle.pb_message.specs.Message.{package_id, required_list, required_text, target_object, target_text, id_text, subject_object, subject_text, debug_info_json, profile_text, executable_text, diagnostic_line, artifact_object, artifact_line, level_text, note_object, note_line, executed_object, executed_line, line_from, lines_from, line_of, lines_of, finish_line};

use crate::json::{join_texts, json_pairs, json_texts, push_all};
use crate::message::{Artifact, Executed, Level, Message};
use crate::subject::{Subject, Target};
use pb_data::{Text, truth_text};
use pb_json::json_string;
use pb_manifest_types::Word;
use pb_place_types::PathText;
use pb_profile::Settings;
use std::alloc::{AllocError, Global};

/// Returns whether the last part of a folder's path is this name.
fn ends_in(alloc: Global, folder: &PathText, name: &str) -> Result<bool, AllocError>
    ensures { IfOk result (λ answer. answer ≡ ends_with nat_eq folder.now (codes "/" ++ name.now)) }
{
    let mut part = String::from_str(alloc, "/")?;
    part.push_str(name)?;
    Ok(folder.as_str().as_bytes().ends_with(part.as_bytes()))
}

/// Returns the id of a package. Nothing is escaped (our own choice).
fn package_id(alloc: Global, subject: &Subject) -> Result<String, AllocError>
    ensures { IfOk result (λ id. string_bytes id ≡ package_id subject.now) }
{
    let folder = subject.folder.as_str();
    let name = subject.name.as_str();
    let version = subject.version.as_str();
    if ends_in(alloc, &subject.folder, name)? {
        return join_texts(alloc, &["path+file://", folder, "#", version]);
    }
    join_texts(alloc, &["path+file://", folder, "#", name, "@", version])
}

/// Returns the member that names the package of a line.
#[tactic(auto, unfolding(crate::specs::Message::id_text))]
fn id_text(alloc: Global, subject: &Subject) -> Result<String, AllocError>
    ensures { IfOk result (λ text. string_bytes text ≡ id_text subject.now) }
{
    let id = package_id(alloc, subject)?;
    let id = json_string(alloc, id.as_str())?;
    join_texts(alloc, &["\"package_id\":", id.as_str()])
}

/// Returns the member for required features.
#[tactic(auto, unfolding(crate::specs::Message::required_list))]
fn required_list(alloc: Global, features: &[Text]) -> Result<String, AllocError>
    ensures { IfOk result (λ text. string_bytes text ≡ required_list features.now) }
{
    let list = json_texts(alloc, features)?;
    join_texts(alloc, &[",\"required-features\":", list.as_str()])
}

/// Returns the member for required features, or an empty text if there are no required features.
fn required_text(alloc: Global, features: &[Text]) -> Result<String, AllocError>
    ensures { IfOk result (λ text. string_bytes text ≡ required_text features.now) }
{
    match features {
        [] => Ok(String::new(alloc)),
        [_, ..] => required_list(alloc, features),
    }
}

/// Returns the object of a target. `required` is the member for required features, and the other
/// values are JSON.
#[tactic(auto, unfolding(crate::specs::Message::target_object))]
fn target_object(
    alloc: Global,
    kinds: &str,
    crate_types: &str,
    name: &str,
    source: &str,
    edition: &str,
    required: &str,
) -> Result<String, AllocError>
    ensures { IfOk result (λ text. string_bytes text
        ≡ target_object kinds.now crate_types.now name.now source.now edition.now required.now) }
{
    join_texts(
        alloc,
        &[
            "{\"kind\":",
            kinds,
            ",\"crate_types\":",
            crate_types,
            ",\"name\":",
            name,
            ",\"src_path\":",
            source,
            ",\"edition\":",
            edition,
            required,
            "}",
        ],
    )
}

/// Returns the object of a target.
fn target_text(alloc: Global, target: &Target) -> Result<String, AllocError>
    ensures { IfOk result (λ text. string_bytes text ≡ target_text target.now) }
{
    let kinds = json_texts(alloc, target.kinds.as_slice())?;
    let crate_types = json_texts(alloc, target.crate_types.as_slice())?;
    let name = json_string(alloc, target.name.as_str())?;
    let source = json_string(alloc, target.source.as_str())?;
    let edition = json_string(alloc, target.edition.text())?;
    let required = required_text(alloc, target.required_features.as_slice())?;
    target_object(
        alloc,
        kinds.as_str(),
        crate_types.as_str(),
        name.as_str(),
        source.as_str(),
        edition.as_str(),
        required.as_str(),
    )
}

/// Returns the members that follow the reason in each line of a compiled unit. `manifest` and
/// `target` are JSON.
#[tactic(auto, unfolding(crate::specs::Message::subject_object))]
fn subject_object(
    alloc: Global,
    id: &str,
    manifest: &str,
    target: &str,
) -> Result<String, AllocError>
    ensures { IfOk result (λ text. string_bytes text
        ≡ subject_object id.now manifest.now target.now) }
{
    join_texts(
        alloc,
        &[id, ",\"manifest_path\":", manifest, ",\"target\":", target],
    )
}

/// Returns the members that follow the reason in each line of a compiled unit.
fn subject_text(alloc: Global, subject: &Subject) -> Result<String, AllocError>
    ensures { IfOk result (λ text. string_bytes text ≡ subject_text subject.now) }
{
    let id = id_text(alloc, subject)?;
    let manifest = json_string(alloc, subject.manifest.as_str())?;
    let target = target_text(alloc, &subject.target)?;
    subject_object(alloc, id.as_str(), manifest.as_str(), target.as_str())
}

/// Returns the debug information setting in JSON: a number, or a name as a string.
fn debug_info_json(alloc: Global, debug: Word) -> Result<String, AllocError>
    ensures { IfOk result (λ text. string_bytes text ≡ debug_info_json debug) }
{
    match debug {
        Word::Zero => String::from_str(alloc, "0"),
        Word::One => String::from_str(alloc, "1"),
        Word::Two => String::from_str(alloc, "2"),
        word => json_string(alloc, word.spelling()),
    }
}

/// Returns the object of a profile.
fn profile_text(alloc: Global, settings: &Settings) -> Result<String, AllocError>
    ensures { IfOk result (λ text. string_bytes text ≡ profile_text settings.now) }
{
    let level = json_string(alloc, settings.opt_level().spelling())?;
    let debug = debug_info_json(alloc, settings.debug())?;
    join_texts(
        alloc,
        &[
            "{\"opt_level\":",
            level.as_str(),
            ",\"debuginfo\":",
            debug.as_str(),
            ",\"debug_assertions\":",
            truth_text(settings.debug_assertions()),
            ",\"overflow_checks\":",
            truth_text(settings.overflow_checks()),
            ",\"test\":false}",
        ],
    )
}

/// Adds the line of a diagnostic.
fn push_diagnostic(out: &mut String, subject: &str, text: &str) -> Result<(), AllocError>
    ensures { OnOk result (string_bytes out.new ≡ string_bytes out.old
        ++ diagnostic_line subject.now text.now) }
{
    push_all(
        out,
        &[
            "{\"reason\":\"compiler-message\",",
            subject,
            ",\"message\":",
            text,
            "}\n",
        ],
    )
}

/// Returns the file if the file is executable, and null otherwise.
fn executable_text(alloc: Global, artifact: &Artifact) -> Result<String, AllocError>
    ensures { IfOk result (λ text. string_bytes text
        ≡ executable_text artifact.now.is_executable artifact.now.file) }
{
    if artifact.is_executable {
        json_string(alloc, artifact.file.as_str())
    } else {
        String::from_str(alloc, "null")
    }
}

/// Adds the line of an artifact. The values are JSON.
#[tactic(auto, unfolding(crate::specs::Message::artifact_object))]
fn push_artifact_object(
    out: &mut String,
    subject: &str,
    profile: &str,
    features: &str,
    file: &str,
    executable: &str,
    fresh: &str,
) -> Result<(), AllocError>
    ensures { OnOk result (string_bytes out.new ≡ string_bytes out.old
        ++ artifact_object subject.now profile.now features.now file.now executable.now fresh.now) }
{
    push_all(
        out,
        &[
            "{\"reason\":\"compiler-artifact\",",
            subject,
            ",\"profile\":",
            profile,
            ",\"features\":",
            features,
            ",\"filenames\":[",
            file,
            "],\"executable\":",
            executable,
            ",\"fresh\":",
            fresh,
            "}\n",
        ],
    )
}

/// Adds the line of an artifact.
fn push_artifact(
    alloc: Global,
    out: &mut String,
    subject: &str,
    artifact: &Artifact,
    fresh: bool,
) -> Result<(), AllocError>
    ensures { OnOk result (string_bytes out.new ≡ string_bytes out.old
        ++ artifact_line subject.now artifact.now fresh) }
{
    let profile = profile_text(alloc, &artifact.settings)?;
    let features = json_texts(alloc, artifact.features.as_slice())?;
    let file = json_string(alloc, artifact.file.as_str())?;
    let executable = executable_text(alloc, artifact)?;
    push_artifact_object(
        out,
        subject,
        profile.as_str(),
        features.as_str(),
        file.as_str(),
        executable.as_str(),
        truth_text(fresh),
    )
}

/// Returns the name of a note's level.
fn level_text(level: Level) -> &'static str
    ensures { result.now ≡ level_text level }
{
    match level {
        Level::Warning => "warning",
        Level::Error => "error",
    }
}

/// Adds the line of a note. The level is a word, and the text is JSON.
#[tactic(auto, unfolding(crate::specs::Message::note_object))]
fn push_note_object(out: &mut String, id: &str, level: &str, text: &str) -> Result<(), AllocError>
    ensures { OnOk result (string_bytes out.new ≡ string_bytes out.old
        ++ note_object id.now level.now text.now) }
{
    push_all(
        out,
        &[
            "{\"reason\":\"build-script-note\",",
            id,
            ",\"level\":\"",
            level,
            "\",\"text\":",
            text,
            "}\n",
        ],
    )
}

/// Adds the line of a note.
fn push_note(
    alloc: Global,
    out: &mut String,
    id: &str,
    level: Level,
    text: &str,
) -> Result<(), AllocError>
    ensures { OnOk result (string_bytes out.new ≡ string_bytes out.old
        ++ note_line id.now level text.now) }
{
    let json = json_string(alloc, text)?;
    push_note_object(out, id, level_text(level), json.as_str())
}

/// Adds the line of an executed script. The values are JSON.
#[tactic(auto, unfolding(crate::specs::Message::executed_object))]
fn push_executed_object(
    out: &mut String,
    id: &str,
    libraries: &str,
    paths: &str,
    conditions: &str,
    variables: &str,
    folder: &str,
) -> Result<(), AllocError>
    ensures { OnOk result (string_bytes out.new ≡ string_bytes out.old
        ++ executed_object id.now libraries.now paths.now conditions.now variables.now folder.now) }
{
    push_all(
        out,
        &[
            "{\"reason\":\"build-script-executed\",",
            id,
            ",\"linked_libs\":",
            libraries,
            ",\"linked_paths\":",
            paths,
            ",\"cfgs\":",
            conditions,
            ",\"env\":",
            variables,
            ",\"out_dir\":",
            folder,
            "}\n",
        ],
    )
}

/// Adds the line of an executed script.
fn push_executed(
    alloc: Global,
    out: &mut String,
    id: &str,
    executed: &Executed,
) -> Result<(), AllocError>
    ensures { OnOk result (string_bytes out.new ≡ string_bytes out.old
        ++ executed_line id.now executed.now) }
{
    let libraries = json_texts(alloc, executed.linked_libraries.as_slice())?;
    let paths = json_texts(alloc, executed.linked_paths.as_slice())?;
    let conditions = json_texts(alloc, executed.conditions.as_slice())?;
    let variables = json_pairs(alloc, executed.variables.as_slice())?;
    let folder = json_string(alloc, executed.out_folder.as_str())?;
    push_executed_object(
        out,
        id,
        libraries.as_str(),
        paths.as_str(),
        conditions.as_str(),
        variables.as_str(),
        folder.as_str(),
    )
}

/// Adds the line of a message. `subject` contains the members that begin the lines of a compile.
fn push_line(
    alloc: Global,
    out: &mut String,
    id: &str,
    subject: &str,
    fresh: bool,
    message: &Message,
) -> Result<(), AllocError>
    ensures { OnOk result (string_bytes out.new ≡ string_bytes out.old
        ++ line_from id.now subject.now fresh message.now) }
{
    match message {
        Message::CompilerMessage(text) => push_diagnostic(out, subject, text.as_str()),
        Message::CompilerArtifact(artifact) => push_artifact(alloc, out, subject, artifact, fresh),
        Message::BuildScriptNote(level, text) => push_note(alloc, out, id, *level, text.as_str()),
        Message::BuildScriptExecuted(executed) => push_executed(alloc, out, id, executed),
    }
}

/// Adds the lines of messages. `subject` contains the members that begin the lines of a compile.
fn push_lines(
    alloc: Global,
    out: &mut String,
    id: &str,
    subject: &str,
    fresh: bool,
    messages: &[Message],
) -> Result<(), AllocError>
    ensures { OnOk result (string_bytes out.new ≡ string_bytes out.old
        ++ lines_from id.now subject.now fresh messages.now) }
{
    for message in messages {
        push_line(alloc, out, id, subject, fresh, message)?;
    }
    Ok(())
}

/// Returns the line of a message, with its line feed. `fresh` is true if no child was started for
/// the message's unit.
///
/// Errors: out of memory only.
pub fn line_of(
    alloc: Global,
    subject: &Subject,
    fresh: bool,
    message: &Message,
) -> Result<Text, AllocError>
    ensures { IfOk result (λ line. line ≡ line_of subject.now fresh message.now) }
{
    let id = id_text(alloc, subject)?;
    let begin = subject_text(alloc, subject)?;
    let mut line = String::new(alloc);
    push_line(
        alloc,
        &mut line,
        id.as_str(),
        begin.as_str(),
        fresh,
        message,
    )?;
    Ok(Text::new(line))
}

/// Returns the lines of messages, one after another. `fresh` is true if no child was started for
/// the messages' unit.
///
/// Errors: out of memory only.
pub fn lines_of(
    alloc: Global,
    subject: &Subject,
    fresh: bool,
    messages: &[Message],
) -> Result<Text, AllocError>
    ensures { IfOk result (λ lines. lines ≡ lines_of subject.now fresh messages.now) }
{
    let id = id_text(alloc, subject)?;
    let begin = subject_text(alloc, subject)?;
    let mut lines = String::new(alloc);
    push_lines(
        alloc,
        &mut lines,
        id.as_str(),
        begin.as_str(),
        fresh,
        messages,
    )?;
    Ok(Text::new(lines))
}

/// Returns the last line of a build, with its line feed. No memory is used.
pub fn finish_line(success: bool) -> &'static str
    ensures { result.now ≡ finish_line success }
{
    if success {
        "{\"reason\":\"build-finished\",\"success\":true}\n"
    } else {
        "{\"reason\":\"build-finished\",\"success\":false}\n"
    }
}
