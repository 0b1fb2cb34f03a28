//! A compile: its source, its image and its reply.

ghost use Rattle.std.specs.Prelude.{◌≡◌, ◌++◌, [], IfOk, OnOk, IfErr, IsTrue, ℕ, List};
ghost use Rattle.pb_mini.specs.Effects.{AddsEffect, followed_by, joined, names_once, no_effects, reads};
ghost use Rattle.pb_mini.specs.Lines.{lines_of};
ghost use Rattle.pb_mini.specs.Verbs.{effects_from};
ghost use Rattle.pb_mini.specs.Compile.{text_of, text_at, no_source, source_of, source_effects, effects_of, title, image_text, replied, files_of, compiled};
ghost use Rattle.pb_mini.specs.DepInfo.{dep_info_text};
ghost use Rattle.pb_mini.specs.Diagnostics.{diagnostics_text};
ghost use Rattle.pb_place_types.specs.Paths.{below};
ghost use Rattle.pb_place_types.specs.declared.child.ViewFault.TheVariants as view_fault;

use crate::buffer::Buffer;
use crate::command_line::{CommandLine, CrateType};
use crate::dep_info::{Names, dep_info_text};
use crate::diagnostic::{Diagnostic, Level, diagnostics_text, has_error};
use crate::effects::{Effects, add_path, add_said};
use crate::lines::{push_line, text_lines};
use crate::lookups::{file_at, path_of};
use crate::scope::Scope;
use crate::verbs::add_lines;
use pb_data::{Bytes, Items, Table, Text, TryCopy, with_next};
use pb_place_types::{PathText, RelativePath, Reply, View, ViewFault};
use std::alloc::{AllocError, Global};

/// Returns the text of some bytes, or none if the bytes are not UTF-8.
#[tactic(auto, using(crate::proofs::Texts::text_laws))]
pub(crate) fn text_of(alloc: Global, bytes: &[u8]) -> Result<Option<Text>, AllocError>
    ensures { IfOk result (λ text. text ≡ text_of bytes.now) }
{
    match str::from_utf8(bytes) {
        Ok(text) => {
            let text = Text::from_str(alloc, text)?;
            Ok(Some(text))
        }
        Err(_) => Ok(None),
    }
}

/// Returns the text of the file at a path. The result is none if there is no path, if there is no
/// file, or if the file is not UTF-8.
pub(crate) fn text_at<V: View>(
    alloc: Global,
    view: &V,
    path: &Option<PathText>,
) -> Result<Option<Text>, ViewFault>
    ensures text { IsTrue V.is_modelled →
        IfOk result (λ text. text ≡ text_at (V.shown view.now) path.now) }
    ensures failed { IfErr result (λ e. e ≡ ViewFault.Failed → V.fails view.now) }
{
    let Some(bytes) = file_at(alloc, view, path)? else {
        return Ok(None);
    };
    let text = text_of(alloc, bytes.as_slice())?;
    Ok(text)
}

/// Reports that there is no source.
fn add_no_source(alloc: Global, effects: &mut Effects) -> Result<(), AllocError>
    ensures { OnOk result (effects.new ≡ followed_by effects.old no_source) }
{
    add_said(alloc, effects, Level::Error, "no source", 0)?;
    Ok(())
}

/// Carries out the lines of a source with this text.
fn add_text<V: View>(
    alloc: Global,
    effects: &mut Effects,
    scope: &Scope,
    view: &V,
    text: &str,
) -> Result<(), ViewFault>
    ensures done { IsTrue V.is_modelled →
        OnOk result (effects.new ≡ followed_by effects.old
        (effects_from scope.now (V.shown view.now) 0 (lines_of text.now))) }
    ensures failed { IfErr result (λ e. e ≡ ViewFault.Failed → V.fails view.now) }
{
    let lines = text_lines(alloc, text)?;
    add_lines(alloc, effects, scope, view, lines.as_slice())?;
    Ok(())
}

/// Carries out the lines of a source with this path and this text, or reports that there is no
/// source.
fn add_source<V: View>(
    alloc: Global,
    effects: &mut Effects,
    line: &CommandLine,
    pairs: Table<Text>,
    view: &V,
    source: &Option<PathText>,
    text: &Option<Text>,
) -> Result<(), ViewFault>
    ensures done { IsTrue V.is_modelled →
        OnOk result (effects.new ≡ followed_by effects.old
        (source_effects line.now pairs (V.shown view.now) source.now text.now)) }
    ensures failed { IfErr result (λ e. e ≡ ViewFault.Failed → V.fails view.now) }
{
    match (source, text) {
        (Some(source), Some(text)) => {
            let scope = Scope::new(alloc, line, pairs, source)?;
            let added = add_text(alloc, effects, &scope, view, text.as_str());
            drop(scope);
            added
        }
        _ => {
            drop(pairs);
            add_no_source(alloc, effects)?;
            Ok(())
        }
    }
}

/// The path of a source, and its text.
#[derive(Drop)]
pub struct Source {
    /// None if the argument is not an absolute path.
    pub path: Option<PathText>,
    /// None if there is no file, or if the file is not UTF-8.
    pub text: Option<Text>,
}

/// Returns the source of a compile.
fn source_of<V: View>(alloc: Global, line: &CommandLine, view: &V) -> Result<Source, ViewFault>
    ensures source { IsTrue V.is_modelled →
        IfOk result (λ source. source ≡ source_of line.now (V.shown view.now)) }
    ensures failed { IfErr result (λ e. e ≡ ViewFault.Failed → V.fails view.now) }
{
    let path = path_of(alloc, line.source.as_str())?;
    let text = text_at(alloc, view, &path)?;
    Ok(Source { path, text })
}

/// Returns the effects of reading a source.
fn read_effects(alloc: Global, source: &Option<PathText>) -> Result<Effects, AllocError>
    ensures { IfOk result (λ effects. AddsEffect effects no_effects (reads source.now)) }
{
    let path = source.copy(alloc)?;
    let mut effects = Effects::new(alloc);
    let added = add_path(&mut effects, path);
    let (effects, ()) = with_next(effects, added)?;
    Ok(effects)
}

/// Returns all effects of compiling this source, with each name once.
fn effects_with<V: View>(
    alloc: Global,
    line: &CommandLine,
    pairs: Table<Text>,
    view: &V,
    source: &Source,
) -> Result<Effects, ViewFault>
    ensures effects { IsTrue V.is_modelled →
        IfOk result (λ effects. effects
        ≡ names_once (joined (reads source.now.path)
        (source_effects line.now pairs (V.shown view.now) source.now.path source.now.text))) }
    ensures failed { IfErr result (λ e. e ≡ ViewFault.Failed → V.fails view.now) }
{
    let read = read_effects(alloc, &source.path);
    let (pairs, mut effects) = with_next(pairs, read)?;
    let added = add_source(
        alloc,
        &mut effects,
        line,
        pairs,
        view,
        &source.path,
        &source.text,
    );
    let (effects, ()) = with_next(effects, added)?;
    Ok(effects)
}

/// Returns all effects of a compile, with each name once.
fn effects_of<V: View>(
    alloc: Global,
    line: &CommandLine,
    pairs: Table<Text>,
    view: &V,
) -> Result<Effects, ViewFault>
    ensures effects { IsTrue V.is_modelled →
        IfOk result (λ effects. effects
        ≡ names_once (effects_of line.now pairs (V.shown view.now))) }
    ensures failed { IfErr result (λ e. e ≡ ViewFault.Failed → V.fails view.now) }
{
    let source = source_of(alloc, line, view);
    let (pairs, source) = with_next(pairs, source)?;
    effects_with(alloc, line, pairs, view, &source)
}

/// Returns the first line of an image, up to the crate's name.
fn title(crate_type: CrateType) -> &'static str
    ensures { result.now ≡ title crate_type }
{
    match crate_type {
        CrateType::Bin => "mini bin ",
        CrateType::Lib => "mini lib ",
    }
}

/// Returns the image: its kind and the crate's name, and then its lines.
fn image_text(alloc: Global, line: &CommandLine, lines: &[u8]) -> Result<Bytes, AllocError>
    ensures { IfOk result (λ text. text ≡ image_text line.now lines.now) }
{
    let mut text = Buffer::new(alloc);
    text.push(title(line.crate_type).as_bytes())?;
    push_line(&mut text, line.crate_name.as_bytes())?;
    text.push(lines)?;
    Ok(text.into_bytes())
}

/// Returns the image as a file.
fn image_file(
    alloc: Global,
    line: &CommandLine,
    lines: &[u8],
) -> Result<(RelativePath, Bytes), AllocError>
    ensures { IfOk result (λ file. file ≡ (line.now.image, image_text line.now lines.now)) }
{
    let path = line.image.copy(alloc)?;
    let text = image_text(alloc, line, lines)?;
    Ok((path, text))
}

/// Returns the dep-info as a file.
fn dep_info_file(
    alloc: Global,
    line: &CommandLine,
    names: Names,
) -> Result<(RelativePath, Bytes), AllocError>
    ensures { IfOk result (λ file. file
        ≡ (line.now.dep_info, dep_info_text (below line.now.out_dir line.now.image) names)) }
{
    let output = line.out_dir.below(alloc, &line.image)?;
    let text = dep_info_text(alloc, &output, names)?;
    let path = line.dep_info.copy(alloc)?;
    Ok((path, Bytes::new(text)))
}

/// Returns the files of a compile: the dep-info and, if the compile succeeded, the image.
fn files_of(
    alloc: Global,
    line: &CommandLine,
    is_bad: bool,
    lines: &[u8],
    names: Names,
) -> Result<Items<(RelativePath, Bytes)>, AllocError>
    ensures { IfOk result (λ files. files ≡ files_of line.now is_bad lines.now names) }
{
    let dep_info = dep_info_file(alloc, line, names)?;
    let mut files = Items::new(alloc);
    if !is_bad {
        files.push(image_file(alloc, line, lines)?)?;
    }
    files.push(dep_info)?;
    Ok(files)
}

/// Returns the lines of diagnostics.
fn said_by(alloc: Global, diagnostics: &[Diagnostic]) -> Result<Bytes, AllocError>
    ensures { IfOk result (λ bytes. bytes ≡ diagnostics_text diagnostics.now) }
{
    let text = diagnostics_text(alloc, diagnostics)?;
    Bytes::from_slice(alloc, text.as_bytes())
}

/// Returns the files of a compile with these effects.
fn files_by(
    alloc: Global,
    line: &CommandLine,
    is_bad: bool,
    effects: Effects,
) -> Result<Items<(RelativePath, Bytes)>, AllocError>
    ensures { IfOk result (λ files. files ≡ files_of line.now is_bad effects.image effects.names) }
{
    let Effects { image, names, .. } = effects;
    files_of(alloc, line, is_bad, image.as_slice(), names)
}

/// Returns the reply to a compile with these effects.
fn compile_reply(alloc: Global, line: &CommandLine, effects: Effects) -> Result<Reply, AllocError>
    ensures { IfOk result (λ reply. reply ≡ replied line.now effects) }
{
    let is_bad = has_error(effects.diagnostics.as_slice());
    let stderr = said_by(alloc, effects.diagnostics.as_slice());
    let (effects, stderr) = with_next(effects, stderr)?;
    let files = files_by(alloc, line, is_bad, effects);
    let (stderr, files) = with_next(stderr, files)?;
    let status = if is_bad { 1 } else { 0 };
    Ok(Reply {
        status,
        stdout: Bytes::new(Vec::new(alloc)),
        stderr,
        files,
    })
}

/// Returns the reply to a compile. If there is an error, the status is 1 and there is no image. If
/// there is no error, the status is 0. In both cases standard error contains the diagnostics, and
/// there is dep-info. If the source is missing or not UTF-8, the error is `no source` at line 0.
/// The error is the same if the path of the source is not absolute (our own choice).
pub(crate) fn compile<V: View>(
    alloc: Global,
    line: &CommandLine,
    pairs: Table<Text>,
    view: &V,
) -> Result<Reply, ViewFault>
    ensures reply { IsTrue V.is_modelled →
        IfOk result (λ reply. reply ≡ compiled line.now pairs (V.shown view.now)) }
    ensures failed { IfErr result (λ e. e ≡ ViewFault.Failed → V.fails view.now) }
{
    let effects = effects_of(alloc, line, pairs, view)?;
    let reply = compile_reply(alloc, line, effects)?;
    Ok(reply)
}
