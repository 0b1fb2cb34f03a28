//! A script: the run of an image.

ghost use Rattle.std.specs.Prelude.{◌≡◌, ◌==◌, ℕ, List, ◌++◌, ◌∷◌, [], map, IfOk, OnOk, IfErr, IsTrue, string_bytes, unwrap_or, if◌then◌else◌, Some, None};
ghost use Rattle.std.specs.List.{list_any};
ghost use Rattle.pb_mini.specs.Lines.{ended, lines_of};
ghost use Rattle.pb_mini.specs.Lookups.{path_of, file_at};
ghost use Rattle.pb_mini.specs.Script.{before, Goes, Wrote, printed, shown_text, shown, first_line, read_text, was_read, below_text, full_path, text_read, is_file_name, was_put, is_digit, is_leading, status_in, three_digits, deed_of, step_by, step_of, lines_run, no_image, ran};
ghost use Rattle.pb_place_types.specs.Paths.{is_absolute};
ghost use Rattle.pb_place_types.specs.declared.child.ViewFault.TheVariants as view_fault;

use crate::buffer::Buffer;
use crate::compile::{text_at, text_of};
use crate::lines::{byte_lines, push_line, word_and_rest};
use crate::lookups::{file_at, path_of, value_of};
use crate::output::Output;
use pb_data::{Bytes, Items, Table, Text};
use pb_place_types::{PathText, RelativePath, Reply, View, ViewFault};
use std::alloc::{AllocError, Global};

/// What a line does, by its first word.
#[derive(Clone, Copy)]
pub enum Deed {
    /// Prints the rest of the line.
    Print,
    /// Shows a variable.
    Show,
    /// Reads a file.
    Read,
    /// Puts a file in the output folder.
    Put,
    /// Ends the script.
    Exit,
    /// Does nothing.
    Skip,
}

/// Returns what a line with this first word does.
fn deed_of(word: &str) -> Deed
    ensures { result ≡ deed_of word.now }
{
    if word == "print" {
        return Deed::Print;
    }
    if word == "show" {
        return Deed::Show;
    }
    if word == "read" {
        return Deed::Read;
    }
    if word == "put" {
        return Deed::Put;
    }
    if word == "exit" {
        return Deed::Exit;
    }
    Deed::Skip
}

/// Carries out `print TEXT`.
fn print(output: &mut Output, text: &str) -> Result<(), AllocError>
    ensures { OnOk result (Wrote output.new output.old (printed text.now)) }
{
    push_line(&mut output.stdout, text.as_bytes())
}

/// Returns the value, or the empty text if there is no value.
fn or_empty(value: &Option<Text>) -> &str
    ensures { result.now ≡ unwrap_or value.now [] }
{
    match value {
        Some(value) => value.as_str(),
        None => "",
    }
}

/// Adds a line with a key and a text.
fn push_keyed(buffer: &mut Buffer, key: &[u8], text: &[u8]) -> Result<(), AllocError>
    ensures { OnOk result (buffer.new ≡ buffer.old ++ ended (key.now ++ text.now)) }
{
    buffer.push(key)?;
    push_line(buffer, text)?;
    Ok(())
}

/// Adds what `show NAME` prints for a variable with this value.
fn push_shown(buffer: &mut Buffer, name: &str, value: &str) -> Result<(), AllocError>
    ensures { OnOk result (buffer.new ≡ buffer.old ++ shown_text name.now value.now) }
{
    push_keyed(buffer, b"cargo::rerun-if-env-changed=", name.as_bytes())?;
    buffer.push(b"cargo::rustc-env=SHOW_")?;
    buffer.push(name.as_bytes())?;
    push_keyed(buffer, b"=", value.as_bytes())?;
    Ok(())
}

/// Carries out `show NAME` for a variable with this value.
fn show(output: &mut Output, name: &str, value: &Option<Text>) -> Result<(), AllocError>
    ensures { OnOk result (Wrote output.new output.old (shown name.now value.now)) }
{
    push_shown(&mut output.stdout, name, or_empty(value))
}

/// Returns the first line of a text.
fn first_line(text: &str) -> &str
    ensures { result.now ≡ first_line text.now }
{
    match text.split_once('\n') {
        Some((line, _)) => line,
        None => text,
    }
}

/// Adds what `read PATH` prints for a file with this text.
fn push_read(buffer: &mut Buffer, path: &str, text: &Option<Text>) -> Result<(), AllocError>
    ensures { OnOk result (buffer.new ≡ buffer.old ++ read_text path.now text.now) }
{
    push_keyed(buffer, b"cargo::rerun-if-changed=", path.as_bytes())?;
    match text {
        Some(text) => {
            let line = first_line(text.as_str());
            push_keyed(buffer, b"cargo::rustc-env=READ=", line.as_bytes())?;
            Ok(())
        }
        None => Ok(()),
    }
}

/// Carries out `read PATH` for a file with this text.
fn read(output: &mut Output, path: &str, text: &Option<Text>) -> Result<(), AllocError>
    ensures { OnOk result (Wrote output.new output.old (was_read path.now text.now)) }
{
    push_read(&mut output.stdout, path, text)
}

/// Returns whether a text begins with `/`.
fn is_absolute(text: &str) -> bool
    ensures { result ≡ is_absolute text.now }
{
    match text.as_bytes() {
        [first, ..] => *first == b'/',
        [] => false,
    }
}

/// Returns a path below a folder. If no folder is given, the folder's name counts as empty.
fn below_text(alloc: Global, folder: &Option<Text>, path: &str) -> Result<Text, AllocError>
    ensures { IfOk result (λ text. text ≡ below_text folder.now path.now) }
{
    let folder = or_empty(folder);
    let text = format!(in alloc; "{folder}/{path}")?;
    Ok(Text::new(text))
}

/// Returns a path below a folder, as `below_text` does, and consumes the folder.
fn below_folder(alloc: Global, folder: Option<Text>, path: &str) -> Result<Text, AllocError>
    ensures { IfOk result (λ text. text ≡ below_text folder path.now) }
{
    below_text(alloc, &folder, path)
}

/// Returns the path of a file to read, as a text. A relative path begins at `CARGO_MANIFEST_DIR`.
fn full_path<V: View>(
    alloc: Global,
    pairs: &Table<Text>,
    view: &V,
    path: &str,
) -> Result<Text, ViewFault>
    ensures text { IsTrue V.is_modelled →
        IfOk result (λ text. text ≡ full_path pairs.now (V.shown view.now) path.now) }
    ensures failed { IfErr result (λ e. e ≡ ViewFault.Failed → V.fails view.now) }
{
    if is_absolute(path) {
        let text = Text::from_str(alloc, path)?;
        return Ok(text);
    }
    let folder = value_of(alloc, pairs, view, "CARGO_MANIFEST_DIR")?;
    let text = below_folder(alloc, folder, path)?;
    Ok(text)
}

/// Returns a text as a path, or none if the text is not an absolute path.
fn path_in(alloc: Global, text: Text) -> Result<Option<PathText>, AllocError>
    ensures { IfOk result (λ path. path ≡ path_of text) }
{
    path_of(alloc, text.as_str())
}

/// Returns the text of a file to read.
fn text_read<V: View>(
    alloc: Global,
    pairs: &Table<Text>,
    view: &V,
    path: &str,
) -> Result<Option<Text>, ViewFault>
    ensures text { IsTrue V.is_modelled →
        IfOk result (λ text. text ≡ text_read pairs.now (V.shown view.now) path.now) }
    ensures failed { IfErr result (λ e. e ≡ ViewFault.Failed → V.fails view.now) }
{
    let text = full_path(alloc, pairs, view, path)?;
    let path = path_in(alloc, text)?;
    text_at(alloc, view, &path)
}

/// Returns whether a text contains a slash.
fn has_slash(text: &str) -> bool
    ensures { result ≡ list_any (λ b. b == 47) text.now }
{
    text.as_bytes().iter().any(|byte| *byte == b'/')
}

/// Returns the path of a file with this name in the output folder, or none if the name is not a
/// file name.
fn file_named(alloc: Global, name: &str) -> Result<Option<RelativePath>, AllocError>
    ensures { IfOk result (λ path. path ≡ (if is_file_name name.now then Some name.now else None)) }
{
    if has_slash(name) {
        return Ok(None);
    }
    let name = Text::from_str(alloc, name)?;
    Ok(RelativePath::of(name))
}

/// Carries out `put NAME TEXT`. If NAME is not a file name, returns the status with which the
/// script ends.
fn put(alloc: Global, output: &mut Output, name: &str, text: &str) -> Result<Option<u8>, AllocError>
    ensures { IfOk result (λ ends. Goes ends output.new output.old (was_put name.now text.now)) }
{
    let Some(path) = file_named(alloc, name)? else {
        return Ok(Some(2));
    };
    let line = format!(in alloc; "{text}\n")?;
    let bytes = Bytes::from_slice(alloc, line.as_bytes())?;
    output.files.push((path, bytes))?;
    Ok(None)
}

fn is_digit(byte: u8) -> bool
    ensures { result ≡ is_digit byte }
{
    !(byte < 48) && byte < 58
}

fn is_leading(byte: u8) -> bool
    ensures { result ≡ is_leading byte }
{
    is_digit(byte) && byte != 48
}

/// Returns the status in a text: a decimal number from 0 to 255 without leading zeros; 2 for any
/// other text.
fn status_in(text: &str) -> u8
    ensures { result ≡ status_in text.now }
{
    match text.as_bytes() {
        [a] => {
            if is_digit(*a) {
                return *a - 48;
            }
            2
        }
        [a, b] => {
            if is_leading(*a) && is_digit(*b) {
                return (*a - 48) * 10 + (*b - 48);
            }
            2
        }
        [a, b, c] => three_digits(*a, *b, *c),
        _ => 2,
    }
}

/// Returns the status that three digits spell.
fn three_digits(a: u8, b: u8, c: u8) -> u8
    ensures { result ≡ three_digits a b c }
{
    if !(is_leading(a) && is_digit(b) && is_digit(c)) {
        return 2;
    }
    let number = (a - 48) as u16 * 100 + (b - 48) as u16 * 10 + (c - 48) as u16;
    if number < 256 { number as u8 } else { 2 }
}

/// Carries out a line by its first word. If the script ends at this line, returns its status.
fn do_by<V: View>(
    alloc: Global,
    output: &mut Output,
    pairs: &Table<Text>,
    view: &V,
    deed: Deed,
    rest: &str,
) -> Result<Option<u8>, ViewFault>
    ensures done { IsTrue V.is_modelled →
        IfOk result (λ ends. Goes ends output.new output.old
        (step_by deed pairs.now (V.shown view.now) rest.now)) }
    ensures failed { IfErr result (λ e. e ≡ ViewFault.Failed → V.fails view.now) }
{
    match deed {
        Deed::Print => print(output, rest)?,
        Deed::Show => {
            let value = value_of(alloc, pairs, view, rest)?;
            show(output, rest, &value)?;
        }
        Deed::Read => {
            let text = text_read(alloc, pairs, view, rest)?;
            read(output, rest, &text)?;
        }
        Deed::Put => {
            let (name, text) = word_and_rest(rest);
            let ends = put(alloc, output, name, text)?;
            return Ok(ends);
        }
        Deed::Exit => return Ok(Some(status_in(rest))),
        Deed::Skip => {}
    }
    Ok(None)
}

/// Carries out a line. A line that is not UTF-8 does nothing.
fn do_line<V: View>(
    alloc: Global,
    output: &mut Output,
    pairs: &Table<Text>,
    view: &V,
    line: &[u8],
) -> Result<Option<u8>, ViewFault>
    ensures done { IsTrue V.is_modelled →
        IfOk result (λ ends. Goes ends output.new output.old
        (step_of pairs.now (V.shown view.now) line.now)) }
    ensures failed { IfErr result (λ e. e ≡ ViewFault.Failed → V.fails view.now) }
{
    let Some(line) = text_of(alloc, line)? else {
        return Ok(None);
    };
    let (word, rest) = word_and_rest(line.as_str());
    do_by(alloc, output, pairs, view, deed_of(word), rest)
}

/// Carries out lines, one after another, until a line ends the script.
fn run_lines<V: View>(
    alloc: Global,
    pairs: &Table<Text>,
    view: &V,
    lines: &[&[u8]],
) -> Result<Reply, ViewFault>
    ensures reply { IsTrue V.is_modelled →
        IfOk result (λ reply. reply
        ≡ lines_run pairs.now (V.shown view.now) (map (λ line. line.now) lines.now)) }
    ensures failed { IfErr result (λ e. e ≡ ViewFault.Failed → V.fails view.now) }
{
    let mut output = Output::new(alloc);
    for line in lines {
        if let Some(status) = do_line(alloc, &mut output, pairs, view, *line)? {
            return Ok(output.into_reply(alloc, status));
        }
    }
    Ok(output.into_reply(alloc, 0))
}

/// Returns the reply to a run whose image does not exist.
fn no_image(alloc: Global) -> Result<Reply, AllocError>
    ensures { IfOk result (λ reply. reply ≡ no_image) }
{
    Ok(Reply {
        status: 2,
        stdout: Bytes::new(Vec::new(alloc)),
        stderr: Bytes::from_slice(alloc, b"mini: no image\n")?,
        files: Items::new(alloc),
    })
}

/// Returns the image at a path, if there is one.
fn image_at<V: View>(alloc: Global, path: &str, view: &V) -> Result<Option<Bytes>, ViewFault>
    ensures image { IsTrue V.is_modelled →
        IfOk result (λ image. image ≡ file_at (V.shown view.now) (path_of path.now)) }
    ensures failed { IfErr result (λ e. e ≡ ViewFault.Failed → V.fails view.now) }
{
    let path = path_of(alloc, path)?;
    file_at(alloc, view, &path)
}

/// Runs an image, line by line.
fn run_image<V: View>(
    alloc: Global,
    image: &[u8],
    pairs: &Table<Text>,
    view: &V,
) -> Result<Reply, ViewFault>
    ensures reply { IsTrue V.is_modelled →
        IfOk result (λ reply. reply ≡ lines_run pairs.now (V.shown view.now) (lines_of image.now)) }
    ensures failed { IfErr result (λ e. e ≡ ViewFault.Failed → V.fails view.now) }
{
    let lines = byte_lines(alloc, image)?;
    run_lines(alloc, pairs, view, lines.as_slice())
}

/// Runs the image at a path, line by line, as a build script. If there is no image, the status is
/// 2, with `mini: no image` on standard error.
pub(crate) fn run<V: View>(
    alloc: Global,
    path: &str,
    pairs: &Table<Text>,
    view: &V,
) -> Result<Reply, ViewFault>
    ensures reply { IsTrue V.is_modelled →
        IfOk result (λ reply. reply ≡ ran path.now pairs.now (V.shown view.now)) }
    ensures failed { IfErr result (λ e. e ≡ ViewFault.Failed → V.fails view.now) }
{
    let Some(image) = image_at(alloc, path, view)? else {
        let reply = no_image(alloc)?;
        return Ok(reply);
    };
    run_image(alloc, image.as_slice(), pairs, view)
}
