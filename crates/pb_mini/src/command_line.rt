//! The arguments of a compile.

ghost use Rattle.std.specs.Prelude.{◌≡◌, ◌||◌, codes, Ok, None, IfOk, OnOk, List, [], ◌∷◌, ℕ};
ghost use Rattle.std.specs.Str.{bytes_eq};
ghost use Rattle.pb_data.specs.UnlessOom.{UnlessOom};
ghost use Rattle.pb_mini.specs.CommandLine.{takes_value, role_of, role_alone, with_value, joined, arguments_after, after, no_arguments, only, first, crate_type_of, image_name, dep_info_name, file_named, folder_of, settled_by, command_line_of};
ghost use Rattle.pb_mini.specs.Private.{once_in, outputs_of};
ghost use Rattle.pb_mini.specs.declared.command_line.CommandLineFault.TheVariants as fault;
ghost use Rattle.pb_mini.specs.declared.command_line.Arguments.{Arguments};

use pb_data::{Items, Text, TryCopy, with_next};
use pb_place_types::{PathFault, PathText, RelativePath};
use std::alloc::{AllocError, AllocFailed, Global};
use thiserror::Error;

/// Why arguments do not request a compile.
#[derive(Clone, Copy, Debug, PartialEq, Eq, Error)]
pub enum CommandLineFault {
    /// The small compiler does not know these arguments.
    #[error("bad command line")]
    Bad,
    /// Out of memory.
    #[error("out of memory")]
    OutOfMemory,
}

impl From<AllocError> for CommandLineFault {
    ghost from_gives = { λ _ e. e ≡ fault.OutOfMemory };

    fn from(_: AllocError) -> Self {
        CommandLineFault::OutOfMemory
    }
}

impl<T: Drop> From<AllocFailed<T>> for CommandLineFault {
    ghost from_gives = { λ _ e. e ≡ fault.OutOfMemory };

    fn from(_: AllocFailed<T>) -> Self {
        CommandLineFault::OutOfMemory
    }
}

/// The role of an argument.
#[derive(Clone, Copy)]
pub enum Role {
    /// The name of the crate.
    CrateName,
    /// A type of the crate.
    CrateType,
    /// The folder in which files are written.
    OutDir,
    /// The file that is compiled.
    Source,
    /// A library and its file, as `NAME=PATH`.
    Extern,
    /// A condition.
    Condition,
    /// No role: the small compiler ignores the argument.
    Unused,
}

/// What a compile makes.
#[derive(Clone, Copy)]
pub enum CrateType {
    /// A program.
    Bin,
    /// A library of any type.
    Lib,
}

/// The values of a command line by their roles, each list in the order of the arguments.
#[derive(Drop)]
pub struct Arguments {
    /// The values of `--crate-name`.
    pub crate_names: Items<Text>,
    /// The values of `--crate-type`.
    pub crate_types: Items<Text>,
    /// The values of `--out-dir`.
    pub out_dirs: Items<Text>,
    /// The arguments that are neither options nor values of options.
    pub sources: Items<Text>,
    /// The values of `--extern`.
    pub externs: Items<Text>,
    /// The values of `--cfg`.
    pub conditions: Items<Text>,
}

/// A compile, from its arguments.
#[derive(Drop)]
pub struct CommandLine {
    /// What the compile makes, as the first crate type says.
    pub crate_type: CrateType,
    /// The name of the crate.
    pub crate_name: Text,
    /// The file of the image inside `out_dir`. For a program the file has the crate's name, and
    /// otherwise its name is `libNAME.rlib`. These names are our own choice. The names resemble
    /// those that a real compiler chooses.
    pub image: RelativePath,
    /// The file of the dep-info inside `out_dir`: `NAME.d`.
    pub dep_info: RelativePath,
    /// The folder in which files are written.
    pub out_dir: PathText,
    /// The source, as the arguments name it.
    pub source: Text,
    /// The libraries and their files, each as `NAME=PATH`.
    pub externs: Items<Text>,
    /// The conditions that `--cfg` sets.
    pub conditions: Items<Text>,
}

/// The values of a compile that occur once, and the values that follow from them.
#[derive(Drop)]
pub struct Settled {
    /// What the compile makes.
    pub crate_type: CrateType,
    /// The name of the crate.
    pub crate_name: Text,
    /// The file of the image inside `out_dir`.
    pub image: RelativePath,
    /// The file of the dep-info inside `out_dir`.
    pub dep_info: RelativePath,
    /// The folder in which files are written.
    pub out_dir: PathText,
    /// The source, as the arguments name it.
    pub source: Text,
}

/// Returns whether the value of an option determines what is made, or where it is made.
fn is_for_crate(word: &str) -> bool
    ensures { result ≡ (bytes_eq word.now (codes "--crate-name")
        || bytes_eq word.now (codes "--crate-type") || bytes_eq word.now (codes "--out-dir")) }
{
    word == "--crate-name" || word == "--crate-type" || word == "--out-dir"
}

/// Returns whether the value of an option is a setting or a condition.
fn is_for_setting(word: &str) -> bool
    ensures { result ≡ (bytes_eq word.now (codes "-C") || bytes_eq word.now (codes "--cfg")
        || bytes_eq word.now (codes "--check-cfg")) }
{
    word == "-C" || word == "--cfg" || word == "--check-cfg"
}

/// Returns whether the value of an option is a library or a folder of libraries.
fn is_for_library(word: &str) -> bool
    ensures { result ≡ (bytes_eq word.now (codes "--extern") || bytes_eq word.now (codes "-L")
        || bytes_eq word.now (codes "-l")) }
{
    word == "--extern" || word == "-L" || word == "-l"
}

/// Returns whether an argument is an option whose value is the next argument.
fn takes_value(word: &str) -> bool
    ensures { result ≡ takes_value word.now }
{
    is_for_crate(word) || is_for_setting(word) || is_for_library(word)
}

/// Returns the role of the value of an option.
fn role_of(option: &str) -> Role
    ensures { result ≡ role_of option.now }
{
    if option == "--crate-name" {
        return Role::CrateName;
    }
    if option == "--crate-type" {
        return Role::CrateType;
    }
    if option == "--out-dir" {
        return Role::OutDir;
    }
    if option == "--extern" {
        return Role::Extern;
    }
    if option == "--cfg" {
        return Role::Condition;
    }
    Role::Unused
}

/// Returns the role of an argument that is neither an option with a value nor the value of an
/// option.
fn role_alone(word: &str) -> Role
    ensures { result ≡ role_alone word.now }
{
    if word.as_bytes().starts_with(b"--edition=")
        || word.as_bytes().starts_with(b"--error-format=")
        || word.as_bytes().starts_with(b"--emit=")
    {
        return Role::Unused;
    }
    Role::Source
}

/// Adds one more value to the list of its role.
fn add_value(said: &mut Arguments, role: Role, value: Text) -> Result<(), AllocError>
    ensures { OnOk result ((rest : Arguments) → joined said.new rest
        ≡ joined said.old (with_value role value rest)) }
{
    match role {
        Role::CrateName => said.crate_names.push(value)?,
        Role::CrateType => said.crate_types.push(value)?,
        Role::OutDir => said.out_dirs.push(value)?,
        Role::Source => said.sources.push(value)?,
        Role::Extern => said.externs.push(value)?,
        Role::Condition => said.conditions.push(value)?,
        Role::Unused => {}
    }
    Ok(())
}

/// Processes one argument: the value of the option before it, an option, or an argument on its own.
/// If this argument waits for a value, returns the role of the next argument.
fn take_word(
    alloc: Global,
    said: &mut Arguments,
    waiting: Option<Role>,
    word: &Text,
) -> Result<Option<Role>, AllocError>
    ensures { IfOk result (λ next. (words : List (List ℕ)) →
        after said.new (arguments_after next words)
        ≡ after said.old (arguments_after waiting (word.now ∷ words))) }
{
    if let Some(role) = waiting {
        add_value(said, role, word.copy(alloc)?)?;
        return Ok(None);
    }
    if takes_value(word.as_str()) {
        return Ok(Some(role_of(word.as_str())));
    }
    add_value(said, role_alone(word.as_str()), word.copy(alloc)?)?;
    Ok(None)
}

/// Adds the values of the arguments. If the last option waits for a value, returns the role of this
/// value.
fn add_words(
    alloc: Global,
    said: &mut Arguments,
    words: &[Text],
) -> Result<Option<Role>, AllocError>
    ensures { IfOk result (λ waiting. after said.new (arguments_after waiting [])
        ≡ after said.old (arguments_after None words.now)) }
{
    let mut waiting = None;
    for word in words {
        waiting = take_word(alloc, said, waiting, word)?;
    }
    Ok(waiting)
}

/// Fails with `Bad` if an option waits for its value.
fn require_complete(waiting: Option<Role>) -> Result<(), CommandLineFault>
    ensures { UnlessOom fault.OutOfMemory (λ _. no_arguments) result (arguments_after waiting []) }
{
    if waiting.is_some() {
        return Err(CommandLineFault::Bad);
    }
    Ok(())
}

/// Returns the values of the arguments.
///
/// Errors: `Bad`, if the last argument is an option without its value; `OutOfMemory`.
#[tactic(auto, using(crate::proofs::Words::after_nothing))]
fn arguments_of(alloc: Global, words: &[Text]) -> Result<Arguments, CommandLineFault>
    ensures { UnlessOom fault.OutOfMemory (λ said. said) result (arguments_after None words.now) }
{
    let mut said = Arguments {
        crate_names: Items::new(alloc),
        crate_types: Items::new(alloc),
        out_dirs: Items::new(alloc),
        sources: Items::new(alloc),
        externs: Items::new(alloc),
        conditions: Items::new(alloc),
    };
    let waiting = add_words(alloc, &mut said, words);
    let (said, waiting) = with_next(said, waiting)?;
    let (said, ()) = with_next(said, require_complete(waiting))?;
    Ok(said)
}

/// Returns the only value.
///
/// Errors: `Bad`, if there is no value, or more than one; `OutOfMemory`.
fn only(alloc: Global, values: &[Text]) -> Result<Text, CommandLineFault>
    ensures { UnlessOom fault.OutOfMemory (λ value. value) result (only values.now) }
{
    match values {
        [value] => {
            let value = value.copy(alloc)?;
            Ok(value)
        }
        _ => Err(CommandLineFault::Bad),
    }
}

/// Returns the first value.
///
/// Errors: `Bad`, if there is no value.
fn first(values: &[Text]) -> Result<&Text, CommandLineFault>
    ensures { UnlessOom fault.OutOfMemory (λ value. value.now) result (first values.now) }
{
    match values {
        [value, ..] => Ok(value),
        [] => Err(CommandLineFault::Bad),
    }
}

/// Returns what a compile with this crate type makes.
fn crate_type_of(text: &str) -> CrateType
    ensures { result ≡ crate_type_of text.now }
{
    if text == "bin" {
        CrateType::Bin
    } else {
        CrateType::Lib
    }
}

/// Returns the file name of the image.
fn image_name(alloc: Global, crate_type: CrateType, name: &str) -> Result<Text, AllocError>
    ensures { IfOk result (λ file. file ≡ image_name crate_type name.now) }
{
    let text = match crate_type {
        CrateType::Bin => String::from_str(alloc, name)?,
        CrateType::Lib => format!(in alloc; "lib{name}.rlib")?,
    };
    Ok(Text::new(text))
}

/// Returns the file name of the dep-info.
fn dep_info_name(alloc: Global, name: &str) -> Result<Text, AllocError>
    ensures { IfOk result (λ file. file ≡ dep_info_name name.now) }
{
    let text = format!(in alloc; "{name}.d")?;
    Ok(Text::new(text))
}

/// Returns a name as a file inside the output folder.
///
/// Errors: `Bad`, if the name is not a file name; `OutOfMemory`.
fn file_named(alloc: Global, name: Text) -> Result<RelativePath, CommandLineFault>
    ensures { UnlessOom fault.OutOfMemory (λ file. file) result (file_named name) }
{
    match RelativePath::new(alloc, name)? {
        Some(file) => Ok(file),
        None => Err(CommandLineFault::Bad),
    }
}

/// Returns the output folder.
///
/// Errors: `Bad`, if the text is not an absolute path; `OutOfMemory`.
fn folder_of(alloc: Global, text: &str) -> Result<PathText, CommandLineFault>
    ensures { UnlessOom fault.OutOfMemory (λ folder. folder) result (folder_of text.now) }
{
    match PathText::parse(alloc, text) {
        Ok(folder) => Ok(folder),
        Err(PathFault::OutOfMemory) => Err(CommandLineFault::OutOfMemory),
        Err(_) => Err(CommandLineFault::Bad),
    }
}

/// The values that occur once.
#[derive(Drop)]
struct Once {
    crate_type: CrateType,
    crate_name: Text,
    folder: Text,
    source: Text,
}

/// The image and the dep-info inside the output folder, and the folder itself.
#[derive(Drop)]
struct Outputs {
    image: RelativePath,
    dep_info: RelativePath,
    out_dir: PathText,
}

/// Returns the values that occur once.
///
/// Errors: `Bad`, if one of these values is absent or repeated; `OutOfMemory`.
fn once_in(alloc: Global, said: &Arguments) -> Result<Once, CommandLineFault>
    ensures { UnlessOom fault.OutOfMemory (λ once. once) result (once_in said.now) }
{
    let crate_name = only(alloc, said.crate_names.as_slice())?;
    let crate_type = crate_type_of(first(said.crate_types.as_slice())?.as_str());
    let folder = only(alloc, said.out_dirs.as_slice())?;
    let source = only(alloc, said.sources.as_slice())?;
    Ok(Once {
        crate_type,
        crate_name,
        folder,
        source,
    })
}

/// Returns the file of the image.
///
/// Errors: `Bad`, if the crate's name is not a file name; `OutOfMemory`.
fn image_named(alloc: Global, once: &Once) -> Result<RelativePath, CommandLineFault>
    ensures { UnlessOom fault.OutOfMemory (λ file.
        file) result (file_named (image_name once.now.crate_type once.now.crate_name)) }
{
    let name = image_name(alloc, once.crate_type, once.crate_name.as_str())?;
    file_named(alloc, name)
}

/// Returns the file of the dep-info.
///
/// Errors: `Bad`, if the crate's name is not a file name; `OutOfMemory`.
fn dep_info_named(alloc: Global, once: &Once) -> Result<RelativePath, CommandLineFault>
    ensures { UnlessOom fault.OutOfMemory (λ file.
        file) result (file_named (dep_info_name once.now.crate_name)) }
{
    let name = dep_info_name(alloc, once.crate_name.as_str())?;
    file_named(alloc, name)
}

/// Returns which files a compile writes, and where.
///
/// Errors: `Bad`, if the name or the folder is invalid; `OutOfMemory`.
fn outputs_of(alloc: Global, once: &Once) -> Result<Outputs, CommandLineFault>
    ensures { UnlessOom fault.OutOfMemory (λ outputs. outputs) result (outputs_of once.now) }
{
    let image = image_named(alloc, once)?;
    let dep_info = dep_info_named(alloc, once)?;
    let out_dir = folder_of(alloc, once.folder.as_str())?;
    Ok(Outputs {
        image,
        dep_info,
        out_dir,
    })
}

/// Returns the values that occur once, and the values that follow from them.
///
/// Errors:
///
/// - `Bad`, if a value that must occur once is absent or repeated, or if a name or a folder is
///   invalid.
/// - `OutOfMemory`.
fn settled_by(alloc: Global, said: &Arguments) -> Result<Settled, CommandLineFault>
    ensures { UnlessOom fault.OutOfMemory (λ settled. settled) result (settled_by said.now) }
{
    let once = once_in(alloc, said)?;
    let outputs = outputs_of(alloc, &once);
    let (once, outputs) = with_next(once, outputs)?;
    Ok(Settled {
        crate_type: once.crate_type,
        crate_name: once.crate_name,
        image: outputs.image,
        dep_info: outputs.dep_info,
        out_dir: outputs.out_dir,
        source: once.source,
    })
}

/// Returns the compile that these arguments request. `--crate-name` and `--out-dir` must occur
/// once, and `--crate-type` at least once. The other options may occur with their values. Settings
/// in one argument, such as `--edition=2021`, may occur. Exactly one more argument must occur: the
/// source.
///
/// Errors: `OutOfMemory`, and `Bad` for any other arguments. By our own choice, `Bad` includes an
/// output folder that is not an absolute path, and a crate name that is not a file name.
pub(crate) fn command_line_of(
    alloc: Global,
    words: &[Text],
) -> Result<CommandLine, CommandLineFault>
    ensures { UnlessOom fault.OutOfMemory (λ line. line) result (command_line_of words.now) }
{
    let said = arguments_of(alloc, words)?;
    let settled = settled_by(alloc, &said)?;
    Ok(CommandLine {
        crate_type: settled.crate_type,
        crate_name: settled.crate_name,
        image: settled.image,
        dep_info: settled.dep_info,
        out_dir: settled.out_dir,
        source: settled.source,
        externs: said.externs,
        conditions: said.conditions,
    })
}
