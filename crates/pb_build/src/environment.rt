//! What the variables and the options say about a build, before any file is read.

ghost use Rattle.std.specs.Prelude.{◌≡◌, ◌∷◌, [], IfOk, IfErr, IsTrue, codes};
ghost use Rattle.std.specs.FinMap as finite;
ghost use Rattle.pb_place_types.specs.declared.call.Call.TheVariants as call;
ghost use Rattle.pb_place_types.specs.Paths.{below};
ghost use Rattle.pb_directive.specs.Directives.{words_of};
ghost use Rattle.pb_build.specs.Causes.{MayPlan, variables_asked, OnlyLooks};
ghost use Rattle.pb_build.specs.Environment.{set_text, rustc_of, flags_of, told_or, target_of, environment_of, environment_with};
ghost use Rattle.pb_build.specs.Private.{IsUnrefused};
ghost use Rattle.pb_run.specs.Steps.{MakesInTurn};

use pb_build_result::BuildFault;
use pb_data::{Items, Text, TryCopy};
use pb_directive::words::words_of;
use pb_place_types::{PathFault, PathText, Place, RelativePath};
use pb_run::device_fault;
use pb_workspace_types::Options;
use std::alloc::{AllocError, Global};

/// What the variables and the options say about a build.
#[derive(Drop)]
pub struct Environment {
    /// The compiler: `RUSTC`, or else `rustc` (The Cargo Book, Environment Variables).
    pub rustc: Text,
    /// The words of `RUSTFLAGS`, separated by spaces.
    pub flags: Items<Text>,
    /// The target folder: `--target-dir`, or else `CARGO_TARGET_DIR`, or else `target` in the root.
    /// A relative path starts at the root (our own choice).
    pub target: PathText,
}

/// Returns a text, if the text is present and not empty. An empty text counts as absent.
fn unless_empty(found: Option<Text>) -> Option<Text>
    ensures { result ≡ set_text found }
{
    match found {
        Some(text) => {
            if text.as_str().is_empty() {
                None
            } else {
                Some(text)
            }
        }
        None => None,
    }
}

/// Reads a variable by one call. An empty variable counts as absent (our own choice).
#[tactic(auto, using(pb_run::proofs::Calling::call_laws))]
fn variable<P: Place>(alloc: Global, place: &mut P, name: &str) -> Result<Option<Text>, BuildFault>
    ensures ok { IsTrue P.is_modelled
        → IfOk result
        (λ found. found ≡ set_text (finite.get (P.at place.old).world.variables name.now)) }
    ensures quiet { OnlyLooks MayPlan result (P.at place.old) (P.at place.new) }
    ensures unrefused { IfErr result IsUnrefused }
    ensures calls { MakesInTurn result (call.Variable name.now ∷ []) (P.at place.old).counts
        (P.at place.new).counts }
{
    let told = match Text::from_str(alloc, name) {
        Ok(told) => told,
        Err(_) => return Err(BuildFault::OutOfMemory),
    };
    match place.variable(alloc, name) {
        Ok(found) => Ok(unless_empty(found)),
        Err(fault) => Err(device_fault(told, fault)),
    }
}

/// Returns the compiler: `RUSTC`, or else `rustc`.
fn rustc_of(alloc: Global, found: Option<Text>) -> Result<Text, AllocError>
    ensures { IfOk result (λ text. text ≡ rustc_of found) }
{
    match found {
        Some(text) => Ok(text),
        None => Text::from_str(alloc, "rustc"),
    }
}

/// Returns the words of a text, separated by spaces.
fn words_in(alloc: Global, text: &str) -> Result<Items<Text>, AllocError>
    ensures { IfOk result (λ words. words ≡ words_of text.now) }
{
    let mut words = Items::new(alloc);
    for word in words_of(text) {
        words.push(Text::from_str(alloc, word)?)?;
    }
    Ok(words)
}

/// Returns the user's own arguments for the compiler: the words of `RUSTFLAGS`.
fn flags_of(alloc: Global, found: Option<Text>) -> Result<Items<Text>, AllocError>
    ensures { IfOk result (λ words. words ≡ flags_of found) }
{
    match found {
        Some(text) => words_in(alloc, text.as_str()),
        None => Ok(Items::new(alloc)),
    }
}

/// Returns the standard target folder: `target` in the root.
fn standard_target(alloc: Global, root: &PathText) -> Result<PathText, AllocError>
    ensures { IfOk result (λ path. path ≡ below root.now (codes "target")) }
{
    let name = RelativePath::name(alloc, "target")?;
    root.below(alloc, &name)
}

/// Returns the path that a text names. A relative text starts at the root. If there is no text, or
/// if the text contains byte 0, returns `other`.
fn told_or(
    alloc: Global,
    root: &PathText,
    other: PathText,
    text: &Option<Text>,
) -> Result<PathText, AllocError>
    ensures { IfOk result (λ path. path ≡ told_or root.now other text.now) }
{
    match text {
        None => Ok(other),
        Some(text) => match root.join(alloc, text.as_str()) {
            Ok(path) => Ok(path),
            Err(PathFault::OutOfMemory) => Err(AllocError),
            Err(_) => Ok(other),
        },
    }
}

/// Returns the target folder.
fn target_of(
    alloc: Global,
    root: &PathText,
    asked: &Option<Text>,
    variable: &Option<Text>,
) -> Result<PathText, AllocError>
    ensures { IfOk result (λ path. path ≡ target_of root.now asked.now variable.now) }
{
    let standard = standard_target(alloc, root)?;
    let other = told_or(alloc, root, standard, variable)?;
    told_or(alloc, root, other, asked)
}

/// Returns what the given variables and the options say.
fn environment_with(
    alloc: Global,
    options: &Options,
    rustc: Option<Text>,
    flags: Option<Text>,
    target: Option<Text>,
) -> Result<Environment, AllocError>
    ensures { IfOk result
        (λ environment. environment ≡ environment_with options.now rustc flags target) }
{
    let root = options.manifest.folder(alloc)?;
    let target = target_of(alloc, &root, &options.target_dir, &target)?;
    let rustc = rustc_of(alloc, rustc)?;
    let flags = flags_of(alloc, flags)?;
    Ok(Environment {
        rustc,
        flags,
        target,
    })
}

/// Returns what the variables and the options say. `RUSTC` is read first, then `RUSTFLAGS`, then
/// `CARGO_TARGET_DIR`.
///
/// Errors: `Device`, with the variable's name; `OutOfMemory`.
pub(crate) fn environment_of<P: Place>(
    alloc: Global,
    place: &mut P,
    options: &Options,
) -> Result<Environment, BuildFault>
    ensures ok { IsTrue P.is_modelled
        → IfOk result
        (λ environment.
        environment ≡ environment_of options.now (P.at place.old).world.variables) }
    ensures quiet { OnlyLooks MayPlan result (P.at place.old) (P.at place.new) }
    ensures unrefused { IfErr result IsUnrefused }
    ensures calls { MakesInTurn result variables_asked (P.at place.old).counts
        (P.at place.new).counts }
{
    let rustc = match variable(alloc, place, "RUSTC") {
        Ok(rustc) => rustc,
        Err(fault) => return Err(fault),
    };
    let flags = match variable(alloc, place, "RUSTFLAGS") {
        Ok(flags) => flags,
        Err(fault) => return Err(fault),
    };
    let target = match variable(alloc, place, "CARGO_TARGET_DIR") {
        Ok(target) => target,
        Err(fault) => return Err(fault),
    };
    match environment_with(alloc, options, rustc, flags, target) {
        Ok(environment) => Ok(environment),
        Err(_) => Err(BuildFault::OutOfMemory),
    }
}
