//! Reads the options of a build in a session file.

ghost use Rattle.std.specs.Prelude.{◌≡◌, ◌||◌, ◌∷◌, [], IfOk, codes};
ghost use Rattle.std.specs.Str.{bytes_eq};
ghost use Rattle.serde_json.specs.Find.{get};
ghost use Rattle.serde_json.specs.View.{view, items_view, members_view};
ghost use Rattle.pb_build_session.specs.Faults.{UnlessOom};
ghost use Rattle.pb_build_session.specs.Options.{are_known, is_known, texts_in, texts_of, truth_of, texts_or_none, truth_or_false, text_or, number_or, manifest_or_default, texts_at, truth_at, options_in, options_of, pick_of, pick_or_first};
ghost use Rattle.pb_build_session.specs.Private.{asked_in, featured_in, targeted_in, joined};

use crate::fault::BadSession;
use crate::pick::{PickBy, pick_named};
use crate::value::{array_of, number_of, path_in, path_of, text_of};
use pb_data::{Items, Text, with_next};
use pb_place_types::PathText;
use pb_workspace_types::Options;
use serde_json::{Map, Value};
use std::alloc::{AllocError, Global};

/// Returns whether a key is about the packages of a build.
fn is_of_packages(name: &str) -> bool
    ensures { result ≡ (bytes_eq name.now (codes "manifest") || bytes_eq name.now (codes "packages")
        || bytes_eq name.now (codes "workspace")) }
{
    name == "manifest" || name == "packages" || name == "workspace"
}

/// Returns whether a key is about the features and the profile.
fn is_of_features(name: &str) -> bool
    ensures { result ≡ (bytes_eq name.now (codes "features")
        || bytes_eq name.now (codes "all_features")
        || bytes_eq name.now (codes "no_default_features") || bytes_eq name.now (codes "profile")) }
{
    name == "features"
        || name == "all_features"
        || name == "no_default_features"
        || name == "profile"
}

/// Returns whether a key is about the targets, and how they are built.
fn is_of_targets(name: &str) -> bool
    ensures { result ≡ (bytes_eq name.now (codes "lib") || bytes_eq name.now (codes "bins")
        || bytes_eq name.now (codes "bin") || bytes_eq name.now (codes "pick")
        || bytes_eq name.now (codes "jobs")) }
{
    name == "lib" || name == "bins" || name == "bin" || name == "pick" || name == "jobs"
}

/// Returns whether a key is a known key of the options of a build.
fn is_known(name: &str) -> bool
    ensures { result ≡ is_known name.now }
{
    is_of_packages(name) || is_of_features(name) || is_of_targets(name)
}

/// Returns whether the options of a build have only known keys.
fn are_known(map: &Map<String, Value>) -> bool
    ensures { result ≡ are_known (members_view map.now.entries) }
{
    for (name, _) in map {
        if !is_known(name.as_str()) {
            return false;
        }
    }
    true
}

/// Returns the texts of a list.
fn texts_in(alloc: Global, values: &[Value]) -> Result<Items<Text>, BadSession>
    ensures { UnlessOom result (texts_in (items_view values.now)) }
{
    let mut texts = Items::new(alloc);
    for value in values {
        texts.push(text_of(alloc, value)?)?;
    }
    Ok(texts)
}

/// Returns a list of texts.
fn texts_of(alloc: Global, value: &Value) -> Result<Items<Text>, BadSession>
    ensures { UnlessOom result (texts_of (view value.now)) }
{
    let texts = texts_in(alloc, array_of(value)?)?;
    Ok(texts)
}

/// Returns the texts at a key, or none if the key is absent.
fn texts_at(alloc: Global, key: &str, value: &Value) -> Result<Items<Text>, BadSession>
    ensures { UnlessOom result (texts_at key.now (view value.now)) }
{
    match value.get(key) {
        None => Ok(Items::new(alloc)),
        Some(found) => texts_of(alloc, found),
    }
}

/// Returns a truth value.
fn truth_of(value: &Value) -> Result<bool, BadSession>
    ensures { UnlessOom result (truth_of (view value.now)) }
{
    match value.as_bool() {
        Some(truth) => Ok(truth),
        None => Err(BadSession::BadForm),
    }
}

/// Returns the truth value at a key, or false if the key is absent.
fn truth_at(key: &str, value: &Value) -> Result<bool, BadSession>
    ensures { UnlessOom result (truth_at key.now (view value.now)) }
{
    match value.get(key) {
        None => Ok(false),
        Some(found) => truth_of(found),
    }
}

/// Returns the name of the profile, or `dev` if the key `profile` is absent.
fn profile_of(alloc: Global, value: &Value) -> Result<Text, BadSession>
    ensures { UnlessOom result (text_or (codes "dev") (get (codes "profile") (view value.now))) }
{
    match value.get("profile") {
        None => {
            let text = Text::from_str(alloc, "dev")?;
            Ok(text)
        }
        Some(found) => text_of(alloc, found),
    }
}

/// Returns how many units may be in flight at a time, or 1 if the key `jobs` is absent.
fn jobs_of(value: &Value) -> Result<u64, BadSession>
    ensures { UnlessOom result (number_or 1 (get (codes "jobs") (view value.now))) }
{
    match value.get("jobs") {
        None => Ok(1),
        Some(found) => number_of(found),
    }
}

/// Returns the path of the root manifest, from the value of the key `manifest`.
fn manifest_of(alloc: Global, value: &Value) -> Result<PathText, BadSession>
    ensures { UnlessOom result (manifest_or_default (get (codes "manifest") (view value.now))) }
{
    match value.get("manifest") {
        None => path_in(alloc, "/w/Cargo.toml"),
        Some(found) => path_of(alloc, found),
    }
}

/// Returns the arguments before the path of a build script.
fn runner_words(alloc: Global) -> Result<Items<Text>, AllocError>
    ensures { IfOk result (λ words. words ≡ codes "mini" ∷ codes "--run" ∷ []) }
{
    let mut words = Items::new(alloc);
    words.push(Text::from_str(alloc, "mini")?)?;
    words.push(Text::from_str(alloc, "--run")?)?;
    Ok(words)
}

/// The packages of a build.
#[derive(Drop)]
struct OptionValues {
    manifest: PathText,
    packages: Items<Text>,
    workspace: bool,
}

/// The features and the profile of a build.
#[derive(Drop)]
struct Featured {
    features: Items<Text>,
    all_features: bool,
    no_default_features: bool,
    profile: Text,
}

/// The targets of a build, and how many units may be in flight.
#[derive(Drop)]
struct Targeted {
    lib: bool,
    bins: bool,
    bin: Items<Text>,
    jobs: u64,
}

/// The programs of a build: the program that runs the build scripts, and the builder itself.
#[derive(Drop)]
struct Tools {
    runner: Items<Text>,
    tool: Text,
}

/// Returns the packages of a build.
fn asked_in(alloc: Global, value: &Value) -> Result<OptionValues, BadSession>
    ensures { UnlessOom result (asked_in (view value.now)) }
{
    let manifest = manifest_of(alloc, value)?;
    let packages = texts_at(alloc, "packages", value)?;
    let workspace = truth_at("workspace", value)?;
    Ok(OptionValues {
        manifest,
        packages,
        workspace,
    })
}

/// Returns the features and the profile of a build.
fn featured_in(alloc: Global, value: &Value) -> Result<Featured, BadSession>
    ensures { UnlessOom result (featured_in (view value.now)) }
{
    let features = texts_at(alloc, "features", value)?;
    let all_features = truth_at("all_features", value)?;
    let no_default_features = truth_at("no_default_features", value)?;
    let profile = profile_of(alloc, value)?;
    Ok(Featured {
        features,
        all_features,
        no_default_features,
        profile,
    })
}

/// Returns the targets of a build, and how many units may be in flight.
fn targeted_in(alloc: Global, value: &Value) -> Result<Targeted, BadSession>
    ensures { UnlessOom result (targeted_in (view value.now)) }
{
    let lib = truth_at("lib", value)?;
    let bins = truth_at("bins", value)?;
    let bin = texts_at(alloc, "bin", value)?;
    let jobs = jobs_of(value)?;
    Ok(Targeted {
        lib,
        bins,
        bin,
        jobs,
    })
}

/// Returns the programs of a build.
fn default_tools(alloc: Global) -> Result<Tools, AllocError>
    ensures { IfOk result (λ tools. tools ≡ record {
      runner = codes "mini" ∷ codes "--run" ∷ [];
      tool = codes "cargo";
    }) }
{
    let runner = runner_words(alloc)?;
    let tool = Text::from_str(alloc, "cargo")?;
    Ok(Tools { runner, tool })
}

/// Returns the options that consist of these parts.
fn options_of_parts(
    asked: OptionValues,
    featured: Featured,
    targeted: Targeted,
    tools: Tools,
) -> Options
    ensures { result ≡ joined asked featured targeted tools }
{
    Options {
        manifest: asked.manifest,
        packages: asked.packages,
        workspace: asked.workspace,
        features: featured.features,
        all_features: featured.all_features,
        no_default_features: featured.no_default_features,
        profile: featured.profile,
        lib: targeted.lib,
        bins: targeted.bins,
        bin: targeted.bin,
        target_dir: None,
        runner: tools.runner,
        tool: tools.tool,
        jobs: targeted.jobs,
    }
}

/// Returns the options of a build, if their keys are known.
fn options_in(alloc: Global, value: &Value) -> Result<Options, BadSession>
    ensures { UnlessOom result (options_in (view value.now)) }
{
    let asked = asked_in(alloc, value)?;
    let featured = featured_in(alloc, value);
    let two = with_next(asked, featured)?;
    let targeted = targeted_in(alloc, value);
    let three = with_next(two, targeted)?;
    let tools = default_tools(alloc);
    let (((asked, featured), targeted), tools) = with_next(three, tools)?;
    Ok(options_of_parts(asked, featured, targeted, tools))
}

/// Returns the options of a build.
pub(crate) fn options_of(alloc: Global, value: &Value) -> Result<Options, BadSession>
    ensures { UnlessOom result (options_of (view value.now)) }
{
    let known = match value.as_object() {
        Some(map) => are_known(map),
        None => return Err(BadSession::BadForm),
    };
    if !known {
        return Err(BadSession::BadForm);
    }
    options_in(alloc, value)
}

/// Returns a choice among the units that may begin.
fn pick_of(value: &Value) -> Result<PickBy, BadSession>
    ensures { UnlessOom result (pick_of (view value.now)) }
{
    match value.as_str() {
        Some(name) => pick_named(name),
        None => Err(BadSession::BadForm),
    }
}

/// Returns the choice among the units that may begin. If the key `pick` is absent, the first unit
/// begins.
pub(crate) fn pick_in(value: &Value) -> Result<PickBy, BadSession>
    ensures { UnlessOom result (pick_or_first (get (codes "pick") (view value.now))) }
{
    match value.get("pick") {
        None => Ok(PickBy::First),
        Some(found) => pick_of(found),
    }
}
