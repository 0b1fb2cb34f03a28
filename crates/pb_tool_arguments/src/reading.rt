//! Reads a command line: returns what its words request.

ghost use Rattle.std.specs.Prelude.{◌≡◌, Ok, IfOk, IfErr, Some, [], codes, map, unwrap_or};
ghost use Rattle.clap.specs.Matches.{found_of};
ghost use Rattle.clap.specs.Walk.{rows_of, first_of};
ghost use Rattle.clap.specs.Simple.{subcommand_of, subcommand_rows_of};
ghost use Rattle.pb_directive.specs.Directives.{words_of};
ghost use Rattle.pb_place_types.specs.Paths.{joined};
ghost use Rattle.pb_tool_arguments.specs.Description.{AreChoices, Choices, program};
ghost use Rattle.pb_tool_arguments.specs.Asking.{IsFlag, IsProfile, IsJobs, IsOptions, IsShown, ShowsProgress, ShowsCounts, IsColored, IsForm, HasTwoForms, NamesProfile, IsTaken, BuildsWrongly, PlansWrongly, AsksBy, Requests, AsksWrongly, Unasks, manifest_of, values_of, tool_of, forms_told};
ghost use Rattle.pb_tool_arguments.specs.Private.{ToldWrong, RefusedBy};

use crate::description::program;
use crate::here::Here;
use crate::invocation::{
    ArgumentsError, Invocation, PlanForm, Shown, no_command, two_forms, unasked_of,
};
use crate::values::{
    first, first_or, is_given, jobs_of, path_of, profile_of, split_words, value_of, values_of,
};
use clap::ArgMatches;
use pb_data::{Items, Text, with_next};
use pb_place_types::PathText;
use pb_workspace_types::Options;
use std::alloc::{AllocError, Global};
use std::convert::AsStr;

/// The options of a build whose values may be wrong.
#[derive(Drop)]
struct Judged {
    manifest: PathText,
    profile: Text,
    jobs: u64,
}

/// The packages, features and binaries that a command line names, any number of each.
#[derive(Drop)]
struct Named {
    packages: Items<Text>,
    features: Items<Text>,
    bin: Items<Text>,
}

/// The target folder, the program that runs the build scripts, and the value that children see as
/// `CARGO`.
#[derive(Drop)]
struct Tools {
    target_dir: Option<Text>,
    runner: Items<Text>,
    tool: Text,
}

/// Which of the options without a value were given.
#[derive(Clone, Copy)]
struct Flags {
    workspace: bool,
    all_features: bool,
    no_default_features: bool,
    lib: bool,
    bins: bool,
}

/// Returns the options of a build whose values may be wrong. A relative path of the manifest starts
/// at the current folder.
fn judged_of(alloc: Global, here: &Here, matches: &ArgMatches<'_>) -> Result<Judged, ArgumentsError>
    ensures manifest { IfOk result (λ judged.
        joined here.now.folder (manifest_of (rows_of (found_of matches.now)))
        ≡ Ok judged.manifest) }
    ensures profile { IfOk result (λ judged.
        IsProfile (rows_of (found_of matches.now)) judged.profile) }
    ensures jobs { IfOk result (λ judged.
        IsJobs here.now.processors
        (first_of (codes "jobs") (rows_of (found_of matches.now))) judged.jobs) }
    ensures wrong { IfErr result
        (ToldWrong (BuildsWrongly here.now.folder (rows_of (found_of matches.now)))) }
{
    let manifest = path_of(
        alloc,
        &here.folder,
        first_or(matches, "manifest-path", "Cargo.toml"),
    )?;
    let profile = profile_of(alloc, matches)?;
    let jobs = jobs_of(alloc, here.processors, matches)?;
    Ok(Judged {
        manifest,
        profile,
        jobs,
    })
}

/// Returns the packages, features and binaries that the words of a command line name.
fn named_of(alloc: Global, matches: &ArgMatches<'_>) -> Result<Named, AllocError>
    ensures packages { IfOk result (λ named. named.packages
        ≡ values_of (codes "package") (rows_of (found_of matches.now))) }
    ensures features { IfOk result (λ named. named.features
        ≡ values_of (codes "features") (rows_of (found_of matches.now))) }
    ensures bin { IfOk result (λ named. named.bin
        ≡ values_of (codes "bin") (rows_of (found_of matches.now))) }
{
    let packages = values_of(alloc, matches, "package")?;
    let features = values_of(alloc, matches, "features")?;
    let bin = values_of(alloc, matches, "bin")?;
    Ok(Named {
        packages,
        features,
        bin,
    })
}

/// Returns the value that children see as `CARGO`: the text of `--tool`, else the word with which
/// the builder was called.
fn told_tool(alloc: Global, tool: &str, matches: &ArgMatches<'_>) -> Result<Text, AllocError>
    ensures { IfOk result (λ told. told
        ≡ unwrap_or (first_of (codes "tool") (rows_of (found_of matches.now))) tool.now) }
{
    match value_of(alloc, matches, "tool")? {
        Some(told) => Ok(told),
        None => Text::from_str(alloc, tool),
    }
}

/// Returns the target folder and the programs that a build starts.
fn tools_of(alloc: Global, tool: &str, matches: &ArgMatches<'_>) -> Result<Tools, AllocError>
    ensures target_dir { IfOk result (λ tools. tools.target_dir
        ≡ first_of (codes "target-dir") (rows_of (found_of matches.now))) }
    ensures runner { IfOk result (λ tools. tools.runner
        ≡ words_of (unwrap_or (first_of (codes "runner") (rows_of (found_of matches.now))) [])) }
    ensures tool { IfOk result (λ tools. tools.tool
        ≡ unwrap_or (first_of (codes "tool") (rows_of (found_of matches.now))) tool.now) }
{
    let target_dir = value_of(alloc, matches, "target-dir")?;
    let runner = split_words(alloc, first_or(matches, "runner", ""))?;
    let tool = told_tool(alloc, tool, matches)?;
    Ok(Tools {
        target_dir,
        runner,
        tool,
    })
}

/// Returns which of the options without a value were given.
fn flags_of(matches: &ArgMatches<'_>) -> Flags
    ensures workspace { IsFlag (codes "workspace")
        (rows_of (found_of matches.now)) result.workspace }
    ensures all_features { IsFlag (codes "all-features")
        (rows_of (found_of matches.now)) result.all_features }
    ensures no_default_features { IsFlag (codes "no-default-features")
        (rows_of (found_of matches.now)) result.no_default_features }
    ensures lib { IsFlag (codes "lib") (rows_of (found_of matches.now)) result.lib }
    ensures bins { IsFlag (codes "bins") (rows_of (found_of matches.now)) result.bins }
{
    Flags {
        workspace: is_given(matches, "workspace"),
        all_features: is_given(matches, "all-features"),
        no_default_features: is_given(matches, "no-default-features"),
        lib: is_given(matches, "lib"),
        bins: is_given(matches, "bins"),
    }
}

/// Returns the options that consist of these parts.
fn joined_of(judged: Judged, named: Named, tools: Tools, flags: Flags) -> Options
    ensures { result ≡ record {
      manifest = judged.manifest;
      packages = named.packages;
      workspace = flags.workspace;
      features = named.features;
      all_features = flags.all_features;
      no_default_features = flags.no_default_features;
      profile = judged.profile;
      lib = flags.lib;
      bins = flags.bins;
      bin = named.bin;
      target_dir = tools.target_dir;
      runner = tools.runner;
      tool = tools.tool;
      jobs = judged.jobs;
    } }
{
    Options {
        manifest: judged.manifest,
        packages: named.packages,
        workspace: flags.workspace,
        features: named.features,
        all_features: flags.all_features,
        no_default_features: flags.no_default_features,
        profile: judged.profile,
        lib: flags.lib,
        bins: flags.bins,
        bin: named.bin,
        target_dir: tools.target_dir,
        runner: tools.runner,
        tool: tools.tool,
        jobs: judged.jobs,
    }
}

/// Returns what `pb_tool build` requests. A relative path of the manifest starts at the current
/// folder.
fn options_of(
    alloc: Global,
    tool: &str,
    here: &Here,
    matches: &ArgMatches<'_>,
) -> Result<Options, ArgumentsError>
    ensures options { IfOk result (IsOptions tool.now here.now (rows_of (found_of matches.now))) }
    ensures wrong { IfErr result
        (ToldWrong (BuildsWrongly here.now.folder (rows_of (found_of matches.now)))) }
{
    let judged = judged_of(alloc, here, matches)?;
    let named = named_of(alloc, matches);
    let (judged, named) = with_next(judged, named)?;
    let tools = tools_of(alloc, tool, matches);
    let ((judged, named), tools) = with_next((judged, named), tools)?;
    Ok(joined_of(judged, named, tools, flags_of(matches)))
}

/// Returns whether a build has a status line.
fn progress_of(here: &Here, matches: &ArgMatches<'_>) -> bool
    ensures { ShowsProgress here.now (rows_of (found_of matches.now)) result }
{
    let asked = is_given(matches, "progress");
    let quiet = is_given(matches, "quiet");
    (here.is_terminal || asked) && !quiet
}

/// Returns whether counts come at the end of a build.
fn counts_of(here: &Here, matches: &ArgMatches<'_>) -> bool
    ensures { ShowsCounts here.now (rows_of (found_of matches.now)) result }
{
    let quiet = is_given(matches, "quiet");
    here.is_terminal && !quiet
}

/// Returns whether levels have colours on standard error. `--color` decides this; without
/// `--color`, `here` decides it.
fn colors_of(here: &Here, matches: &ArgMatches<'_>) -> bool
    ensures { IsColored here.now.shows_colors
        (first_of (codes "color") (rows_of (found_of matches.now))) result }
{
    match first(matches, "color") {
        Some("always") => true,
        Some("never") => false,
        _ => here.shows_colors,
    }
}

/// Returns what is shown of a build besides its message lines.
fn shown_of(here: &Here, matches: &ArgMatches<'_>) -> Shown
    ensures { IsShown here.now (rows_of (found_of matches.now)) result }
{
    Shown {
        explain: is_given(matches, "explain"),
        render: is_given(matches, "render"),
        verbose: is_given(matches, "verbose"),
        progress: progress_of(here, matches),
        counts: counts_of(here, matches),
        colors: colors_of(here, matches),
    }
}

/// Returns what `pb_tool build` requests: a build, or a look at what a build would start.
fn build_of(
    alloc: Global,
    tool: &str,
    here: &Here,
    matches: &ArgMatches<'_>,
) -> Result<Invocation, ArgumentsError>
    ensures asked { IfOk result
        (AsksBy tool.now here.now (Some (codes "build", rows_of (found_of matches.now)))) }
    ensures wrong { IfErr result
        (ToldWrong (BuildsWrongly here.now.folder (rows_of (found_of matches.now)))) }
{
    let options = match options_of(alloc, tool, here, matches) {
        Ok(options) => options,
        Err(unasked) => return Err(unasked),
    };
    if is_given(matches, "dry-run") {
        return Ok(Invocation::Preview(options));
    }
    Ok(Invocation::Build {
        options,
        shown: shown_of(here, matches),
    })
}

/// Returns the form in which a plan is printed.
///
/// Errors: `Wrong`, if two forms are given.
fn form_of(alloc: Global, matches: &ArgMatches<'_>) -> Result<PlanForm, ArgumentsError>
    ensures form { IfOk result (IsForm (rows_of (found_of matches.now))) }
    ensures wrong { IfErr result
        (ToldWrong (λ told. HasTwoForms (rows_of (found_of matches.now)) × (told ≡ forms_told))) }
{
    let json = is_given(matches, "json");
    let dot = is_given(matches, "dot");
    match (json, dot) {
        (true, true) => Err(two_forms(alloc)),
        (true, false) => Ok(PlanForm::Json),
        (false, true) => Ok(PlanForm::Dot),
        (false, false) => Ok(PlanForm::Lines),
    }
}

/// Returns what `pb_tool plan` requests.
fn plan_of(
    alloc: Global,
    tool: &str,
    here: &Here,
    matches: &ArgMatches<'_>,
) -> Result<Invocation, ArgumentsError>
    ensures asked { IfOk result
        (AsksBy tool.now here.now (Some (codes "plan", rows_of (found_of matches.now)))) }
    ensures wrong { IfErr result
        (ToldWrong (PlansWrongly here.now.folder (rows_of (found_of matches.now)))) }
{
    let form = match form_of(alloc, matches) {
        Ok(form) => form,
        Err(unasked) => return Err(unasked),
    };
    match options_of(alloc, tool, here, matches) {
        Ok(options) => Ok(Invocation::Plan { options, form }),
        Err(unasked) => Err(unasked),
    }
}

/// Returns whether a profile was given.
fn names_profile(matches: &ArgMatches<'_>) -> bool
    ensures { NamesProfile (rows_of (found_of matches.now)) result }
{
    is_given(matches, "release") || first(matches, "profile").is_some()
}

/// Returns what `pb_tool clean` requests.
fn clean_of(
    alloc: Global,
    tool: &str,
    here: &Here,
    matches: &ArgMatches<'_>,
) -> Result<Invocation, ArgumentsError>
    ensures asked { IfOk result
        (AsksBy tool.now here.now (Some (codes "clean", rows_of (found_of matches.now)))) }
    ensures wrong { IfErr result
        (ToldWrong (BuildsWrongly here.now.folder (rows_of (found_of matches.now)))) }
{
    match options_of(alloc, tool, here, matches) {
        Ok(options) => Ok(Invocation::Clean {
            options,
            one_profile: names_profile(matches),
        }),
        Err(unasked) => Err(unasked),
    }
}

/// Returns what the subcommand requests. A relative path of a session's file starts at the current
/// folder.
fn asked_by(
    alloc: Global,
    tool: &str,
    here: &Here,
    matches: &ArgMatches<'_>,
) -> Result<Invocation, ArgumentsError>
    ensures asked { IfOk result (AsksBy tool.now here.now (subcommand_rows_of matches.now)) }
    ensures wrong { IfErr result
        (ToldWrong (AsksWrongly here.now.folder (subcommand_rows_of matches.now))) }
{
    if let Some(build) = matches.subcommand_matches("build") {
        return build_of(alloc, tool, here, build);
    }
    if let Some(plan) = matches.subcommand_matches("plan") {
        return plan_of(alloc, tool, here, plan);
    }
    if let Some(clean) = matches.subcommand_matches("clean") {
        return clean_of(alloc, tool, here, clean);
    }
    if let Some(explain) = matches.subcommand_matches("explain") {
        return match Text::from_str(alloc, first_or(explain, "NAME", "")) {
            Ok(name) => Ok(Invocation::Explain(name)),
            Err(_) => Err(ArgumentsError::OutOfMemory),
        };
    }
    match matches.subcommand_matches("session") {
        Some(session) => match path_of(alloc, &here.folder, first_or(session, "FILE", "")) {
            Ok(path) => Ok(Invocation::Session(path)),
            Err(unasked) => Err(unasked),
        },
        None => Err(no_command(alloc)),
    }
}

/// Returns what the words contain, according to the description of the command line. If the
/// description does not accept the words, returns why.
fn matches_of<'a, S: AsStr>(alloc: Global, words: &'a [S]) -> Result<ArgMatches<'a>, ArgumentsError>
    ensures matches { IfOk result (λ matches. (choices : Choices) × AreChoices choices
        × IsTaken choices (map S.text words.now)
        × (subcommand_rows_of matches ≡ subcommand_of (program choices) (map S.text words.now))) }
    ensures refused { IfErr result (RefusedBy (map S.text words.now)) }
{
    let program = program(alloc)?;
    match program.try_get_matches_from(words) {
        Ok(matches) => Ok(matches),
        Err(error) => Err(unasked_of(alloc, &error)),
    }
}

/// Returns the first word, or an empty text if there is no word.
fn tool_of<S: AsStr>(words: &[S]) -> &str
    ensures { result.now ≡ tool_of (map S.text words.now) }
{
    match words.first() {
        Some(word) => word.as_str(),
        None => "",
    }
}

/// Returns what a command line requests. The words are the words of the whole command line, with
/// the program's own name first.
///
/// Errors:
///
/// - `Help`, if help or the version is requested, or if there are no words.
/// - `Wrong`, with its text, if the words are not a command line, two profiles are given, `--jobs`
///   is wrong, or a path has byte 0.
/// - `OutOfMemory`.
pub fn read_command_line<S: AsStr>(
    alloc: Global,
    words: &[S],
    here: &Here,
) -> Result<Invocation, ArgumentsError>
    ensures asked { IfOk result (Requests (map S.text words.now) here.now) }
    ensures unasked { IfErr result (Unasks (map S.text words.now) here.now.folder) }
{
    match matches_of(alloc, words) {
        Ok(matches) => asked_by(alloc, tool_of(words), here, &matches),
        Err(unasked) => Err(unasked),
    }
}
