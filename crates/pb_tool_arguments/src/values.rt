//! The values of options.

ghost use Rattle.std.specs.Prelude.{◌≡◌, ℕ, Ok, Err, IfOk, IfErr, MatchOption, codes, map, option_map, unwrap_or};
ghost use Rattle.clap.specs.Matches.{found_of};
ghost use Rattle.clap.specs.Walk.{rows_of, first_of};
ghost use Rattle.pb_directive.specs.Directives.{words_of};
ghost use Rattle.pb_place_types.specs.Paths.{joined};
ghost use Rattle.pb_place_types.specs.declared.path.PathFault.{PathFault};
ghost use Rattle.pb_tool_arguments.specs.Asking.{IsFlag, HasTwoProfiles, IsProfile, IsNumber, IsJobs, HasBadJobs, values_of, path_told, profiles_told, jobs_told};
ghost use Rattle.pb_tool_arguments.specs.Private.{ToldWrong};

use crate::invocation::{ArgumentsError, bad_jobs, bad_path, two_profiles};
use clap::ArgMatches;
use pb_data::{Items, Text};
use pb_directive::words::words_of;
use pb_place_types::PathText;
use std::alloc::{AllocError, Global};

/// Returns whether an option without a value was given.
pub(crate) fn is_given(matches: &ArgMatches<'_>, name: &str) -> bool
    ensures { IsFlag name.now (rows_of (found_of matches.now)) result }
{
    matches.get_flag(name)
}

/// Returns the first value of an option, if the option was given.
pub(crate) fn first<'m>(matches: &ArgMatches<'m>, name: &str) -> Option<&'m str>
    ensures { option_map (λ text. text.now) result
        ≡ first_of name.now (rows_of (found_of matches.now)) }
{
    matches.get_str(name)
}

/// Returns the first value of an option, or another text if the option was not given.
pub(crate) fn first_or<'m>(matches: &ArgMatches<'m>, name: &str, other: &'m str) -> &'m str
    ensures { result.now ≡ unwrap_or
        (first_of name.now (rows_of (found_of matches.now))) other.now }
{
    match first(matches, name) {
        Some(text) => text,
        None => other,
    }
}

/// Returns copies of texts, in order.
fn copies(alloc: Global, texts: &[&str]) -> Result<Items<Text>, AllocError>
    ensures { IfOk result (λ copies. copies ≡ map (λ text. text.now) texts.now) }
{
    let mut copies = Items::new(alloc);
    for text in texts {
        copies.push(Text::from_str(alloc, *text)?)?;
    }
    Ok(copies)
}

/// Returns the values of an option, in order.
pub(crate) fn values_of(
    alloc: Global,
    matches: &ArgMatches<'_>,
    name: &str,
) -> Result<Items<Text>, AllocError>
    ensures { IfOk result (λ values. values ≡ values_of name.now (rows_of (found_of matches.now))) }
{
    match matches.get_strs(name) {
        Some(values) => copies(alloc, values),
        None => Ok(Items::new(alloc)),
    }
}

/// Returns the value of an option, if the option was given.
pub(crate) fn value_of(
    alloc: Global,
    matches: &ArgMatches<'_>,
    name: &str,
) -> Result<Option<Text>, AllocError>
    ensures { IfOk result (λ value. value ≡ first_of name.now (rows_of (found_of matches.now))) }
{
    match first(matches, name) {
        None => Ok(None),
        Some(value) => Ok(Some(Text::from_str(alloc, value)?)),
    }
}

/// Returns the profile: `release` for `--release`, else what `--profile` says, else `dev`.
///
/// Errors: `Wrong`, if both are given.
pub(crate) fn profile_of(alloc: Global, matches: &ArgMatches<'_>) -> Result<Text, ArgumentsError>
    ensures profile { IfOk result (IsProfile (rows_of (found_of matches.now))) }
    ensures wrong { IfErr result (ToldWrong (λ told. HasTwoProfiles (rows_of (found_of matches.now))
        × (told ≡ profiles_told))) }
{
    let release = is_given(matches, "release");
    match first(matches, "profile") {
        Some(profile) => {
            if release {
                return Err(two_profiles(alloc));
            }
            Ok(Text::from_str(alloc, profile)?)
        }
        None => Ok(Text::from_str(alloc, if release { "release" } else { "dev" })?),
    }
}

/// Returns the number that a text of digits represents. Returns `None` if the text has a character
/// that is not a digit, or if the number is too great.
fn number_in(text: &str) -> Option<u64>
    ensures { MatchOption result ((n : ℕ) → ¬ IsNumber text.now n) (IsNumber text.now) }
{
    if text.starts_with('+') {
        return None;
    }
    text.parse::<u64>().ok()
}

/// Returns the value of `--jobs`: the given number, or the number of processors for `default`.
/// Without the option, the value is 1.
///
/// Errors: `Wrong`, if the value is neither a number nor `default`.
pub(crate) fn jobs_of(
    alloc: Global,
    processors: u64,
    matches: &ArgMatches<'_>,
) -> Result<u64, ArgumentsError>
    ensures jobs { IfOk result
        (IsJobs processors (first_of (codes "jobs") (rows_of (found_of matches.now)))) }
    ensures wrong { IfErr result (ToldWrong (λ told. HasBadJobs (rows_of (found_of matches.now))
        × (told ≡ jobs_told))) }
{
    match first(matches, "jobs") {
        None => Ok(1),
        Some("default") => Ok(processors),
        Some(text) => match number_in(text) {
            Some(jobs) => Ok(jobs),
            None => Err(bad_jobs(alloc)),
        },
    }
}

/// Returns the words of a text, separated by spaces.
pub(crate) fn split_words(alloc: Global, text: &str) -> Result<Items<Text>, AllocError>
    ensures { IfOk result (λ words. words ≡ words_of text.now) }
{
    let mut words = Items::new(alloc);
    for word in words_of(text) {
        words.push(Text::from_str(alloc, word)?)?;
    }
    Ok(words)
}

/// Returns the path that a text of the command line means. A relative path starts at the folder.
pub(crate) fn path_of(
    alloc: Global,
    folder: &PathText,
    text: &str,
) -> Result<PathText, ArgumentsError>
    ensures path { IfOk result (λ path. joined folder.now text.now ≡ Ok path) }
    ensures wrong { IfErr result (ToldWrong (λ told. (fault : PathFault)
        × (joined folder.now text.now ≡ Err fault) × (told ≡ path_told))) }
{
    match folder.join(alloc, text) {
        Ok(path) => Ok(path),
        Err(fault) => Err(bad_path(alloc, fault)),
    }
}
