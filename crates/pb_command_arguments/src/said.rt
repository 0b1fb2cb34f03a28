//! The arguments of a compile that build scripts have requested.

ghost use Rattle.std.specs.Prelude.{◌≡◌, ◌++◌, OnOk};
ghost use Rattle.std.specs.List.{flat_map};
ghost use Rattle.pb_command_types.specs.Targets.{said_at};
ghost use Rattle.pb_command_arguments.specs.Said.{search_word, link_word, condition_word, check_word, argument_word, binaries_word, binary_word, searched_words, search_words, condition_words, argument_words, binary_link_words, own_words, said_words};

use crate::settings::push_setting;
use crate::words::push_option;
use pb_command_types::{Project, own_said, said_at};
use pb_data::{Items, Text};
use pb_directive::{Directive, Directives};
use pb_unit::{Planned, What};
use pb_workspace_types::{Library, Package};
use std::alloc::{AllocError, Global};

/// Adds a directive's search folder, if the directive has a search folder.
fn push_search(
    alloc: Global,
    words: &mut Items<Text>,
    directive: &Directive,
) -> Result<(), AllocError>
    ensures { OnOk result (words.new ≡ words.old ++ search_word directive.now) }
{
    match directive {
        Directive::LinkSearch(folder) => push_option(alloc, words, "-L", folder.as_str()),
        _ => Ok(()),
    }
}

/// Adds the search folders for libraries.
fn push_searches(
    alloc: Global,
    words: &mut Items<Text>,
    said: &[Directive],
) -> Result<(), AllocError>
    ensures { OnOk result (words.new ≡ words.old ++ flat_map search_word said.now) }
{
    for directive in said {
        push_search(alloc, words, directive)?;
    }
    Ok(())
}

/// Adds a directive's library to link, if the directive has such a library.
fn push_link(
    alloc: Global,
    words: &mut Items<Text>,
    directive: &Directive,
) -> Result<(), AllocError>
    ensures { OnOk result (words.new ≡ words.old ++ link_word directive.now) }
{
    match directive {
        Directive::LinkLib(name) => push_option(alloc, words, "-l", name.as_str()),
        _ => Ok(()),
    }
}

/// Adds the libraries to link.
fn push_links(alloc: Global, words: &mut Items<Text>, said: &[Directive]) -> Result<(), AllocError>
    ensures { OnOk result (words.new ≡ words.old ++ flat_map link_word said.now) }
{
    for directive in said {
        push_link(alloc, words, directive)?;
    }
    Ok(())
}

/// Adds the condition that a directive turns on, if the directive turns on a condition.
fn push_condition(
    alloc: Global,
    words: &mut Items<Text>,
    directive: &Directive,
) -> Result<(), AllocError>
    ensures { OnOk result (words.new ≡ words.old ++ condition_word directive.now) }
{
    match directive {
        Directive::Cfg(condition) => push_option(alloc, words, "--cfg", condition.as_str()),
        _ => Ok(()),
    }
}

/// Adds the conditions that are on.
fn push_conditions(
    alloc: Global,
    words: &mut Items<Text>,
    said: &[Directive],
) -> Result<(), AllocError>
    ensures { OnOk result (words.new ≡ words.old ++ flat_map condition_word said.now) }
{
    for directive in said {
        push_condition(alloc, words, directive)?;
    }
    Ok(())
}

/// Adds a directive's expected conditions, if the directive has such conditions.
fn push_check(
    alloc: Global,
    words: &mut Items<Text>,
    directive: &Directive,
) -> Result<(), AllocError>
    ensures { OnOk result (words.new ≡ words.old ++ check_word directive.now) }
{
    match directive {
        Directive::CheckCfg(condition) => push_option(
            alloc,
            words,
            "--check-cfg",
            condition.as_str(),
        ),
        _ => Ok(()),
    }
}

/// Adds all expected conditions.
fn push_checks(alloc: Global, words: &mut Items<Text>, said: &[Directive]) -> Result<(), AllocError>
    ensures { OnOk result (words.new ≡ words.old ++ flat_map check_word said.now) }
{
    for directive in said {
        push_check(alloc, words, directive)?;
    }
    Ok(())
}

/// Adds a directive's linker flag for all targets, if the directive has such a flag.
fn push_argument(
    alloc: Global,
    words: &mut Items<Text>,
    directive: &Directive,
) -> Result<(), AllocError>
    ensures { OnOk result (words.new ≡ words.old ++ argument_word directive.now) }
{
    match directive {
        Directive::LinkArg(flag) => push_setting(alloc, words, "link-arg=", flag.as_str()),
        _ => Ok(()),
    }
}

/// Adds the linker flags for all targets.
fn push_arguments(
    alloc: Global,
    words: &mut Items<Text>,
    said: &[Directive],
) -> Result<(), AllocError>
    ensures { OnOk result (words.new ≡ words.old ++ flat_map argument_word said.now) }
{
    for directive in said {
        push_argument(alloc, words, directive)?;
    }
    Ok(())
}

/// Adds a directive's linker flag for all binaries, if the directive has such a flag.
fn push_binaries(
    alloc: Global,
    words: &mut Items<Text>,
    directive: &Directive,
) -> Result<(), AllocError>
    ensures { OnOk result (words.new ≡ words.old ++ binaries_word directive.now) }
{
    match directive {
        Directive::LinkArgBins(flag) => push_setting(alloc, words, "link-arg=", flag.as_str()),
        _ => Ok(()),
    }
}

/// Adds the linker flags for all binaries.
fn push_all_binaries(
    alloc: Global,
    words: &mut Items<Text>,
    said: &[Directive],
) -> Result<(), AllocError>
    ensures { OnOk result (words.new ≡ words.old ++ flat_map binaries_word said.now) }
{
    for directive in said {
        push_binaries(alloc, words, directive)?;
    }
    Ok(())
}

/// Adds a directive's linker flag for the binary of this name, if the directive has such a flag.
fn push_binary(
    alloc: Global,
    words: &mut Items<Text>,
    name: &Text,
    directive: &Directive,
) -> Result<(), AllocError>
    ensures { OnOk result (words.new ≡ words.old ++ binary_word name.now directive.now) }
{
    match directive {
        Directive::LinkArgBin(binary, flag) => {
            if *binary == *name {
                push_setting(alloc, words, "link-arg=", flag.as_str())?;
            }
            Ok(())
        }
        _ => Ok(()),
    }
}

/// Adds the linker flags for the binary of this name.
fn push_own_binary(
    alloc: Global,
    words: &mut Items<Text>,
    name: &Text,
    said: &[Directive],
) -> Result<(), AllocError>
    ensures { OnOk result (words.new ≡ words.old ++ flat_map (binary_word name.now) said.now) }
{
    for directive in said {
        push_binary(alloc, words, name, directive)?;
    }
    Ok(())
}

/// Adds the search folders of the run at an index.
fn push_searched(
    alloc: Global,
    words: &mut Items<Text>,
    done: &[Option<Directives>],
    index: usize,
) -> Result<(), AllocError>
    ensures { OnOk result (words.new ≡ words.old ++ searched_words done.now index) }
{
    push_searches(alloc, words, said_at(done, index))
}

/// Adds the search folders of the runs at some indices.
fn push_all_searched(
    alloc: Global,
    words: &mut Items<Text>,
    done: &[Option<Directives>],
    indices: &[usize],
) -> Result<(), AllocError>
    ensures { OnOk result (words.new ≡ words.old ++ flat_map (searched_words done.now) indices.now) }
{
    for index in indices {
        push_searched(alloc, words, done, *index)?;
    }
    Ok(())
}

/// Adds the conditions that are on, and then the expected conditions.
fn push_all_conditions(
    alloc: Global,
    words: &mut Items<Text>,
    said: &[Directive],
) -> Result<(), AllocError>
    ensures { OnOk result (words.new ≡ words.old ++ condition_words said.now) }
{
    push_conditions(alloc, words, said)?;
    push_checks(alloc, words, said)?;
    Ok(())
}

/// Adds the linker flags of a binary.
fn push_all_arguments(
    alloc: Global,
    words: &mut Items<Text>,
    name: &Text,
    said: &[Directive],
) -> Result<(), AllocError>
    ensures { OnOk result (words.new ≡ words.old ++ argument_words name.now said.now) }
{
    push_arguments(alloc, words, said)?;
    push_all_binaries(alloc, words, said)?;
    push_own_binary(alloc, words, name, said)?;
    Ok(())
}

/// Adds the libraries to link to a binary, if the binary's package has no library.
fn push_binary_links(
    alloc: Global,
    words: &mut Items<Text>,
    library: &Option<Library>,
    said: &[Directive],
) -> Result<(), AllocError>
    ensures { OnOk result (words.new ≡ words.old ++ binary_link_words library.now said.now) }
{
    if library.is_none() {
        push_links(alloc, words, said)?;
    }
    Ok(())
}

/// Adds the arguments that a library gets from the run of its package.
fn push_library_own(
    alloc: Global,
    words: &mut Items<Text>,
    said: &[Directive],
) -> Result<(), AllocError>
    ensures { OnOk result (words.new ≡ words.old ++ flat_map link_word said.now
        ++ condition_words said.now) }
{
    push_links(alloc, words, said)?;
    push_all_conditions(alloc, words, said)?;
    Ok(())
}

/// Adds the arguments that a binary gets from the run of its package.
fn push_binary_own(
    alloc: Global,
    words: &mut Items<Text>,
    name: &Text,
    library: &Option<Library>,
    said: &[Directive],
) -> Result<(), AllocError>
    ensures { OnOk result (words.new ≡ words.old ++ binary_link_words library.now said.now
        ++ condition_words said.now ++ argument_words name.now said.now) }
{
    push_binary_links(alloc, words, library, said)?;
    push_all_conditions(alloc, words, said)?;
    push_all_arguments(alloc, words, name, said)?;
    Ok(())
}

/// Adds the arguments that a unit gets from the run of its package.
fn push_own(
    alloc: Global,
    words: &mut Items<Text>,
    what: &What,
    library: &Option<Library>,
    said: &[Directive],
) -> Result<(), AllocError>
    ensures { OnOk result (words.new ≡ words.old ++ own_words what.now library.now said.now) }
{
    match what {
        What::Lib => push_library_own(alloc, words, said),
        What::Bin(name) => push_binary_own(alloc, words, name, library, said),
        _ => Ok(()),
    }
}

/// Adds the arguments that build scripts have requested (The Cargo Book, Build Scripts). `done`
/// contains the directives of the scripts' runs, by the index of each run in the plan.
///
/// Errors: only out of memory.
pub fn push_said(
    alloc: Global,
    words: &mut Items<Text>,
    project: &Project,
    unit: &Planned,
    done: &[Option<Directives>],
    owner: &Package,
) -> Result<(), AllocError>
    ensures { OnOk result (words.new ≡ words.old
        ++ said_words project.now unit.now done.now owner.now) }
{
    let said = own_said(project, unit, done);
    push_all_searched(alloc, words, done, unit.reaches.as_slice())?;
    push_own(alloc, words, &unit.unit.what, &owner.library, said)?;
    Ok(())
}
