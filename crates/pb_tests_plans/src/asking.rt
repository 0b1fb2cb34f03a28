//! Workspaces of tests, and what the tests request of them.

use pb_data::Text;
use pb_place::Memory;
use pb_tests_files::{Silent, Trial, no_options, put_files, try_cases, workspace_in};
use pb_workspace_types::{Options, SettledWorkspace};
use std::alloc::{AllocError, Global};
use std::process::Abort;
use std::test::Fail;

/// Returns the workspace of files that are put at a place, after the files of a first text.
fn workspace_at(
    alloc: Global,
    memory: &mut Memory<Silent>,
    first: &str,
    files: &str,
) -> Result<SettledWorkspace, Fail> {
    put_files(alloc, memory, first)?;
    put_files(alloc, memory, files)?;
    let workspace = workspace_in(alloc, memory)??;
    Ok(workspace)
}

/// Returns the workspace of these files, after the files of a first text.
pub fn workspace_of(alloc: Global, first: &str, files: &str) -> Result<SettledWorkspace, Fail> {
    let mut memory = Memory::new(alloc, Silent);
    let workspace = workspace_at(alloc, &mut memory, first, files);
    drop(memory);
    workspace
}

/// Adds what a word requests: `lib`, `bins`, `bin:NAME`, `workspace` or `*`, `all`, `no-default`,
/// or `f:TEXT` for the text of `--features`. Any other word is the name of a package, also after
/// `p:`. Words that begin with `@`, `!` or `-` request nothing here.
fn add_word(alloc: Global, options: &mut Options, word: &str) -> Result<(), AllocError> {
    match word {
        "lib" => options.lib = true,
        "bins" => options.bins = true,
        "*" | "workspace" => options.workspace = true,
        "all" => options.all_features = true,
        "no-default" => options.no_default_features = true,
        _ => return add_name(alloc, options, word),
    }
    Ok(())
}

/// Adds what a word requests, if the word contains a name.
fn add_name(alloc: Global, options: &mut Options, word: &str) -> Result<(), AllocError> {
    if let Some(name) = word.strip_prefix("bin:") {
        return options.bin.push(Text::from_str(alloc, name)?);
    }
    if let Some(text) = word.strip_prefix("f:") {
        return options.features.push(Text::from_str(alloc, text)?);
    }
    if word.starts_with("@") || word.starts_with("!") || word.starts_with("-") {
        return Ok(());
    }
    let name = word.strip_prefix("p:").unwrap_or(word);
    options.packages.push(Text::from_str(alloc, name)?)
}

/// Adds what words request. The words are separated by this text.
fn add_words(
    alloc: Global,
    options: &mut Options,
    words: &str,
    between: &str,
) -> Result<(), AllocError> {
    for word in words.split(between) {
        add_word(alloc, options, word)?;
    }
    Ok(())
}

/// Returns what words request. The words are separated by this text.
pub fn options_of(alloc: Global, words: &str, between: &str) -> Result<Options, Fail> {
    let mut options = no_options(alloc)?;
    match add_words(alloc, &mut options, words, between) {
        Ok(()) => Ok(options),
        Err(fault) => {
            drop(options);
            Err(Fail::from(fault))
        }
    }
}

/// Asserts each case of a table, and how many there are.
pub fn assert_cases<T: Trial>(
    rt: &impl Abort,
    alloc: Global,
    table: &str,
    trial: &T,
    count: usize,
) -> Result<(), Fail> {
    let tried = try_cases(alloc, table, trial)?;
    assert!(rt; tried.wrong.says(""), "{}", tried.wrong.as_str());
    assert_eq!(rt; tried.count, count);
    drop(tried);
    Ok(())
}
