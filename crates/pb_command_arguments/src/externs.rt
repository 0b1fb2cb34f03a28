//! The libraries of a compile: their folders, and the names under which the compiler gets them.

ghost use Rattle.std.specs.Prelude.{◌≡◌, ◌++◌, ◌∷◌, IfOk, OnOk, string_bytes};
ghost use Rattle.std.specs.List.{flat_map};
ghost use Rattle.pb_graph.specs.Placed.{placed};
ghost use Rattle.pb_command_types.specs.Targets.{library_file};
ghost use Rattle.pb_command_types.specs.NamedTexts.{all_set, in_order};
ghost use Rattle.pb_command_arguments.specs.Externs.{read_at, reads_of, folder_words, folder_words_at, dependency_words, leads, entry_name, extern, entry_extern, own_extern, externs, extern_key, extern_text, extern_word, extern_words, library_words};

use crate::words::{join_two, push_option};
use pb_command_types::{Project, is_library, library_file, library_name, unit_at};
use pb_data::{Items, Text, TryCopy};
use pb_manifest_types::crate_name;
use pb_place_types::{PathText, TextMap};
use pb_unit::{Planned, What};
use pb_workspace_types::{DependencyKind, Entry, Package};
use std::alloc::{AllocError, Global};

/// Adds the output folder of the unit at an index.
fn push_read(
    alloc: Global,
    reads: &mut Items<PathText>,
    project: &Project,
    index: usize,
) -> Result<(), AllocError>
    ensures { OnOk result (reads.new ≡ reads.old ++ read_at project.now index) }
{
    if let Some(unit) = unit_at(project, index) {
        reads.push(unit.out.copy(alloc)?)?;
    }
    Ok(())
}

/// Adds the output folders of the units at some indices.
fn push_reads(
    alloc: Global,
    reads: &mut Items<PathText>,
    project: &Project,
    indices: &[usize],
) -> Result<(), AllocError>
    ensures { OnOk result (reads.new ≡ reads.old ++ flat_map (read_at project.now) indices.now) }
{
    for index in indices {
        push_read(alloc, reads, project, *index)?;
    }
    Ok(())
}

/// Returns the output folders of all units that a unit reaches, in plan order: these are the
/// folders that the unit's child may read.
///
/// Errors: only out of memory.
pub fn reads_of(
    alloc: Global,
    project: &Project,
    unit: &Planned,
) -> Result<Items<PathText>, AllocError>
    ensures { IfOk result (λ reads. reads ≡ reads_of project.now unit.now) }
{
    let mut reads = Items::new(alloc);
    push_reads(alloc, &mut reads, project, unit.reaches.as_slice())?;
    Ok(reads)
}

/// Adds `-L` and a folder of libraries.
#[tactic(auto, unfolding(crate::specs::Externs::folder_words))]
fn push_folder(alloc: Global, words: &mut Items<Text>, folder: &str) -> Result<(), AllocError>
    ensures { OnOk result (words.new ≡ words.old ++ folder_words folder.now) }
{
    let text = join_two(alloc, "dependency=", folder)?;
    push_option(alloc, words, "-L", text.as_str())
}

/// Adds `-L` and the folder of the unit at an index, if the unit is a library.
fn push_folder_at(
    alloc: Global,
    words: &mut Items<Text>,
    project: &Project,
    index: usize,
) -> Result<(), AllocError>
    ensures { OnOk result (words.new ≡ words.old ++ folder_words_at project.now index) }
{
    match unit_at(project, index) {
        Some(unit) => {
            if is_library(&unit.unit.what) {
                push_folder(alloc, words, unit.out.as_str())?;
            }
            Ok(())
        }
        None => Ok(()),
    }
}

/// Adds `-L` and the folder of each library at some indices.
fn push_folders(
    alloc: Global,
    words: &mut Items<Text>,
    project: &Project,
    indices: &[usize],
) -> Result<(), AllocError>
    ensures { OnOk result (words.new ≡ words.old
        ++ flat_map (folder_words_at project.now) indices.now) }
{
    for index in indices {
        push_folder_at(alloc, words, project, *index)?;
    }
    Ok(())
}

/// Returns whether a unit needs the libraries of entries of this kind. `what` is what the unit
/// makes.
fn leads(what: &What, kind: DependencyKind) -> bool
    ensures { result ≡ leads what.now kind }
{
    match what {
        What::Lib => kind == DependencyKind::Normal,
        What::Bin(_) => kind == DependencyKind::Normal,
        What::Script => kind == DependencyKind::Build,
        What::Run => false,
    }
}

/// Returns the name of an entry's library in source code.
fn entry_name(alloc: Global, project: &Project, entry: &Entry) -> Result<Text, AllocError>
    ensures { IfOk result (λ name. name ≡ entry_name project.now entry.now) }
{
    if entry.renamed {
        crate_name(alloc, entry.key.as_str())
    } else {
        Text::from_str(alloc, library_name(project, entry.to))
    }
}

/// Returns the sort key of a library.
#[tactic(auto, unfolding(crate::specs::Externs::extern_key))]
fn extern_key(alloc: Global, name: &str, path: &str) -> Result<String, AllocError>
    ensures { IfOk result (λ key. string_bytes key ≡ extern_key name.now path.now) }
{
    let mut key = String::from_str(alloc, name)?;
    key.push_str("\0")?;
    key.push_str(path)?;
    Ok(key)
}

/// Returns a library as the compiler's argument.
#[tactic(auto, unfolding(crate::specs::Externs::extern_text))]
fn extern_text(alloc: Global, name: &str, path: &str) -> Result<String, AllocError>
    ensures { IfOk result (λ text. string_bytes text ≡ extern_text name.now path.now) }
{
    let mut text = String::from_str(alloc, name)?;
    text.push_str("=")?;
    text.push_str(path)?;
    Ok(text)
}

/// Inserts a library by its name and its file. If the unit needs no such library, inserts nothing.
fn put_extern(
    alloc: Global,
    all: &mut TextMap,
    name: &str,
    path: &Option<PathText>,
) -> Result<(), AllocError>
    ensures { OnOk result (all.new ≡ all_set all.old (extern name.now path.now)) }
{
    match path {
        Some(path) => {
            let key = extern_key(alloc, name, path.as_str())?;
            let text = extern_text(alloc, name, path.as_str())?;
            all.insert(alloc, key.as_str(), text.as_str())?;
            Ok(())
        }
        None => Ok(()),
    }
}

/// Inserts the library of an entry.
fn put_led(
    alloc: Global,
    all: &mut TextMap,
    project: &Project,
    unit: &Planned,
    entry: &Entry,
) -> Result<(), AllocError>
    ensures { OnOk result (all.new
        ≡ all_set all.old (extern (entry_name project.now entry.now)
        (library_file project.now unit.now entry.now.to))) }
{
    let name = entry_name(alloc, project, entry)?;
    let file = library_file(alloc, project, unit, entry.to)?;
    put_extern(alloc, all, name.as_str(), &file)
}

/// Inserts the library of an entry, if the entry is enabled and the unit needs its library.
fn put_entry(
    alloc: Global,
    all: &mut TextMap,
    project: &Project,
    unit: &Planned,
    index: usize,
    entry: &Entry,
) -> Result<(), AllocError>
    ensures { OnOk result (all.new
        ≡ all_set all.old (entry_extern project.now unit.now index entry.now)) }
{
    let owner = unit.unit.package;
    if project.features.enabled(owner, unit.unit.side, index)
        && leads(&unit.unit.what, entry.kind)
    {
        put_led(alloc, all, project, unit, entry)?;
    }
    Ok(())
}

/// Inserts the libraries of entries.
#[tactic(auto, using(pb_command_types::proofs::NamedTexts::set_laws))]
fn put_entries(
    alloc: Global,
    all: &mut TextMap,
    project: &Project,
    unit: &Planned,
    entries: &[Entry],
) -> Result<(), AllocError>
    ensures { OnOk result (all.new
        ≡ all_set all.old (placed (entry_extern project.now unit.now) 0 entries.now)) }
{
    for index in 0..entries.len() {
        put_entry(alloc, all, project, unit, index, &entries[index])?;
    }
    Ok(())
}

/// Inserts a binary's own library.
fn put_own(
    alloc: Global,
    all: &mut TextMap,
    project: &Project,
    unit: &Planned,
    what: &What,
) -> Result<(), AllocError>
    ensures { OnOk result (all.new ≡ all_set all.old (own_extern project.now unit.now what.now)) }
{
    match what {
        What::Bin(_) => {
            let owner = unit.unit.package;
            let file = library_file(alloc, project, unit, owner)?;
            put_extern(alloc, all, library_name(project, owner), &file)
        }
        _ => Ok(()),
    }
}

/// Returns the libraries of a compile, in order.
#[tactic(auto, using(pb_command_types::proofs::NamedTexts::set_laws))]
fn externs_of(
    alloc: Global,
    project: &Project,
    unit: &Planned,
    owner: &Package,
) -> Result<Items<(Text, Text)>, AllocError>
    ensures { IfOk result (λ made. made ≡ in_order (externs project.now unit.now owner.now)) }
{
    let mut all = TextMap::new(alloc);
    put_entries(alloc, &mut all, project, unit, owner.entries.as_slice())?;
    put_own(alloc, &mut all, project, unit, &unit.unit.what)?;
    all.into_pairs(alloc)
}

/// Adds `--extern` and a library.
fn push_extern(
    alloc: Global,
    words: &mut Items<Text>,
    made: &(Text, Text),
) -> Result<(), AllocError>
    ensures { OnOk result (words.new ≡ words.old ++ extern_word made.now) }
{
    push_option(alloc, words, "--extern", made.1.as_str())
}

/// Adds `--extern` and each library.
fn push_each_extern(
    alloc: Global,
    words: &mut Items<Text>,
    all: &[(Text, Text)],
) -> Result<(), AllocError>
    ensures { OnOk result (words.new ≡ words.old ++ flat_map extern_word all.now) }
{
    for made in all {
        push_extern(alloc, words, made)?;
    }
    Ok(())
}

/// Adds the libraries of a compile.
fn push_externs(
    alloc: Global,
    words: &mut Items<Text>,
    project: &Project,
    unit: &Planned,
    owner: &Package,
) -> Result<(), AllocError>
    ensures { OnOk result (words.new ≡ words.old ++ extern_words project.now unit.now owner.now) }
{
    let all = externs_of(alloc, project, unit, owner)?;
    push_each_extern(alloc, words, all.as_slice())
}

/// Adds the folders of libraries, and the libraries (The Cargo Book, Specifying Dependencies). For
/// each library that the unit reaches, `-L dependency=FOLDER` is added, in plan order. For the
/// library of each enabled entry, and for a binary's own library, `--extern NAME=FILE` is added.
/// Each of these libraries is added once, in byte order of the name and then of the file.
///
/// Errors: only out of memory.
pub fn push_libraries(
    alloc: Global,
    words: &mut Items<Text>,
    project: &Project,
    unit: &Planned,
    owner: &Package,
) -> Result<(), AllocError>
    ensures { OnOk result (words.new ≡ words.old ++ library_words project.now unit.now owner.now) }
{
    push_folders(alloc, words, project, unit.reaches.as_slice())?;
    push_externs(alloc, words, project, unit, owner)?;
    Ok(())
}
