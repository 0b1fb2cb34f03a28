//! The packages of a workspace that a build must build, and their features.

ghost use Rattle.std.specs.Prelude.{◌≡◌, ◌++◌, ◌==◌, IfOk, OnOk, map, filter};
ghost use Rattle.std.specs.List.{flat_map, list_any, slice_split};
ghost use Rattle.pb_data.specs.UnlessOom.{UnlessOom};
ghost use Rattle.pb_data.specs.OrderedSet.{is_mentioned};
ghost use Rattle.pb_workspace.specs.Selected.{indices_where, members_of, is_member_named, is_named_member, name_members, named_members, root_or_members, by_default, selected_packages, spaced_words, feature_words, selection_of, selected};
ghost use Rattle.pb_workspace_package.specs.Between.{is_word};
ghost use Rattle.pb_workspace_types.specs.declared.fault.LoadFault.TheVariants as load_fault;

use pb_data::{Items, Text, TryCopy};
use pb_workspace_types::{
    DefaultMembers, LoadFault, Options, Package, SelectedWorkspace, Selection, SettledWorkspace,
    Workspace,
};
use std::alloc::{AllocError, Global};

/// Returns the indices of all members.
fn members_of(alloc: Global, packages: &[Package]) -> Result<Items<usize>, AllocError>
    ensures { IfOk result (λ indices. indices ≡ members_of packages.now) }
{
    let mut indices = Items::new(alloc);
    for (index, found) in packages.iter().enumerate() {
        if found.is_member {
            indices.push(index)?;
        }
    }
    Ok(indices)
}

/// Returns whether a package is a member with this name.
fn is_member_named(name: &Text, found: &Package) -> bool
    ensures { result ≡ is_member_named name.now found.now }
{
    found.is_member && *name == found.name
}

/// Returns whether a name is one of these names.
fn is_mentioned(names: &[Text], name: &Text) -> bool
    ensures { result ≡ is_mentioned names.now name.now }
{
    names.iter().any(|other| *name == *other)
}

/// Returns whether a package is a member with one of these names.
fn is_named_member(names: &[Text], found: &Package) -> bool
    ensures { result ≡ is_named_member names.now found.now }
{
    found.is_member && is_mentioned(names, &found.name)
}

/// Returns whether a name is the name of a member.
fn names_member(name: &Text, packages: &[Package]) -> bool
    ensures { result ≡ list_any (is_member_named name.now) packages.now }
{
    packages.iter().any(|found| is_member_named(name, found))
}

/// Returns whether each of these names is the name of a member.
fn name_members(names: &[Text], packages: &[Package]) -> bool
    ensures { result ≡ name_members names.now packages.now }
{
    names.iter().all(|name| names_member(name, packages))
}

/// Returns the indices of the members with these names.
fn members_named(
    alloc: Global,
    names: &[Text],
    packages: &[Package],
) -> Result<Items<usize>, AllocError>
    ensures { IfOk result
        (λ indices. indices ≡ indices_where (is_named_member names.now) packages.now) }
{
    let mut indices = Items::new(alloc);
    for (index, found) in packages.iter().enumerate() {
        if is_named_member(names, found) {
            indices.push(index)?;
        }
    }
    Ok(indices)
}

/// Returns the indices of the members with these names. Each name must be the name of a member.
fn named_members(
    alloc: Global,
    names: &[Text],
    packages: &[Package],
) -> Result<Items<usize>, LoadFault>
    ensures { UnlessOom load_fault.OutOfMemory (λ indices. indices) result
        (named_members names.now packages.now) }
{
    if !name_members(names, packages) {
        return Err(LoadFault::NoSuchPackage);
    }
    let indices = members_named(alloc, names, packages)?;
    Ok(indices)
}

/// Returns the index of the root package, or the indices of all members if there is no root
/// package.
fn root_or_members(
    alloc: Global,
    root: Option<usize>,
    packages: &[Package],
) -> Result<Items<usize>, AllocError>
    ensures { IfOk result (λ indices. indices ≡ root_or_members root packages.now) }
{
    match root {
        None => members_of(alloc, packages),
        Some(index) => {
            let mut indices = Items::new(alloc);
            indices.push(index)?;
            Ok(indices)
        }
    }
}

/// Returns the packages that are selected if the options name no package.
fn by_default(alloc: Global, workspace: &Workspace) -> Result<Items<usize>, LoadFault>
    ensures { UnlessOom load_fault.OutOfMemory (λ indices. indices) result
        (by_default workspace.now.default_members workspace.now.root_package
        workspace.now.packages) }
{
    match &workspace.default_members {
        DefaultMembers::Unwritten => {
            let packages = workspace.packages.as_slice();
            let indices = root_or_members(alloc, workspace.root_package, packages)?;
            Ok(indices)
        }
        DefaultMembers::Named(indices) => {
            let indices = copy_indices(alloc, indices.as_slice())?;
            Ok(indices)
        }
        DefaultMembers::Unknown => Err(LoadFault::NoSuchPackage),
    }
}

/// Returns a copy of these indices.
fn copy_indices(alloc: Global, indices: &[usize]) -> Result<Items<usize>, AllocError>
    ensures { IfOk result (λ made. made ≡ indices.now) }
{
    Ok(Items::from_vec(indices.to_vec(alloc)?))
}

/// Returns the indices of the selected packages.
fn selected_packages(
    alloc: Global,
    workspace: &Workspace,
    options: &Options,
) -> Result<Items<usize>, LoadFault>
    ensures { UnlessOom load_fault.OutOfMemory (λ indices. indices) result
        (selected_packages workspace.now options.now.workspace options.now.packages) }
{
    let packages = workspace.packages.as_slice();
    if options.workspace {
        let indices = members_of(alloc, packages)?;
        return Ok(indices);
    }
    if !options.packages.is_empty() {
        return named_members(alloc, options.packages.as_slice(), packages);
    }
    by_default(alloc, workspace)
}

/// Returns the parts between the spaces of a text.
fn cut_at_spaces(alloc: Global, text: &str) -> Result<Vec<&str>, AllocError>
    ensures { IfOk result
        (λ parts. map (λ part. part.now) parts.items ≡ slice_split (λ b. b == 32) text.now) }
{
    text.split(' ').collect(alloc)
}

/// Returns the parts between the commas of a text.
fn cut_at_commas(alloc: Global, text: &str) -> Result<Vec<&str>, AllocError>
    ensures { IfOk result
        (λ parts. map (λ part. part.now) parts.items ≡ slice_split (λ b. b == 44) text.now) }
{
    text.split(',').collect(alloc)
}

/// Adds the parts that are not empty.
fn add_words(alloc: Global, parts: &[&str], words: &mut Items<Text>) -> Result<(), AllocError>
    ensures { OnOk result
        (words.new ≡ words.old ++ filter is_word (map (λ part. part.now) parts.now)) }
{
    for word in parts {
        if !word.is_empty() {
            words.push(Text::from_str(alloc, *word)?)?;
        }
    }
    Ok(())
}

/// Adds the words between the spaces of a part.
fn add_spaced_words(alloc: Global, part: &str, words: &mut Items<Text>) -> Result<(), AllocError>
    ensures { OnOk result (words.new ≡ words.old ++ spaced_words part.now) }
{
    let parts = cut_at_spaces(alloc, part)?;
    add_words(alloc, parts.as_slice(), words)?;
    Ok(())
}

/// Adds the words between the spaces of some parts.
fn add_parts(alloc: Global, parts: &[&str], words: &mut Items<Text>) -> Result<(), AllocError>
    ensures { OnOk result
        (words.new ≡ words.old ++ flat_map spaced_words (map (λ part. part.now) parts.now)) }
{
    for part in parts {
        add_spaced_words(alloc, *part, words)?;
    }
    Ok(())
}

/// Adds the features that a text requests.
fn add_feature_words(alloc: Global, text: &str, words: &mut Items<Text>) -> Result<(), AllocError>
    ensures { OnOk result (words.new ≡ words.old ++ feature_words text.now) }
{
    let parts = cut_at_commas(alloc, text)?;
    add_parts(alloc, parts.as_slice(), words)?;
    Ok(())
}

/// Returns the features that some texts request.
fn features_of(alloc: Global, texts: &[Text]) -> Result<Items<Text>, AllocError>
    ensures { IfOk result (λ words. words ≡ flat_map feature_words texts.now) }
{
    let mut words = Items::new(alloc);
    for text in texts {
        add_feature_words(alloc, text.as_str(), &mut words)?;
    }
    Ok(words)
}

/// Returns the selection of these packages.
fn selection_of(
    alloc: Global,
    options: &Options,
    packages: Items<usize>,
) -> Result<Selection, AllocError>
    ensures { IfOk result (λ selection. selection ≡ selection_of options.now packages) }
{
    let features = features_of(alloc, options.features.as_slice())?;
    let bin = options.bin.copy(alloc)?;
    Ok(Selection {
        packages,
        features,
        all_features: options.all_features,
        no_default_features: options.no_default_features,
        lib: options.lib,
        bins: options.bins,
        bin,
    })
}

/// Returns what the options of a build request of the workspace (The Cargo Book, Workspaces and
/// cargo build).
///
/// With `--workspace` the packages are all members. Otherwise the packages are the members that
/// `-p` names. If neither option is given, `default-members` decides. Without this key, the root
/// package is selected, or all members if there is no root package. The indices are in ascending
/// order without repeats, and the type guarantees that each is the index of a package of the
/// workspace.
///
/// The features are the texts between the commas and spaces of `--features`, in order; empty texts
/// are left out.
///
/// Errors:
///
/// - `NoSuchPackage`, if `-p` names a package that is not a member, or if `default-members` decides
///   and lists a folder that is not a member.
/// - `OutOfMemory`.
pub fn selected<'a>(
    alloc: Global,
    workspace: &'a SettledWorkspace,
    options: &Options,
) -> Result<SelectedWorkspace<'a>, LoadFault>
    ensures told { UnlessOom load_fault.OutOfMemory (λ chosen. chosen.selection) result
        (selected workspace.now options.now) }
    ensures workspace { IfOk result (λ chosen. chosen.workspace ≡ workspace.now) }
{
    let packages = selected_packages(alloc, workspace.get(), options)?;
    let selection = selection_of(alloc, options, packages)?;
    Ok(SelectedWorkspace::new(workspace, selection))
}
