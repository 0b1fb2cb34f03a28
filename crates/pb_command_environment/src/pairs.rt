//! The variables of a command.

ghost use Rattle.std.specs.Prelude.{◌≡◌, ◌++◌, IfOk, OnOk, string_bytes};
ghost use Rattle.std.specs.Fmt.{decimal};
ghost use Rattle.std.specs.List.{flat_map};
ghost use Rattle.pb_command_types.specs.Targets.{unit_at};
ghost use Rattle.pb_command_types.specs.NamedTexts.{all_set};
ghost use Rattle.pb_command_environment.specs.Pairs.{package_pairs, about_pairs, version_numbers, version_texts, version_pairs, crate_pairs, binary_pairs, env_pair, out_pairs, run_at, own_run_pairs, own_pairs, pairs_of};

use crate::run_pairs::set_run;
use pb_command_types::{Project, Setup, crate_name_of, own_run, said_at, unit_at};
use pb_data::{Items, Text};
use pb_directive::{Directive, Directives};
use pb_manifest_types::Version;
use pb_place_types::TextMap;
use pb_unit::{Planned, What};
use pb_workspace_types::{About, Package};
use std::alloc::{AllocError, Global};

/// Sets the variables of the builder and of the package.
fn set_package(
    alloc: Global,
    all: &mut TextMap,
    setup: &Setup,
    owner: &Package,
) -> Result<(), AllocError>
    ensures { OnOk result (all.new ≡ all_set all.old (package_pairs setup.now owner.now)) }
{
    all.insert(alloc, "CARGO", setup.tool.as_str())?;
    all.insert(alloc, "CARGO_MANIFEST_DIR", owner.folder.as_str())?;
    all.insert(alloc, "CARGO_MANIFEST_PATH", owner.manifest.as_str())?;
    all.insert(alloc, "CARGO_PKG_NAME", owner.name.as_str())?;
    Ok(())
}

/// Sets the variables that describe the package to people.
fn set_about(alloc: Global, all: &mut TextMap, about: &About) -> Result<(), AllocError>
    ensures { OnOk result (all.new ≡ all_set all.old (about_pairs about.now)) }
{
    all.insert(alloc, "CARGO_PKG_AUTHORS", about.authors.as_str())?;
    all.insert(alloc, "CARGO_PKG_DESCRIPTION", about.description.as_str())?;
    all.insert(alloc, "CARGO_PKG_HOMEPAGE", about.homepage.as_str())?;
    all.insert(alloc, "CARGO_PKG_LICENSE", about.license.as_str())?;
    all.insert(alloc, "CARGO_PKG_LICENSE_FILE", about.license_file.as_str())?;
    all.insert(alloc, "CARGO_PKG_README", about.readme.as_str())?;
    all.insert(alloc, "CARGO_PKG_REPOSITORY", about.repository.as_str())?;
    all.insert(alloc, "CARGO_PKG_RUST_VERSION", about.rust_version.as_str())?;
    Ok(())
}

/// The numbers of a version as decimal texts, and the pre-release of the version.
#[derive(Drop)]
struct VersionTexts {
    major: String,
    minor: String,
    patch: String,
    pre: String,
}

/// Returns the texts of a version's numbers.
fn version_texts(alloc: Global, version: &Version) -> Result<VersionTexts, AllocError>
    ensures major { IfOk result (λ texts. string_bytes texts.major
        ≡ decimal (version_numbers version.now).0) }
    ensures minor { IfOk result (λ texts. string_bytes texts.minor
        ≡ decimal (version_numbers version.now).1) }
    ensures patch { IfOk result (λ texts. string_bytes texts.patch
        ≡ decimal (version_numbers version.now).2) }
    ensures pre { IfOk result (λ texts. string_bytes texts.pre ≡ (version_numbers version.now).3) }
{
    let number = version.number();
    let major = number.major.to_string(alloc)?;
    let minor = number.minor.to_string(alloc)?;
    let patch = number.patch.to_string(alloc)?;
    let pre = String::from_str(alloc, number.pre.as_str())?;
    Ok(VersionTexts {
        major,
        minor,
        patch,
        pre,
    })
}

/// Sets a version and its parts.
fn set_parts(
    alloc: Global,
    all: &mut TextMap,
    version: &str,
    parts: &VersionTexts,
) -> Result<(), AllocError>
    ensures { OnOk result (all.new
        ≡ all_set all.old (version_texts version.now (string_bytes parts.now.major)
        (string_bytes parts.now.minor) (string_bytes parts.now.patch)
        (string_bytes parts.now.pre))) }
{
    all.insert(alloc, "CARGO_PKG_VERSION", version)?;
    all.insert(alloc, "CARGO_PKG_VERSION_MAJOR", parts.major.as_str())?;
    all.insert(alloc, "CARGO_PKG_VERSION_MINOR", parts.minor.as_str())?;
    all.insert(alloc, "CARGO_PKG_VERSION_PATCH", parts.patch.as_str())?;
    all.insert(alloc, "CARGO_PKG_VERSION_PRE", parts.pre.as_str())?;
    Ok(())
}

/// Sets the version and its parts.
fn set_version(alloc: Global, all: &mut TextMap, version: &Version) -> Result<(), AllocError>
    ensures { OnOk result (all.new ≡ all_set all.old (version_pairs version.now)) }
{
    let parts = version_texts(alloc, version)?;
    set_parts(alloc, all, version.text().as_str(), &parts)?;
    Ok(())
}

/// Sets the name of the crate.
fn set_crate(
    alloc: Global,
    all: &mut TextMap,
    project: &Project,
    unit: &Planned,
) -> Result<(), AllocError>
    ensures { OnOk result (all.new ≡ all_set all.old (crate_pairs project.now unit.now)) }
{
    let name = crate_name_of(alloc, project, unit)?;
    all.insert(alloc, "CARGO_CRATE_NAME", name.as_str())?;
    Ok(())
}

/// Sets the variable of a directive, if the directive sets one.
fn set_env(alloc: Global, all: &mut TextMap, directive: &Directive) -> Result<(), AllocError>
    ensures { OnOk result (all.new ≡ all_set all.old (env_pair directive.now)) }
{
    match directive {
        Directive::Env(name, value) => {
            all.insert(alloc, name.as_str(), value.as_str())?;
            Ok(())
        }
        _ => Ok(()),
    }
}

/// Sets the variables that a script has set.
#[tactic(auto, using(pb_command_types::proofs::NamedTexts::set_laws))]
fn set_envs(alloc: Global, all: &mut TextMap, said: &[Directive]) -> Result<(), AllocError>
    ensures { OnOk result (all.new ≡ all_set all.old (flat_map env_pair said.now)) }
{
    for directive in said {
        set_env(alloc, all, directive)?;
    }
    Ok(())
}

/// Sets the folder of a run's files.
fn set_out(
    alloc: Global,
    all: &mut TextMap,
    project: &Project,
    index: usize,
) -> Result<(), AllocError>
    ensures { OnOk result (all.new ≡ all_set all.old (out_pairs (unit_at project.now index))) }
{
    match unit_at(project, index) {
        Some(unit) => {
            all.insert(alloc, "OUT_DIR", unit.out.as_str())?;
            Ok(())
        }
        None => Ok(()),
    }
}

/// Sets the variables of a compile from the run at an index.
#[tactic(auto, using(pb_command_types::proofs::NamedTexts::set_laws))]
fn set_run_at(
    alloc: Global,
    all: &mut TextMap,
    project: &Project,
    done: &[Option<Directives>],
    index: usize,
) -> Result<(), AllocError>
    ensures { OnOk result (all.new ≡ all_set all.old (run_at project.now done.now index)) }
{
    set_out(alloc, all, project, index)?;
    set_envs(alloc, all, said_at(done, index))?;
    Ok(())
}

/// Sets the variables that a compile gets from the run of its own package.
fn set_own_run(
    alloc: Global,
    all: &mut TextMap,
    project: &Project,
    unit: &Planned,
    done: &[Option<Directives>],
) -> Result<(), AllocError>
    ensures { OnOk result (all.new
        ≡ all_set all.old (own_run_pairs project.now unit.now done.now)) }
{
    match own_run(project, unit) {
        Some(index) => set_run_at(alloc, all, project, done, index),
        None => Ok(()),
    }
}

/// Sets the variables of a library.
#[tactic(auto, using(pb_command_types::proofs::NamedTexts::set_laws))]
fn set_library(
    alloc: Global,
    all: &mut TextMap,
    project: &Project,
    unit: &Planned,
    done: &[Option<Directives>],
) -> Result<(), AllocError>
    ensures { OnOk result (all.new
        ≡ all_set all.old (crate_pairs project.now unit.now
        ++ own_run_pairs project.now unit.now done.now)) }
{
    set_crate(alloc, all, project, unit)?;
    set_own_run(alloc, all, project, unit, done)?;
    Ok(())
}

/// Sets the name of a binary.
fn set_name(alloc: Global, all: &mut TextMap, name: &str) -> Result<(), AllocError>
    ensures { OnOk result (all.new ≡ all_set all.old (binary_pairs name.now)) }
{
    all.insert(alloc, "CARGO_BIN_NAME", name)?;
    Ok(())
}

/// Sets the variables of a binary.
#[tactic(auto, using(pb_command_types::proofs::NamedTexts::set_laws))]
fn set_binary(
    alloc: Global,
    all: &mut TextMap,
    project: &Project,
    unit: &Planned,
    done: &[Option<Directives>],
    name: &str,
) -> Result<(), AllocError>
    ensures { OnOk result (all.new
        ≡ all_set all.old (crate_pairs project.now unit.now ++ binary_pairs name.now
        ++ own_run_pairs project.now unit.now done.now)) }
{
    set_crate(alloc, all, project, unit)?;
    set_name(alloc, all, name)?;
    set_own_run(alloc, all, project, unit, done)?;
    Ok(())
}

/// Sets the variables of a unit, by its kind.
fn set_own(
    alloc: Global,
    all: &mut TextMap,
    setup: &Setup,
    project: &Project,
    unit: &Planned,
    done: &[Option<Directives>],
    owner: &Package,
) -> Result<(), AllocError>
    ensures { OnOk result (all.new
        ≡ all_set all.old (own_pairs setup.now project.now unit.now done.now owner.now
        unit.now.unit.what)) }
{
    match &unit.unit.what {
        What::Lib => set_library(alloc, all, project, unit, done),
        What::Bin(name) => set_binary(alloc, all, project, unit, done, name.as_str()),
        What::Script => set_crate(alloc, all, project, unit),
        What::Run => set_run(alloc, all, setup, project, unit, done, owner),
    }
}

/// Returns the variables of a command (The Cargo Book, Environment Variables): each name once, in
/// byte order, with the last value that is set. If the script of the unit's package has set a
/// variable, the script's value counts. `done` contains the directives of the runs before the unit,
/// by the index of each run in the plan.
///
/// Errors: only out of memory.
#[tactic(auto, using(pb_command_types::proofs::NamedTexts::set_laws))]
pub fn pairs_of(
    alloc: Global,
    setup: &Setup,
    project: &Project,
    unit: &Planned,
    done: &[Option<Directives>],
    owner: &Package,
) -> Result<Items<(Text, Text)>, AllocError>
    ensures { IfOk result (λ pairs. pairs
        ≡ pairs_of setup.now project.now unit.now done.now owner.now) }
{
    let mut all = TextMap::new(alloc);
    set_package(alloc, &mut all, setup, owner)?;
    set_about(alloc, &mut all, &owner.about)?;
    set_version(alloc, &mut all, &owner.version)?;
    set_own(alloc, &mut all, setup, project, unit, done, owner)?;
    all.into_pairs(alloc)
}
