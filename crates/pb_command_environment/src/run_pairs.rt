//! The variables of the run of a build script.

ghost use Rattle.std.specs.Prelude.{◌≡◌, ◌++◌, ◌∷◌, [], IfOk, OnOk, map, option_map, string_bytes, Some};
ghost use Rattle.std.specs.List.{flat_map};
ghost use Rattle.pb_directive.specs.Metadata.{dep_pairs};
ghost use Rattle.pb_feature_types.specs.Features.{features_at};
ghost use Rattle.pb_command_types.specs.Targets.{unit_at};
ghost use Rattle.pb_command_types.specs.NamedTexts.{all_set};
ghost use Rattle.pb_command_environment.specs.Pairs.{links_pairs, feature_name, feature_pair, described_pairs, triple_of, is_debugged, profile_word, platform_pairs, settings_pairs, encoded, compiler_pairs, out_pairs, building_pairs, linked_pairs, links_in, passed_by, passed_at, passed_pairs, run_pairs};

use crate::platform::{profile_word, triple_of};
use pb_command_types::{Project, Setup, is_run, package_of, unit_at};
use pb_data::{Items, Text, truth_text};
use pb_directive::{Directives, dep_pairs, with_underscores};
use pb_manifest_types::Word;
use pb_place_types::TextMap;
use pb_profile::Settings;
use pb_unit::Planned;
use pb_workspace_types::Package;
use std::alloc::{AllocError, Global};

/// Sets the native library that a package links.
fn set_links(alloc: Global, all: &mut TextMap, links: &Option<Text>) -> Result<(), AllocError>
    ensures { OnOk result (all.new ≡ all_set all.old (links_pairs links.now)) }
{
    match links {
        Some(links) => {
            all.insert(alloc, "CARGO_MANIFEST_LINKS", links.as_str())?;
            Ok(())
        }
        None => Ok(()),
    }
}

/// Returns the name of a feature's variable.
#[tactic(auto, unfolding(crate::specs::Pairs::feature_name))]
fn feature_name(alloc: Global, feature: &str) -> Result<String, AllocError>
    ensures { IfOk result (λ name. string_bytes name ≡ feature_name feature.now) }
{
    let upper = feature.to_uppercase(alloc)?;
    let word = with_underscores(alloc, upper.as_str())?;
    let mut name = String::from_str(alloc, "CARGO_FEATURE_")?;
    name.push_str(word.as_str())?;
    Ok(name)
}

/// Sets the variable of a feature.
fn set_feature(alloc: Global, all: &mut TextMap, feature: &Text) -> Result<(), AllocError>
    ensures { OnOk result (all.new ≡ all_set all.old (feature_pair feature.now ∷ [])) }
{
    let name = feature_name(alloc, feature.as_str())?;
    all.insert(alloc, name.as_str(), "1")?;
    Ok(())
}

/// Sets the variables of features.
fn set_features(alloc: Global, all: &mut TextMap, features: &[Text]) -> Result<(), AllocError>
    ensures { OnOk result (all.new ≡ all_set all.old (map feature_pair features.now)) }
{
    for feature in features {
        set_feature(alloc, all, feature)?;
    }
    Ok(())
}

/// Returns whether any debug information is kept.
fn is_debugged(debug: Word) -> bool
    ensures { result ≡ is_debugged debug }
{
    match debug {
        Word::Zero => false,
        _ => true,
    }
}

/// Sets the platform for which units are compiled, the host, and the number of jobs.
fn set_platform(alloc: Global, all: &mut TextMap, triple: &str) -> Result<(), AllocError>
    ensures { OnOk result (all.new ≡ all_set all.old (platform_pairs triple.now)) }
{
    all.insert(alloc, "TARGET", triple)?;
    all.insert(alloc, "HOST", triple)?;
    all.insert(alloc, "NUM_JOBS", "1")?;
    Ok(())
}

/// Sets the settings of a run's package.
fn set_settings(
    alloc: Global,
    all: &mut TextMap,
    settings: &Settings,
    profile: &str,
) -> Result<(), AllocError>
    ensures { OnOk result (all.new ≡ all_set all.old (settings_pairs settings.now profile.now)) }
{
    let debug = truth_text(is_debugged(settings.debug()));
    all.insert(alloc, "OPT_LEVEL", settings.opt_level().spelling())?;
    all.insert(alloc, "DEBUG", debug)?;
    all.insert(alloc, "PROFILE", profile)?;
    Ok(())
}

/// Adds flags, with byte 0x1f before each flag.
fn push_flags(text: &mut String, flags: &[Text]) -> Result<(), AllocError>
    ensures { OnOk result (string_bytes text.new ≡ string_bytes text.old
        ++ flat_map (λ flag. (31 ∷ []) ++ flag) flags.now) }
{
    for flag in flags {
        text.push_str("\u{1f}")?;
        text.push_str(flag.as_str())?;
    }
    Ok(())
}

/// Returns flags as one text, with byte 0x1f between them.
fn encode_flags(alloc: Global, flags: &[Text]) -> Result<String, AllocError>
    ensures { IfOk result (λ text. string_bytes text ≡ encoded flags.now) }
{
    let mut text = String::new(alloc);
    match flags {
        [] => {}
        [first, rest @ ..] => {
            text.push_str(first.as_str())?;
            push_flags(&mut text, rest)?;
        }
    }
    Ok(text)
}

/// Sets the compiler and its flags.
fn set_compiler(alloc: Global, all: &mut TextMap, setup: &Setup) -> Result<(), AllocError>
    ensures { OnOk result (all.new ≡ all_set all.old (compiler_pairs setup.now)) }
{
    let flags = encode_flags(alloc, setup.flags.as_slice())?;
    all.insert(alloc, "RUSTC", setup.rustc.as_str())?;
    all.insert(alloc, "CARGO_ENCODED_RUSTFLAGS", flags.as_str())?;
    Ok(())
}

/// Sets the features that are on.
fn set_active(
    alloc: Global,
    all: &mut TextMap,
    project: &Project,
    unit: &Planned,
) -> Result<(), AllocError>
    ensures { OnOk result (all.new
        ≡ all_set all.old (map feature_pair
        (features_at project.now.features unit.now.unit.package unit.now.unit.side))) }
{
    let owner = unit.unit.package;
    set_features(
        alloc,
        all,
        project.features.features_of(owner, unit.unit.side),
    )
}

/// Sets what the package links, and the features that are on.
#[tactic(auto, using(pb_command_types::proofs::NamedTexts::set_laws))]
fn set_described(
    alloc: Global,
    all: &mut TextMap,
    project: &Project,
    unit: &Planned,
    owner: &Package,
) -> Result<(), AllocError>
    ensures { OnOk result (all.new
        ≡ all_set all.old (described_pairs project.now unit.now owner.now)) }
{
    set_links(alloc, all, &owner.links)?;
    set_active(alloc, all, project, unit)?;
    Ok(())
}

/// Sets the compiler's host triple.
fn set_triple(alloc: Global, all: &mut TextMap, setup: &Setup) -> Result<(), AllocError>
    ensures { OnOk result (all.new
        ≡ all_set all.old (platform_pairs (triple_of setup.now.toolchain))) }
{
    set_platform(alloc, all, triple_of(setup.toolchain.as_slice()))
}

/// Sets the settings of a run's package, and the word of the profile.
fn set_profile(
    alloc: Global,
    all: &mut TextMap,
    project: &Project,
    unit: &Planned,
) -> Result<(), AllocError>
    ensures { OnOk result (all.new
        ≡ all_set all.old (settings_pairs unit.now.settings (profile_word project.now))) }
{
    let profile = profile_word(alloc, project)?;
    set_settings(alloc, all, &unit.settings, profile)
}

/// Sets the folder into which a run writes its files.
fn set_folder(alloc: Global, all: &mut TextMap, unit: &Planned) -> Result<(), AllocError>
    ensures { OnOk result (all.new ≡ all_set all.old (out_pairs (Some unit.now))) }
{
    all.insert(alloc, "OUT_DIR", unit.out.as_str())?;
    Ok(())
}

/// Sets the folder into which a run writes its files, and how the run's package is compiled.
#[tactic(auto, using(pb_command_types::proofs::NamedTexts::set_laws))]
fn set_building(
    alloc: Global,
    all: &mut TextMap,
    setup: &Setup,
    project: &Project,
    unit: &Planned,
) -> Result<(), AllocError>
    ensures { OnOk result (all.new
        ≡ all_set all.old (building_pairs setup.now project.now unit.now)) }
{
    set_folder(alloc, all, unit)?;
    set_triple(alloc, all, setup)?;
    set_profile(alloc, all, project, unit)?;
    set_compiler(alloc, all, setup)?;
    Ok(())
}

/// Sets variables, one after another.
fn set_all(alloc: Global, all: &mut TextMap, pairs: &[(Text, Text)]) -> Result<(), AllocError>
    ensures { OnOk result (all.new ≡ all_set all.old pairs.now) }
{
    for pair in pairs {
        all.insert(alloc, pair.0.as_str(), pair.1.as_str())?;
    }
    Ok(())
}

/// Sets the metadata that the script of a package with this native library has printed.
fn set_metadata(
    alloc: Global,
    all: &mut TextMap,
    links: &str,
    said: &Directives,
) -> Result<(), AllocError>
    ensures { OnOk result (all.new ≡ all_set all.old (dep_pairs links.now said.now)) }
{
    let table = dep_pairs(alloc, links, said)?;
    let pairs = table.into_items(alloc)?;
    set_all(alloc, all, pairs.as_slice())
}

/// Sets the metadata that the script of a package has printed, if the package links a native
/// library.
fn set_linked(
    alloc: Global,
    all: &mut TextMap,
    owner: Option<&Package>,
    said: &Directives,
) -> Result<(), AllocError>
    ensures { OnOk result (all.new
        ≡ all_set all.old (linked_pairs (links_in (option_map (λ p.
        p.now) owner.entry)) said.now)) }
{
    match owner {
        Some(owner) => match &owner.links {
            Some(links) => set_metadata(alloc, all, links.as_str(), said),
            None => Ok(()),
        },
        None => Ok(()),
    }
}

/// Sets the metadata of a unit, if the unit is a run.
fn set_passed_by(
    alloc: Global,
    all: &mut TextMap,
    project: &Project,
    index: usize,
    said: &Directives,
) -> Result<(), AllocError>
    ensures { OnOk result (all.new
        ≡ all_set all.old (passed_by project.now (unit_at project.now index) said.now)) }
{
    match unit_at(project, index) {
        Some(unit) => {
            if is_run(&unit.unit.what) {
                set_linked(alloc, all, package_of(project, unit), said)?;
            }
            Ok(())
        }
        None => Ok(()),
    }
}

/// Sets the metadata of the run at an index.
#[tactic(auto, unfolding(crate::specs::Pairs::passed_at))]
fn set_passed_at(
    alloc: Global,
    all: &mut TextMap,
    project: &Project,
    done: &[Option<Directives>],
    index: usize,
) -> Result<(), AllocError>
    ensures { OnOk result (all.new ≡ all_set all.old (passed_at project.now done.now index)) }
{
    match done.get(index) {
        Some(Some(said)) => set_passed_by(alloc, all, project, index, said),
        _ => {
            let nothing = Items::new(alloc);
            set_passed_by(alloc, all, project, index, &nothing)
        }
    }
}

/// Sets the metadata of the runs at some indices.
#[tactic(auto, using(pb_command_types::proofs::NamedTexts::set_laws))]
fn set_passed(
    alloc: Global,
    all: &mut TextMap,
    project: &Project,
    done: &[Option<Directives>],
    indices: &[usize],
) -> Result<(), AllocError>
    ensures { OnOk result (all.new
        ≡ all_set all.old (flat_map (passed_at project.now done.now) indices.now)) }
{
    for index in indices {
        set_passed_at(alloc, all, project, done, *index)?;
    }
    Ok(())
}

/// Sets the variables of a run.
#[tactic(auto, using(pb_command_types::proofs::NamedTexts::set_laws))]
pub(crate) fn set_run(
    alloc: Global,
    all: &mut TextMap,
    setup: &Setup,
    project: &Project,
    unit: &Planned,
    done: &[Option<Directives>],
    owner: &Package,
) -> Result<(), AllocError>
    ensures { OnOk result (all.new
        ≡ all_set all.old (run_pairs setup.now project.now unit.now done.now owner.now)) }
{
    set_described(alloc, all, project, unit, owner)?;
    set_building(alloc, all, setup, project, unit)?;
    set_passed(alloc, all, project, done, unit.needs.as_slice())?;
    Ok(())
}
