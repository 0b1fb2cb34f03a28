//! The arguments of a compile: the crate, its output and folder, its features.

ghost use Rattle.std.specs.Prelude.{◌≡◌, ◌++◌, ◌∷◌, [], IfOk, OnOk, string_bytes, codes};
ghost use Rattle.std.specs.List.{flat_map, join_by};
ghost use Rattle.pb_manifest_types.specs.declared.feature.Feature.{Feature};
ghost use Rattle.pb_command_types.specs.Targets.{crate_name_of, crate_types, source_by};
ghost use Rattle.pb_command_arguments.specs.Words.{option, name_words, edition_word, format_words, crate_words, type_word, type_words, emit_words, out_words, output_words, quoted, feature_text, feature_word, expected_text, active_words, expected_words, feature_words};

use pb_command_types::{Project, crate_name_of, source_by};
use pb_data::{Items, Text, TryCopy};
use pb_manifest_types::{CrateType, Edition, Feature};
use pb_unit::{Planned, What};
use pb_workspace_types::{Library, Package};
use std::alloc::{AllocError, Global};

/// Adds an argument.
///
/// Errors: only out of memory.
pub fn push_word(alloc: Global, words: &mut Items<Text>, word: &str) -> Result<(), AllocError>
    ensures { OnOk result (words.new ≡ words.old ++ word.now ∷ []) }
{
    words.push(Text::from_str(alloc, word)?)?;
    Ok(())
}

/// Adds an option and its value.
#[tactic(auto, unfolding(crate::specs::Words::option))]
pub(crate) fn push_option(
    alloc: Global,
    words: &mut Items<Text>,
    name: &str,
    value: &str,
) -> Result<(), AllocError>
    ensures { OnOk result (words.new ≡ words.old ++ option name.now value.now) }
{
    push_word(alloc, words, name)?;
    push_word(alloc, words, value)?;
    Ok(())
}

/// Returns two texts as one.
pub(crate) fn join_two(alloc: Global, first: &str, last: &str) -> Result<String, AllocError>
    ensures { IfOk result (λ made. string_bytes made ≡ first.now ++ last.now) }
{
    let mut made = String::from_str(alloc, first)?;
    made.push_str(last)?;
    Ok(made)
}

/// Adds copies of arguments.
///
/// Errors: only out of memory.
pub fn push_copies(alloc: Global, words: &mut Items<Text>, more: &[Text]) -> Result<(), AllocError>
    ensures { OnOk result (words.new ≡ words.old ++ more.now) }
{
    for word in more {
        words.push(word.copy(alloc)?)?;
    }
    Ok(())
}

/// Adds the name of the crate.
#[tactic(auto, unfolding(crate::specs::Words::name_words))]
fn push_name(
    alloc: Global,
    words: &mut Items<Text>,
    project: &Project,
    unit: &Planned,
) -> Result<(), AllocError>
    ensures { OnOk result (words.new ≡ words.old
        ++ name_words (crate_name_of project.now unit.now)) }
{
    let name = crate_name_of(alloc, project, unit)?;
    push_option(alloc, words, "--crate-name", name.as_str())
}

/// Returns the argument of an edition.
#[tactic(auto, unfolding(crate::specs::Words::edition_word))]
fn edition_word(alloc: Global, edition: Edition) -> Result<String, AllocError>
    ensures { IfOk result (λ word. string_bytes word ≡ edition_word edition) }
{
    join_two(alloc, "--edition=", edition.text())
}

/// Adds the edition.
fn push_edition(alloc: Global, words: &mut Items<Text>, edition: Edition) -> Result<(), AllocError>
    ensures { OnOk result (words.new ≡ words.old ++ edition_word edition ∷ []) }
{
    let word = edition_word(alloc, edition)?;
    push_word(alloc, words, word.as_str())
}

/// Adds the path of the source.
fn push_source(
    alloc: Global,
    words: &mut Items<Text>,
    owner: &Package,
    what: &What,
) -> Result<(), AllocError>
    ensures { OnOk result (words.new ≡ words.old ++ source_by owner.now what.now ∷ []) }
{
    push_word(alloc, words, source_by(owner, what))
}

/// Adds the form of diagnostics.
#[tactic(auto, unfolding(crate::specs::Words::format_words))]
fn push_format(alloc: Global, words: &mut Items<Text>) -> Result<(), AllocError>
    ensures { OnOk result (words.new ≡ words.old ++ format_words) }
{
    push_word(alloc, words, "--error-format=json")
}

/// Adds the arguments of the crate: its name, edition and source, and the form of its diagnostics.
///
/// Errors: only out of memory.
pub fn push_crate(
    alloc: Global,
    words: &mut Items<Text>,
    project: &Project,
    unit: &Planned,
    owner: &Package,
) -> Result<(), AllocError>
    ensures { OnOk result (words.new ≡ words.old ++ crate_words project.now unit.now owner.now) }
{
    push_name(alloc, words, project, unit)?;
    push_edition(alloc, words, owner.edition)?;
    push_source(alloc, words, owner, &unit.unit.what)?;
    push_format(alloc, words)?;
    Ok(())
}

/// Adds `--crate-type` and the type.
#[tactic(auto, unfolding(crate::specs::Words::type_word))]
fn push_type(
    alloc: Global,
    words: &mut Items<Text>,
    crate_type: CrateType,
) -> Result<(), AllocError>
    ensures { OnOk result (words.new ≡ words.old ++ type_word crate_type) }
{
    push_option(alloc, words, "--crate-type", crate_type.text())
}

/// Adds `--crate-type` and the type, for each type.
fn push_types(alloc: Global, words: &mut Items<Text>, types: &[CrateType]) -> Result<(), AllocError>
    ensures { OnOk result (words.new ≡ words.old ++ type_words types.now) }
{
    for crate_type in types {
        push_type(alloc, words, *crate_type)?;
    }
    Ok(())
}

/// Returns the crate types of what a unit compiles.
fn crate_types<'a>(library: &'a Option<Library>, what: &What) -> &'a [CrateType]
    ensures { result.now ≡ crate_types library.now what.now }
{
    match what {
        What::Lib => match library {
            Some(library) => library.crate_types.as_slice(),
            None => &[],
        },
        What::Bin(_) => &[CrateType::Bin],
        What::Script => &[CrateType::Bin],
        What::Run => &[],
    }
}

/// Adds what the compiler writes.
#[tactic(auto, unfolding(crate::specs::Words::emit_words))]
fn push_emit(alloc: Global, words: &mut Items<Text>) -> Result<(), AllocError>
    ensures { OnOk result (words.new ≡ words.old ++ emit_words) }
{
    push_word(alloc, words, "--emit=dep-info,link")
}

/// Adds the folder into which the compiler writes.
#[tactic(auto, unfolding(crate::specs::Words::out_words))]
fn push_out(alloc: Global, words: &mut Items<Text>, folder: &str) -> Result<(), AllocError>
    ensures { OnOk result (words.new ≡ words.old ++ out_words folder.now) }
{
    push_option(alloc, words, "--out-dir", folder)
}

/// Adds the arguments of the output: the crate's types, the kinds of files, and the unit's folder.
///
/// Errors: only out of memory.
pub fn push_output(
    alloc: Global,
    words: &mut Items<Text>,
    unit: &Planned,
    owner: &Package,
) -> Result<(), AllocError>
    ensures { OnOk result (words.new ≡ words.old ++ output_words unit.now owner.now) }
{
    push_types(alloc, words, crate_types(&owner.library, &unit.unit.what))?;
    push_emit(alloc, words)?;
    push_out(alloc, words, unit.out.as_str())?;
    Ok(())
}

/// Adds a name between quotes.
#[tactic(auto, unfolding(crate::specs::Words::quoted))]
fn push_quoted(text: &mut String, name: &str) -> Result<(), AllocError>
    ensures { OnOk result (string_bytes text.new ≡ string_bytes text.old ++ quoted name.now) }
{
    text.push_str("\"")?;
    text.push_str(name)?;
    text.push_str("\"")?;
    Ok(())
}

/// Returns a feature that is on, as the compiler's argument.
#[tactic(auto, unfolding(crate::specs::Words::feature_text))]
fn feature_text(alloc: Global, name: &str) -> Result<String, AllocError>
    ensures { IfOk result (λ text. string_bytes text ≡ feature_text name.now) }
{
    let mut text = String::from_str(alloc, "feature=")?;
    push_quoted(&mut text, name)?;
    Ok(text)
}

/// Adds `--cfg` and a feature that is on.
fn push_feature(alloc: Global, words: &mut Items<Text>, name: &Text) -> Result<(), AllocError>
    ensures { OnOk result (words.new ≡ words.old ++ feature_word name.now) }
{
    let text = feature_text(alloc, name.as_str())?;
    push_option(alloc, words, "--cfg", text.as_str())?;
    Ok(())
}

/// Adds the features that are on.
fn push_active(alloc: Global, words: &mut Items<Text>, names: &[Text]) -> Result<(), AllocError>
    ensures { OnOk result (words.new ≡ words.old ++ flat_map feature_word names.now) }
{
    for name in names {
        push_feature(alloc, words, name)?;
    }
    Ok(())
}

/// Adds names between quotes, each after a comma.
fn push_more_quoted(text: &mut String, more: &[Feature]) -> Result<(), AllocError>
    ensures { OnOk result (string_bytes text.new ≡ string_bytes text.old
        ++ flat_map (λ (f : Feature). codes ", " ++ quoted f.name) more.now) }
{
    for feature in more {
        text.push_str(", ")?;
        push_quoted(text, feature.name.as_str())?;
    }
    Ok(())
}

/// Adds names between quotes, with commas between them.
fn push_all_quoted(text: &mut String, features: &[Feature]) -> Result<(), AllocError>
    ensures { OnOk result (string_bytes text.new ≡ string_bytes text.old
        ++ join_by (λ (f : Feature). quoted f.name) (codes ", ") features.now) }
{
    match features {
        [] => Ok(()),
        [first, more @ ..] => {
            push_quoted(text, first.name.as_str())?;
            push_more_quoted(text, more)
        }
    }
}

/// Returns the features that a package has, as the compiler's argument.
#[tactic(auto, unfolding(crate::specs::Words::expected_text))]
fn expected_text(alloc: Global, features: &[Feature]) -> Result<String, AllocError>
    ensures { IfOk result (λ text. string_bytes text ≡ expected_text features.now) }
{
    let mut text = String::from_str(alloc, "cfg(feature, values(")?;
    push_all_quoted(&mut text, features)?;
    text.push_str("))")?;
    Ok(text)
}

/// Adds those features of a unit's package that are on.
fn push_unit_features(
    alloc: Global,
    words: &mut Items<Text>,
    project: &Project,
    unit: &Planned,
) -> Result<(), AllocError>
    ensures { OnOk result (words.new ≡ words.old ++ active_words project.now unit.now) }
{
    let owner = unit.unit.package;
    let names = project.features.features_of(owner, unit.unit.side);
    push_active(alloc, words, names)
}

/// Adds the features that a package has.
#[tactic(auto, unfolding(crate::specs::Words::expected_words))]
fn push_expected(
    alloc: Global,
    words: &mut Items<Text>,
    features: &[Feature],
) -> Result<(), AllocError>
    ensures { OnOk result (words.new ≡ words.old ++ expected_words features.now) }
{
    let text = expected_text(alloc, features)?;
    push_option(alloc, words, "--check-cfg", text.as_str())
}

/// Adds the features that are on, and all features of the package (The Cargo Book, Features).
///
/// Errors: only out of memory.
pub fn push_features(
    alloc: Global,
    words: &mut Items<Text>,
    project: &Project,
    unit: &Planned,
    owner: &Package,
) -> Result<(), AllocError>
    ensures { OnOk result (words.new ≡ words.old ++ feature_words project.now unit.now owner.now) }
{
    push_unit_features(alloc, words, project, unit)?;
    push_expected(alloc, words, owner.features.as_slice())?;
    Ok(())
}
