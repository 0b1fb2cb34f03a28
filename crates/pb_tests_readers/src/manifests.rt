//! Tests of the reader of manifests, on tables of cases and at the size limit. Other tests are
//! about the letters of names, about versions, and about faults in words.

mod cases;
mod show;

use crate::texts::of_bytes;
use crate::wording::reads;
use cases::CASES;
use pb_data::{Items, Text, TryCopy};
use pb_manifest::read_manifest;
use pb_manifest_types::letters::{has_zero, is_crate_name, is_feature_name, is_name};
use pb_manifest_types::{
    CrateType, Edition, Key, Library, ManifestFault, PathSource, ProfileKey, Readme, Requirement,
    Version, WrittenPath, crate_name, crate_type_texts, library_name,
};
use pb_tests_files::{Case, Shown, Trial, holds, is_text, try_cases};
use show::put_manifest;
use std::alloc::{AllocError, Global};
use std::process::Abort;
use std::test::Fail;

/// Returns the answer to a manifest, in one line.
fn answer_to(alloc: Global, manifest: &[u8]) -> Shown {
    let answer = read_manifest(alloc, manifest);
    let mut shown = Shown::new(alloc);
    match &answer {
        Ok(manifest) => put_manifest(&mut shown, manifest),
        Err(fault) => shown.put_value(fault),
    }
    drop(answer);
    shown
}

/// Returns whether the answer to a manifest, in one line, is this.
fn says(alloc: Global, manifest: &[u8], wanted: &str) -> bool {
    answer_to(alloc, manifest).says(wanted)
}

/// Cases of manifests, each with its answer in one line.
struct ManifestCases {}

impl Trial for ManifestCases {
    fn put_result(&self, alloc: Global, case: &Case<'_>, out: &mut Shown) -> Result<(), Fail> {
        let answer = answer_to(alloc, case.given.as_bytes());
        out.put(&[answer.as_str(), "\n"]);
        drop(answer);
        Ok(())
    }
}

/// Returns whether the answer to a manifest of this number of line feeds is this.
fn blank_says(alloc: Global, length: usize, wanted: &str) -> Result<bool, AllocError> {
    let bytes = of_bytes(alloc, b"", b'\n', length)?;
    Ok(says(alloc, bytes.as_slice(), wanted))
}

/// Bytes that are not TOML.
static NO_TOML: &[&[u8]] = &[b"name = \"\xff\"", b"\x00", b"\xef\xbb"];

/// Asserts each case of a table, and how many there are.
fn assert_cases<T: Trial>(
    rt: &impl Abort,
    alloc: Global,
    table: &str,
    trial: &T,
    count: usize,
) -> Result<(), Fail> {
    let tried = try_cases(alloc, table, trial)?;
    assert!(rt; tried.wrong.says(""), "{}", tried.wrong.as_str());
    assert_eq!(rt; tried.count, count);
    drop(tried);
    Ok(())
}

/// Rules: `manifest.order`.
#[test]
fn manifests(rt: HostRuntime) -> Result<(), Fail> {
    for table in CASES {
        let (cases, count) = *table;
        assert_cases(&rt, rt.alloc(), cases, &ManifestCases {}, count)?;
    }
    assert!(rt; blank_says(rt.alloc(), 1_048_576, "BadKind(Package)")?);
    assert!(rt; blank_says(rt.alloc(), 1_048_577, "TooLarge")?);
    for bytes in NO_TOML {
        assert!(rt; says(rt.alloc(), *bytes, "NotToml"));
    }
    Ok(())
}

/// Returns whether four questions about a text have the wanted answers: whether it has the letters
/// of a package's name, of a crate's name and of a feature's name, and whether it contains byte 0.
fn has_letters(case: &(&str, bool, bool, bool, bool)) -> bool {
    let (text, package, library, feature, zero) = *case;
    is_name(text) == package
        && is_crate_name(text) == library
        && is_feature_name(text) == feature
        && has_zero(text) == zero
}

/// Texts, whether each has the letters of a package's, a crate's and a feature's name, and whether
/// it has byte 0.
static LETTERS: &[(&str, bool, bool, bool, bool)] = &[
    ("a", true, true, true, false),
    ("z", true, true, true, false),
    ("A", true, true, true, false),
    ("Z", true, true, true, false),
    ("0", true, true, true, false),
    ("9", true, true, true, false),
    ("_", true, true, true, false),
    ("-", true, false, false, false),
    ("+", false, false, false, false),
    (".", false, false, false, false),
    ("@", false, false, false, false),
    ("[", false, false, false, false),
    ("`", false, false, false, false),
    ("{", false, false, false, false),
    ("/", false, false, false, false),
    (":", false, false, false, false),
    (" ", false, false, false, false),
    ("\0", false, false, false, true),
    ("\u{e9}", false, false, false, false),
    ("", false, false, false, false),
    ("az", true, true, true, false),
    ("AZ", true, true, true, false),
    ("09", true, true, true, false),
    ("a_", true, true, true, false),
    ("a-", true, false, true, false),
    ("a+", false, false, true, false),
    ("a.", false, false, true, false),
    ("a@", false, false, false, false),
    ("a[", false, false, false, false),
    ("a`", false, false, false, false),
    ("a{", false, false, false, false),
    ("a/", false, false, false, false),
    ("a:", false, false, false, false),
    ("a ", false, false, false, false),
    ("a\0", false, false, false, true),
    ("a\u{e9}", false, false, false, false),
    ("\0a", false, false, false, true),
    ("a\u{1}", false, false, false, false),
];

/// Returns the version in a text.
fn version_of(alloc: Global, text: &str) -> Result<Version, ManifestFault> {
    let text = Text::from_str(alloc, text)?;
    Version::read(alloc, text)
}

/// Returns the middle number of the version in a text.
fn minor_of(alloc: Global, text: &str) -> Result<u64, ManifestFault> {
    let version = version_of(alloc, text)?;
    let minor = version.number().minor;
    drop(version);
    Ok(minor)
}

/// Returns the requirement in a text.
fn requirement_of(alloc: Global, text: &str) -> Result<Requirement, ManifestFault> {
    let text = Text::from_str(alloc, text)?;
    Requirement::read(alloc, text)
}

/// Returns how many comparisons the requirement in a text has.
fn count_comparisons(alloc: Global, text: &str) -> Result<usize, ManifestFault> {
    let requirement = requirement_of(alloc, text)?;
    let count = requirement.as_semver().comparators.len();
    drop(requirement);
    Ok(count)
}

/// Faults, and what they are in words.
static FAULTS_IN_WORDS: &[(ManifestFault, &str)] = &[
    (ManifestFault::NotToml, "the manifest is not TOML"),
    (
        ManifestFault::BadKind(Key::OfProfile(ProfileKey::CodegenUnits)),
        "`codegen-units` has a value that is not allowed",
    ),
    (
        ManifestFault::BadName,
        "a name is missing or has letters that are not allowed",
    ),
    (
        ManifestFault::BadVersion,
        "a version or a version requirement cannot be read",
    ),
    (
        ManifestFault::UnsupportedTable,
        "`target`, `patch` and `replace` are not supported",
    ),
    (
        ManifestFault::UnsupportedSource,
        "a dependency has a source other than `path`",
    ),
    (
        ManifestFault::UnsupportedCrateType,
        "the library has a crate type that is not supported",
    ),
    (
        ManifestFault::BadProfile,
        "a profile has a name or a value that is not allowed, or has no `inherits`",
    ),
    (
        ManifestFault::BadFeature,
        "a feature has a name or an item that is not allowed",
    ),
    (ManifestFault::TooLarge, "the manifest is too long"),
    (ManifestFault::OldResolver, "resolver 1 is not supported"),
];

/// Requirements, versions, and whether they match.
static MATCHES: &[(&str, &str, bool)] = &[
    ("1", "1.2.3", true),
    ("1", "2.0.0", false),
    ("^0.1", "0.1.9", true),
    ("^0.1", "0.2.0", false),
    (">=1, <2", "1.9.9+x", true),
    ("1", "1.0.0-a", false),
    ("=1.0.0-a", "1.0.0-a", true),
    ("*", "7.0.0", true),
];

/// Returns a copy of the version in a text.
fn version_copied(alloc: Global, text: &str) -> Result<Version, ManifestFault> {
    let version = version_of(alloc, text)?;
    let copy = version.copy(alloc);
    drop(version);
    Ok(copy?)
}

/// Returns a copy of the requirement in a text.
fn requirement_copied(alloc: Global, text: &str) -> Result<Requirement, ManifestFault> {
    let requirement = requirement_of(alloc, text)?;
    let copy = requirement.copy(alloc);
    drop(requirement);
    Ok(copy?)
}

/// Returns whether a copy of the requirement in a text matches a version.
fn text_matches(alloc: Global, text: &str, version: &Version) -> Result<bool, ManifestFault> {
    let requirement = requirement_copied(alloc, text)?;
    let matches = requirement.matches(version);
    drop(requirement);
    Ok(matches)
}

/// Returns whether a copy of the requirement in a text matches a copy of the version in another
/// text.
fn texts_match(alloc: Global, requirement: &str, version: &str) -> Result<bool, ManifestFault> {
    let version = version_copied(alloc, version)?;
    let matches = text_matches(alloc, requirement, &version);
    drop(version);
    matches
}

/// Returns a library that has only a name.
fn library_named(alloc: Global, name: &str) -> Result<Library, AllocError> {
    let name = Text::from_str(alloc, name)?;
    Ok(Library {
        crate_types: Items::new(alloc),
        name: Some(name),
        path: None,
    })
}

/// Returns whether the library of the package `a-b` has this name, if its table has the name.
fn library_has(alloc: Global, name: &str) -> Result<bool, AllocError> {
    let library = Some(library_named(alloc, name)?);
    let own_name = library_name(alloc, "a-b", &library);
    drop(library);
    Ok(is_text(own_name, name))
}

/// Returns whether crate types have these texts; `lib` if there is none.
fn have_texts(alloc: Global, types: &[CrateType], wanted: &[&str]) -> Result<bool, AllocError> {
    let texts = crate_type_texts(alloc, types)?;
    Ok(texts.as_slice() == wanted)
}

/// Returns whether editions and crate types have their spellings.
fn are_spelled(alloc: Global) -> Result<bool, AllocError> {
    let types: &[CrateType] = &[CrateType::Rlib, CrateType::Lib];
    Ok(
        Edition::E2015.text() == "2015"
            && Edition::E2024.text() == "2024"
            && CrateType::Bin.text() == "bin"
            && have_texts(alloc, types, &["rlib", "lib"])?
            && have_texts(alloc, &[], &["lib"])?,
    )
}

/// Returns whether a text can be written as a path.
fn is_path(alloc: Global, text: &str) -> Result<bool, AllocError> {
    let text = Text::from_str(alloc, text)?;
    Ok(WrittenPath::new(text).is_some())
}

/// Returns the source of an entry with this path and nothing more; none if the text is not a path.
fn source_at(alloc: Global, path: &str) -> Result<Option<PathSource>, AllocError> {
    let path = Text::from_str(alloc, path)?;
    match WrittenPath::new(path) {
        Some(path) => Ok(Some(PathSource {
            path,
            package: None,
            version: None,
            default_features: true,
        })),
        None => Ok(None),
    }
}

/// Returns whether the copy of a source has this path.
fn copy_is_at(alloc: Global, source: &PathSource, path: &str) -> Result<bool, AllocError> {
    let copy = source.copy(alloc)?;
    let is_at = copy.path.as_str() == path;
    drop(copy);
    Ok(is_at)
}

/// Returns whether the copy of a source with this path has the path.
fn source_is_copied(alloc: Global, path: &str) -> Result<bool, AllocError> {
    match source_at(alloc, path)? {
        Some(source) => {
            let is_at = copy_is_at(alloc, &source, path);
            drop(source);
            is_at
        }
        None => Ok(false),
    }
}

/// Returns whether the copy of a README setting with a path has a path, too.
fn readme_is_copied(alloc: Global, path: &str) -> Result<bool, AllocError> {
    let readme = Readme::At(Text::from_str(alloc, path)?);
    let copied = readme.copy(alloc);
    drop(readme);
    let copy = copied?;
    let is_at_path = matches!(copy, Readme::At(_));
    drop(copy);
    Ok(is_at_path)
}

/// Rules: `manifest.letters`, `package.version`, `dependencies.version`.
#[test]
fn letters_versions_and_words(rt: HostRuntime) {
    for case in LETTERS {
        assert!(rt; has_letters(case), "{}", case.0);
    }
    for case in FAULTS_IN_WORDS {
        let (fault, wanted) = *case;
        assert!(rt; reads(rt.alloc(), &fault, wanted), "{wanted}");
    }
    for case in MATCHES {
        let (requirement, version, wanted) = *case;
        assert!(rt;
            texts_match(rt.alloc(), requirement, version) == Ok(wanted),
            "{requirement} of {version}"
        );
    }
    assert!(rt; minor_of(rt.alloc(), "1.2.3") == Ok(2));
    assert!(rt; count_comparisons(rt.alloc(), ">=1, <2") == Ok(2));
}

/// Rules: `lib.name`.
#[test]
fn names_spellings_and_copies(rt: HostRuntime) {
    assert!(rt; is_text(crate_name(rt.alloc(), "a-b--c"), "a_b__c"));
    assert!(rt; is_text(crate_name(rt.alloc(), "ab"), "ab"));
    assert!(rt; is_text(library_name(rt.alloc(), "a-b", &None), "a_b"));
    assert!(rt; holds(library_has(rt.alloc(), "own")));
    assert!(rt; holds(are_spelled(rt.alloc())));
    assert!(rt; is_path(rt.alloc(), "a\0") == Ok(false));
    assert!(rt; holds(source_is_copied(rt.alloc(), "../a b")));
    assert!(rt; holds(readme_is_copied(rt.alloc(), "R")));
}
