//! A workspace as lines of text: what is there, defaults left out.

use pb_data::Text;
use pb_manifest_types::{Edition, Feature, FeatureItem};
use pb_tests_files::Shown;
use pb_workspace_types::{
    About, Binary, DefaultMembers, DependencyKind, Entry, Library, LoadFault, Package,
    SettledWorkspace, Workspace,
};

/// Puts the answer of the loader in lines.
pub fn put_answer(out: &mut Shown, answer: &Result<SettledWorkspace, LoadFault>) {
    match answer {
        Ok(workspace) => put_workspace(out, workspace.get()),
        Err(fault) => put_fault(out, fault),
    }
}

fn put_fault(out: &mut Shown, fault: &LoadFault) {
    match fault {
        LoadFault::NoManifest(path) => out.put(&["NoManifest ", path.as_str()]),
        LoadFault::Manifest(path, fault) => {
            out.put(&["Manifest ", path.as_str(), " "]);
            out.put_value(fault);
        }
        LoadFault::Place(path, fault) => {
            out.put(&["Place ", path.as_str(), " "]);
            out.put_value(fault);
        }
        other => out.put_value(other),
    }
    out.put(&["\n"]);
}

/// Puts a line of a word and indices.
pub fn put_indices(out: &mut Shown, word: &str, indices: &[usize]) {
    out.put(&[word]);
    for index in indices {
        out.put(&[" "]);
        out.put_number(*index as u64);
    }
    out.put(&["\n"]);
}

fn put_workspace(out: &mut Shown, workspace: &Workspace) {
    for found in workspace.packages.as_slice() {
        put_package(out, found);
    }
    if let Some(index) = workspace.root_package {
        put_indices(out, "root", &[index]);
    }
    match &workspace.default_members {
        DefaultMembers::Unwritten => {}
        DefaultMembers::Unknown => out.put(&["default unknown\n"]),
        DefaultMembers::Named(indices) => put_indices(out, "default", indices.as_slice()),
    }
    for profile in workspace.profiles.as_slice() {
        out.put(&["profile ", profile.name.as_str(), "\n"]);
    }
}

fn edition_text(edition: Edition) -> &'static str {
    match edition {
        Edition::E2015 => "2015",
        Edition::E2018 => "2018",
        Edition::E2021 => "2021",
        Edition::E2024 => "2024",
    }
}

/// Puts a word if it is true.
fn put_word(out: &mut Shown, word: &str, holds: bool) {
    if holds {
        out.put(&[word]);
    }
}

fn put_package(out: &mut Shown, found: &Package) {
    out.put(&[found.folder.as_str(), " ", found.name.as_str(), " "]);
    out.put(&[found.version.text().as_str()]);
    out.put(&[" ", edition_text(found.edition)]);
    put_word(out, " other", !found.is_member);
    out.put(&["\n"]);
    put_about(out, &found.about);
    if let Some(links) = &found.links {
        out.put(&["  links ", links.as_str(), "\n"]);
    }
    put_targets(out, found);
    for entry in found.entries.as_slice() {
        put_entry(out, entry);
    }
    for feature in found.features.as_slice() {
        put_feature(out, feature);
    }
    out.put_each("  dev ", found.development.as_slice(), "\n");
}

fn put_said(out: &mut Shown, name: &str, text: &Text) {
    if !text.as_str().is_empty() {
        out.put(&["  ", name, " ", text.as_str(), "\n"]);
    }
}

fn put_about(out: &mut Shown, about: &About) {
    put_said(out, "authors", &about.authors);
    put_said(out, "description", &about.description);
    put_said(out, "homepage", &about.homepage);
    put_said(out, "license", &about.license);
    put_said(out, "license-file", &about.license_file);
    put_said(out, "readme", &about.readme);
    put_said(out, "repository", &about.repository);
    put_said(out, "rust-version", &about.rust_version);
}

fn put_library(out: &mut Shown, library: &Library) {
    out.put(&[
        "  lib ",
        library.name.as_str(),
        " ",
        library.source.as_str(),
    ]);
    for crate_type in library.crate_types.as_slice() {
        out.put(&[" "]);
        out.put_value(crate_type);
    }
    out.put(&["\n"]);
}

fn put_binary(out: &mut Shown, binary: &Binary) {
    out.put(&["  bin ", binary.name.as_str(), " ", binary.source.as_str()]);
    out.put_each(" ", binary.required_features.as_slice(), "");
    out.put(&["\n"]);
}

fn put_targets(out: &mut Shown, found: &Package) {
    if let Some(library) = &found.library {
        put_library(out, library);
    }
    for binary in found.binaries.as_slice() {
        put_binary(out, binary);
    }
    if let Some(script) = &found.script {
        out.put(&["  script ", script.as_str(), "\n"]);
    }
}

fn put_entry(out: &mut Shown, entry: &Entry) {
    match entry.kind {
        DependencyKind::Normal => out.put(&["  dep ", entry.key.as_str(), " "]),
        DependencyKind::Build => out.put(&["  build-dep ", entry.key.as_str(), " "]),
    }
    out.put_number(entry.to as u64);
    put_word(out, " renamed", entry.renamed);
    put_word(out, " optional", entry.optional);
    put_word(out, " no-default", !entry.default_features);
    out.put_each(" ", entry.features.as_slice(), "");
    out.put(&["\n"]);
}

fn put_item(out: &mut Shown, item: &FeatureItem) {
    match item {
        FeatureItem::Own(name) => out.put(&[" ", name.as_str()]),
        FeatureItem::Dependency(name) => out.put(&[" dep:", name.as_str()]),
        FeatureItem::Of {
            dependency,
            feature,
        } => out.put(&[" ", dependency.as_str(), "/", feature.as_str()]),
        FeatureItem::OfEnabled {
            dependency,
            feature,
        } => out.put(&[" ", dependency.as_str(), "?/", feature.as_str()]),
    }
}

fn put_feature(out: &mut Shown, feature: &Feature) {
    out.put(&["  feature ", feature.name.as_str()]);
    for item in feature.items.as_slice() {
        put_item(out, item);
    }
    out.put(&["\n"]);
}
