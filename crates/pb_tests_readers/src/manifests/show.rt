//! A manifest in one line: what is written, and defaults only if a rule defines one.

use pb_data::{Items, Text};
use pb_manifest_types::{
    Binary, Build, Dependency, Feature, FeatureItem, Inheritable, Inherited, Library, Manifest,
    Package, PathSource, Profile, ProfileKey, ProfileKeys, Readme, Source, WorkspaceDependency,
    WorkspacePackage, WorkspaceSource, WorkspaceTable, WrittenPath,
};
use pb_tests_files::Shown;
use std::fmt::Debug;

/// Puts a manifest in one line.
pub fn put_manifest(out: &mut Shown, manifest: &Manifest) {
    match &manifest.package {
        Some(package) => put_package(out, package),
        None => out.put(&["-"]),
    }
    if let Some(library) = &manifest.library {
        put_library(out, library);
    }
    for binary in manifest.binaries.as_slice() {
        put_binary(out, binary);
    }
    put_dependencies(out, "dep", &manifest.dependencies);
    put_dependencies(out, "build-dep", &manifest.build_dependencies);
    if !manifest.dev_dependencies.is_empty() {
        put_texts(out, "dev-deps", &manifest.dev_dependencies);
    }
    for feature in manifest.features.as_slice() {
        put_feature(out, feature);
    }
    for profile in manifest.profiles.as_slice() {
        put_profile(out, profile);
    }
    if let Some(workspace) = &manifest.workspace {
        put_workspace(out, workspace);
    }
}

/// Puts a name and a value, if there is one.
fn put_value<T: Debug>(out: &mut Shown, name: &str, value: &Option<T>) {
    if let Some(value) = value {
        out.put(&[" ", name, "="]);
        out.put_value(value);
    }
}

fn put_list(out: &mut Shown, texts: &Items<Text>) {
    let mut before = "";
    for text in texts.as_slice() {
        out.put(&[before, text.as_str()]);
        before = "+";
    }
}

fn put_texts(out: &mut Shown, name: &str, texts: &Items<Text>) {
    out.put(&[" ", name, "="]);
    put_list(out, texts)
}

fn put_text(out: &mut Shown, name: &str, text: &Option<Text>) {
    if let Some(text) = text {
        out.put(&[" ", name, "=", text.as_str()]);
    }
}

fn put_path(out: &mut Shown, name: &str, path: &Option<WrittenPath>) {
    if let Some(path) = path {
        out.put(&[" ", name, "=", path.as_str()]);
    }
}

fn put_paths(out: &mut Shown, name: &str, paths: &Items<WrittenPath>) {
    out.put(&[" ", name, "="]);
    let mut before = "";
    for path in paths.as_slice() {
        out.put(&[before, path.as_str()]);
        before = "+";
    }
}

fn put_inherited(out: &mut Shown, name: &str, text: &Inheritable<Text>) {
    match text {
        Inheritable::Absent => {}
        Inheritable::Workspace => out.put(&[" ", name, "=^"]),
        Inheritable::Written(text) => out.put(&[" ", name, "=", text.as_str()]),
    }
}

fn put_readme(out: &mut Shown, readme: &Readme) {
    match readme {
        Readme::Standard => out.put(&[" readme=true"]),
        Readme::Never => out.put(&[" readme=false"]),
        Readme::At(path) => out.put(&[" readme=", path.as_str()]),
    }
}

fn put_package(out: &mut Shown, package: &Package) {
    out.put(&[package.name.as_str()]);
    match &package.version {
        Inherited::Workspace => out.put(&[" ^"]),
        Inherited::Written(version) => out.put(&[" ", version.text().as_str()]),
    }
    match &package.edition {
        Inherited::Workspace => out.put(&[" ^"]),
        Inherited::Written(edition) => {
            out.put(&[" "]);
            out.put_value(edition);
        },
    }
    match &package.authors {
        Inheritable::Absent => {}
        Inheritable::Workspace => out.put(&[" authors=^"]),
        Inheritable::Written(authors) => put_texts(out, "authors", authors),
    }
    if !package.autobins {
        out.put(&[" autobins=false"]);
    }
    match &package.build {
        Build::Discovered => {}
        Build::Standard => out.put(&[" build=true"]),
        Build::Never => out.put(&[" build=false"]),
        Build::At(path) => out.put(&[" build=", path.as_str()]),
    }
    put_description(out, package)
}

fn put_description(out: &mut Shown, package: &Package) {
    put_inherited(out, "description", &package.description);
    put_inherited(out, "homepage", &package.homepage);
    put_inherited(out, "license", &package.license);
    put_inherited(out, "license-file", &package.license_file);
    put_text(out, "links", &package.links);
    match &package.readme {
        Inheritable::Absent => {}
        Inheritable::Workspace => out.put(&[" readme=^"]),
        Inheritable::Written(readme) => put_readme(out, readme),
    }
    put_inherited(out, "repository", &package.repository);
    put_inherited(out, "rust-version", &package.rust_version)
}

fn put_library(out: &mut Shown, library: &Library) {
    out.put(&[" lib("]);
    for crate_type in library.crate_types.as_slice() {
        out.put_value(crate_type);
        out.put(&[","]);
    }
    put_text(out, "name", &library.name);
    put_path(out, "path", &library.path);
    out.put(&[")"]);
}

fn put_binary(out: &mut Shown, binary: &Binary) {
    out.put(&[" bin(", binary.name.as_str()]);
    put_path(out, "path", &binary.path);
    if !binary.required_features.is_empty() {
        put_texts(out, "required", &binary.required_features);
    }
    out.put(&[")"]);
}

fn put_dependencies(out: &mut Shown, name: &str, entries: &Items<Dependency>) {
    for entry in entries.as_slice() {
        put_dependency(out, name, entry);
    }
}

fn put_source(out: &mut Shown, source: &PathSource) {
    out.put(&[" path=", source.path.as_str()]);
    put_text(out, "package", &source.package);
    if let Some(version) = &source.version {
        out.put(&[" version=", version.text().as_str()]);
    }
    if !source.default_features {
        out.put(&[" default-features=false"]);
    }
}

fn put_dependency(out: &mut Shown, name: &str, entry: &Dependency) {
    out.put(&[" ", name, "(", entry.key.as_str()]);
    match &entry.source {
        Source::Path(source) => put_source(out, source),
        Source::Workspace { default_features } => {
            out.put(&[" ^"]);
            if *default_features {
                out.put(&[" default-features=true"]);
            }
        }
    }
    if entry.optional {
        out.put(&[" optional"]);
    }
    if !entry.features.is_empty() {
        put_texts(out, "features", &entry.features);
    }
    out.put(&[")"]);
}

fn put_shared_dependency(out: &mut Shown, entry: &WorkspaceDependency) {
    out.put(&[" dep(", entry.key.as_str()]);
    match &entry.source {
        WorkspaceSource::Path(source) => put_source(out, source),
        WorkspaceSource::Unsupported => out.put(&[" !"]),
    }
    if !entry.features.is_empty() {
        put_texts(out, "features", &entry.features);
    }
    out.put(&[")"]);
}

fn put_item(out: &mut Shown, item: &FeatureItem) {
    match item {
        FeatureItem::Own(own) => out.put(&[" ", own.as_str()]),
        FeatureItem::Dependency(name) => out.put(&[" enables ", name.as_str()]),
        FeatureItem::Of {
            dependency,
            feature,
        } => out.put(&[" ", feature.as_str(), " of ", dependency.as_str()]),
        FeatureItem::OfEnabled {
            dependency,
            feature,
        } => out.put(&[" ", feature.as_str(), " of ", dependency.as_str(), " if on"]),
    }
}

fn put_feature(out: &mut Shown, feature: &Feature) {
    out.put(&[" feature(", feature.name.as_str()]);
    for item in feature.items.as_slice() {
        put_item(out, item);
    }
    out.put(&[")"]);
}

fn put_profile_keys(out: &mut Shown, keys: &ProfileKeys) {
    for key in &ProfileKey::ALL {
        if let Some(setting) = keys.get(*key) {
            out.put(&[" ", key.row().name, "="]);
            out.put_setting(*key, setting);
        }
    }
}

fn put_profile(out: &mut Shown, profile: &Profile) {
    out.put(&[" profile(", profile.name.as_str()]);
    put_text(out, "inherits", &profile.inherits);
    put_profile_keys(out, &profile.keys);
    for entry in profile.packages.as_slice() {
        out.put(&[" package(", entry.name.as_str()]);
        put_profile_keys(out, &entry.keys);
        out.put(&[")"]);
    }
    if let Some(keys) = &profile.build_override {
        out.put(&[" build-override("]);
        put_profile_keys(out, keys);
        out.put(&[")"]);
    }
    out.put(&[")"]);
}

fn put_workspace(out: &mut Shown, workspace: &WorkspaceTable) {
    out.put(&[" workspace("]);
    if !workspace.members.is_empty() {
        put_paths(out, "members", &workspace.members);
    }
    if let Some(members) = &workspace.default_members {
        put_paths(out, "default-members", members);
    }
    if !workspace.exclude.is_empty() {
        put_paths(out, "exclude", &workspace.exclude);
    }
    if let Some(package) = &workspace.package {
        put_workspace_package(out, package);
    }
    for entry in workspace.dependencies.as_slice() {
        put_shared_dependency(out, entry);
    }
    out.put(&[")"]);
}

fn put_workspace_package(out: &mut Shown, package: &WorkspacePackage) {
    out.put(&[" package("]);
    if let Some(authors) = &package.authors {
        put_texts(out, "authors", authors);
    }
    put_text(out, "description", &package.description);
    put_value(out, "edition", &package.edition);
    put_text(out, "homepage", &package.homepage);
    put_text(out, "license", &package.license);
    put_text(out, "license-file", &package.license_file);
    if let Some(readme) = &package.readme {
        put_readme(out, readme);
    }
    put_text(out, "repository", &package.repository);
    put_text(out, "rust-version", &package.rust_version);
    if let Some(version) = &package.version {
        out.put(&[" version=", version.text().as_str()]);
    }
    out.put(&[")"]);
}
