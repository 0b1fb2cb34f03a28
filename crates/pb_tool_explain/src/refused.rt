//! What the names of refusals mean. Written by `bench/pages/explained.py`: change `docs/ERRORS.md`.

use crate::entry::Entry;

/// What the names of refusals mean.
pub static REFUSED: [Entry; 31] = [
    Entry {
        name: "BadFeature",
        text: r#"A name or an item in `[features]` cannot be read. An item has one of the forms `F`, `dep:N`, `N/F`, `N?/F`.

```
note: `/w/Cargo.toml` is refused: a feature has a name or an item that is not allowed
note: in /w/Cargo.toml, line 4, key features.default: "a b" has none of the forms "F", "dep:N", "N/F", "N?/F"
error: refused BadFeature
```

- Look at the names and the items in `[features]`.
"#,
    },
    Entry {
        name: "BadKind",
        text: r#"A key has a value that is not allowed: a wrong type, a wrong spelling, or a path with byte 0. If the key is `package`, the manifest may lack the `[package]` that it needs.

```
note: `/w/Cargo.toml` is refused: `edition` has a value that is not allowed
note: in /w/Cargo.toml, line 3, key package.edition: "2022" is not allowed; it must be "2015", "2018", "2021" or "2024"
error: refused BadKind
```

- Look at each key of that name in that manifest.
- If a whole entry of dependencies or features is wrong, the note names the key of the table.
"#,
    },
    Entry {
        name: "BadName",
        text: r#"A name is missing, or has letters that are not allowed.

```
note: `/w/Cargo.toml` is refused: a name is missing or has letters that are not allowed
note: in /w/Cargo.toml, line 2, key package.name: "my app" may contain only ASCII letters, digits, - and _, and must not be empty
error: refused BadName
```

- Look at `name` of the package, of `[lib]` and of each `[[bin]]`.
- Look at the keys of dependencies.
"#,
    },
    Entry {
        name: "BadProfile",
        text: r#"Something in `[profile]` cannot be read.

```
note: `/w/Cargo.toml` is refused: a profile has a name or a value that is not allowed, or has no `inherits`
note: in /w/Cargo.toml, line 4, key profile.dev.opt-level: 5 is not allowed; it must be 0, 1, 2, 3, "s" or "z"
error: refused BadProfile
```

- Look at the values in `[profile]`.
- Give a custom profile `inherits`, and a name of ASCII letters, digits, `-` and `_`.
- Do not name a profile `debug`.
"#,
    },
    Entry {
        name: "BadVersion",
        text: r#"A version, or a requirement of a version, cannot be read.

```
note: `/w/Cargo.toml` is refused: a version or a version requirement cannot be read
note: in /w/Cargo.toml, line 3, key package.version: "0.1" has no third number
error: refused BadVersion
```

- Write `version` of the package with three numbers: `0.1.0`.
- Look at `version` of each dependency.
"#,
    },
    Entry {
        name: "Cycle",
        text: r#"Packages depend on one another. The path dependencies of the selected packages count, and those of all packages that these reach. Build dependencies count too.

```
note: packages depend on one another: core-lib util
note: core-lib -> util -> core-lib
error: refused Cycle
```

- Remove one dependency between the packages that the notes name.
"#,
    },
    Entry {
        name: "InheritsCycle",
        text: r#"Profiles inherit from one another.

```
note: profiles inherit from one another
note: in /w/Cargo.toml: one -> two -> one
error: refused InheritsCycle
```

- Look at `inherits` of each profile.
"#,
    },
    Entry {
        name: "LinksTwice",
        text: r#"Two packages link the same native library. All packages that are read count.

```
note: two packages link the same native library
note: in /w/m1/Cargo.toml, line 3, key package.links: z is in /w/m2/Cargo.toml too
error: refused LinksTwice
```

- Look for packages with the same `links`.
"#,
    },
    Entry {
        name: "LinksWithoutScript",
        text: r#"A package links a native library and has no build script.

```
note: a package links a native library but has no build script
note: in /w/Cargo.toml, line 3, key package.links: z is linked, but /w/build.rs does not exist
error: refused LinksWithoutScript
```

- Look at `links` and `build` of the packages.
- Add `build.rs`, or remove `links`.
"#,
    },
    Entry {
        name: "NameMismatch",
        text: r#"A dependency leads to a package with another name.

```
note: a dependency leads to a package with another name
note: in /w/Cargo.toml, line 4, key dependencies.utils: it leads to /w/util/Cargo.toml, whose name is util (package = "util" would keep the key)
error: refused NameMismatch
```

- Compare the entry's key, or its `package`, with `name` in the folder of its `path`.
"#,
    },
    Entry {
        name: "NoInherited",
        text: r#"A package inherits a key that does not exist: its manifest says `workspace = true`, but the root has no such key or entry. A package that is not a member cannot inherit anything.

```
note: a package inherits a key or an entry that does not exist
note: in /w/m/Cargo.toml, line 3, key package.version: /w/Cargo.toml has no workspace.package.version
error: refused NoInherited
```

- Look at `[workspace.package]` and `[workspace.dependencies]` of the root manifest.
- Name the root manifest with `--manifest-path`: the program does not search the folders above.
"#,
    },
    Entry {
        name: "NoManifest",
        text: r#"No manifest may be read at that path. The file does not exist, is not named `Cargo.toml`, or is in the target folder.

```
note: no manifest can be read at `/w/utli/Cargo.toml`
note: in /w/app/Cargo.toml, line 5, key dependencies.util: it leads to /w/utli/Cargo.toml (near: util)
error: refused NoManifest
```

- Look at `--manifest-path`, which must end in `Cargo.toml`. Without this option, look at the current folder.
- Look at `members` and at the paths of dependencies.
- Choose a target folder that does not contain the workspace.
"#,
    },
    Entry {
        name: "NoSuchDependency",
        text: r#"A feature names a dependency that its package does not have (`dep:N`, `N/F`, `N?/F`).

```
note: a feature names a dependency that does not exist
note: in /w/Cargo.toml, line 4, key features.default: dep:serd names no dependency (near: serde)
error: refused NoSuchDependency
```

- Look at the items in `[features]`.
"#,
    },
    Entry {
        name: "NoSuchFeature",
        text: r#"A requested feature does not exist.

```
note: a requested feature does not exist
note: --features a/fastt: a has no feature fastt (near: fast)
error: refused NoSuchFeature
```

- Look at `--features`: each feature must exist in a selected package.
- Look at the items in `[features]`, and at `features` of dependencies.
"#,
    },
    Entry {
        name: "NoSuchPackage",
        text: r#"A requested package is not a member of the workspace, or `pb_tool clean` found nothing of the packages that `-p` names.

```
note: a requested package is not a member of the workspace
note: -p names utl (near: util)
error: refused NoSuchPackage
```

```
note: /w/target contains nothing that a build made of the packages
error: refused NoSuchPackage
```

- Look at `-p`, which can only name members.
- Without `-p` and `--workspace`, look at `default-members`.
- For `clean`, the note names the folder that contains no unit of these packages.
"#,
    },
    Entry {
        name: "NoSuchProfile",
        text: r#"The requested profile does not exist, or `pb_tool clean` found nothing under the profile that `--profile` or `--release` names.

```
note: a requested profile does not exist
note: --profile names relase (near: release)
error: refused NoSuchProfile
```

```
note: /w/target/release contains nothing that a build made under the profile
error: refused NoSuchProfile
```

- Look at `--profile`, and at `inherits` in the root manifest.
- For `clean`, the note names the folder of the profile. If everything in this folder was removed before, there is nothing to do.
"#,
    },
    Entry {
        name: "NoTargetFolder",
        text: r#"`pb_tool clean` found nothing to remove: no folder directly in the target folder has a unit's record or folder.

```
note: /w/target contains nothing that a build made
error: refused NoTargetFolder
```

- Look at `--target-dir`, `--manifest-path` and the variable `CARGO_TARGET_DIR`.
- If everything was removed before, there is nothing to do.
"#,
    },
    Entry {
        name: "NotInOverride",
        text: r#"An override sets a key that no override may set: `panic`, `lto` or `rpath` under `package` or `build-override` of a profile.

```
note: an override in a profile sets `panic`, `lto` or `rpath`
note: in /w/Cargo.toml, line 5, key profile.dev.package.util.panic: only the profile itself may set it
error: refused NotInOverride
```

- Move the key to the profile itself.
"#,
    },
    Entry {
        name: "NotOptional",
        text: r#"A feature names a dependency that is not optional (`dep:N`, `N?/F`).

```
note: a feature names a dependency that is not optional
note: in /w/Cargo.toml, line 4, key features.default: dep:serde names a dependency that is not optional
error: refused NotOptional
```

- Give the dependency `optional = true`, or remove the item.
"#,
    },
    Entry {
        name: "NotToml",
        text: r#"The manifest is not TOML, or not UTF-8.

```
note: `/w/Cargo.toml` is refused: the manifest is not TOML
note: in /w/Cargo.toml, line 5, column 1: duplicate key
error: refused NotToml
```

- Look for a key that is written twice, an open bracket, an open quotation mark.
- Do not nest values more than 80 levels deep.
"#,
    },
    Entry {
        name: "NothingToBuild",
        text: r#"There is no unit to build.

```
note: there is nothing to build
note: --bin ap: there is no such binary (near: app)
error: refused NothingToBuild
```

- Look at `--lib` and `--bin`: if no binary has the name, `--bin` selects nothing.
- Turn on the `required-features` of the binary.
- Check whether `src/lib.rs` or `src/main.rs` exists, and whether the file is outside the target folder.
"#,
    },
    Entry {
        name: "OldResolver",
        text: r#"Resolver 1 is not supported.

```
note: `/w/Cargo.toml` is refused: resolver 1 is not supported
note: in /w/Cargo.toml, line 3, key workspace.resolver: it must be "2" or "3"
error: refused OldResolver
```

- Remove `resolver = "1"`, or write `"2"`.
"#,
    },
    Entry {
        name: "SameBinary",
        text: r#"A package has two binaries with the same name.

```
note: a package has two binaries with the same name
note: in /w/Cargo.toml, line 7, key bin[2].name: x is the name of bin[1] too
error: refused SameBinary
```

- Look at `name` of each `[[bin]]`.
"#,
    },
    Entry {
        name: "SameName",
        text: r#"Two packages have the same name. All members count, and all packages to which path dependencies lead.

```
note: two packages have the same name
note: in /w/m1/Cargo.toml, line 2, key package.name: util is in /w/m2/Cargo.toml too
error: refused SameName
```

- Rename one of the packages.
"#,
    },
    Entry {
        name: "TooLarge",
        text: r#"The manifest is too large: more than 1,048,576 bytes.

```
note: `/w/Cargo.toml` is refused: the manifest is too long
note: in /w/Cargo.toml: it has more than 1048576 bytes
error: refused TooLarge
```

- Shorten the manifest.
"#,
    },
    Entry {
        name: "TooMany",
        text: r#"There are more than 256 packages.

```
note: there are more than 256 packages
note: in /w/Cargo.toml, line 3, key workspace.members: it names 257 members; the packages that they need are counted too
error: refused TooMany
```

- Look at `members` and at path dependencies.
"#,
    },
    Entry {
        name: "TooManyUnits",
        text: r#"There are more than 4,096 units.

```
note: there are more than 4,096 units
note: each binary is a unit: the packages have 4096 binaries
note: in /w/Cargo.toml: 4096 of these binaries; --bin NAME and -p NAME select fewer
error: refused TooManyUnits
```

- Select fewer units with `-p`, `--lib` or `--bin`.
"#,
    },
    Entry {
        name: "UnsupportedCrateType",
        text: r#"A library has a crate type that is not supported. The supported types are `lib`, `rlib` and `bin`.

```
note: `/w/Cargo.toml` is refused: the library has a crate type that is not supported
note: in /w/Cargo.toml, line 4, key lib.crate-type: "cdylib" must be "lib", "rlib" or "bin"
error: refused UnsupportedCrateType
```

- Look at `crate-type` and `proc-macro` in `[lib]`.
"#,
    },
    Entry {
        name: "UnsupportedSource",
        text: r#"A dependency has a source that is not supported: `git`, `registry`, or no `path`.

```
note: `/w/Cargo.toml` is refused: a dependency has a source other than `path`
note: in /w/Cargo.toml, line 5, key dependencies.serde: it has no path
error: refused UnsupportedSource
```

- Put the package into a folder and give its `path`.
- If the entry says `workspace = true`, look at the root's `[workspace.dependencies]`.
"#,
    },
    Entry {
        name: "UnsupportedTable",
        text: r#"A table is not supported: `target`, `patch` or `replace`.

```
note: `/w/Cargo.toml` is refused: `target`, `patch` and `replace` are not supported
note: in /w/Cargo.toml, line 3, key target: remove this table
error: refused UnsupportedTable
```

- Remove the table.
"#,
    },
    Entry {
        name: "VersionMismatch",
        text: r#"A dependency leads to a package whose version does not match.

```
note: a dependency leads to a package whose version does not match
note: in /w/Cargo.toml, line 4, key dependencies.util: it asks for util 0.2, and /w/util/Cargo.toml has 0.1.0
error: refused VersionMismatch
```

- Compare the entry's `version` with `version` in the folder of its `path`.
"#,
    },
];
