//! What a build passes over, written as in `manifests.rt`.

/// The cases.
pub const CASES: &str = r#"=== [manifest.ignored] keys that nothing reads
@ /w/Cargo.toml
[package]
name = "a"
licence = "MIT"
[dependecies]
util = { path = "util" }
[profile.dev]
optlevel = 3
[package.metadata.own]
x = 1
[lints]
y = 1
@ /w/src/lib.rs
---
note: in /w/Cargo.toml, line 4, key dependecies: it is not used (near: dependencies)
note: in /w/Cargo.toml, line 3, key package.licence: it is not used (near: license)
note: in /w/Cargo.toml, line 7, key profile.dev.optlevel: it is not used (near: opt-level)
=== [manifest.ignored] keys that nothing reads in a refused workspace
@ /w/Cargo.toml
[package]
name = "a"
version = "0.1"
[[bin]]
name = "x"
requred-features = ["y"]
---
note: `/w/Cargo.toml` is refused: a version or a version requirement cannot be read
note: in /w/Cargo.toml, line 3, key package.version: "0.1" has no third number
note: in /w/Cargo.toml, line 6, key bin[1].requred-features: it is not used (near: required-features)
error: refused BadVersion
=== [members.which] a workspace above that lists the package
@ /Cargo.toml
[workspace]
members = ["v", "w*"]
@ /w/Cargo.toml
[package]
name = "a"
@ /w/src/lib.rs
---
note: in /Cargo.toml, line 2, key workspace.members: it lists /w: call pb_tool in the folder of this manifest, or give --manifest-path /Cargo.toml
=== [units.roots] binaries of which one is not there: --bin a --bin b
@ /w/Cargo.toml
[package]
name = "a"
@ /w/src/main.rs
---
note: --bin b: there is no such binary
=== [manifest.ignored] more than nine
@ /w/Cargo.toml
[package]
name = "a b"
a1 = 1
a2 = 1
a3 = 1
a4 = 1
a5 = 1
a6 = 1
a7 = 1
a8 = 1
a9 = 1
b1 = 1
---
note: `/w/Cargo.toml` is refused: a name is missing or has letters that are not allowed
note: in /w/Cargo.toml, line 2, key package.name: "a b" may contain only ASCII letters, digits, - and _, and must not be empty
note: in /w/Cargo.toml, line 3, key package.a1: it is not used
note: in /w/Cargo.toml, line 4, key package.a2: it is not used
note: in /w/Cargo.toml, line 5, key package.a3: it is not used
note: in /w/Cargo.toml, line 6, key package.a4: it is not used
note: in /w/Cargo.toml, line 7, key package.a5: it is not used
note: in /w/Cargo.toml, line 8, key package.a6: it is not used
note: in /w/Cargo.toml, line 9, key package.a7: it is not used
note: and 3 more
error: refused BadName
"#;
