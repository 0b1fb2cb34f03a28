//! Mistakes in features, profiles, binaries and circles, written as in `manifests.rt`.

/// The cases.
pub const CASES: &str = r#"=== [resolve.requested] no such feature: --features fsat
@ /w/Cargo.toml
[package]
name = "a"
[features]
fast = []
@ /w/src/lib.rs
---
note: a requested feature does not exist
note: --features fsat: no package has it (near: fast)
error: refused NoSuchFeature
=== [resolve.requested] no such feature of a package: --features a/fastt
@ /w/Cargo.toml
[package]
name = "a"
[features]
fast = []
@ /w/src/lib.rs
---
note: a requested feature does not exist
note: --features a/fastt: a has no feature fastt (near: fast)
error: refused NoSuchFeature
=== [resolve.asked] no such feature of a dependency
@ /w/Cargo.toml
[package]
name = "a"
[dependencies]
util = { path = "util", features = ["quik"] }
@ /w/src/lib.rs
@ /w/util/Cargo.toml
[package]
name = "util"
[features]
quick = []
@ /w/util/src/lib.rs
---
note: a requested feature does not exist
note: in /w/Cargo.toml, line 4, key dependencies.util: util has no feature quik (near: quick)
error: refused NoSuchFeature
=== [resolve.refused] an item that names no feature
@ /w/Cargo.toml
[package]
name = "a"
[features]
default = ["fastt"]
fast = []
@ /w/src/lib.rs
---
note: a requested feature does not exist
note: in /w/Cargo.toml, line 4, key features.default: fastt is neither a feature nor an optional dependency (near: fast)
error: refused NoSuchFeature
=== [resolve.refused] an item that names no dependency
@ /w/Cargo.toml
[package]
name = "a"
[features]
default = ["dep:serd"]
[dependencies]
serde = { path = "serde", optional = true }
@ /w/src/lib.rs
@ /w/serde/Cargo.toml
[package]
name = "serde"
---
note: a feature names a dependency that does not exist
note: in /w/Cargo.toml, line 4, key features.default: dep:serd names no dependency (near: serde)
error: refused NoSuchDependency
=== [resolve.refused] an item that names no optional dependency
@ /w/Cargo.toml
[package]
name = "a"
[features]
default = ["dep:serde"]
[dependencies]
serde = { path = "serde" }
@ /w/src/lib.rs
@ /w/serde/Cargo.toml
[package]
name = "serde"
---
note: a feature names a dependency that is not optional
note: in /w/Cargo.toml, line 4, key features.default: dep:serde names a dependency that is not optional
error: refused NotOptional
=== [settings.refused] no such profile: --profile relase
@ /w/Cargo.toml
[package]
name = "a"
@ /w/src/lib.rs
---
note: a requested profile does not exist
note: --profile names relase (near: release)
error: refused NoSuchProfile
=== [settings.refused] no such profile to inherit from: --profile small
@ /w/Cargo.toml
[package]
name = "a"
[profile.small]
inherits = "relase"
@ /w/src/lib.rs
---
note: a requested profile does not exist
note: in /w/Cargo.toml, line 4, key profile.small.inherits: it names relase (near: release)
error: refused NoSuchProfile
=== [settings.refused] profiles that inherit from one another: --profile one
@ /w/Cargo.toml
[package]
name = "a"
[profile.one]
inherits = "two"
[profile.two]
inherits = "one"
@ /w/src/lib.rs
---
note: profiles inherit from one another
note: in /w/Cargo.toml: one -> two -> one
error: refused InheritsCycle
=== [settings.refused] an override that sets too much
@ /w/Cargo.toml
[package]
name = "a"
[profile.dev.package.util]
opt-level = 3
panic = "abort"
@ /w/src/lib.rs
---
note: an override in a profile sets `panic`, `lto` or `rpath`
note: in /w/Cargo.toml, line 5, key profile.dev.package.util.panic: only the profile itself may set it
error: refused NotInOverride
=== [units.roots] no such binary: --bin ap
@ /w/Cargo.toml
[package]
name = "app"
@ /w/src/main.rs
---
note: there is nothing to build
note: --bin ap: there is no such binary (near: app)
error: refused NothingToBuild
=== [units.roots] a binary that requires a feature: --bin mean
@ /w/Cargo.toml
[package]
name = "app"
[features]
mean = []
[[bin]]
name = "mean"
required-features = ["mean"]
@ /w/src/bin/mean.rs
---
note: there is nothing to build
note: in /w/Cargo.toml, line 7, key bin[1].required-features: mean is left out unless these features are on: mean
error: refused NothingToBuild
=== [plan.refused] a workspace without members
@ /w/Cargo.toml
[workspace]
---
note: there is nothing to build
note: in /w/Cargo.toml: the workspace has no members
error: refused NothingToBuild
=== [members.globs] a pattern that matches nothing
@ /w/Cargo.toml
[workspace]
members = ["crates/*"]
---
note: there is nothing to build
note: in /w/Cargo.toml, line 2, key workspace.members: crates/* matches no package
note: in /w/Cargo.toml: the workspace has no members
error: refused NothingToBuild
=== [plan.refused] packages that depend on one another
@ /w/Cargo.toml
[workspace]
members = ["core-lib", "util", "app"]
@ /w/core-lib/Cargo.toml
[package]
name = "core-lib"
[dependencies]
util = { path = "../util" }
@ /w/core-lib/src/lib.rs
@ /w/util/Cargo.toml
[package]
name = "util"
[dependencies]
core-lib = { path = "../core-lib" }
@ /w/util/src/lib.rs
@ /w/app/Cargo.toml
[package]
name = "app"
[dependencies]
util = { path = "../util" }
@ /w/app/src/lib.rs
---
note: packages depend on one another: core-lib util
note: core-lib -> util -> core-lib
error: refused Cycle
"#;
