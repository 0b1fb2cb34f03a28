//! What is checked of all packages together: cases as in `cases.rt` above.

/// The cases.
pub const CHECKED: &str = r#"=== [load.checks] two written binaries of one name
@ /w/Cargo.toml
package.name = "a"
[[bin]]
name = "x"
path = "y.rs"
[[bin]]
name = "x"
path = "z.rs"
---
SameBinary
=== [load.checks] a native library without a script
@ /w/Cargo.toml
package = { name = "a", links = "" }
---
LinksWithoutScript
=== [load.checks] the same without a version to give
@ /w/Cargo.toml
[workspace]
members = ["m*"]
exclude = ["m2", "e"]
@ /w/m1/Cargo.toml
[package]
name = "m1"
version.workspace = true
---
NoInherited
=== [load.checks] a dependency's package has another name
@ /w/Cargo.toml
package.name = "a"
dependencies.q = { path = "b" }
@ /w/b/Cargo.toml
package.name = "b"
---
NameMismatch
=== [load.checks] a dependency that is renamed
@ /w/Cargo.toml
package.name = "a"
[dependencies]
q = { path = "b", package = "b-b" }
b-b = { path = "b", package = "b-b", default-features = false, features = ["y", "x"] }
@ /w/b/Cargo.toml
package.name = "b-b"
---
/w a 0.0.0 2015
  dep b-b 1 no-default y x
  dep q 1 renamed
/w/b b-b 0.0.0 2015 other
root 0
=== [load.checks] a dependency of another version
@ /w/Cargo.toml
package.name = "a"
dependencies.b = { path = "b", version = "2" }
@ /w/b/Cargo.toml
package = { name = "b", version = "0.1.0" }
---
VersionMismatch
=== [load.checks] versions that match
@ /w/Cargo.toml
package.name = "a"
[dependencies]
b = { path = "b", version = "1.2" }
[build-dependencies]
b = { path = "b", version = ">=1, <1.4" }
@ /w/b/Cargo.toml
package = { name = "b", version = "1.3.5" }
---
/w a 0.0.0 2015
  dep b 1
  build-dep b 1
/w/b b 1.3.5 2015 other
root 0
=== [load.checks] the name is looked at before the version
@ /w/Cargo.toml
package.name = "a"
[dependencies]
b = { path = "b", version = "2" }
c = { path = "b" }
@ /w/b/Cargo.toml
package = { name = "b", version = "1.0.0" }
---
NameMismatch
=== [load.checks] two packages of one name
@ /w/Cargo.toml
[workspace]
members = ["a", "b"]
@ /w/a/Cargo.toml
package.name = "x"
@ /w/b/Cargo.toml
package.name = "x"
---
SameName
=== [load.checks] also where one is no member, and before all other checks
@ /w/Cargo.toml
package = { name = "x", links = "z" }
[dependencies]
y = { path = "../o", version = "9" }
@ /o/Cargo.toml
package.name = "x"
---
SameName
=== [load.checks] two packages that link one library
@ /w/Cargo.toml
package = { name = "a", links = "z", build = true }
dependencies.b = { path = "../b" }
@ /b/Cargo.toml
package = { name = "b", links = "z", build = true }
---
LinksTwice
=== [load.checks] linking twice is told before linking without a script
@ /w/Cargo.toml
package = { name = "a", links = "z" }
dependencies.b = { path = "../b" }
[[bin]]
name = "x"
[[bin]]
name = "x"
@ /b/Cargo.toml
package = { name = "b", links = "z", build = true }
---
LinksTwice
=== [load.checks] a missing script is told before two binaries of one name
@ /w/Cargo.toml
package = { name = "a", links = "z" }
[[bin]]
name = "x"
[[bin]]
name = "x"
---
LinksWithoutScript
=== [load.checks] a version is told before links
@ /w/Cargo.toml
package = { name = "a", links = "z" }
dependencies.b = { path = "b", version = "1" }
@ /w/b/Cargo.toml
package.name = "b"
---
VersionMismatch
"#;
