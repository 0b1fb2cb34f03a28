//! Which packages are selected: cases as in `cases.rt` above.

/// The cases.
pub const SELECTED: &str = r#"=== [select.order] one package: - * a b
@ /w/Cargo.toml
package.name = "a"
---
/w a 0.0.0 2015
root 0
- = 0
* = 0
a = 0
b = NoSuchPackage
=== [select.order] no package at all: - *
@ /w/Cargo.toml
[workspace]
---
- =
* =
=== [select.order] default members: - * b
@ /w/Cargo.toml
[workspace]
members = ["a", "b", "c"]
default-members = ["c", "a"]
@ /w/a/Cargo.toml
package.name = "a"
@ /w/b/Cargo.toml
package.name = "b"
@ /w/c/Cargo.toml
package.name = "c"
---
/w/a a 0.0.0 2015
/w/b b 0.0.0 2015
/w/c c 0.0.0 2015
default 0 2
- = 0 2
* = 0 1 2
b = 1
=== [select.default-members] a glob of default members picks among the members: -
@ /w/Cargo.toml
[workspace]
members = ["a*"]
default-members = ["?1", "z*"]
@ /w/a1/Cargo.toml
package.name = "a1"
@ /w/a2/Cargo.toml
package.name = "a2"
@ /w/b1/Cargo.toml
package.name = "b1"
---
/w/a1 a1 0.0.0 2015
/w/a2 a2 0.0.0 2015
default 0
- = 0
=== [select.default-members] a default member that is none, told only where it decides: - * a b
@ /w/Cargo.toml
package.name = "r"
dependencies.o = { path = "../o" }
[workspace]
members = ["a"]
default-members = ["a", "../o"]
@ /w/a/Cargo.toml
package.name = "a"
@ /o/Cargo.toml
package.name = "o"
---
/o o 0.0.0 2015 other
/w r 0.0.0 2015
  dep o 0
/w/a a 0.0.0 2015
root 1
default unknown
- = NoSuchPackage
* = 1 2
a = 2
b = NoSuchPackage
=== [select.order] no default members: - *
@ /w/Cargo.toml
package.name = "r"
[workspace]
default-members = []
---
/w r 0.0.0 2015
root 0
default
- =
* = 0
=== [select.order] the root package by default: - *
@ /w/Cargo.toml
package.name = "r"
workspace.members = ["a"]
@ /w/a/Cargo.toml
package.name = "a"
---
/w r 0.0.0 2015
/w/a a 0.0.0 2015
root 0
- = 0
* = 0 1
=== [select.order] the root folder as a default member: -
@ /w/Cargo.toml
package.name = "r"
workspace = { members = ["a"], default-members = ["."] }
@ /w/a/Cargo.toml
package.name = "a"
---
/w r 0.0.0 2015
/w/a a 0.0.0 2015
root 0
default 0
- = 0
"#;
