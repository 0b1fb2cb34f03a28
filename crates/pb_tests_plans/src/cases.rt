//! Plans of packages without scripts, written by hand from the rules.
//!
//! A case has the files of the folders in `/w`, each after a line `@ PATH`, and a line `---`. After
//! this line come requests, each with the plan or the refusal. A plan has the units in order, each
//! with its key and its level. With `!whole`, each unit also has the indices of the units that it
//! needs and reaches.
//!
//! In a request, a name means `-p`, `f:TEXT` means `--features`, and `lib`, `bins` and `bin:NAME`
//! mean `--lib`, `--bins` and `--bin`. `@NAME` is a profile. `!missing` requests the dependencies
//! without a library.

/// The cases.
pub const CASES: &str = r#"=== [units.library] a library
@ /w/a/Cargo.toml
package.name = "a"
@ /w/a/src/lib.rs
---
a = a.target.lib 0
a !whole = a.target.lib 0 /
a lib = a.target.lib 0
a bins = NothingToBuild
a @release = a.target.lib 0
a @nope = NoSuchProfile
a @debug = NoSuchProfile
=== [plan.refused] nothing to build
@ /w/m/Cargo.toml
package.name = "m"
---
m = NothingToBuild
m @nope = NoSuchProfile
=== [plan.order] a dependency comes first, whatever the names
@ /w/a-b/Cargo.toml
package.name = "a-b"
@ /w/a-b/src/lib.rs
@ /w/r/Cargo.toml
package.name = "r"
[dependencies]
a-b = { path = "../a-b" }
@ /w/r/src/lib.rs
---
r = a-b.target.lib 0; r.target.lib 1
a-b r = a-b.target.lib 0; r.target.lib 1
a-b = a-b.target.lib 0
=== [units.library] an optional dependency
@ /w/p/Cargo.toml
package.name = "p"
[dependencies]
x = { path = "../x", optional = true }
[features]
withx = ["dep:x"]
@ /w/p/src/lib.rs
@ /w/x/Cargo.toml
package.name = "x"
@ /w/x/src/lib.rs
---
p = p.target.lib 0
p f:withx = x.target.lib 0; p.target.lib 1
=== [plan.refused] a circle of two
@ /w/a/Cargo.toml
package.name = "a"
[dependencies]
b = { path = "../b" }
@ /w/a/src/lib.rs
@ /w/b/Cargo.toml
package.name = "b"
[dependencies]
a = { path = "../a" }
@ /w/b/src/lib.rs
---
a = Cycle a b
b = Cycle a b
a b = Cycle a b
a @nope = NoSuchProfile
=== [plan.refused] a circle through an entry that is off
@ /w/a/Cargo.toml
package.name = "a"
[dependencies]
b = { path = "../b" }
@ /w/a/src/lib.rs
@ /w/b/Cargo.toml
package.name = "b"
[dependencies]
a = { path = "../a", optional = true }
@ /w/b/src/lib.rs
---
a = b.target.lib 0; a.target.lib 1
b = b.target.lib 0
=== [plan.refused] a package that depends on itself
@ /w/a/Cargo.toml
package.name = "a"
[dependencies]
a = { path = "../a" }
@ /w/a/src/lib.rs
---
a = Cycle a
=== [units.script] a build dependency without a script is not built
@ /w/a/Cargo.toml
package.name = "a"
[build-dependencies]
b = { path = "../b" }
@ /w/a/src/lib.rs
@ /w/b/Cargo.toml
package.name = "b"
[dependencies]
a = { path = "../a" }
@ /w/b/src/lib.rs
---
a = a.target.lib 0
b = a.target.lib 0; b.target.lib 1
=== [plan.refused] packages that only lead to a circle are not told
@ /w/a/Cargo.toml
package.name = "a"
[dependencies]
b = { path = "../b" }
@ /w/a/src/lib.rs
@ /w/b/Cargo.toml
package.name = "b"
[dependencies]
c = { path = "../c" }
@ /w/b/src/lib.rs
@ /w/c/Cargo.toml
package.name = "c"
[dependencies]
b = { path = "../b" }
@ /w/c/src/lib.rs
@ /w/d/Cargo.toml
package.name = "d"
@ /w/d/src/lib.rs
---
a = Cycle b c
d = d.target.lib 0
a d = Cycle b c
=== [plan.without-library] a dependency without a library
@ /w/a/Cargo.toml
package.name = "a"
[dependencies]
b = { path = "../b" }
@ /w/a/src/lib.rs
@ /w/b/Cargo.toml
package.name = "b"
@ /w/b/src/bin/b.rs
---
a = a.target.lib 0
a !missing = b
a b = a.target.lib 0; b.target.bin-b 0
=== [plan.without-library] an entry that is off has no library to be missed
@ /w/a/Cargo.toml
package.name = "a"
[dependencies]
b = { path = "../b", optional = true }
@ /w/a/src/lib.rs
@ /w/b/Cargo.toml
package.name = "b"
---
a = a.target.lib 0
a !missing = 
=== [units.roots] a library and two binaries
@ /w/a/Cargo.toml
package.name = "a"
@ /w/a/src/lib.rs
@ /w/a/src/bin/x.rs
@ /w/a/src/bin/y.rs
---
a = a.target.lib 0; a.target.bin-x 1; a.target.bin-y 1
a lib = a.target.lib 0
a bins = a.target.lib 0; a.target.bin-x 1; a.target.bin-y 1
a bin:y = a.target.lib 0; a.target.bin-y 1
a bin:y bin:x bin:y = a.target.lib 0; a.target.bin-x 1; a.target.bin-y 1
a bin:z = NothingToBuild
a lib bin:z = a.target.lib 0
=== [units.roots] two binaries
@ /w/a/Cargo.toml
package.name = "a"
@ /w/a/src/bin/x.rs
@ /w/a/src/bin/y.rs
---
a = a.target.bin-x 0; a.target.bin-y 0
a lib = NothingToBuild
=== [units.roots] a binary that requires a feature
@ /w/a/Cargo.toml
package.name = "a"
[features]
f = []
[[bin]]
name = "x"
required-features = ["f"]
@ /w/a/src/lib.rs
@ /w/a/src/bin/y.rs
---
a = a.target.lib 0; a.target.bin-y 1
a f:f = a.target.lib 0; a.target.bin-x 1; a.target.bin-y 1
a bin:x = NothingToBuild
a bin:x f:f = a.target.lib 0; a.target.bin-x 1
=== [plan.order] a diamond
@ /w/a/Cargo.toml
package.name = "a"
[dependencies]
b = { path = "../b" }
c = { path = "../c" }
@ /w/a/src/lib.rs
@ /w/b/Cargo.toml
package.name = "b"
[dependencies]
d = { path = "../d" }
@ /w/b/src/lib.rs
@ /w/c/Cargo.toml
package.name = "c"
[dependencies]
d = { path = "../d" }
@ /w/c/src/lib.rs
@ /w/d/Cargo.toml
package.name = "d"
@ /w/d/src/lib.rs
---
a = d.target.lib 0; b.target.lib 1; c.target.lib 1; a.target.lib 2
a !whole = d.target.lib 0 /; b.target.lib 1 0/0; c.target.lib 1 0/0; a.target.lib 2 1,2/0,1,2
=== [plan.order] levels come before names
@ /w/a/Cargo.toml
package.name = "a"
@ /w/a/src/lib.rs
@ /w/b/Cargo.toml
package.name = "b"
[dependencies]
z = { path = "../z" }
@ /w/b/src/lib.rs
@ /w/z/Cargo.toml
package.name = "z"
@ /w/z/src/lib.rs
---
a b = a.target.lib 0; z.target.lib 0; b.target.lib 1
=== [plan.order] byte order of keys
@ /w/A/Cargo.toml
package.name = "A"
@ /w/A/src/lib.rs
@ /w/a/Cargo.toml
package.name = "a"
@ /w/a/src/lib.rs
@ /w/a-b/Cargo.toml
package.name = "a-b"
@ /w/a-b/src/lib.rs
@ /w/a_b/Cargo.toml
package.name = "a_b"
@ /w/a_b/src/lib.rs
---
A a a-b a_b = A.target.lib 0; a-b.target.lib 0; a.target.lib 0; a_b.target.lib 0
=== [units.library] two entries of one package
@ /w/a/Cargo.toml
package.name = "a"
[dependencies]
b = { path = "../b" }
other = { path = "../b", package = "b" }
@ /w/a/src/lib.rs
@ /w/b/Cargo.toml
package.name = "b"
@ /w/b/src/lib.rs
---
a !whole = b.target.lib 0 /; a.target.lib 1 0/0
=== [units.roots] the binaries of the selected packages alone
@ /w/a/Cargo.toml
package.name = "a"
[dependencies]
c = { path = "../c" }
@ /w/a/src/lib.rs
@ /w/b/Cargo.toml
package.name = "b"
[dependencies]
c = { path = "../c" }
@ /w/b/src/lib.rs
@ /w/c/Cargo.toml
package.name = "c"
@ /w/c/src/lib.rs
@ /w/c/src/bin/x.rs
---
a b = c.target.lib 0; a.target.lib 1; b.target.lib 1
c = c.target.lib 0; c.target.bin-x 1
a b c bin:x = c.target.lib 0; c.target.bin-x 1
=== [plan.order] what is needed twice is reached once
@ /w/a/Cargo.toml
package.name = "a"
[dependencies]
b = { path = "../b" }
c = { path = "../c" }
@ /w/a/src/lib.rs
@ /w/b/Cargo.toml
package.name = "b"
[dependencies]
c = { path = "../c" }
@ /w/b/src/lib.rs
@ /w/c/Cargo.toml
package.name = "c"
@ /w/c/src/lib.rs
---
a !whole = c.target.lib 0 /; b.target.lib 1 0/0; a.target.lib 2 0,1/0,1
"#;
