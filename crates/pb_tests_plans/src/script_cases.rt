//! Plans of packages with scripts, written by hand from the rules. The form of the cases is that of
//! `cases.rt`.

/// The cases.
pub const SCRIPT_CASES: &str = r#"=== [units.script] a script alone
@ /w/a/Cargo.toml
package.name = "a"
@ /w/a/build.rs
---
a = NothingToBuild
=== [units.run] a script, its run, the library
@ /w/a/Cargo.toml
package.name = "a"
@ /w/a/src/lib.rs
@ /w/a/build.rs
---
a = a.target.script 0; a.target.run 1; a.target.lib 2
a !whole = a.target.script 0 /; a.target.run 1 0/0; a.target.lib 2 1/0,1
=== [units.library] one package on both sides
@ /w/r/Cargo.toml
package.name = "r"
[dependencies]
x = { path = "../x" }
[build-dependencies]
x = { path = "../x" }
@ /w/r/src/lib.rs
@ /w/r/build.rs
@ /w/x/Cargo.toml
package.name = "x"
@ /w/x/src/lib.rs
@ /w/x/build.rs
---
r = x.host.script 0; x.target.script 0; x.host.run 1; x.target.run 1; x.host.lib 2; x.target.lib 2; r.target.script 3; r.target.run 4; r.target.lib 5
r !whole = x.host.script 0 /; x.target.script 0 /; x.host.run 1 0/0; x.target.run 1 1/1; x.host.lib 2 2/0,2; x.target.lib 2 3/1,3; r.target.script 3 4/0,2,4; r.target.run 4 6/0,2,4,6; r.target.lib 5 5,7/0,1,2,3,4,5,6,7
x = x.target.script 0; x.target.run 1; x.target.lib 2
=== [units.run] runs lead to runs along links
@ /w/a/Cargo.toml
package.name = "a"
[dependencies]
b = { path = "../b" }
@ /w/a/src/lib.rs
@ /w/a/build.rs
@ /w/b/Cargo.toml
package = { name = "b", links = "b" }
[dependencies]
c = { path = "../c" }
@ /w/b/src/lib.rs
@ /w/b/build.rs
@ /w/c/Cargo.toml
package = { name = "c", links = "c" }
@ /w/c/src/lib.rs
@ /w/c/build.rs
---
a = a.target.script 0; b.target.script 0; c.target.script 0; c.target.run 1; b.target.run 2; c.target.lib 2; a.target.run 3; b.target.lib 3; a.target.lib 4
a !whole = a.target.script 0 /; b.target.script 0 /; c.target.script 0 /; c.target.run 1 2/2; b.target.run 2 1,3/1,2,3; c.target.lib 2 3/2,3; a.target.run 3 0,4/0,1,2,3,4; b.target.lib 3 4,5/1,2,3,4,5; a.target.lib 4 6,7/0,1,2,3,4,5,6,7
=== [units.run] a run without links leads to no other
@ /w/a/Cargo.toml
package.name = "a"
[dependencies]
b = { path = "../b" }
@ /w/a/src/lib.rs
@ /w/a/build.rs
@ /w/b/Cargo.toml
package.name = "b"
[dependencies]
c = { path = "../c" }
@ /w/b/src/lib.rs
@ /w/b/build.rs
@ /w/c/Cargo.toml
package = { name = "c", links = "c" }
@ /w/c/src/lib.rs
@ /w/c/build.rs
---
a = a.target.script 0; b.target.script 0; c.target.script 0; a.target.run 1; c.target.run 1; b.target.run 2; c.target.lib 2; b.target.lib 3; a.target.lib 4
=== [plan.refused] a circle through a script
@ /w/a/Cargo.toml
package.name = "a"
[build-dependencies]
b = { path = "../b" }
@ /w/a/src/lib.rs
@ /w/a/build.rs
@ /w/b/Cargo.toml
package.name = "b"
[dependencies]
a = { path = "../a" }
@ /w/b/src/lib.rs
---
a = Cycle a b
b = Cycle a b
=== [plan.refused] a script that needs itself on the host
@ /w/a/Cargo.toml
package.name = "a"
[build-dependencies]
b = { path = "../b" }
@ /w/a/src/lib.rs
@ /w/a/build.rs
@ /w/b/Cargo.toml
package.name = "b"
[build-dependencies]
b = { path = "../b" }
@ /w/b/src/lib.rs
@ /w/b/build.rs
---
a = Cycle b
b = Cycle b
=== [plan.refused] a circle of libraries and runs
@ /w/a/Cargo.toml
package = { name = "a", links = "a" }
[dependencies]
b = { path = "../b" }
@ /w/a/src/lib.rs
@ /w/a/build.rs
@ /w/b/Cargo.toml
package = { name = "b", links = "b" }
[dependencies]
a = { path = "../a" }
@ /w/b/src/lib.rs
@ /w/b/build.rs
---
a = Cycle a b
=== [plan.without-library] build dependencies without libraries
@ /w/a/Cargo.toml
package.name = "a"
[build-dependencies]
c = { path = "../c" }
b = { path = "../b" }
@ /w/a/src/lib.rs
@ /w/a/build.rs
@ /w/b/Cargo.toml
package.name = "b"
@ /w/b/src/bin/b.rs
@ /w/c/Cargo.toml
package = { name = "c", links = "c" }
@ /w/c/build.rs
---
a = a.target.script 0; a.target.run 1; a.target.lib 2
a !missing = b c
=== [units.run] links without a library
@ /w/a/Cargo.toml
package.name = "a"
[dependencies]
b = { path = "../b" }
@ /w/a/src/lib.rs
@ /w/a/build.rs
@ /w/b/Cargo.toml
package = { name = "b", links = "b" }
@ /w/b/build.rs
---
a = a.target.script 0; a.target.run 1; a.target.lib 2
a !missing = b
=== [units.binary] a binary's own script
@ /w/a/Cargo.toml
package.name = "a"
[dependencies]
b = { path = "../b" }
[build-dependencies]
c = { path = "../c" }
@ /w/a/src/bin/m.rs
@ /w/a/build.rs
@ /w/b/Cargo.toml
package.name = "b"
@ /w/b/src/lib.rs
@ /w/c/Cargo.toml
package.name = "c"
@ /w/c/src/lib.rs
---
a = b.target.lib 0; c.host.lib 0; a.target.script 1; a.target.run 2; a.target.bin-m 3
a !whole = b.target.lib 0 /; c.host.lib 0 /; a.target.script 1 1/1; a.target.run 2 2/1,2; a.target.bin-m 3 0,3/0,1,2,3
=== [units.library] one library on two sides
@ /w/a/Cargo.toml
package.name = "a"
[dependencies]
b = { path = "../b" }
[build-dependencies]
b = { path = "../b" }
@ /w/a/src/lib.rs
@ /w/a/build.rs
@ /w/b/Cargo.toml
package.name = "b"
@ /w/b/src/lib.rs
---
a = b.host.lib 0; b.target.lib 0; a.target.script 1; a.target.run 2; a.target.lib 3
=== [units.script] scripts upon scripts
@ /w/a/Cargo.toml
package.name = "a"
[build-dependencies]
b = { path = "../b" }
@ /w/a/src/lib.rs
@ /w/a/build.rs
@ /w/b/Cargo.toml
package.name = "b"
[build-dependencies]
c = { path = "../c" }
@ /w/b/src/lib.rs
@ /w/b/build.rs
@ /w/c/Cargo.toml
package.name = "c"
@ /w/c/src/lib.rs
---
a = c.host.lib 0; b.host.script 1; b.host.run 2; b.host.lib 3; a.target.script 4; a.target.run 5; a.target.lib 6
=== [units.run] links on the host
@ /w/a/Cargo.toml
package.name = "a"
[build-dependencies]
b = { path = "../b" }
@ /w/a/src/lib.rs
@ /w/a/build.rs
@ /w/b/Cargo.toml
package = { name = "b", links = "b" }
[dependencies]
c = { path = "../c" }
@ /w/b/src/lib.rs
@ /w/b/build.rs
@ /w/c/Cargo.toml
package = { name = "c", links = "c" }
@ /w/c/src/lib.rs
@ /w/c/build.rs
---
a = b.host.script 0; c.host.script 0; c.host.run 1; b.host.run 2; c.host.lib 2; b.host.lib 3; a.target.script 4; a.target.run 5; a.target.lib 6
=== [units.script] an optional build dependency
@ /w/a/Cargo.toml
package.name = "a"
[build-dependencies]
b = { path = "../b", optional = true }
[features]
on = ["dep:b"]
@ /w/a/src/lib.rs
@ /w/a/build.rs
@ /w/b/Cargo.toml
package.name = "b"
@ /w/b/src/lib.rs
---
a = a.target.script 0; a.target.run 1; a.target.lib 2
a f:on = b.host.lib 0; a.target.script 1; a.target.run 2; a.target.lib 3
"#;
