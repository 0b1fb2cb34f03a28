//! `[lib]` and `[[bin]]` (The Cargo Book, Cargo Targets). A case is a line `=== [RULE] NAME`, a
//! manifest, and after a line `---` the answer.

/// The cases.
pub const TARGETS: &str = r#"=== [lib.crate-type] an empty table
package.name = "a"
[lib]
---
a 0.0.0 E2015 lib()
=== [lib.crate-type] every type, and every other key
package.name = "a"
[lib]
crate-type = ["lib", "rlib", "bin"]
name = "b_1"
path = "l.rs"
proc-macro = false
---
a 0.0.0 E2015 lib(Lib,Rlib,Bin, name=b_1 path=l.rs)
=== [manifest.ignored] keys of `[lib]` that no rule names
package.name = "a"
lib = { crate-type = [], crate_type = 1, proc_macro = true, doctest = 1, plugin = 1 }
---
a 0.0.0 E2015 lib()
=== [lib.crate-type] a dynamic library
package.name = "a"
lib.crate-type = ["lib", "cdylib"]
---
UnsupportedCrateType
=== [lib.proc-macro] true
package.name = "a"
lib.proc-macro = true
---
UnsupportedCrateType
=== [lib.crate-type] a text
package.name = "a"
lib.crate-type = "lib"
---
BadKind(CrateType)
=== [manifest.order] a number in the list comes before a bad type
package.name = "a"
lib.crate-type = [1, "dylib"]
---
BadKind(CrateType)
=== [manifest.order] a bad type comes before a number in the list
package.name = "a"
lib = { crate-type = ["dylib", 1], name = "-" }
---
UnsupportedCrateType
=== [lib.name] with a dash
package.name = "a"
lib.name = "a-b"
---
BadName
=== [manifest.order] `name` comes before `path`
package.name = "a"
lib = { name = "", path = 1 }
---
BadName
=== [lib.path] byte 0
package.name = "a"
lib.path = "\u0000"
---
BadKind(Path)
=== [lib.proc-macro] a number
package.name = "a"
lib.proc-macro = 1
---
BadKind(ProcMacro)
=== [manifest.order] `[lib]` comes before `[[bin]]`
package.name = "a"
lib = 1
bin = 1
---
BadKind(Lib)
=== [bin.path] binaries in the order in which they are written
package.name = "a"
[[bin]]
name = "z"
path = "z.rs"
required-features = ["f", "g"]
[[bin]]
name = "b"
crate-type = 1
[[bin]]
name = "z"
---
a 0.0.0 E2015 bin(z path=z.rs required=f+g) bin(b) bin(z)
=== [bin.name] absent
package.name = "a"
[[bin]]
path = 1
---
BadName
=== [bin.name] with a dot, before a number in the list
package.name = "a"
bin = [{ name = "b.c" }, 1]
---
BadName
=== [manifest.kinds] a number in the list of binaries
package.name = "a"
bin = [{ name = "b" }, 1]
---
BadKind(Bin)
=== [manifest.kinds] binaries that are a table
package.name = "a"
bin = { name = "b" }
---
BadKind(Bin)
=== [bin.path] byte 0, before `required-features`
package.name = "a"
bin = [{ name = "b", path = "\u0000", required-features = 1 }]
---
BadKind(Path)
=== [bin.required-features] a text
package.name = "a"
bin = [{ name = "b", required-features = "f" }]
---
BadKind(RequiredFeatures)
=== [manifest.order] `path` comes before `proc-macro`
package.name = "a"
lib = { path = 1, proc-macro = true }
---
BadKind(Path)
=== [lib.name] a number
package.name = "a"
lib.name = 1
---
BadKind(Name)
=== [lib.name] not ASCII
package.name = "a"
lib.name = "ä"
---
BadName
=== [lib.path] byte 0 inside
package.name = "a"
lib.path = "l\u0000.rs"
---
BadKind(Path)
=== [bin.name] a number
package.name = "a"
bin = [{ name = 1, path = 1 }]
---
BadKind(Name)
=== [bin.name] empty
package.name = "a"
bin = [{ name = "" }]
---
BadName
=== [bin.required-features] a number in the list
package.name = "a"
bin = [{ name = "b", required-features = [1] }]
---
BadKind(RequiredFeatures)
=== [bin.path] a number, before the next binary
package.name = "a"
bin = [{ name = "b", path = 1 }, { name = "" }]
---
BadKind(Path)
=== [bin.path] empty
package.name = "a"
bin = [{ name = "b", path = "", required-features = [] }]
---
a 0.0.0 E2015 bin(b path=)
"#;
