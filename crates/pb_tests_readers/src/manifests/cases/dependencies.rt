//! The tables of dependencies (The Cargo Book, Specifying Dependencies). A case is a line `===
//! [RULE] NAME`, a manifest, and after a line `---` the answer.

/// The cases.
pub const DEPENDENCIES: &str = r#"=== [dependencies.path] entries of both tables
package.name = "a"
dependencies.q.path = "b"
build-dependencies.q.path = "c"
---
a 0.0.0 E2015 dep(q path=b) build-dep(q path=c)
=== [dependencies.flags] an entry with every key, and one that no rule names
package.name = "a"
[dependencies.q]
path = ""
package = "p-p"
version = ">=1, <2"
optional = true
default-features = false
features = ["f", "g h"]
unknown = 1
---
a 0.0.0 E2015 dep(q path= package=p-p version=>=1, <2 default-features=false optional features=f+g h)
=== [dependencies.key] keys with a dash and a line below
package.name = "a"
[dependencies]
b-c = { path = "2", default-features = true, optional = false, default_features = 1 }
a_b = { path = "1" }
---
a 0.0.0 E2015 dep(a_b path=1) dep(b-c path=2)
=== [dependencies.workspace] an entry that is taken, with keys that have no effect
package.name = "a"
dependencies.q = { workspace = true, path = "b", package = "p", version = "1", optional = true, default-features = false, features = ["f"] }
---
a 0.0.0 E2015 dep(q ^ optional features=f)
=== [dependencies.text] a requirement alone
package.name = "a"
dependencies.s = "1"
---
UnsupportedSource
=== [dependencies.text] a text that is no requirement
package.name = "a"
dependencies.s = "junk"
---
UnsupportedSource
=== [dependencies.source] a key `git` of any kind
package.name = "a"
dependencies.s = { path = "s", git = 1 }
---
UnsupportedSource
=== [dependencies.source] a key `registry` of any kind
package.name = "a"
dependencies.s = { path = "s", registry = false }
---
UnsupportedSource
=== [dependencies.source] `git` beside `workspace`
package.name = "a"
dependencies.s = { workspace = true, git = "g" }
---
UnsupportedSource
=== [dependencies.source] no path, and a version that is no requirement
package.name = "a"
dependencies.s = { version = "junk" }
---
UnsupportedSource
=== [dependencies.source] no path, and `workspace = false`
package.name = "a"
dependencies.s = { workspace = false }
---
UnsupportedSource
=== [dependencies.version] a version that is no requirement
package.name = "a"
dependencies.s = { path = "q", version = "junk" }
---
BadVersion
=== [dependencies.version] a version that is no requirement, in an entry that is taken
package.name = "a"
dependencies.s = { workspace = true, version = "junk" }
---
BadVersion
=== [dependencies.version] an empty version
package.name = "a"
dependencies.s = { path = "q", version = "" }
---
BadVersion
=== [dependencies.version] an operator alone
package.name = "a"
dependencies.s = { path = "q", version = ">" }
---
BadVersion
=== [dependencies.version] four numbers
package.name = "a"
dependencies.s = { path = "q", version = "1.2.3.4" }
---
BadVersion
=== [dependencies.workspace] `workspace = false` beside a path
package.name = "a"
dependencies.s = { path = "q", workspace = false }
---
BadKind(Workspace)
=== [dependencies.workspace] `workspace` as a text
package.name = "a"
dependencies.s = { path = "q", workspace = "true" }
---
BadKind(Workspace)
=== [dependencies.text] an entry that is a number
package.name = "a"
dependencies.s = 1
---
BadKind(Dependencies)
=== [dependencies.text] an entry that is a list
package.name = "a"
build-dependencies.s = ["1"]
---
BadKind(BuildDependencies)
=== [manifest.kinds] `[dependencies]` that is a list
package.name = "a"
dependencies = []
---
BadKind(Dependencies)
=== [dependencies.key] a key with a dot comes before its entry
package.name = "a"
dependencies."a.b" = 1
---
BadName
=== [dependencies.key] an empty key comes before its entry
package.name = "a"
dependencies."" = { git = 1 }
---
BadName
=== [dependencies.path] a path of byte 0
package.name = "a"
dependencies.s = { path = "\u0000" }
---
BadKind(Path)
=== [dependencies.path] a path that is a number, in an entry that is taken
package.name = "a"
dependencies.s = { workspace = true, path = 1 }
---
BadKind(Path)
=== [manifest.order] `default-features` comes before `features`
package.name = "a"
dependencies.s = { path = "s", default-features = 1, features = 1 }
---
BadKind(DefaultFeatures)
=== [manifest.order] `features` comes before `git`
package.name = "a"
dependencies.s = { git = "g", features = "f" }
---
BadKind(Features)
=== [manifest.order] `git` comes before `optional`
package.name = "a"
dependencies.s = { git = "g", optional = 1 }
---
UnsupportedSource
=== [manifest.order] `optional` comes before `package`
package.name = "a"
dependencies.s = { optional = 1, package = 1 }
---
BadKind(Optional)
=== [dependencies.package] a package that is a number
package.name = "a"
dependencies.s = { package = 1 }
---
BadKind(Package)
=== [manifest.order] `version` comes before `workspace`
package.name = "a"
dependencies.s = { path = "s", version = 1, workspace = false }
---
BadKind(Version)
=== [manifest.order] the first entry is a number
package.name = "a"
dependencies = { s = 1, t = "1" }
---
BadKind(Dependencies)
=== [manifest.order] the first entry has no path
package.name = "a"
dependencies = { t = 1, s = "1" }
---
UnsupportedSource
=== [manifest.order] `[dependencies]` comes before `[build-dependencies]`
package.name = "a"
build-dependencies.s = 1
dependencies.s = "1"
---
UnsupportedSource
=== [dependencies.text] a requirement alone, for scripts
package.name = "a"
build-dependencies.s = "1"
---
UnsupportedSource
=== [dependencies.source] `git` beside a path, for scripts
package.name = "a"
build-dependencies.s = { path = "s", git = "g" }
---
UnsupportedSource
=== [dependencies.source] `registry` beside a path, for scripts
package.name = "a"
build-dependencies.s = { path = "s", registry = "r" }
---
UnsupportedSource
=== [dependencies.source] an empty entry, for scripts
package.name = "a"
build-dependencies.s = {}
---
UnsupportedSource
=== [dependencies.source] `registry` beside `workspace`
package.name = "a"
dependencies.s = { workspace = true, registry = "r" }
---
UnsupportedSource
=== [manifest.order] `path` comes before `registry`
package.name = "a"
dependencies.s = { path = 1, registry = 1 }
---
BadKind(Path)
=== [manifest.order] `registry` comes before `version`
package.name = "a"
dependencies.s = { path = "s", registry = 1, version = 1 }
---
UnsupportedSource
=== [dependencies.features] a feature that is a number
package.name = "a"
dependencies.s = { path = "s", features = ["f", 1] }
---
BadKind(Features)
=== [dependencies.features] names and features with blanks
package.name = "a"
dependencies.s = { path = "s", package = "p p", features = ["a b"] }
---
a 0.0.0 E2015 dep(s path=s package=p p features=a b)
=== [dependencies.workspace] an entry that scripts take
package.name = "a"
build-dependencies.s.workspace = true
---
a 0.0.0 E2015 build-dep(s ^)
=== [dependencies.flags] default features of an entry that is taken
package.name = "a"
dependencies.s = { workspace = true, default-features = true }
---
a 0.0.0 E2015 dep(s ^ default-features=true)
=== [manifest.ignored] `[dev-dependencies]`, of which only the keys count
package.name = "a"
dev-dependencies = { z = 1, "a b" = { git = 1 }, "" = [] }
---
a 0.0.0 E2015 dev-deps=+a b+z
=== [manifest.order] `[build-dependencies]` comes before `[features]`
package.name = "a"
build-dependencies = 1
features = 1
---
BadKind(BuildDependencies)
"#;
