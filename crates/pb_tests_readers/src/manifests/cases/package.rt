//! Whole documents and `[package]` (The Cargo Book, Manifest Format). A case is a line `=== [RULE]
//! NAME`, a manifest, and after a line `---` the answer.

/// The cases.
pub const PACKAGE: &str = r#"=== [package.name] a name alone
package.name = "a"
---
a 0.0.0 E2015
=== [package.version] a name, a version and an edition
package = { name = "a", version = "0.1.0", edition = "2021" }
---
a 0.1.0 E2021
=== [package.version] a version with every part, and a long name
package = { name = "A-b_9", version = "1.2.3-alpha.1+build", edition = "2024" }
---
A-b_9 1.2.3-alpha.1+build E2024
=== [package.edition] 2018
package = { name = "a", edition = "2018" }
---
a 0.0.0 E2018
=== [package.edition] 2015
package = { name = "a", edition = "2015" }
---
a 0.0.0 E2015
=== [package.texts] every text
[package]
name = "a"
authors = ["x", "y"]
description = "d"
homepage = "h"
license = "l"
license-file = "f"
links = "k"
readme = "r"
repository = "p"
rust-version = "1.7"
---
a 0.0.0 E2015 authors=x+y description=d homepage=h license=l license-file=f links=k readme=r repository=p rust-version=1.7
=== [package.inherited] every key that may be inherited
[package]
name = "a"
authors.workspace = true
description.workspace = true
edition.workspace = true
homepage.workspace = true
license.workspace = true
license-file.workspace = true
readme.workspace = true
repository.workspace = true
rust-version.workspace = true
version = { workspace = true, more = 1 }
---
a ^ ^ authors=^ description=^ homepage=^ license=^ license-file=^ readme=^ repository=^ rust-version=^
=== [package.links] empty
package = { name = "a", links = "" }
---
a 0.0.0 E2015 links=
=== [package.build] true
package = { name = "a", build = true }
---
a 0.0.0 E2015 build=true
=== [package.build] false
package = { name = "a", build = false }
---
a 0.0.0 E2015 build=false
=== [package.build] a path
package = { name = "a", build = "b/s.rs" }
---
a 0.0.0 E2015 build=b/s.rs
=== [package.autobins] false
package = { name = "a", autobins = false }
---
a 0.0.0 E2015 autobins=false
=== [package.autobins] true
package = { name = "a", autobins = true }
---
a 0.0.0 E2015
=== [package.readme] true
package = { name = "a", readme = true }
---
a 0.0.0 E2015 readme=true
=== [package.readme] false
package = { name = "a", readme = false }
---
a 0.0.0 E2015 readme=false
=== [package.resolver] 2
package = { name = "a", resolver = "2" }
---
a 0.0.0 E2015
=== [package.resolver] 3
package = { name = "a", resolver = "3" }
---
a 0.0.0 E2015
=== [manifest.ignored] keys that no rule names
cargo-features = 1
dev-dependencies = 1
example = 1
test = 1
bench = 1
lints = 1
badges = 1
unknown = 1
package = { name = "a", metadata = 1, include = 1, exclude = 1, keywords = 1, categories = 1, documentation = 1, publish = 1, default-run = 1, workspace = 1, unknown = 1 }
---
a 0.0.0 E2015
=== [manifest.order] no TOML
package.name = a
---
NotToml
=== [manifest.order] no TOML: a key twice
package.name = "a"
package.name = "a"
---
NotToml
=== [package.present] an empty manifest

---
BadKind(Package)
=== [package.present] a key at the top alone
name = "a"
---
BadKind(Package)
=== [package.present] a number
package = 1
---
BadKind(Package)
=== [package.present] a list
package = ["a"]
---
BadKind(Package)
=== [package.present] a number beside `[workspace]`
package = 1
[workspace]
---
BadKind(Package)
=== [package.name] absent
[package]
---
BadName
=== [package.name] empty
package.name = ""
---
BadName
=== [package.name] with a dot
package.name = "a.b"
---
BadName
=== [package.name] with a blank
package.name = "a b"
---
BadName
=== [package.name] not ASCII
package.name = "ä"
---
BadName
=== [package.name] a number
package.name = 1
---
BadKind(Name)
=== [package.name] cannot be inherited
package.name = { workspace = true }
---
BadKind(Name)
=== [package.version] one number
package = { name = "a", version = "1" }
---
BadVersion
=== [package.version] empty
package = { name = "a", version = "" }
---
BadVersion
=== [package.version] a leading zero
package = { name = "a", version = "01.0.0" }
---
BadVersion
=== [package.version] a blank before
package = { name = "a", version = " 1.2.3" }
---
BadVersion
=== [package.version] a blank after
package = { name = "a", version = "1.2.3 " }
---
BadVersion
=== [package.version] nothing after the dash
package = { name = "a", version = "1.2.3-" }
---
BadVersion
=== [package.version] a leading zero at the end
package = { name = "a", version = "1.2.03" }
---
BadVersion
=== [package.version] a number
package = { name = "a", version = 1 }
---
BadKind(Version)
=== [package.inherited] `workspace = false`
package = { name = "a", version = { workspace = false } }
---
BadKind(Version)
=== [package.inherited] an empty table
package = { name = "a", version = {} }
---
BadKind(Version)
=== [package.edition] a year that is none
package = { name = "a", edition = "2020" }
---
BadKind(Edition)
=== [package.edition] a number
package = { name = "a", edition = 2021 }
---
BadKind(Edition)
=== [package.authors] a text
package = { name = "a", authors = "x" }
---
BadKind(Authors)
=== [package.authors] a number in the list
package = { name = "a", authors = ["x", 1] }
---
BadKind(Authors)
=== [package.autobins] a text
package = { name = "a", autobins = "true" }
---
BadKind(Autobins)
=== [package.autobins] cannot be inherited
package = { name = "a", autobins.workspace = true }
---
BadKind(Autobins)
=== [package.build] a number
package = { name = "a", build = 1 }
---
BadKind(Build)
=== [package.build] byte 0
package = { name = "a", build = "b\u0000" }
---
BadKind(Build)
=== [package.build] cannot be inherited
package = { name = "a", build.workspace = true }
---
BadKind(Build)
=== [package.texts] a description that is a number
package = { name = "a", description = 1 }
---
BadKind(Description)
=== [package.texts] a homepage that is a truth value
package = { name = "a", homepage = false }
---
BadKind(Homepage)
=== [package.texts] a license that is a list
package = { name = "a", license = [] }
---
BadKind(License)
=== [package.inherited] `workspace` as a text
package = { name = "a", license-file.workspace = "true" }
---
BadKind(LicenseFile)
=== [package.links] cannot be inherited
package = { name = "a", links.workspace = true }
---
BadKind(Links)
=== [package.readme] a number
package = { name = "a", readme = 1 }
---
BadKind(Readme)
=== [package.texts] a repository that is a date
package = { name = "a", repository = 1979-05-27 }
---
BadKind(Repository)
=== [package.texts] a Rust version that is a number
package = { name = "a", rust-version = 1.7 }
---
BadKind(RustVersion)
=== [package.resolver] 4
package = { name = "a", resolver = "4" }
---
BadKind(Resolver)
=== [package.resolver] a number
package = { name = "a", resolver = 1 }
---
BadKind(Resolver)
=== [package.resolver] 1 in the package
package = { name = "a", resolver = "1" }
---
OldResolver
=== [package.resolver] 1 in the workspace
workspace.resolver = "1"
---
OldResolver
=== [manifest.letters] every letter of a name
package.name = "aAzZ09-_"
---
aAzZ09-_ 0.0.0 E2015
=== [manifest.letters] a dash alone
package.name = "-"
---
- 0.0.0 E2015
=== [package.name] with a slash
package.name = "a/b"
---
BadName
=== [package.inherited] `edition.workspace = false`
package = { name = "a", edition.workspace = false }
---
BadKind(Edition)
=== [package.readme] an empty table
package = { name = "a", readme = {} }
---
BadKind(Readme)
=== [package.readme] an empty text
package = { name = "a", readme = "" }
---
a 0.0.0 E2015 readme=
=== [package.authors] an empty list
package = { name = "a", authors = [] }
---
a 0.0.0 E2015 authors=
"#;
