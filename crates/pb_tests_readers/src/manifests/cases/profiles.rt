//! `[profile]` (The Cargo Book, Profiles). A case is a line `=== [RULE] NAME`, a manifest, and
//! after a line `---` the answer.

/// The cases.
pub const PROFILES: &str = r#"=== [profile.values] every key, and keys that no rule names
package.name = "a"
[profile.dev]
codegen-units = 1
debug = 1
debug-assertions = true
lto = true
opt-level = "s"
overflow-checks = false
panic = "abort"
rpath = true
strip = true
incremental = 1
split-debuginfo = 1
---
a 0.0.0 E2015 profile(dev codegen-units=1 debug=Limited debug-assertions=true lto=Fat opt-level=Size overflow-checks=false panic=Abort rpath=true strip=Symbols)
=== [profile.names] built-in profiles, and one that inherits
package.name = "a"
[profile]
test.opt-level = 3
release.opt-level = 2
bench.opt-level = 0
fast = { inherits = "release", opt-level = 1, codegen-units = 65536 }
---
a 0.0.0 E2015 profile(bench opt-level=Zero) profile(fast inherits=release codegen-units=65536 opt-level=One) profile(release opt-level=Two) profile(test opt-level=Three)
=== [profile.values] other values of every key
package.name = "a"
profile.dev = { debug = false, lto = false, opt-level = "z", panic = "unwind", strip = false }
---
a 0.0.0 E2015 profile(dev debug=Nothing lto=ThinLocal opt-level=SmallestSize panic=Unwind strip=Nothing)
=== [profile.values] `debug = true`
package.name = "a"
profile.dev.debug = true
---
a 0.0.0 E2015 profile(dev debug=Full)
=== [profile.values] `debug = 0`
package.name = "a"
profile.dev.debug = 0
---
a 0.0.0 E2015 profile(dev debug=Nothing)
=== [profile.values] `debug = 2`
package.name = "a"
profile.dev.debug = 2
---
a 0.0.0 E2015 profile(dev debug=Full)
=== [profile.values] `debug = "none"`
package.name = "a"
profile.dev.debug = "none"
---
a 0.0.0 E2015 profile(dev debug=Nothing)
=== [profile.values] `debug = "limited"`
package.name = "a"
profile.dev.debug = "limited"
---
a 0.0.0 E2015 profile(dev debug=Limited)
=== [profile.values] `debug = "full"`
package.name = "a"
profile.dev.debug = "full"
---
a 0.0.0 E2015 profile(dev debug=Full)
=== [profile.values] `debug = "line-tables-only"`
package.name = "a"
profile.dev.debug = "line-tables-only"
---
a 0.0.0 E2015 profile(dev debug=LineTablesOnly)
=== [profile.values] `debug = "line-directives-only"`
package.name = "a"
profile.dev.debug = "line-directives-only"
---
a 0.0.0 E2015 profile(dev debug=LineDirectivesOnly)
=== [profile.values] `lto = "fat"`
package.name = "a"
profile.dev.lto = "fat"
---
a 0.0.0 E2015 profile(dev lto=Fat)
=== [profile.values] `lto = "thin"`
package.name = "a"
profile.dev.lto = "thin"
---
a 0.0.0 E2015 profile(dev lto=Thin)
=== [profile.values] `lto = "off"`
package.name = "a"
profile.dev.lto = "off"
---
a 0.0.0 E2015 profile(dev lto=Off)
=== [profile.values] `strip = "none"`
package.name = "a"
profile.dev.strip = "none"
---
a 0.0.0 E2015 profile(dev strip=Nothing)
=== [profile.values] `strip = "debuginfo"`
package.name = "a"
profile.dev.strip = "debuginfo"
---
a 0.0.0 E2015 profile(dev strip=DebugInfo)
=== [profile.values] `strip = "symbols"`
package.name = "a"
profile.dev.strip = "symbols"
---
a 0.0.0 E2015 profile(dev strip=Symbols)
=== [profile.overrides] every override, and keys that have no effect there
package.name = "a"
[profile.dev]
inherits = "x"
[profile.dev.build-override]
opt-level = 1
panic = "abort"
inherits = 1
package = 1
[profile.dev.package."*"]
opt-level = 2
lto = true
[profile.dev.package."a@1"]
rpath = false
---
a 0.0.0 E2015 profile(dev inherits=x package(* lto=Fat opt-level=Two) package(a@1 rpath=false) build-override( opt-level=One panic=Abort))
=== [profile.values] a number for all profiles
package.name = "a"
profile = 1
---
BadProfile
=== [profile.values] a number for a profile
package.name = "a"
profile.dev = 1
---
BadProfile
=== [profile.names] `debug` is no profile
package.name = "a"
profile.debug = {}
---
BadProfile
=== [profile.names] `debug` cannot inherit either
package.name = "a"
profile.debug.inherits = "dev"
---
BadProfile
=== [profile.inherits] absent
package.name = "a"
profile.fast = {}
---
BadProfile
=== [profile.inherits] a number
package.name = "a"
profile.fast.inherits = 1
---
BadProfile
=== [profile.inherits] a number, in a built-in profile
package.name = "a"
profile.dev.inherits = 1
---
BadProfile
=== [profile.names] a dot
package.name = "a"
profile."a.b".inherits = "dev"
---
BadProfile
=== [profile.names] empty
package.name = "a"
profile."".inherits = "dev"
---
BadProfile
=== [profile.values] `opt-level = 4`
package.name = "a"
profile.dev.opt-level = 4
---
BadProfile
=== [profile.values] `opt-level = -1`
package.name = "a"
profile.dev.opt-level = -1
---
BadProfile
=== [profile.values] `opt-level = "0"`
package.name = "a"
profile.dev.opt-level = "0"
---
BadProfile
=== [profile.values] `opt-level = true`
package.name = "a"
profile.dev.opt-level = true
---
BadProfile
=== [profile.values] `opt-level = 1.0`
package.name = "a"
profile.dev.opt-level = 1.0
---
BadProfile
=== [profile.values] `debug = 3`
package.name = "a"
profile.dev.debug = 3
---
BadProfile
=== [profile.values] `debug = "x"`
package.name = "a"
profile.dev.debug = "x"
---
BadProfile
=== [profile.values] `debug-assertions = 1`
package.name = "a"
profile.dev.debug-assertions = 1
---
BadProfile
=== [profile.values] `overflow-checks = "true"`
package.name = "a"
profile.dev.overflow-checks = "true"
---
BadProfile
=== [profile.values] `lto = "x"`
package.name = "a"
profile.dev.lto = "x"
---
BadProfile
=== [profile.values] `lto = 1`
package.name = "a"
profile.dev.lto = 1
---
BadProfile
=== [profile.values] `panic = "x"`
package.name = "a"
profile.dev.panic = "x"
---
BadProfile
=== [profile.values] `panic = true`
package.name = "a"
profile.dev.panic = true
---
BadProfile
=== [profile.values] `codegen-units = 0`
package.name = "a"
profile.dev.codegen-units = 0
---
BadProfile
=== [profile.values] `codegen-units = 65537`
package.name = "a"
profile.dev.codegen-units = 65537
---
BadProfile
=== [profile.values] `codegen-units = -1`
package.name = "a"
profile.dev.codegen-units = -1
---
BadProfile
=== [profile.values] `codegen-units = "1"`
package.name = "a"
profile.dev.codegen-units = "1"
---
BadProfile
=== [profile.values] `rpath = 1`
package.name = "a"
profile.dev.rpath = 1
---
BadProfile
=== [profile.values] `strip = "x"`
package.name = "a"
profile.dev.strip = "x"
---
BadProfile
=== [profile.values] `strip = 0`
package.name = "a"
profile.dev.strip = 0
---
BadProfile
=== [profile.overrides] a number for all packages
package.name = "a"
profile.dev.package = 1
---
BadProfile
=== [profile.overrides] a number for a package
package.name = "a"
profile.dev.package.a = 1
---
BadProfile
=== [profile.overrides] a bad value for a package
package.name = "a"
profile.dev.package.a.opt-level = 4
---
BadProfile
=== [profile.overrides] a bad `panic` for a package
package.name = "a"
profile.dev.package.a.panic = "x"
---
BadProfile
=== [profile.overrides] a number for scripts
package.name = "a"
profile.dev.build-override = 1
---
BadProfile
=== [profile.overrides] a bad value for scripts
package.name = "a"
profile.dev.build-override.lto = "x"
---
BadProfile
=== [manifest.order] `[profile]` comes before `[workspace]`, by a profile
package.name = "a"
profile = { dev = 1 }
workspace = 1
---
BadProfile
=== [profile.names] every letter of a name
package.name = "a"
profile.x-1_Y.inherits = ""
---
a 0.0.0 E2015 profile(x-1_Y inherits=)
=== [profile.values] `debug = -1`
package.name = "a"
profile.dev.debug = -1
---
BadProfile
=== [profile.values] `opt-level = "S"`
package.name = "a"
profile.dev.opt-level = "S"
---
BadProfile
=== [profile.values] `panic = "Abort"`
package.name = "a"
profile.dev.panic = "Abort"
---
BadProfile
=== [profile.overrides] a bad value for a package, in a profile that inherits
package.name = "a"
profile.fast = { inherits = "dev", package = { a = { strip = 1 } } }
---
BadProfile
"#;
