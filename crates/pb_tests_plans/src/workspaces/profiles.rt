//! Profiles. A case has a manifest, and after a line `---` questions with the answers that the
//! rules require. A question is about the settings of a package of this name under a profile, a
//! member or not, in the role of the target or of the host. An answer lists opt-level, debug,
//! debug-assertions, overflow-checks, lto, panic, codegen-units, rpath and strip.

/// The cases.
pub const PROFILES: &str =
    r#"=== [settings.built-in] built-in values on each side, and profiles that are not there
workspace = {}
---
dev a member target = Zero Full true true ThinLocal Unwind 256 false Nothing
test a member target = Zero Full true true ThinLocal Unwind 256 false Nothing
release a member target = Three Nothing false false ThinLocal Unwind 16 false Nothing
bench a other target = Three Nothing false false ThinLocal Unwind 16 false Nothing
dev a member host = Zero Nothing true true ThinLocal Unwind 256 false Nothing
release a other host = Zero Nothing false false ThinLocal Unwind 256 false Nothing
bench a member host = Zero Nothing false false ThinLocal Unwind 256 false Nothing
debug a member target = NoSuchProfile
nope a member target = NoSuchProfile
=== [settings.locations] what is set for a package
workspace = {}
[profile.dev.package.a]
opt-level = 1
debug = 1
debug-assertions = false
overflow-checks = false
codegen-units = 7
strip = "debuginfo"
---
dev a member target = One Limited false false ThinLocal Unwind 7 false DebugInfo
dev a other target = One Limited false false ThinLocal Unwind 7 false DebugInfo
dev a member host = One Limited false false ThinLocal Unwind 7 false DebugInfo
test a other host = One Limited false false ThinLocal Unwind 7 false DebugInfo
dev b member target = Zero Full true true ThinLocal Unwind 256 false Nothing
release a member target = Three Nothing false false ThinLocal Unwind 16 false Nothing
=== [settings.locations] what is set for all packages that are no members
workspace = {}
[profile.dev.package."*"]
opt-level = "s"
debug = "line-tables-only"
debug-assertions = false
overflow-checks = false
codegen-units = 9
strip = true
---
dev a other target = Size LineTablesOnly false false ThinLocal Unwind 9 false Symbols
dev a other host = Size LineTablesOnly false false ThinLocal Unwind 9 false Symbols
dev a member target = Zero Full true true ThinLocal Unwind 256 false Nothing
dev a member host = Zero Nothing true true ThinLocal Unwind 256 false Nothing
=== [settings.locations] what is set for the host
workspace = {}
[profile.dev.build-override]
opt-level = "z"
debug = "line-directives-only"
debug-assertions = false
overflow-checks = false
codegen-units = 3
strip = "symbols"
---
dev a member host = SmallestSize LineDirectivesOnly false false ThinLocal Unwind 3 false Symbols
dev a other host = SmallestSize LineDirectivesOnly false false ThinLocal Unwind 3 false Symbols
test a member host = SmallestSize LineDirectivesOnly false false ThinLocal Unwind 3 false Symbols
dev a member target = Zero Full true true ThinLocal Unwind 256 false Nothing
release a member host = Zero Nothing false false ThinLocal Unwind 256 false Nothing
=== [settings.locations] what a profile sets
workspace = {}
[profile.dev]
opt-level = 2
debug = false
debug-assertions = false
overflow-checks = false
lto = "thin"
panic = "abort"
codegen-units = 65536
rpath = true
strip = "debuginfo"
---
dev a member target = Two Nothing false false Thin Abort 65536 true DebugInfo
dev a other target = Two Nothing false false Thin Abort 65536 true DebugInfo
test a member target = Two Nothing false false Thin Abort 65536 true DebugInfo
dev a member host = Zero Nothing false false Thin Unwind 256 true DebugInfo
release a member target = Three Nothing false false ThinLocal Unwind 16 false Nothing
=== [settings.locations] each location comes before the next
workspace = {}
[profile.dev]
codegen-units = 4
[profile.dev.package.a]
codegen-units = 1
[profile.dev.package."*"]
codegen-units = 2
[profile.dev.build-override]
codegen-units = 3
---
dev a member target = Zero Full true true ThinLocal Unwind 1 false Nothing
dev a member host = Zero Nothing true true ThinLocal Unwind 1 false Nothing
dev a other host = Zero Nothing true true ThinLocal Unwind 1 false Nothing
dev c other target = Zero Full true true ThinLocal Unwind 2 false Nothing
dev c other host = Zero Nothing true true ThinLocal Unwind 2 false Nothing
dev c member host = Zero Nothing true true ThinLocal Unwind 3 false Nothing
dev c member target = Zero Full true true ThinLocal Unwind 4 false Nothing
=== [settings.line] custom profiles that inherit from one another
workspace = {}
[profile.release.package.a]
opt-level = 1
[profile.fast]
inherits = "release"
opt-level = 2
[profile.faster]
inherits = "fast"
lto = true
[profile.fastest]
inherits = "faster"
codegen-units = 1
[profile.fastest.package."*"]
opt-level = "s"
---
fast a member target = One Nothing false false ThinLocal Unwind 16 false Nothing
fast b member target = Two Nothing false false ThinLocal Unwind 16 false Nothing
fast b member host = Zero Nothing false false ThinLocal Unwind 256 false Nothing
faster a other target = One Nothing false false Fat Unwind 16 false Nothing
faster b member target = Two Nothing false false Fat Unwind 16 false Nothing
fastest a other target = One Nothing false false Fat Unwind 1 false Nothing
fastest b other target = Size Nothing false false Fat Unwind 1 false Nothing
fastest b member target = Two Nothing false false Fat Unwind 1 false Nothing
fastest b member host = Zero Nothing false false Fat Unwind 256 false Nothing
=== [settings.line] `bench` inherits from `release`
workspace = {}
[profile.bench]
debug = true
[profile.release]
debug = 1
strip = "symbols"
[profile.measure]
inherits = "bench"
---
bench a member target = Three Full false false ThinLocal Unwind 16 false Symbols
release a member target = Three Limited false false ThinLocal Unwind 16 false Symbols
measure a member target = Three Full false false ThinLocal Unwind 16 false Symbols
=== [settings.line] `inherits` of a built-in profile has no effect
workspace = {}
[profile.dev]
inherits = "release"
[profile.test]
inherits = "nope"
---
dev a member target = Zero Full true true ThinLocal Unwind 256 false Nothing
test a member target = Zero Full true true ThinLocal Unwind 256 false Nothing
=== [settings.refused] circles, and a profile that is not there
workspace = {}
[profile.x]
inherits = "y"
[profile.x.package.a]
lto = true
[profile.y]
inherits = "x"
[profile.z]
inherits = "z"
[profile.w]
inherits = "v"
[profile.v]
inherits = "x"
[profile.p]
inherits = "q"
[profile.q]
inherits = "nope"
[profile.q.build-override]
rpath = true
---
x a member target = InheritsCycle
y a member target = InheritsCycle
z a member host = InheritsCycle
w a other target = InheritsCycle
dev a member target = Zero Full true true ThinLocal Unwind 256 false Nothing
p a member target = NoSuchProfile
q a member target = NoSuchProfile
=== [settings.refused] overrides that set what they may not, along a line
workspace = {}
[profile.dev.package.nowhere]
lto = false
[profile.release.build-override]
panic = "unwind"
[profile.own]
inherits = "test"
[profile.other]
inherits = "release"
---
dev a member target = NotInOverride
test a other host = NotInOverride
own a member target = NotInOverride
release a member target = NotInOverride
bench a member target = NotInOverride
other a member host = NotInOverride
=== [settings.refused] an override for all packages that sets what it may not
workspace = {}
[profile.fast]
inherits = "dev"
[profile.fast.package."*"]
rpath = true
---
dev a member target = Zero Full true true ThinLocal Unwind 256 false Nothing
fast a member target = NotInOverride
=== [settings.locations] other packages come before the host
workspace = {}
[profile.dev.package."*"]
opt-level = 2
[profile.dev.build-override]
opt-level = 1
---
dev e other target = Two Full true true ThinLocal Unwind 256 false Nothing
dev e other host = Two Nothing true true ThinLocal Unwind 256 false Nothing
dev a member host = One Nothing true true ThinLocal Unwind 256 false Nothing
dev a member target = Zero Full true true ThinLocal Unwind 256 false Nothing
=== [settings.locations] a package by its name comes before other packages
workspace = {}
[profile.dev.package."*"]
opt-level = 2
[profile.dev.package.e]
opt-level = 3
[profile.dev.build-override]
opt-level = 1
---
dev e other target = Three Full true true ThinLocal Unwind 256 false Nothing
dev e other host = Three Nothing true true ThinLocal Unwind 256 false Nothing
"#;
