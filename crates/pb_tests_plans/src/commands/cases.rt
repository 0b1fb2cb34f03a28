//! Cases about units. A case has files, each after a line `@ PATH`, and a line `---`. After this
//! line come questions about units, each with the answer that the rules require.
//!
//! The first line of a case has a name and words: `+FEATURE`, `-FLAG` for the compiler, `%WORD` for
//! the runner, and at the end `@PROFILE`. A file `/said/KEY` contains what a run has printed. A
//! file `/info/KEY` contains the dep-info of a compile.

/// The cases.
pub const CASES: &str = r#"=== [commands.compile] a library
@ /w/Cargo.toml
[package]
name = "a"
version = "0.1.0"
edition = "2021"
@ /w/src/lib.rs
---
a.target.lib words = --crate-name a --edition=2021 /w/src/lib.rs --error-format=json --crate-type lib --emit=dep-info,link --out-dir /w/target/debug/a.target.lib -C opt-level=0 -C debuginfo=2 -C debug-assertions=on -C overflow-checks=on -C codegen-units=256 -C panic=unwind --check-cfg cfg(feature, values())
a.target.lib pairs = CARGO=tool CARGO_CRATE_NAME=a CARGO_MANIFEST_DIR=/w CARGO_MANIFEST_PATH=/w/Cargo.toml CARGO_PKG_AUTHORS= CARGO_PKG_DESCRIPTION= CARGO_PKG_HOMEPAGE= CARGO_PKG_LICENSE= CARGO_PKG_LICENSE_FILE= CARGO_PKG_NAME=a CARGO_PKG_README= CARGO_PKG_REPOSITORY= CARGO_PKG_RUST_VERSION= CARGO_PKG_VERSION=0.1.0 CARGO_PKG_VERSION_MAJOR=0 CARGO_PKG_VERSION_MINOR=1 CARGO_PKG_VERSION_PATCH=0 CARGO_PKG_VERSION_PRE=
a.target.lib rest = rustc /w /w/target/debug/a.target.lib /w/target | 
a.target.lib file = /w/target/debug/a.target.lib/liba.rlib
a.target.lib info = /w/target/debug/a.target.lib/a.d
a.target.lib crate = a
a.target.lib OUT_DIR = -
a.target.lib CARGO_BIN_NAME = -
=== [commands.environment] words for people, types, a binary, flags -O -g @release
@ /w/Cargo.toml
[package]
name = "a-b"
version = "1.2.3-rc.1+x"
edition = "2018"
authors = ["A", "B"]
description = "d"
homepage = "h"
repository = "r"
license = "MIT"
license-file = "L"
rust-version = "1.70"
[lib]
name = "other"
crate-type = ["rlib", "lib"]
[profile.release]
lto = true
strip = true
rpath = true
panic = "abort"
debug = "line-tables-only"
@ /w/src/lib.rs
@ /w/src/main.rs
@ /w/README.md
---
a-b.target.lib words = --crate-name other --edition=2018 /w/src/lib.rs --error-format=json --crate-type rlib --crate-type lib --emit=dep-info,link --out-dir /w/target/release/a-b.target.lib -C opt-level=3 -C debuginfo=line-tables-only -C debug-assertions=off -C overflow-checks=off -C codegen-units=16 -C panic=abort -C rpath=yes -C strip=symbols --check-cfg cfg(feature, values()) -O -g
a-b.target.bin-a-b words = --crate-name a_b --edition=2018 /w/src/main.rs --error-format=json --crate-type bin --emit=dep-info,link --out-dir /w/target/release/a-b.target.bin-a-b -C opt-level=3 -C debuginfo=line-tables-only -C debug-assertions=off -C overflow-checks=off -C codegen-units=16 -C panic=abort -C rpath=yes -C strip=symbols -C lto=fat --check-cfg cfg(feature, values()) -L dependency=/w/target/release/a-b.target.lib --extern other=/w/target/release/a-b.target.lib/libother.rlib -O -g
a-b.target.bin-a-b CARGO_CRATE_NAME = a_b
a-b.target.bin-a-b CARGO_BIN_NAME = a-b
a-b.target.bin-a-b CARGO_PKG_AUTHORS = A:B
a-b.target.bin-a-b CARGO_PKG_DESCRIPTION = d
a-b.target.bin-a-b CARGO_PKG_HOMEPAGE = h
a-b.target.bin-a-b CARGO_PKG_REPOSITORY = r
a-b.target.bin-a-b CARGO_PKG_LICENSE = MIT
a-b.target.bin-a-b CARGO_PKG_LICENSE_FILE = L
a-b.target.bin-a-b CARGO_PKG_RUST_VERSION = 1.70
a-b.target.bin-a-b CARGO_PKG_README = README.md
a-b.target.bin-a-b CARGO_PKG_VERSION = 1.2.3-rc.1+x
a-b.target.bin-a-b CARGO_PKG_VERSION_MAJOR = 1
a-b.target.bin-a-b CARGO_PKG_VERSION_MINOR = 2
a-b.target.bin-a-b CARGO_PKG_VERSION_PATCH = 3
a-b.target.bin-a-b CARGO_PKG_VERSION_PRE = rc.1
a-b.target.bin-a-b file = /w/target/release/a-b.target.bin-a-b/a_b
a-b.target.bin-a-b info = /w/target/release/a-b.target.bin-a-b/a_b.d
a-b.target.bin-a-b rest = rustc /w /w/target/release/a-b.target.bin-a-b /w/target | /w/target/release/a-b.target.lib
=== [commands.libraries] a renamed entry is given by its key
@ /w/Cargo.toml
[package]
name = "r"
[dependencies]
q-x = { path = "b", package = "a-b" }
c = { path = "c" }
a1 = { path = "d", package = "d" }
a = { path = "d", package = "d" }
no = { path = "e", package = "e", optional = true }
@ /w/src/lib.rs
use q
@ /w/b/Cargo.toml
package.name = "a-b"
@ /w/b/src/lib.rs
@ /w/c/Cargo.toml
package.name = "c"
lib.name = "cc"
@ /w/c/src/lib.rs
@ /w/d/Cargo.toml
package.name = "d"
@ /w/d/src/lib.rs
@ /w/e/Cargo.toml
package.name = "e"
@ /w/e/src/lib.rs
---
r.target.lib tail = --check-cfg cfg(feature, values("no")) -L dependency=/w/target/debug/a-b.target.lib -L dependency=/w/target/debug/c.target.lib -L dependency=/w/target/debug/d.target.lib --extern a=/w/target/debug/d.target.lib/libd.rlib --extern a1=/w/target/debug/d.target.lib/libd.rlib --extern cc=/w/target/debug/c.target.lib/libcc.rlib --extern q_x=/w/target/debug/a-b.target.lib/liba_b.rlib
=== [commands.compile] features, with the defaults and one more +two
@ /w/Cargo.toml
[package]
name = "a"
[features]
default = ["one-x"]
one-x = []
two = []
three = []
@ /w/src/lib.rs
@ /w/build.rs
---
a.target.lib tail = --cfg feature="default" --cfg feature="one-x" --cfg feature="two" --check-cfg cfg(feature, values("default", "one-x", "three", "two"))
a.target.script tail = --cfg feature="default" --cfg feature="one-x" --cfg feature="two" --check-cfg cfg(feature, values("default", "one-x", "three", "two"))
a.target.run CARGO_FEATURE_DEFAULT = 1
a.target.run CARGO_FEATURE_ONE_X = 1
a.target.run CARGO_FEATURE_TWO = 1
a.target.run CARGO_FEATURE_THREE = -
=== [commands.run] a script, with nothing that it says -Oa -g
@ /w/Cargo.toml
[package]
name = "a"
@ /w/src/lib.rs
@ /w/build.rs
---
a.target.script words = --crate-name build_script_build --edition=2015 /w/build.rs --error-format=json --crate-type bin --emit=dep-info,link --out-dir /w/target/debug/a.target.script -C opt-level=0 -C debuginfo=0 -C debug-assertions=on -C overflow-checks=on -C codegen-units=256 -C panic=unwind --check-cfg cfg(feature, values()) -Oa -g
a.target.script CARGO_CRATE_NAME = build_script_build
a.target.script OUT_DIR = -
a.target.script file = /w/target/debug/a.target.script/build_script_build
a.target.script info = /w/target/debug/a.target.script/build_script_build.d
a.target.run words = 
a.target.run rest = /w/target/debug/a.target.script/build_script_build /w /w/target/debug/a.target.run /w/target | /w/target/debug/a.target.script
a.target.run pairs = CARGO=tool CARGO_ENCODED_RUSTFLAGS=-Oa~-g CARGO_MANIFEST_DIR=/w CARGO_MANIFEST_PATH=/w/Cargo.toml CARGO_PKG_AUTHORS= CARGO_PKG_DESCRIPTION= CARGO_PKG_HOMEPAGE= CARGO_PKG_LICENSE= CARGO_PKG_LICENSE_FILE= CARGO_PKG_NAME=a CARGO_PKG_README= CARGO_PKG_REPOSITORY= CARGO_PKG_RUST_VERSION= CARGO_PKG_VERSION=0.0.0 CARGO_PKG_VERSION_MAJOR=0 CARGO_PKG_VERSION_MINOR=0 CARGO_PKG_VERSION_PATCH=0 CARGO_PKG_VERSION_PRE= DEBUG=true HOST=mini-os NUM_JOBS=1 OPT_LEVEL=0 OUT_DIR=/w/target/debug/a.target.run PROFILE=debug RUSTC=rustc TARGET=mini-os
a.target.run file = -
a.target.run info = -
a.target.run crate = 
a.target.lib OUT_DIR = /w/target/debug/a.target.run
a.target.lib tail = --check-cfg cfg(feature, values()) -Oa -g
a.target.lib rest = rustc /w /w/target/debug/a.target.lib /w/target | /w/target/debug/a.target.script /w/target/debug/a.target.run
=== [commands.run] a runner, and a profile that inherits from release %mini %--run @fast
@ /w/Cargo.toml
[workspace]
members = ["m"]
[profile.fast]
inherits = "bench"
debug = 1
opt-level = "s"
[profile.slow]
inherits = "dev"
@ /w/m/Cargo.toml
package.name = "m"
@ /w/m/src/lib.rs
@ /w/m/build.rs
---
m.target.run words = --run /w/target/fast/m.target.script/build_script_build
m.target.run rest = mini /w/m /w/target/fast/m.target.run /w/target | /w/target/fast/m.target.script
m.target.run PROFILE = release
m.target.run OPT_LEVEL = s
m.target.run DEBUG = true
=== [commands.settings] a profile that inherits from dev @slow
@ /w/Cargo.toml
[package]
name = "a"
[profile.slow]
inherits = "dev"
debug = 0
@ /w/src/lib.rs
@ /w/build.rs
---
a.target.run PROFILE = debug
a.target.run DEBUG = false
=== [directives.values] what scripts ask for
@ /w/Cargo.toml
[package]
name = "r"
[dependencies]
x = { path = "x" }
@ /w/src/lib.rs
@ /w/src/main.rs
@ /w/src/bin/two.rs
@ /w/build.rs
@ /w/x/Cargo.toml
package.name = "x"
package.links = "z-lib"
@ /w/x/src/lib.rs
@ /w/x/build.rs
@ /said/x.target.run
cargo::rustc-link-search=/x
cargo::rustc-link-lib=x
cargo::rustc-cfg=in_x
cargo::metadata=root-dir=/r
cargo::metadata=root_dir=/s
cargo::rustc-env=X=1
@ /said/r.target.run
cargo::rustc-link-search=/r1
cargo::rustc-link-search=/r2
cargo::rustc-link-lib=r
cargo::rustc-check-cfg=cfg(c)
cargo::rustc-cfg=c
cargo::rustc-link-arg-bin=two=-t
cargo::rustc-link-arg-bins=-b
cargo::rustc-link-arg=-a
cargo::rustc-link-arg-cdylib=-no
cargo::rustc-env=CARGO_PKG_NAME=over
cargo::rustc-env=E=1
cargo::rustc-env=E=2
---
r.target.lib tail = --check-cfg cfg(feature, values()) -L dependency=/w/target/debug/x.target.lib --extern x=/w/target/debug/x.target.lib/libx.rlib -L /x -L /r1 -L /r2 -l r --cfg c --check-cfg cfg(c)
r.target.bin-r tail = --check-cfg cfg(feature, values()) -L dependency=/w/target/debug/x.target.lib -L dependency=/w/target/debug/r.target.lib --extern r=/w/target/debug/r.target.lib/libr.rlib --extern x=/w/target/debug/x.target.lib/libx.rlib -L /x -L /r1 -L /r2 --cfg c --check-cfg cfg(c) -C link-arg=-a -C link-arg=-b
r.target.bin-two tail = --check-cfg cfg(feature, values()) -L dependency=/w/target/debug/x.target.lib -L dependency=/w/target/debug/r.target.lib --extern r=/w/target/debug/r.target.lib/libr.rlib --extern x=/w/target/debug/x.target.lib/libx.rlib -L /x -L /r1 -L /r2 --cfg c --check-cfg cfg(c) -C link-arg=-a -C link-arg=-b -C link-arg=-t
r.target.script tail = --check-cfg cfg(feature, values())
x.target.lib tail = --check-cfg cfg(feature, values()) -L /x -l x --cfg in_x
r.target.lib CARGO_PKG_NAME = over
r.target.lib E = 2
r.target.lib X = -
r.target.lib OUT_DIR = /w/target/debug/r.target.run
r.target.run DEP_Z_LIB_ROOT_DIR = /s
r.target.run CARGO_MANIFEST_LINKS = -
r.target.run E = -
x.target.run CARGO_MANIFEST_LINKS = z-lib
x.target.run DEP_Z_LIB_ROOT_DIR = -
=== [commands.libraries] libraries to link of a package without a library
@ /w/Cargo.toml
package.name = "a"
@ /w/src/main.rs
@ /w/build.rs
@ /said/a.target.run
cargo:rustc-link-lib=n
---
a.target.bin-a tail = --check-cfg cfg(feature, values()) -l n
=== [commands.libraries] build entries are given to scripts, by the host's libraries
@ /w/Cargo.toml
[package]
name = "r"
[dependencies]
x = { path = "x" }
[build-dependencies]
y = { path = "x", package = "x" }
@ /w/src/lib.rs
@ /w/build.rs
@ /w/x/Cargo.toml
package.name = "x"
@ /w/x/src/lib.rs
@ /w/x/build.rs
@ /said/x.host.run
cargo::rustc-link-search=/host
---
r.target.script tail = --check-cfg cfg(feature, values()) -L dependency=/w/target/debug/x.host.lib --extern y=/w/target/debug/x.host.lib/libx.rlib -L /host
r.target.lib tail = --check-cfg cfg(feature, values()) -L dependency=/w/target/debug/x.host.lib -L dependency=/w/target/debug/x.target.lib --extern x=/w/target/debug/x.target.lib/libx.rlib -L /host
=== [commands.compile] names that meet
@ /w/Cargo.toml
[package]
name = "r"
[dependencies]
d-x = { path = "d", package = "d" }
d_x = { path = "d", package = "d" }
q = { path = "z", package = "z" }
b = { path = "b" }
@ /w/src/lib.rs
@ /w/b/Cargo.toml
package.name = "b"
lib.name = "q"
@ /w/b/src/lib.rs
@ /w/d/Cargo.toml
package.name = "d"
@ /w/d/src/lib.rs
@ /w/z/Cargo.toml
package.name = "z"
@ /w/z/src/lib.rs
---
r.target.lib tail = --check-cfg cfg(feature, values()) -L dependency=/w/target/debug/b.target.lib -L dependency=/w/target/debug/d.target.lib -L dependency=/w/target/debug/z.target.lib --extern d_x=/w/target/debug/d.target.lib/libd.rlib --extern q=/w/target/debug/b.target.lib/libq.rlib --extern q=/w/target/debug/z.target.lib/libz.rlib
=== [commands.settings] settings that are written @fast
@ /w/Cargo.toml
[package]
name = "a"
[profile.dev]
opt-level = "z"
debug = "limited"
overflow-checks = false
codegen-units = 3
[profile.fast]
inherits = "dev"
lto = "thin"
strip = "debuginfo"
[profile.fast.build-override]
opt-level = 2
debug = "line-directives-only"
strip = "none"
@ /w/src/main.rs
@ /w/build.rs
---
a.target.bin-a words = --crate-name a --edition=2015 /w/src/main.rs --error-format=json --crate-type bin --emit=dep-info,link --out-dir /w/target/fast/a.target.bin-a -C opt-level=z -C debuginfo=1 -C debug-assertions=on -C overflow-checks=off -C codegen-units=3 -C panic=unwind -C strip=debuginfo -C lto=thin --check-cfg cfg(feature, values())
a.target.script words = --crate-name build_script_build --edition=2015 /w/build.rs --error-format=json --crate-type bin --emit=dep-info,link --out-dir /w/target/fast/a.target.script -C opt-level=2 -C debuginfo=line-directives-only -C debug-assertions=on -C overflow-checks=off -C codegen-units=256 -C panic=unwind --check-cfg cfg(feature, values())
a.target.run OPT_LEVEL = z
=== [commands.settings] link-time optimisation that is off @thin
@ /w/Cargo.toml
[package]
name = "a"
[profile.thin]
inherits = "release"
lto = "off"
debug = 1
@ /w/src/main.rs
---
a.target.bin-a tail = -C lto=off --check-cfg cfg(feature, values())
=== [directives.metadata] metadata goes to direct dependents, each side its own
@ /w/Cargo.toml
[package]
name = "a"
[dependencies]
b = { path = "b" }
[build-dependencies]
c = { path = "c" }
@ /w/src/lib.rs
@ /w/build.rs
@ /w/b/Cargo.toml
[package]
name = "b"
links = "b"
[dependencies]
c = { path = "../c" }
@ /w/b/src/lib.rs
@ /w/b/build.rs
@ /w/c/Cargo.toml
[package]
name = "c"
links = "c"
@ /w/c/src/lib.rs
@ /w/c/build.rs
@ /said/b.target.run
cargo:key=of b
@ /said/c.target.run
cargo:key=of c
@ /said/c.host.run
cargo:key=of the host
---
b.target.run DEP_C_KEY = of c
a.target.run DEP_B_KEY = of b
a.target.run DEP_C_KEY = -
c.host.run DEP_C_KEY = -
c.host.run OUT_DIR = /w/target/debug/c.host.run
c.host.lib OUT_DIR = /w/target/debug/c.host.run
=== [answers.inputs] inputs of a compile
@ /w/Cargo.toml
package.name = "a"
@ /w/src/lib.rs
@ /w/build.rs
@ /said/a.target.run
cargo::rustc-env=SET=1
@ /info/a.target.lib
o: /w/src/lib.rs src/b\ c.rs /w/./src/lib.rs /w/target/debug/a.target.run/x.rs ../out.rs
# env-dep:V
# env-dep:SET=1
# env-dep:CARGO_PKG_NAME
# env-dep:V=2
@ /info/a.target.script
o: /w/build.rs /w/target/debug/other/x.rs /w/target
---
a.target.lib good = - /w/src/lib.rs /w/src/b c.rs /out.rs $V
a.target.lib bad = Status(1)
a.target.script good = ForeignInput(/w/target/debug/other/x.rs)
a.target.run good = 1 /w
a.target.run bad = Status(1)
=== [answers.inputs] inputs of runs
@ /w/Cargo.toml
[workspace]
members = ["*"]
@ /w/a/Cargo.toml
package.name = "a"
@ /w/a/src/lib.rs
@ /w/a/build.rs
@ /w/b/Cargo.toml
package.name = "b"
@ /w/b/src/lib.rs
@ /w/b/build.rs
@ /w/c/Cargo.toml
package.name = "c"
@ /w/c/src/lib.rs
@ /w/c/build.rs
@ /w/d/Cargo.toml
package.name = "d"
@ /w/d/src/lib.rs
@ /w/d/build.rs
@ /said/a.target.run
cargo::rerun-if-env-changed=CC
cargo::rerun-if-changed=x.c
cargo::rerun-if-changed=/w/a/x.c
cargo::rerun-if-changed=/w/target/debug/a.target.script/build_script_build
cargo::rerun-if-changed=/w/target/debug/a.target.script
cargo::rerun-if-env-changed=CARGO
cargo::rerun-if-env-changed=CC
@ /said/b.target.run
cargo::rerun-if-env-changed=CC
@ /said/c.target.run
cargo::rerun-if-changed=/w/c
cargo::rerun-if-changed=/w/target
@ /said/d.target.run
x
cargo::root=/x
cargo::rustc-link-lib=
@ /info/a.target.lib
no rule
---
a.target.run good = 7 /w/a/x.c $CC $CARGO
b.target.run good = 1 $CC
c.target.run good = ForeignInput(/w/target)
d.target.run good = Directive(UnknownKey(2))
d.target.run bad = Status(1)
a.target.lib good = NoDepInfo
b.target.lib good = NoDepInfo
"#;
