//! What the names of bad units and of faults mean. Written by `bench/pages/explained.py`: change `docs/ERRORS.md`.

use crate::entry::Entry;

/// What the names of bad units and of faults mean.
pub static OTHERS: [Entry; 14] = [
    Entry {
        name: "Directive",
        text: r#"A line of the script's output is refused. NAME is one of:

- `UnknownKey`: no such key after `cargo::`
- `BadValue`: a value that is not allowed for its key, or no `=` after `cargo::`
- `BadFlag`: `rustc-flags` has a word that is neither `-l X` nor `-L X`

```
b.target.run said:
cargo::warning=w
cargo::unknown=x
note: the script's output is refused: line 2 has an unknown key
error: bad b.target.run Directive(UnknownKey) started=b.target.script,b.target.run
```

- Look at that line of the output: it begins with `cargo::` or `cargo:`.
"#,
    },
    Entry {
        name: "ForeignInput",
        text: r#"An input is in the target folder, but not in the folder of a unit that this unit reaches.

```
note: the input `/w/target/x` is in the target folder
error: bad a.target.lib ForeignInput started=a.target.lib
```

- Look at `include!` and the like in the sources, and at `rerun-if-changed` of the script.
- Move the file out of the target folder.
"#,
    },
    Entry {
        name: "NoDepInfo",
        text: r#"The compiler left no dep-info (the list of what it read) that can be read.

```
note: the compiler left no readable dep-info
error: bad a.target.lib NoDepInfo started=a.target.lib
```

- If `started=` does not name the unit, the unit's files were removed by hand: remove the unit's record too (`UNIT.record`).
- Check whether `RUSTC` is a compiler that writes dep-info.
- Check whether the dep-info is over 4 MiB (4,194,304 bytes) or has byte 0.
"#,
    },
    Entry {
        name: "OutputTooLong",
        text: r#"A stream of the child process is too long: more than 4,194,304 bytes.

```
note: the child process wrote too much to a stream
error: bad a.target.lib OutputTooLong started=a.target.lib
```

- Make the compiler or the script print less.
"#,
    },
    Entry {
        name: "ScriptError",
        text: r#"The build script reported an error (`cargo::error=TEXT`).

```
a.target.run said:
to nobody
note: the build script reported an error
error: bad a.target.run ScriptError started=a.target.script,a.target.run
```

- Read the lines `build-script-note` of level `error` on standard output.
"#,
    },
    Entry {
        name: "Status",
        text: r#"The child process ended with status N, which is not 0.

```
a.target.run said:
hello
note: the child process ended with status 3
error: bad a.target.run Status(3) started=a.target.script,a.target.run
```

```
note: the child process ended with status 1
note: the compiler's messages, if there are any, are in the lines on standard output; --render shows them as text
error: bad a.target.lib Status(1) started=a.target.lib
```

- For a compile, read the [diagnostics](MESSAGES.md#recipes) on standard output; `--render` shows them as text.
- Read what comes after `UNIT said:`.
"#,
    },
    Entry {
        name: "CannotStart",
        text: r#"The program cannot be started, or the unit's output folder cannot be made.

```
note: `-vV` gave no answer: the program cannot be started
note: cannot start rustc in /w: no folder of PATH has it
error: fault -vV CannotStart
```

- The second note names the program or the folder, and repeats [the system's message](MESSAGES.md#notes-of-a-fault).
- Look at `RUSTC`. For the run of a script (`.run`), look at `--runner`.
- Check whether the target folder can be made, and whether files can be written there.
- Look for an argument or a variable that the system refuses, because it is over 128 KiB or has byte 0.
"#,
    },
    Entry {
        name: "Capture",
        text: r#"The output of the child process could not be read.

```
note: `a.target.lib` gave no answer: the output of the child process could not be read
note: cannot read what the child of a.target.lib wrote: Input/output error
error: fault a.target.lib Capture
```

- Build again.
"#,
    },
    Entry {
        name: "Device",
        text: r#"A call on files or variables failed. AT is the path or the variable. If the call was for the folder, the record or the inputs of a unit, AT is this unit.

```
note: a call for `/w/Cargo.toml` failed: a file could not be read
note: cannot read /w/Cargo.toml: Permission denied
error: fault /w/Cargo.toml Device
```

- The second note names the path at which the call failed, and repeats [the system's message](MESSAGES.md#notes-of-a-fault).
- Check the access rights, and whether the disk is full.
- In a folder that is read whole, look for links to folders above, folders more than 128 levels deep, and names that are not UTF-8.
- Check whether the variable is UTF-8, and whether a name is over 255 bytes.
"#,
    },
    Entry {
        name: "Died",
        text: r#"The child process ended without a status.

```
note: `a.target.lib` gave no answer: the child process ended without a status
note: the child of a.target.lib was ended by signal 9
error: fault a.target.lib Died
```

- The second note names the signal. For signal 9, look for limits of the system, such as a limit on memory.
"#,
    },
    Entry {
        name: "NumbersSpent",
        text: r#"No run number is left for the unit's record. Nothing was removed.

```
note: a call for `a.target.lib` failed: no run number is left
error: fault a.target.lib NumbersSpent
```

- Look at the records in the profile's folder: one of them names 18446744073709551615.
- Remove that record.
"#,
    },
    Entry {
        name: "OutOfMemory",
        text: r#"The system refused memory.

```
note: out of memory
error: fault memory OutOfMemory
```

- Free some memory, and build again.
"#,
    },
    Entry {
        name: "Sink",
        text: r#"The message lines cannot be written.

```
note: the message lines cannot be written
error: fault sink Sink
```

- Look at standard output: the pipe may be closed, or the disk full.
"#,
    },
    Entry {
        name: "Toolchain",
        text: r#"The compiler does not report its host. Its answer to `-vV` has a status other than 0, is too long, is not UTF-8, or has no line `host: TRIPLE`.

```
note: the compiler did not report its version and host
note: /w/compiler -vV ended with status 1
note: it wrote: no toolchain is installed
error: fault -vV Toolchain
```

- Look at what `$RUSTC -vV` prints.
"#,
    },
];
