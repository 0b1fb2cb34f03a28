//! The metadata that scripts pass on, against a worked example.

use pb_data::{Items, Table, Text};
use pb_directive::{dep_pairs, read_directives};
use pb_tests_files::Shown;
use std::alloc::{AllocError, Global};
use std::test::Fail;

fn put_pairs(out: &mut Shown, pairs: &Items<(Text, Text)>) {
    for (name, value) in pairs.as_slice() {
        out.put(&[name.as_str(), "=", value.as_str(), ";"]);
    }
}

/// Returns what a script of `z-libß` passes on.
fn passed_on(alloc: Global) -> Result<Table<Text>, Fail> {
    let text = b"cargo::metadata=root-dir=/r\ncargo:b=1\ncargo::warning=w\ncargo:Root_Dir=/s\n";
    let directives = read_directives(alloc, text)?;
    let pairs = dep_pairs(alloc, "z-lib\u{df}", &directives);
    drop(directives);
    Ok(pairs?)
}

/// Returns whether a table has this value under a name.
fn has(table: &Table<Text>, name: &Text, wanted: &str) -> bool {
    match table.get(name) {
        Some(value) => table.contains(name) && value.as_str() == wanted,
        None => false,
    }
}

/// Returns whether a table begins with this name.
fn begins(table: &Table<Text>, wanted: &str) -> bool {
    let mut entries = table.iter();
    match entries.next() {
        Some((first, _)) => first.as_str() == wanted,
        None => false,
    }
}

/// Returns whether a table has two pairs. The pair of `B` is looked up, and the other pair is the
/// first.
fn is_right(alloc: Global, pairs: &Table<Text>) -> Result<bool, AllocError> {
    let name = Text::from_str(alloc, "DEP_Z_LIBSS_B")?;
    Ok(pairs.len() == 2 && has(pairs, &name, "1") && begins(pairs, "DEP_Z_LIBSS_ROOT_DIR"))
}

/// Returns whether these are all pairs of a table, in its order.
fn are_all(alloc: Global, pairs: Table<Text>, wanted: &str) -> Result<bool, AllocError> {
    let mut shown = Shown::new(alloc);
    put_pairs(&mut shown, &pairs.into_items(alloc)?);
    Ok(shown.says(wanted))
}

/// Returns whether what a script of `z-libß` passes on is right.
fn is_passed_on(alloc: Global) -> Result<bool, Fail> {
    let pairs = passed_on(alloc)?;
    let is_right = is_right(alloc, &pairs);
    let is_all = are_all(alloc, pairs, "DEP_Z_LIBSS_ROOT_DIR=/s;DEP_Z_LIBSS_B=1;");
    Ok(is_right? && is_all?)
}

/// Rules: `directives.metadata`.
#[test]
fn metadata_is_passed_on(rt: HostRuntime) -> Result<(), Fail> {
    assert!(rt; is_passed_on(rt.alloc())?);
    Ok(())
}
