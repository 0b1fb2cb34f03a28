//! A profile folder in memory: a unit that was built over another one, with all as it was then.

use pb_data::Bytes;
use pb_mini::Mini;
use pb_place::Memory;
use pb_place_types::PathText;
use pb_tests_files::Shown;
use std::alloc::{AllocError, Global};
use std::test::Fail;

/// The record of the unit `a`, which was built with number 7 over `b`.
pub const OWN: &str =
    "record 2\n7\n12\na.target.lib\n5\nrustc\n1\n2\n-C\n2\n/w\n1\n1\nA\n1\n1\n21\n/t/debug/a.target.lib\n2\n/t\n3\nx\ny\n1\n21\n/t/debug/b.target.lib\n4\nf\n4\n/w/a\n2\nfn\nt\n4\n/w/d\n1\n1\nx\n1\n1\nv\n1\nV\n1\n1\nv\nv\n1\nU\n0\n1\n12\nb.target.lib\n3\n3\nout\n3\nerr\nend\n";

/// The same record in format 1.
const FIRST: &str =
    "record 1\n12\na.target.lib\n5\nrustc\n1\n2\n-C\n2\n/w\n1\n1\nA\n1\n1\n21\n/t/debug/a.target.lib\n2\n/t\n3\nx\ny\n1\n21\n/t/debug/b.target.lib\n4\nf\n4\n/w/a\n2\nfn\nt\n4\n/w/d\n1\n1\nx\n1\n1\nv\n1\nV\n1\n1\nv\nv\n1\nU\n0\n1\n12\nb.target.lib\n1\n5\nb.lib\n1\nB\n3\nout\n3\nerr\nend\n";

/// The record of the unit `b`, which was built with number 3.
const OTHER: &str =
    "record 2\n3\n12\nb.target.lib\n5\nrustc\n0\n2\n/w\n0\n21\n/t/debug/b.target.lib\n2\n/t\n0\n\n0\n0\n0\n0\n\n0\n\nend\n";

/// The files.
static FILES: &[(&str, &str)] = &[
    ("/w/a", "fn"),
    ("/w/d/x", "1"),
    ("/t/debug/a.target.lib/a.lib", "A"),
    ("/t/debug/b.target.lib/b.lib", "B"),
    ("/t/debug/a.target.lib.record", OWN),
    ("/t/debug/b.target.lib.record", OTHER),
];

/// Puts a file.
pub fn put_file(
    alloc: Global,
    place: &mut Memory<Mini>,
    path: &str,
    text: &str,
) -> Result<(), Fail> {
    let path = PathText::parse(alloc, path)?;
    let put = place.put(alloc, &path, text.as_bytes());
    drop(path);
    Ok(put?)
}

/// Replaces the unit's record by the record of format 1.
pub fn put_first(alloc: Global, place: &mut Memory<Mini>) -> Result<(), Fail> {
    put_file(alloc, place, "/t/debug/a.target.lib.record", FIRST)
}

/// Puts all files, and sets a variable.
pub fn prepare(alloc: Global, place: &mut Memory<Mini>) -> Result<(), Fail> {
    for file in FILES {
        let (path, text) = *file;
        put_file(alloc, place, path, text)?;
    }
    place.set(alloc, "V", "v")?;
    Ok(())
}

/// Removes what is at a path.
pub fn take_away(alloc: Global, place: &mut Memory<Mini>, path: &str) -> Result<(), Fail> {
    let path = PathText::parse(alloc, path)?;
    let removed = place.remove(alloc, &path);
    drop(path);
    Ok(removed?)
}

/// Returns a file as a text of its own; `none` if there is none.
fn copy_text(alloc: Global, found: &Option<Bytes>) -> Result<String, AllocError> {
    let text = match found {
        Some(bytes) => str::from_utf8(bytes.as_slice()).unwrap_or("wrong"),
        None => "none",
    };
    String::from_str(alloc, text)
}

/// Returns the text of a file.
pub fn text_at(alloc: Global, place: &Memory<Mini>, path: &str) -> Result<String, Fail> {
    let path = PathText::parse(alloc, path)?;
    let file = place.file(alloc, &path);
    drop(path);
    let found = file?;
    let text = copy_text(alloc, &found);
    drop(found);
    Ok(text?)
}

/// Returns a text in which one text is replaced by another, once, if it occurs. In both texts, `_`
/// means a line feed.
pub fn replace_once(alloc: Global, text: &str, old: &str, new: &str) -> Result<String, AllocError> {
    let old = old.replace(alloc, "_", "\n")?;
    let new = new.replace(alloc, "_", "\n")?;
    let mut made = Shown::new(alloc);
    match text.split_once(old.as_str()) {
        Some((before, behind)) => made.put(&[before, new.as_str(), behind]),
        None => made.put(&[text]),
    }
    made.whole()
}
