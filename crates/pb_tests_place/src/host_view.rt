//! A view of real files and variables: what exists, what does not exist, and what is not a file.

use pb_place_host::HostView;
use pb_place_types::{PathText, View};
use std::alloc::Global;
use std::test::Fail;

/// Returns whether a view shows a file at a path.
fn shows_file<V: View>(alloc: Global, view: &V, path: &str) -> Result<bool, Fail> {
    let path = PathText::parse(alloc, path)?;
    let found = view.file(alloc, &path)?;
    Ok(found.is_some())
}

/// Returns whether a view shows a variable.
fn shows_variable<V: View>(alloc: Global, view: &V, name: &str) -> Result<bool, Fail> {
    let found = view.variable(alloc, name)?;
    Ok(found.is_some())
}

/// Paths, and whether a file is shown there.
static REAL_FILES: &[(&str, bool)] = &[
    ("/", false),
    ("/no/such/file", false),
    ("/dev/null", false),
    ("/dev/null/x", false),
    ("/proc/version", true),
];

/// Rules: `mini.program`.
#[test]
fn real_files(rt: HostRuntime) -> Result<(), Fail> {
    let view = HostView::new(&rt);
    for case in REAL_FILES {
        let (path, wanted) = *case;
        assert!(rt; shows_file(rt.alloc(), &view, path)? == wanted, "at {path}");
    }
    assert!(rt; !shows_variable(rt.alloc(), &view, "NO_SUCH_VARIABLE")?);
    Ok(())
}
