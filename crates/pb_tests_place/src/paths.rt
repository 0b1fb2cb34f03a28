//! Paths by tables of texts.

use pb_data::{Text, TryCopy};
use pb_place_types::{
    PathFault, PathText, RelativePath, folders_nest, parsing_keeps_paths, paths_join_again,
};
use std::alloc::{AllocError, Global};
use std::test::Fail;

/// Returns whether an answer has this text, or a fault of this name.
fn says(answer: &Result<PathText, PathFault>, wanted: &str) -> bool {
    match answer {
        Ok(path) => path.as_str() == wanted,
        Err(PathFault::NotAbsolute) => wanted == "NotAbsolute",
        Err(PathFault::BadByte) => wanted == "BadByte",
        Err(PathFault::OutOfMemory) => wanted == "OutOfMemory",
    }
}

/// Returns whether a path was made, and is this.
fn is_made<E: Drop>(made: Result<PathText, E>, wanted: &str) -> bool {
    match made {
        Ok(path) => path.as_str() == wanted,
        Err(_) => false,
    }
}

/// Returns whether a text is parsed to this.
fn parses_to(alloc: Global, text: &str, wanted: &str) -> Result<bool, PathFault> {
    let answer = PathText::parse(alloc, text);
    Ok(says(&answer, wanted))
}

/// Texts, and the path or the fault of each.
const PARSES: &str = "/ -> /\n\
     /w -> /w\n\
     /w/./a/../b -> /w/b\n\
     /w/a/ -> /w/a\n\
     //w///a// -> /w/a\n\
     /.. -> /\n\
     /../../w -> /w\n\
     /w/../.. -> /\n\
     /w/... -> /w/...\n\
     /w/.a/..b -> /w/.a/..b\n\
     /é/ x -> /é/ x\n\
     | -> NotAbsolute\n\
     w -> NotAbsolute\n\
     ./w -> NotAbsolute\n\
     ../w -> NotAbsolute\n\
     \0 -> NotAbsolute\n\
     w/\0 -> NotAbsolute\n\
     /\0 -> BadByte\n\
     /w\0/.. -> BadByte";

/// Returns whether a text in a folder means this.
fn joins_to(alloc: Global, folder: &str, text: &str, wanted: &str) -> Result<bool, PathFault> {
    let folder = PathText::parse(alloc, folder)?;
    let answer = folder.join(alloc, text);
    Ok(says(&answer, wanted))
}

/// Folders and texts, and the path of the text in the folder.
const JOINS: &str = "/w|a/b -> /w/a/b\n\
     /w|../x -> /x\n\
     /w|../../../x -> /x\n\
     /w/a|.. -> /w\n\
     /|.. -> /\n\
     /|a -> /a\n\
     /w -> /w\n\
     /w|. -> /w\n\
     /w|a//./b/ -> /w/a/b\n\
     /w|/x/../y -> /y\n\
     /w|/ -> /\n\
     /w|a\0 -> BadByte\n\
     /w|/\0 -> BadByte";

/// Returns the paths of two texts.
fn paths_of(alloc: Global, first: &str, second: &str) -> Result<(PathText, PathText), PathFault> {
    let first = PathText::parse(alloc, first)?;
    let second = PathText::parse(alloc, second)?;
    Ok((first, second))
}

/// Returns how a path is related to a folder: `below` it, the folder `itself`, or `outside`.
/// Returns `wrong` if the path is below the folder but does not start with it.
fn relation_of(path: &PathText, folder: &PathText) -> &'static str {
    match (path.is_below(folder), path.starts_with(folder)) {
        (true, true) => "below",
        (false, true) => "itself",
        (false, false) => "outside",
        (true, false) => "wrong",
    }
}

/// Returns whether a path is related to a folder in this way.
fn lies(alloc: Global, path: &str, folder: &str, wanted: &str) -> Result<bool, PathFault> {
    let paths = paths_of(alloc, path, folder)?;
    let is_so = relation_of(&paths.0, &paths.1) == wanted;
    drop(paths);
    Ok(is_so)
}

/// Paths and folders, and how the path is related to the folder.
const BEGINNINGS: &str = "/w/a|/w/a -> itself\n\
     /w/a/b|/w/a -> below\n\
     /w/a/b/c|/w/a -> below\n\
     /w/ab|/w/a -> outside\n\
     /w/a|/w/ab -> outside\n\
     /w|/w/a -> outside\n\
     /w/A|/w/a -> outside\n\
     /|/ -> itself\n\
     /w|/ -> below\n\
     /w/a|/ -> below\n\
     /|/w -> outside";

/// Returns whether this is the folder of a copy of a path.
fn is_in(alloc: Global, path: &str, wanted: &str) -> Result<bool, PathFault> {
    let path = PathText::parse(alloc, path)?;
    let again = path.copy(alloc)?;
    Ok(is_made(again.folder(alloc), wanted))
}

/// Paths, and the folder of each.
const FOLDERS: &str = "/w/a/b -> /w/a\n\
     /w -> /\n\
     / -> /";

/// Returns whether this is the path of a copied relative path in a folder.
fn is_below(
    alloc: Global,
    folder: &str,
    relative: &RelativePath,
    wanted: &str,
) -> Result<bool, PathFault> {
    let folder = PathText::parse(alloc, folder)?;
    let again = relative.copy(alloc)?;
    Ok(is_made(folder.below(alloc, &again), wanted))
}

/// Returns whether the relative path in a folder is this one; `none` if the text is not a relative
/// path.
fn has_inside(alloc: Global, folder: &str, text: &str, wanted: &str) -> Result<bool, PathFault> {
    match RelativePath::of(Text::from_str(alloc, text)?) {
        Some(relative) => is_below(alloc, folder, &relative, wanted),
        None => Ok(wanted == "none"),
    }
}

/// Folders and texts, and the path of the relative path in the folder.
const RELATIVE_PATHS: &str = "/w|a -> /w/a\n\
     /w|a/b.d -> /w/a/b.d\n\
     /|a -> /a\n\
     /w|... -> /w/...\n\
     /w -> none\n\
     /w|. -> none\n\
     /w|.. -> none\n\
     /w|a/../b -> none\n\
     /w|./a -> none\n\
     /w|/a -> none\n\
     /w|a/ -> none\n\
     /w|a//b -> none\n\
     /w|a\0 -> none";

/// Returns whether this is the path relative to a folder; `none` if the path is not below the
/// folder.
fn has_part(alloc: Global, folder: &PathText, path: &PathText, wanted: &str) -> bool {
    match path.inside(alloc, folder) {
        Ok(Some(relative)) => relative.as_str() == wanted,
        Ok(None) => wanted == "none",
        Err(_) => false,
    }
}

/// Returns what `has_part` returns, for texts.
fn is_taken_apart(
    alloc: Global,
    folder: &str,
    path: &str,
    wanted: &str,
) -> Result<bool, PathFault> {
    let paths = paths_of(alloc, folder, path)?;
    let has_part = has_part(alloc, &paths.0, &paths.1, wanted);
    drop(paths);
    Ok(has_part)
}

/// Folders and paths, and what the path is inside the folder.
const PATHS_TAKEN_APART: &str = "/w|/w/a/b -> a/b\n\
     /|/w/a -> w/a\n\
     /w|/w -> none\n\
     /w|/wa -> none\n\
     /w/a|/w -> none";

/// Returns whether the last part of a path is this.
fn ends_in(alloc: Global, path: &str, wanted: &str) -> Result<bool, PathFault> {
    let path = PathText::parse(alloc, path)?;
    Ok(path.last_part() == wanted)
}

/// Paths, and the last part of each.
const LAST_PARTS: &str = "/ -> \n\
     /w -> w\n\
     /w/a.b -> a.b";

/// Returns whether a text is a `path` with the same bytes, or `none`, as wanted.
fn is_path(alloc: Global, text: &str, wanted: &str) -> Result<bool, PathFault> {
    match PathText::of(Text::from_str(alloc, text)?) {
        Some(path) => Ok(path.as_str() == text && wanted == "path"),
        None => Ok(wanted == "none"),
    }
}

/// Texts, and whether each is a path.
const TEXTS_THAT_ARE_PATHS: &str = "/ -> path\n\
     /w/a -> path\n\
     | -> none\n\
     w -> none\n\
     /w/ -> none\n\
     // -> none\n\
     /w/../a -> none\n\
     /w\0 -> none";

/// A question about two texts.
#[derive(Clone, Copy)]
enum Asked {
    Parse,
    Join,
    Place,
    Folder,
    Below,
    Inside,
    LastPart,
    IsPath,
}

/// All questions.
static ALL_ASKED: &[Asked] = &[
    Asked::Parse,
    Asked::Join,
    Asked::Place,
    Asked::Folder,
    Asked::Below,
    Asked::Inside,
    Asked::LastPart,
    Asked::IsPath,
];

/// Returns the table of a question. Each line has two texts with a bar between them, and what comes
/// of the texts. The second text may be missing.
fn table_of(asked: Asked) -> &'static str {
    match asked {
        Asked::Parse => PARSES,
        Asked::Join => JOINS,
        Asked::Place => BEGINNINGS,
        Asked::Folder => FOLDERS,
        Asked::Below => RELATIVE_PATHS,
        Asked::Inside => PATHS_TAKEN_APART,
        Asked::LastPart => LAST_PARTS,
        Asked::IsPath => TEXTS_THAT_ARE_PATHS,
    }
}

/// Returns whether a question about two texts has this answer.
fn is_right(
    alloc: Global,
    asked: Asked,
    first: &str,
    second: &str,
    wanted: &str,
) -> Result<bool, PathFault> {
    match asked {
        Asked::Parse => parses_to(alloc, first, wanted),
        Asked::Join => joins_to(alloc, first, second, wanted),
        Asked::Place => lies(alloc, first, second, wanted),
        Asked::Folder => is_in(alloc, first, wanted),
        Asked::Below => has_inside(alloc, first, second, wanted),
        Asked::Inside => is_taken_apart(alloc, first, second, wanted),
        Asked::LastPart => ends_in(alloc, first, wanted),
        Asked::IsPath => is_path(alloc, first, wanted),
    }
}

/// Returns whether the line of a table is right. Returns false for a line without an answer, and if
/// memory is refused.
fn line_is_right(alloc: Global, asked: Asked, line: &str) -> bool {
    let Some((texts, wanted)) = line.split_once(" -> ") else {
        return false;
    };
    let (first, second) = texts.split_once('|').unwrap_or((texts, ""));
    matches!(is_right(alloc, asked, first, second, wanted), Ok(true))
}

/// Returns whether a relative path that is made from a name has the text of the name.
fn is_known(alloc: Global) -> Result<bool, AllocError> {
    let path = RelativePath::name(alloc, "a.rlib")?;
    Ok(path.as_str() == "a.rlib")
}

/// Returns whether a path comes before another.
fn stands_before(alloc: Global, low: &str, high: &str) -> Result<bool, PathFault> {
    let paths = paths_of(alloc, low, high)?;
    let stands_before = paths.0 < paths.1;
    drop(paths);
    Ok(stands_before)
}

/// Rules: `paths.form`, `paths.join`.
#[test]
fn paths(rt: HostRuntime) -> Result<(), Fail> {
    for asked in ALL_ASKED {
        for line in table_of(*asked).lines() {
            assert!(rt; line_is_right(rt.alloc(), *asked, line), "{line}");
        }
    }
    assert!(rt; is_known(rt.alloc())?);
    assert!(rt; stands_before(rt.alloc(), "/a", "/a.b")?);
    parsing_keeps_paths();
    paths_join_again();
    folders_nest();
    Ok(())
}
