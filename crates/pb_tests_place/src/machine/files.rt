//! Files that are written, read, listed and removed.

use crate::machine::calls::try_steps;
use crate::machine::links::{
    CIRCLE, DIRECTLY, INTO_A_TARGET, LEFT_OUT, NOWHERE, SOMEWHERE, THE_LINK_ALONE,
};
use std::test::Fail;

const WRITTEN: &str = "read a/b/c -> none\n\
     write a/b/c one -> done\n\
     write a/b/c x -> done\n\
     read a/b/c -> x\n\
     read a/b -> none\n\
     read a/b/c/d -> none\n\
     write a/e -> done\n\
     read a/e -> \n\
     pieces p/q one|two||three -> done\n\
     read p/q -> onetwothree\n\
     pieces p/q x -> done\n\
     read p/q -> x\n\
     pieces p/q -> done\n\
     read p/q -> \n\
     counts -> 0 0";

const LISTED: &str = "write a/c/d -> done\n\
     write a/b -> done\n\
     write ab -> done\n\
     write a0 -> done\n\
     write a.b -> done\n\
     list -> /a.b /a/b /a/c/d /a0 /ab \n\
     list a -> /a/b /a/c/d \n\
     list ab -> \n\
     list no -> \n\
     counts -> 0 0";

const REMOVED: &str = "write a/c/d -> done\n\
     write a/b -> done\n\
     write ab -> done\n\
     write a0 -> done\n\
     remove a -> done\n\
     remove a -> done\n\
     remove ab -> done\n\
     remove a0/x -> done\n\
     list -> /a0 \n\
     counts -> 0 0";

const IN_THE_WAY: &str = "write f x -> done\n\
     write -> Write\n\
     write f/g -> Write\n\
     write f/g/h -> Write\n\
     pieces f/g a|b -> Write\n\
     counts -> 4 0\n\
     read f -> x\n\
     counts -> 4 1";

/// The first bytes of a file.
const FIRST: &str = "write f words -> done\n\
     first f 3 -> wor\n\
     first f 5 -> words\n\
     first f 6 -> words\n\
     first f 0 -> \n\
     first none 3 -> none\n\
     first f/g 3 -> none\n\
     counts -> 0 0";

/// Folders directly in a folder, and questions.
const ASKED: &str = "write a/b/c one -> done\n\
     write a/d x -> done\n\
     write a/e/f x -> done\n\
     link a/l e\n\
     link a/nowhere nothing\n\
     link a/here .\n\
     folders a a/x -> /a/b /a/e /a/here /a/l \n\
     folders a a/b -> /a/e /a/here /a/l \n\
     folders a a -> \n\
     folders a/d a/x -> \n\
     folders no a -> \n\
     is a/d -> true\n\
     is a/b -> false\n\
     is a/b/c -> true\n\
     is a/l/f -> true\n\
     is a/d/x -> false\n\
     is a/nowhere -> false\n\
     is no -> false\n\
     counts -> 0 0";

/// Folders as deep as a listing allows: 128 folders, one in another, with a file. Then one folder
/// more, which is too deep.
const NESTED: &str = "write \
     d/d/d/d/d/d/d/d/d/d/d/d/d/d/d/d/\
     d/d/d/d/d/d/d/d/d/d/d/d/d/d/d/d/\
     d/d/d/d/d/d/d/d/d/d/d/d/d/d/d/d/\
     d/d/d/d/d/d/d/d/d/d/d/d/d/d/d/d/\
     d/d/d/d/d/d/d/d/d/d/d/d/d/d/d/d/\
     d/d/d/d/d/d/d/d/d/d/d/d/d/d/d/d/\
     d/d/d/d/d/d/d/d/d/d/d/d/d/d/d/d/\
     d/d/d/d/d/d/d/d/d/d/d/d/d/d/d/d/\
     f -> done\n\
     list -> /\
     d/d/d/d/d/d/d/d/d/d/d/d/d/d/d/d/\
     d/d/d/d/d/d/d/d/d/d/d/d/d/d/d/d/\
     d/d/d/d/d/d/d/d/d/d/d/d/d/d/d/d/\
     d/d/d/d/d/d/d/d/d/d/d/d/d/d/d/d/\
     d/d/d/d/d/d/d/d/d/d/d/d/d/d/d/d/\
     d/d/d/d/d/d/d/d/d/d/d/d/d/d/d/d/\
     d/d/d/d/d/d/d/d/d/d/d/d/d/d/d/d/\
     d/d/d/d/d/d/d/d/d/d/d/d/d/d/d/d/\
     f \n\
     remove d -> done\n\
     write d/\
     d/d/d/d/d/d/d/d/d/d/d/d/d/d/d/d/\
     d/d/d/d/d/d/d/d/d/d/d/d/d/d/d/d/\
     d/d/d/d/d/d/d/d/d/d/d/d/d/d/d/d/\
     d/d/d/d/d/d/d/d/d/d/d/d/d/d/d/d/\
     d/d/d/d/d/d/d/d/d/d/d/d/d/d/d/d/\
     d/d/d/d/d/d/d/d/d/d/d/d/d/d/d/d/\
     d/d/d/d/d/d/d/d/d/d/d/d/d/d/d/d/\
     d/d/d/d/d/d/d/d/d/d/d/d/d/d/d/d/\
     f -> done\n\
     list -> List\n\
     counts -> 1 0";

/// The names of folders, and the steps that are carried out in each.
static FOLDERS: &[(&str, &str)] = &[
    ("written", WRITTEN),
    ("first", FIRST),
    ("listed", LISTED),
    ("removed", REMOVED),
    ("way", IN_THE_WAY),
    ("links", SOMEWHERE),
    ("alone", THE_LINK_ALONE),
    ("nowhere", NOWHERE),
    ("circle", CIRCLE),
    ("left-out", LEFT_OUT),
    ("into-a-target", INTO_A_TARGET),
    ("directly", DIRECTLY),
    ("asked", ASKED),
    ("nested", NESTED),
];

/// Rules: `machine.links`, `machine.absent`.
#[test]
fn files_and_links(rt: HostRuntime) -> Result<(), Fail> {
    for case in FOLDERS {
        let (name, steps) = *case;
        try_steps(&rt, name, steps)?;
    }
    Ok(())
}
