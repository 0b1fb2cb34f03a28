//! Steps of children in flight at a place in memory, and of calls that fail as a fuse or a death
//! decides. `memory.rt` carries the steps out. An empty line separates two scripts. Each script is
//! carried out at a fresh place.

/// Three children that are spawned.
const SPAWNED: &str = "spawn /w/a /w/target/a -> 0\n\
     spawn /w/a /w/target/b -> 1\n\
     spawn /w/a /w/target/c -> 2";

/// The end of the first child. Before it, half of the child's files exist; after it, all exist.
const FIRST_LANDS: &str = "list /w/target/a -> /w/target/a/a \n\
     finish 0 -> 7()()\n\
     list /w/target/a -> /w/target/a/a /w/target/a/d/b \n\
     finish 0 -> no child";

/// The end of the second child. Before it, half of the child's files exist; after it, all exist.
const SECOND_LANDS: &str = "list /w/target/b -> /w/target/b/a \n\
     finish 1 -> 7()()\n\
     list /w/target/b -> /w/target/b/a /w/target/b/d/b \n\
     finish 1 -> no child";

/// The end of the third child. Before it, half of the child's files exist; after it, all exist.
const THIRD_LANDS: &str = "list /w/target/c -> /w/target/c/a \n\
     finish 2 -> 7()()\n\
     list /w/target/c -> /w/target/c/a /w/target/c/d/b \n\
     finish 2 -> no child";

/// What is counted then.
const COUNTED: &str = "counts -> 0 0\n\
     starts -> 3 3";

/// Children that land in every order.
pub static ORDERS: &[&[&str]] = &[
    &[SPAWNED, FIRST_LANDS, SECOND_LANDS, THIRD_LANDS, COUNTED],
    &[SPAWNED, FIRST_LANDS, THIRD_LANDS, SECOND_LANDS, COUNTED],
    &[SPAWNED, SECOND_LANDS, FIRST_LANDS, THIRD_LANDS, COUNTED],
    &[SPAWNED, SECOND_LANDS, THIRD_LANDS, FIRST_LANDS, COUNTED],
    &[SPAWNED, THIRD_LANDS, FIRST_LANDS, SECOND_LANDS, COUNTED],
    &[SPAWNED, THIRD_LANDS, SECOND_LANDS, FIRST_LANDS, COUNTED],
];

/// Deaths of each kind, with a start into another folder before them and one into the same after
/// them.
pub const DEATHS: &str = "die a.lib CannotStart -> done\n\
     start /w/a /w/target/b.lib -> 7()() 1 0\n\
     start /w/a /w/target/a.lib -> CannotStart 2 1\n\
     list /w/target/a.lib -> \n\
     start /w/a /w/target/a.lib -> 7()() 3 1\n\
     \n\
     die a.lib Died -> done\n\
     start /w/a /w/target/b.lib -> 7()() 1 0\n\
     start /w/a /w/target/a.lib -> Died 2 1\n\
     list /w/target/a.lib -> /w/target/a.lib/a \n\
     start /w/a /w/target/a.lib -> 7()() 3 1\n\
     \n\
     die a.lib Capture -> done\n\
     start /w/a /w/target/b.lib -> 7()() 1 0\n\
     start /w/a /w/target/a.lib -> Capture 2 1\n\
     list /w/target/a.lib -> /w/target/a.lib/a \n\
     start /w/a /w/target/a.lib -> 7()() 3 1";

/// Three files.
pub const THREE_FILES: &str = "put /w/a old -> done\n\
     put /w/b x -> done\n\
     put /w/c x -> done";

/// A call of each kind over three files. The fuse makes the call with its number fail. No other
/// call fails. Afterwards `/w/a` is gone, unless the removal left it.
pub const FUSES: &str = "fuse 0 -> done\n\
     read /w/a -> old\n\
     list /w -> /w/a /w/b /w/c \n\
     outside /w /w -> \n\
     directly /w -> /w/a /w/b /w/c \n\
     write /w/a 12345 -> done\n\
     remove /w -> done\n\
     variable /V -> none\n\
     seen -> 0 0\n\
     file /w/a -> none\n\
     \n\
     fuse 1 -> done\n\
     read /w/a -> Read\n\
     list /w -> /w/a /w/b /w/c \n\
     outside /w /w -> \n\
     directly /w -> /w/a /w/b /w/c \n\
     write /w/a 12345 -> done\n\
     remove /w -> done\n\
     variable /V -> none\n\
     seen -> 1 6\n\
     file /w/a -> none\n\
     \n\
     fuse 2 -> done\n\
     read /w/a -> old\n\
     list /w -> List\n\
     outside /w /w -> \n\
     directly /w -> /w/a /w/b /w/c \n\
     write /w/a 12345 -> done\n\
     remove /w -> done\n\
     variable /V -> none\n\
     seen -> 1 5\n\
     file /w/a -> none\n\
     \n\
     fuse 3 -> done\n\
     read /w/a -> old\n\
     list /w -> /w/a /w/b /w/c \n\
     outside /w /w -> List\n\
     directly /w -> /w/a /w/b /w/c \n\
     write /w/a 12345 -> done\n\
     remove /w -> done\n\
     variable /V -> none\n\
     seen -> 1 4\n\
     file /w/a -> none\n\
     \n\
     fuse 4 -> done\n\
     read /w/a -> old\n\
     list /w -> /w/a /w/b /w/c \n\
     outside /w /w -> \n\
     directly /w -> List\n\
     write /w/a 12345 -> done\n\
     remove /w -> done\n\
     variable /V -> none\n\
     seen -> 1 3\n\
     file /w/a -> none\n\
     \n\
     fuse 5 -> done\n\
     read /w/a -> old\n\
     list /w -> /w/a /w/b /w/c \n\
     outside /w /w -> \n\
     directly /w -> /w/a /w/b /w/c \n\
     write /w/a 12345 -> Write\n\
     remove /w -> done\n\
     variable /V -> none\n\
     seen -> 1 2\n\
     file /w/a -> none\n\
     \n\
     fuse 6 -> done\n\
     read /w/a -> old\n\
     list /w -> /w/a /w/b /w/c \n\
     outside /w /w -> \n\
     directly /w -> /w/a /w/b /w/c \n\
     write /w/a 12345 -> done\n\
     remove /w -> Remove\n\
     variable /V -> none\n\
     seen -> 1 1\n\
     file /w/a -> none\n\
     \n\
     fuse 7 -> done\n\
     read /w/a -> old\n\
     list /w -> /w/a /w/b /w/c \n\
     outside /w /w -> \n\
     directly /w -> /w/a /w/b /w/c \n\
     write /w/a 12345 -> done\n\
     remove /w -> done\n\
     variable /V -> Variable\n\
     seen -> 1 0\n\
     file /w/a -> none\n\
     \n\
     fuse 8 -> done\n\
     read /w/a -> old\n\
     list /w -> /w/a /w/b /w/c \n\
     outside /w /w -> \n\
     directly /w -> /w/a /w/b /w/c \n\
     write /w/a 12345 -> done\n\
     remove /w -> done\n\
     variable /V -> none\n\
     seen -> 0 0\n\
     file /w/a -> none";

/// After three files were put, a write and a removal that fail leave half of their change, rounded
/// down.
pub const HALVES: &str = "fuse 1 -> done\n\
     write /w/a 12345 -> Write\n\
     file /w/a -> 12\n\
     file /w/b -> x\n\
     file /w/c -> x\n\
     \n\
     fuse 1 -> done\n\
     pieces /w/a 1||2345 -> Write\n\
     file /w/a -> 12\n\
     file /w/b -> x\n\
     counts -> 1 0\n\
     \n\
     fuse 1 -> done\n\
     remove /w -> Remove\n\
     file /w/a -> none\n\
     file /w/b -> x\n\
     file /w/c -> x";

/// A start under a fuse: it fails at its spawn, at the end of its child, or not at all.
pub const STARTS_OF_TWO_CALLS: &str = "fuse 1 -> done\n\
     start /w/a /w/target/a -> CannotStart 1 1\n\
     counts -> 1 0\n\
     fuse 0 -> done\n\
     list /w/target/a -> \n\
     \n\
     fuse 2 -> done\n\
     start /w/a /w/target/a -> Died 1 1\n\
     counts -> 1 0\n\
     fuse 0 -> done\n\
     list /w/target/a -> /w/target/a/a \n\
     \n\
     fuse 3 -> done\n\
     start /w/a /w/target/a -> 7()() 1 0\n\
     counts -> 0 0\n\
     fuse 0 -> done\n\
     list /w/target/a -> /w/target/a/a /w/target/a/d/b ";

/// Two children in flight under each fuse. The end of the second child is awaited first, with a
/// read in between. These are five calls: two that spawn, one that reads, and two that wait.
pub const FLIGHTS: &str = "fuse 0 -> done\n\
     spawn /w/a /w/target/a -> 0\n\
     spawn /w/a /w/target/b -> 1\n\
     read /w/a -> none\n\
     finish 1 -> 7()()\n\
     finish 0 -> 7()()\n\
     counts -> 0 0\n\
     starts -> 2 2\n\
     fuse 0 -> done\n\
     list /w/target/a -> /w/target/a/a /w/target/a/d/b \n\
     list /w/target/b -> /w/target/b/a /w/target/b/d/b \n\
     \n\
     fuse 1 -> done\n\
     spawn /w/a /w/target/a -> CannotStart\n\
     spawn /w/a /w/target/b -> 0\n\
     read /w/a -> none\n\
     finish 0 -> 7()()\n\
     counts -> 1 2\n\
     starts -> 2 1\n\
     fuse 0 -> done\n\
     list /w/target/a -> \n\
     list /w/target/b -> /w/target/b/a /w/target/b/d/b \n\
     \n\
     fuse 2 -> done\n\
     spawn /w/a /w/target/a -> 0\n\
     spawn /w/a /w/target/b -> CannotStart\n\
     read /w/a -> none\n\
     finish 0 -> 7()()\n\
     counts -> 1 1\n\
     starts -> 2 1\n\
     fuse 0 -> done\n\
     list /w/target/a -> /w/target/a/a /w/target/a/d/b \n\
     list /w/target/b -> \n\
     \n\
     fuse 3 -> done\n\
     spawn /w/a /w/target/a -> 0\n\
     spawn /w/a /w/target/b -> 1\n\
     read /w/a -> Read\n\
     finish 1 -> 7()()\n\
     finish 0 -> 7()()\n\
     counts -> 1 0\n\
     starts -> 2 2\n\
     fuse 0 -> done\n\
     list /w/target/a -> /w/target/a/a /w/target/a/d/b \n\
     list /w/target/b -> /w/target/b/a /w/target/b/d/b \n\
     \n\
     fuse 4 -> done\n\
     spawn /w/a /w/target/a -> 0\n\
     spawn /w/a /w/target/b -> 1\n\
     read /w/a -> none\n\
     finish 1 -> Died\n\
     finish 0 -> 7()()\n\
     counts -> 1 0\n\
     starts -> 2 2\n\
     fuse 0 -> done\n\
     list /w/target/a -> /w/target/a/a /w/target/a/d/b \n\
     list /w/target/b -> /w/target/b/a \n\
     \n\
     fuse 5 -> done\n\
     spawn /w/a /w/target/a -> 0\n\
     spawn /w/a /w/target/b -> 1\n\
     read /w/a -> none\n\
     finish 1 -> 7()()\n\
     finish 0 -> Died\n\
     counts -> 1 0\n\
     starts -> 2 2\n\
     fuse 0 -> done\n\
     list /w/target/a -> /w/target/a/a \n\
     list /w/target/b -> /w/target/b/a /w/target/b/d/b \n\
     \n\
     fuse 6 -> done\n\
     spawn /w/a /w/target/a -> 0\n\
     spawn /w/a /w/target/b -> 1\n\
     read /w/a -> none\n\
     finish 1 -> 7()()\n\
     finish 0 -> 7()()\n\
     counts -> 0 0\n\
     starts -> 2 2\n\
     fuse 0 -> done\n\
     list /w/target/a -> /w/target/a/a /w/target/a/d/b \n\
     list /w/target/b -> /w/target/b/a /w/target/b/d/b ";
