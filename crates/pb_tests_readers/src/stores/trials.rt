//! Trials: steps on a profile folder, and what they report.

use crate::stores::steps::{begin, step};
use pb_mini::Mini;
use pb_place::Memory;
use pb_store::Store;
use pb_tests_files::{Shown, Untold};
use std::alloc::Global;
use std::test::Fail;

/// Returns whether the steps of a line, with the store of a place, report what the line contains.
/// In the line, `~` means a line feed.
fn tells_with(
    alloc: Global,
    place: &mut Untold<Mini>,
    store: &mut Store,
    line: &str,
) -> Result<bool, Fail> {
    let text = line.replace(alloc, "~", "\n")?;
    let (steps, told) = text.as_str().split_once(" -> ").ok_or("no trial")?;
    let mut out = Shown::new(alloc);
    for line in steps.lines() {
        step(alloc, place, store, line, &mut out)?;
    }
    Ok(out.says(told))
}

/// Returns the same for a fresh profile folder at a fresh place. A step `open` opens a second store
/// beside the trial's store.
fn is_right(alloc: Global, line: &str) -> Result<bool, Fail> {
    let mut place = Untold {
        inside: Memory::new(alloc, Mini),
    };
    let is_modelled = match begin(alloc, &mut place) {
        Ok(mut store) => {
            let is_modelled = tells_with(alloc, &mut place, &mut store, line);
            drop(store);
            is_modelled
        }
        Err(fault) => Err(fault),
    };
    drop(place);
    is_modelled
}

/// What differs first, for both formats.
const DIFFERENCES: &str = r#"differs -> same, 
file /w/a fm~differs -> `/w/a` has changed, 
file /w/a fnx~differs -> `/w/a` has changed, 
gone /w/a~differs -> `/w/a` has changed, 
gone /w/a~file /w/a/z fn~differs -> `/w/a` has changed, 
file /w/d/x 2~differs -> `/w/d` has changed, 
file /w/d/y~differs -> `/w/d` has changed, 
gone /w/d/x~file /w/d/y 1~differs -> `/w/d` has changed, 
gone /w/d~differs -> `/w/d` has changed, 
file /w/d 1~differs -> `/w/d` has changed, 
file /w/e~differs -> same, 
set V w~differs -> `V` has changed, 
set V~differs -> `V` has changed, 
unset V~differs -> `V` has changed, 
set U~differs -> `U` has changed, 
edit /t/debug/b.target.lib.record 3 4~differs -> `b.target.lib` was built again, 
edit /t/debug/b.target.lib.record _b _c~differs -> `b.target.lib` was built again, 
gone /t/debug/b.target.lib.record~differs -> `b.target.lib` was built again, 
file /t/debug/b.target.lib/b.lib C~differs -> same, 
gone /t/debug/a.target.lib.record~differs -> nothing is kept of it, 
edit /t/debug/a.target.lib.record _a _c~differs -> nothing is kept of it, 
edit /t/debug/a.target.lib.record end_ end~differs -> nothing is kept of it, 
file /t/debug/a.target.lib.record~differs -> nothing is kept of it, 
differs rustc rustd -> its program has changed, 
differs -C -D -> its words have changed, 
differs 1_2_-C_ 0_ -> its words have changed, 
differs /w /v -> its folder has changed, 
differs debug/a debug/c -> its output folder has changed, 
differs _/t_ _/s_ -> its target folder has changed, 
differs x_y x_z -> its compiler has changed, 
differs debug/b debug/c -> the folders that it may read have changed, 
differs rustc_1_2_-C rustd_1_2_-D -> its program has changed, 
differs -C_2_/w -D_2_/v -> its words have changed, 
differs /w_1_1_A_1_1 /v_1_1_A_1_2 -> its folder has changed, 
differs a.target.lib_2_/t c.target.lib_2_/s -> its output folder has changed, 
differs _/t_3_x _/s_3_z -> its target folder has changed, 
differs x_y_1_21_/t/debug/b x_z_1_21_/t/debug/c -> its compiler has changed, 
differs A_1_1_21_/t/debug/a.target.lib_2_/t_3_x_y_1_21_/t/debug/b A_1_2_21_/t/debug/a.target.lib_2_/t_3_x_y_1_21_/t/debug/c -> the folders that it may read have changed, 
differs A_1_1 A_1_2 -> the variable `A` that its command sets has changed, 
differs A B -> the variable `A` that its command sets has changed, 
differs 1_1_A_1_1_ 0_ -> the variable `A` that its command sets has changed, 
differs 1_1_A_1_1_ 2_1_A_1_1_1_B_1_1_ -> the variable `B` that its command sets has changed, 
differs 1_1_A_1_1_ 2_1_0_1_1_1_A_1_2_ -> the variable `0` that its command sets has changed, 
file /w/a fm~set V w~edit /t/debug/b.target.lib.record 3 4~differs rustc rustd~differs 1_1_A_1_1_21_/t/debug/a 0_21_/t/debug/c~differs A B~differs~file /w/a fn~differs~set V v~differs~edit /t/debug/b.target.lib.record 4 3~differs -> its program has changed, its output folder has changed, the variable `A` that its command sets has changed, `/w/a` has changed, `V` has changed, `b.target.lib` was built again, same, 
first~differs -> same, 
first~edit /t/debug/b.target.lib.record 3 4~differs -> same, 
first~gone /t/debug/b.target.lib.record~differs -> same, 
first~file /t/debug/b.target.lib/b.lib C~differs -> `b.target.lib` was built again, 
first~file /t/debug/b.target.lib/c/d~differs -> `b.target.lib` was built again, 
first~gone /t/debug/b.target.lib~differs -> `b.target.lib` was built again, 
first~file /w/a fm~file /t/debug/b.target.lib/b.lib C~differs A B~differs~file /w/a fn~differs -> the variable `A` that its command sets has changed, `/w/a` has changed, `b.target.lib` was built again, "#;

/// The next number of folders. The folders have records of both formats, and files whose names are
/// not names of records.
const NEXT_NUMBERS: &str = r#"open -> next 8, 
gone /t/debug/a.target.lib.record~open -> next 4, 
gone /t~open -> next 1, 
first~open -> next 4, 
first~gone /t/debug/b.target.lib.record~open -> next 1, 
edit /t/debug/a.target.lib.record _7_ _70_~open -> next 71, 
edit /t/debug/a.target.lib.record lib_3_ lib_30_~open -> next 31, 
edit /t/debug/a.target.lib.record end_ end~open -> next 4, 
file /t/debug/x.record record~open -> next 8, 
copy /t/debug/a.target.lib.record /t/debug/x.record~gone /t/debug/a.target.lib.record~open -> next 8, 
copy /t/debug/a.target.lib.record /t/debug/.record~gone /t/debug/a.target.lib.record~open -> next 8, 
copy /t/debug/a.target.lib.record /t/debug/x.recor~gone /t/debug/a.target.lib.record~open -> next 4, 
copy /t/debug/a.target.lib.record /t/debug/x/a.record~gone /t/debug/a.target.lib.record~open -> next 4, 
copy /t/debug/a.target.lib.record /t/a.record~gone /t/debug/a.target.lib.record~open -> next 4, 
edit /t/debug/a.target.lib.record _7_ _18446744073709551614_~open -> next 18446744073709551615, 
edit /t/debug/a.target.lib.record _7_ _18446744073709551615_~open -> spent, 
edit /t/debug/a.target.lib.record lib_3_ lib_18446744073709551615_~open -> spent, 
drop~drop~open -> dropped 8, dropped 9, next 4, "#;

/// Records that are dropped, kept, replayed and migrated.
const KEPT: &str = r#"replay -> out err 0, 
first~replay -> out err 0, 
file /w/a fm~replay -> out err 0, 
gone /t/debug/a.target.lib.record~replay -> a file could not be read, 
edit /t/debug/a.target.lib.record _a _c~replay -> a file could not be read, 
edit /t/debug/a.target.lib.record end_ end~replay -> a file could not be read, 
compare -> out err 0 numbered, 
first~compare -> out err 0 without number, 
gone /t/debug/a.target.lib.record~compare -> nothing is kept of it, 
edit /t/debug/a.target.lib.record _a _c~compare -> nothing is kept of it, 
drop~differs~compare -> dropped 8, nothing is kept of it, nothing is kept of it, 
drop~keep 8~differs~compare~open -> dropped 8, kept, same, out err 0 numbered, next 9, 
drop~keep 8~show /t/debug/a.target.lib.record -> dropped 8, kept, record 2~8~12~a.target.lib~5~rustc~1~2~-C~2~/w~1~1~A~1~1~21~/t/debug/a.target.lib~2~/t~3~x~y~1~21~/t/debug/b.target.lib~4~f~4~/w/a~2~fn~t~4~/w/d~1~1~x~1~1~v~1~V~1~1~v~v~1~U~0~1~12~b.target.lib~3~3~out~3~err~end~, 
file /w/a fm~gone /w/d~set U~unset V~edit /t/debug/b.target.lib.record 3 5~drop~keep 8~differs~set V v~differs -> dropped 8, kept, same, `V` has changed, 
first~open~migrate~differs~show /t/debug/a.target.lib.record~open -> next 4, migrated, same, record 2~8~12~a.target.lib~5~rustc~1~2~-C~2~/w~1~1~A~1~1~21~/t/debug/a.target.lib~2~/t~3~x~y~1~21~/t/debug/b.target.lib~4~f~4~/w/a~2~fn~t~4~/w/d~1~1~x~1~1~v~1~V~1~1~v~v~1~U~0~1~12~b.target.lib~3~3~out~3~err~end~, next 9, 
first~migrate~compare~drop -> migrated, out err 0 numbered, dropped 9, 
migrate~open~differs~drop -> migrated, next 8, same, dropped 8, 
gone /t/debug/a.target.lib.record~migrate~differs~drop -> migrated, nothing is kept of it, dropped 8, "#;

/// No number is left.
const WITHOUT_NUMBER: &str = r#"spent~drop~compare -> no run number is left, out err 0 numbered, 
spent~gone /t~drop -> no run number is left, 
spent~first~migrate~differs~open -> no run number is left, same, next 4, 
spent~migrate~differs -> migrated, same, 
spent~gone /t~migrate -> migrated, "#;

/// All trials, one on each line: steps, and what they report.
static TRIALS: &[&str] = &[DIFFERENCES, NEXT_NUMBERS, KEPT, WITHOUT_NUMBER];

/// Rules: `records.numbers`, `records.differs`.
#[test]
fn trials(rt: HostRuntime) -> Result<(), Fail> {
    for trials in TRIALS {
        for line in trials.lines() {
            assert!(rt; is_right(rt.alloc(), line)?, "{line}");
        }
    }
    Ok(())
}
