//! Notes on a workspace of too many packages, and on a plan of too many units.

ghost use Rattle.pb_tool_notes_pages.specs.Looks.{LooksAgain};

use crate::binaries::push_binaries;
use pb_data::Text;
use pb_place_types::{Place, PlaceFault};
use pb_tool_notes_pages::{Notes, Page, Pages, Role, tell_key, tell_page};
use std::alloc::{AllocError, Global};

/// Returns how many members the root names.
fn members_in(pages: &Pages) -> usize {
    pages
        .asks
        .iter()
        .filter(|ask| ask.role == Role::Member)
        .count()
}

/// Adds a note for a workspace of too many packages: how many packages the root names.
///
/// Errors: out of memory.
pub fn tell_too_many(alloc: Global, notes: &mut Notes, pages: &Pages) -> Result<(), AllocError> {
    let Some(root) = pages.root() else {
        return Ok(());
    };
    let members = members_in(pages);
    if members == 0 {
        let text = "the package and all packages that it needs are counted";
        return tell_page(alloc, notes, root, text);
    }
    let text = format!(in alloc;
        "it names {members} members; the packages that they need are counted too"
    )?;
    tell_key(alloc, notes, root, "workspace", "members", text.as_str())
}

/// Returns how many different names there are.
///
/// Errors: out of memory.
fn count_once(mut names: Vec<Text>) -> Result<usize, AllocError> {
    names.sort()?;
    let names = names.as_slice();
    let repeats = names.windows(2).filter(|pair| pair[0] == pair[1]).count();
    Ok(names.len().saturating_sub(repeats))
}

/// Returns how many binaries a package has.
fn binaries_in<P: Place>(alloc: Global, place: &mut P, page: &Page) -> Result<usize, PlaceFault>
    ensures { LooksAgain (P.at place.old) (P.at place.new) }
{
    let mut names = Vec::new(alloc);
    push_binaries(alloc, place, &mut names, page)?;
    Ok(count_once(names)?)
}

/// How many binaries some packages have.
#[derive(Drop)]
struct Counted<'a> {
    /// How many binaries all packages have together.
    all: usize,
    /// How many binaries the package with the most binaries has.
    most: usize,
    /// The manifest of that package.
    page: Option<&'a Page>,
}

/// Returns how many binaries the packages have.
fn count_all<'a, P: Place>(
    alloc: Global,
    place: &mut P,
    pages: &'a Pages,
) -> Result<Counted<'a>, PlaceFault>
    ensures { LooksAgain (P.at place.old) (P.at place.new) }
{
    let mut counted = Counted {
        all: 0,
        most: 0,
        page: None,
    };
    for page in pages.pages.as_slice() {
        let here = binaries_in(alloc, place, page)?;
        counted.all = counted.all.saturating_add(here);
        if here > counted.most {
            counted.most = here;
            counted.page = Some(page);
        }
    }
    Ok(counted)
}

/// Adds a note for a plan of too many units: how many binaries the packages have, and which package
/// has the most.
///
/// Errors: those of its calls; out of memory.
pub fn tell_too_many_units<P: Place>(
    alloc: Global,
    place: &mut P,
    notes: &mut Notes,
    pages: &Pages,
) -> Result<(), PlaceFault>
    ensures { LooksAgain (P.at place.old) (P.at place.new) }
{
    let counted = count_all(alloc, place, pages)?;
    let all = counted.all;
    let text = format!(in alloc; "each binary is a unit: the packages have {all} binaries")?;
    notes.say(alloc, text.as_str())?;
    if let Some(page) = counted.page {
        let most = counted.most;
        let text = format!(in alloc;
            "{most} of these binaries; --bin NAME and -p NAME select fewer"
        )?;
        tell_page(alloc, notes, page, text.as_str())?;
    }
    Ok(())
}
