//! The manifests of a workspace, read again: the manifests of the root, of its members, and of
//! packages that path dependencies name.

ghost use Rattle.pb_tool_notes_pages.specs.Looks.{LooksAgain};

use crate::asks::{Ask, Role, asks_of, is_asked, root_ask};
use crate::globs::member_folders;
use crate::looks::recall_or_read;
use crate::page::Page;
use crate::remembering::Remembering;
use pb_data::{MAX_PACKAGES, TryCopy};
use pb_place_types::{PathText, Place, PlaceFault};
use std::alloc::{AllocError, Global};

/// The greatest number of manifests that are read again.
const MOST_PAGES: usize = MAX_PACKAGES + 1;

/// The greatest number of asks that are followed.
const MOST_ASKS: usize = 1024;

/// The manifests that were read again, and why each manifest is read.
#[derive(Drop)]
pub struct Pages {
    /// The manifests, the root's first.
    pub pages: Vec<Page>,
    /// Which manifest asks for which other manifest.
    pub asks: Vec<Ask>,
}

impl Pages {
    /// Returns the manifest at a path, if this manifest was read.
    pub fn at(&self, path: &str) -> Option<&Page> {
        self.pages.iter().find(|page| page.path.as_str() == path)
    }

    /// Returns the manifest of a package, by its name.
    pub fn page_of(&self, name: &str) -> Option<&Page> {
        self.pages
            .iter()
            .find(|page| page.package_text("name") == name)
    }

    /// Returns the root manifest, if it was read.
    pub fn root(&self) -> Option<&Page> {
        self.pages.first()
    }
}

/// Adds a manifest, and the asks of its dependencies.
fn take_in(alloc: Global, pages: &mut Pages, page: Page) -> Result<(), AllocError> {
    let asks = asks_of(alloc, pages.pages.first(), &page)?;
    for ask in asks {
        if pages.asks.len() < MOST_ASKS {
            pages.asks.push(ask)?;
        }
    }
    pages.pages.push(page)?;
    Ok(())
}

/// Reads a manifest, if it exists.
pub fn page_at<P: Place + Remembering>(
    alloc: Global,
    place: &mut P,
    path: &PathText,
) -> Result<Option<Page>, PlaceFault>
    ensures { LooksAgain (P.at place.old) (P.at place.new) }
{
    let own = path.copy(alloc)?;
    match recall_or_read(alloc, place, path)? {
        Some(bytes) => Ok(Some(Page::new(alloc, own, bytes)?)),
        None => Ok(None),
    }
}

/// Reads the manifest at a path, unless the manifest was already read.
fn read_at<P: Place + Remembering>(
    alloc: Global,
    place: &mut P,
    pages: &mut Pages,
    path: &PathText,
) -> Result<(), PlaceFault>
    ensures { LooksAgain (P.at place.old) (P.at place.new) }
{
    if pages.at(path.as_str()).is_some() {
        return Ok(());
    }
    match page_at(alloc, place, path)? {
        Some(page) => {
            take_in(alloc, pages, page)?;
            Ok(())
        }
        None => Ok(()),
    }
}

/// Returns the path of the ask with this number, if there is such an ask.
fn path_of(alloc: Global, pages: &Pages, number: usize) -> Result<Option<PathText>, AllocError> {
    match pages.asks.get(number) {
        Some(ask) => Ok(Some(ask.path.copy(alloc)?)),
        None => Ok(None),
    }
}

/// Reads the requested manifests, one after another. If such a manifest requests other manifests,
/// these are read, too.
fn read_all<P: Place + Remembering>(
    alloc: Global,
    place: &mut P,
    pages: &mut Pages,
) -> Result<(), PlaceFault>
    ensures { LooksAgain (P.at place.old) (P.at place.new) }
{
    for number in 0..MOST_ASKS {
        if pages.pages.len() >= MOST_PAGES {
            break;
        }
        match path_of(alloc, pages, number)? {
            Some(path) => read_at(alloc, place, pages, &path)?,
            None => break,
        }
    }
    Ok(())
}

/// Adds an ask of the root for the manifest in each of these folders of members.
fn push_members(
    alloc: Global,
    pages: &mut Pages,
    root: &PathText,
    folders: Vec<PathText>,
) -> Result<(), AllocError> {
    for folder in folders {
        if let Ok(path) = folder.join(alloc, "Cargo.toml") {
            if pages.asks.len() < MOST_ASKS && !is_asked(pages.asks.as_slice(), root, &path) {
                let ask = Ask::member(alloc, root, path)?;
                pages.asks.push(ask)?;
            }
        }
    }
    Ok(())
}

/// Reads the root, and asks for its members.
fn read_root<P: Place + Remembering>(
    alloc: Global,
    place: &mut P,
    pages: &mut Pages,
    root: &PathText,
) -> Result<(), PlaceFault>
    ensures { LooksAgain (P.at place.old) (P.at place.new) }
{
    pages.asks.push(root_ask(alloc, root)?)?;
    let Some(page) = page_at(alloc, place, root)? else {
        return Ok(());
    };
    let folders = member_folders(alloc, place, &page)?;
    push_members(alloc, pages, root, folders)?;
    take_in(alloc, pages, page)?;
    Ok(())
}

/// Reads the manifests of a workspace again, as far as they exist. If a call fails or memory runs
/// out, returns the manifests that were read until then.
pub fn pages_of<P: Place + Remembering>(alloc: Global, place: &mut P, root: &PathText) -> Pages
    ensures { LooksAgain (P.at place.old) (P.at place.new) }
{
    let mut pages = Pages {
        pages: Vec::new(alloc),
        asks: Vec::new(alloc),
    };
    if read_root(alloc, place, &mut pages, root).is_ok() {
        let _ = read_all(alloc, place, &mut pages);
    }
    pages
}
