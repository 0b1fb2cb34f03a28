//! A note on packages that depend on one another: one cycle, in order.

use pb_data::Text;
use pb_tool_notes_pages::{Notes, Pages, Role};
use std::alloc::{AllocError, Global};

/// The greatest number of packages of a cycle that are visited.
const MOST_STEPS: usize = 64;

/// A step of a path through packages.
#[derive(Clone, Copy)]
struct Step<'a> {
    /// The package's name.
    name: &'a str,
    /// The path of its manifest.
    path: &'a str,
    /// The number of the step before this step.
    before: usize,
}

/// Returns whether one of the steps has this name. The first step does not count.
fn is_reached(steps: &[Step], name: &str) -> bool {
    match steps.split_first() {
        Some((_, rest)) => rest.iter().any(|step| step.name == name),
        None => false,
    }
}

/// Returns whether a name is among some texts.
fn is_among(names: &[Text], name: &str) -> bool {
    names.iter().any(|one| one.as_str() == name)
}

/// Adds each package of a cycle that an entry of a manifest names, unless the package was reached
/// before.
fn push_next<'a>(
    pages: &'a Pages,
    names: &[Text],
    steps: &mut Vec<Step<'a>>,
    from: &str,
    before: usize,
) -> Result<(), AllocError> {
    for ask in pages.asks.as_slice() {
        if ask.role == Role::Entry && ask.by.as_str() == from {
            if let Some(page) = pages.at(ask.path.as_str()) {
                let name = page.package_text("name");
                if is_among(names, name) && !is_reached(steps.as_slice(), name) {
                    let path = page.path.as_str();
                    steps.push(Step { name, path, before })?;
                }
            }
        }
    }
    Ok(())
}

/// Returns the names on the path to the last step, in reverse order.
fn way_back<'a>(
    alloc: Global,
    steps: &[Step<'a>],
    last: usize,
) -> Result<Vec<&'a str>, AllocError> {
    let mut names = Vec::new(alloc);
    let mut place = last;
    for _step in steps {
        match steps.get(place) {
            Some(step) => {
                names.push(step.name)?;
                if place == 0 {
                    break;
                }
                place = step.before;
            }
            None => break,
        }
    }
    Ok(names)
}

/// Adds a note with a path. `names` has the names on the path, from its end to its beginning.
fn tell_way(alloc: Global, notes: &mut Notes, names: &[&str]) -> Result<(), AllocError> {
    let mut text = String::new(alloc);
    for name in names.iter().rev() {
        if !text.is_empty() {
            text.push_str(" -> ")?;
        }
        text.push_str(*name)?;
    }
    notes.say(alloc, text.as_str())
}

/// Returns the number of the first step with this name. Step 0 does not count.
fn step_of(steps: &[Step], name: &str) -> Option<usize> {
    for (number, step) in steps.iter().enumerate() {
        if number > 0 && step.name == name {
            return Some(number);
        }
    }
    None
}

/// Adds a note with a shortest cycle through the first of some packages that depend on one another.
pub fn tell_circle(
    alloc: Global,
    notes: &mut Notes,
    pages: &Pages,
    names: &[Text],
) -> Result<(), AllocError> {
    let first = match names.first() {
        Some(first) => first.as_str(),
        None => return Ok(()),
    };
    let Some(page) = pages.page_of(first) else {
        return Ok(());
    };
    let mut steps = Vec::new(alloc);
    steps.push(Step {
        name: first,
        path: page.path.as_str(),
        before: 0,
    })?;
    for number in 0..MOST_STEPS {
        let from = match steps.get(number) {
            Some(step) => step.path,
            None => break,
        };
        push_next(pages, names, &mut steps, from, number)?;
        if let Some(last) = step_of(steps.as_slice(), first) {
            let way = way_back(alloc, steps.as_slice(), last)?;
            return tell_way(alloc, notes, way.as_slice());
        }
    }
    Ok(())
}
