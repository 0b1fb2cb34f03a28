//! Notes on features and dependencies that a package does not have.

use pb_data::Text;
use pb_tool_notes_pages::{Ask, Notes, Page, Pages, near, tell_key};
use std::alloc::{AllocError, Global};
use toml::{Table, Value};

/// The greatest number of features of a package, or of an entry, that are examined.
const MOST_FEATURES: usize = 256;

/// Adds the keys of the table at a key of a manifest.
fn keys_at<'a>(keys: &mut Vec<&'a str>, page: &'a Page, table: &str) -> Result<(), AllocError> {
    if let Some(entries) = page.table_at(table) {
        for (key, _value) in entries {
            keys.push(key.as_str())?;
        }
    }
    Ok(())
}

/// Returns the keys of the dependencies of a package.
fn entries_of(alloc: Global, page: &Page) -> Result<Vec<&str>, AllocError> {
    let mut keys = Vec::new(alloc);
    keys_at(&mut keys, page, "dependencies")?;
    keys_at(&mut keys, page, "build-dependencies")?;
    Ok(keys)
}

/// Returns whether a value is an entry that is optional.
fn is_optional(value: &Value) -> bool {
    matches!(value.get("optional").and_then(Value::as_bool), Some(true))
}

/// Returns whether a package has an optional dependency.
fn has_optional(page: &Page, key: &str) -> bool {
    for table in ["dependencies", "build-dependencies"] {
        if let Some(entries) = page.table_at(table) {
            if let Some(value) = entries.get(key) {
                if is_optional(value) {
                    return true;
                }
            }
        }
    }
    false
}

/// Returns whether a package has a dependency.
fn has_entry(page: &Page, key: &str) -> bool {
    for table in ["dependencies", "build-dependencies"] {
        if let Some(entries) = page.table_at(table) {
            if entries.get(key).is_some() {
                return true;
            }
        }
    }
    false
}

/// Returns whether a package has a feature: a written one, or an optional dependency.
fn has_feature(page: &Page, name: &str) -> bool {
    let is_written = match page.table_at("features") {
        Some(features) => features.get(name).is_some(),
        None => false,
    };
    is_written || has_optional(page, name)
}

/// Returns the names of the features of a package: the written ones, and its optional dependencies.
fn features_of(alloc: Global, page: &Page) -> Result<Vec<&str>, AllocError> {
    let mut names = Vec::new(alloc);
    keys_at(&mut names, page, "features")?;
    for key in entries_of(alloc, page)?.as_slice() {
        if has_optional(page, *key) {
            names.push(*key)?;
        }
    }
    Ok(names)
}

/// Returns ` (near: KEY)` for a dependency of a package. If the notes are full, returns an empty
/// text.
fn near_entry(alloc: Global, notes: &Notes, page: &Page, key: &str) -> Result<String, AllocError> {
    if notes.is_full() {
        return Ok(String::new(alloc));
    }
    let keys = entries_of(alloc, page)?;
    near(alloc, key, keys.as_slice())
}

/// Returns ` (near: NAME)` for a feature of a package. If the notes are full, returns an empty
/// text.
fn near_feature(
    alloc: Global,
    notes: &Notes,
    page: &Page,
    name: &str,
) -> Result<String, AllocError> {
    if notes.is_full() {
        return Ok(String::new(alloc));
    }
    let names = features_of(alloc, page)?;
    near(alloc, name, names.as_slice())
}

/// Returns the manifest that an entry of another manifest names.
fn page_of_entry<'a>(pages: &'a Pages, page: &Page, key: &str) -> Option<&'a Page> {
    let ask = pages.asks.iter().find(|ask| ask.by.as_str() == page.path.as_str()
        && ask.key.as_str() == key);
    match ask {
        Some(ask) => pages.at(ask.path.as_str()),
        None => None,
    }
}

/// Returns `NAME has no feature F (near: ..)`, if the package lacks the feature, else an empty
/// text.
fn lacks(alloc: Global, notes: &Notes, page: &Page, feature: &str) -> Result<String, AllocError> {
    if has_feature(page, feature) || feature == "default" {
        return Ok(String::new(alloc));
    }
    let near = near_feature(alloc, notes, page, feature)?;
    format!(in alloc;
        "{} has no feature {feature}{}",
        page.package_text("name"),
        near.as_str()
    )
}

/// Adds what is wrong with an item `N/F` or `N?/F`.
fn tell_item_of(
    alloc: Global,
    notes: &mut Notes,
    pages: &Pages,
    page: &Page,
    name: &str,
    item: (&str, &str),
) -> Result<(), AllocError> {
    let (entry, feature) = item;
    let key = entry.strip_suffix('?').unwrap_or(entry);
    if !has_entry(page, key) {
        let near = near_entry(alloc, notes, page, key)?;
        let text = format!(in alloc; "{entry}/{feature} names no dependency{}", near.as_str())?;
        return tell_key(alloc, notes, page, "features", name, text.as_str());
    }
    if key != entry && !has_optional(page, key) {
        let text = format!(in alloc; "{entry}/{feature} names a dependency that is not optional")?;
        return tell_key(alloc, notes, page, "features", name, text.as_str());
    }
    if let Some(other) = page_of_entry(pages, page, key) {
        let lacks = lacks(alloc, notes, other, feature)?;
        if !lacks.is_empty() {
            return tell_key(alloc, notes, page, "features", name, lacks.as_str());
        }
    }
    Ok(())
}

/// Adds what is wrong with an item `dep:N`.
fn tell_dependency_item(
    alloc: Global,
    notes: &mut Notes,
    page: &Page,
    name: &str,
    key: &str,
) -> Result<(), AllocError> {
    if !has_entry(page, key) {
        let near = near_entry(alloc, notes, page, key)?;
        let text = format!(in alloc; "dep:{key} names no dependency{}", near.as_str())?;
        return tell_key(alloc, notes, page, "features", name, text.as_str());
    }
    if !has_optional(page, key) {
        let text = format!(in alloc; "dep:{key} names a dependency that is not optional")?;
        return tell_key(alloc, notes, page, "features", name, text.as_str());
    }
    Ok(())
}

/// Adds what is wrong with an item of a feature.
fn tell_item(
    alloc: Global,
    notes: &mut Notes,
    pages: &Pages,
    page: &Page,
    name: &str,
    item: &str,
) -> Result<(), AllocError> {
    if let Some(parts) = item.split_once('/') {
        return tell_item_of(alloc, notes, pages, page, name, parts);
    }
    if let Some(key) = item.strip_prefix("dep:") {
        return tell_dependency_item(alloc, notes, page, name, key);
    }
    if has_feature(page, item) {
        return Ok(());
    }
    let near = near_feature(alloc, notes, page, item)?;
    let text = format!(in alloc;
        "{item} is neither a feature nor an optional dependency{}",
        near.as_str()
    )?;
    tell_key(alloc, notes, page, "features", name, text.as_str())
}

/// Adds what is wrong with the items of the features of a package.
fn tell_items(
    alloc: Global,
    notes: &mut Notes,
    pages: &Pages,
    page: &Page,
    features: &Table,
) -> Result<(), AllocError> {
    for (name, value) in features {
        if let Some(items) = value.as_array() {
            for item in items.iter().take(MOST_FEATURES) {
                if let Some(item) = item.as_str() {
                    tell_item(alloc, notes, pages, page, name.as_str(), item)?;
                }
            }
        }
    }
    Ok(())
}

/// Adds a note on each item of a feature, if the item names something missing.
pub fn tell_all_items(alloc: Global, notes: &mut Notes, pages: &Pages) -> Result<(), AllocError> {
    for page in pages.pages.as_slice() {
        if let Some(features) = page.table_at("features") {
            if features.len() <= MOST_FEATURES {
                tell_items(alloc, notes, pages, page, features)?;
            }
        }
    }
    Ok(())
}

/// Returns the value of the entry of an ask.
fn entry_of<'a>(page: &'a Page, ask: &Ask) -> Option<&'a Value> {
    match page.table_at(ask.table.as_str()) {
        Some(entries) => entries.get(ask.key.as_str()),
        None => None,
    }
}

/// Adds a note on each feature that an entry names but the entry's package does not have.
fn tell_entry(
    alloc: Global,
    notes: &mut Notes,
    page: &Page,
    to: &Page,
    ask: &Ask,
) -> Result<(), AllocError> {
    let features = entry_of(page, ask)
        .and_then(|entry| entry.get("features"))
        .and_then(Value::as_array);
    let Some(features) = features else {
        return Ok(());
    };
    for feature in features.iter().take(MOST_FEATURES) {
        if let Some(feature) = feature.as_str() {
            let lacks = lacks(alloc, notes, to, feature)?;
            if !lacks.is_empty() {
                tell_key(
                    alloc,
                    notes,
                    page,
                    ask.table.as_str(),
                    ask.key.as_str(),
                    lacks.as_str(),
                )?;
            }
        }
    }
    Ok(())
}

/// Adds a note on each feature that any entry names but the entry's package does not have.
pub fn tell_entries(alloc: Global, notes: &mut Notes, pages: &Pages) -> Result<(), AllocError> {
    for ask in pages.asks.as_slice() {
        if let (Some(page), Some(to)) = (pages.at(ask.by.as_str()), pages.at(ask.path.as_str())) {
            if !ask.key.as_str().is_empty() {
                tell_entry(alloc, notes, page, to, ask)?;
            }
        }
    }
    Ok(())
}

/// Returns the names of the features of all packages.
fn all_features(alloc: Global, pages: &Pages) -> Result<Vec<&str>, AllocError> {
    let mut names = Vec::new(alloc);
    for page in pages.pages.as_slice() {
        for name in features_of(alloc, page)?.as_slice() {
            names.push(*name)?;
        }
    }
    Ok(names)
}

/// Adds a note that says which package has a requested feature, or that no package has the feature.
fn tell_asked(
    alloc: Global,
    notes: &mut Notes,
    pages: &Pages,
    feature: &str,
) -> Result<(), AllocError> {
    for page in pages.pages.as_slice() {
        if has_feature(page, feature) {
            let text = format!(in alloc;
                "--features {feature}: the package {} has it; is that package selected?",
                page.package_text("name")
            )?;
            return notes.say(alloc, text.as_str());
        }
    }
    let names = all_features(alloc, pages)?;
    let near = near(alloc, feature, names.as_slice())?;
    let text = format!(in alloc; "--features {feature}: no package has it{}", near.as_str())?;
    notes.say(alloc, text.as_str())
}

/// Adds a note that says what is wrong with a requested feature of one package.
fn tell_asked_of(
    alloc: Global,
    notes: &mut Notes,
    pages: &Pages,
    name: &str,
    feature: &str,
) -> Result<(), AllocError> {
    match pages.page_of(name) {
        Some(page) => {
            let lacks = lacks(alloc, notes, page, feature)?;
            let text = if lacks.is_empty() {
                format!(in alloc;
                    "--features {name}/{feature}: the package {name} has it; is that package selected?"
                )?
            } else {
                format!(in alloc; "--features {name}/{feature}: {}", lacks.as_str())?
            };
            notes.say(alloc, text.as_str())
        }
        None => {
            let text = format!(in alloc;
                "--features {name}/{feature}: there is no package {name}"
            )?;
            notes.say(alloc, text.as_str())
        }
    }
}

/// Adds what is known about each requested feature.
pub fn tell_requested(
    alloc: Global,
    notes: &mut Notes,
    pages: &Pages,
    requested: &[Text],
) -> Result<(), AllocError> {
    for words in requested {
        for word in words
            .as_str()
            .split(|letter| letter == ' ' || letter == ',')
        {
            if !word.is_empty() {
                match word.split_once('/') {
                    Some((name, feature)) => tell_asked_of(alloc, notes, pages, name, feature)?,
                    None => tell_asked(alloc, notes, pages, word)?,
                }
            }
        }
    }
    Ok(())
}
