//! Files in a sorted map, which contracts see as a finite map.

ghost use Rattle.std.specs.Prelude.{◌≡◌, ◌==◌, ◌+◌, ℕ, List, Bool, true, not, length, drop, map as each, Some, None, is_some, ◌++◌, ◌∷◌, if◌then◌else◌, IfOk, OnOk, OnErr, string_bytes};
ghost use Rattle.std.specs.List.{list_all, list_any, filter};
ghost use Rattle.std.specs.Ordering.{nat_cmp};
ghost use Rattle.std.specs.Cmp.Lexicographic.{slice_cmp};
ghost use Rattle.std.specs.declared.cmp.Ordering.TheVariants.{Less};
ghost use Rattle.std.specs.declared.ops.Bound.TheVariants.{Excluded};
ghost use Rattle.std.specs.Map.{keys_of};
ghost use Rattle.std.specs.BTreeMap.{IsOrdered};
ghost use Rattle.std.specs.BTreeMap.Range.{entries_between};
ghost use Rattle.std.specs.FinMap as map;
ghost use Rattle.std.specs.Option.{option_copied};
ghost use Rattle.pb_place_types.specs.Paths.{is_path, stem, is_below, is_at_or_below};
ghost use Rattle.pb_place_types.specs.World.{is_directly_in, is_same_path, first_folder, folder_towards, is_last, with_new, folders_among, AgreeBut, PartlyRemovedAt};
ghost use Rattle.pb_place_types.specs.Copies.{put_one, put_from, PutsSome, half_removed};
ghost use Rattle.pb_place_types.specs.Maps.{files_of};

use crate::path::{PathText, is_at_or_below, parts_of, stem};
use crate::relative::RelativePath;
use pb_data::{Bytes, Items, Text, TryCopy};
use std::alloc::{AllocError, Global};
use std::collections::BTreeMap;
use std::marker::Model;
use std::ops::Bound;

/// Files by their paths, in byte order.
///
/// A look-up takes time logarithmic in the number of files. A listing or a removal takes that time
/// for each file that it returns or removes.
#[derive(Drop)]
pub struct FileMap {
    inside: BTreeMap<Text, Bytes>,
}

impl Model for FileMap {
    ghost use Rattle.std.specs.Prelude.{◌≡◌, true};
    ghost use Rattle.std.specs.List.{list_all};
    ghost use Rattle.std.specs.FinMap as map;
    ghost use Rattle.pb_place_types.specs.World.{Map};
    ghost use Rattle.pb_place_types.specs.Maps.{map_code};
    ghost use Rattle.pb_place_types.specs.Paths.{is_path};

    ghost Value = { Map };

    ghost coded = { map_code };

    ghost view = { λ f. map.from_entries f.inside.entries };

    ghost invariant = { λ f. list_all (λ e. is_path e.0) f.inside.entries ≡ true };
}

impl FileMap {
    /// Returns a map without files. The call takes no memory.
    pub fn new(alloc: Global) -> FileMap
        ensures { result ≡ map.empty }
    {
        FileMap {
            inside: BTreeMap::new(alloc),
        }
    }

    /// Returns the bytes of a file, if the map has this file.
    #[tactic(auto, using(crate::proofs::MapLemmas::map_laws))]
    pub fn get(&self, path: &PathText) -> Option<&Bytes>
        ensures { option_copied result ≡ map.get self.now path.now }
    {
        self.inside.get(path.as_text())
    }

    /// Puts a file into the map.
    ///
    /// Errors: out of memory only. Nothing changes then.
    #[tactic(auto, using(crate::proofs::MapLemmas::insert_laws))]
    pub fn insert(&mut self, alloc: Global, path: &PathText, bytes: &[u8]) -> Result<(), AllocError>
        ensures ok { OnOk result (self.new ≡ map.insert self.old path.now bytes.now) }
        ensures err { OnErr result (self.new ≡ self.old) }
    {
        let key = Text::from_str(alloc, path.as_str())?;
        let value = Bytes::from_slice(alloc, bytes)?;
        let _old = self.inside.insert(key, value)?;
        Ok(())
    }

    /// Returns the paths of the files below a folder, in byte order.
    ///
    /// Errors: out of memory only.
    pub fn list(&self, alloc: Global, folder: &PathText) -> Result<Items<PathText>, AllocError>
        ensures { IfOk result
            (λ paths. paths ≡ map.keys (map.retain_keys self.now (is_below folder.now))) }
    {
        let names = names_below(alloc, &self.inside, folder.as_str())?;
        Ok(paths_of(alloc, names)?)
    }

    /// Returns the paths of the files below a folder, in byte order. Files at or below the path
    /// `left_out` are not listed.
    ///
    /// Errors: out of memory only.
    pub fn list_outside(
        &self,
        alloc: Global,
        folder: &PathText,
        left_out: &PathText,
    ) -> Result<Items<PathText>, AllocError>
        ensures { IfOk result
            (λ paths.
            paths
            ≡ map.keys
            (map.retain_keys
            (map.retain_keys self.now
            (λ q. not (is_at_or_below left_out.now q)))
            (is_below folder.now))) }
    {
        let names = names_below(alloc, &self.inside, folder.as_str())?;
        let names = names_outside(alloc, names, left_out)?;
        Ok(paths_of(alloc, names)?)
    }

    /// Returns the paths of the files directly in a folder, in byte order.
    ///
    /// Errors: out of memory only.
    pub fn list_directly(
        &self,
        alloc: Global,
        folder: &PathText,
    ) -> Result<Items<PathText>, AllocError>
        ensures { IfOk result
            (λ paths. paths ≡ map.keys (map.retain_keys self.now (is_directly_in folder.now))) }
    {
        let names = names_below(alloc, &self.inside, folder.as_str())?;
        let names = names_without_slash(alloc, names, folder)?;
        Ok(paths_of(alloc, names)?)
    }

    /// Does nothing; its contract states that each file has a normalised absolute path. The call
    /// takes no memory.
    pub fn have_paths(&self)
        ensures { (path bytes : List ℕ) → map.get self.now path ≡ Some bytes
            → is_path path ≡ true }
    {
        let _inside = &self.inside;
    }

    /// Returns whether a file is at a path. The call takes no memory.
    pub fn has(&self, path: &PathText) -> bool
        ensures { result ≡ is_some (map.get self.now path.now) }
    {
        self.get(path).is_some()
    }

    /// Returns those folders directly in `folder` that have a file below them. The folders are in
    /// the order of these files, without repeats. Files at or below the path `left_out` are
    /// ignored.
    ///
    /// Errors: out of memory only.
    pub fn list_folders(
        &self,
        alloc: Global,
        folder: &PathText,
        left_out: &PathText,
    ) -> Result<Items<PathText>, AllocError>
        ensures { IfOk result (λ folders. folders ≡ folders_among folder.now
            (map.keys (map.retain_keys
            (map.retain_keys self.now (λ q. not (is_at_or_below left_out.now q)))
            (is_below folder.now)))) }
    {
        let paths = self.list_outside(alloc, folder, left_out)?;
        folders_among(alloc, folder, paths.as_slice())
    }

    /// Removes the file at a path and the files below it.
    ///
    /// Errors: out of memory only. Nothing changes then.
    pub fn remove(&mut self, alloc: Global, path: &PathText) -> Result<(), AllocError>
        ensures ok { OnOk result
            (self.new ≡ map.retain_keys self.old (λ q. not (is_at_or_below path.now q))) }
        ensures err { OnErr result (self.new ≡ self.old) }
    {
        let names = names_below(alloc, &self.inside, path.as_str())?;
        remove_names(&mut self.inside, names.as_slice());
        self.inside.remove(path.as_text());
        Ok(())
    }
}

impl FileMap {
    /// Removes the files strictly below a folder.
    ///
    /// Errors: out of memory only. Nothing changes then.
    pub fn remove_below(&mut self, alloc: Global, folder: &PathText) -> Result<(), AllocError>
        ensures ok { OnOk result
            (self.new ≡ map.retain_keys self.old (λ q. not (is_below folder.now q))) }
        ensures err { OnErr result (self.new ≡ self.old) }
    {
        let names = names_below(alloc, &self.inside, folder.as_str())?;
        remove_names(&mut self.inside, names.as_slice());
        Ok(())
    }

    /// Removes the first half of the files at or below a path, in byte order. If the number of
    /// these files is odd, the half is rounded down.
    ///
    /// Errors: out of memory only. Nothing changes then.
    pub fn remove_half(&mut self, alloc: Global, path: &PathText) -> Result<(), AllocError>
        ensures ok { OnOk result (self.new ≡ half_removed path.now self.old) }
        ensures partly { OnOk result (PartlyRemovedAt path.now self.old self.new) }
        ensures err { OnErr result (self.new ≡ self.old) }
    {
        let names = names_at_or_below(alloc, &self.inside, path)?;
        let names = names.as_slice();
        remove_names(&mut self.inside, &names[..names.len() / 2]);
        Ok(())
    }

    /// Copies the file at a path from another map, if that map has such a file.
    ///
    /// Errors: out of memory only. Nothing changes then.
    fn take_over(
        &mut self,
        alloc: Global,
        from: &FileMap,
        path: &PathText,
    ) -> Result<(), AllocError>
        ensures ok { OnOk result
            (self.new ≡ put_one path.now (map.get from.now path.now) self.old) }
        ensures err { OnErr result (self.new ≡ self.old) }
    {
        match from.get(path) {
            Some(bytes) => self.insert(alloc, path, bytes.as_slice()),
            None => Ok(()),
        }
    }

    /// Copies the files at these paths from another map, one after another.
    ///
    /// Errors: out of memory only. After an error, the files at the first n of these paths have
    /// been copied, for some n.
    pub fn put_from(
        &mut self,
        alloc: Global,
        from: &FileMap,
        paths: &[PathText],
    ) -> Result<(), AllocError>
        ensures ok { OnOk result (self.new ≡ put_from from.now paths.now self.old) }
        ensures some { OnErr result (PutsSome from.now paths.now self.old self.new) }
        ensures only { (may : List ℕ → Bool) → AgreeBut may map.empty from.now
            → AgreeBut may self.old self.new }
    {
        for path in paths {
            self.take_over(alloc, from, path)?;
        }
        Ok(())
    }
}

/// Returns a folder's stem with an end appended.
fn stem_with(alloc: Global, folder: &str, end: &str) -> Result<Text, AllocError>
    ensures { IfOk result (λ text. text ≡ stem folder.now ++ end.now) }
{
    let mut text = String::from_str(alloc, stem(folder))?;
    text.push_str(end)?;
    Ok(Text::new(text))
}

/// Returns the keys of a map that are between two texts, in byte order.
fn names_between(
    alloc: Global,
    files: &BTreeMap<Text, Bytes>,
    low: &Text,
    high: &Text,
) -> Result<Vec<Text>, AllocError>
    requires { slice_cmp nat_cmp low.now high.now ≡ Less }
    ensures between { IfOk result
        (λ names.
        names.items
        ≡ keys_of
        (entries_between (slice_cmp nat_cmp) (Excluded low.now)
        (Excluded high.now) files.now.entries)) }
    ensures ordered { OnOk result (IsOrdered (slice_cmp nat_cmp) files.now) }
{
    let mut names = Vec::new(alloc);
    for (name, _) in files.range((Bound::Excluded(low), Bound::Excluded(high))) {
        names.push(name.copy(alloc)?)?;
    }
    Ok(names)
}

/// Returns the keys below a folder, in byte order. In this order, these keys are between the
/// folder's stem with a slash and its stem with a `0`, since `0` is the next character after the
/// slash.
fn names_below(
    alloc: Global,
    files: &BTreeMap<Text, Bytes>,
    folder: &str,
) -> Result<Vec<Text>, AllocError>
    ensures part { IfOk result
        (λ names.
        names.items ≡ keys_of (filter (λ e. is_below folder.now e.0) files.now.entries)) }
    ensures keys { IfOk result
        (λ names.
        names.items
        ≡ map.keys (map.retain_keys (files_of files.now) (is_below folder.now))) }
    ensures ordered { OnOk result (IsOrdered (slice_cmp nat_cmp) files.now) }
{
    let low = stem_with(alloc, folder, "/")?;
    let high = stem_with(alloc, folder, "0")?;
    let names = names_between(alloc, files, &low, &high)?;
    Ok(names)
}

/// Returns the keys at or below a path, in byte order.
fn names_at_or_below(
    alloc: Global,
    files: &BTreeMap<Text, Bytes>,
    path: &PathText,
) -> Result<Vec<Text>, AllocError>
    ensures part { IfOk result
        (λ names.
        names.items
        ≡ keys_of (filter (λ e. is_at_or_below path.now e.0) files.now.entries)) }
    ensures ordered { OnOk result (IsOrdered (slice_cmp nat_cmp) files.now) }
{
    let mut names = Vec::new(alloc);
    for (name, _) in files {
        if is_at_or_below(path.as_str(), name.as_str()) {
            names.push(name.copy(alloc)?)?;
        }
    }
    Ok(names)
}

/// Returns those of these texts that are neither equal to `left_out` nor below it.
fn names_outside(
    alloc: Global,
    names: Vec<Text>,
    left_out: &PathText,
) -> Result<Vec<Text>, AllocError>
    ensures { IfOk result
        (λ kept. kept.items ≡ filter (λ q. not (is_at_or_below left_out.now q)) names.items) }
{
    let mut kept = Vec::new(alloc);
    for name in names {
        if !is_at_or_below(left_out.as_str(), name.as_str()) {
            kept.push(name)?;
        }
    }
    Ok(kept)
}

/// Returns the rest of a path after a folder and a slash, or nothing if the path is too short.
fn rest_in<'a>(folder: &str, path: &'a str) -> &'a [u8]
    ensures { result.now ≡ drop (length (stem folder.now) + 1) path.now }
{
    let start = stem(folder).len() + 1;
    match path.as_bytes().get(start..) {
        Some(rest) => rest,
        None => &[],
    }
}

/// Returns whether a name contains a slash.
fn has_slash(name: &[u8]) -> bool
    ensures { result ≡ list_any (λ b. b == 47) name.now }
{
    name.iter().any(|byte| *byte == b'/')
}

/// Returns those of these texts that consist of a folder, a slash and one name.
fn names_without_slash(
    alloc: Global,
    names: Vec<Text>,
    folder: &PathText,
) -> Result<Vec<Text>, AllocError>
    ensures { IfOk result
        (λ kept.
        kept.items
        ≡ filter
        (λ q.
        not
        (list_any (λ b. b == 47)
        (drop (length (stem folder.now) + 1) q)))
        names.items) }
{
    let mut kept = Vec::new(alloc);
    for name in names {
        let rest = rest_in(folder.as_str(), name.as_str());
        if !has_slash(rest) {
            kept.push(name)?;
        }
    }
    Ok(kept)
}

/// Returns these texts as paths.
///
/// Requires: each text is a path.
fn paths_of(alloc: Global, names: Vec<Text>) -> Result<Items<PathText>, AllocError>
    requires { list_all is_path names.items ≡ true }
    ensures { IfOk result (λ paths. paths ≡ names.items) }
{
    let mut paths = Items::new(alloc);
    for name in names {
        paths.push(PathText::of_text(name))?;
    }
    Ok(paths)
}

/// Returns the first part of a path, if the path has two or more parts.
fn first_folder<'a>(parts: &[&'a str]) -> Option<&'a str>
    ensures { option_copied result ≡ first_folder (each (λ part. part.now) parts.now) }
{
    match parts {
        [first, _, ..] => Some(*first),
        _ => None,
    }
}

/// Returns the folder that is directly in a given folder and contains a path, if there is such a
/// folder.
fn folder_towards(
    alloc: Global,
    folder: &PathText,
    path: &PathText,
) -> Result<Option<PathText>, AllocError>
    ensures { IfOk result (λ found. found ≡ folder_towards folder.now path.now) }
{
    let rest = match path.inside(alloc, folder)? {
        Some(rest) => rest,
        None => return Ok(None),
    };
    let parts = parts_of(alloc, rest.as_str())?;
    match first_folder(parts.as_slice()) {
        Some(name) => {
            let name = RelativePath::name(alloc, name)?;
            Ok(Some(folder.below(alloc, &name)?))
        }
        None => Ok(None),
    }
}

/// Returns whether a path is the last of these paths.
fn is_last(path: &PathText, paths: &[PathText]) -> bool
    ensures { result ≡ is_last path.now paths.now }
{
    match paths.last() {
        Some(last) => *path == *last,
        None => false,
    }
}

/// Appends a folder to a list, if there is a folder and the list does not already end with it.
fn put_new(folders: &mut Items<PathText>, folder: Option<PathText>) -> Result<(), AllocError>
    ensures { OnOk result (folders.new ≡ with_new folders.old folder) }
{
    if let Some(folder) = folder {
        if !is_last(&folder, folders.as_slice()) {
            folders.push(folder)?;
        }
    }
    Ok(())
}

/// Returns those folders directly in `folder` that contain some of these paths. The folders are in
/// the order of the paths, and no folder is repeated in a row.
fn folders_among(
    alloc: Global,
    folder: &PathText,
    paths: &[PathText],
) -> Result<Items<PathText>, AllocError>
    ensures { IfOk result (λ folders. folders ≡ folders_among folder.now paths.now) }
{
    let mut folders = Items::new(alloc);
    for path in paths {
        let towards = folder_towards(alloc, folder, path)?;
        put_new(&mut folders, towards)?;
    }
    Ok(folders)
}

/// Removes the files at these keys.
fn remove_names(files: &mut BTreeMap<Text, Bytes>, names: &[Text])
    ensures gone { (q : List ℕ)
        → map.get (files_of files.new) q
        ≡ (if list_any (is_same_path q) names.now then None else map.get (files_of files.old) q) }
    ensures keys { (p : List ℕ → Bool) → list_all (λ e. p e.0) files.old.entries ≡ true
        → list_all (λ e. p e.0) files.new.entries ≡ true }
{
    for name in names {
        files.remove(name);
    }
}
