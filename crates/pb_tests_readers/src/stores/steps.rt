//! Steps in words: files and variables that change, calls of the store, and what they report.

ghost use Rattle.std.specs.Prelude.{◌≡◌, true, Some};
ghost use Rattle.pb_record.specs.Sorted.{are_sorted};
ghost use Rattle.pb_store_soundness.specs.Records.{out_of};

use crate::stores::units::{command_with, end_of_child, input_names, needs, own_command, own_key};
use crate::stores::world::{prepare, put_file, put_first, replace_once, take_away, text_at};
use pb_data::{Items, with_next};
use pb_mini::Mini;
use pb_place::Memory;
use pb_place_types::{Command, Ended, PathText};
use pb_record::InputName;
use pb_store::{Compared, Difference, Key, OpenFault, Replayed, Store, StoreFault};
use pb_tests_files::{Shown, Untold};
use std::alloc::Global;
use std::mem;
use std::test::Fail;

/// Returns the store of the profile folder of a place.
fn open_store(alloc: Global, place: &mut Untold<Mini>) -> Result<Store, Fail> {
    let folder = PathText::parse(alloc, "/t/debug")?;
    Ok(Store::open(alloc, place, folder)?)
}

/// Prepares a place, and opens the store of its profile folder.
pub fn begin(alloc: Global, place: &mut Untold<Mini>) -> Result<Store, Fail> {
    prepare(alloc, &mut place.inside)?;
    open_store(alloc, place)
}

/// Puts what the opening of the store reported: the next number, if a number is left.
fn put_opened(out: &mut Shown, answer: &Result<Store, OpenFault>) {
    match answer {
        Ok(store) => match store.next {
            Some(number) => {
                out.put(&["next "]);
                out.put_number(number);
            }
            None => out.put(&["spent"]),
        },
        Err(fault) => out.put_words(fault),
    }
}

/// Opens the store, and puts what the opening reports.
fn tell_open(alloc: Global, place: &mut Untold<Mini>, out: &mut Shown) -> Result<(), Fail> {
    let folder = PathText::parse(alloc, "/t/debug")?;
    let answer = Store::open(alloc, place, folder);
    put_opened(out, &answer);
    drop(answer);
    Ok(())
}

/// Puts how a child ended, in words: the streams and the status.
fn put_ended(out: &mut Shown, ended: &Ended) {
    let stdout = str::from_utf8(ended.stdout.as_slice()).unwrap_or("wrong");
    let stderr = str::from_utf8(ended.stderr.as_slice()).unwrap_or("wrong");
    out.put(&[stdout, " ", stderr, " "]);
    out.put_words(&ended.status);
}

/// Puts the recorded answer, in words, and whether the record has a number.
fn put_replayed(out: &mut Shown, again: &Replayed) {
    put_ended(out, &again.ended);
    out.put(&[if again.numbered {
        " numbered"
    } else {
        " without number"
    }]);
}

/// Puts what differs, or the recorded answer if nothing does.
fn put_compared(out: &mut Shown, answer: &Result<Compared, StoreFault>) {
    match answer {
        Ok(Compared::Differs(difference)) => out.put_words(difference),
        Ok(Compared::Same(again)) => put_replayed(out, again),
        Err(fault) => out.put_words(fault),
    }
}

/// Puts what differs, or that nothing does.
fn put_difference(out: &mut Shown, answer: &Result<Option<Difference>, StoreFault>) {
    match answer {
        Ok(Some(difference)) => out.put_words(difference),
        Ok(None) => out.put(&["same"]),
        Err(fault) => out.put_words(fault),
    }
}

/// Puts what differs of the unit for its command with something in it replaced.
pub fn tell_difference(
    alloc: Global,
    place: &mut Untold<Mini>,
    store: &Store,
    change: (&str, &str),
    out: &mut Shown,
) -> Result<(), Fail> {
    let key = own_key(alloc)?;
    let command = command_with(alloc, change.0, change.1)?;
    let answer = store.differs(alloc, place, &key, &command);
    drop(command);
    put_difference(out, &answer);
    drop(answer);
    Ok(())
}

/// Puts what differs of the unit, or its recorded answer, from one comparison.
fn tell_compared(
    alloc: Global,
    place: &mut Untold<Mini>,
    store: &Store,
    out: &mut Shown,
) -> Result<(), Fail> {
    let key = own_key(alloc)?;
    let command = command_with(alloc, "", "")?;
    let answer = store.compare(alloc, place, &key, &command);
    drop(command);
    put_compared(out, &answer);
    drop(answer);
    Ok(())
}

/// Puts the unit's recorded answer.
fn tell_replay(
    alloc: Global,
    place: &mut Untold<Mini>,
    store: &Store,
    out: &mut Shown,
) -> Result<(), Fail> {
    let key = own_key(alloc)?;
    let answer = store.replay(alloc, place, &key);
    match &answer {
        Ok(ended) => put_ended(out, ended),
        Err(fault) => out.put_words(fault),
    }
    drop(answer);
    Ok(())
}

/// Puts what an answer reports: this text if the answer is good.
fn put_done(out: &mut Shown, answer: &Result<(), StoreFault>, good: &str) {
    match answer {
        Ok(()) => out.put(&[good]),
        Err(fault) => out.put_words(fault),
    }
}

/// Puts what the dropping of a record reported.
fn put_dropped(out: &mut Shown, answer: &Result<u64, StoreFault>) {
    match answer {
        Ok(number) => {
            out.put(&["dropped "]);
            out.put_number(*number);
        }
        Err(fault) => out.put_words(fault),
    }
}

/// Drops the unit's record, and puts what this reports.
fn tell_drop(
    alloc: Global,
    place: &mut Untold<Mini>,
    store: &mut Store,
    out: &mut Shown,
) -> Result<(), Fail> {
    let key = own_key(alloc)?;
    let answer = store.drop_record(alloc, place, &key);
    drop(key);
    put_dropped(out, &answer);
    Ok(())
}

/// Keeps the record of a command, and puts what this reports.
fn tell_kept(
    alloc: Global,
    place: &mut Untold<Mini>,
    store: &mut Store,
    number: u64,
    key: &Key,
    command: &Command,
    out: &mut Shown,
) -> Result<(), Fail>
    requires out { command.now.out ≡ Some (out_of store.old.folder key.now) }
    requires sorted { are_sorted command.now.pairs ≡ true }
{
    let needs = needs(alloc)?;
    let names: Items<InputName> = input_names(alloc)?;
    let (names, ended) = with_next(names, end_of_child(alloc))?;
    let answer = store.keep(
        alloc,
        place,
        key,
        number,
        command,
        needs.as_slice(),
        names.as_slice(),
        &ended,
    );
    drop(names);
    drop(ended);
    put_done(out, &answer, "kept");
    Ok(())
}

/// Keeps the unit's record, and puts what this reports.
fn tell_keep(
    alloc: Global,
    place: &mut Untold<Mini>,
    store: &mut Store,
    number: &str,
    out: &mut Shown,
) -> Result<(), Fail> {
    let key = own_key(alloc)?;
    let command = own_command(alloc, &store.folder, &key)?;
    let number = number.parse::<u64>().unwrap_or(0);
    let told = tell_kept(alloc, place, store, number, &key, &command, out);
    drop(command);
    told
}

/// Migrates the unit's record, and puts what this reports.
fn tell_migrate(
    alloc: Global,
    place: &mut Untold<Mini>,
    store: &mut Store,
    out: &mut Shown,
) -> Result<(), Fail> {
    let key = own_key(alloc)?;
    let needs = needs(alloc)?;
    let answer = store.migrate(alloc, place, &key, needs.as_slice());
    put_done(out, &answer, "migrated");
    Ok(())
}

/// Puts the text of a file.
fn tell_text(alloc: Global, place: &Memory<Mini>, path: &str, out: &mut Shown) -> Result<(), Fail> {
    let text = text_at(alloc, place, path)?;
    out.put(&[text.as_str()]);
    Ok(())
}

/// Puts something in place of something in a file.
fn edit(
    alloc: Global,
    place: &mut Memory<Mini>,
    path: &str,
    old: &str,
    new: &str,
) -> Result<(), Fail> {
    let text = text_at(alloc, place, path)?;
    let made = replace_once(alloc, text.as_str(), old, new)?;
    put_file(alloc, place, path, made.as_str())
}

/// Puts a file at another path too.
fn copy_file(alloc: Global, place: &mut Memory<Mini>, path: &str, other: &str) -> Result<(), Fail> {
    let text = text_at(alloc, place, path)?;
    put_file(alloc, place, other, text.as_str())
}

/// Changes the world in words; an unknown word changes nothing. Returns whether the word is one of
/// a change.
fn change(
    alloc: Global,
    place: &mut Memory<Mini>,
    verb: &str,
    first: &str,
    second: &str,
    third: &str,
) -> Result<bool, Fail> {
    match verb {
        "file" => put_file(alloc, place, first, second)?,
        "copy" => copy_file(alloc, place, first, second)?,
        "edit" => edit(alloc, place, first, second, third)?,
        "gone" => take_away(alloc, place, first)?,
        "first" => put_first(alloc, place)?,
        "set" => place.set(alloc, first, second)?,
        "unset" => place.unset(alloc, first)?,
        _ => return Ok(false),
    }
    Ok(true)
}

/// Opens the store again. The run numbers in a store are wrong after an edit of the world, and
/// after a failed call. The store's next number stays.
pub fn open_again(alloc: Global, place: &mut Untold<Mini>, store: &mut Store) -> Result<(), Fail> {
    let Store {
        folder,
        next: _,
        numbers,
    } = open_store(alloc, place)?;
    drop(folder);
    drop(mem::replace(&mut store.numbers, numbers));
    Ok(())
}

/// Makes a call of the store, in words, and puts what it reports. Returns whether the word names a
/// call. After `spent`, the store has no number left.
pub fn call(
    alloc: Global,
    place: &mut Untold<Mini>,
    store: &mut Store,
    verb: &str,
    words: (&str, &str),
    out: &mut Shown,
) -> Result<bool, Fail> {
    let told = match verb {
        "open" => tell_open(alloc, place, out),
        "compare" => tell_compared(alloc, place, store, out),
        "differs" => tell_difference(alloc, place, store, words, out),
        "drop" => tell_drop(alloc, place, store, out),
        "keep" => tell_keep(alloc, place, store, words.0, out),
        "replay" => tell_replay(alloc, place, store, out),
        "migrate" => tell_migrate(alloc, place, store, out),
        "spent" => {
            store.next = None;
            return Ok(false);
        }
        _ => return Ok(false),
    };
    told?;
    Ok(true)
}

/// Takes one step. Puts `, ` after what a call reports.
pub fn step(
    alloc: Global,
    place: &mut Untold<Mini>,
    store: &mut Store,
    line: &str,
    out: &mut Shown,
) -> Result<(), Fail> {
    let mut words = line.split(' ');
    let verb = words.next().unwrap_or("");
    let first = words.next().unwrap_or("");
    let second = words.next().unwrap_or("");
    let third = words.next().unwrap_or("");
    if change(alloc, &mut place.inside, verb, first, second, third)? {
        open_again(alloc, place, store)?;
    }
    if verb == "show" {
        tell_text(alloc, &place.inside, first, out)?;
        out.put(&[", "]);
    } else if call(alloc, place, store, verb, (first, second), out)? {
        out.put(&[", "]);
    }
    Ok(())
}
