//! Orders, mentions, tables and copies, against worked examples.

use pb_data::{Bytes, Items, OrderedSet, Table, Text, TryCopy};
use pb_tests_files::holds;
use std::alloc::{AllocError, Global};
use std::cmp::Ordering;

/// Returns whether items are the texts in another text, which are separated by spaces.
fn are(items: &Items<Text>, wanted: &str) -> bool {
    let mut rest = wanted.split_whitespace();
    for item in items.as_slice() {
        if rest.next() != Some(item.as_str()) {
            return false;
        }
    }
    rest.next().is_none()
}

/// Returns whether one text compares to another in this way, by each comparison of the two.
fn compares(first: &Text, second: &Text, wanted: Ordering) -> bool {
    first.cmp(second) == wanted
        && (first == second) == (wanted == Ordering::Equal)
        && (first < second) == (wanted == Ordering::Less)
}

/// Returns what `compares` returns, for texts that are written here.
fn is_ordered(
    alloc: Global,
    first: &str,
    second: &str,
    wanted: Ordering,
) -> Result<bool, AllocError> {
    let first = Text::from_str(alloc, first)?;
    let second = Text::from_str(alloc, second)?;
    Ok(compares(&first, &second, wanted))
}

/// Two texts, and how the first compares to the second.
static ORDERS: &[(&str, &str, Ordering)] = &[
    ("", "", Ordering::Equal),
    ("", "a", Ordering::Less),
    ("a", "b", Ordering::Less),
    ("b", "ab", Ordering::Greater),
    ("a", "ab", Ordering::Less),
    ("a-b", "a/b", Ordering::Less),
    ("Z", "a", Ordering::Less),
    ("\u{e9}", "z", Ordering::Greater),
    ("\u{e9}", "\u{e9}", Ordering::Equal),
];

/// Mentions a word.
fn mention(alloc: Global, mentions: &mut OrderedSet, word: &str) -> Result<(), AllocError> {
    let word = Text::from_str(alloc, word)?;
    mentions.insert(word)?;
    Ok(())
}

/// Mentions the words of a text, one after another.
fn mention_all(alloc: Global, mentions: &mut OrderedSet, words: &str) -> Result<(), AllocError> {
    for word in words.split_whitespace() {
        mention(alloc, mentions, word)?;
    }
    Ok(())
}

/// Returns whether a text is mentioned.
fn mentions_text(alloc: Global, mentions: &OrderedSet, text: &str) -> Result<bool, AllocError> {
    let text = Text::from_str(alloc, text)?;
    Ok(mentions.contains(&text))
}

/// Returns whether a text is mentioned, and another is not.
fn mentions_one(
    alloc: Global,
    mentions: &OrderedSet,
    one: &str,
    other: &str,
) -> Result<bool, AllocError> {
    Ok(mentions_text(alloc, mentions, one)? && !mentions_text(alloc, mentions, other)?)
}

/// Returns whether mentions become these items.
fn become_items(alloc: Global, mentions: OrderedSet, wanted: &str) -> Result<bool, AllocError> {
    let items = mentions.into_items(alloc)?;
    Ok(are(&items, wanted))
}

/// Returns whether each mentioned word occurs once.
fn words_stand_once(alloc: Global) -> Result<bool, AllocError> {
    let mut mentions = OrderedSet::new(alloc);
    let mentioned = mention_all(alloc, &mut mentions, "b a b c a");
    let is_one = mentions_one(alloc, &mentions, "a", "d");
    let is_all = become_items(alloc, mentions, "b a c");
    mentioned?;
    Ok(is_one? && is_all?)
}

/// Names and values that are put into a table one after another.
static INSERTED: &[(&str, u8)] = &[("b", 1), ("a", 2), ("b", 3), ("c", 4)];

/// Puts a name and a value into a table.
fn insert(alloc: Global, table: &mut Table<u8>, name: &str, value: u8) -> Result<(), AllocError> {
    let name = Text::from_str(alloc, name)?;
    table.insert(name, value)?;
    Ok(())
}

/// Puts all of them into a table.
fn insert_all(alloc: Global, table: &mut Table<u8>) -> Result<(), AllocError> {
    for entry in INSERTED {
        let (name, value) = *entry;
        insert(alloc, table, name, value)?;
    }
    Ok(())
}

/// Returns whether a name has this value in a table. The value 0 means that the name is not in the
/// table.
fn has_value(alloc: Global, table: &Table<u8>, name: &str, wanted: u8) -> Result<bool, AllocError> {
    let name = Text::from_str(alloc, name)?;
    let value = *table.get(&name).unwrap_or(&0);
    Ok(value == wanted && table.contains(&name) == (wanted != 0))
}

/// Names, and the value of each in the table; 0 if it has none.
static VALUES: &[(&str, u8)] = &[("a", 2), ("b", 3), ("c", 4), ("d", 0)];

/// Returns whether each name has its value in a table.
fn has_values(alloc: Global, table: &Table<u8>) -> Result<bool, AllocError> {
    for case in VALUES {
        let (name, value) = *case;
        if !has_value(alloc, table, name, value)? {
            return Ok(false);
        }
    }
    Ok(true)
}

/// Returns whether entries have these names, in this order.
fn are_named(entries: &[(Text, u8)], wanted: &str) -> bool {
    let mut rest = wanted.split_whitespace();
    for (name, _) in entries {
        if rest.next() != Some(name.as_str()) {
            return false;
        }
    }
    rest.next().is_none()
}

/// Returns whether a table has this number of names, and whether they are these, in its order.
fn has_names(
    alloc: Global,
    table: Table<u8>,
    count: usize,
    wanted: &str,
) -> Result<bool, AllocError> {
    let is_counted = table.len() == count;
    let entries = table.into_items(alloc)?;
    Ok(is_counted && are_named(entries.as_slice(), wanted))
}

/// Returns whether a table keeps the first place and the last value of each name.
fn table_keeps(alloc: Global) -> Result<bool, AllocError> {
    let mut table = Table::new(alloc);
    let inserted = insert_all(alloc, &mut table);
    let has_values = has_values(alloc, &table);
    let has_names = has_names(alloc, table, 3, "b a c");
    inserted?;
    Ok(has_values? && has_names?)
}

/// Returns whether a copy of bytes equals them, and fewer bytes do not.
fn equals_its_copy(alloc: Global, bytes: &Bytes, fewer: &Bytes) -> Result<bool, AllocError> {
    let copy = bytes.copy(alloc)?;
    Ok(copy == *bytes && fewer != bytes)
}

/// Returns the same for bytes that are written here.
fn bytes_are_copied(alloc: Global) -> Result<bool, AllocError> {
    let bytes = Bytes::from_slice(alloc, &[0, 255, 7])?;
    let fewer = Bytes::from_slice(alloc, &[0, 255])?;
    equals_its_copy(alloc, &bytes, &fewer)
}

/// A text, and bytes if there are some.
type Entry = (Text, Option<Bytes>);

/// Adds an entry.
fn add_entry(
    alloc: Global,
    items: &mut Items<Entry>,
    text: &str,
    bytes: Option<Bytes>,
) -> Result<(), AllocError> {
    let text = Text::from_str(alloc, text)?;
    items.push((text, bytes))
}

/// Adds two entries. Only the first has bytes.
fn add_entries(alloc: Global, items: &mut Items<Entry>) -> Result<(), AllocError> {
    let bytes = Bytes::from_slice(alloc, &[0, 255, 7])?;
    add_entry(alloc, items, "a", Some(bytes))?;
    add_entry(alloc, items, "b", None)
}

/// Returns whether two lists have two entries each, with the same texts and with bytes at the same
/// indices.
fn are_alike(first: &[Entry], second: &[Entry]) -> bool {
    for (one, other) in first.iter().zip(second) {
        if one.0 != other.0 || one.1.is_some() != other.1.is_some() {
            return false;
        }
    }
    first.len() == 2 && second.len() == 2
}

/// Returns whether a copy of entries is not empty, and is like them.
fn are_copied(alloc: Global, items: &Items<Entry>) -> Result<bool, AllocError> {
    let copy = items.copy(alloc)?;
    Ok(!copy.is_empty() && are_alike(items.as_slice(), copy.as_slice()))
}

/// Returns whether no entries are empty.
fn none_are_empty(alloc: Global) -> bool {
    let none: Items<Entry> = Items::new(alloc);
    none.is_empty()
}

/// Returns whether entries are copied.
fn items_are_copied(alloc: Global) -> Result<bool, AllocError> {
    let mut items = Items::new(alloc);
    let added = add_entries(alloc, &mut items);
    let is_copied = are_copied(alloc, &items);
    added?;
    is_copied
}

/// Rules: `conventions.order`.
#[test]
fn orders_and_values(rt: HostRuntime) {
    for case in ORDERS {
        let (first, second, wanted) = *case;
        assert!(rt;
            holds(is_ordered(rt.alloc(), first, second, wanted)),
            "{first} beside {second}"
        );
    }
    assert!(rt; holds(words_stand_once(rt.alloc())));
    assert!(rt; holds(table_keeps(rt.alloc())));
    assert!(rt; holds(bytes_are_copied(rt.alloc())));
    assert!(rt; holds(items_are_copied(rt.alloc())) && none_are_empty(rt.alloc()));
}
