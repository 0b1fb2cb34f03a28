//! The index of rules. For each thing, the index lists the rules that need this thing: what else
//! each rule needs, and what the rule yields. Only this crate uses the index.

ghost use Rattle.std.specs.Prelude.{◌≡◌, ◌<◌, IfOk, OnOk, All, length};
ghost use Rattle.std.specs.List.{sum_by};
ghost use Rattle.pb_graph.specs.Closure.{is_on};
ghost use Rattle.pb_graph.specs.Table.{IsInRange};
ghost use Rattle.pb_graph.specs.Index.{link_at, with_link, with_rule, either_way, links_of, IsIndexed, IsWalked, IsIndex};

use crate::table::Rule;
use std::alloc::{AllocError, Global};

/// A link of a thing: one rule that needs this thing.
#[derive(Clone, Copy)]
pub(crate) struct Link {
    /// What else the rule needs.
    pub with: usize,
    /// What the rule yields.
    pub gives: usize,
    /// The number of the thing's next link.
    pub next: usize,
}

/// The links of all things. A link's number is one more than its index; 0 means no link.
#[derive(Drop)]
pub(crate) struct Index {
    /// For each thing, the number of its first link.
    pub heads: Vec<usize>,
    /// The links. The chain of a thing's links goes from the thing's last link back to its first
    /// link.
    pub links: Vec<Link>,
}

/// Returns the link with a number, if there is such a link.
fn link_at(links: &[Link], number: usize) -> Option<Link>
    ensures { result ≡ link_at links.now number }
{
    let index = number.checked_sub(1)?;
    links.get(index).copied()
}

/// Empties a buffer, and then follows a chain of links from the link with the number `head`. Each
/// thing that a link yields is added to the buffer. A link yields a thing only if the other thing
/// that the link needs is known.
pub(crate) fn put_linked(
    known: &[bool],
    links: &[Link],
    head: usize,
    given: &mut Vec<usize>,
) -> Result<(), AllocError>
    requires { IsIndexed (length known.now) links.now }
    ensures { OnOk result (IsWalked (is_on known.now) links.now head given.new.items) }
{
    given.clear();
    let mut number = head;
    while let Some(link) = link_at(links, number) {
        if known[link.with] {
            given.push(link.gives)?;
        }
        number = link.next;
    }
    Ok(())
}

/// Adds a link to a thing.
fn add_link(index: &mut Index, thing: usize, with: usize, gives: usize) -> Result<(), AllocError>
    requires { thing < length index.old.heads.items }
    ensures long { length index.new.heads.items ≡ length index.old.heads.items }
    ensures added { OnOk result ((index.new.heads.items, index.new.links.items)
        ≡ with_link (index.old.heads.items, index.old.links.items) thing with gives) }
{
    let next = index.heads[thing];
    index.links.push(Link { with, gives, next })?;
    index.heads[thing] = index.links.len();
    Ok(())
}

/// Adds a rule at each of its premises.
fn add_rule(index: &mut Index, rule: Rule) -> Result<(), AllocError>
    requires { IsInRange (length index.old.heads.items) rule }
    ensures long { length index.new.heads.items ≡ length index.old.heads.items }
    ensures added { OnOk result ((index.new.heads.items, index.new.links.items)
        ≡ with_rule (index.old.heads.items, index.old.links.items) rule) }
{
    add_link(index, rule.first, rule.second, rule.gives)?;
    if rule.first == rule.second {
        return Ok(());
    }
    add_link(index, rule.second, rule.first, rule.gives)
}

/// Returns the number of links that the index has for a rule.
fn links_of(rule: Rule) -> usize
    ensures { result ≡ links_of rule }
{
    if rule.first == rule.second { 1 } else { 2 }
}

/// Returns the number of links that the index has for the rules.
///
/// Errors: out of memory, if the number exceeds `usize`.
fn count_links(rules: &[Rule]) -> Result<usize, AllocError>
    ensures { IfOk result (λ count. count ≡ sum_by links_of rules.now) }
{
    let mut count: usize = 0;
    for rule in rules {
        let Some(more) = count.checked_add(links_of(*rule)) else {
            return Err(AllocError);
        };
        count = more;
    }
    Ok(count)
}

/// Returns the index of rules.
pub(crate) fn index_of(alloc: Global, count: usize, rules: &[Rule]) -> Result<Index, AllocError>
    requires { All (IsInRange count) rules.now }
    ensures { IfOk result
        (λ made. IsIndex count (either_way rules.now) made.heads.items made.links.items) }
{
    let mut index = Index {
        heads: vec![in alloc; 0; count]?,
        links: Vec::with_capacity(alloc, count_links(rules)?)?,
    };
    for rule in rules {
        add_rule(&mut index, *rule)?;
    }
    Ok(index)
}
