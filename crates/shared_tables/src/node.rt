//! Nodes of a search tree that several trees share, and how they are joined so that a tree stays low.
ghost use Rattle.std.specs.Prelude.{◌≡◌, ◌++◌, ◌∷◌, IfOk};
ghost use Rattle.shared_tables.specs.Trees.{entries, link_entries};
ghost use Rattle.shared_tables.specs.declared.node.Node.{out-Node};

use crate::entry::Entry;
use std::alloc::{AllocError, Global};
use std::sync::Arc;

/// A tree that may be empty.
pub(crate) type Link<K, V> = Option<Arc<Node<K, V>>>;

/// An entry with what stands before and after it.
#[derive(Debug, Drop)]
pub(crate) struct Node<K, V> {
    pub(crate) entry: Entry<K, V>,
    /// How many nodes stand on the longest way down, this one among them.
    pub(crate) height: u8,
    pub(crate) before: Option<Arc<Node<K, V>>>,
    pub(crate) after: Option<Arc<Node<K, V>>>,
}

/// The height of a tree.
fn height<K, V>(tree: &Link<K, V>) -> u8 {
    match tree {
        None => 0,
        Some(node) => node.height,
    }
}

/// The same tree once more, which takes no memory.
pub(crate) fn shared<K: Drop, V: Drop>(tree: &Link<K, V>) -> Result<Link<K, V>, AllocError>
    ensures { IfOk result (λ t. link_entries t ≡ link_entries tree.now) }
{
    match tree {
        None => Ok(None),
        Some(node) => Ok(Some(Arc::try_clone(node)?)),
    }
}

/// An entry between two parts.
pub(crate) fn joined<K: Drop, V: Drop>(
    alloc: Global,
    before: Link<K, V>,
    entry: Entry<K, V>,
    after: Link<K, V>,
) -> Result<Arc<Node<K, V>>, AllocError>
    ensures { IfOk result (λ n. entries n.value ≡ link_entries before ++ entry ∷ link_entries after) }
{
    let height = height(&before).max(height(&after)).saturating_add(1);
    Ok(Arc::new(
        alloc,
        Node {
            entry,
            height,
            before,
            after,
        },
    )?)
}

/// Two entries between three parts, with the entry of the second part on top.
fn around<K: Drop, V: Drop>(
    alloc: Global,
    before: Link<K, V>,
    first: Entry<K, V>,
    middle: &Node<K, V>,
    last: Entry<K, V>,
    after: Link<K, V>,
) -> Result<Arc<Node<K, V>>, AllocError>
    ensures { IfOk result (λ n. entries n.value ≡ link_entries before ++ first ∷ (entries middle.now ++ last ∷ link_entries after)) }
{
    let front = joined(alloc, before, first, shared(&middle.before)?)?;
    let back = joined(alloc, shared(&middle.after)?, last, after)?;
    joined(alloc, Some(front), middle.entry.shared()?, Some(back))
}

/// Two entries between three parts, with the highest part nearest to the top.
fn divided<K: Drop, V: Drop>(
    alloc: Global,
    before: Link<K, V>,
    first: Entry<K, V>,
    middle: &Link<K, V>,
    last: Entry<K, V>,
    after: Link<K, V>,
) -> Result<Arc<Node<K, V>>, AllocError>
    ensures { IfOk result (λ n. entries n.value ≡ link_entries before ++ first ∷ (link_entries middle.now ++ last ∷ link_entries after)) }
{
    if let Some(node) = middle {
        if height(middle) > height(&before).max(height(&after)) {
            return around(alloc, before, first, node, last, after);
        }
    }
    if height(&before) < height(&after) {
        let front = joined(alloc, before, first, shared(middle)?)?;
        joined(alloc, Some(front), last, after)
    } else {
        let back = joined(alloc, shared(middle)?, last, after)?;
        joined(alloc, before, first, Some(back))
    }
}

/// An entry past a part that is too high for the other one.
fn lean_back<K: Drop, V: Drop>(
    alloc: Global,
    before: &Node<K, V>,
    entry: Entry<K, V>,
    after: Link<K, V>,
) -> Result<Arc<Node<K, V>>, AllocError>
    ensures { IfOk result (λ n. entries n.value ≡ entries before.now ++ entry ∷ link_entries after) }
{
    let front = shared(&before.before)?;
    let first = before.entry.shared()?;
    divided(alloc, front, first, &before.after, entry, after)
}

/// An entry before a part that is too high for the other one.
fn lean_front<K: Drop, V: Drop>(
    alloc: Global,
    before: Link<K, V>,
    entry: Entry<K, V>,
    after: &Node<K, V>,
) -> Result<Arc<Node<K, V>>, AllocError>
    ensures { IfOk result (λ n. entries n.value ≡ link_entries before ++ entry ∷ entries after.now) }
{
    let last = after.entry.shared()?;
    let back = shared(&after.after)?;
    divided(alloc, before, entry, &after.before, last, back)
}

/// An entry between two parts. Where one is higher than the other by two or more, a part of it goes to the other side.
pub(crate) fn balanced<K: Drop, V: Drop>(
    alloc: Global,
    before: Link<K, V>,
    entry: Entry<K, V>,
    after: Link<K, V>,
) -> Result<Arc<Node<K, V>>, AllocError>
    ensures { IfOk result (λ n. entries n.value ≡ link_entries before ++ entry ∷ link_entries after) }
{
    let (front, back) = (height(&before), height(&after));
    if let Some(high) = &before {
        if front > back.saturating_add(1) {
            return lean_back(alloc, high, entry, after);
        }
    }
    if let Some(high) = &after {
        if back > front.saturating_add(1) {
            return lean_front(alloc, before, entry, high);
        }
    }
    joined(alloc, before, entry, after)
}

/// A node with another part before it.
pub(crate) fn with_before<K: Drop, V: Drop>(
    alloc: Global,
    before: Link<K, V>,
    node: &Node<K, V>,
) -> Result<Arc<Node<K, V>>, AllocError>
    ensures { IfOk result (λ n. entries n.value ≡ link_entries before ++ (out-Node K V node.now).entry ∷ link_entries (out-Node K V node.now).after) }
{
    let entry = node.entry.shared()?;
    let after = shared(&node.after)?;
    balanced(alloc, before, entry, after)
}

/// A node with another part past it.
pub(crate) fn with_after<K: Drop, V: Drop>(
    alloc: Global,
    node: &Node<K, V>,
    after: Link<K, V>,
) -> Result<Arc<Node<K, V>>, AllocError>
    ensures { IfOk result (λ n. entries n.value ≡ link_entries (out-Node K V node.now).before ++ (out-Node K V node.now).entry ∷ link_entries after) }
{
    let entry = node.entry.shared()?;
    let before = shared(&node.before)?;
    balanced(alloc, before, entry, after)
}
