// Lists in a slab.

ghost use Rattle.std.specs.Prelude.{◌≡◌, ℕ, ◌<◌, OnOk, OnErr, IfOk, None};
ghost use Rattle.std.specs.Option.{ForSome};
ghost use Rattle.slab.specs.Slab.{get, ContainsKey};
ghost use Rattle.flow_numbered.specs.Links.{no_links, longer, shorter, with_after, with_before, pushed, unlinked};

use flow_base::memory::NoMemory;
use slab::Slab;

/// A link of a list: what it holds, and the keys of the links before and after it.
#[derive(Drop)]
pub struct Link<T> {
    pub item: T,
    pub before: Option<usize>,
    pub after: Option<usize>,
}

/// The keys of the first and the last link of a list, and how many links it has.
#[derive(Clone, Copy)]
pub struct Ends {
    pub first: Option<usize>,
    pub last: Option<usize>,
    pub length: usize,
}

impl Ends {
    /// The ends of a list without a link.
    pub fn new() -> Ends
        ensures { result ≡ no_links }
    {
        Ends {
            first: None,
            last: None,
            length: 0,
        }
    }
}

/// Has the link at a key, if there is one, be followed by another.
fn set_after<T>(links: &mut Slab<Link<T>>, key: Option<usize>, after: Option<usize>)
    ensures { (k : ℕ) → get links.new k ≡ with_after (get links.old) key after k }
{
    if let Some(key) = key {
        if let Some(link) = links.get_mut(key) {
            link.after = after;
        }
    }
}

/// Has the link at a key, if there is one, follow another.
fn set_before<T>(links: &mut Slab<Link<T>>, key: Option<usize>, before: Option<usize>)
    ensures { (k : ℕ) → get links.new k ≡ with_before (get links.old) key before k }
{
    if let Some(key) = key {
        if let Some(link) = links.get_mut(key) {
            link.before = before;
        }
    }
}

/// Adds an item behind the last one, and gives the key of its link. Where there is no memory, the list stays.
pub fn push_last<T: Drop>(
    links: &mut Slab<Link<T>>,
    ends: &mut Ends,
    item: T,
) -> Result<usize, NoMemory>
    ensures vacant { IfOk result (λ key. get links.old key ≡ None) }
    ensures links { IfOk result (λ key. (k : ℕ) → get links.new k
        ≡ pushed (get links.old) ends.old.last key item k) }
    ensures ends { IfOk result (λ key. ends.new ≡ longer ends.old key) }
    ensures links_stay { OnErr result ((k : ℕ) → get links.new k ≡ get links.old k) }
    ensures ends_stay { OnErr result (ends.new ≡ ends.old) }
{
    let Some(length) = ends.length.checked_add(1) else {
        return Err(NoMemory);
    };
    let last = ends.last;
    let key = links.insert(Link {
        item,
        before: last,
        after: None,
    })?;
    set_after(links, last, Some(key));
    *ends = Ends {
        first: ends.first.or(Some(key)),
        last: Some(key),
        length,
    };
    Ok(key)
}

/// Removes the link at a key from its list, and gives its item.
pub fn unlink<T>(links: &mut Slab<Link<T>>, ends: &mut Ends, key: usize) -> T
    requires { ContainsKey links.old key }
    ensures item { ForSome (get links.old key) (λ l. result ≡ l.item) }
    ensures links { ForSome (get links.old key)
        (λ l. (k : ℕ) → get links.new k ≡ unlinked (get links.old) l key k) }
    ensures ends { ForSome (get links.old key) (λ l. ends.new ≡ shorter ends.old l) }
{
    let Link {
        item,
        before,
        after,
    } = links.remove(key);
    set_after(links, before, after);
    set_before(links, after, before);
    if before.is_none() {
        ends.first = after;
    }
    if after.is_none() {
        ends.last = before;
    }
    ends.length = ends.length.saturating_sub(1);
    item
}
