//! Nodes in a vector, each in three doubly linked lists by index: of all, of its tag's and of its document's.

ghost use Rattle.std.specs.Prelude.{◌≡◌, ◌≢◌, ◌<◌, ◌≤◌, length, IfSome, IsSome, None, vec_len, vec_capacity};
ghost use Rattle.qe_chains.specs.Nodes.{nowhere, place_of, with_place, node_at, Writes, WritesAfter, WritesBefore, Hooks, Unhooks, HooksAll, UnhooksAll, Releases, TakesNode, IsInside, after, before, without};

/// A side of a node: which of its lists.
#[derive(Clone, Copy)]
pub(crate) enum Side {
    All,
    Tag,
    Doc,
}

/// The neighbours of a node in a list.
#[derive(Clone, Copy)]
pub(crate) struct Place {
    pub before: Option<usize>,
    pub after: Option<usize>,
}

/// The first and the last node of a list that is not empty.
#[derive(Clone, Copy)]
pub(crate) struct Ends {
    pub first: usize,
    pub last: usize,
}

/// A pair of a tag and a document, with its place in each of its lists.
#[derive(Clone, Copy)]
pub(crate) struct Node {
    pub tag: [u8; 32],
    pub doc: u64,
    pub all: Place,
    pub by_tag: Place,
    pub by_doc: Place,
}

/// Something of each side.
#[derive(Clone, Copy)]
pub(crate) struct Sides<T> {
    pub all: T,
    pub by_tag: T,
    pub by_doc: T,
}

const NOWHERE: Place = Place {
    before: None,
    after: None,
};

impl Node {
    /// A node without neighbours.
    pub fn new(tag: [u8; 32], doc: u64) -> Node
        ensures { result ≡ record { tag = tag; doc = doc; all = nowhere; by_tag = nowhere; by_doc = nowhere } }
    {
        Node {
            tag,
            doc,
            all: NOWHERE,
            by_tag: NOWHERE,
            by_doc: NOWHERE,
        }
    }

    /// Its place on a side.
    pub fn place(&self, side: Side) -> Place
        ensures { result ≡ place_of side self.now }
    {
        match side {
            Side::All => self.all,
            Side::Tag => self.by_tag,
            Side::Doc => self.by_doc,
        }
    }

    /// Gives it another place on a side.
    pub fn set_place(&mut self, side: Side, to: Place)
        ensures { self.new ≡ with_place side self.old to }
    {
        match side {
            Side::All => self.all = to,
            Side::Tag => self.by_tag = to,
            Side::Doc => self.by_doc = to,
        }
    }
}

// Gives a node another place on a side.
fn set_place(nodes: &mut [Node], side: Side, at: usize, to: Place)
    requires { at < length nodes.old }
    ensures { Writes side at to nodes.old nodes.new }
{
    let mut node = nodes[at];
    node.set_place(side, to);
    nodes[at] = node;
}

// Links a node, if there is one, to the one after it.
fn set_after(nodes: &mut [Node], side: Side, at: Option<usize>, to: Option<usize>)
    requires { IfSome at (λ i. i < length nodes.old) }
    ensures { WritesAfter side at to nodes.old nodes.new }
{
    if let Some(at) = at {
        let before = nodes[at].place(side).before;
        set_place(nodes, side, at, Place { before, after: to });
    }
}

// Links a node, if there is one, to the one before it.
fn set_before(nodes: &mut [Node], side: Side, at: Option<usize>, to: Option<usize>)
    requires { IfSome at (λ i. i < length nodes.old) }
    ensures { WritesBefore side at to nodes.old nodes.new }
{
    if let Some(at) = at {
        let after = nodes[at].place(side).after;
        set_place(nodes, side, at, Place { before: to, after });
    }
}

// Puts a node at the end of a list, and gives the list's ends.
fn hook(nodes: &mut [Node], side: Side, ends: Option<Ends>, at: usize) -> Ends
    requires at { at < length nodes.old }
    requires last { IfSome ends (λ e. (e.last < length nodes.old) × (e.last ≢ at)) }
    ensures { Hooks side at ends (Some result) nodes.old nodes.new }
{
    match ends {
        None => {
            set_place(nodes, side, at, NOWHERE);
            Ends {
                first: at,
                last: at,
            }
        }
        Some(ends) => {
            let last = Some(ends.last);
            set_place(
                nodes,
                side,
                at,
                Place {
                    before: last,
                    after: None,
                },
            );
            set_after(nodes, side, last, Some(at));
            Ends {
                first: ends.first,
                last: at,
            }
        }
    }
}

// The ends of a list once a node in that place has left it.
fn ends_without(ends: Option<Ends>, place: Place) -> Option<Ends>
    ensures { result ≡ without ends place }
{
    let ends = ends?;
    match (place.before, place.after) {
        (None, None) => None,
        (None, Some(first)) => Some(Ends {
            first,
            last: ends.last,
        }),
        (Some(last), None) => Some(Ends {
            first: ends.first,
            last,
        }),
        (Some(_), Some(_)) => Some(ends),
    }
}

// Takes a node out of a list, and gives the ends of what is left.
fn unhook(nodes: &mut [Node], side: Side, ends: Option<Ends>, at: usize) -> Option<Ends>
    requires there { ends ≢ None }
    requires at { at < length nodes.old }
    requires before { IfSome (before nodes.old side at) (λ i. i < length nodes.old) }
    requires after { IfSome (after nodes.old side at) (λ i. i < length nodes.old) }
    ensures { Unhooks side at ends result nodes.old nodes.new }
{
    let place = nodes[at].place(side);
    set_after(nodes, side, place.before, place.after);
    set_before(nodes, side, place.after, place.before);
    ends_without(ends, place)
}

/// Takes a node for a pair: the first free one, or a new one, for which there is room.
pub(crate) fn take_node(
    nodes: &mut Vec<Node>,
    free: &mut Option<usize>,
    tag: [u8; 32],
    doc: u64,
) -> usize
    requires free { IfSome free.old (λ i. i < vec_len nodes.old) }
    requires room { free.old ≡ None → vec_len nodes.old < vec_capacity nodes.old }
    ensures node { TakesNode tag doc result nodes.old.items nodes.new.items free.old free.new }
    ensures inside { result < length nodes.new.items }
    ensures capacity { vec_capacity nodes.old ≤ vec_capacity nodes.new }
{
    match *free {
        Some(at) => {
            *free = nodes[at].all.after;
            nodes[at] = Node::new(tag, doc);
            at
        }
        None => {
            let at = nodes.len();
            if nodes.push(Node::new(tag, doc)).is_err() {
                unreachable!();
            }
            at
        }
    }
}

/// Puts a node at the end of its three lists, and gives their ends.
pub(crate) fn hook_all(nodes: &mut [Node], ends: Sides<Option<Ends>>, at: usize) -> Sides<Ends>
    requires at { at < length nodes.old }
    requires all { IfSome ends.all (λ e. (e.last < length nodes.old) × (e.last ≢ at)) }
    requires by_tag { IfSome ends.by_tag (λ e. (e.last < length nodes.old) × (e.last ≢ at)) }
    requires by_doc { IfSome ends.by_doc (λ e. (e.last < length nodes.old) × (e.last ≢ at)) }
    ensures { HooksAll at ends result nodes.old nodes.new }
{
    Sides {
        all: hook(nodes, Side::All, ends.all, at),
        by_tag: hook(nodes, Side::Tag, ends.by_tag, at),
        by_doc: hook(nodes, Side::Doc, ends.by_doc, at),
    }
}

// Takes a node out of its three lists, and gives the ends of what is left.
fn unhook_all(nodes: &mut [Node], ends: Sides<Option<Ends>>, at: usize) -> Sides<Option<Ends>>
    requires there { (ends.all ≢ None) × (ends.by_tag ≢ None) × (ends.by_doc ≢ None) }
    requires at { at < length nodes.old }
    requires inside { IsInside at nodes.old }
    ensures { UnhooksAll at ends result nodes.old nodes.new }
{
    Sides {
        all: unhook(nodes, Side::All, ends.all, at),
        by_tag: unhook(nodes, Side::Tag, ends.by_tag, at),
        by_doc: unhook(nodes, Side::Doc, ends.by_doc, at),
    }
}

/// Takes a node out of its three lists, puts it before the free ones, and gives the ends of what is left.
pub(crate) fn release(
    nodes: &mut [Node],
    ends: Sides<Option<Ends>>,
    at: usize,
    free: Option<usize>,
) -> Sides<Option<Ends>>
    requires there { (ends.all ≢ None) × (ends.by_tag ≢ None) × (ends.by_doc ≢ None) }
    requires at { at < length nodes.old }
    requires inside { IsInside at nodes.old }
    ensures { Releases at free ends result nodes.old nodes.new }
{
    let left = unhook_all(nodes, ends, at);
    set_after(nodes, Side::All, Some(at), free);
    left
}
