// The least of many ticks, and the first of those that have come.
ghost use Rattle.std.specs.Prelude.{[], Some, ◌≡◌, ◌-◌, ◌*◌, ◌^◌, ◌<◌, ◌≤◌, drop, length, replicate, slice_set, IfOk};
ghost use Rattle.pod_sched.specs.Timers.Leaves.{never};
ghost use Rattle.pod_sched.specs.Timers.Minima.{IsMended, first_within, leaf_under, least, node};

use lists::cloned;
use lwp_types::NoMemory;
use std::alloc::Global;
use std::marker::Model;

/// The tick of an empty leaf: it never comes.
pub const NEVER: u64 = u64::MAX;

/// A tick for each leaf of a tree.
#[derive(Drop)]
pub struct Minima {
    // Node 1 stands over all others, and node n over 2n and 2n + 1, of whose ticks it has the lesser. The last half are the
    // leaves.
    nodes: Vec<u64>,
    // How many leaves there are: none, or a power of two.
    width: usize,
    // How high node 1 stands over the leaves.
    height: usize,
}

impl Model for Minima {
    ghost use Rattle.std.specs.Prelude.{List, ℕ, drop};
    ghost use Rattle.pod_sched.specs.Timers.Minima.{IsTree};

    ghost Value = { List ℕ };

    ghost view = { λ m. drop m.width m.nodes.items };

    ghost invariant = { λ m. IsTree m.nodes.items m.width m.height };
}

// How many leaves a full tree has that has so many at least, and how high it is.
fn full_size(least: usize) -> (usize, usize)
    requires { least ≤ 2 ^ 61 }
    ensures full { result.0 ≡ leaf_under result.1 1 }
    ensures least { least ≤ result.0 }
    ensures some { 1 ≤ result.0 }
    ensures most { result.0 ≤ 2 ^ 62 }
{
    let mut width = 1;
    let mut height = 0;
    while width < least {
        width *= 2;
        height += 1;
    }
    (width, height)
}

// So many nodes that have no tick.
fn bare(alloc: Global, count: usize) -> Result<Vec<u64>, NoMemory>
    ensures { IfOk result (λ v. v.items ≡ replicate count never) }
{
    let mut nodes = Vec::new(alloc);
    nodes.resize(count, NEVER)?;
    Ok(nodes)
}

// No node has a tick from now on.
fn strip(nodes: &mut Vec<u64>)
    ensures { nodes.new.items ≡ replicate (length nodes.old.items) never }
{
    nodes.fill(NEVER);
}

// What a node has.
fn node(nodes: &Vec<u64>, at: usize) -> u64
    requires { at < length nodes.now.items }
    ensures { result ≡ node nodes.now.items at }
{
    nodes[at]
}

// The node has this tick from now on, whatever those below it have.
fn set_node(nodes: &mut Vec<u64>, at: usize, due: u64)
    requires { at < length nodes.old.items }
    ensures { nodes.new.items ≡ slice_set nodes.old.items at due }
{
    nodes[at] = due;
}

// The leaf has this tick from now on, and each node over it the lesser of the two below.
fn put(nodes: &mut Vec<u64>, width: usize, leaf: usize, due: u64)
    requires halves { length nodes.old.items ≡ 2 * width }
    requires mended { IsMended nodes.old.items width }
    requires leaf_in { leaf < width }
    ensures leaves { drop width nodes.new.items ≡ slice_set (drop width nodes.old.items) leaf due }
    ensures mended { IsMended nodes.new.items width }
    ensures len { length nodes.new.items ≡ length nodes.old.items }
{
    let mut at = width + leaf;
    set_node(nodes, at, due);
    while at > 1 {
        at /= 2;
        let lesser = node(nodes, 2 * at).min(node(nodes, 2 * at + 1));
        set_node(nodes, at, lesser);
    }
}

// The first leaf whose tick has come, under node 1, of which that is so.
fn descend(nodes: &Vec<u64>, width: usize, height: usize, now: u64) -> usize
    requires halves { length nodes.now.items ≡ 2 * width }
    requires mended { IsMended nodes.now.items width }
    requires full { width ≡ leaf_under height 1 }
    requires some { 1 ≤ width }
    requires come { node nodes.now.items 1 ≤ now }
    ensures from { width ≤ result }
    ensures value { first_within now (drop width nodes.now.items) ≡ Some (result - width) }
{
    let mut at = 1;
    for _level in 0..height {
        at *= 2;
        if node(nodes, at) > now {
            at += 1;
        }
    }
    at
}

impl Minima {
    /// No leaf.
    pub fn new(alloc: Global) -> Minima
        ensures { result ≡ [] }
    {
        Minima {
            nodes: Vec::new(alloc),
            width: 0,
            height: 0,
        }
    }

    /// The same leaves in memory of their own.
    pub fn again(&self) -> Result<Minima, NoMemory>
        ensures { IfOk result (λ copy. copy ≡ self.now) }
    {
        Ok(Minima {
            nodes: cloned(&self.nodes)?,
            width: self.width,
            height: self.height,
        })
    }

    /// So many leaves at least, with no tick.
    pub fn with_leaves(alloc: Global, least: usize) -> Result<Minima, NoMemory>
        requires { least ≤ 2 ^ 61 }
        ensures { IfOk result (λ m. (least ≤ length m) × (m ≡ replicate (length m) never)) }
    {
        let (width, height) = full_size(least);
        Ok(Minima {
            nodes: bare(alloc, 2 * width)?,
            width,
            height,
        })
    }

    /// How many leaves there are.
    pub fn len(&self) -> usize
        ensures { result ≡ length self.now }
    {
        self.width
    }

    /// The leaf has this tick.
    pub fn set(&mut self, leaf: usize, due: u64)
        requires { leaf < length self.old }
        ensures { self.new ≡ slice_set self.old leaf due }
    {
        put(&mut self.nodes, self.width, leaf, due);
    }

    /// No leaf has a tick.
    pub fn clear(&mut self)
        ensures { self.new ≡ replicate (length self.old) never }
    {
        strip(&mut self.nodes);
    }

    /// The least of all ticks.
    pub fn least(&self) -> u64
        ensures { result ≡ least self.now }
    {
        if self.width == 0 {
            return NEVER;
        }
        node(&self.nodes, 1)
    }

    /// The first leaf whose tick has come.
    pub fn first_within(&self, now: u64) -> Option<usize>
        ensures { result ≡ first_within now self.now }
    {
        if self.width == 0 {
            return None;
        }
        if node(&self.nodes, 1) > now {
            return None;
        }
        Some(descend(&self.nodes, self.width, self.height, now) - self.width)
    }
}
