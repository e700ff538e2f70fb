// Packages and what their names begin with (Protocol Buffers "Language Guide": Packages).
ghost use Rattle.std.specs.Prelude.{◌≡◌, ◌<◌, ℕ, List as ListOf, Some, if◌then◌else◌, false, IfOk, OnOk, OnErr};
ghost use Rattle.std.specs.BTreeMap.{get_by_text};
ghost use Rattle.pbx_link_definitions.specs.Names.{first_part as first_of};
ghost use Rattle.pbx_link_names.specs.Packages.{child_of, node_in, is_edge, is_there, HasSameNodes, IsSound, HasChild, IsWithout, IsMissing, HasAdded, AreAlikeBut};

use pbx_wire::NoMemory;
use std::alloc::Global;
use std::collections::BTreeMap;

/// Packages, of which contracts see which names are there. With a name all that it begins with is there. A name is kept as its parts, each
/// a node below the one of the parts before it: so a name of n parts takes memory by n, and is found by n searches for a part.
#[derive(Drop)]
pub struct PackageNames {
    /// The nodes of a part by the nodes that they stand below, of which 0 has no part.
    nodes: BTreeMap<String, BTreeMap<usize, usize>>,
    /// How many nodes were made, with node 0.
    count: usize,
}

/// What of a name is not there yet.
#[derive(Clone, Copy)]
pub struct Missing<'a> {
    /// The node of the parts that are there.
    node: usize,
    /// The parts behind these, the first of which is not there.
    parts: &'a str,
}

/// The first part of the name.
fn first_part(name: &str) -> &str
    ensures { result.now ≡ first_of name.now }
{
    match name.split_once('.') {
        Some((first, _)) => first,
        None => name,
    }
}

/// Puts the number under the part and the node. A refused call changes nothing.
fn put(
    alloc: Global,
    nodes: &mut BTreeMap<String, BTreeMap<usize, usize>>,
    node: usize,
    part: &str,
    child: usize,
) -> Result<(), NoMemory>
    ensures put { OnOk result ((n : ℕ) (p : ListOf ℕ) →
        node_in n (get_by_text nodes.new p) ≡ (if is_edge node part.now n p then Some child else node_in n (get_by_text nodes.old p))) }
    ensures unchanged { OnErr result ((n : ℕ) (p : ListOf ℕ) → node_in n (get_by_text nodes.new p) ≡ node_in n (get_by_text nodes.old p)) }
{
    if let Some(below) = nodes.get_mut(part) {
        below.insert(node, child)?;
        return Ok(());
    }
    let mut below = BTreeMap::new(alloc);
    below.insert(node, child)?;
    let key = String::from_str(alloc, part)?;
    nodes.insert(key, below)?;
    Ok(())
}

impl PackageNames {
    /// No package; takes no memory.
    pub fn new(alloc: Global) -> PackageNames
        ensures none { (name : ListOf ℕ) → is_there name result ≡ false }
        ensures sound { IsSound result }
    {
        PackageNames {
            nodes: BTreeMap::new(alloc),
            count: 1,
        }
    }

    /// The node of the part below the node.
    fn child(&self, node: usize, part: &str) -> Option<usize>
        ensures { result ≡ child_of self.now node part.now }
    {
        match self.nodes.get(part) {
            Some(nodes) => nodes.get(&node).copied(),
            None => None,
        }
    }

    /// What of the name is not there, if it is not there as a whole; takes no memory.
    pub fn missing<'a>(&self, name: &'a str) -> Option<Missing<'a>>
        ensures { IsMissing self.now name.now result }
    {
        let mut node = 0;
        let mut parts = name;
        while let Some((part, behind)) = parts.split_once('.') {
            let Some(child) = self.child(node, part) else {
                return Some(Missing { node, parts });
            };
            node = child;
            parts = behind;
        }
        if self.child(node, parts).is_none() {
            return Some(Missing { node, parts });
        }
        None
    }

    /// Whether the name is there: a package, or what the name of one begins with; takes no memory.
    pub fn contains(&self, name: &str) -> bool
        ensures { result ≡ is_there name.now self.now }
    {
        self.missing(name).is_none()
    }

    /// Puts a node of the part below the node. A refused call changes nothing.
    fn add_child(&mut self, alloc: Global, node: usize, part: &str) -> Result<usize, NoMemory>
        ensures added { IfOk result (λ child. HasChild node part.now child self.old self.new) }
        ensures unchanged { OnErr result (HasSameNodes self.old self.new) }
    {
        let child = self.count;
        let Some(count) = child.checked_add(1) else {
            return Err(NoMemory);
        };
        put(alloc, &mut self.nodes, node, part, child)?;
        self.count = count;
        Ok(child)
    }

    /// Adds the parts below the node, one below the other. Where memory runs out, some of them are added.
    fn add_parts(&mut self, alloc: Global, node: usize, parts: &str) -> Result<(), NoMemory>
        ensures added { OnOk result ((name : ListOf ℕ) → IsSound self.old
            → IsMissing self.old name (Some (record { node = node; parts = parts.entry })) → HasAdded name self.old self.new) }
        ensures sound { IsSound self.old → node < self.old.count → IsSound self.new }
        ensures alike { AreAlikeBut (record { node = node; parts = parts.entry }) self.old self.new }
    {
        let mut below = node;
        let mut rest = parts;
        while let Some((part, behind)) = rest.split_once('.') {
            below = self.add_child(alloc, below, part)?;
            rest = behind;
        }
        self.add_child(alloc, below, rest)?;
        Ok(())
    }

    /// Adds the name of which this is missing. Where memory runs out, some of it is added. The only error is want of memory.
    pub fn add(&mut self, alloc: Global, missing: Missing<'_>) -> Result<(), NoMemory>
        ensures added { OnOk result ((name : ListOf ℕ) → IsSound self.old → IsMissing self.old name (Some missing.entry) → HasAdded name self.old self.new) }
        ensures sound { IsSound self.old → missing.entry.node < self.old.count → IsSound self.new }
        ensures alike { AreAlikeBut missing.entry self.old self.new }
    {
        self.add_parts(alloc, missing.node, missing.parts)
    }

    /// Adds the name. Where memory runs out, some of it is added. The only error is want of memory.
    pub fn add_name(&mut self, alloc: Global, name: &str) -> Result<(), NoMemory>
        ensures { OnOk result (IsSound self.old → HasAdded name.now self.old self.new × IsSound self.new) }
    {
        match self.missing(name) {
            Some(missing) => self.add(alloc, missing),
            None => Ok(()),
        }
    }

    /// Takes what was added of the name of which this was missing out.
    pub fn forget(&mut self, missing: Missing<'_>)
        ensures { IsWithout missing.entry.node (first_of missing.entry.parts.now) self.old self.new }
    {
        let part = first_part(missing.parts);
        if let Some(nodes) = self.nodes.get_mut(part) {
            nodes.remove(&missing.node);
        }
    }
}
