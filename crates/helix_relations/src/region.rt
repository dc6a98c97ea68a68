//! A region.

ghost use Rattle.std.specs.Prelude.{◌≡◌, ◌<◌, ◌++◌, ◌∷◌, [], length, false, IfOk, OnOk, OnErr};
ghost use Rattle.std.specs.List.{All};
ghost use Rattle.std.specs.List.Sorted.{IsStrictlyIncreasing};
ghost use Rattle.helix_profile.specs.Forest.{IsForest};
ghost use Rattle.helix_domains.specs.Domain.{IsAtomFor};
ghost use Rattle.helix_relations.specs.Change.{opened, opened_fields, HasField, changed, without_null, with_null_alone, with_atom, with_domain, IsNarrower, with_relation};
ghost use Rattle.helix_relations.specs.Inner.Parts.{field_of, fields_of, IsAlone, IsIndexOf, IsNotBefore};
ghost use Rattle.helix_relations.specs.Region.{IsRegion, FieldNumbered, JoinsFields, relations_of};

use crate::neighbours::neighbours_of;
use crate::part::{Part, PartNode};
use crate::signed::SignedRelation;
use helix_base::{List, Memory};
use helix_domains::Domain;
use helix_profile::{Atom, Field, Profile, Relation};
use helix_search::{Level, Node};
use std::alloc::Global;
use std::marker::Model;

/// Fields of a profile, each with the cells that it can have, and signed relations between them. Contracts see the
/// fields in the order of their numbers, the relations in the order in which they came, and how many questions were
/// asked.
#[derive(Drop)]
pub struct Region {
    pub(crate) nodes: Vec<PartNode>,
    pub(crate) relations: List<SignedRelation>,
    pub(crate) levels: Vec<Level>,
    pub(crate) asked: u64,
}

impl Model for Region {
    ghost use Rattle.helix_relations.specs.Region.{RegionContent};
    ghost use Rattle.helix_relations.specs.RegionCode.{region_code};
    ghost use Rattle.helix_relations.specs.Inner.Kept.{IsKept};
    ghost use Rattle.helix_relations.specs.Inner.Parts.{fields_of};

    ghost Value = { RegionContent };

    ghost coded = { region_code };

    ghost view = { λ region. record {
      fields = fields_of region.nodes.items;
      relations = region.relations;
      asked = region.asked;
    } };

    ghost invariant = { λ region. IsKept region.nodes.items region.relations region.levels.items region.asked };
}

impl Region {
    /// The region of the fields with these numbers, with all cells of each and without relations. Fields are numbered
    /// from 0.
    pub fn open(alloc: Global, profile: &Profile, fields: &[u32]) -> Result<Region, Memory>
        requires ascending { IsStrictlyIncreasing fields.now }
        requires fields { All (λ number. number < length profile.now.fields) fields.now }
        ensures { IfOk result (λ region. region ≡ opened profile.now fields.now) }
    {
        Ok(Region {
            nodes: open_parts(alloc, profile.fields(), fields)?,
            relations: List::new(alloc),
            levels: Vec::new(alloc),
            asked: 0,
        })
    }

    /// How many questions were asked. The count stands still at 2^64 - 1.
    pub fn asked(&self) -> u64
        ensures value { result ≡ self.now.asked }
        ensures region { IsRegion self.now }
    {
        self.asked
    }

    /// Forbids null at a field.
    pub fn forbid_null(&mut self, number: u32)
        requires { HasField self.old number }
        ensures { self.new ≡ changed self.old number without_null }
    {
        let index = index_of(self.nodes.as_slice(), number);
        self.nodes[index].values.no_null = true;
    }

    /// Allows only null at a field.
    pub fn only_null(&mut self, number: u32)
        requires { HasField self.old number }
        ensures { self.new ≡ changed self.old number with_null_alone }
    {
        let index = index_of(self.nodes.as_slice(), number);
        self.nodes[index].values.only_null = true;
    }

    /// Leaves the values of the atom's field that pass it or, with a false sign, fail it. On `Err` the region is as it
    /// was.
    pub fn restrict(&mut self, atom: &Atom, sign: bool) -> Result<(), Memory>
        requires { FieldNumbered self.old.fields atom.now.field
            (λ field. IsAtomFor field.field.kind (record { atom = atom.now; sign = sign })) }
        ensures ok { OnOk result (self.new
            ≡ changed self.old atom.now.field (with_atom (record { atom = atom.now; sign = sign }))) }
        ensures err { OnErr result (self.new ≡ self.old) }
    {
        let index = index_of(self.nodes.as_slice(), atom.field);
        self.nodes[index].values.domain.add(atom, sign)
    }

    /// Puts a domain of a field, which passes all atoms of it so far, in the place of its values.
    pub fn narrow(&mut self, number: u32, domain: Domain)
        requires { FieldNumbered self.old.fields number (IsNarrower domain) }
        ensures { self.new ≡ changed self.old number (with_domain domain) }
    {
        let index = index_of(self.nodes.as_slice(), number);
        self.nodes[index].values.domain = domain;
    }

    /// Adds a relation between two of its fields or, with a false sign, its negation. Null is forbidden at both. On
    /// `Err` the region is as it was.
    pub fn relate(&mut self, relation: Relation, sign: bool) -> Result<(), Memory>
        requires ends { JoinsFields self.old.fields relation }
        requires forest { IsForest (relations_of self.old.relations ++ relation ∷ []) }
        ensures ok { OnOk result
            (self.new ≡ with_relation self.old (record { relation = relation; sign = sign })) }
        ensures err { OnErr result (self.new ≡ self.old) }
    {
        let alloc = self.relations.allocator();
        let mut relations = self.relations.copy(alloc)?;
        relations.push(SignedRelation { relation, sign })?;
        let left = index_of(self.nodes.as_slice(), relation.left);
        let right = index_of(self.nodes.as_slice(), relation.right);
        let of_left = neighbours_of(alloc, self.nodes.as_slice(), relations.as_slice(), left)?;
        let of_right = neighbours_of(alloc, self.nodes.as_slice(), relations.as_slice(), right)?;
        let room = levels_for(alloc, self.nodes.as_slice().len())?;
        self.nodes[left].neighbours = of_left;
        self.nodes[right].neighbours = of_right;
        self.levels = room;
        self.relations = relations;
        Ok(())
    }
}

/// Room for so many nodes on the way.
fn levels_for(alloc: Global, count: usize) -> Result<Vec<Level>, Memory>
    ensures { IfOk result (λ levels. length levels.items ≡ count) }
{
    let mut levels = Vec::new(alloc);
    for _ in 0..count {
        levels.push(Level::new())?;
    }
    Ok(levels)
}

/// A field with all its values and without neighbours.
fn open_node(alloc: Global, number: u32, field: &Field) -> Result<PartNode, Memory>
    ensures field { IfOk result (λ node. field_of node
        ≡ record { number = number; field = field.now; no_null = false; only_null = false; atoms = [] }) }
    ensures alone { IfOk result IsAlone }
{
    Ok(Node {
        place: number as usize,
        values: Part {
            kind: field.kind,
            nullable: field.nullable,
            no_null: false,
            only_null: false,
            domain: Domain::open(alloc, field)?,
        },
        neighbours: List::new(alloc),
    })
}

/// The parts of the fields with these numbers.
fn open_parts(alloc: Global, fields: &[Field], numbers: &[u32]) -> Result<Vec<PartNode>, Memory>
    requires { All (λ number. number < length fields.now) numbers.now }
    ensures fields { IfOk result (λ nodes. fields_of nodes.items ≡ opened_fields fields.now numbers.now) }
    ensures alone { IfOk result (λ nodes. All IsAlone nodes.items) }
{
    let mut nodes = Vec::new(alloc);
    for number in numbers {
        nodes.push(open_node(alloc, *number, &fields[*number as usize])?)?;
    }
    Ok(nodes)
}

/// The index of the part of a field.
fn index_of(parts: &[PartNode], number: u32) -> usize
    requires { FieldNumbered (fields_of parts.now) number (λ field. Unit {0}) }
    ensures { IsIndexOf parts.now number result }
{
    for (index, part) in parts.iter().enumerate() {
        if part.place == number as usize {
            return index;
        }
    }
    0
}
