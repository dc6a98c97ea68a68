//! The region of a path.

ghost use Rattle.std.specs.Prelude.{◌≡◌, ◌<◌, length, IfOk, OnOk};
ghost use Rattle.std.specs.List.{All, AllByRecursion};
ghost use Rattle.std.specs.List.Sorted.{IsStrictlyIncreasing};
ghost use Rattle.helix_domains.specs.Domain.{IsAtomFor};
ghost use Rattle.helix_profile.specs.Fields.{all_relations};
ghost use Rattle.helix_relations.specs.Change.{HasField};
ghost use Rattle.helix_relations.specs.Region.{FieldNumbered};
ghost use Rattle.helix_options.specs.Literals.{IsLiteralOf};
ghost use Rattle.helix_options.specs.Inner.Narrowing.{with_atom_at, with_relation_at, narrowed, Relates, IsLiteralFor, IsRegionOf};

use helix_base::Memory;
use helix_profile::{Atom, Profile, Relation};
use helix_relations::Region;
use helix_tree::Literal;
use std::alloc::Global;

/// The region of the rows in which a path holds.
pub(crate) fn region_of(
    alloc: Global,
    profile: &Profile,
    fields: &[u32],
    path: &[Literal],
) -> Result<Region, Memory>
    requires ascending { IsStrictlyIncreasing fields.now }
    requires in_range { All (λ field. field < length profile.now.fields) fields.now }
    requires literals { AllByRecursion
        (IsLiteralOf profile.now.fields fields.now (all_relations profile.now.constraints)) path.now }
    ensures { IfOk result (IsRegionOf profile.now fields.now path.now) }
{
    // The relations of a profile form no cycle, since it is valid.
    let _valid = profile.constraints();
    let mut region = Region::open(alloc, profile, fields)?;
    for literal in path {
        narrow(&mut region, literal)?;
    }
    Ok(region)
}

/// Leaves the rows in which a literal holds.
fn narrow(region: &mut Region, literal: &Literal) -> Result<(), Memory>
    requires { IsLiteralFor region.old literal.now }
    ensures { OnOk result (region.new ≡ narrowed region.old literal.now) }
{
    match literal {
        Literal::Null(field) => {
            region.only_null(*field);
            Ok(())
        }
        Literal::NotNull(field) => {
            region.forbid_null(*field);
            Ok(())
        }
        Literal::Plain(atom, sign, strict) => restrict(region, atom, *sign, *strict),
        Literal::Joined(relation, sign, _) => relate(region, *relation, *sign),
    }
}

/// Leaves the values that pass an atom or, with a false sign, fail it; where strict, not null.
fn restrict(region: &mut Region, atom: &Atom, sign: bool, strict: bool) -> Result<(), Memory>
    requires { FieldNumbered region.old.fields atom.now.field
        (λ field. IsAtomFor field.field.kind (record { atom = atom.now; sign = sign })) }
    ensures { OnOk result (region.new ≡ with_atom_at region.old (record { atom = atom.now; sign = sign }) strict) }
{
    region.restrict(atom, sign)?;
    if strict {
        region.forbid_null(atom.field);
    }
    Ok(())
}

/// Leaves the values between which a relation or, with a false sign, its negation stands.
fn relate(region: &mut Region, relation: Relation, sign: bool) -> Result<(), Memory>
    requires { Relates region.old relation }
    ensures { OnOk result (region.new ≡ with_relation_at region.old (record { relation = relation; sign = sign })) }
{
    region.forbid_null(relation.left);
    region.forbid_null(relation.right);
    region.relate(relation, sign)
}
