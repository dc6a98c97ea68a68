//! The search in an ascending list.

ghost use Rattle.std.specs.Prelude.{ℤ, ◌≡◌, ◌↔◌, ◌<◌, ◌≤ℤ◌, length, IsTrue, IfSome, IfNone};
ghost use Rattle.std.specs.List.{Contains, HoldsAt};
ghost use Rattle.helix_grids.specs.Inner.Sieve.{AreAscending};
ghost use Rattle.helix_grids.specs.Tests.{IsLeastOf};

/// A index of a value in an ascending list, or `None` where the list doesn't have it.
pub fn index_of(values: &[i128], value: i128) -> Option<usize>
    requires { AreAscending values.now }
    ensures found { IfSome result (λ index. (index < length values.now) × HoldsAt (λ y. y ≡ value) values.now index) }
    ensures missing { IfNone result (¬ Contains values.now value) }
{
    match values.binary_search(&value) {
        Ok(index) => Some(index),
        Err(_) => None,
    }
}

/// Whether an ascending list has a value.
pub fn is_listed(values: &[i128], value: i128) -> bool
    requires { AreAscending values.now }
    ensures { IsTrue result ↔ Contains values.now value }
{
    match index_of(values, value) {
        Some(_) => true,
        None => false,
    }
}

/// The least of the ascending values that isn't below a bound.
pub fn first_from(values: &[i128], bound: i128) -> Option<i128>
    requires { AreAscending values.now }
    ensures { IsLeastOf (λ v. Contains values.now v × (bound ≤ℤ v)) result }
{
    match values.binary_search(&bound) {
        Ok(_) => Some(bound),
        Err(index) => values.get(index).copied(),
    }
}
