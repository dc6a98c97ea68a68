//! Weighted sums.

ghost use Rattle.std.specs.Prelude.{◌≡◌, ◌<◌, ◌≤◌, length};
ghost use Rattle.std.specs.List.{All};
ghost use Rattle.helix_base.specs.Weights.{weighted_sum};

use std::marker::Model;

/// Weights below 1,000, at most 64 of them, that contracts see as their list.
#[derive(Debug, Drop)]
pub struct WeightTable<const N: usize> {
    weights: [u32; N],
}

impl<const N: usize> Model for WeightTable<N> {
    ghost use Rattle.std.specs.Prelude.{List, ℕ, ◌<◌, ◌≤◌};
    ghost use Rattle.std.specs.List.{All};

    ghost Value = { List ℕ };

    ghost view = { λ table. table.weights };

    ghost invariant = { λ table. All (λ weight. weight < 1000) table.weights × (N ≤ 64) };
}

impl<const N: usize> WeightTable<N> {
    /// The table of these weights.
    pub fn new(weights: [u32; N]) -> WeightTable<N>
        requires small { All (λ weight. weight < 1000) weights }
        requires few { N ≤ 64 }
        ensures { result ≡ weights.entry }
    {
        WeightTable { weights }
    }

    /// The products of the weights and the values, added.
    pub fn sum(&self, values: &[u32; N]) -> u64
        requires { All (λ value. value < 1000) values.now }
        ensures { result ≡ weighted_sum self.now values.now }
    {
        weighted_sum(self.weights.as_slice(), values.as_slice())
    }
}

/// The products of the weights and the values at their places, added.
fn weighted_sum(weights: &[u32], values: &[u32]) -> u64
    requires few { length weights.now ≤ 64 }
    requires as_many { length values.now ≡ length weights.now }
    requires small_weights { All (λ weight. weight < 1000) weights.now }
    requires small_values { All (λ value. value < 1000) values.now }
    ensures { result ≡ weighted_sum weights.now values.now }
{
    let mut sum = 0;
    for (i, weight) in weights.iter().enumerate() {
        sum += u64::from(*weight) * u64::from(values[i]);
    }
    sum
}
