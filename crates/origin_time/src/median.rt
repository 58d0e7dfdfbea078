//! The least weighted median.
ghost use Rattle.std.specs.Prelude.{◌≡◌, ◌↔◌, ◌*◌, ◌+◌, ◌<◌, ◌≤◌, length, take, IfOk, IsErrOf};
ghost use Rattle.std.specs.List.Sorted.{IsPermutation, IsSortedByKey};
ghost use Rattle.std.specs.Ordering.{int_cmp};
ghost use Rattle.origin_time.specs.OriginTime.{IsOriginTime};
ghost use Rattle.origin_time.specs.Weights.{total_weight};

use std::alloc::{AllocError, Global};
use thiserror::Error;

/// Why there is no origin time.
#[derive(Clone, Copy, Debug, PartialEq, Eq, Error)]
pub enum OriginError {
    /// The weights add to 0.
    #[error("no weight")]
    NoWeight,
    /// Memory ran out.
    #[error("out of memory")]
    Memory,
}

/// The least whole number that makes the sum of weight times distance least, over items of a time and a weight. With times of origin in
/// microseconds and the weights of picks it is the origin time, in microseconds.
///
/// Refuses with `NoWeight` exactly where the weights add to 0, no items among them, and then with `Memory`.
pub fn origin(alloc: Global, items: &[(i64, u32)]) -> Result<i64, OriginError>
    ensures value { IfOk result (IsOriginTime items.now) }
    ensures no_weight { IsErrOf result OriginError.NoWeight ↔ (total_weight items.now ≡ 0) }
{
    let total = weight_of_all(items);
    if total == 0 {
        return Err(OriginError::NoWeight);
    }
    match sorted_by_time(alloc, items) {
        Ok(sorted) => Ok(middle_time(sorted.as_slice(), total)),
        Err(_) => Err(OriginError::Memory),
    }
}

// The items in the order of their times.
fn sorted_by_time(alloc: Global, items: &[(i64, u32)]) -> Result<Vec<(i64, u32)>, AllocError>
    ensures permutation { IfOk result (λ sorted. IsPermutation items.now sorted.items) }
    ensures sorted { IfOk result (λ sorted. IsSortedByKey (λ item. item.0) int_cmp sorted.items) }
{
    let mut sorted = copied(alloc, items)?;
    sorted.sort_unstable_by_key(|item| item.0);
    Ok(sorted)
}

// The items once more.
fn copied(alloc: Global, items: &[(i64, u32)]) -> Result<Vec<(i64, u32)>, AllocError>
    ensures { IfOk result (λ copy. copy.items ≡ items.now) }
{
    items.to_vec(alloc)
}

// The time of the first of sorted items up to which they have at least half of all weight.
fn middle_time(sorted: &[(i64, u32)], total: u128) -> i64
    requires sorted { IsSortedByKey (λ item. item.0) int_cmp sorted.now }
    requires all { total ≡ total_weight sorted.now }
    requires some { 0 < total }
    ensures { IsOriginTime sorted.now result }
{
    sorted[half_place(sorted, total)].0
}

// The sum of all weights.
fn weight_of_all(items: &[(i64, u32)]) -> u128
    ensures { result ≡ total_weight items.now }
{
    let mut total: u128 = 0;
    for item in items {
        total += u128::from(item.1);
    }
    total
}

// The first place up to which the items have at least half of all weight.
fn half_place(items: &[(i64, u32)], total: u128) -> usize
    requires all { total ≡ total_weight items.now }
    requires some { 0 < total }
    ensures place { result < length items.now }
    ensures before { 2 * total_weight (take result items.now) < total }
    ensures upto { total ≤ 2 * total_weight (take (result + 1) items.now) }
{
    let mut place = 0;
    let mut weight = u128::from(items[0].1);
    while weight < total - weight {
        place += 1;
        weight += u128::from(items[place].1);
    }
    place
}
