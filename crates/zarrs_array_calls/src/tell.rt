//! A plan written into the caller's buffers.
ghost use Rattle.std.specs.Prelude.{◌≡◌, ◌≤◌, length, nat_le, ◌&&◌};
ghost use Rattle.zarrs_array_bytes.specs.Update.{with_items_at};
ghost use Rattle.zarrs_array_calls.specs.CrossedPlans.{lists_in, plan_lists, plan_sizes, ToldChunks};

use crate::crossed::CrossedPlan;
use crate::sizes::PlanSizes;

/// All is done.
pub(crate) const DONE: u32 = 0;

/// A buffer is too short: the numbers of items that are needed are returned, and nothing else.
const SHORT: u32 = 1;

/// Writes bytes in front of the buffer.
fn write_bytes(out: &mut [u8], bytes: &[u8])
    requires inside { length bytes.now ≤ length out.old }
    ensures written { out.new ≡ with_items_at out.old 0 bytes.now }
{
    out[..bytes.len()].copy_from_slice(bytes);
}

/// Writes numbers in front of the buffer.
fn write_numbers(out: &mut [u64], numbers: &[u64])
    requires inside { length numbers.now ≤ length out.old }
    ensures written { out.new ≡ with_items_at out.old 0 numbers.now }
{
    out[..numbers.len()].copy_from_slice(numbers);
}

/// How many items a plan has.
fn sizes_of(plan: &CrossedPlan) -> PlanSizes
    ensures value { result ≡ plan_sizes (lists_in plan.now) }
{
    PlanSizes {
        chunks: plan.offsets.len().saturating_sub(1),
        keys: plan.keys.len(),
        offsets: plan.offsets.len(),
        numbers: plan.numbers.len(),
    }
}

/// Whether so many items fit into buffers of so many.
fn fit(sizes: &PlanSizes, keys: usize, offsets: usize, numbers: usize) -> bool
    ensures value { result ≡ (nat_le sizes.now.keys keys && nat_le sizes.now.offsets offsets
        && nat_le sizes.now.numbers numbers) }
{
    sizes.keys <= keys && sizes.offsets <= offsets && sizes.numbers <= numbers
}

/// Writes a plan into the caller's buffers, each list at the front of its own, and to `needed` how many
/// items each has; where a buffer is too short, `needed` alone.
pub(crate) fn tell_plan(
    plan: &CrossedPlan,
    keys: &mut [u8],
    offsets: &mut [u64],
    numbers: &mut [u64],
    needed: &mut PlanSizes,
) -> u32
    // Wide: a caller's three buffers, before and after.
    ensures told { ToldChunks (lists_in plan.now) result
        (plan_lists keys.old offsets.old numbers.old) (plan_lists keys.new offsets.new numbers.new)
        needed.new }
{
    *needed = sizes_of(plan);
    if !fit(needed, keys.len(), offsets.len(), numbers.len()) {
        return SHORT;
    }
    write_bytes(keys, plan.keys.as_slice());
    write_numbers(offsets, plan.offsets.as_slice());
    write_numbers(numbers, plan.numbers.as_slice());
    DONE
}
