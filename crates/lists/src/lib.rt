// Lists of numbers, lent or scratch: the front copied, the first number that is not finite, and refusal 13.
#![tactic(auto)]

ghost use Rattle.std.specs.Prelude.{ℕ, ◌≡◌, ◌++◌, ◌+◌, ◌<◌, ◌≤◌, length, take, drop, IfSome};
ghost use Rattle.base.specs.Fault.{fault_of, fault_at};
ghost use Rattle.base.specs.Refusal.{number_of};
ghost use Rattle.lists.specs.Finite.{point_fault};
ghost use Rattle.lists.specs.internal.From.{non_finite_from};

use base::{Reason, Refusal, unless, unless_found};

// Where the first of the list's numbers stands that is not finite.
pub fn non_finite(list: &[f64]) -> Option<usize>
    ensures first { (number from : ℕ) → 0 < number → fault_at number from result ≡ non_finite_from number from list.now }
    ensures place { IfSome result (λ i. i < length list.now) }
{
    list.iter().position(|x| !float::is_finite(*x))
}

// The refusal of such a number, whose place is counted from `from` on.
pub fn first_non_finite(list: &[f64], reason: Reason, from: usize) -> Result<(), Refusal>
    requires { from + length list.now < 0xffff_ffff_ffff_ffff }
    ensures { fault_of result ≡ non_finite_from (number_of reason) from list.now }
{
    unless_found(non_finite(list), reason, from)
}

// 13, where there are so many columns.
pub fn point_fault(point: &[f64], columns: usize) -> Result<(), Refusal>
    ensures { fault_of result ≡ point_fault point.now columns }
{
    unless(point.len() == columns, Reason::Point, columns)?;
    first_non_finite(point, Reason::Point, 0)
}

// Writes the list over the front of another. Not by `copy_from_slice`, which calls the C library's memmove: an archive for C needs its
// memcpy and memset alone.
pub fn copy_front(list: &[f64], to: &mut [f64])
    requires { length list.now ≤ length to.old }
    ensures { to.new ≡ list.now ++ drop (length list.now) to.old }
{
    for i in 0..list.len() {
        to[i] = list[i];
    }
}
