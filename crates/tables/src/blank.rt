// Refusal 4, blank: the first required number that is not finite.
ghost use Rattle.std.specs.Prelude.{◌≡◌, ◌+◌, ◌-◌, ◌*◌, ◌≤◌, length};
ghost use Rattle.base.specs.Fault.{fault_of, or_else, first};
ghost use Rattle.network.specs.Limits.{generator_numbers, point_numbers};
ghost use Rattle.network.specs.Network.{points, bus_at, generator_at, curve_at, branch_at};
ghost use Rattle.tables.specs.Fault.{blanks, fault_blank};

use base::{Reason, Refusal};
use lists::first_non_finite;
use network::{Generator, POINT_NUMBERS, Tables};

// `count` numbers from `at` on.
fn blanks(numbers: &[f64], at: usize, count: usize) -> Result<(), Refusal>
    requires { at + count ≤ length numbers.now }
    ensures { fault_of result ≡ blanks numbers.now at count }
{
    first_non_finite(&numbers[at..at + count], Reason::Blank, at)
}

// p_d, q_d, g_s and b_s of each bus.
fn blank_buses(tables: &Tables) -> Result<(), Refusal>
    ensures { fault_of result ≡ first tables.now.layout.buses (λ i. blanks tables.now.numbers.now (bus_at tables.now.words.now i) 4) }
{
    for i in 0..tables.layout.buses {
        blanks(tables.numbers, tables.bus_start(i), 4)?;
    }
    Ok(())
}

// q, c, c0 and the curve of a generator.
// piecewise_cost's Curve is not below this crate, and would be taken apart again: the numbers are looked at from a place on, which the
// refusal names. So q's place is counted from the generator's first number, and q, c and c0 are not taken from the record.
fn blank_generator(numbers: &[f64], generator: Generator) -> Result<(), Refusal>
    requires { (generator_numbers ≤ generator.curve) × (generator.curve + point_numbers * generator.points ≤ length numbers.now) }
    ensures { fault_of result ≡ or_else (blanks numbers.now (generator.curve - generator_numbers + 4) 3)
        (blanks numbers.now generator.curve (point_numbers * generator.points)) }
{
    blanks(numbers, generator.start() + 4, 3)?;
    blanks(numbers, generator.curve, POINT_NUMBERS * generator.points)
}

fn blank_generators(tables: &Tables) -> Result<(), Refusal>
    ensures { let ws = tables.now.words.now in let xs = tables.now.numbers.now in
        fault_of result ≡ first tables.now.layout.generators (λ g.
        or_else (blanks xs (generator_at ws g + 4) 3) (blanks xs (curve_at ws g) (point_numbers * points ws g))) }
{
    for (_, generator) in tables.generators() {
        blank_generator(tables.numbers, generator)?;
    }
    Ok(())
}

// g to shift of each branch.
fn blank_branches(tables: &Tables) -> Result<(), Refusal>
    ensures { fault_of result ≡ first tables.now.layout.branches (λ b. blanks tables.now.numbers.now (branch_at tables.now.words.now b) 8) }
{
    for b in 0..tables.layout.branches {
        blanks(tables.numbers, tables.branch_start(b), 8)?;
    }
    Ok(())
}

pub(crate) fn blank_fault(tables: &Tables) -> Result<(), Refusal>
    ensures { fault_of result ≡ fault_blank tables.now.words.now tables.now.numbers.now }
{
    blank_buses(tables)?;
    blank_generators(tables)?;
    blank_branches(tables)
}
