// The three column lists, each into the front part of a lent list, whose rest stays as it was.
ghost use Rattle.std.specs.Prelude.{◌≡◌, ◌++◌, ◌≤◌, length, drop};
ghost use Rattle.network.specs.Network.{columns};
ghost use Rattle.acopf.specs.Columns.{column_lower, column_upper, column_start};

use crate::sections::{bus_section, epigraph_section, generator_section};
use acopf::{Case, generator_start, lower_bound, upper_bound, vm_lower, vm_upper};
use base::ListWriter;
use bounds::{clamp_start, finite_or};
use network::Tables;

pub fn write_column_lower(case: &Case, out: &mut [f64])
    requires { columns case.now.tables.words.now ≤ length out.old }
    ensures { let all = column_lower case.now.tables.words.now case.now.tables.numbers.now in
        out.new ≡ all ++ drop (length all) out.old }
{
    let tables = &case.tables;
    let mut columns = ListWriter { out, at: 0 };
    columns.fill(tables.layout.buses, -1e19);
    // A closure, since no function of another crate can be passed by its name.
    bus_section(&mut columns, tables, |bus| vm_lower(bus));
    generator_section(&mut columns, tables, |g| lower_bound(g.bounded, g.p_min));
    generator_section(&mut columns, tables, |g| lower_bound(g.bounded, g.q_min));
    columns.fill(case.tallies.epigraphs, -1e19);
}

// Apart from the lower bounds: a function for both would take three closures, and read less like its definition than the two do.
pub fn write_column_upper(case: &Case, out: &mut [f64])
    requires { columns case.now.tables.words.now ≤ length out.old }
    ensures { let all = column_upper case.now.tables.words.now case.now.tables.numbers.now in
        out.new ≡ all ++ drop (length all) out.old }
{
    let tables = &case.tables;
    let mut columns = ListWriter { out, at: 0 };
    columns.fill(tables.layout.buses, 1e19);
    bus_section(&mut columns, tables, |bus| vm_upper(bus));
    generator_section(&mut columns, tables, |g| upper_bound(g.bounded, g.p_max));
    generator_section(&mut columns, tables, |g| upper_bound(g.bounded, g.q_max));
    columns.fill(case.tallies.epigraphs, 1e19);
}

// The starts of vm, pg and qg are clamped to their bounds; those of va are not.
pub fn write_column_start(tables: &Tables, out: &mut [f64])
    requires { columns tables.now.words.now ≤ length out.old }
    ensures { let all = column_start tables.now.words.now tables.now.numbers.now in
        out.new ≡ all ++ drop (length all) out.old }
{
    let mut columns = ListWriter { out, at: 0 };
    bus_section(&mut columns, tables, |bus| finite_or(bus.va, 0.0));
    bus_section(
        &mut columns,
        tables,
        |bus| clamp_start(bus.vm, vm_lower(bus), vm_upper(bus)),
    );
    generator_section(
        &mut columns,
        tables,
        |g| generator_start(g.bounded, g.pg, g.p_min, g.p_max),
    );
    generator_section(
        &mut columns,
        tables,
        |g| generator_start(g.bounded, g.qg, g.q_min, g.q_max),
    );
    epigraph_section(&mut columns, tables);
}
