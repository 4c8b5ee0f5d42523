// The sections of a column list.
ghost use Rattle.std.specs.Prelude.{◌≡◌, ◌+◌, ◌≤◌, length, Float};
ghost use Rattle.base.specs.Loop.{table, each, keep};
ghost use Rattle.base.specs.internal.Section.{Added, Ends};
ghost use Rattle.network.specs.declared.records.Bus.{Bus};
ghost use Rattle.network.specs.declared.records.Generator.{Generator};
ghost use Rattle.network.specs.Network.{curved, epigraphs_before};
ghost use Rattle.network.specs.internal.Records.{bus_record, generator_record};
ghost use Rattle.acopf.specs.Columns.{epigraph_start};

use acopf::epigraph_start;
use base::ListWriter;
use network::{Bus, Generator, Tables};

// The value of each bus.
pub(crate) fn bus_section<F: Fn(Bus) -> f64>(out: &mut ListWriter<f64>, tables: &Tables, value: F)
    requires callable { F.IsAlwaysCallable value }
    requires room { out.old.at + tables.now.layout.buses ≤ length out.old.out.now }
    ensures section { let ws = tables.now.words.now in let xs = tables.now.numbers.now in
        (f : Bus → Float) → ((bus : Bus) (v : Float) → F.post value bus v → v ≡ f bus)
        → Added out.old (table tables.now.layout.buses (λ i. f (bus_record ws xs i))) out.new }
    ensures next { Ends out.old tables.now.layout.buses out.new }
{
    for i in 0..tables.layout.buses {
        out.push(value(tables.bus(i)));
    }
}

// The value of each generator. Buses are read by their number, generators one after the other, so that one function for both would need
// a contract on what an iterator yields.
pub(crate) fn generator_section<F: Fn(Generator) -> f64>(
    out: &mut ListWriter<f64>,
    tables: &Tables,
    value: F,
)
    requires callable { F.IsAlwaysCallable value }
    requires room { out.old.at + tables.now.layout.generators ≤ length out.old.out.now }
    ensures section { let ws = tables.now.words.now in let xs = tables.now.numbers.now in
        (f : Generator → Float) → ((generator : Generator) (v : Float) → F.post value generator v → v ≡ f generator)
        → Added out.old (table tables.now.layout.generators (λ g. f (generator_record ws xs g))) out.new }
    ensures next { Ends out.old tables.now.layout.generators out.new }
{
    for (_, generator) in tables.generators() {
        out.push(value(generator));
    }
}

// The start of each epigraph.
pub(crate) fn epigraph_section(out: &mut ListWriter<f64>, tables: &Tables)
    requires { out.old.at + epigraphs_before tables.now.words.now tables.now.layout.generators ≤ length out.old.out.now }
    ensures { let ws = tables.now.words.now in let xs = tables.now.numbers.now in
        let starts = each tables.now.layout.generators (λ g. keep (curved ws g) (epigraph_start ws xs g)) in
        Added out.old starts out.new }
{
    for (_, generator) in tables.generators() {
        if generator.curved() {
            out.push(epigraph_start(tables.numbers, generator));
        }
    }
}
