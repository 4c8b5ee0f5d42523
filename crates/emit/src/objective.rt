// The objective: under header 1 a term for each generator, its epigraph column or its quadratic cost, else the constant 0.
ghost use Rattle.std.specs.Prelude.{[], ◌∷◌, ◌<◌, ◌≤◌, IfSome};
ghost use Rattle.base.specs.Loop.{each};
ghost use Rattle.base.specs.Word.{word};
ghost use Rattle.float.specs.Number.{◌⊗◌, half64};
ghost use Rattle.writer.specs.internal.Tokens.{fixed, Written, Room, list_tokens};
ghost use Rattle.emit.specs.internal.Objective.{cost_of, term_of, cost_tokens, sum_head, cost_count, objective_tokens};

use network::{Generator, Tables};
use nl::{Kind, Mark};
use writer::{ModelWriter, WordKind};

// The beginning of a sum of so many terms: none is a constant 0, one is its term.
fn objective_head(writer: &mut ModelWriter, terms: usize)
    requires few { terms ≤ 256 }
    requires room { Room writer.old (fixed (word 12 0) ∷ sum_head terms) }
    ensures { Written writer.old (fixed (word 12 0) ∷ sum_head terms) writer.new }
{
    let objective = Mark::Objective.word(0);
    match terms {
        0 => writer.put(
            &[objective, Kind::Constant.word(writer.constant)],
            &[0.0],
            0,
        ),
        1 => writer.put(&[objective], &[], 0),
        _ => writer.put(&[objective, Kind::Sum.word(terms)], &[], 0),
    }
}

// Half of q times pg squared, plus c times pg.
fn quadratic_cost(writer: &mut ModelWriter, pg: usize, half: f64, linear: f64)
    requires pg { pg < 4096 }
    requires room { Room writer.old (list_tokens (cost_of pg half linear ∷ [])) }
    ensures { Written writer.old (list_tokens (cost_of pg half linear ∷ [])) writer.new }
{
    let constant = writer.constant;
    let own = Kind::Column.word(pg);
    writer.put(
        &[
            Kind::Sum.word(2),
            Kind::Multiply.word(0),
            Kind::Constant.word(constant),
            Kind::Square.word(0),
            own,
            Kind::Multiply.word(0),
            Kind::Constant.word(constant + 1),
            own,
        ],
        &[half, linear],
        0,
    );
}

// The generator's epigraph column, or its quadratic cost without the constant.
fn cost_term(writer: &mut ModelWriter, pg: usize, generator: &Generator)
    requires pg { pg < 4096 }
    requires epigraph { IfSome generator.now.epigraph (λ epigraph. epigraph < 4096) }
    requires room { let g = generator.now in
        Room writer.old (list_tokens (term_of g.epigraph (cost_of pg (half64 ⊗ g.cost_q) g.cost_c) ∷ [])) }
    ensures { let g = generator.now in
        Written writer.old (list_tokens (term_of g.epigraph (cost_of pg (half64 ⊗ g.cost_q) g.cost_c) ∷ [])) writer.new }
{
    match generator.epigraph {
        Some(epigraph) => writer.put(&[Kind::Column.word(epigraph)], &[], 0),
        None => quadratic_cost(writer, pg, 0.5 * generator.cost_q, generator.cost_c),
    }
}

fn cost_terms(writer: &mut ModelWriter, tables: &Tables)
    requires { Room writer.old
        (each tables.now.layout.generators (cost_tokens tables.now.words.now tables.now.numbers.now)) }
    ensures { Written writer.old
        (each tables.now.layout.generators (cost_tokens tables.now.words.now tables.now.numbers.now))
        writer.new }
{
    let n = tables.layout.buses;
    for (g, generator) in tables.generators() {
        cost_term(writer, 2 * n + g, &generator);
    }
}

pub(crate) fn objective(writer: &mut ModelWriter, tables: &Tables)
    requires { let layout = tables.now.layout in
        Room writer.old (objective_tokens tables.now.words.now tables.now.numbers.now (cost_count layout.costs layout.generators)) }
    ensures { let layout = tables.now.layout in
        Written writer.old
        (objective_tokens tables.now.words.now tables.now.numbers.now (cost_count layout.costs layout.generators))
        writer.new }
{
    if tables.layout.costs {
        objective_head(writer, tables.layout.generators);
        cost_terms(writer, tables);
    } else {
        objective_head(writer, 0);
    }
}
