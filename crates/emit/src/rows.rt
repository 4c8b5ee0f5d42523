// The rows of references, active angle differences and thermal limits.
ghost use Rattle.std.specs.Prelude.{[], ◌∷◌, ◌<◌, true};
ghost use Rattle.base.specs.Loop.{each};
ghost use Rattle.nl.specs.Expr.{column};
ghost use Rattle.acopf.specs.Build.{subtract};
ghost use Rattle.writer.specs.internal.Tokens.{Written, Room, part_tokens};
ghost use Rattle.emit.specs.internal.Rows.{reference_tokens, angle_tokens, thermal_of, thermal_pair, thermal_tokens};

use network::Tables;
use nl::{Kind, Mark};
use writer::{ModelWriter, WordKind};

fn reference_row(writer: &mut ModelWriter, va: usize)
    requires va { va < 4096 }
    requires room { Room writer.old (part_tokens 11 (column va ∷ [])) }
    ensures { Written writer.old (part_tokens 11 (column va ∷ [])) writer.new }
{
    writer.put(
        &[Mark::Row.word(writer.part), Kind::Column.word(va)],
        &[],
        1,
    );
}

pub(crate) fn reference_rows(writer: &mut ModelWriter, tables: &Tables)
    requires { Room writer.old (each tables.now.layout.references (reference_tokens tables.now.words.now)) }
    ensures { Written writer.old
        (each tables.now.layout.references (reference_tokens tables.now.words.now))
        writer.new }
{
    for r in 0..tables.layout.references {
        reference_row(writer, tables.reference(r));
    }
}

fn angle_row(writer: &mut ModelWriter, from: usize, to: usize)
    requires buses { (from < 4096) × (to < 4096) }
    requires room { Room writer.old (part_tokens 11 (subtract (column from) (column to) ∷ [])) }
    ensures { Written writer.old (part_tokens 11 (subtract (column from) (column to) ∷ [])) writer.new }
{
    writer.put(
        &[
            Mark::Row.word(writer.part),
            Kind::Subtract.word(0),
            Kind::Column.word(from),
            Kind::Column.word(to),
        ],
        &[],
        1,
    );
}

pub(crate) fn angle_rows(writer: &mut ModelWriter, tables: &Tables)
    requires { Room writer.old (each tables.now.layout.branches (angle_tokens tables.now.words.now)) }
    ensures { Written writer.old
        (each tables.now.layout.branches (angle_tokens tables.now.words.now))
        writer.new }
{
    for b in 0..tables.layout.branches {
        let branch = tables.branch(b);
        if branch.angled {
            angle_row(writer, branch.from, branch.to);
        }
    }
}

// s_max squared, less p squared plus q squared.
fn thermal_row(writer: &mut ModelWriter, square: f64, p: usize, q: usize)
    requires parts { (p < 65536) × (q < 65536) }
    requires room { Room writer.old (part_tokens 11 (thermal_of p q square ∷ [])) }
    ensures { Written writer.old (part_tokens 11 (thermal_of p q square ∷ [])) writer.new }
{
    writer.put(
        &[
            Mark::Row.word(writer.part),
            Kind::Subtract.word(0),
            Kind::Constant.word(writer.constant),
            Kind::Add.word(0),
            Kind::Square.word(0),
            Kind::Shared.word(p),
            Kind::Square.word(0),
            Kind::Shared.word(q),
        ],
        &[square],
        1,
    );
}

// At from, then at to, of a branch whose eight parts start with the part `first`.
fn thermal_pair(writer: &mut ModelWriter, first: usize, square: f64)
    requires first { first < 65000 }
    requires room { Room writer.old (part_tokens 11 (thermal_pair true first square)) }
    ensures { Written writer.old (part_tokens 11 (thermal_pair true first square)) writer.new }
{
    thermal_row(writer, square, first + 4, first + 5);
    thermal_row(writer, square, first + 6, first + 7);
}

pub(crate) fn thermal_rows(writer: &mut ModelWriter, tables: &Tables)
    requires { Room writer.old
        (each tables.now.layout.branches (thermal_tokens tables.now.words.now tables.now.numbers.now tables.now.layout.buses)) }
    ensures { Written writer.old
        (each tables.now.layout.branches (thermal_tokens tables.now.words.now tables.now.numbers.now tables.now.layout.buses))
        writer.new }
{
    for b in 0..tables.layout.branches {
        let branch = tables.branch(b);
        if branch.rated() {
            thermal_pair(
                writer,
                tables.layout.buses + 8 * b,
                branch.s_max * branch.s_max,
            );
        }
    }
}
