// The rows of curve segments.
ghost use Rattle.std.specs.Prelude.{[], ◌∷◌, ◌-◌, ◌<◌};
ghost use Rattle.base.specs.Loop.{each};
ghost use Rattle.writer.specs.internal.Tokens.{Written, Room, part_tokens};
ghost use Rattle.emit.specs.internal.Rows.{segment_of, segment_tokens, curve_tokens};

use network::Tables;
use nl::{Kind, Mark};
use piecewise_cost::{Curve, Segment};
use writer::{ModelWriter, WordKind};

// The two columns that the rows of a curve name.
#[derive(Clone, Copy)]
struct Columns {
    epigraph: usize,
    pg: usize,
    ghost few: { (epigraph < 4096) × (pg < 4096) },
}

// The epigraph column, less slope times pg plus intercept.
fn segment_row(writer: &mut ModelWriter, columns: &Columns, segment: Segment)
    requires { Room writer.old
        (part_tokens 11 (segment_of columns.now.epigraph columns.now.pg segment.slope segment.intercept ∷ [])) }
    ensures { Written writer.old
        (part_tokens 11 (segment_of columns.now.epigraph columns.now.pg segment.slope segment.intercept ∷ []))
        writer.new }
{
    let constant = writer.constant;
    writer.put(
        &[
            Mark::Row.word(writer.part),
            Kind::Subtract.word(0),
            Kind::Column.word(columns.epigraph),
            Kind::Add.word(0),
            Kind::Multiply.word(0),
            Kind::Constant.word(constant),
            Kind::Column.word(columns.pg),
            Kind::Constant.word(constant + 1),
        ],
        &[segment.slope, segment.intercept],
        1,
    );
}

// Of all segments of a curve.
fn segment_rows(writer: &mut ModelWriter, curve: &Curve, columns: &Columns)
    requires { let rows = segment_tokens curve.now.numbers.now curve.now.at columns.now.epigraph columns.now.pg in
        Room writer.old (each (curve.now.points - 1) rows) }
    ensures { let rows = segment_tokens curve.now.numbers.now curve.now.at columns.now.epigraph columns.now.pg in
        Written writer.old (each (curve.now.points - 1) rows) writer.new }
{
    for s in 0..curve.segments() {
        segment_row(writer, columns, curve.segment(s));
    }
}

pub(crate) fn curve_rows(writer: &mut ModelWriter, tables: &Tables)
    requires { Room writer.old
        (each tables.now.layout.generators (curve_tokens tables.now.words.now tables.now.numbers.now)) }
    ensures { Written writer.old
        (each tables.now.layout.generators (curve_tokens tables.now.words.now tables.now.numbers.now))
        writer.new }
{
    let n = tables.layout.buses;
    for (g, generator) in tables.generators() {
        if let Some(epigraph) = generator.epigraph {
            let curve = Curve::new(tables.numbers, &generator);
            let columns = Columns {
                epigraph,
                pg: 2 * n + g,
            };
            segment_rows(writer, &curve, &columns);
        }
    }
}
