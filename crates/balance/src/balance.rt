// The balance rows: a bus's demand, shunt, generators, then branches, from before to.
ghost use Rattle.std.specs.Prelude.{◌≡◌, [], ◌∷◌, ℕ, ◌+◌, ◌<◌, ◌≤◌, length, get_or};
ghost use Rattle.std.specs.Float.Ieee.{neg};
ghost use Rattle.base.specs.Loop.{each};
ghost use Rattle.float.specs.Number.{one64};
ghost use Rattle.nl.specs.Expr.{shared};
ghost use Rattle.network.specs.Limits.{most_buses};
ghost use Rattle.acopf.specs.Build.{scaled};
ghost use Rattle.writer.specs.internal.Tokens.{Written, Room, list_tokens};
ghost use Rattle.balance.specs.internal.Items.{most_items};
ghost use Rattle.balance.specs.internal.Balance.{row_of, row_head, flow_at, item_tokens, row_tokens, balance_of, balances_of};

use crate::group::Groups;
use crate::item::{Item, MOST_ITEMS, Side};
use network::{MOST_BUSES, Tables};
use nl::{Kind, Mark};
use writer::{ModelWriter, WordKind};

// Which of a bus's two balances.
#[derive(Clone, Copy, Debug, PartialEq, Eq)]
pub enum Power {
    Active,
    Reactive,
}

// A balance row but for its items, of which the first `generators` are generators: `column` is the first generator's, `part` the first
// branch's flow at its from end. That these are small stands in clauses: definitions and laws make rows of any numbers, and a ghost field
// would ask each of them for its proof.
#[derive(Clone, Copy, Debug, PartialEq)]
pub struct Row {
    pub bus: usize,
    pub demand: f64,
    pub shunt: f64,
    pub generators: usize,
    pub column: usize,
    pub part: usize,
}

// Of p_d, g_s, the pg columns, p_from and p_to, or of q_d, b_s, the qg columns, q_from and q_to.
fn row_of(tables: &Tables, power: Power, i: usize) -> Row
    requires { i < tables.now.layout.buses }
    ensures { result ≡ row_of tables.now.words.now tables.now.numbers.now tables.now.layout power i }
{
    let bus = tables.bus(i);
    let n = tables.layout.buses;
    let generators = tables.layout.generators;
    match power {
        Power::Active => Row {
            bus: i,
            demand: -bus.p_d,
            shunt: -bus.g_s,
            generators,
            column: 2 * n,
            part: n + 4,
        },
        Power::Reactive => Row {
            bus: i,
            demand: -bus.q_d,
            shunt: bus.b_s,
            generators,
            column: 2 * n + generators,
            part: n + 5,
        },
    }
}

// The row's beginning, and its first two terms.
fn row_head(writer: &mut ModelWriter, row: Row, terms: usize)
    requires small { (terms < 65536) × (row.bus < 65536) }
    requires room { Room writer.old (row_head row terms) }
    ensures { Written writer.old (row_head row terms) writer.new }
{
    let constant = writer.constant;
    writer.put(
        &[
            Mark::Row.word(writer.part),
            Kind::Sum.word(terms),
            Kind::Constant.word(constant),
            Kind::Multiply.word(0),
            Kind::Constant.word(constant + 1),
            Kind::Shared.word(row.bus),
        ],
        &[row.demand, row.shunt],
        1,
    );
}

// A branch end's flow times -1.
fn end_term(writer: &mut ModelWriter, part: usize)
    requires part { part < 65536 }
    requires room { Room writer.old (list_tokens (scaled (neg one64) (shared part) ∷ [])) }
    ensures { Written writer.old (list_tokens (scaled (neg one64) (shared part) ∷ [])) writer.new }
{
    writer.put(
        &[
            Kind::Multiply.word(0),
            Kind::Constant.word(writer.constant),
            Kind::Shared.word(part),
        ],
        &[-1.0],
        0,
    );
}

// Of a branch's eight parts the flow at its to end comes two after the one at its from end.
fn flow_at(side: Side) -> usize
    ensures { result ≡ flow_at side }
{
    match side {
        Side::From => 0,
        Side::To => 2,
    }
}

// The term of item j: a generator's column, or a branch end's flow.
fn item_term(writer: &mut ModelWriter, row: Row, j: usize)
    requires small { (j < most_items) × (row.column ≤ 1024) × (row.part ≤ 261) }
    requires room { Room writer.old (item_tokens row j) }
    ensures { Written writer.old (item_tokens row j) writer.new }
{
    match Item::numbered(row.generators, j) {
        Item::Generator(g) => writer.put(&[Kind::Column.word(row.column + g)], &[], 0),
        Item::BranchEnd(b, side) => end_term(writer, row.part + 8 * b + flow_at(side)),
    }
}

// The sum's own word says how many terms follow. Inlined, as balance_rows, which is called twice: the writer's places then stay in
// registers.
#[inline(always)]
fn balance_row(writer: &mut ModelWriter, row: Row, items: &[u16])
    requires small { (row.bus < most_buses) × (row.column ≤ 1024) × (row.part ≤ 261) }
    requires few { length items.now ≤ most_items }
    requires below { (s : ℕ) → s < length items.now → get_or items.now s 0 < most_items }
    requires room { Room writer.old (row_tokens row items.now) }
    ensures { Written writer.old (row_tokens row items.now) writer.new }
{
    row_head(writer, row, 2 + items.len());
    for item in items {
        item_term(writer, row, *item as usize);
    }
}

#[inline(always)]
fn balance_rows(writer: &mut ModelWriter, groups: &Groups, power: Power)
    requires { let tables = groups.now.tables.now in
        Room writer.old (each tables.layout.buses (balance_of tables.words.now tables.numbers.now power)) }
    ensures { let tables = groups.now.tables.now in
        Written writer.old (each tables.layout.buses (balance_of tables.words.now tables.numbers.now power)) writer.new }
{
    let tables = groups.tables;
    for i in 0..tables.layout.buses {
        let row = row_of(tables, power, i);
        balance_row(writer, row, groups.at(i));
    }
}

// The p balances, then the q balances, over the same groups.
pub fn balances(writer: &mut ModelWriter, tables: &Tables)
    requires { Room writer.old (balances_of tables.now.words.now tables.now.numbers.now tables.now.layout.buses) }
    ensures { Written writer.old
        (balances_of tables.now.words.now tables.now.numbers.now tables.now.layout.buses)
        writer.new }
{
    let mut items = [0u16; MOST_ITEMS];
    let mut ends = [0u16; MOST_BUSES];
    let ends = &mut ends[..tables.layout.buses];
    let groups = Groups::new(tables, ends, &mut items);
    balance_rows(writer, &groups, Power::Active);
    balance_rows(writer, &groups, Power::Reactive);
}
