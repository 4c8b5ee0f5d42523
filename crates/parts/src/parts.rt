// The shared parts: vm squared per bus, then eight per branch, by branch_flow's terms.
ghost use Rattle.std.specs.Prelude.{◌≡◌, [], ◌∷◌, ◌+◌, ◌<◌, ◌≤◌, length};
ghost use Rattle.base.specs.Loop.{each};
ghost use Rattle.writer.specs.internal.Tokens.{Written, Room, part_tokens};
ghost use Rattle.parts.specs.internal.Parts.{square_tokens, angle_parts, product_parts, voltage_parts};
ghost use Rattle.parts.specs.internal.Parts.{flow_sum, flow_parts, branch_tokens, shared_tokens};

use network::Tables;
use nl::{Kind, Mark};
use pi_model::coefficients;
use writer::{ModelWriter, WordKind};

fn square_part(writer: &mut ModelWriter, vm: usize)
    requires vm { vm < 4096 }
    requires room { Room writer.old (square_tokens vm) }
    ensures { Written writer.old (square_tokens vm) writer.new }
{
    writer.put(
        &[
            Mark::Shared.word(writer.part),
            Kind::Square.word(0),
            Kind::Column.word(vm),
        ],
        &[],
        1,
    );
}

// Of n buses; their vm columns follow the va columns.
fn vm_squared(writer: &mut ModelWriter, n: usize)
    requires few { n ≤ 256 }
    requires room { Room writer.old (each n (λ i. square_tokens (n + i))) }
    ensures { Written writer.old (each n (λ i. square_tokens (n + i))) writer.new }
{
    for i in 0..n {
        square_part(writer, n + i);
    }
}

// Angle and voltage product of a branch.
fn angle_parts(writer: &mut ModelWriter, n: usize, from: usize, to: usize)
    requires buses { (n ≤ 256) × (from < 4096) × (to < 4096) }
    requires room { Room writer.old (part_tokens 10 (angle_parts n from to)) }
    ensures { Written writer.old (part_tokens 10 (angle_parts n from to)) writer.new }
{
    let part = writer.part;
    writer.put(
        &[
            Mark::Shared.word(part),
            Kind::Subtract.word(0),
            Kind::Column.word(from),
            Kind::Column.word(to),
            Mark::Shared.word(part + 1),
            Kind::Multiply.word(0),
            Kind::Column.word(n + from),
            Kind::Column.word(n + to),
        ],
        &[],
        2,
    );
}

// wr and wi of a branch, of whose eight parts the first has the number `first`. Parts are named by their number, here and in balance and emit,
// as the definitions name them (`branch_part b j`): methods for the eight would repeat those names for one use of each.
fn product_parts(writer: &mut ModelWriter, first: usize)
    requires first { first ≤ 65536 }
    requires room { Room writer.old (part_tokens 10 (product_parts first)) }
    ensures { Written writer.old (part_tokens 10 (product_parts first)) writer.new }
{
    let part = writer.part;
    let angle = Kind::Shared.word(first);
    let product = Kind::Shared.word(first + 1);
    writer.put(
        &[
            Mark::Shared.word(part),
            Kind::Multiply.word(0),
            product,
            Kind::Cosine.word(0),
            angle,
            Mark::Shared.word(part + 1),
            Kind::Multiply.word(0),
            product,
            Kind::Sine.word(0),
            angle,
        ],
        &[],
        2,
    );
}

fn voltage_parts(writer: &mut ModelWriter, n: usize, first: usize, from: usize, to: usize)
    requires buses { (n ≤ 256) × (from < 4096) × (to < 4096) }
    requires first { first ≤ 65536 }
    requires room { Room writer.old (part_tokens 10 (voltage_parts n first from to)) }
    ensures { Written writer.old (part_tokens 10 (voltage_parts n first from to)) writer.new }
{
    angle_parts(writer, n, from, to);
    product_parts(writer, first);
}

// A flow at the bus, by the coefficients of its vm squared, wr and wi. Inlined, as flow_parts, since each is called twice: the writer's
// places then stay in registers.
#[inline(always)]
fn flow_part(writer: &mut ModelWriter, first: usize, bus: usize, coefficients: &[f64])
    requires first { (first ≤ 65536) × (bus < 4096) }
    requires three { length coefficients.now ≡ 3 }
    requires room { Room writer.old (part_tokens 10 (flow_sum first bus coefficients.now 0 ∷ [])) }
    ensures { Written writer.old (part_tokens 10 (flow_sum first bus coefficients.now 0 ∷ [])) writer.new }
{
    let constant = writer.constant;
    writer.put(
        &[
            Mark::Shared.word(writer.part),
            Kind::Sum.word(3),
            Kind::Multiply.word(0),
            Kind::Constant.word(constant),
            Kind::Shared.word(bus),
            Kind::Multiply.word(0),
            Kind::Constant.word(constant + 1),
            Kind::Shared.word(first + 2),
            Kind::Multiply.word(0),
            Kind::Constant.word(constant + 2),
            Kind::Shared.word(first + 3),
        ],
        coefficients,
        1,
    );
}

// p and q at one end.
#[inline(always)]
fn flow_parts(writer: &mut ModelWriter, first: usize, bus: usize, coefficients: &[f64])
    requires first { (first ≤ 65536) × (bus < 4096) }
    requires six { length coefficients.now ≡ 6 }
    requires room { Room writer.old (part_tokens 10 (flow_parts first bus coefficients.now 0)) }
    ensures { Written writer.old (part_tokens 10 (flow_parts first bus coefficients.now 0)) writer.new }
{
    flow_part(writer, first, bus, &coefficients[..3]);
    flow_part(writer, first, bus, &coefficients[3..]);
}

// Of branch b.
fn branch_flow(writer: &mut ModelWriter, tables: &Tables, b: usize)
    requires branch { b < tables.now.layout.branches }
    requires room { Room writer.old (branch_tokens tables.now.words.now tables.now.numbers.now b) }
    ensures { Written writer.old (branch_tokens tables.now.words.now tables.now.numbers.now b) writer.new }
{
    let n = tables.layout.buses;
    let first = n + 8 * b;
    let branch = tables.branch(b);
    let cs = coefficients(branch);
    voltage_parts(writer, n, first, branch.from, branch.to);
    flow_parts(writer, first, branch.from, &cs[..6]);
    flow_parts(writer, first, branch.to, &cs[6..]);
}

fn branch_flows(writer: &mut ModelWriter, tables: &Tables)
    requires { Room writer.old (each tables.now.layout.branches (branch_tokens tables.now.words.now tables.now.numbers.now)) }
    ensures { Written writer.old
        (each tables.now.layout.branches (branch_tokens tables.now.words.now tables.now.numbers.now))
        writer.new }
{
    for b in 0..tables.layout.branches {
        branch_flow(writer, tables, b);
    }
}

pub fn shared_parts(writer: &mut ModelWriter, tables: &Tables)
    requires { let layout = tables.now.layout in
        Room writer.old (shared_tokens tables.now.words.now tables.now.numbers.now layout.buses layout.branches) }
    ensures { let layout = tables.now.layout in
        Written writer.old
        (shared_tokens tables.now.words.now tables.now.numbers.now layout.buses layout.branches)
        writer.new }
{
    vm_squared(writer, tables.layout.buses);
    branch_flows(writer, tables);
}
