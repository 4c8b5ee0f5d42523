// The value of an expression of a model file at a point: read under the reading rules and worked out in one go, left to right.
//
// A slice of shared values is as long as the number of shared parts that may be named, and the point as long as the number of columns, so
// that one comparison is both the reading rule and the bound of the read. Most operands are a constant, a column, a shared part or the
// product of two such: these are tried first, without a call of their own.
#![tactic(auto)]

ghost use Rattle.std.specs.Prelude.{◌≡◌, ◌≤◌, ◌<◌, cond, ◌&&◌, ℕ, suc, eqb, length, MatchOption};
ghost use Rattle.nl.specs.Kinds.{number_of};
ghost use Rattle.nl.specs.File.{depth_limit};
ghost use Rattle.expression.specs.Value.{step, applied, inside, argument_ok};
ghost use Rattle.expression.specs.internal.Scan.{IsNumber, Finds, LeafScans, Scans, as_scanned};

use nl::{Cursor, DEPTH_LIMIT, Kind, ModelFile, WrongWord};

// One operand more of a sum, a difference or a product.
#[tactic(auto, unfolding(crate::specs::Value::step))]
fn step(kind: Kind, a: f64, b: f64) -> f64
    ensures { result ≡ step (number_of kind) a b }
{
    match kind {
        Kind::Subtract => a - b,
        Kind::Multiply => a * b,
        _ => a + b,
    }
}

// Neither non-finite nor outside -4,096 to 4,096.
#[tactic(auto, unfolding(crate::specs::Value::inside))]
fn inside(a: f64) -> bool
    ensures { result ≡ inside a }
{
    (-4096.0..=4096.0).contains(&a)
}

// An expression's value, whether 14 spares it, and where it ends.
#[derive(Clone, Copy, Debug)]
pub struct Scanned {
    pub value: f64,
    pub in_range: bool,
    pub end: Cursor,
}

impl Scanned {
    // Operand i, gathered with those before it: the first is taken as it is. With the first read before a loop over the others, row values
    // take twice as long.
    fn gather(self, kind: Kind, i: usize, operand: Scanned) -> Scanned
        ensures { result ≡ record {
          value = cond (eqb i 0) operand.value (step (number_of kind) self.value operand.value);
          in_range = self.in_range && operand.in_range;
          end = operand.end;
        } }
    {
        let value = if i == 0 {
            operand.value
        } else {
            step(kind, self.value, operand.value)
        };
        Scanned {
            value,
            in_range: self.in_range & operand.in_range,
            end: operand.end,
        }
    }

    // An expression of that kind, whose operands are gathered: 14 asks of the argument of a cosine or sine that it is inside.
    #[tactic(auto, unfolding(crate::specs::Value::applied, crate::specs::Value::argument_ok))]
    fn finish(self, kind: Kind) -> Scanned
        ensures { result ≡ record {
          value = applied (number_of kind) self.value;
          in_range = self.in_range && argument_ok (number_of kind) self.value;
          end = self.end;
        } }
    {
        let a = self.value;
        let (value, inside) = match kind {
            Kind::Square => (a * a, true),
            Kind::Cosine => (fdlibm::cos(a), inside(a)),
            Kind::Sine => (fdlibm::sin(a), inside(a)),
            _ => (a, true),
        };
        Scanned {
            value,
            in_range: self.in_range & inside,
            end: self.end,
        }
    }
}

// The value of a constant, a column, a shared part or a product of two such, which 14 spares, and where it ends. With a `Scanned` in its
// place, which is copied with the padding behind `in_range`, rows of one column take five times as long.
#[derive(Clone, Copy, Debug)]
struct Number {
    value: f64,
    end: Cursor,
}

impl Number {
    // A list's number, of an expression that ends there.
    fn listed(numbers: &[f64], load: usize, end: Cursor) -> Option<Number>
        ensures { MatchOption result (length numbers.now ≤ load) (λ n. IsNumber numbers.now load end n) }
    {
        Some(Number {
            value: *numbers.get(load)?,
            end,
        })
    }

    // As the value of an expression: 14 spares it.
    fn scanned(self) -> Scanned
        ensures { result ≡ as_scanned self }
    {
        Scanned {
            value: self.value,
            in_range: true,
            end: self.end,
        }
    }
}

// What expressions are worked out from: the file's words and its constants' values, the point, which has a number for each column, and the
// values of the shared parts that may be named.
#[derive(Clone, Copy, Debug)]
pub struct Evaluation<'a> {
    pub words: &'a [u32],
    pub constants: &'a [f64],
    pub point: &'a [f64],
    pub shared: &'a [f64],
}

impl<'a> Evaluation<'a> {
    // The file without its constants' values.
    pub fn file(&self) -> ModelFile<'a>
        ensures { let e = self.now in
            (result.words.now ≡ e.words.now) × (result.constants ≡ length e.constants.now)
            × (result.columns ≡ length e.point.now) }
    {
        ModelFile {
            words: self.words,
            constants: self.constants.len(),
            columns: self.point.len(),
        }
    }

    // The constant, column or shared part there.
    fn leaf(&self, from: Cursor) -> Option<Number>
        ensures { let e = self.now in
            LeafScans e.words.now e.constants.now e.point.now e.shared.now from.at from.next result }
    {
        let word = *self.words.get(from.at)?;
        let load = base::load_of(word) as usize;
        // By number, since a `match` on the kind takes 4 to 5 percent longer. The place behind the word stands in each arm: before them it
        // costs a long sum 12 percent more instructions.
        let kind = base::kind_of(word);
        if kind == Kind::Column.number() {
            let at = from.at + 1;
            return Number::listed(self.point, load, Cursor { at, ..from });
        }
        if kind == Kind::Shared.number() {
            let at = from.at + 1;
            return Number::listed(self.shared, load, Cursor { at, ..from });
        }
        if kind == Kind::Constant.number() && load == from.next {
            let at = from.at + 1;
            let next = load + 1;
            return Number::listed(self.constants, load, Cursor { at, next });
        }
        None
    }

    // The product of two such there.
    fn product(&self, from: Cursor) -> Option<Number>
        ensures { let e = self.now in
            (d : ℕ) → Finds e.words.now e.constants.now e.point.now e.shared.now (suc (suc d)) from.at from.next result }
    {
        let file = self.file();
        if !file.is_word(Kind::Multiply.number(), 0, from.at) {
            return None;
        }
        let a = self.leaf(file.past(from))?;
        let b = self.leaf(a.end)?;
        Some(Number {
            value: a.value * b.value,
            end: b.end,
        })
    }

    // Either of these, where so many levels are left, of which there is one at least.
    fn shallow(&self, from: Cursor, depth: u32) -> Option<Number>
        requires { 0 < depth }
        ensures { let e = self.now in
            Finds e.words.now e.constants.now e.point.now e.shared.now depth from.at from.next result }
    {
        if let Some(leaf) = self.leaf(from) {
            return Some(leaf);
        }
        if depth == 1 {
            return None;
        }
        self.product(from)
    }

    // Reads and works out the expression there, of at most `depth` levels: its word, then its operands in order.
    fn scan_expr(&self, from: Cursor, depth: u32) -> Result<Scanned, WrongWord>
        ensures { let e = self.now in
            Scans e.words.now e.constants.now e.point.now e.shared.now depth from.at from.next result }
    {
        let wrong = WrongWord { place: from.at };
        if depth == 0 {
            return Err(wrong);
        }
        let file = self.file();
        let head = file.read_head(from, self.shared.len()).ok_or(wrong)?;
        if head.operands == 0 {
            let leaf = self.leaf(from).ok_or(wrong)?;
            return Ok(leaf.scanned());
        }
        let first = file.past(from);
        if depth == 1 {
            // No level is left for its operands: asked here, the loop need not ask it at each.
            return Err(WrongWord { place: first.at });
        }
        let mut gathered = Scanned {
            value: 0.0,
            in_range: true,
            end: Cursor {
                next: head.next,
                ..first
            },
        };
        // Gathered in either arm, so that a number's `in_range` is not asked. A `match`, since a `?` would copy the operand whole.
        for i in 0..head.operands {
            gathered = match self.shallow(gathered.end, depth - 1) {
                Some(number) => gathered.gather(head.kind, i, number.scanned()),
                None => match self.scan_expr(gathered.end, depth - 1) {
                    Ok(operand) => gathered.gather(head.kind, i, operand),
                    Err(wrong) => return Err(wrong),
                },
            };
        }
        Ok(gathered.finish(head.kind))
    }

    // Reads and works out the expression of a part, whose words start there.
    pub fn scan(&self, from: Cursor) -> Result<Scanned, WrongWord>
        ensures { let e = self.now in
            Scans e.words.now e.constants.now e.point.now e.shared.now depth_limit from.at from.next result }
    {
        self.scan_expr(from, DEPTH_LIMIT)
    }
}
