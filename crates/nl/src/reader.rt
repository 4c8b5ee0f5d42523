// The one reading of a model file, from left to right up to the first wrong word.
ghost use Rattle.std.specs.Prelude.{◌≡◌, ◌+◌, ◌<◌, length, None};
ghost use Rattle.nl.specs.Kinds.{number_of, mark_number, part_number, part_names, named_by};
ghost use Rattle.nl.specs.Reader.{word_ok, read_head, read_expr, is_mark, read_parts, read_last, read_end, read_file};
ghost use Rattle.nl.specs.Finder.{refusal_of};

use crate::kind::{Kind, Mark, PartKind};
use base::{Reason, Refusal};

// How deep expressions nest; a leaf is 1.
pub const DEPTH_LIMIT: u32 = 8;

// A model file but for its constants' values: the words, and how many constants and columns there are.
#[derive(Clone, Copy, Debug)]
pub struct ModelFile<'a> {
    pub words: &'a [u32],
    pub constants: usize,
    pub columns: usize,
}

// Where reading goes on, and the number of the next constant; at first both are 0.
#[derive(Clone, Copy, Debug, Default, PartialEq, Eq)]
pub struct Cursor {
    pub at: usize,
    pub next: usize,
}

// The first wrong word.
#[derive(Clone, Copy, Debug, PartialEq, Eq)]
pub struct WrongWord {
    pub place: usize,
}

impl From<WrongWord> for Refusal {
    ghost from_gives = { λ word refusal. refusal ≡ refusal_of word };

    fn from(word: WrongWord) -> Refusal {
        Refusal {
            reason: Reason::Model,
            place: word.place,
        }
    }
}

// What a word says that may stand in an expression: its kind, how many operands follow it, and the number of the next constant.
#[derive(Clone, Copy, Debug, PartialEq, Eq)]
pub struct Head {
    pub kind: Kind,
    pub operands: usize,
    pub next: usize,
}

// Where a part's expression starts and ends.
#[derive(Clone, Copy, Debug, PartialEq, Eq)]
pub struct Span {
    pub start: usize,
    pub end: usize,
}

// How many parts were read, where they end, and the expression of the part that was asked for, if it is there.
#[derive(Clone, Copy, Debug, PartialEq, Eq)]
pub struct Parts {
    pub count: usize,
    pub end: Cursor,
    pub span: Option<Span>,
}

// The shared parts and the rows of a file that passes reading.
#[derive(Clone, Copy, Debug, PartialEq, Eq)]
pub struct FileParts {
    pub shared: Parts,
    pub rows: Parts,
}

// Where an expression stands: its file, and how many shared parts it may name, the lowest. (They stay the same down the recursion.)
#[derive(Clone, Copy, Debug)]
struct Scope<'a> {
    file: ModelFile<'a>,
    named: usize,
}

impl Scope<'_> {
    // Reads the expression there, of at most `depth` levels: its word, then as many expressions as it has operands.
    fn read_expr(&self, from: Cursor, depth: u32) -> Result<Cursor, WrongWord>
        ensures { let file = self.now.file in
            result ≡ read_expr file.words.now file.constants file.columns self.now.named depth from.at from.next }
    {
        let wrong = WrongWord { place: from.at };
        if depth == 0 {
            return Err(wrong);
        }
        let head = self.file.read_head(from, self.named).ok_or(wrong)?;
        let mut here = Cursor {
            next: head.next,
            ..self.file.past(from)
        };
        for _ in 0..head.operands {
            here = self.read_expr(here, depth - 1)?;
        }
        Ok(here)
    }
}

// How many shared parts part i may name, of parts that begin with words of that kind: any number, since `read_run` takes any.
#[tactic(auto, unfolding(crate::specs::Kinds::named_by))]
fn named_by(kind: u32, shared: usize, i: usize) -> usize
    ensures { result ≡ named_by kind shared i }
{
    if kind == Mark::Shared.number() {
        i
    } else {
        shared
    }
}

impl ModelFile<'_> {
    // Past the word there. The addition wraps only at a place where no file has a word, so no word is asked for.
    pub fn past(&self, from: Cursor) -> Cursor
        ensures { from.at < length self.now.words.now → result ≡ record { at = from.at + 1; next = from.next } }
    {
        Cursor {
            at: from.at.wrapping_add(1),
            ..from
        }
    }

    // Whether a word of that kind and load may stand in an expression where `next` is the number of the next constant.
    #[tactic(auto, unfolding(crate::specs::Reader::word_ok))]
    fn word_ok(&self, kind: Kind, load: usize, next: usize, named: usize) -> bool
        ensures { let file = self.now in
            result ≡ word_ok file.constants file.columns named next (number_of kind) load }
    {
        match kind {
            Kind::Constant => load == next && next < self.constants,
            Kind::Column => load < self.columns,
            Kind::Shared => load < named,
            Kind::Sum => 2 <= load,
            _ => load == 0,
        }
    }

    // Reads the one word there, where the lowest `named` shared parts may be named.
    #[tactic(auto, unfolding(crate::specs::Reader::read_head), using(crate::proofs::Steps::no_kind, crate::proofs::Steps::next_fits, crate::proofs::Steps::kind_of_number))]
    pub fn read_head(&self, from: Cursor, named: usize) -> Option<Head>
        ensures { let file = self.now in
            result ≡ read_head file.words.now file.constants file.columns named from.at from.next }
    {
        let word = *self.words.get(from.at)?;
        let kind = Kind::try_from(base::kind_of(word)).ok()?;
        let load = base::load_of(word) as usize;
        if !self.word_ok(kind, load, from.next, named) {
            return None;
        }
        Some(Head {
            kind,
            operands: kind.operands(load),
            next: from.next + kind.uses(),
        })
    }

    // Whether the word of that kind and load stands at `at`. It takes any number for a kind.
    #[tactic(auto, unfolding(crate::specs::Reader::is_mark))]
    pub fn is_word(&self, kind: u32, load: usize, at: usize) -> bool
        ensures { result ≡ is_mark self.now.words.now kind load at }
    {
        self.words.get(at).is_some_and(|word| {
            base::kind_of(*word) == kind && base::load_of(*word) as usize == load
        })
    }

    // Whether that mark with that load stands there.
    pub fn is_mark(&self, mark: Mark, load: usize, at: usize) -> bool
        ensures { result ≡ is_mark self.now.words.now (mark_number mark) load at }
    {
        self.is_word(mark.number(), load, at)
    }

    // Reads the parts that begin with words of that kind from there on, numbered from 0, and keeps where the expression of part r stands.
    // It takes any number for a kind.
    pub fn read_run(
        &self,
        from: Cursor,
        kind: u32,
        shared: usize,
        r: usize,
    ) -> Result<Parts, WrongWord>
        ensures { let file = self.now in
            result ≡ read_parts file.words.now file.constants file.columns (named_by kind shared)
            kind r (length file.words.now) 0 from.at from.next None }
    {
        let mut count = 0;
        let mut end = from;
        let mut span = None;
        // A `for` over a range would need a second exit, at the first word that begins no such part.
        while self.is_word(kind, count, end.at) {
            let named = named_by(kind, shared, count);
            let scope = Scope { file: *self, named };
            let start = self.past(end);
            end = scope.read_expr(start, DEPTH_LIMIT)?;
            if count == r {
                span = Some(Span {
                    start: start.at,
                    end: end.at,
                });
            }
            count += 1;
        }
        Ok(Parts { count, end, span })
    }

    // Reads the shared parts, or the rows, in the same way.
    #[tactic(auto, unfolding(crate::specs::Kinds::named_by))]
    pub fn read_parts(&self, from: Cursor, kind: PartKind, r: usize) -> Result<Parts, WrongWord>
        ensures { let file = self.now in
            result ≡ read_parts file.words.now file.constants file.columns (part_names kind)
            (part_number kind) r (length file.words.now) 0 from.at from.next None }
    {
        match kind {
            PartKind::Shared => self.read_run(from, Mark::Shared.number(), 0, r),
            PartKind::Row { shared } => self.read_run(from, Mark::Row.number(), shared, r),
        }
    }

    // Reads the end word: all constants are used, and no word follows.
    #[tactic(auto, unfolding(crate::specs::Reader::read_last), using(crate::proofs::PartSteps::mark_inside))]
    pub fn read_last(&self, from: Cursor) -> Result<Cursor, WrongWord>
        ensures { let file = self.now in
            result ≡ read_last file.words.now file.constants from.at from.next }
    {
        if !self.is_mark(Mark::End, 0, from.at) || from.next != self.constants {
            return Err(WrongWord { place: from.at });
        }
        let end = self.past(from);
        if end.at != self.words.len() {
            return Err(WrongWord { place: end.at });
        }
        Ok(end)
    }

    // Reads the objective and the end word.
    #[tactic(auto, unfolding(crate::specs::Reader::read_end), using(crate::proofs::PartSteps::mark_inside))]
    pub fn read_end(&self, from: Cursor, shared: usize) -> Result<Cursor, WrongWord>
        ensures { let file = self.now in
            result ≡ read_end file.words.now file.constants file.columns shared from.at from.next }
    {
        if !self.is_mark(Mark::Objective, 0, from.at) {
            return Err(WrongWord { place: from.at });
        }
        let scope = Scope {
            file: *self,
            named: shared,
        };
        let objective = scope.read_expr(self.past(from), DEPTH_LIMIT)?;
        self.read_last(objective)
    }

    // Reads the whole file, and keeps where the expressions of shared part r and of row r stand.
    #[tactic(auto, unfolding(crate::specs::Reader::read_file, crate::specs::Reader::read_after))]
    pub fn read(&self, r: usize) -> Result<FileParts, WrongWord>
        ensures { let file = self.now in
            result ≡ read_file file.words.now file.constants file.columns r }
    {
        let shared = self.read_parts(Cursor::default(), PartKind::Shared, r)?;
        let kind = PartKind::Row {
            shared: shared.count,
        };
        let rows = self.read_parts(shared.end, kind, r)?;
        self.read_end(rows.end, shared.count)?;
        Ok(FileParts { shared, rows })
    }
}
