// The kinds of a model file's words: those of its expressions, and the marks between them.
ghost use Rattle.std.specs.Prelude.{◌≡◌, ◌<◌, MatchResult};
ghost use Rattle.nl.specs.Kinds.{number_of, mark_number};
ghost use Rattle.nl.specs.Reader.{arity, uses};

// What a word of an expression is, in the order of the kinds' numbers from 0 on.
#[derive(Clone, Copy, Debug, PartialEq, Eq)]
pub enum Kind {
    Constant,
    Column,
    Shared,
    Add,
    Subtract,
    Multiply,
    Square,
    Cosine,
    Sine,
    Sum,
}

impl Kind {
    pub fn number(self) -> u32
        ensures { result ≡ number_of self }
    {
        self as u32
    }

    // How many operands follow a word of this kind and that load.
    #[tactic(auto, unfolding(crate::specs::Reader::arity))]
    pub(crate) fn operands(self, load: usize) -> usize
        ensures { result ≡ arity (number_of self) load }
    {
        match self {
            Kind::Constant | Kind::Column | Kind::Shared => 0,
            Kind::Add | Kind::Subtract | Kind::Multiply => 2,
            Kind::Square | Kind::Cosine | Kind::Sine => 1,
            Kind::Sum => load,
        }
    }

    // How many constants' numbers it uses up.
    #[tactic(auto, unfolding(crate::specs::Reader::uses))]
    pub(crate) fn uses(self) -> usize
        ensures { result ≡ uses (number_of self) }
    {
        match self {
            Kind::Constant => 1,
            _ => 0,
        }
    }
}

// That a number is no kind's of an expression's words.
#[derive(Clone, Copy, Debug, PartialEq, Eq)]
pub struct UnknownKind;

impl TryFrom<u32> for Kind {
    type Error = UnknownKind;

    ghost try_from_gives = { λ number result. MatchResult result (λ kind. number_of kind ≡ number) (λ _. 9 < number) };

    fn try_from(number: u32) -> Result<Kind, UnknownKind> {
        match number {
            0 => Ok(Kind::Constant),
            1 => Ok(Kind::Column),
            2 => Ok(Kind::Shared),
            3 => Ok(Kind::Add),
            4 => Ok(Kind::Subtract),
            5 => Ok(Kind::Multiply),
            6 => Ok(Kind::Square),
            7 => Ok(Kind::Cosine),
            8 => Ok(Kind::Sine),
            9 => Ok(Kind::Sum),
            _ => Err(UnknownKind),
        }
    }
}

// What begins a shared part, a row or the objective, and the end word.
#[derive(Clone, Copy, Debug, PartialEq, Eq)]
pub enum Mark {
    Shared,
    Row,
    Objective,
    End,
}

impl Mark {
    // The marks' numbers follow those of an expression's kinds.
    pub fn number(self) -> u32
        ensures { result ≡ mark_number self }
    {
        10 + self as u32
    }
}

// The parts of a file that stand one after the other: its shared parts, or the rows of a file with so many shared parts.
#[derive(Clone, Copy, Debug, PartialEq, Eq)]
pub enum PartKind {
    Shared,
    Row { shared: usize },
}
