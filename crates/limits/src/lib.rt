// The numbers of the specification that several crates name, each in this one place. specs/Limits.antt has the same
// numbers, with their clauses.
#![tactic(auto)]

ghost use Rattle.std.specs.Prelude.{◌≡◌};
ghost use Rattle.limits.specs.Context.{standard_context};

use std::fmt;

// The bytes that a rule text can have.
pub const TEXT: usize = 2048;

// The words that a rule text can have.
pub const WORDS: usize = 240;

// The records of a tree: at most one for each word. Each is four numbers.
pub const RECORDS: usize = WORDS;

pub const ARENA: usize = 4 * RECORDS;

// How many signals, truth values, comparisons, literals and parameters there are.
pub const SIGNALS: u32 = 64;

pub const TRUTHS: u32 = 2;

pub const COMPARISONS: u32 = 5;

pub const LITERALS: u32 = 1000000;

pub const PARAMETERS: usize = 8;

// How many velocities a stroke can have (SPEC 1.1). The definitions take any number, and this is the one of the
// specification.
pub const VELOCITIES: u32 = 128;

// The highest literal, and the highest number of a card.
pub const LAST_LITERAL: u32 = LITERALS - 1;

// The highest count (SPEC 5.2). The definitions of a step take any cap, and this is the one of the specification.
pub const CAP: u32 = 1000000;

// The equations that a table can have.
pub const EQUATIONS: usize = 4096;

// The equations that the table of a rule can have (SPEC 12.6). Packing keeps small buffers for such tables.
pub const RULE_EQUATIONS: usize = 619;

// The numbers that a table lent for a result needs: four for each equation.
pub const TABLE: usize = 4 * EQUATIONS;

// The bytes that a line of a card can have, its byte 10 included.
pub const LINE: usize = 4096;

// What a text is read in, and the tick lines and steps of a card go by: how many velocities there are.
#[derive(Clone, Copy)]
pub struct Context {
    pub velocities: u32,
}

// The context of the specification.
pub fn standard() -> Context
    ensures { result ≡ standard_context }
{
    Context {
        velocities: VELOCITIES,
    }
}

// Why a call is refused (SPEC 7.1 to SPEC 7.19), in the order of the numbers that C and cards are given.
#[derive(Clone, Copy, PartialEq, Eq)]
pub enum Refusal {
    // SPEC 7.1: the rule text is empty or too long.
    TextSize = 1,
    // SPEC 7.2: no word begins at a byte, or a run is none.
    BadWord,
    // SPEC 7.3: a word's number is above its range.
    NumberTooHigh,
    // SPEC 7.4: there are too many words.
    TooManyWords,
    // SPEC 7.5: too many brackets are open, or there are too many of the counted words.
    OverLimits,
    // SPEC 7.6: the words are no F.
    NoRule,
    // SPEC 7.7: `chop` or `exists` is among the words.
    BeyondFragment,
    // SPEC 7.8: the left part of some `then` is no lead.
    NoLead,
    // SPEC 7.9: the table that is lent for a result is too short.
    ShortTable,
    // SPEC 7.10: there are no equations, too many, or more than the table has.
    EquationCount,
    // SPEC 7.11: an equation breaks a rule of its kind, or one of the last two is a count.
    BadEquation,
    // SPEC 7.12: the state, or the values, have too few places.
    ShortState,
    // SPEC 7.13: a parameter is above the last literal.
    ParameterTooHigh,
    // SPEC 7.14: a memory's cell is outside the range of its sort.
    CellOutOfRange,
    // SPEC 7.15: the buffer that is lent for a text is too short.
    ShortText,
    // SPEC 7.16: the bytes are the Lustre text of no table.
    NoTable,
    // SPEC 7.17: one of a card's four first lines is broken.
    BadHead,
    // SPEC 7.18: a tick line of a card is broken.
    BadTick,
    // SPEC 7.19: the velocity of a tick is above the last.
    VelocityTooHigh,
}

// SPEC 1.4: the number of a refusal.
impl From<Refusal> for u32 {
    ghost use Rattle.limits.specs.Refusal.{number};

    ghost from_gives = { λ r n. n ≡ number r };

    fn from(refusal: Refusal) -> u32 {
        refusal as u32
    }
}

impl fmt::Display for Refusal {
    fn fmt<W: fmt::Write>(&self, f: &mut fmt::Formatter<W>) -> fmt::Result {
        write!(f, "{}", u32::from(*self))
    }
}
