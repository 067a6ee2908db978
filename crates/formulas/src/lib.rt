// Trees of rule texts, formulas and their interval meaning: definitions and laws, and the numbers that trees are
// written with.
#![tactic(auto)]

// The kinds of records that a tree is written as, in the order of their numbers (specs/Arena.antt).
#[derive(Clone, Copy, PartialEq, Eq)]
pub enum RecordKind {
    Constant,
    Signal,
    Not,
    And,
    Or,
    Begin,
    End,
    Point,
    Held,
    Kept,
    Len,
    Sum,
    Age,
    // The three records of a `lag`: after its P, after its Q, and the last.
    Run,
    Fine,
    Always,
    // Between the two parts of a `then`.
    LeadEnd,
    Then,
    Velocity,
    // A whole rule: no tree's record has this kind.
    Whole,
    Chop,
    Exists,
}

// What a record compares a count with.
pub const LITERAL: u32 = 0;

pub const PARAMETER: u32 = 1;
