// The nodes of the observer scheme as code (crate scheme, specs/Scheme.antt has them as definitions).
#![tactic(auto)]

ghost use Rattle.std.specs.Prelude.{◌≡◌, map, min};
ghost use Rattle.scheme.specs.Scheme.{widest, node_count, comparison_of};
ghost use Rattle.node_table.specs.Table.{scheme_node, row_places, padded_rows, node_table, kind_by};

use formulas::RecordKind;

// What a number of a row stands for: 0; the negated start flow, and the start flow; the flow of the last operand, and
// of the one before it; the flow of the signal that the record names; the flow of the next test in the table's head;
// the record's first and last number; the node's own flows.
#[derive(Clone, Copy)]
pub enum Name {
    Nought,
    Negated,
    Start,
    Last,
    Previous,
    Signal,
    Tested,
    A,
    C,
    First,
    Second,
    Third,
    Fourth,
    Fifth,
}

// How many names there are.
pub const NAMES: usize = Name::Fifth as usize + 1;

// The kind of a row's equation: always that one, or the comparison that the record asks for.
#[derive(Clone, Copy)]
pub enum RowKind {
    OfKind(u8),
    Comparison,
}

// A row: the kind of an equation, and what its three numbers stand for.
#[derive(Clone, Copy)]
pub struct Row {
    pub kind: RowKind,
    pub a: Name,
    pub b: Name,
    pub c: Name,
}

// The most rows that a node has.
const WIDEST: usize = 5;

// A node: its rows, how many operands it takes off the stack, how many tests of the table's head are its own, which
// value it puts on the stack, and which value is the negated start flow from here on. The rows stand in an array, not
// behind a reference: a table of references is writable data, and the archive for C has none (docs/FIRMWARE.md). The
// numbers are bytes, since a pass copies the table.
#[derive(Clone, Copy)]
pub struct Node {
    pub rows: [Option<Row>; WIDEST],
    pub takes: u8,
    pub tests: u8,
    pub result: Name,
    pub negated: Name,
}

// ---- the table

// A row of that kind with two operands, and with one; the comparison of a count with the record's literal or parameter.
macro_rules! two {
    ($kind:ident, $a:ident, $b:ident) => {
        Some(Row {
            kind: RowKind::OfKind(tables::Kind::$kind as u8),
            a: Name::$a,
            b: Name::$b,
            c: Name::Nought,
        })
    };
}

macro_rules! one {
    ($kind:ident, $a:ident) => {
        two!($kind, $a, Nought)
    };
}

macro_rules! comparison {
    ($a:ident) => {
        Some(Row {
            kind: RowKind::Comparison,
            a: Name::$a,
            b: Name::A,
            c: Name::C,
        })
    };
}

// The rows that `kept`, `held` and `lag` share.
const KEPT_1: Option<Row> = one!(BooleanPre, Third);

const KEPT_2: Option<Row> = two!(Or, Start, First);

const KEPT_3: Option<Row> = two!(And, Second, Last);

// The rows that `age` and `lag` share.
const RUN_1: Option<Row> = one!(CountPre, Fourth);

const RUN_2: Option<Row> = two!(If, Negated, First);

const RUN_3: Option<Row> = two!(Capped, Second, Last);

const RUN_4: Option<Row> = two!(If, Last, Third);

// The nodes. s and n are the start flow and its negation, P the last operand, m a memory.

// A constant.
const CONSTANT_NODE: Node = Node {
    rows: [one!(Constant, A), None, None, None, None],
    takes: 0,
    tests: 0,
    result: Name::First,
    negated: Name::Negated,
};

// A signal.
const SIGNAL_NODE: Node = Node {
    rows: [None; WIDEST],
    takes: 0,
    tests: 0,
    result: Name::Signal,
    negated: Name::Negated,
};

// `!`.
const NOT_NODE: Node = Node {
    rows: [one!(Not, Last), None, None, None, None],
    takes: 1,
    tests: 0,
    result: Name::First,
    negated: Name::Negated,
};

// `&`.
const AND_NODE: Node = Node {
    rows: [two!(And, Previous, Last), None, None, None, None],
    takes: 2,
    tests: 0,
    result: Name::First,
    negated: Name::Negated,
};

// `|`.
const OR_NODE: Node = Node {
    rows: [two!(Or, Previous, Last), None, None, None, None],
    takes: 2,
    tests: 0,
    result: Name::First,
    negated: Name::Negated,
};

// `begin`: v = (s and P) or (n and m), m = false -> pre v.
const BEGIN_NODE: Node = Node {
    rows: [
        one!(BooleanPre, Fourth),
        two!(And, Start, Last),
        two!(And, Negated, First),
        two!(Or, Second, Third),
        None,
    ],
    takes: 1,
    tests: 0,
    result: Name::Fourth,
    negated: Name::Negated,
};

// `end`.
const END_NODE: Node = Node {
    rows: [None; WIDEST],
    takes: 1,
    tests: 0,
    result: Name::Last,
    negated: Name::Negated,
};

// `point`: s and P.
const POINT_NODE: Node = Node {
    rows: [two!(And, Start, Last), None, None, None, None],
    takes: 1,
    tests: 0,
    result: Name::First,
    negated: Name::Negated,
};

// `held`: the rows of `kept`, and n and m.
const HELD_NODE: Node = Node {
    rows: [KEPT_1, KEPT_2, KEPT_3, two!(And, Negated, First), None],
    takes: 1,
    tests: 0,
    result: Name::Fourth,
    negated: Name::Negated,
};

// `kept`: k = s or m, m = false -> pre (k and P).
const KEPT_NODE: Node = Node {
    rows: [KEPT_1, KEPT_2, KEPT_3, None, None],
    takes: 1,
    tests: 0,
    result: Name::Second,
    negated: Name::Negated,
};

// `len`: c = if n then cap(m, n) else 0, m = 0 -> pre c.
const LEN_NODE: Node = Node {
    rows: [
        one!(CountPre, Third),
        two!(Capped, First, Negated),
        two!(If, Negated, Second),
        comparison!(Third),
        None,
    ],
    takes: 0,
    tests: 0,
    result: Name::Fourth,
    negated: Name::Negated,
};

// `sum`: c = if n then m else 0, m = 0 -> pre cap(c, P).
const SUM_NODE: Node = Node {
    rows: [
        one!(CountPre, Third),
        two!(If, Negated, First),
        two!(Capped, Second, Last),
        comparison!(Second),
        None,
    ],
    takes: 1,
    tests: 0,
    result: Name::Fourth,
    negated: Name::Negated,
};

// `age`: c = if P then cap(r, P) else 0, r = if n then m else 0, m = 0 -> pre c.
const AGE_NODE: Node = Node {
    rows: [RUN_1, RUN_2, RUN_3, RUN_4, comparison!(Fourth)],
    takes: 1,
    tests: 0,
    result: Name::Fifth,
    negated: Name::Negated,
};

// The run of the P of a `lag` up to one tick ago: r of `age`.
const RUN_NODE: Node = Node {
    rows: [RUN_1, RUN_2, RUN_3, RUN_4, None],
    takes: 1,
    tests: 0,
    result: Name::Second,
    negated: Name::Negated,
};

// That the Q of a `lag`, P here, holds if it is due; k is the number of the `lag`, r the operand before: (r < k or
// r <= 0) or P. In `r <= 0` both the comparison and the literal are 0.
const FINE_NODE: Node = Node {
    rows: [
        comparison!(Previous),
        one!(CompareLiteral, Previous),
        two!(Or, First, Second),
        two!(Or, Third, Last),
        None,
    ],
    takes: 2,
    tests: 0,
    result: Name::Fourth,
    negated: Name::Negated,
};

// That this was so at each tick, the present one too: the rows of `kept`, of which the third is the result.
const ALWAYS_NODE: Node = Node {
    rows: [KEPT_1, KEPT_2, KEPT_3, None, None],
    takes: 1,
    tests: 0,
    result: Name::Third,
    negated: Name::Negated,
};

// The end of a lead P: n and pre(P) and not P, and its negation. The present start waits on the stack.
const LEAD_END_NODE: Node = Node {
    rows: [
        one!(BooleanPre, Last),
        one!(Not, Last),
        two!(And, Negated, First),
        two!(And, Third, Second),
        one!(Not, Fourth),
    ],
    takes: 1,
    tests: 0,
    result: Name::Negated,
    negated: Name::Fifth,
};

// `then`: running r = n and (s' or pre r); r and P. The start that waited is back.
const THEN_NODE: Node = Node {
    rows: [
        one!(BooleanPre, Third),
        two!(Or, Start, First),
        two!(And, Previous, Second),
        two!(And, Third, Last),
        None,
    ],
    takes: 2,
    tests: 0,
    result: Name::Fourth,
    negated: Name::Previous,
};

// A velocity test.
const VELOCITY_NODE: Node = Node {
    rows: [None; WIDEST],
    takes: 0,
    tests: 1,
    result: Name::Tested,
    negated: Name::Negated,
};

// The whole rule: started = s or pre started; verdict = started and P.
const WHOLE_NODE: Node = Node {
    rows: [
        one!(BooleanPre, Second),
        two!(Or, Start, First),
        two!(And, Second, Last),
        None,
        None,
    ],
    takes: 1,
    tests: 0,
    result: Name::Third,
    negated: Name::Negated,
};

// Past the last kind.
const NO_NODE: Node = Node {
    rows: [None; WIDEST],
    takes: 0,
    tests: 0,
    result: Name::Nought,
    negated: Name::Nought,
};

// The place past the last kind's, and how many places there are.
const NONE: usize = RecordKind::Whole as usize + 1;

pub const PLACES: usize = NONE + 1;

// Every node, in the order of the kinds of records (formulas), and none past the last.
const NODES: [Node; PLACES] = [
    CONSTANT_NODE,
    SIGNAL_NODE,
    NOT_NODE,
    AND_NODE,
    OR_NODE,
    BEGIN_NODE,
    END_NODE,
    POINT_NODE,
    HELD_NODE,
    KEPT_NODE,
    LEN_NODE,
    SUM_NODE,
    AGE_NODE,
    RUN_NODE,
    FINE_NODE,
    ALWAYS_NODE,
    LEAD_END_NODE,
    THEN_NODE,
    VELOCITY_NODE,
    WHOLE_NODE,
    NO_NODE,
];

// All of them: a copy, of which a pass takes one.
pub fn all_nodes() -> [Node; PLACES]
    ensures nodes { map scheme_node result ≡ node_table }
    // In each the rows stand first and in order, and only None follows them.
    ensures rows { map row_places result ≡ map (λ d. padded_rows widest d.rows) node_table }
{
    NODES
}

// The place of the node of the kind k.
pub fn place_of(k: u32) -> usize
    ensures { result ≡ min k node_count }
{
    (k as usize).min(NONE)
}

// ---- kinds

// The kind of a row's equation, where `comparison` is the kind that the record asks for.
pub fn kind_by(comparison: u32, kind: RowKind) -> u32
    ensures { result ≡ kind_by comparison kind }
{
    match kind {
        RowKind::OfKind(k) => u32::from(k),
        RowKind::Comparison => comparison,
    }
}

// The kind of equation that compares with a literal or with a parameter, as the record says.
pub fn comparison_of(b: u32) -> u32
    ensures { result ≡ comparison_of b }
{
    if b == formulas::LITERAL {
        tables::Kind::CompareLiteral as u32
    } else {
        tables::Kind::CompareParameter as u32
    }
}
