// Reading a rule's words by recursive descent (SPEC 12.5): the functions of F, D, C and U call each other, with fewer
// words left each time around. A tree is written as records into a lent arena (formulas, specs/Arena.antt).
// The position and the place in the arena are other ones at each call, so that a struct of the four that are passed
// would be built anew at each.
#![tactic(auto)]

ghost use Rattle.std.specs.Prelude.{false, ◌+◌, ◌≤◌, length};
ghost use Rattle.limits.specs.Limits.{word_limit};
ghost use Rattle.words.specs.Word.{NOT, ROUND, LAG, THEN, CHOP, EXISTS};
ghost use Rattle.grammar.specs.Parse.Goal.{go_f, go_d, go_c, go_u, go_a, go_b};
ghost use Rattle.parser.specs.Contract.{Parses, ParsesThen, ParsesChop, Room, Begun, Opening};
ghost use Rattle.parser.specs.Contract.{Pushed, ParsesVelocity, ParsesLeaf, ParsesComparison};

use facts::Facts;
use formulas::RecordKind;

// A tree that was read: the position after its words, the place after its records, and its facts.
#[derive(Clone, Copy)]
pub struct Parsed {
    pub at: usize,
    pub top: usize,
    pub facts: Facts,
}

// One record at `top`; the place after it.
fn push(arena: &mut [u32], top: usize, k: u32, a: u32, b: u32, c: u32) -> usize
    requires { top + 4 ≤ length arena.old }
    ensures { Pushed arena.old top k a b c result arena.new }
{
    arena[top] = k;
    arena[top + 1] = a;
    arena[top + 2] = b;
    arena[top + 3] = c;
    top + 4
}

// SPEC 3.6: a velocity test, three words from a position on inside square brackets: `v`, a comparison and a literal.
fn velocity(ws: &[u32], at: usize, arena: &mut [u32], top: usize) -> Option<Parsed>
    requires { Room ws.now at arena.old top }
    ensures { ParsesVelocity ws.now at arena.old top result arena.new }
{
    let o = lists::number_at(ws, at + 1);
    let n = lists::number_at(ws, at + 2);
    if lists::number_at(ws, at) != words::VEL || !words::is_op(o) || !words::is_velocity(n) {
        return None;
    }
    Some(Parsed {
        at: at + 3,
        top: push(
            arena,
            top,
            RecordKind::Velocity as u32,
            o - words::LE,
            n - words::VELOCITY,
            0,
        ),
        facts: facts::leaf_facts(),
    })
}

// SPEC 3.6: `0`, `1`, a signal or a velocity test, at a position inside square brackets.
fn leaf(ws: &[u32], at: usize, arena: &mut [u32], top: usize) -> Option<Parsed>
    requires { Room ws.now at arena.old top }
    ensures { ParsesLeaf ws.now at arena.old top result arena.new }
{
    let w = lists::number_at(ws, at);
    if words::is_signal(w) {
        return Some(Parsed {
            at: at + 1,
            top: push(
                arena,
                top,
                RecordKind::Signal as u32,
                w - words::SIGNAL,
                0,
                0,
            ),
            facts: facts::leaf_facts(),
        });
    }
    if words::is_bit(w) {
        return Some(Parsed {
            at: at + 1,
            top: push(
                arena,
                top,
                RecordKind::Constant as u32,
                w - words::LITERAL,
                0,
                0,
            ),
            facts: facts::leaf_facts(),
        });
    }
    velocity(ws, at, arena, top)
}

// SPEC 3.5: a comparison and n at a position, the end of an atom, whose record of kind k is written. Without the
// attribute it is a call, and reading takes some 3 % longer.
#[inline(always)]
fn comparison(
    ws: &[u32],
    at: usize,
    arena: &mut [u32],
    top: usize,
    k: u32,
    lead: bool,
) -> Option<Parsed>
    requires { (at ≤ word_limit) × (top + 4 ≤ length arena.old) }
    ensures { ParsesComparison ws.now at arena.old top k lead result arena.new }
{
    let o = lists::number_at(ws, at);
    let n = lists::number_at(ws, at + 1);
    if !words::is_op(o) || !words::is_num(n) {
        return None;
    }
    Some(Parsed {
        at: at + 2,
        top: push(
            arena,
            top,
            k,
            o - words::LE,
            facts::num_kind(n),
            facts::num_value(n),
        ),
        facts: facts::atom_facts(lead && facts::is_upper(o)),
    })
}

// SPEC 3.1: F.
#[cycle(reading)]
pub fn read_f(ws: &[u32], inside: bool, at: usize, arena: &mut [u32], top: usize) -> Option<Parsed>
    requires { Room ws.now at arena.old top }
    ensures { Parses (go_f inside) ws.now at arena.old top result arena.new }
{
    let d = read_d(ws, inside, at, arena, top)?;
    if inside {
        return Some(d);
    }
    match lists::number_at(ws, d.at) {
        words::THEN => then(ws, d, arena),
        words::CHOP => chop(ws, d, arena),
        _ => Some(d),
    }
}

// `then` after the D that was read, and the F after it. This and the next have one caller, so that they are inlined
// there; as functions of their own they let the answers of their calls share one place of the caller's stack frame. A D
// outside square brackets has two records fewer than words, and `then` needs one of them.
#[cycle(reading)]
fn then(ws: &[u32], d: Parsed, arena: &mut [u32]) -> Option<Parsed>
    requires { Begun THEN ws.now d.at arena.old (d.top + 8) × (d.facts.nodes ≤ word_limit) }
    ensures { ParsesThen d.facts ws.now d.at arena.old d.top result arena.new }
{
    let mark = push(arena, d.top, RecordKind::LeadEnd as u32, 0, 0, 0);
    let f = read_f(ws, false, d.at + 1, arena, mark)?;
    Some(Parsed {
        at: f.at,
        top: push(arena, f.top, RecordKind::Then as u32, 0, 0, 0),
        facts: facts::then_facts(d.facts, f.facts),
    })
}

// `chop`, likewise.
#[cycle(reading)]
fn chop(ws: &[u32], d: Parsed, arena: &mut [u32]) -> Option<Parsed>
    requires { Begun CHOP ws.now d.at arena.old d.top × (d.facts.nodes ≤ word_limit) }
    ensures { ParsesChop d.facts ws.now d.at arena.old d.top result arena.new }
{
    let f = read_f(ws, false, d.at + 1, arena, d.top)?;
    Some(Parsed {
        at: f.at,
        top: push(arena, f.top, RecordKind::Chop as u32, 0, 0, 0),
        facts: facts::chop_facts(d.facts, f.facts),
    })
}

// SPEC 3.2: D, from the left.
#[cycle(reading)]
fn read_d(ws: &[u32], inside: bool, at: usize, arena: &mut [u32], top: usize) -> Option<Parsed>
    requires { Room ws.now at arena.old top }
    ensures { Parses (go_d inside) ws.now at arena.old top result arena.new }
{
    let mut d = read_c(ws, inside, at, arena, top)?;
    while lists::number_at(ws, d.at) == words::OR {
        let c = read_c(ws, inside, d.at + 1, arena, d.top)?;
        d = Parsed {
            at: c.at,
            top: push(arena, c.top, RecordKind::Or as u32, 0, 0, 0),
            facts: facts::join_facts(d.facts, c.facts),
        };
    }
    Some(d)
}

// SPEC 3.3: C, from the left. One function of D and C would choose its callee, the word and the record by a flag at each
// call, and is no plainer than the two.
#[cycle(reading)]
fn read_c(ws: &[u32], inside: bool, at: usize, arena: &mut [u32], top: usize) -> Option<Parsed>
    requires { Room ws.now at arena.old top }
    ensures { Parses (go_c inside) ws.now at arena.old top result arena.new }
{
    let mut c = read_u(ws, inside, at, arena, top)?;
    while lists::number_at(ws, c.at) == words::AND {
        let u = read_u(ws, inside, c.at + 1, arena, c.top)?;
        c = Parsed {
            at: u.at,
            top: push(arena, u.top, RecordKind::And as u32, 0, 0, 0),
            facts: facts::join_facts(c.facts, u.facts),
        };
    }
    Some(c)
}

// SPEC 3.4: U.
#[cycle(reading)]
fn read_u(ws: &[u32], inside: bool, at: usize, arena: &mut [u32], top: usize) -> Option<Parsed>
    requires { Room ws.now at arena.old top }
    ensures { Parses (go_u inside) ws.now at arena.old top result arena.new }
{
    match lists::number_at(ws, at) {
        words::NOT => not(ws, inside, at, arena, top),
        words::ROUND => round(ws, inside, at, arena, top),
        _ if inside => leaf(ws, at, arena, top),
        words::EXISTS => exists(ws, at, arena, top),
        _ => atom(ws, at, arena, top),
    }
}

// A U that begins with `!`. This and the next two are functions of their own for the same reason as `then`.
#[cycle(reading)]
fn not(ws: &[u32], inside: bool, at: usize, arena: &mut [u32], top: usize) -> Option<Parsed>
    requires { Begun NOT ws.now at arena.old top }
    ensures { Parses (go_u inside) ws.now at arena.old top result arena.new }
{
    let u = read_u(ws, inside, at + 1, arena, top)?;
    Some(Parsed {
        at: u.at,
        top: push(arena, u.top, RecordKind::Not as u32, 0, 0, 0),
        facts: facts::not_facts(u.facts),
    })
}

// A U in round brackets.
#[cycle(reading)]
fn round(ws: &[u32], inside: bool, at: usize, arena: &mut [u32], top: usize) -> Option<Parsed>
    requires { Begun ROUND ws.now at arena.old top }
    ensures { Parses (go_u inside) ws.now at arena.old top result arena.new }
{
    let f = read_f(ws, inside, at + 1, arena, top)?;
    if lists::number_at(ws, f.at) != words::ROUND_END {
        return None;
    }
    Some(Parsed { at: f.at + 1, ..f })
}

// A U that begins with `exists`, outside square brackets.
#[cycle(reading)]
fn exists(ws: &[u32], at: usize, arena: &mut [u32], top: usize) -> Option<Parsed>
    requires { Begun EXISTS ws.now at arena.old top }
    ensures { Parses (go_u false) ws.now at arena.old top result arena.new }
{
    let w = lists::number_at(ws, at + 1);
    if !words::is_signal(w) {
        return None;
    }
    let u = read_u(ws, false, at + 2, arena, top)?;
    Some(Parsed {
        at: u.at,
        top: push(
            arena,
            u.top,
            RecordKind::Exists as u32,
            w - words::SIGNAL,
            0,
            0,
        ),
        facts: facts::exists_facts(u.facts),
    })
}

// SPEC 3.5: an atom.
#[cycle(reading)]
fn atom(ws: &[u32], at: usize, arena: &mut [u32], top: usize) -> Option<Parsed>
    requires { Room ws.now at arena.old top }
    ensures { Parses go_a ws.now at arena.old top result arena.new }
{
    let k = lists::number_at(ws, at);
    if words::is_test(k) {
        let p = prop(ws, words::SQUARE, words::SQUARE_END, at + 1, arena, top)?;
        return Some(Parsed {
            at: p.at,
            top: push(
                arena,
                p.top,
                RecordKind::Begin as u32 + (k - words::BEGIN),
                0,
                0,
                0,
            ),
            facts: facts::atom_facts(facts::is_lead_test(k)),
        });
    }
    if k == words::LEN {
        return comparison(ws, at + 1, arena, top, RecordKind::Len as u32, true);
    }
    if words::is_count(k) {
        let p = prop(ws, words::SQUARE, words::SQUARE_END, at + 1, arena, top)?;
        let kind = RecordKind::Sum as u32 + (k - words::SUM);
        return comparison(ws, p.at, arena, p.top, kind, facts::is_lead_count(k));
    }
    if k == words::LAG {
        return lag(ws, at, arena, top);
    }
    None
}

// An atom that begins with `lag`: P between `[` and `,`, then n, then Q between `,` and `]`.
#[cycle(reading)]
fn lag(ws: &[u32], at: usize, arena: &mut [u32], top: usize) -> Option<Parsed>
    requires { Begun LAG ws.now at arena.old top }
    ensures { Parses go_a ws.now at arena.old top result arena.new }
{
    let p = prop(ws, words::SQUARE, words::COMMA, at + 1, arena, top)?;
    let n = lists::number_at(ws, p.at);
    if !words::is_num(n) {
        return None;
    }
    let run = push(arena, p.top, RecordKind::Run as u32, 0, 0, 0);
    let q = prop(ws, words::COMMA, words::SQUARE_END, p.at + 1, arena, run)?;
    let fine = push(
        arena,
        q.top,
        RecordKind::Fine as u32,
        traces::BELOW,
        facts::num_kind(n),
        facts::num_value(n),
    );
    Some(Parsed {
        at: q.at,
        top: push(arena, fine, RecordKind::Always as u32, 0, 0, 0),
        facts: facts::atom_facts(true),
    })
}

// SPEC 3.6: a P between two words.
#[cycle(reading)]
fn prop(
    ws: &[u32],
    before: u32,
    after: u32,
    at: usize,
    arena: &mut [u32],
    top: usize,
) -> Option<Parsed>
    requires { Opening before ws.now at arena.old top }
    ensures { Parses (go_b before after) ws.now at arena.old top result arena.new }
{
    if lists::number_at(ws, at) != before {
        return None;
    }
    let f = read_f(ws, true, at + 1, arena, top)?;
    if lists::number_at(ws, f.at) != after {
        return None;
    }
    Some(Parsed { at: f.at + 1, ..f })
}
