// The observer of a rule (SPEC 8.2, SPEC 12.3): first the table's head, which has the start flows, the signals that the
// rule names and its velocity tests, and then one pass over the records of the rule's tree, operands first, as a stack
// machine. A record's kind picks a node of the observer scheme (crate scheme), and the node's rows go to the table. The
// passes as definitions are in specs/Machine.antt; that they give the observer's equations is what `emit_observer`
// promises.
#![tactic(auto)]

ghost use Rattle.std.specs.Prelude.{◌≡◌, [], ◌∷◌, ◌≤◌, ◌<◌, ◌+◌, set, length, drop};
ghost use Rattle.lists.specs.Number.{number_at};
ghost use Rattle.limits.specs.Limits.{arena_limit, equation_limit, signal_count};
ghost use Rattle.tables.specs.Table.{equation};
ghost use Rattle.scheme.specs.Scheme.{node_of, value_named, resolved, filled};
ghost use Rattle.scheme.specs.Emit.{header_count};
ghost use Rattle.node_table.specs.Table.{scheme_name, scheme_row, scheme_node};
ghost use Rattle.emitter.specs.Machine.{stack_size, with_equations, before, record_in, values_at, marked};
ghost use Rattle.emitter.specs.Machine.{marks, header_of};
ghost use Rattle.emitter.specs.Machine.{with_signal, test_of};
ghost use Rattle.emitter.specs.Contract.{Emitted, PassRoom, Entered, Begun, Ran, Headed};
ghost use Rattle.emitter.specs.Contract.{Put, Tested};

use formulas::RecordKind;
use node_table::{Name, Node, Row};
use std::marker::Model;

// The start flow and its negation, and how many these are: the header's equations before the named signals'.
const START_FLOW: u32 = 0;

const NEGATED_FLOW: u32 = 1;

const HEADER: u32 = 2;

// How many signals there are.
const SIGNALS: usize = limits::SIGNALS as usize;

// Operands that wait at one time: at most one for each record, and room for one more.
const STACK: usize = limits::RECORDS + 1;

// ---- buffers

// One number, dropped where it has no room.
fn store(t: &mut [u32], i: usize, v: u32)
    ensures { t.new ≡ set t.old i v }
{
    if i < t.len() {
        t[i] = v;
    }
}

// One equation at place o; the numbers that have no room are dropped. Where all have room, they are stored one by one:
// `copy_from_slice` puts them on the stack first, and made a pass a third slower.
fn put(t: &mut [u32], o: u32, kind: u32, a: u32, b: u32, c: u32)
    ensures { t.new ≡ with_equations t.old o (equation kind a b c ∷ []) }
{
    let i = t.len().min(4 * (o as usize));
    let rest = &mut t[i..];
    if rest.len() < 4 {
        lists::copy(&[kind, a, b, c], 4, rest);
    } else {
        rest[0] = kind;
        rest[1] = a;
        rest[2] = b;
        rest[3] = c;
    }
}

// ---- the stack of operands

// The operands that wait: the first `height` of the items, the last one on top.
#[derive(Drop)]
struct Stack {
    items: [u32; STACK],
    height: usize,
}

impl Model for Stack {
    ghost use Rattle.std.specs.Prelude.{ℕ, List, ◌≤◌};
    ghost use Rattle.emitter.specs.Machine.{stack_size, stacked};

    ghost Value = { List ℕ };

    ghost view = { λ s. stacked s.items s.height };

    ghost invariant = { λ s. s.height ≤ stack_size };
}

impl Stack {
    fn new() -> Stack
        ensures { result ≡ [] }
    {
        Stack {
            items: [0; STACK],
            height: 0,
        }
    }

    // The operand that lies `back` below the last one, and 0 where there is none.
    fn operand(&self, back: usize) -> u32
        ensures { result ≡ number_at self.now back }
    {
        if back < self.height {
            self.items[self.height - back - 1]
        } else {
            0
        }
    }

    // `takes` operands come off, v goes on.
    fn push(&mut self, takes: usize, v: u32)
        requires { length self.old < stack_size }
        ensures { self.new ≡ v ∷ drop takes self.old }
    {
        let low = self.height.saturating_sub(takes);
        self.items[low] = v;
        self.height = low + 1;
    }
}

// ---- the values of a record

// The values of the names, at the places that their names have as numbers, and the kind of the record's comparison.
#[derive(Drop)]
struct Values {
    named: [u32; node_table::NAMES],
    comparison: u32,
}

impl Model for Values {
    ghost use Rattle.std.specs.Prelude.{◌≡◌};
    ghost use Rattle.scheme.specs.Scheme.{Values as SchemeValues};

    ghost Value = { SchemeValues };

    ghost use Rattle.emitter.specs.Machine.{value_list, values_in};

    ghost view = { λ s. values_in s.named s.comparison };

    ghost invariant = { λ s. s.named ≡ value_list (values_in s.named s.comparison) };
}

impl Values {
    fn named(&self, name: Name) -> u32
        ensures { result ≡ value_named self.now (scheme_name name) }
    {
        self.named[name as usize]
    }

    // A row's equation, put at place o.
    fn put_row(&self, t: &mut [u32], o: u32, r: Row)
        ensures { t.new ≡ with_equations t.old o (resolved self.now (scheme_row r) ∷ []) }
    {
        let kind = node_table::kind_by(self.comparison, r.kind);
        put(
            t,
            o,
            kind,
            self.named(r.a),
            self.named(r.b),
            self.named(r.c),
        );
    }

    // The equations of a node's rows, put from place o on: the place after them.
    fn fill(&self, t: &mut [u32], o: u32, d: &Node) -> u32
        requires { o ≤ equation_limit }
        ensures { Put (filled self.now (scheme_node d.now).rows) t.old o t.new result }
    {
        let rows: &[Option<Row>] = &d.rows;
        let mut next = o;
        for row in rows {
            if let Some(r) = row {
                self.put_row(t, next, *r);
                next += 1;
            }
        }
        next
    }
}

// The number before n, and 0 before 0: a start flow stands right before its negation.
fn before(n: u32) -> u32
    ensures { result ≡ before n }
{
    n.saturating_sub(1)
}

// ---- the records

// Four numbers of an arena.
#[derive(Clone, Copy)]
struct Record {
    pub kind: u32,
    pub a: u32,
    pub b: u32,
    pub c: u32,
}

fn record_of(numbers: &[u32; 4]) -> Record
    ensures { result ≡ record_in numbers.now }
{
    let [kind, a, b, c] = *numbers;
    Record { kind, a, b, c }
}

// Where the pass stands: the place of the next equation, that of the next test in the table's head, the negated start
// flow.
#[derive(Clone, Copy)]
struct Place {
    pub next: u32,
    pub tests: u32,
    pub negated: u32,
}

fn values_at(stack: &Stack, places: &[u32], m: Place, x: Record) -> Values
    requires { m.next ≤ equation_limit }
    ensures { result ≡ values_at places.now m.next m.tests m.negated stack.now x }
{
    let start = before(m.negated);
    let last = stack.operand(0);
    let previous = stack.operand(1);
    let signal = lists::number_at(places, x.a as usize);
    let comparison = node_table::comparison_of(x.b);
    let o = m.next;
    let named = [
        0,
        m.negated,
        start,
        last,
        previous,
        signal,
        m.tests,
        x.a,
        x.c,
        o,
        o + 1,
        o + 2,
        o + 3,
        o + 4,
    ];
    Values { named, comparison }
}

// One record, with the node of its kind: the node's rows go to the table, its operands come off the stack, its result
// goes on, its tests are passed, and its start is the one from here on. With a call for each record a pass takes a
// tenth longer.
#[inline(always)]
fn enter(
    table: &mut [u32],
    stack: &mut Stack,
    places: &[u32],
    m: Place,
    x: Record,
    d: &Node,
) -> Place
    requires room { PassRoom m stack.old }
    requires node { scheme_node d.now ≡ node_of x.kind }
    ensures { Entered places.now x table.old stack.old m
        table.new stack.new result }
{
    let values = values_at(stack, places, m, x);
    let next = values.fill(table, m.next, d);
    stack.push(d.takes as usize, values.named(d.result));
    Place {
        next,
        tests: m.tests + u32::from(d.tests),
        negated: values.named(d.negated),
    }
}

// The whole rule's record: no arena has it.
const WHOLE: Record = Record {
    kind: RecordKind::Whole as u32,
    a: 0,
    b: 0,
    c: 0,
};

// All records one after the other, and then the whole rule's: how many equations there are.
fn enter_all(arena: &[u32], places: &[u32], table: &mut [u32], tests: u32, next: u32) -> u32
    requires { Begun arena.now tests next }
    ensures { Ran arena.now places.now table.old tests next
        table.new result }
{
    let nodes = node_table::all_nodes();
    let mut stack = Stack::new();
    let mut m = Place {
        next,
        tests,
        negated: NEGATED_FLOW,
    };
    let (records, _) = arena.as_chunks();
    for numbers in records {
        let x = record_of(numbers);
        let d = &nodes[node_table::place_of(x.kind)];
        m = enter(table, &mut stack, places, m, x, d);
    }
    let d = &nodes[node_table::place_of(WHOLE.kind)];
    enter(table, &mut stack, places, m, WHOLE, d).next
}

// ---- the named signals

// A signal's record marks the signal as named.
#[tactic(auto, unfolding(crate::specs::Machine::marked))]
fn mark(named: &mut [u32], x: Record)
    ensures { named.new ≡ marked x named.old }
{
    if x.kind == RecordKind::Signal as u32 {
        store(named, x.a as usize, 1);
    }
}

fn mark_all(arena: &[u32], named: &mut [u32])
    ensures { named.new ≡ marks arena.now named.old }
{
    for numbers in arena.as_chunks().0 {
        mark(named, record_of(numbers));
    }
}

// A marked signal j gets its equation at the next place; in any case its mark gives way to that place.
#[tactic(auto, unfolding(crate::specs::Machine::with_signal))]
fn settle(table: &mut [u32], named: &mut [u32], j: usize, next: u32) -> u32
    requires { (j < signal_count) × (next ≤ equation_limit) }
    ensures { header_of table.new named.new result
        ≡ with_signal j (header_of table.old named.old next) }
{
    let flag = lists::number_at(named, j);
    store(named, j, next);
    if flag == 0 {
        next
    } else {
        put(table, next, tables::Kind::Signal as u32, j as u32, 0, 0);
        next + 1
    }
}

// The start flow, its negation, and the named signals by rising number: the place after them.
fn settle_all(table: &mut [u32], named: &mut [u32]) -> u32
    ensures { Headed table.old named.old table.new named.new result }
{
    put(table, START_FLOW, tables::Kind::Start as u32, 0, 0, 0);
    put(
        table,
        NEGATED_FLOW,
        tables::Kind::Not as u32,
        START_FLOW,
        0,
        0,
    );
    let mut next = HEADER;
    for j in 0..SIGNALS {
        next = settle(table, named, j, next);
    }
    next
}

// ---- the velocity tests

// A velocity test's record puts its equation at the next place: the place after it.
#[tactic(auto, unfolding(crate::specs::Machine::with_equations))]
fn put_test(table: &mut [u32], next: u32, x: Record) -> u32
    requires { next ≤ equation_limit }
    ensures { Put (test_of x) table.old next table.new result }
{
    if x.kind == RecordKind::Velocity as u32 {
        put(table, next, tables::Kind::Velocity as u32, x.a, x.b, 0);
        next + 1
    } else {
        next
    }
}

// The tests of all records in their order, from the place `tests` on: the place after them.
fn put_tests(arena: &[u32], table: &mut [u32], tests: u32) -> u32
    requires { (length arena.now ≤ arena_limit) × (tests ≤ header_count + signal_count) }
    ensures { Tested arena.now table.old tests table.new result }
{
    let mut next = tests;
    for numbers in arena.as_chunks().0 {
        next = put_test(table, next, record_of(numbers));
    }
    next
}

// ---- the whole pass

// The equations of the observer of the formula whose records the arena has, written from the front of the table on:
// how many they are.
pub fn emit_observer(arena: &[u32], table: &mut [u32]) -> u32
    requires { length arena.now ≤ arena_limit }
    ensures { Emitted arena.now table.old table.new result }
{
    let mut named = [0u32; SIGNALS];
    mark_all(arena, &mut named);
    let tests = settle_all(table, &mut named);
    let next = put_tests(arena, table, tests);
    enter_all(arena, &named, table, tests, next)
}
