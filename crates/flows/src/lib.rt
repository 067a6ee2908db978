// The flows of an equation table: a fresh state (SPEC 8.4), and the step that runs a table for one tick (SPEC 8.5),
// refusals 10 to 14 and 19. What they mean is in specs/.
#![tactic(auto)]

ghost use Rattle.std.specs.Prelude.{◌≡◌, ◌&&◌, ◌||◌, cond, ◌++◌, ◌≤◌, ◌<◌, length, drop};
ghost use Rattle.limits.specs.Limits.{standard_cap, velocity_count};
ghost use Rattle.traces.specs.Trace.{truth, nonzero, bit};
ghost use Rattle.traces.specs.Parameters.{parameters_fit};
ghost use Rattle.traces.specs.Compare.{op_of, compares};
ghost use Rattle.lists.specs.Number.{number_at};
ghost use Rattle.tables.specs.Table.{kind_of, sort_of, closing_count, passed};
ghost use Rattle.flows.specs.Flow.{increased, value_of, flows, answer_of, initial, in_range, fresh_state, next_state};
ghost use Rattle.flows.specs.Step.{cell_fits, cells_fit, step_checked};
ghost use Rattle.flows.specs.Step.{after_fresh, freshened, after_step, after_tick, stepped};

use limits::Refusal;
use tables::{Equation, Kind, Sort, Table};
use traces::Tick;

// x op y, by the operator's number.
fn compare(op: u32, x: u32, y: u32) -> bool
    ensures { result ≡ compares (op_of op) x y }
{
    traces::holds(traces::op_of(op), x, y)
}

// Number i of a buffer, or 0 past its end.
fn number_at(numbers: &[u32], i: u32) -> u32
    ensures { result ≡ number_at numbers.now i }
{
    lists::number_at(numbers, i as usize)
}

// Bit j of the signals.
fn signal_at(signals: u64, j: u32) -> u32
    ensures { result ≡ truth (nonzero (bit signals j)) }
{
    if j < limits::SIGNALS {
        ((signals >> j) % 2) as u32
    } else {
        0
    }
}

// x and y.
fn conjunction(x: u32, y: u32) -> u32
    ensures { result ≡ truth (nonzero x && nonzero y) }
{
    u32::from(0 < x && 0 < y)
}

// x or y.
fn disjunction(x: u32, y: u32) -> u32
    ensures { result ≡ truth (nonzero x || nonzero y) }
{
    u32::from(0 < x || 0 < y)
}

// The count x, one more if y is yes, never above the cap.
#[tactic(auto, unfolding(crate::specs::Flow::increased))]
fn increase(cap: u32, x: u32, y: u32) -> u32
    ensures { result ≡ increased cap x (nonzero y) }
{
    if y == 0 {
        x
    } else if x < cap {
        x + 1
    } else {
        cap
    }
}

// If x is yes then y, else 0.
fn gate(x: u32, y: u32) -> u32
    ensures { result ≡ cond (nonzero x) y 0 }
{
    if 0 < x { y } else { 0 }
}

// The value of an equation, from its cell and the flows before it. `ps` are the tick's parameters, lent to all
// equations: out of the tick the compiler would copy all of them at each use.
#[tactic(auto, unfolding(crate::specs::Flow::value_of))]
fn value(
    cap: u32,
    e: Equation,
    tick: Tick,
    ps: &[u32; limits::PARAMETERS],
    cell: u32,
    before: &[u32],
) -> u32
    requires { ps.now ≡ tick.parameters }
    ensures { result ≡ value_of cap tick (number_at before.now) cell (kind_of e.kind) e }
{
    let Equation { kind, a, b, c } = e;
    let Ok(kind) = Kind::try_from(kind) else {
        return 0;
    };
    match kind {
        Kind::Signal => signal_at(tick.signals, a),
        Kind::Start => u32::from(0 < tick.start),
        Kind::Constant => a,
        Kind::Not => u32::from(number_at(before, a) == 0),
        Kind::And => conjunction(number_at(before, a), number_at(before, b)),
        Kind::Or => disjunction(number_at(before, a), number_at(before, b)),
        Kind::BooleanPre | Kind::CountPre => cell,
        Kind::Capped => increase(cap, number_at(before, a), number_at(before, b)),
        Kind::If => gate(number_at(before, a), number_at(before, b)),
        Kind::CompareLiteral => u32::from(compare(b, number_at(before, a), c)),
        Kind::CompareParameter => u32::from(compare(b, number_at(before, a), number_at(ps, c))),
        Kind::Velocity => u32::from(compare(a, tick.velocity, b)),
    }
}

// The flows of the table's equations, into values.
fn fill(cap: u32, table: Table<'_>, state: &[u32], values: &mut [u32], tick: Tick)
    requires { (table.n ≤ length state.now) × (table.n ≤ length values.old) }
    ensures { values.new
        ≡ flows cap table.entry.numbers.now tick state.now table.entry.n ++ drop table.entry.n values.old }
{
    let ps = tick.parameters;
    for i in 0..table.n {
        values[i] = value(cap, table.equation(i), tick, &ps, state[i], &values[..i]);
    }
}

// The memories' next values, into the state.
fn advance(table: Table<'_>, state: &mut [u32], flows: &[u32])
    requires { table.n ≤ length state.old }
    ensures { state.new ≡ next_state table.entry.numbers.now flows.now table.entry.n state.old }
{
    for i in 0..table.n {
        let e = table.equation(i);
        if tables::is_memory(e.kind) {
            state[i] = number_at(flows, e.a);
        }
    }
}

// A memory's initial value: C of a boolean, 0 of a count.
#[tactic(auto, unfolding(crate::specs::Flow::initial, tables::specs::Table::same_sort))]
fn initial_value(k: u32, c: u32) -> u32
    ensures { result ≡ initial (sort_of (kind_of k)) c }
{
    if tables::is_count(k) { 0 } else { c }
}

// The memories' initial values, into the state.
fn reset(table: Table<'_>, state: &mut [u32])
    requires { table.n ≤ length state.old }
    ensures { state.new ≡ fresh_state table.entry.numbers.now table.entry.n state.old }
{
    for i in 0..table.n {
        let e = table.equation(i);
        if tables::is_memory(e.kind) {
            state[i] = initial_value(e.kind, e.c);
        }
    }
}

// Whether x is in the range of that sort.
#[tactic(auto, unfolding(crate::specs::Flow::in_range))]
fn in_range(cap: u32, sort: Sort, x: u32) -> bool
    ensures { result ≡ in_range cap sort x }
{
    match sort {
        Sort::Boolean => x < limits::TRUTHS,
        Sort::Count => x <= cap,
    }
}

// Whether x, if it is the cell of a memory, is in its sort's range.
#[tactic(auto, unfolding(crate::specs::Step::cell_fits))]
fn cell_fits(cap: u32, k: u32, x: u32) -> bool
    ensures { result ≡ cell_fits cap (kind_of k) x }
{
    !tables::is_memory(k) || in_range(cap, tables::sort_of(k), x)
}

// Whether the cell of each memory is in its sort's range.
fn cells_fit(cap: u32, table: Table<'_>, state: &[u32]) -> bool
    requires { table.n ≤ length state.now }
    ensures { result ≡ cells_fit cap table.entry.numbers.now table.entry.n state.now }
{
    for i in 0..table.n {
        if !cell_fits(cap, table.equation(i).kind, state[i]) {
            return false;
        }
    }
    true
}

// What n flows answer: idle where the started flow is 0, else the verdict's flow.
#[tactic(auto, unfolding(crate::specs::Flow::answer_of))]
fn answer_of(flows: &[u32], n: usize) -> u32
    requires { (closing_count ≤ n) × (n ≤ length flows.now) }
    ensures { result ≡ answer_of n (number_at flows.now) }
{
    if flows[n - tables::CLOSING] == 0 {
        return traces::IDLE;
    }
    flows[n - 1]
}

// A step that is not refused: its answer.
fn run(cap: u32, table: Table<'_>, state: &mut [u32], values: &mut [u32], tick: Tick) -> u32
    requires { (closing_count ≤ table.n) × (table.n ≤ length state.old) × (table.n ≤ length values.old) }
    ensures { after_step (Ok result) state.new values.new
        ≡ after_tick cap table.entry.numbers.now table.entry.n state.old values.old tick }
{
    fill(cap, table, state, values, tick);
    let flows = &values[..table.n];
    advance(table, state, flows);
    answer_of(flows, table.n)
}

// Makes a fresh state: refusals 10 to 12.
pub fn fresh_state(table: &[u32], n: usize, state: &mut [u32]) -> Result<(), Refusal>
    ensures { after_fresh result state.new
        ≡ freshened velocity_count table.now n state.old }
{
    tables::check_table(limits::VELOCITIES, table, n)?;
    if state.len() < n {
        return Err(Refusal::ShortState);
    }
    reset(Table { numbers: table, n }, state);
    Ok(())
}

// One step: a tick of the table.
pub fn step(
    table: &[u32],
    n: usize,
    state: &mut [u32],
    values: &mut [u32],
    tick: Tick,
) -> Result<u32, Refusal>
    ensures { after_step result state.new values.new
        ≡ stepped standard_cap velocity_count table.now n state.old values.old tick }
{
    step_checked(table, n, state, values, tick)?;
    Ok(step_passed(table, n, state, values, tick))
}

// What a step answers to these arguments: its refusal, 10 to 14, then 19, or that it has none. No step is run.
#[tactic(auto, using(crate::proofs::Checks::decided))]
pub fn step_checked(
    table: &[u32],
    n: usize,
    state: &[u32],
    values: &[u32],
    tick: Tick,
) -> Result<(), Refusal>
    ensures { result ≡ step_checked standard_cap velocity_count
        table.now n state.now values.now tick }
{
    tables::check_table(limits::VELOCITIES, table, n)?;
    if state.len() < n || values.len() < n {
        return Err(Refusal::ShortState);
    }
    if !traces::parameters_fit(limits::CAP, &tick.parameters) {
        return Err(Refusal::ParameterTooHigh);
    }
    if !cells_fit(limits::CAP, Table { numbers: table, n }, state) {
        return Err(Refusal::CellOutOfRange);
    }
    if limits::VELOCITIES <= tick.velocity {
        return Err(Refusal::VelocityTooHigh);
    }
    Ok(())
}

// A step that is known to have no refusal: its answer. After `step_checked` has passed, every further step with the
// same parameters and a velocity below `limits::VELOCITIES` is such a step.
pub fn step_passed(
    table: &[u32],
    n: usize,
    state: &mut [u32],
    values: &mut [u32],
    tick: Tick,
) -> u32
    requires { step_checked standard_cap velocity_count table.now n state.old values.old tick ≡ passed }
    ensures { after_step (Ok result) state.new values.new
        ≡ stepped standard_cap velocity_count table.now n state.old values.old tick }
{
    let table = Table { numbers: table, n };
    run(limits::CAP, table, state, values, tick)
}
