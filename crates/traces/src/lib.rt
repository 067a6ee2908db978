// Ticks, and the five comparisons. What they mean is in specs/Trace.antt and specs/Compare.antt.
#![tactic(auto)]

ghost use Rattle.std.specs.Prelude.{◌≡◌, true, ◌↔◌, ◌≤◌, ◌<◌};
ghost use Rattle.limits.specs.Limits.{comparison_count};
ghost use Rattle.traces.specs.Trace.{tick_of};
ghost use Rattle.traces.specs.Parameters.{parameters_fit};
ghost use Rattle.traces.specs.Compare.{op_of, op_number, compares, Compared};

// SPEC 1.3: the numbers of `<=`, `<`, `=`, `>`, `>=`.
pub const AT_MOST: u32 = 0;

pub const BELOW: u32 = 1;

pub const EQUAL: u32 = 2;

pub const ABOVE: u32 = 3;

pub const AT_LEAST: u32 = 4;

// SPEC 1.3: the comparisons. This order means nothing; `holds` has them in the order of their numbers. Declared in that
// order, the compiled step limits a number to 4 before it branches, and in this one it just branches.
#[derive(Clone, Copy)]
pub enum Op {
    Below,
    AtMost,
    Equal,
    AtLeast,
    Above,
}

// SPEC 4.10: the verdict of a watch that has not been started yet, idle.
pub const IDLE: u32 = 2;

// One tick of a trace (SPEC 1.1): the start, which 0 alone is not, a bit for each signal, the velocity of the hardest
// stroke, and the parameters.
#[derive(Clone, Copy)]
pub struct Tick {
    pub start: u32,
    pub signals: u64,
    pub velocity: u32,
    pub parameters: [u32; limits::PARAMETERS],
}

// A tick of its numbers: the one place where a tick is built.
pub fn tick_of(
    start: u32,
    signals: u64,
    velocity: u32,
    parameters: [u32; limits::PARAMETERS],
) -> Tick
    ensures { result ≡ tick_of start signals velocity parameters }
{
    Tick {
        start,
        signals,
        velocity,
        parameters,
    }
}

// Whether every parameter is below the limit: the one place that decides on refusal 13 (SPEC 7.13).
pub fn parameters_fit(limit: u32, parameters: &[u32; limits::PARAMETERS]) -> bool
    ensures { result ≡ parameters_fit limit parameters.now }
{
    parameters.iter().all(|parameter| *parameter < limit)
}

// The comparison of that number (SPEC 1.3). A number above 4 is that of no comparison, and a table with an equation
// that asks for it is refused by 11; here it stands for `>=`.
pub fn op_of(number: u32) -> Op
    ensures value { result ≡ op_of number }
    ensures result_value { (number < comparison_count → op_number result ≡ number)
        × (comparison_count ≤ number → result ≡ Op.AtLeast) }
{
    match number {
        AT_MOST => Op::AtMost,
        BELOW => Op::Below,
        EQUAL => Op::Equal,
        ABOVE => Op::Above,
        _ => Op::AtLeast,
    }
}

// Whether x compares so with y (SPEC 1.3): the one place where an operator is applied to two numbers.
pub fn holds(op: Op, x: u32, y: u32) -> bool
    ensures value { result ≡ compares op x y }
    ensures variant { (result ≡ true) ↔ Compared op x y }
{
    match op {
        Op::AtMost => x <= y,
        Op::Below => x < y,
        Op::Equal => x == y,
        Op::Above => x > y,
        Op::AtLeast => x >= y,
    }
}
