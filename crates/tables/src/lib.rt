// Equation tables: the kinds of equations by their numbers (SPEC 5.3), and the check of a table, refusals 10 and 11
// (SPEC 7.10, SPEC 7.11). What they mean is in specs/.
#![tactic(auto)]

ghost use Rattle.std.specs.Prelude.{◌≡◌, ◌&&◌, ◌+◌, ◌*◌, ◌≤◌, ◌<◌, length};
ghost use Rattle.tables.specs.Table.{all, kind_of, shape_of, sort_of, same_sort, is_memory, is_flow, operand_fits};
ghost use Rattle.tables.specs.Table.{row, shape_fits, equation_at, equation_fits, closes, checked};

use Operand::{Anywhere, Below, Earlier, Unused};
use Sort::{Boolean, Count};
use limits::Refusal;

// The sort of a flow.
#[derive(Clone, Copy, PartialEq, Eq)]
pub enum Sort {
    Boolean,
    Count,
}

// What one of an equation's three numbers has to be.
#[derive(Clone, Copy)]
pub enum Operand {
    // Not used: 0.
    Unused,
    // An earlier equation of that sort.
    Earlier(Sort),
    // Any equation of that sort.
    Anywhere(Sort),
    // A number below that one.
    Below(u32),
    // A velocity: a number below how many there are.
    Velocity,
}

// A row of the table of kinds: what A, B and C have to be, and the sort of the flow.
#[derive(Clone, Copy)]
pub struct Shape {
    pub a: Operand,
    pub b: Operand,
    pub c: Operand,
    pub gives: Sort,
}

// SPEC 5.3: the kinds of equations, in the order of their numbers.
#[derive(Clone, Copy, PartialEq, Eq)]
pub enum Kind {
    // A signal.
    Signal,
    // The start.
    Start,
    // A constant.
    Constant,
    // Not.
    Not,
    // And.
    And,
    // Or.
    Or,
    // The memory of a boolean, which C begins.
    BooleanPre,
    // The memory of a count.
    CountPre,
    // A count that goes up to the cap.
    Capped,
    // A count or 0.
    If,
    // A count compared with a literal.
    CompareLiteral,
    // A count compared with a parameter.
    CompareParameter,
    // The velocity compared with a literal.
    Velocity,
}

// How many kinds there are.
pub const KIND_COUNT: usize = Kind::Velocity as usize + 1;

// A number that no kind has.
#[derive(Clone, Copy, PartialEq, Eq)]
pub struct UnknownKind(pub u32);

impl TryFrom<u32> for Kind {
    type Error = UnknownKind;

    ghost use Rattle.tables.specs.Table.{Named};

    ghost try_from_gives = { Named };

    #[tactic(auto, unfolding(crate::specs::Table::kind_of))]
    fn try_from(number: u32) -> Result<Self, UnknownKind> {
        match number {
            0 => Ok(Kind::Signal),
            1 => Ok(Kind::Start),
            2 => Ok(Kind::Constant),
            3 => Ok(Kind::Not),
            4 => Ok(Kind::And),
            5 => Ok(Kind::Or),
            6 => Ok(Kind::BooleanPre),
            7 => Ok(Kind::CountPre),
            8 => Ok(Kind::Capped),
            9 => Ok(Kind::If),
            10 => Ok(Kind::CompareLiteral),
            11 => Ok(Kind::CompareParameter),
            12 => Ok(Kind::Velocity),
            _ => Err(UnknownKind(number)),
        }
    }
}

// SPEC 5.1: the four numbers of an equation.
#[derive(Clone, Copy, PartialEq, Eq)]
pub struct Equation {
    pub kind: u32,
    pub a: u32,
    pub b: u32,
    pub c: u32,
}

// SPEC 5.5: how many equations close a table, the started flow's and then the verdict's.
pub const CLOSING: usize = 2;

// How many parameters there are.
const PARAMETERS: u32 = limits::PARAMETERS as u32;

// A row: what A, B and C have to be, and the sort of the flow.
fn row(a: Operand, b: Operand, c: Operand, gives: Sort) -> Shape
    ensures { result ≡ row a b c gives }
{
    Shape { a, b, c, gives }
}

impl Kind {
    ghost use Rattle.tables.specs.Table.{shape_of};

    // The table of kinds (SPEC 5.3, SPEC 12.5).
    #[tactic(auto, unfolding(crate::specs::Table::shape_of))]
    pub fn shape(self) -> Shape
        ensures { result ≡ shape_of (Some self) }
    {
        match self {
            Kind::Signal => row(Below(limits::SIGNALS), Unused, Unused, Boolean),
            Kind::Start => row(Unused, Unused, Unused, Boolean),
            Kind::Constant => row(Below(limits::TRUTHS), Unused, Unused, Boolean),
            Kind::Not => row(Earlier(Boolean), Unused, Unused, Boolean),
            Kind::And | Kind::Or => row(Earlier(Boolean), Earlier(Boolean), Unused, Boolean),
            Kind::BooleanPre => row(Anywhere(Boolean), Unused, Below(limits::TRUTHS), Boolean),
            Kind::CountPre => row(Anywhere(Count), Unused, Unused, Count),
            Kind::Capped => row(Earlier(Count), Earlier(Boolean), Unused, Count),
            Kind::If => row(Earlier(Boolean), Earlier(Count), Unused, Count),
            Kind::CompareLiteral => row(
                Earlier(Count),
                Below(limits::COMPARISONS),
                Below(limits::LITERALS),
                Boolean,
            ),
            Kind::CompareParameter => row(
                Earlier(Count),
                Below(limits::COMPARISONS),
                Below(PARAMETERS),
                Boolean,
            ),
            Kind::Velocity => row(
                Below(limits::COMPARISONS),
                Operand::Velocity,
                Unused,
                Boolean,
            ),
        }
    }
}

// The row for every number; one that is no kind's gets a row whose A nothing fits. Packing asks for a row again and
// again: in each arm the row is known as the program is compiled, and to make a kind first takes a jump table.
#[tactic(auto, unfolding(crate::specs::Table::shape_of, crate::specs::Table::kind_of))]
pub fn row_of(k: u32) -> Shape
    ensures { result ≡ shape_of (kind_of k) }
{
    match k {
        0 => Kind::Signal.shape(),
        1 => Kind::Start.shape(),
        2 => Kind::Constant.shape(),
        3 => Kind::Not.shape(),
        4 => Kind::And.shape(),
        5 => Kind::Or.shape(),
        6 => Kind::BooleanPre.shape(),
        7 => Kind::CountPre.shape(),
        8 => Kind::Capped.shape(),
        9 => Kind::If.shape(),
        10 => Kind::CompareLiteral.shape(),
        11 => Kind::CompareParameter.shape(),
        12 => Kind::Velocity.shape(),
        _ => row(
            Operand::Below(0),
            Operand::Unused,
            Operand::Unused,
            Sort::Boolean,
        ),
    }
}

// The sort of the flow for every number: one that is no kind's has a boolean flow. A step asks for it at each operand,
// and the numbers are compared as they are, since a kind takes instructions to make.
#[tactic(auto, using(crate::proofs::Numbers::counts))]
pub fn sort_of(k: u32) -> Sort
    ensures { result ≡ sort_of (kind_of k) }
{
    if Kind::CountPre as u32 <= k && k <= Kind::If as u32 {
        return Count;
    }
    Boolean
}

// Whether the flow of a kind is a count.
#[tactic(auto, unfolding(crate::specs::Table::same_sort))]
pub fn is_count(k: u32) -> bool
    ensures { result ≡ same_sort (sort_of (kind_of k)) Sort.Count }
{
    sort_of(k) == Sort::Count
}

// A table of n equations, four numbers for each.
#[derive(Clone, Copy)]
pub struct Table<'a> {
    pub numbers: &'a [u32],
    pub n: usize,
    ghost whole: { 4 * n ≤ length numbers.now },
}

impl Table<'_> {
    ghost use Rattle.tables.specs.Table.{all, kind_at, sort_of, is_flow, operand_fits, equation_at, equation_fits};
    ghost use Rattle.tables.specs.Table.{closes, shape_fits, same_sort};

    // Equation i.
    pub fn equation(self, i: usize) -> Equation
        requires { i < self.n }
        ensures { result ≡ equation_at self.entry.numbers.now i }
    {
        Equation {
            kind: self.numbers[4 * i],
            a: self.numbers[4 * i + 1],
            b: self.numbers[4 * i + 2],
            c: self.numbers[4 * i + 3],
        }
    }

    // The sort of the flow of equation i.
    pub fn sort(self, i: usize) -> Sort
        requires { i < self.n }
        ensures { result ≡ sort_of (kind_at self.entry.numbers.now i) }
    {
        sort_of(self.numbers[4 * i])
    }

    // Whether x is one of the first m equations, and its flow has the sort s.
    #[tactic(auto, unfolding(crate::specs::Table::is_flow, crate::specs::Table::same_sort))]
    fn is_flow(self, m: usize, s: Sort, x: u32) -> bool
        requires { m ≤ self.n }
        ensures { result ≡ is_flow self.entry.numbers.now m s x }
    {
        let j = x as usize;
        j < m && self.sort(j) == s
    }

    // Whether x can be such an operand in equation i, where there are so many velocities.
    #[tactic(auto, unfolding(crate::specs::Table::operand_fits))]
    fn operand_fits(self, velocities: u32, i: usize, o: Operand, x: u32) -> bool
        requires { i < self.n }
        ensures { result ≡ operand_fits velocities self.entry.numbers.now self.entry.n i o x }
    {
        match o {
            Operand::Unused => x == 0,
            Operand::Earlier(s) => self.is_flow(i, s, x),
            Operand::Anywhere(s) => self.is_flow(self.n, s, x),
            Operand::Below(m) => x < m,
            Operand::Velocity => x < velocities,
        }
    }

    // Whether A, B and C of equation i can be what that row has.
    #[inline(always)]
    #[tactic(auto, unfolding(crate::specs::Table::shape_fits))]
    fn shape_fits(self, velocities: u32, i: usize, shape: Shape) -> bool
        requires { i < self.n }
        ensures { result ≡ shape_fits velocities self.entry.numbers.now self.entry.n i shape
            (equation_at self.entry.numbers.now i) }
    {
        let e = self.equation(i);
        self.operand_fits(velocities, i, shape.a, e.a)
            && self.operand_fits(velocities, i, shape.b, e.b)
            && self.operand_fits(velocities, i, shape.c, e.c)
    }

    // Whether equation i keeps the rules of its kind. In each arm the row is known as the program is compiled.
    #[tactic(auto, using(crate::proofs::Checks::no_row))]
    fn equation_fits(self, velocities: u32, i: usize) -> bool
        requires { i < self.n }
        ensures { result ≡ equation_fits velocities self.entry.numbers.now self.entry.n i }
    {
        let Ok(kind) = Kind::try_from(self.numbers[4 * i]) else {
            return false;
        };
        match kind {
            Kind::Signal => self.shape_fits(velocities, i, Kind::Signal.shape()),
            Kind::Start => self.shape_fits(velocities, i, Kind::Start.shape()),
            Kind::Constant => self.shape_fits(velocities, i, Kind::Constant.shape()),
            Kind::Not => self.shape_fits(velocities, i, Kind::Not.shape()),
            Kind::And => self.shape_fits(velocities, i, Kind::And.shape()),
            Kind::Or => self.shape_fits(velocities, i, Kind::Or.shape()),
            Kind::BooleanPre => self.shape_fits(velocities, i, Kind::BooleanPre.shape()),
            Kind::CountPre => self.shape_fits(velocities, i, Kind::CountPre.shape()),
            Kind::Capped => self.shape_fits(velocities, i, Kind::Capped.shape()),
            Kind::If => self.shape_fits(velocities, i, Kind::If.shape()),
            Kind::CompareLiteral => self.shape_fits(velocities, i, Kind::CompareLiteral.shape()),
            Kind::CompareParameter => self.shape_fits(
                velocities,
                i,
                Kind::CompareParameter.shape(),
            ),
            Kind::Velocity => self.shape_fits(velocities, i, Kind::Velocity.shape()),
        }
    }

    // Whether each equation keeps the rules of its kind.
    fn equations_fit(self, velocities: u32) -> bool
        ensures { result ≡ all (equation_fits velocities self.entry.numbers.now self.entry.n) self.entry.n }
    {
        for i in 0..self.n {
            if !self.equation_fits(velocities, i) {
                return false;
            }
        }
        true
    }

    // Whether the two equations that close a table are there, and both of their flows are boolean.
    #[tactic(auto, unfolding(crate::specs::Table::closes, crate::specs::Table::same_sort))]
    fn closes(self) -> bool
        ensures { result ≡ closes self.entry.numbers.now self.entry.n }
    {
        CLOSING <= self.n
            && self.sort(self.n - CLOSING) == Sort::Boolean
            && self.sort(self.n - 1) == Sort::Boolean
    }
}

// The check of a table of n equations, where there are so many velocities: refusals 10 and 11.
pub fn check_table(velocities: u32, table: &[u32], n: usize) -> Result<(), Refusal>
    ensures { result ≡ checked velocities table.now n }
{
    if n == 0 || limits::EQUATIONS < n || table.len() < 4 * n {
        return Err(Refusal::EquationCount);
    }
    let table = Table { numbers: table, n };
    if !table.equations_fit(velocities) || !table.closes() {
        return Err(Refusal::BadEquation);
    }
    Ok(())
}

// Whether an equation of that kind is a memory: kinds 6 and 7.
#[tactic(auto, using(crate::proofs::Numbers::memories))]
pub fn is_memory(k: u32) -> bool
    ensures { result ≡ is_memory (kind_of k) }
{
    k == Kind::BooleanPre as u32 || k == Kind::CountPre as u32
}
