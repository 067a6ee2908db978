// Equation tables as Lustre text: what a table's text is (SPEC 9.1 to SPEC 9.4), what writing (SPEC 8.6) and reading
// (SPEC 8.7) do, and that each undoes the other (SPEC 12.2). specs/Text.antt, Write.antt and Read.antt are what the two
// operations promise; they stand in the crates `lustre_write` and `lustre_read`. The forms of a line, which the one
// writer and the one reader both walk, are here.
#![tactic(auto)]

ghost use Rattle.std.specs.Prelude.{◌≡◌, ◌≤◌, ◌<◌, map};
ghost use Rattle.limits.specs.Limits.{equation_limit};
ghost use Rattle.tables.specs.Table.{closing_count};
ghost use Rattle.lustre.specs.Form.{own, last_two, letter?, form_value, forms, form_count, form_at};

use tables::{Equation, Kind};

const ZEROS: Equation = Equation {
    kind: 0,
    a: 0,
    b: 0,
    c: 0,
};

// The forms that a kind can have: two if a truth value tells them apart, five if a comparison does, else one.
const TRUTH_FORMS: usize = limits::TRUTHS as usize;

const COMPARISON_FORMS: usize = limits::COMPARISONS as usize;

// The first form of each kind.
pub const SIGNAL_FORM: usize = 0;

pub const START_FORM: usize = SIGNAL_FORM + 1;

pub const CONSTANT_FORM: usize = START_FORM + 1;

pub const NOT_FORM: usize = CONSTANT_FORM + TRUTH_FORMS;

pub const AND_FORM: usize = NOT_FORM + 1;

pub const OR_FORM: usize = AND_FORM + 1;

pub const BOOLEAN_PRE_FORM: usize = OR_FORM + 1;

pub const COUNT_PRE_FORM: usize = BOOLEAN_PRE_FORM + TRUTH_FORMS;

pub const CAPPED_FORM: usize = COUNT_PRE_FORM + 1;

pub const IF_FORM: usize = CAPPED_FORM + 1;

pub const LITERAL_FORM: usize = IF_FORM + 1;

pub const PARAMETER_FORM: usize = LITERAL_FORM + COMPARISON_FORMS;

pub const VELOCITY_FORM: usize = PARAMETER_FORM + COMPARISON_FORMS;

// How many forms there are.
pub const FORM_COUNT: usize = VELOCITY_FORM + COMPARISON_FORMS;

// The bytes of the longest form.
const FORM_WIDTH: usize = 22;

// A form: a text that can follow `fN=` in a line, with the letters A, B and C where numbers stand, and the kind and the
// numbers that it settles. The first `len` bytes of its text count: a table of references to texts would be writable
// data, and the archive for C has none (docs/FIRMWARE.md).
#[derive(Clone, Copy)]
pub struct Form {
    pub settled: Equation,
    len: usize,
    bytes: [u8; FORM_WIDTH],
}

impl Form {
    ghost use Rattle.lustre.specs.Form.{form_value};

    // Its text.
    pub fn text(&self) -> &[u8]
        ensures { result.now ≡ (form_value self.now).text }
    {
        &self.bytes[..self.len.min(FORM_WIDTH)]
    }
}

// A form by its text, its kind and the number that tells it from the others of its kind; what else it settles is 0.
macro_rules! form {
    ($len:literal, $text:literal, $kind:ident $(, $letter:ident: $number:expr)?) => {
        Form {
            settled: Equation {
                kind: Kind::$kind as u32,
                $($letter: $number,)?
                ..ZEROS
            },
            len: $len,
            bytes: *$text,
        }
    };
}

// Every form, by the kinds of SPEC 5.3; those of one kind stand together, by the number that tells them apart.
const FORMS: [Form; FORM_COUNT] = [
    // 0: a signal.
    form!(4, b"sA;\n                  ", Signal),
    // 1: the start.
    form!(3, b"b;\n                   ", Start),
    // 2: a constant, a form for each.
    form!(7, b"false;\n               ", Constant, a: 0),
    form!(6, b"true;\n                ", Constant, a: 1),
    // 3: not.
    form!(8, b"not fA;\n              ", Not),
    // 4: and.
    form!(11, b"fA and fB;\n           ", And),
    // 5: or.
    form!(10, b"fA or fB;\n            ", Or),
    // 6: a memory of a boolean, a form for each first value.
    form!(16, b"false->pre(fA);\n      ", BooleanPre, c: 0),
    form!(15, b"true->pre(fA);\n       ", BooleanPre, c: 1),
    // 7: a memory of a count.
    form!(12, b"0->pre(fA);\n          ", CountPre),
    // 8: a count that is increased, up to the cap.
    form!(12, b"cap(fA,fB);\n          ", Capped),
    // 9: a count or 0.
    form!(22, b"if fA then fB else 0;\n", If),
    // 10: a count and a literal, a form for each comparison.
    form!(7, b"fA<=C;\n               ", CompareLiteral, b: traces::AT_MOST),
    form!(6, b"fA<C;\n                ", CompareLiteral, b: traces::BELOW),
    form!(6, b"fA=C;\n                ", CompareLiteral, b: traces::EQUAL),
    form!(6, b"fA>C;\n                ", CompareLiteral, b: traces::ABOVE),
    form!(7, b"fA>=C;\n               ", CompareLiteral, b: traces::AT_LEAST),
    // 11: a count and a parameter, a form for each comparison.
    form!(8, b"fA<=kC;\n              ", CompareParameter, b: traces::AT_MOST),
    form!(7, b"fA<kC;\n               ", CompareParameter, b: traces::BELOW),
    form!(7, b"fA=kC;\n               ", CompareParameter, b: traces::EQUAL),
    form!(7, b"fA>kC;\n               ", CompareParameter, b: traces::ABOVE),
    form!(8, b"fA>=kC;\n              ", CompareParameter, b: traces::AT_LEAST),
    // 12: the velocity and a literal, a form for each comparison.
    form!(6, b"v<=B;\n                ", Velocity, a: traces::AT_MOST),
    form!(5, b"v<B;\n                 ", Velocity, a: traces::BELOW),
    form!(5, b"v=B;\n                 ", Velocity, a: traces::EQUAL),
    form!(5, b"v>B;\n                 ", Velocity, a: traces::ABOVE),
    form!(6, b"v>=B;\n                ", Velocity, a: traces::AT_LEAST),
];

// All of them.
#[tactic(auto, unfolding(crate::specs::Form::forms))]
pub fn all_forms() -> &'static [Form]
    ensures { map form_value result.now ≡ forms }
{
    &FORMS
}

// A form by its number.
#[tactic(auto, using(crate::proofs::Values::values_length, crate::proofs::Values::value_at))]
pub fn form_at(f: usize) -> &'static Form
    requires { f < form_count }
    ensures { form_value result.now ≡ form_at f }
{
    &all_forms()[f]
}

// Whether a byte of a form stands for a number: A, B or C.
pub fn is_letter(x: u8) -> bool
    ensures { result ≡ letter? x }
{
    matches!(x, b'A'..=b'C')
}

// Numbers that stand for i alone, as in `fN=`.
pub fn only(i: usize) -> Equation
    requires { i < equation_limit }
    ensures { result ≡ own i }
{
    Equation {
        a: i as u32,
        ..ZEROS
    }
}

// The numbers of the last two of n flows, as in `w=fN;` and in `a=fN;`.
pub fn last_two(n: usize) -> Equation
    requires { (closing_count ≤ n) × (n ≤ equation_limit) }
    ensures { result ≡ last_two n }
{
    Equation {
        a: (n - tables::CLOSING) as u32,
        b: (n - 1) as u32,
        ..ZEROS
    }
}
