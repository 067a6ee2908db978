// Write a table as Lustre text (SPEC 8.6), with refusal 15 (SPEC 7.15). What the text of a table is, and what writing
// does, stand in crate `lustre`, specs/Text.antt and specs/Write.antt.
#![tactic(auto)]

ghost use Rattle.std.specs.Prelude.{◌≡◌, ◌+◌, ◌*◌, ◌≤◌, ◌<◌, length, set};
ghost use Rattle.limits.specs.Limits.{equation_limit, velocity_count};
ghost use Rattle.tables.specs.Table.{equation_at};
ghost use Rattle.lustre.specs.Numerals.{number_text};
ghost use Rattle.lustre.specs.Text.{line_rest, line_text, lines, text_of};
ghost use Rattle.lustre.specs.Write.{after_write, write_effect};
ghost use Rattle.lustre.specs.Form.{slot, piece, render, form_width, form_of, Plain, PlainTable};
ghost use Rattle.lustre_write.specs.Placed.{Placed, piece_room, form_room, line_room};

use limits::Refusal;
use lustre::{form_at, is_letter, last_two, only};
use tables::{Equation, Kind, Table, check_table};

// A byte at i; past the end nothing is stored.
fn store(out: &mut [u8], i: usize, x: u8)
    ensures { out.new ≡ set out.old i x }
{
    if i < out.len() {
        out[i] = x;
    }
}

// The number that a letter stands for.
fn number_of(e: Equation, x: u8) -> u32
    ensures { result ≡ slot e x }
{
    match x {
        b'A' => e.a,
        b'B' => e.b,
        _ => e.c,
    }
}

// The decimal digits of x. This and every writer below stores what has room and returns the length of the whole text.
fn write_number(x: u32, out: &mut [u8]) -> usize
    ensures { Placed piece_room (number_text x) out.old out.new result }
{
    if x < 10 {
        store(out, 0, b'0' + x as u8);
        return 1;
    }
    let at = write_number(x / 10, out);
    store(out, at, b'0' + (x % 10) as u8);
    at + 1
}

// A byte of a form, or the number that it stands for.
fn write_piece(e: Equation, x: u8, out: &mut [u8]) -> usize
    ensures { Placed piece_room (piece e x) out.old out.new result }
{
    if is_letter(x) {
        return write_number(number_of(e, x), out);
    }
    store(out, 0, x);
    1
}

// The text of a form.
fn write_form(form: &[u8], e: Equation, out: &mut [u8]) -> usize
    requires { length form.now ≤ form_width }
    ensures { Placed form_room (render e form.now)
        out.old out.new result }
{
    let mut at: usize = 0;
    for x in form {
        let q = at.min(out.len());
        at += write_piece(e, *x, &mut out[q..]);
    }
    at
}

// The number of an equation's form.
#[tactic(auto, unfolding(lustre::specs::Form::forms, lustre::specs::Form::form_number))]
fn form_of(e: Equation) -> usize
    ensures { result ≡ form_of e }
{
    let Ok(kind) = Kind::try_from(e.kind) else {
        return 0;
    };
    match kind {
        Kind::Signal => lustre::SIGNAL_FORM,
        Kind::Start => lustre::START_FORM,
        Kind::Constant => lustre::CONSTANT_FORM + e.a as usize,
        Kind::Not => lustre::NOT_FORM,
        Kind::And => lustre::AND_FORM,
        Kind::Or => lustre::OR_FORM,
        Kind::BooleanPre => lustre::BOOLEAN_PRE_FORM + e.c as usize,
        Kind::CountPre => lustre::COUNT_PRE_FORM,
        Kind::Capped => lustre::CAPPED_FORM,
        Kind::If => lustre::IF_FORM,
        Kind::CompareLiteral => lustre::LITERAL_FORM + e.b as usize,
        Kind::CompareParameter => lustre::PARAMETER_FORM + e.b as usize,
        Kind::Velocity => lustre::VELOCITY_FORM + e.a as usize,
    }
}

// What follows `fN=` in the line of an equation.
fn write_end(e: Equation, out: &mut [u8]) -> usize
    requires { Plain e }
    ensures { Placed form_room (line_rest e) out.old out.new result }
{
    write_form(form_at(form_of(e)).text(), e, out)
}

// The line of equation i, into the part of the buffer that is not filled yet; its length is returned (SPEC 12.5).
fn write_line(table: Table<'_>, i: usize, out: &mut [u8]) -> usize
    requires { (i < equation_limit) × (i < table.n) × Plain (equation_at table.numbers.now i) }
    ensures { Placed line_room (line_text i (equation_at table.entry.numbers.now i))
        out.old out.new result }
{
    let p = write_form(b"fA=", only(i), out);
    let q = p.min(out.len());
    p + write_end(table.equation(i), &mut out[q..])
}

// The lines of the equations.
fn write_lines(table: Table<'_>, out: &mut [u8]) -> usize
    requires { PlainTable table.numbers.now table.n }
    ensures { Placed (line_room * table.entry.n) (lines table.entry.numbers.now table.entry.n) out.old out.new result }
{
    let mut at: usize = 0;
    for i in 0..table.n {
        let q = at.min(out.len());
        at += write_line(table, i, &mut out[q..]);
    }
    at
}

// The text of a table.
fn write_text(table: Table<'_>, out: &mut [u8]) -> usize
    requires { PlainTable table.numbers.now table.n }
    ensures { Placed (form_room + line_room * table.entry.n + form_room)
        (text_of table.entry.numbers.now table.entry.n) out.old out.new result }
{
    let p = write_form(b"let\n", only(0), out);
    let q = p.min(out.len());
    let s = p + write_lines(table, &mut out[q..]);
    let u = s.min(out.len());
    s + write_form(b"w=fA;\na=fB;\ntel\n", last_two(table.n), &mut out[u..])
}

// Writes a table as Lustre text (SPEC 8.6). How long the text is shows before its first byte is stored, by writing it
// where there is no room at all.
#[tactic(auto, using(crate::proofs::Writing::writing))]
pub fn write_lustre(table: &[u32], n: usize, text: &mut [u8]) -> Result<usize, Refusal>
    ensures { after_write result text.new
        ≡ write_effect velocity_count table.now n text.old }
{
    check_table(limits::VELOCITIES, table, n)?;
    let table = Table { numbers: table, n };
    if text.len() < write_text(table, &mut []) {
        return Err(Refusal::ShortText);
    }
    Ok(write_text(table, text))
}
