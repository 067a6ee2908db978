// Read Lustre text into a table (SPEC 8.7), with the refusals 16 (SPEC 7.16) and 9 (SPEC 7.9). Which texts are read,
// and what reading does, stand in crate `lustre`, specs/Text.antt and specs/Read.antt.
#![tactic(auto)]

ghost use Rattle.std.specs.Prelude.{◌≡◌, ◌+◌, ◌*◌, ◌≤◌, ◌<◌, length, drop};
ghost use Rattle.limits.specs.Limits.{equation_limit, literal_count, velocity_count, table_room};
ghost use Rattle.lustre.specs.Read.{AfterRead};
ghost use Rattle.lustre.specs.Form.{put};
ghost use Rattle.lustre.specs.Scan.{scan};
ghost use Rattle.lustre_read.specs.Inner.{scan_piece, scan_seen, end_seen, line_seen, stored, AllLinesAt};
ghost use Rattle.lustre_read.specs.Inner.{proposal_seen, table_seen};

use limits::Refusal;
use lists::{Decimal, read_decimal};
use lustre::{all_forms, is_letter, last_two, only};
use tables::{Equation, check_table};

// The numbers that a form has in the text, as far as it is read, and where the rest of the text begins.
#[derive(Clone, Copy)]
struct Found {
    numbers: Equation,
    next: usize,
}

// The numbers with v where that letter stands.
fn put_in(e: Equation, x: u8, v: u32) -> Equation
    ensures { result ≡ put e x v }
{
    match x {
        b'A' => Equation { a: v, ..e },
        b'B' => Equation { b: v, ..e },
        _ => Equation { c: v, ..e },
    }
}

// A byte of a form, or the number that it stands for.
#[tactic(auto, using(crate::proofs::Reading::pieces))]
fn scan_piece(x: u8, text: &[u8], p: usize, e: Equation) -> Option<Found>
    ensures { scan_seen text.now result ≡ scan_piece x (drop p text.now) e }
{
    if is_letter(x) {
        let Decimal::Is { value, next } = read_decimal(text, p, limits::LAST_LITERAL) else {
            return None;
        };
        return Some(Found {
            numbers: put_in(e, x, value),
            next,
        });
    }
    if *text.get(p)? != x {
        return None;
    }
    Some(Found {
        numbers: e,
        next: p + 1,
    })
}

// A form at p.
#[tactic(auto, using(crate::proofs::Reading::forms))]
fn scan_form(form: &[u8], text: &[u8], p: usize, e: Equation) -> Option<Found>
    ensures { scan_seen text.now result
        ≡ scan form.now (drop p text.now) e }
{
    let mut found = Found {
        numbers: e,
        next: p,
    };
    for x in form {
        found = scan_piece(*x, text, found.next, found.numbers)?;
    }
    Some(found)
}

// What follows `fN=` in a line, at p, of whichever form.
fn read_end(text: &[u8], p: usize) -> Option<Found>
    ensures { end_seen text.now p result }
{
    for form in all_forms() {
        if let Some(found) = scan_form(form.text(), text, p, form.settled) {
            return Some(found);
        }
    }
    None
}

// The line of equation i at p.
fn read_line(text: &[u8], p: usize, i: usize) -> Option<Found>
    requires { i < equation_limit }
    ensures { line_seen text.now p i result }
{
    let own = scan_form(b"fA=", text, p, only(0))?;
    if own.numbers.a as usize != i {
        return None;
    }
    read_end(text, own.next)
}

// Equation i of the table.
fn store_equation(table: &mut [u32], i: usize, e: Equation)
    requires { 4 * i + 4 ≤ length table.old }
    ensures { table.new ≡ stored table.old i e }
{
    table[4 * i] = e.kind;
    table[4 * i + 1] = e.a;
    table[4 * i + 2] = e.b;
    table[4 * i + 3] = e.c;
}

// How many equations' lines stand in the text, and where they end.
#[derive(Clone, Copy)]
struct Lines {
    n: usize,
    next: usize,
}

// The equations' lines from p on, into the table.
fn read_lines(text: &[u8], p: usize, table: &mut [u32]) -> Lines
    requires { table_room ≤ length table.old }
    ensures { AllLinesAt text.now p table.new result.n result.next }
{
    let mut next = p;
    for i in 0..limits::EQUATIONS {
        let Some(line) = read_line(text, next, i) else {
            return Lines { n: i, next };
        };
        store_equation(table, i, line.numbers);
        next = line.next;
    }
    Lines {
        n: limits::EQUATIONS,
        next,
    }
}

// The whole text, into the table: how many equations it proposes, if any.
fn read_proposal(text: &[u8], table: &mut [u32]) -> Option<usize>
    requires { table_room ≤ length table.old }
    ensures { proposal_seen text.now table.new result }
{
    let head = scan_form(b"let\n", text, 0, only(0))?;
    let Lines { n, next } = read_lines(text, head.next, table);
    let tail = scan_form(b"w=fA;\na=fB;\ntel\n", text, next, only(0))?;
    if tail.next < text.len() {
        return None;
    }
    if n < tables::CLOSING || tail.numbers != last_two(n) {
        return None;
    }
    Some(n)
}

// The table whose text this is, if there is one, where there are so many velocities.
fn read_table(velocities: u32, text: &[u8], table: &mut [u32]) -> Option<usize>
    requires { (velocities ≤ literal_count) × (table_room ≤ length table.old) }
    ensures { table_seen velocities text.now table.new result }
{
    let n = read_proposal(text, table)?;
    check_table(velocities, table, n).ok()?;
    Some(n)
}

// Reads Lustre text into a table (SPEC 8.7). The text is read into a table of its own first, so that a refusal changes
// nothing (SPEC 1.4).
pub fn read_lustre(text: &[u8], table: &mut [u32]) -> Result<usize, Refusal>
    ensures { AfterRead velocity_count text.now table.old result table.new }
{
    let mut own = [0u32; limits::TABLE];
    let n = read_table(limits::VELOCITIES, text, &mut own).ok_or(Refusal::NoTable)?;
    if table.len() < limits::TABLE {
        return Err(Refusal::ShortTable);
    }
    lists::copy(&own, 4 * n, table);
    Ok(n)
}
