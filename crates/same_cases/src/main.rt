// Reads pairs of lines of standard input as two rules and prints whether they are the same rule (SPEC 8.3). A line has
// the eight parameters as decimal numbers, a space after each, and then the rule text. Brackets and spaces of a text do
// not count (SPEC 3.7), nor does a parameter that the tree does not name (SPEC 3.11); the parameters can be refused
// (SPEC 7.13). The lines of `stdin` and `stdout` are written by hand from the specification.
#![tactic(auto)]

ghost use Rattle.std.specs.Prelude.{◌≤◌, length};
ghost use Rattle.std.specs.Option.{IfSome};

use lists::Decimal;
use std::io::Read;

// Sets the parameters to the numbers that a line begins with, a space after each: the text behind the eight, or none
// where the line does not begin so.
fn read_parameters<'a>(
    line: &'a [u8],
    parameters: &mut [u32; limits::PARAMETERS],
) -> Option<&'a [u8]>
    ensures { IfSome result (λ text. length text.now ≤ length line.now) }
{
    let mut text = line;
    for parameter in parameters.iter_mut() {
        let Decimal::Is { value, next } = lists::read_decimal(text, 0, u32::MAX) else {
            return None;
        };
        text = text[next..].strip_prefix(b" ")?;
        *parameter = value;
    }
    Some(text)
}

// The same; where a line does not begin with eight numbers, that is said, which no line of `stdout` says, and there is
// no text behind them.
fn read_line<'a>(
    rt: &impl Print,
    line: &'a [u8],
    parameters: &mut [u32; limits::PARAMETERS],
) -> &'a [u8]
    ensures { length result.now ≤ length line.now }
{
    if let Some(text) = read_parameters(line, parameters) {
        return text;
    }
    let _ = print!(rt; "no eight numbers: ");
    &[]
}

// Prints the answer for two lines, and the lines. A write that fails is passed over: it shows in what is compared with
// `stdout`.
fn show(rt: &impl Print, first: &[u8], second: &[u8]) {
    let mut first_parameters = [0u32; limits::PARAMETERS];
    let first_text = read_line(rt, first, &mut first_parameters);
    let mut second_parameters = [0u32; limits::PARAMETERS];
    let second_text = read_line(rt, second, &mut second_parameters);
    let _ = match rules::same_rule(
        first_text,
        &first_parameters,
        second_text,
        &second_parameters,
    ) {
        Ok(true) => print!(rt; "yes: "),
        Ok(false) => print!(rt; "no: "),
        Err(refusal) => print!(rt; "refused={refusal}: "),
    };
    let _ = rt.write_all(first);
    let _ = print!(rt; " / ");
    let _ = rt.write_all(second);
    let _ = print!(rt; "\n");
}

// Shows each pair of lines; where the last line has none to go with it, the empty line does.
fn show_pairs(rt: &impl Print, text: &[u8]) {
    let mut first = None;
    for line in text.split_inclusive(|b| *b == b'\n') {
        let line = line.strip_suffix(b"\n").unwrap_or(line);
        match first.take() {
            None => first = Some(line),
            Some(first) => show(rt, first, line),
        }
    }
    if let Some(first) = first {
        show(rt, first, &[]);
    }
}

// A read that fails counts as the end of the input.
fn main(rt: HostRuntime) {
    let mut input = Vec::new(rt.alloc());
    let _ = rt.stdin().read_to_end(&mut input);
    show_pairs(&rt, &input);
}
