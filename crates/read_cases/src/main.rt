// Reads each line of standard input as a rule text and prints what reading it answers (SPEC 8.1). The lines of `stdin`
// and `stdout` are written by hand from the specification: the texts of SPEC 14.2, the rules of SPEC 14.1, and texts
// for each of the refusals SPEC 7.1, SPEC 7.2, SPEC 7.3, SPEC 7.4, SPEC 7.5, SPEC 7.6, SPEC 7.7, SPEC 7.8 and their
// order.
#![tactic(auto)]

use std::io::Read;

// Prints the answer for a text, and the text. A write that fails is passed over: it shows in what is compared with
// `stdout`.
fn show(rt: &impl Print, text: &[u8]) {
    let _ = match rules::read_rule(text) {
        Ok(nodes) => print!(rt; "nodes={nodes}: "),
        Err(refusal) => print!(rt; "refused={refusal}: "),
    };
    let _ = rt.write_all(text);
    let _ = print!(rt; "\n");
}

// Shows each line. A read that fails counts as the end of the input.
fn main(rt: HostRuntime) {
    let mut input = Vec::new(rt.alloc());
    let _ = rt.stdin().read_to_end(&mut input);
    for line in input.split_inclusive(|b| *b == b'\n') {
        show(&rt, line.strip_suffix(b"\n").unwrap_or(line));
    }
}
