// Cases of writing (SPEC 8.6) and reading (SPEC 8.7) Lustre text. Each prints a line; what it must print is written by
// hand from the specification.
#![tactic(auto)]

use lustre_read::read_lustre;
use lustre_write::write_lustre;

// What each number of a table and each byte of a buffer is before anything is written there.
const NUMBER: u32 = 7;

const BYTE: u8 = 33;

// How many bytes a buffer has that is long enough for each of the texts.
const ROOM: usize = 128;

// One number less than the longest table has.
const SHORT: usize = limits::TABLE - 1;

// Says whether what stands behind a result is kept (SPEC 1.5), and with a refusal all (SPEC 1.4): each of it is as it
// was made. Here and below, a write that fails is passed over: it shows in what is compared with `stdout`.
fn say_kept<T: PartialEq>(rt: &impl Print, rest: &[T], made: &T) {
    let kept = rest.iter().all(|x| x == made);
    let word = if kept { "kept" } else { "CHANGED" };
    let _ = print!(rt; ", rest {word}\n");
}

// Reads into a table, and says what reading answered, and what it left of the table.
fn reads_into(rt: &impl Print, name: &str, text: &[u8], table: &mut [u32]) {
    match read_lustre(text, table) {
        Ok(n) => {
            let _ = print!(rt; "{name}: equations={n}");
            if let Some(rest) = n.checked_mul(4).and_then(|k| table.get(k..)) {
                say_kept(rt, rest, &NUMBER);
            }
        }
        Err(refusal) => {
            let _ = print!(rt; "{name}: refused={refusal}");
            say_kept(rt, table, &NUMBER);
        }
    }
}

#[inline(never)]
fn reads(rt: &impl Print, name: &str, text: &[u8]) {
    reads_into(rt, name, text, &mut [NUMBER; limits::TABLE]);
}

// The same, into a table that is one number too short. A call of its own, so that no caller has two tables at once.
#[inline(never)]
fn reads_short(rt: &impl Print, name: &str, text: &[u8]) {
    reads_into(rt, name, text, &mut [NUMBER; SHORT]);
}

// Compares what was written with the text, and what it is read back as with the table (SPEC 12.2).
fn compare(rt: &impl Print, table: &[u32], n: usize, bytes: &[u8], text: &[u8]) {
    let word = if bytes == text {
        "as expected"
    } else {
        "OTHERWISE"
    };
    let _ = print!(rt; ", text {word}");
    let mut back = [NUMBER; limits::TABLE];
    let Ok(m) = read_lustre(bytes, &mut back) else {
        let _ = print!(rt; ", read REFUSED");
        return;
    };
    let _ = print!(rt; ", read equations={m}");
    let Some(k) = n.checked_mul(4) else {
        return;
    };
    if let (Some(back), Some(numbers)) = (back.get(..k), table.get(..k)) {
        let word = if back == numbers {
            "the same"
        } else {
            "OTHERS"
        };
        let _ = print!(rt; ", numbers {word}");
    }
}

// Writes to a buffer, and says what writing answered, and what it left of the buffer.
fn writes_to(rt: &impl Print, name: &str, table: &[u32], n: usize, text: &[u8], buffer: &mut [u8]) {
    match write_lustre(table, n, buffer) {
        Ok(length) => {
            let _ = print!(rt; "{name}: length={length}");
            if let Some((bytes, rest)) = buffer.split_at_checked(length) {
                compare(rt, table, n, bytes, text);
                say_kept(rt, rest, &BYTE);
            }
        }
        Err(refusal) => {
            let _ = print!(rt; "{name}: refused={refusal}");
            say_kept(rt, buffer, &BYTE);
        }
    }
}

fn writes(rt: &impl Print, name: &str, table: &[u32], n: usize, text: &[u8]) {
    writes_to(rt, name, table, n, text, &mut [BYTE; ROOM]);
}

// Kinds 0 to 2 (SPEC 5.3), with both constants (SPEC 9.3).
fn leaves(rt: &impl Print) {
    writes(
        rt,
        "signal",
        &[0, 63, 0, 0, 1, 0, 0, 0],
        2,
        b"let\nf0=s63;\nf1=b;\nw=f0;\na=f1;\ntel\n",
    );
    writes(
        rt,
        "start",
        &[1, 0, 0, 0, 1, 0, 0, 0],
        2,
        b"let\nf0=b;\nf1=b;\nw=f0;\na=f1;\ntel\n",
    );
    writes(
        rt,
        "false",
        &[2, 0, 0, 0, 1, 0, 0, 0],
        2,
        b"let\nf0=false;\nf1=b;\nw=f0;\na=f1;\ntel\n",
    );
    writes(
        rt,
        "true",
        &[1, 0, 0, 0, 2, 1, 0, 0],
        2,
        b"let\nf0=b;\nf1=true;\nw=f0;\na=f1;\ntel\n",
    );
}

// Kinds 3 to 5.
fn connectives(rt: &impl Print) {
    writes(
        rt,
        "not",
        &[1, 0, 0, 0, 3, 0, 0, 0],
        2,
        b"let\nf0=b;\nf1=not f0;\nw=f0;\na=f1;\ntel\n",
    );
    writes(
        rt,
        "and",
        &[0, 5, 0, 0, 1, 0, 0, 0, 4, 0, 1, 0],
        3,
        b"let\nf0=s5;\nf1=b;\nf2=f0 and f1;\nw=f1;\na=f2;\ntel\n",
    );
    writes(
        rt,
        "or",
        &[0, 0, 0, 0, 1, 0, 0, 0, 5, 1, 0, 0],
        3,
        b"let\nf0=s0;\nf1=b;\nf2=f1 or f0;\nw=f1;\na=f2;\ntel\n",
    );
}

// Kinds 6 to 9: a memory may name a flow of a later equation, and its own (SPEC 5.4).
fn memories(rt: &impl Print) {
    writes(
        rt,
        "false before",
        &[6, 1, 0, 0, 1, 0, 0, 0],
        2,
        b"let\nf0=false->pre(f1);\nf1=b;\nw=f0;\na=f1;\ntel\n",
    );
    writes(
        rt,
        "true before",
        &[1, 0, 0, 0, 6, 1, 0, 1],
        2,
        b"let\nf0=b;\nf1=true->pre(f1);\nw=f0;\na=f1;\ntel\n",
    );
    writes(
        rt,
        "cap",
        &[1, 0, 0, 0, 7, 2, 0, 0, 8, 1, 0, 0, 10, 2, 0, 12, 4, 0, 3, 0],
        5,
        b"let\nf0=b;\nf1=0->pre(f2);\nf2=cap(f1,f0);\nf3=f2<=12;\nf4=f0 and f3;\nw=f3;\na=f4;\ntel\n",
    );
    writes(
        rt,
        "if",
        &[1, 0, 0, 0, 7, 2, 0, 0, 9, 0, 1, 0, 10, 2, 0, 12, 4, 0, 3, 0],
        5,
        b"let\nf0=b;\nf1=0->pre(f2);\nf2=if f0 then f1 else 0;\nf3=f2<=12;\nf4=f0 and f3;\nw=f3;\na=f4;\ntel\n",
    );
}

// The started flow with its memory, and the verdict (SPEC 5.5), as compiled tables have them.
fn compiled(rt: &impl Print) {
    writes(
        rt,
        "started and verdict",
        &[1, 0, 0, 0, 0, 5, 0, 0, 6, 3, 0, 0, 5, 0, 2, 0, 4, 3, 1, 0],
        5,
        b"let\nf0=b;\nf1=s5;\nf2=false->pre(f3);\nf3=f0 or f2;\nf4=f3 and f1;\nw=f3;\na=f4;\ntel\n",
    );
}

// Kind 10, with each comparison (SPEC 9.4).
fn literals(rt: &impl Print) {
    writes(
        rt,
        "literals, op 0 to 2",
        &[7, 0, 0, 0, 10, 0, 0, 0, 10, 0, 1, 999999, 10, 0, 2, 10],
        4,
        b"let\nf0=0->pre(f0);\nf1=f0<=0;\nf2=f0<999999;\nf3=f0=10;\nw=f2;\na=f3;\ntel\n",
    );
    writes(
        rt,
        "literals, op 3 and 4",
        &[7, 0, 0, 0, 10, 0, 3, 7, 10, 0, 4, 100],
        3,
        b"let\nf0=0->pre(f0);\nf1=f0>7;\nf2=f0>=100;\nw=f1;\na=f2;\ntel\n",
    );
}

// Kind 11, with each comparison.
fn parameters(rt: &impl Print) {
    writes(
        rt,
        "parameters, op 0 to 2",
        &[7, 0, 0, 0, 11, 0, 0, 0, 11, 0, 1, 3, 11, 0, 2, 7],
        4,
        b"let\nf0=0->pre(f0);\nf1=f0<=k0;\nf2=f0<k3;\nf3=f0=k7;\nw=f2;\na=f3;\ntel\n",
    );
    writes(
        rt,
        "parameters, op 3 and 4",
        &[7, 0, 0, 0, 11, 0, 3, 1, 11, 0, 4, 2],
        3,
        b"let\nf0=0->pre(f0);\nf1=f0>k1;\nf2=f0>=k2;\nw=f1;\na=f2;\ntel\n",
    );
}

// Kind 12, with each comparison and the highest velocity.
fn velocities(rt: &impl Print) {
    writes(
        rt,
        "velocities, op 0 to 2",
        &[12, 0, 0, 0, 12, 1, 127, 0, 12, 2, 10, 0],
        3,
        b"let\nf0=v<=0;\nf1=v<127;\nf2=v=10;\nw=f1;\na=f2;\ntel\n",
    );
    writes(
        rt,
        "velocities, op 3 and 4",
        &[12, 3, 7, 0, 12, 4, 90, 0],
        2,
        b"let\nf0=v>7;\nf1=v>=90;\nw=f0;\na=f1;\ntel\n",
    );
}

// Writing refused by 10 (SPEC 7.10),
fn write_sizes(rt: &impl Print) {
    writes(rt, "no equation", &[1, 0, 0, 0], 0, b"");
    writes(rt, "one equation too many", &[1, 0, 0, 0], 4097, b"");
    writes(rt, "table too short", &[1, 0, 0, 0, 1, 0, 0], 2, b"");
    writes(rt, "10 before 11", &[1, 0, 0], 1, b"");
}

// by 11 (SPEC 7.11): a kind that SPEC 5.3 does not have, SPEC 5.1 and SPEC 5.4 broken,
fn write_rules(rt: &impl Print) {
    writes(
        rt,
        "unknown kind",
        &[13, 0, 0, 0, 1, 0, 0, 0, 1, 0, 0, 0],
        3,
        b"",
    );
    writes(rt, "unused number", &[1, 0, 0, 1, 1, 0, 0, 0], 2, b"");
    writes(rt, "operand not earlier", &[3, 0, 0, 0, 1, 0, 0, 0], 2, b"");
}

// numbers that kind 12 does not have,
fn write_velocities(rt: &impl Print) {
    writes(rt, "velocity 128", &[12, 4, 128, 0, 1, 0, 0, 0], 2, b"");
    writes(rt, "velocity, op 5", &[12, 5, 90, 0, 1, 0, 0, 0], 2, b"");
    writes(rt, "velocity, C not 0", &[12, 4, 90, 1, 1, 0, 0, 0], 2, b"");
}

// SPEC 5.5 broken,
fn write_closing(rt: &impl Print) {
    writes(rt, "one equation", &[1, 0, 0, 0], 1, b"");
    writes(rt, "last a count", &[1, 0, 0, 0, 7, 1, 0, 0], 2, b"");
    writes(
        rt,
        "last but one a count",
        &[7, 0, 0, 0, 1, 0, 0, 0],
        2,
        b"",
    );
}

// and by 15 (SPEC 7.15).
fn write_room(rt: &impl Print) {
    writes_to(
        rt,
        "11 before 15",
        &[1, 0, 0, 0, 7, 1, 0, 0],
        2,
        b"",
        &mut [BYTE; 31],
    );
    writes_to(
        rt,
        "one byte short",
        &[1, 0, 0, 0, 1, 0, 0, 0],
        2,
        b"",
        &mut [BYTE; 31],
    );
    writes_to(
        rt,
        "just long enough",
        &[1, 0, 0, 0, 1, 0, 0, 0],
        2,
        b"let\nf0=b;\nf1=b;\nw=f0;\na=f1;\ntel\n",
        &mut [BYTE; 32],
    );
}

// Texts that are read, and 9 (SPEC 7.9).
fn read_room(rt: &impl Print) {
    reads(
        rt,
        "eleven",
        b"let\nf0=b;\nf1=b;\nf2=b;\nf3=b;\nf4=b;\nf5=b;\nf6=b;\nf7=b;\nf8=b;\nf9=b;\nf10=not f9;\nw=f9;\na=f10;\ntel\n",
    );
    reads(
        rt,
        "velocity 127",
        b"let\nf0=v>=127;\nf1=b;\nw=f0;\na=f1;\ntel\n",
    );
    reads_short(
        rt,
        "one number short",
        b"let\nf0=b;\nf1=b;\nw=f0;\na=f1;\ntel\n",
    );
    reads_short(rt, "16 before 9", b"let\nf0=b;\nf1=b;\nw=f0;\na=f1;\ntel");
}

// Texts that no well-formed table has (SPEC 7.16): a number with a 0 in front (SPEC 2.8),
fn needless_zeros(rt: &impl Print) {
    reads(
        rt,
        "needless 0 in a line number",
        b"let\nf00=b;\nf1=b;\nw=f0;\na=f1;\ntel\n",
    );
    reads(
        rt,
        "needless 0 in a signal",
        b"let\nf0=s05;\nf1=b;\nw=f0;\na=f1;\ntel\n",
    );
    reads(
        rt,
        "needless 0 in the number after w=",
        b"let\nf0=b;\nf1=b;\nw=f00;\na=f1;\ntel\n",
    );
    reads(
        rt,
        "needless 0 in the last number",
        b"let\nf0=b;\nf1=b;\nw=f0;\na=f01;\ntel\n",
    );
    reads(
        rt,
        "needless 0 in a literal",
        b"let\nf0=0->pre(f0);\nf1=b;\nf2=f0<=012;\nw=f1;\na=f2;\ntel\n",
    );
}

// a wrong number of a line (SPEC 9.2) or of the last two flows (SPEC 9.1),
fn wrong_numbers(rt: &impl Print) {
    reads(
        rt,
        "wrong line number",
        b"let\nf1=b;\nf2=b;\nw=f0;\na=f1;\ntel\n",
    );
    reads(
        rt,
        "line left out",
        b"let\nf0=b;\nf2=b;\nf3=b;\nw=f2;\na=f3;\ntel\n",
    );
    reads(
        rt,
        "w= with the verdict",
        b"let\nf0=b;\nf1=b;\nw=f1;\na=f1;\ntel\n",
    );
    reads(
        rt,
        "w= with an earlier flow",
        b"let\nf0=b;\nf1=b;\nf2=b;\nw=f0;\na=f2;\ntel\n",
    );
    reads(
        rt,
        "a= with the started flow",
        b"let\nf0=b;\nf1=b;\nw=f0;\na=f0;\ntel\n",
    );
    reads(
        rt,
        "the two numbers exchanged",
        b"let\nf0=b;\nf1=b;\nw=f1;\na=f0;\ntel\n",
    );
}

// something missing or too much (SPEC 9.1),
fn wrong_frames(rt: &impl Print) {
    reads(rt, "empty", b"");
    reads(
        rt,
        "last byte 10 missing",
        b"let\nf0=b;\nf1=b;\nw=f0;\na=f1;\ntel",
    );
    reads(
        rt,
        "bytes after tel",
        b"let\nf0=b;\nf1=b;\nw=f0;\na=f1;\ntel\n\n",
    );
    reads(rt, "no let", b"f0=b;\nf1=b;\nw=f0;\na=f1;\ntel\n");
    reads(rt, "no line", b"let\nw=f0;\na=f1;\ntel\n");
}

// the last lines not both there, or not in their order,
fn wrong_last_lines(rt: &impl Print) {
    reads(rt, "no line w=", b"let\nf0=b;\nf1=b;\na=f1;\ntel\n");
    reads(rt, "no line a=", b"let\nf0=b;\nf1=b;\nw=f0;\ntel\n");
    reads(rt, "w= after a=", b"let\nf0=b;\nf1=b;\na=f1;\nw=f0;\ntel\n");
}

// one equation, which has no last but one (SPEC 5.5),
fn one_equation(rt: &impl Print) {
    reads(rt, "one equation", b"let\nf0=b;\na=f0;\ntel\n");
    reads(rt, "one equation, w=f0", b"let\nf0=b;\nw=f0;\na=f0;\ntel\n");
}

// another spelling (SPEC 9.2, and of a comparison SPEC 9.4),
fn wrong_spellings(rt: &impl Print) {
    reads(rt, "no semicolon", b"let\nf0=b\nf1=b;\nw=f0;\na=f1;\ntel\n");
    reads(
        rt,
        "no semicolon after w=",
        b"let\nf0=b;\nf1=b;\nw=f0\na=f1;\ntel\n",
    );
    reads(rt, "a space", b"let\nf0= b;\nf1=b;\nw=f0;\na=f1;\ntel\n");
    reads(
        rt,
        "unknown operator",
        b"let\nf0=0->pre(f0);\nf1=b;\nf2=f0=<1;\nw=f1;\na=f2;\ntel\n",
    );
}

// operands against SPEC 5.4,
fn wrong_operands(rt: &impl Print) {
    reads(
        rt,
        "wrong sort",
        b"let\nf0=0->pre(f0);\nf1=b;\nf2=not f0;\nw=f1;\na=f2;\ntel\n",
    );
    reads(
        rt,
        "not earlier",
        b"let\nf0=b;\nf1=not f1;\nw=f0;\na=f1;\ntel\n",
    );
    reads(rt, "later", b"let\nf0=not f1;\nf1=b;\nw=f0;\na=f1;\ntel\n");
    reads(
        rt,
        "no such equation",
        b"let\nf0=false->pre(f4096);\nf1=b;\nw=f0;\na=f1;\ntel\n",
    );
}

// one of the last two equations against SPEC 5.5,
fn wrong_closing(rt: &impl Print) {
    reads(
        rt,
        "last a count",
        b"let\nf0=b;\nf1=0->pre(f1);\nw=f0;\na=f1;\ntel\n",
    );
    reads(
        rt,
        "last but one a count",
        b"let\nf0=0->pre(f0);\nf1=b;\nw=f0;\na=f1;\ntel\n",
    );
}

// a velocity above the highest, in another spelling, or compared with something else than a literal,
fn wrong_velocities(rt: &impl Print) {
    reads(
        rt,
        "velocity 128",
        b"let\nf0=v>=128;\nf1=b;\nw=f0;\na=f1;\ntel\n",
    );
    reads(
        rt,
        "velocity with spaces",
        b"let\nf0=v >= 90;\nf1=b;\nw=f0;\na=f1;\ntel\n",
    );
    reads(
        rt,
        "needless 0 in a velocity",
        b"let\nf0=v>=090;\nf1=b;\nw=f0;\na=f1;\ntel\n",
    );
    reads(
        rt,
        "velocity and no literal",
        b"let\nf0=v>=;\nf1=b;\nw=f0;\na=f1;\ntel\n",
    );
    reads(
        rt,
        "velocity and a parameter",
        b"let\nf0=v>=k0;\nf1=b;\nw=f0;\na=f1;\ntel\n",
    );
}

// numbers above the ranges of SPEC 5.3.
fn wrong_ranges(rt: &impl Print) {
    reads(rt, "signal 64", b"let\nf0=s64;\nf1=b;\nw=f0;\na=f1;\ntel\n");
    reads(
        rt,
        "parameter 8",
        b"let\nf0=0->pre(f0);\nf1=b;\nf2=f0<k8;\nw=f1;\na=f2;\ntel\n",
    );
    reads(
        rt,
        "literal 1000000",
        b"let\nf0=0->pre(f0);\nf1=b;\nf2=f0<1000000;\nw=f1;\na=f2;\ntel\n",
    );
    reads(
        rt,
        "number past 32 bits",
        b"let\nf0=s4294967296;\nf1=b;\nw=f0;\na=f1;\ntel\n",
    );
}

fn main(rt: HostRuntime) {
    leaves(&rt);
    connectives(&rt);
    memories(&rt);
    compiled(&rt);
    literals(&rt);
    parameters(&rt);
    velocities(&rt);
    write_sizes(&rt);
    write_rules(&rt);
    write_velocities(&rt);
    write_closing(&rt);
    write_room(&rt);
    read_room(&rt);
    needless_zeros(&rt);
    wrong_numbers(&rt);
    wrong_frames(&rt);
    wrong_last_lines(&rt);
    one_equation(&rt);
    wrong_spellings(&rt);
    wrong_operands(&rt);
    wrong_closing(&rt);
    wrong_velocities(&rt);
    wrong_ranges(&rt);
}
