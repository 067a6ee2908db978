// The program's two system calls: a read of standard input, and a write of standard output, each of them one call with
// no buffer between. No contract of the library's says that a call was made, or which bytes it moved: an error is an
// answer that each of them may give. So each function here is one line, and what it promises, `Came` and `Wrote`, can
// be had by no other crate but from a call of it (specs/Calls.antt). `at` says how many bytes of the stream came before
// these.
#![tactic(auto)]

ghost use Rattle.std.specs.Prelude.{◌≡◌, ◌+◌, ◌-◌, ◌≤◌, ◌<◌, length, take, drop};
ghost use Rattle.streams.specs.Calls.{Came, Wrote};

use std::io::{Read, Stdin, Stdout, Write};

// What `read_made` and `write_made` (specs/Calls.antt) ask for. It is private, so that no other crate can name it.
#[derive(Clone, Copy)]
enum Call {
    Made,
}

// Reads on after the first `to` bytes of buf, which stay. There is room for a byte at least, so 0 is answered at the
// end of the input and where a read fails (SPEC 11.3), and nowhere else.
pub fn read(mut stdin: Stdin, buf: &mut [u8], to: usize, at: u64) -> usize
    requires { to < length buf.old }
    ensures buf_unchanged { (take to buf.new ≡ take to buf.old)
        × (to + result ≤ length buf.old) }
    ensures came { Came at (take result (drop to buf.new)) }
{
    stdin.read(&mut buf[to..]).unwrap_or(0)
}

// Hands over the bytes of out from `from` up to `to`, and answers how many of them were taken, 0 where a write fails.
pub fn write(mut stdout: Stdout, out: &[u8], from: usize, to: usize, at: u64) -> usize
    requires { (from ≤ to) × (to ≤ length out.now) }
    ensures { Wrote (at + from) (take (to - from) (drop from out.now)) result }
{
    stdout.write(&out[from..to]).unwrap_or(0)
}
