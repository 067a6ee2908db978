// The program `towerwatch`: reads a card from standard input and prints what it says, piece by piece and in constant
// memory (SPEC 11.1). All but the reads and the writes is in `feeder`, where it is proved that what is printed does not
// depend on the pieces that a card comes in (SPEC 11.2). Here `once` promises that what it hands to the writes is what
// its piece prints, and `run` that all of it together is what a card prints, and that it stops before its end only
// after a write that failed (specs/Run.antt, and by what the card shows specs/Program.antt). The two system calls are
// in `streams`. The card of SPEC 14.3 is the crate's test.
#![tactic(auto)]

ghost use Rattle.std.specs.Prelude.{cond, List, [], ◌≡◌, ℕ, ◌+◌, ◌≤◌, ◌<◌, length, take, drop};
ghost use Rattle.player.specs.Card.{World, world_of, start_world, held_by};
ghost use Rattle.feeder.specs.Feed.{Ready};
ghost use Rattle.towerwatch.specs.Run.{output_room, Takes, Once, Whole};
ghost use Rattle.towerwatch.specs.Program.{Program};
ghost use Rattle.towerwatch.specs.Turns.{Handed};

use feeder::Turn;
use player::Player;
use std::io::{Stdin, Stdout};

// The bytes that the output has room for.
const OUTPUT: usize = 65536;

// How the program stands after a turn.
#[derive(Clone, Copy, PartialEq, Eq)]
enum Stand {
    // It reads on.
    Reading,
    // The input is over.
    Ended,
    // The card is over: nothing more is printed, whatever comes.
    Over,
    // A write took nothing.
    Stuck,
}

// What the program keeps between two turns: the player, the buffer that is read into, whose first `to` bytes are left
// over, and the buffer that what is printed is put into.
#[derive(Drop)]
struct Memory<'a> {
    player: Player<'a>,
    buf: &'a mut [u8],
    to: usize,
    out: &'a mut [u8],
    ghost ready: { Ready buf.now to out.now × (length out.now ≡ output_room) },
}

// A turn: so many bytes came in, and so many were handed over.
#[derive(Clone, Copy)]
struct Next {
    got: usize,
    shown: usize,
    stand: Stand,
}

// A whole run: so many bytes came in, and so many were handed over.
#[derive(Clone, Copy)]
struct Total {
    got: u64,
    shown: u64,
    stand: Stand,
}

// Hands over the first n bytes, in as many writes as it takes (SPEC 11.3), and answers whether all were taken. So many
// bytes of the output came before.
fn hand(stdout: Stdout, out: &[u8], n: usize, at: u64) -> bool
    requires { n ≤ length out.now }
    ensures { Handed at (take n out.now) result }
{
    let mut from = 0;
    while from < n {
        let k = streams::write(stdout, out, from, n, at);
        if k == 0 {
            return false;
        }
        from += k;
    }
    true
}

// After the last write.
fn ended(done: bool) -> Stand
    ensures { result ≡ cond done Stand.Ended Stand.Stuck }
{
    if done { Stand::Ended } else { Stand::Stuck }
}

// After another one.
fn going(done: bool, over: bool) -> Stand
    ensures { result ≡ cond done (cond over Stand.Over Stand.Reading) Stand.Stuck }
{
    if !done {
        Stand::Stuck
    } else if over {
        Stand::Over
    } else {
        Stand::Reading
    }
}

impl Memory<'_> {
    // The end of the input, where no byte came in: what the bytes that are left over print, whatever the lent arrays
    // hold. `at` bytes of the output came before.
    fn end(&mut self, stdout: Stdout, got: usize, at: u64) -> Next
        requires { got ≡ 0 }
        ensures { (ps t c v : List ℕ) (w : World) (s : List ℕ) →
            Takes at [] (world_of self.old.player.watch ps t c v) (take self.old.to self.old.buf.now) result w s
            self.new.out.now }
    {
        let watch = self.player.watch;
        let to = self.to;
        let buf = &mut *self.buf;
        let out = &mut *self.out;
        let shown = feeder::finish(watch, buf, to, out);
        let done = hand(stdout, out, shown, at);
        let stand = ended(done);
        Next { got, shown, stand }
    }

    // A piece of `got` bytes, after those that were left over: what it prints. `at` bytes of the output came before.
    fn piece(&mut self, stdout: Stdout, got: usize, at: u64) -> Next
        requires { (self.old.to + got ≤ length self.old.buf.now) × (0 < got) }
        ensures { Takes at (take got (drop self.old.to self.old.buf.now)) (held_by self.old.player)
            (take self.old.to self.old.buf.now) result
            (held_by self.new.player) (take self.new.to self.new.buf.now) self.new.out.now }
    {
        let to = self.to;
        let buf = &mut *self.buf;
        let out = &mut *self.out;
        let Turn { rest, filled } = feeder::run_turn(&mut self.player, buf, to + got, out);
        self.to = rest;
        let done = hand(stdout, out, filled, at);
        let over = player::is_over(self.player.watch);
        let stand = going(done, over);
        Next {
            got,
            shown: filled,
            stand,
        }
    }

    // One read, and what it prints. `before` bytes of the input came before, and `at` bytes of the output.
    fn once(&mut self, stdin: Stdin, stdout: Stdout, before: u64, at: u64) -> Next
        ensures { Once before at (held_by self.old.player) (take self.old.to self.old.buf.now) result
            (held_by self.new.player) (take self.new.to self.new.buf.now) self.new.out.now }
    {
        let to = self.to;
        let buf = &mut *self.buf;
        let got = streams::read(stdin, buf, to, before);
        let over = got == 0;
        if over {
            return self.end(stdout, got, at);
        }
        self.piece(stdout, got, at)
    }

    // Reads until the input ends, the card is over or a write fails.
    fn run(&mut self, stdin: Stdin, stdout: Stdout) -> Total
        requires { (held_by self.old.player ≡ start_world) × (self.old.to ≡ 0) }
        ensures whole { Whole result }
        ensures program { Program result }
    {
        let mut got = 0u64;
        let mut shown = 0u64;
        loop {
            let n = self.once(stdin, stdout, got, shown);
            got += n.got as u64;
            shown += n.shown as u64;
            let stand = n.stand;
            if stand != Stand::Reading {
                return Total { got, shown, stand };
            }
        }
    }
}

// The table has room for the largest rule, state and values for its equations; out is longer than buf by a refusal. The
// exit status is 0, however the run ended (SPEC 11.3).
fn main(rt: HostRuntime) {
    let mut buf = [0u8; 32768];
    let mut out = [0u8; OUTPUT];
    let mut table = [0u32; limits::TABLE];
    let mut state = [0u32; limits::EQUATIONS];
    let mut values = [0u32; limits::EQUATIONS];
    let mut memory = Memory {
        player: Player {
            watch: player::begin(),
            parameters: [0; limits::PARAMETERS],
            table: &mut table,
            state: &mut state,
            values: &mut values,
        },
        buf: &mut buf,
        to: 0,
        out: &mut out,
    };
    memory.run(rt.stdin(), rt.stdout());
}
