// The feeder: hands a card to the player piece by piece, and puts what its lines print into a buffer. What a line does
// is `player`'s; what a piece of a card does is defined in specs/Feed.antt.
#![tactic(auto)]

ghost use Rattle.std.specs.Prelude.{◌≡◌, ◌+◌, ◌-◌, ◌≤◌, length, take, drop};
ghost use Rattle.player.specs.Card.{held_by, SameArrays, longest_output};
ghost use Rattle.player.specs.Output.{output_bytes};
ghost use Rattle.feeder.specs.Feed.{Room, Stops, Admitted, fed_to, Runs, tail_bytes, tail_fed, tail_world, Feeds};
ghost use Rattle.feeder.specs.Feed.{Turns, Short, Finishes, placed};

use cards::{Phase, TickLine};
use limits::Refusal;
use player::{Output, Player, Watch};

// After a piece of a card: how many of its bytes are used up, and how many bytes of the output are filled.
#[derive(Clone, Copy)]
struct Fed {
    used: usize,
    filled: usize,
}

// After a turn of the program: how many bytes are left for the next one, and how many of the output are filled.
#[derive(Clone, Copy)]
pub struct Turn {
    pub rest: usize,
    pub filled: usize,
}

// Copies w to a place of out, and answers the place after it.
fn put_word(out: &mut [u8], at: usize, w: &[u8]) -> usize
    requires { at + length w.now ≤ length out.old }
    ensures { (result ≡ at + length w.now)
        × (out.new ≡ placed out.old at w.now) }
{
    let past = at + w.len();
    out[at..past].copy_from_slice(w);
    past
}

// Puts `verdict=`, the verdict's digit and a byte 10.
#[tactic(auto, unfolding(player::specs::Output::output_bytes))]
fn put_verdict(out: &mut [u8], at: usize, v: u32) -> usize
    requires { at + length (output_bytes (Output.Verdict v)) ≤ length out.old }
    ensures { (result ≡ at + length (output_bytes (Output.Verdict v)))
        × (out.new ≡ placed out.old at (output_bytes (Output.Verdict v))) }
{
    let mut line = *b"verdict=0\n";
    line[8] = b'0' + (v % 10) as u8;
    put_word(out, at, &line)
}

// Puts `refused=`, the refusal's number and a byte 10.
#[tactic(auto, unfolding(player::specs::Output::output_bytes, player::specs::Output::refusal_digits))]
fn put_refusal(out: &mut [u8], at: usize, refusal: Refusal) -> usize
    requires { at + length (output_bytes (Output.Refused refusal)) ≤ length out.old }
    ensures { (result ≡ at + length (output_bytes (Output.Refused refusal)))
        × (out.new ≡ placed out.old at (output_bytes (Output.Refused refusal))) }
{
    let number = u32::from(refusal);
    if number < 10 {
        let mut short = *b"refused=0\n";
        short[8] = b'0' + (number % 10) as u8;
        return put_word(out, at, &short);
    }
    let mut long = *b"refused=00\n";
    long[8] = b'0' + ((number / 10) % 10) as u8;
    long[9] = b'0' + (number % 10) as u8;
    put_word(out, at, &long)
}

// Puts the line of an output (SPEC 10.10) to a place of out, and answers the place after it.
#[tactic(auto, unfolding(player::specs::Output::output_bytes), using(crate::proofs::Moving::placed_none))]
fn put(out: &mut [u8], at: usize, output: Output) -> usize
    requires { at + length (output_bytes output) ≤ length out.old }
    ensures { (result ≡ at + length (output_bytes output))
        × (out.new ≡ placed out.old at (output_bytes output)) }
{
    match output {
        Output::Quiet => at,
        Output::Verdict(v) => put_verdict(out, at, v),
        Output::Refused(refusal) => put_refusal(out, at, refusal),
    }
}

// Runs the tick lines at the front of a piece, up to the first that is broken or not whole. The steps are known to
// have no refusal.
fn run_ticks(player: &mut Player<'_>, bytes: &[u8], out: &mut [u8]) -> Fed
    requires { Room bytes.now out.old × Admitted (held_by player.old) }
    ensures runs { Runs (held_by player.old) bytes.now result (held_by player.new) out.old out.new }
    ensures stops { Stops (held_by player.new) (drop result.used bytes.now) }
    ensures arrays { SameArrays player.old player.new }
{
    let hex = cards::hex_digits();
    let mut used = 0;
    let mut at = 0;
    while 0 < player.watch.stage.left {
        let edition = player.watch.stage.edition;
        let Some(found) = cards::tick_at(&hex, limits::VELOCITIES, edition, bytes, used) else {
            break;
        };
        let TickLine {
            start,
            signals,
            velocity,
        } = found.value;
        let now = traces::tick_of(start, signals, velocity, player.parameters);
        let n = player.watch.n;
        let table = &mut *player.table;
        let state = &mut *player.state;
        let values = &mut *player.values;
        let v = flows::step_passed(table, n, state, values, now);
        at = put_verdict(out, at, v);
        used = found.next;
        player.watch.stage.left -= 1;
    }
    Fed { used, filled: at }
}

// Where the ticks come next and no step has a refusal, runs the tick lines at the front of a piece: one check for all
// of them.
fn feed_ticks(player: &mut Player<'_>, bytes: &[u8], out: &mut [u8]) -> Fed
    requires { player.old.watch.stage.phase ≡ Phase.Ticks → Room bytes.now out.old }
    ensures runs { Runs (held_by player.old) bytes.now result (held_by player.new) out.old out.new }
    ensures stops { Admitted (held_by player.old) → Stops (held_by player.new) (drop result.used bytes.now) }
    ensures value { (Admitted (held_by player.old) → ⊥)
        → (result ≡ fed_to 0 0) × (held_by player.new ≡ held_by player.old) }
    ensures arrays { SameArrays player.old player.new }
{
    let none = Fed { used: 0, filled: 0 };
    if player.watch.stage.phase != Phase::Ticks {
        return none;
    }
    let n = player.watch.n;
    let now = traces::tick_of(0, 0, 0, player.parameters);
    let table = &mut *player.table;
    let state = &mut *player.state;
    let values = &mut *player.values;
    let checked = flows::step_checked(table, n, state, values, now);
    if checked.is_err() {
        return none;
    }
    run_ticks(player, bytes, out)
}

// The end of a piece, from the place `used` up to `to`: the start of a line is left over, and where it is over-long
// already the card is over.
#[tactic(auto, using(crate::proofs::Resuming::tails))]
fn feed_tail(player: &mut Player<'_>, used: usize, to: usize, out: &mut [u8], at: usize) -> Fed
    requires { (used ≤ to)
        × (at + length (tail_bytes player.old.watch.stage.phase (to - used)) ≤ length out.old) }
    ensures fed { (result ≡ tail_fed player.old.watch.stage.phase used to at)
        × (held_by player.new ≡ tail_world (held_by player.old) (to - used))
        × (out.new ≡ placed out.old at (tail_bytes player.old.watch.stage.phase (to - used))) }
    ensures arrays { SameArrays player.old player.new }
{
    if to - used < limits::LINE {
        return Fed { used, filled: at };
    }
    let output = player.end_over_long();
    let filled = put(out, at, output);
    Fed { used: to, filled }
}

// Takes the lines that are whole, and has out hold what they print.
fn feed(player: &mut Player<'_>, bytes: &[u8], out: &mut [u8]) -> Fed
    requires { Room bytes.now out.old }
    ensures feeds { Feeds (held_by player.old) bytes.now result (held_by player.new) out.old out.new }
    ensures arrays { SameArrays player.old player.new }
{
    let mut used = 0;
    let mut at = 0;
    loop {
        let ran = feed_ticks(player, &bytes[used..], &mut out[at..]);
        used += ran.used;
        at += ran.filled;
        let to = used + lists::line_length(bytes, used);
        if to == bytes.len() {
            return feed_tail(player, used, to, out, at);
        }
        let output = player.on_line(bytes, used, to);
        at = put(out, at, output);
        used = to + 1;
    }
}

// A turn of the program between a read and a write: the first `to` bytes of buf are at hand. What is left over of them
// is moved to the front of buf.
pub fn run_turn(player: &mut Player<'_>, buf: &mut [u8], to: usize, out: &mut [u8]) -> Turn
    requires { (to ≤ length buf.old) × (to + longest_output ≤ length out.old) }
    ensures turns { Turns (held_by player.old) buf.old to result (held_by player.new) buf.new out.old out.new }
    ensures arrays { SameArrays player.old player.new }
{
    let Fed { used, filled } = feed(player, &buf[..to], out);
    buf.copy_within(used..to, 0);
    Turn {
        rest: to - used,
        filled,
    }
}

// The end of the input: the first `to` bytes of buf are left over. Answers how many bytes are to be written.
pub fn finish(w: Watch, buf: &[u8], to: usize, out: &mut [u8]) -> usize
    requires { (to ≤ length buf.now) × (Short (take to buf.now) × (longest_output ≤ length out.old)) }
    ensures { Finishes w (take to buf.now) result out.old out.new }
{
    let output = player::last_output(cards::end(w.stage, to));
    put(out, 0, output)
}
