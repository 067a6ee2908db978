// The player: what one line of a card does. It compiles a card's rule and steps its observer at each tick line. What a
// line says is `cards`'; what a card prints is defined in specs/Card.antt.
#![tactic(auto)]

ghost use Rattle.std.specs.Prelude.{◌≡◌, List, ℕ};
ghost use Rattle.limits.specs.Context.{standard_context};
ghost use Rattle.lists.specs.Line.{line_from};
ghost use Rattle.cards.specs.Says.{says_by, broken_by, is_over};
ghost use Rattle.reader.specs.Part.{rule_from};
ghost use Rattle.player.specs.Card.{WholeLine, start_world, held_by, SameArrays, after_rule, rule_made};
ghost use Rattle.player.specs.Card.{step_of, stepped_world, over_world, ended_by, effect_of, answered, lined};
ghost use Rattle.player.specs.Card.{last_output};

use cards::{Content, Phase, Stage, TickLine};
use limits::Refusal;

// What the program prints for a line.
#[derive(Clone, Copy)]
pub enum Output {
    Quiet,
    Verdict(u32),
    Refused(Refusal),
}

// What is known of a card between two lines: its stage, and the number of equations.
#[derive(Clone, Copy)]
pub struct Watch {
    pub stage: Stage,
    pub n: usize,
}

// The player's memory: what is known of the card, its parameters, and the arrays that are lent for the rule's table,
// the state of its memories and the flow values.
#[derive(Drop)]
pub struct Player<'a> {
    pub watch: Watch,
    pub parameters: [u32; limits::PARAMETERS],
    pub table: &'a mut [u32],
    pub state: &'a mut [u32],
    pub values: &'a mut [u32],
}

impl Player<'_> {
    // What the line at the place `at` does, which ends before the place `to`.
    pub fn on_line(&mut self, bytes: &[u8], at: usize, to: usize) -> Output
        requires { WholeLine bytes.now at to }
        ensures line { effect_of result (held_by self.new) ≡ lined (held_by self.old) (line_from bytes.now at) }
        ensures arrays { SameArrays self.old self.new }
    {
        match self.play(bytes, at, to) {
            Ok(output) => output,
            Err(refusal) => {
                self.stop();
                Output::Refused(refusal)
            }
        }
    }

    // The start of a line that is over-long already: the card is over.
    pub fn end_over_long(&mut self) -> Output
        ensures line { effect_of result (held_by self.new)
            ≡ ended_by (last_output (broken_by self.old.watch.stage.phase)) (held_by self.old) }
        ensures arrays { SameArrays self.old self.new }
    {
        let said = cards::broken(self.watch.stage.phase);
        self.stop();
        last_output(said)
    }

    // The same as `on_line` where the line is not refused, or its refusal: the card is to be over.
    fn play(&mut self, bytes: &[u8], at: usize, to: usize) -> Result<Output, Refusal>
        requires { WholeLine bytes.now at to }
        ensures line { answered result (held_by self.new) ≡ lined (held_by self.old) (line_from bytes.now at) }
        ensures arrays { SameArrays self.old self.new }
    {
        let stage = self.watch.stage;
        let content = cards::read_line(limits::VELOCITIES, stage, &bytes[at..to])?;
        let next = cards::stage_after(stage, Ok(content));
        match content {
            Content::Edition(_) | Content::Nothing => self.watch = Watch { stage: next, n: 0 },
            Content::Parameters(ps) => {
                self.parameters = ps;
                self.watch = Watch { stage: next, n: 0 };
            }
            Content::Rule => {
                let n = rule_line(bytes, at, self.table, self.state)?;
                self.watch = Watch { stage: next, n };
            }
            Content::Count(_) => self.watch.stage = next,
            Content::Tick(tick) => {
                let verdict = self.step(tick)?;
                self.watch.stage = next;
                return Ok(Output::Verdict(verdict));
            }
        }
        Ok(Output::Quiet)
    }

    // A tick line: one step.
    fn step(&mut self, tick: TickLine) -> Result<u32, Refusal>
        ensures answer { result ≡ (step_of tick (held_by self.old)).answer }
        ensures world { held_by self.new ≡ stepped_world (step_of tick (held_by self.old)) (held_by self.old) }
        ensures arrays { SameArrays self.old self.new }
    {
        let n = self.watch.n;
        let TickLine {
            start,
            signals,
            velocity,
        } = tick;
        let now = traces::tick_of(start, signals, velocity, self.parameters);
        let table = &mut *self.table;
        let state = &mut *self.state;
        let values = &mut *self.values;
        flows::step(table, n, state, values, now)
    }

    // The card is over.
    fn stop(&mut self)
        ensures over { held_by self.new ≡ over_world (held_by self.old) }
        ensures arrays { SameArrays self.old self.new }
    {
        self.watch = Watch {
            stage: Stage {
                phase: Phase::Over,
                edition: cards::NO_EDITION,
                left: 0,
            },
            n: 0,
        };
    }
}

// The rule text of the line at a place, a part of the bytes (SPEC 10.4), is compiled, and its fresh state made: the
// rule is judged at its line (SPEC 10.9).
#[tactic(auto, unfolding(crate::specs::Card::rule_made))]
fn rule_line(
    bytes: &[u8],
    at: usize,
    table: &mut [u32],
    state: &mut [u32],
) -> Result<usize, Refusal>
    ensures { after_rule result table.new state.new
        ≡ rule_made standard_context (rule_from bytes.now at) table.old state.old }
{
    let n = observers::compile_rule(reader::rule_part(bytes, at), table)?;
    flows::fresh_state(table, n, state)?;
    Ok(n)
}

// The output for a line that ends the card: a refusal, or nothing.
pub fn last_output(said: Result<Content, Refusal>) -> Output
    ensures { (l : List ℕ) → result ≡ last_output (says_by said l) }
{
    match said {
        Ok(_) => Output::Quiet,
        Err(refusal) => Output::Refused(refusal),
    }
}

// Before the first line of a card.
pub fn begin() -> Watch
    ensures { result ≡ start_world.watch }
{
    Watch {
        stage: cards::first_stage(),
        n: 0,
    }
}

// Whether nothing more is printed.
pub fn is_over(w: Watch) -> bool
    ensures { result ≡ is_over w.stage.phase }
{
    cards::is_over(w.stage.phase)
}
