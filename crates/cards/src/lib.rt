// Cards: what a line of a card says. A light machine over bytes: which line comes next, how many ticks are left, and
// for each line what it says or its refusal. No table, no state and no step is in it; the definition is `line_says` in
// specs/Says.antt.
#![tactic(auto)]

mod decimals;

ghost use Rattle.std.specs.Prelude.{◌≡◌, List, ℕ, drop};
ghost use Rattle.limits.specs.Limits.{last_literal};
ghost use Rattle.cards.specs.Numbers.{Parsed, number, before, parameters_of, wholly, count_of};
ghost use Rattle.cards.specs.Ticks.{plain_tick, velocity_in, tick_line};
ghost use Rattle.cards.specs.Place.{hex_table, digit_is, ReadsAs, tick_read, tick_at};
ghost use Rattle.cards.specs.Says.{edition_of, says_by, stage_at, first_stage, is_over, broken_by, line_says};
ghost use Rattle.cards.specs.Says.{stage_after, end_says};

use limits::Refusal;
use std::marker::Model;

// The place of the last parameter.
const LAST: usize = limits::PARAMETERS - 1;

// The bytes of a tick line with no velocity, its byte 10 not counted.
const TICK_LINE: usize = 20;

// The place of its hexadecimal digits.
const DIGITS: usize = 4;

// How many values a byte has.
pub const BYTES: usize = 256;

// The edition of a stage where none is known: before the first line, and once the card is over. No line is read by it.
// It is a number and no Option: with one, whoever reads tick lines would need a case for a stage that no card reaches.
pub const NO_EDITION: u32 = 0;

// The edition whose tick lines have no velocity (SPEC 10.6). An edition is the number in its first line (SPEC 10.2): an
// enum would need that number beside it, in the definitions too.
const PLAIN_EDITION: u32 = 1;

// The first line of each edition (SPEC 10.2), and how the next three begin (SPEC 10.3, SPEC 10.4, SPEC 10.5).
const EDITION_1: &[u8] = b"edition=1";

const EDITION_2: &[u8] = b"edition=2";

const PARAMETERS_HEAD: [u8; 2] = *b"k=";

pub const RULE_HEAD: [u8; 6] = *b"watch=";

const COUNT_HEAD: [u8; 6] = *b"ticks=";

// A value that was read at a place of a line, and the place after it.
#[derive(Clone, Copy)]
pub struct Found<T> {
    pub value: T,
    pub next: usize,
}

impl<T: Copy> Found<T> {
    // The value, where the line ends behind it.
    #[tactic(auto, using(crate::proofs::Reading::reading))]
    fn at_end(self, s: &[u8]) -> Option<T>
        ensures { (p : Parsed T) → ReadsAs (Some self) s.now p → result ≡ wholly p }
    {
        if self.next < s.len() {
            None
        } else {
            Some(self.value)
        }
    }

    // The same value before a byte; the place after it is the one after the byte.
    #[tactic(auto, using(crate::proofs::Reading::reading))]
    fn before(self, s: &[u8], byte: u8) -> Option<Found<T>>
        ensures { (p : Parsed T) → ReadsAs (Some self) s.now p → ReadsAs result s.now (before byte p) }
    {
        if s.get(self.next) != Some(&byte) {
            return None;
        }
        Some(Found {
            value: self.value,
            next: self.next + 1,
        })
    }
}

// The numbers of a tick line.
#[derive(Clone, Copy)]
pub struct TickLine {
    pub start: u32,
    pub signals: u64,
    pub velocity: u32,
}

// Which line comes next.
#[derive(Clone, Copy, PartialEq, Eq)]
pub enum Phase {
    Edition,
    Parameters,
    Rule,
    Count,
    Ticks,
    Over,
}

// The line that comes next, the card's edition, and the ticks that are left. The last two stand beside the phase and not
// in its cases: the stage after a line is told of any stage and anything that a line says (`stage_after`).
#[derive(Clone, Copy)]
pub struct Stage {
    pub phase: Phase,
    pub edition: u32,
    pub left: u32,
}

// What a line says that has no refusal. The rule text is a part of the line.
#[derive(Clone, Copy)]
pub enum Content {
    Edition(u32),
    Parameters([u32; limits::PARAMETERS]),
    Rule,
    Count(u32),
    Tick(TickLine),
    // The card was over before it.
    Nothing,
}

// SPEC 10.2: which edition's line the first line is.
fn edition_of(s: &[u8]) -> Option<u32>
    ensures { result ≡ edition_of s.now }
{
    if s == EDITION_1 {
        return Some(1);
    }
    if s == EDITION_2 {
        return Some(2);
    }
    None
}

// SPEC 10.3: the line of the parameters.
#[tactic(auto, using(crate::proofs::Numbers::listing), unfolding(crate::specs::Numbers::parameters_of))]
fn parameters_of(s: &[u8]) -> Option<[u32; limits::PARAMETERS]>
    ensures { result ≡ parameters_of s.now }
{
    if !s.starts_with(&PARAMETERS_HEAD) {
        return None;
    }
    let mut ps = [0; limits::PARAMETERS];
    let mut at = PARAMETERS_HEAD.len();
    for p in ps[..LAST].iter_mut() {
        let found = decimals::decimal_before_comma(s, at, limits::LAST_LITERAL)?;
        *p = found.value;
        at = found.next;
    }
    ps[LAST] = last_number(s, at)?;
    Some(ps)
}

// The number from a place up to the line's end.
#[tactic(auto, using(crate::proofs::Reading::reading))]
fn last_number(s: &[u8], from: usize) -> Option<u32>
    ensures { result ≡ wholly (number last_literal (drop from s.now)) }
{
    decimals::decimal_at(s, from, limits::LAST_LITERAL)?.at_end(s)
}

// SPEC 10.5: the line of the number of ticks.
#[tactic(auto, using(crate::proofs::Numbers::prefix_is), unfolding(crate::specs::Numbers::count_of))]
fn count_of(s: &[u8]) -> Option<u32>
    ensures { result ≡ count_of s.now }
{
    if !s.starts_with(&COUNT_HEAD) {
        return None;
    }
    last_number(s, COUNT_HEAD.len())
}

// The value of each byte as a hexadecimal digit of SPEC 10.6, 16 where it is none: bytes and no options, which would
// take more room. It is made once for all tick lines that are run together, or for one line by itself, and lent to the
// functions that read them.
#[derive(Clone, Copy)]
pub struct HexDigits {
    values: [u8; BYTES],
}

impl Model for HexDigits {
    ghost use Rattle.std.specs.Prelude.{◌≡◌, List, ℕ};
    ghost use Rattle.cards.specs.Place.{hex_table};

    ghost Value = { List ℕ };

    ghost view = { λ h. h.values };

    ghost inverse = { λ values. record { values = values } };

    ghost invariant = { λ h. h.values ≡ hex_table };
}

impl HexDigits {
    // The table that an array is, where it has the value of each byte.
    pub fn from_values(values: [u8; BYTES]) -> HexDigits
        requires { values ≡ hex_table }
        ensures { result ≡ hex_table }
    {
        HexDigits { values }
    }

    // The value of each byte, in the order of the bytes.
    pub fn values(&self) -> &[u8; BYTES]
        ensures { result.now ≡ hex_table }
    {
        &self.values
    }

    // The value of a byte that is a digit.
    #[tactic(auto, using(crate::proofs::Hex::table_at))]
    fn value(&self, b: u8) -> Option<u64>
        ensures { result ≡ digit_is b }
    {
        let value = u64::from(self.values[usize::from(b)]);
        if 15 < value { None } else { Some(value) }
    }
}

// The values of all bytes.
#[tactic(auto, using(crate::proofs::Hex::filled_all), unfolding(crate::proofs::Hex::filled))]
pub fn hex_digits() -> HexDigits
    ensures { result ≡ hex_table }
{
    let digits = b"0123456789abcdef";
    let mut values = [16u8; BYTES];
    for (k, b) in digits.iter().enumerate() {
        values[*b as usize] = k as u8;
    }
    HexDigits { values }
}

// A tick line with no velocity.
#[tactic(auto, using(crate::proofs::Hex::hexing), unfolding(crate::specs::Ticks::plain_tick))]
fn plain_line(hex: &HexDigits, s: &[u8; TICK_LINE]) -> Option<TickLine>
    ensures { result ≡ plain_tick s.now }
{
    let [b't', b'=', start @ (b'0' | b'1'), b',', ..] = s else {
        return None;
    };
    let mut signals = 0u64;
    for b in &s[DIGITS..] {
        let digit = hex.value(*b)?;
        signals = signals * 16 + digit;
    }
    Some(TickLine {
        start: u32::from(*start - b'0'),
        signals,
        velocity: 0,
    })
}

// The velocity behind a comma at a place, and the place after it.
#[tactic(auto, using(crate::proofs::Velocities::velocity))]
fn velocity_at(velocities: u32, s: &[u8], at: usize) -> Option<Found<u32>>
    ensures { ReadsAs result s.now (velocity_in velocities (drop at s.now)) }
{
    let Some(b',') = s.get(at) else {
        return None;
    };
    decimals::decimal_at(s, at + 1, limits::LAST_LITERAL).filter(|found| found.value < velocities)
}

// The tick of an edition at a place of s, and the place after it.
#[tactic(auto, using(crate::proofs::Front::tick))]
fn tick_from(
    hex: &HexDigits,
    velocities: u32,
    edition: u32,
    s: &[u8],
    at: usize,
) -> Option<Found<TickLine>>
    ensures { ReadsAs result s.now (tick_read velocities edition (drop at s.now)) }
{
    let front = s.get(at..)?.first_chunk::<TICK_LINE>()?;
    let line = plain_line(hex, front)?;
    let next = at + TICK_LINE;
    if edition == PLAIN_EDITION {
        return Some(Found { value: line, next });
    }
    let velocity = velocity_at(velocities, s, next)?;
    Some(Found {
        value: TickLine {
            velocity: velocity.value,
            ..line
        },
        next: velocity.next,
    })
}

// SPEC 10.6: the tick line of an edition.
#[tactic(auto, using(crate::proofs::Front::line_read, crate::proofs::Reading::none_whole))]
fn tick_line(hex: &HexDigits, velocities: u32, edition: u32, s: &[u8]) -> Option<TickLine>
    ensures { result ≡ tick_line velocities edition s.now }
{
    tick_from(hex, velocities, edition, s, 0)?.at_end(s)
}

// The tick line at a place of s, where it is there with its byte 10, and the place after that.
#[tactic(auto, using(crate::proofs::Front::found_before, crate::proofs::Reading::none_before))]
pub fn tick_at(
    hex: &HexDigits,
    velocities: u32,
    edition: u32,
    s: &[u8],
    at: usize,
) -> Option<Found<TickLine>>
    ensures { result ≡ tick_at velocities edition s.now at }
{
    tick_from(hex, velocities, edition, s, at)?.before(s, lists::LINE_END)
}

// What a line says that fails (SPEC 10.7): nothing once the card is over.
pub fn broken(phase: Phase) -> Result<Content, Refusal>
    ensures { (l : List ℕ) → says_by result l ≡ broken_by phase }
{
    match phase {
        Phase::Edition | Phase::Parameters | Phase::Rule | Phase::Count => Err(Refusal::BadHead),
        Phase::Ticks => Err(Refusal::BadTick),
        Phase::Over => Ok(Content::Nothing),
    }
}

// SPEC 10.9, one line after another: what a line says, given without its byte 10.
#[tactic(auto, using(crate::proofs::Numbers::prefix_is), unfolding(crate::specs::Says::line_says))]
pub fn read_line(velocities: u32, stage: Stage, s: &[u8]) -> Result<Content, Refusal>
    ensures { says_by result s.now ≡ line_says velocities stage s.now }
{
    if limits::LINE <= s.len() {
        return broken(stage.phase);
    }
    match stage.phase {
        Phase::Edition => edition_of(s).map(Content::Edition).ok_or(Refusal::BadHead),
        Phase::Parameters => parameters_of(s)
            .map(Content::Parameters)
            .ok_or(Refusal::BadHead),
        Phase::Rule if s.starts_with(&RULE_HEAD) => Ok(Content::Rule),
        Phase::Rule => Err(Refusal::BadHead),
        Phase::Count => count_of(s).map(Content::Count).ok_or(Refusal::BadHead),
        // With no tick left, any line is refused (SPEC 10.8).
        Phase::Ticks if stage.left == 0 => Err(Refusal::BadTick),
        Phase::Ticks => {
            tick_line(&hex_digits(), velocities, stage.edition, s)
                .map(Content::Tick)
                .ok_or(Refusal::BadTick)
        }
        Phase::Over => Ok(Content::Nothing),
    }
}

fn stage_at(phase: Phase, edition: u32, left: u32) -> Stage
    ensures { result ≡ stage_at phase edition left }
{
    Stage {
        phase,
        edition,
        left,
    }
}

// The stage after a line, with the one before it.
pub fn stage_after(stage: Stage, said: Result<Content, Refusal>) -> Stage
    ensures { (l : List ℕ) → result ≡ stage_after stage (says_by said l) }
{
    let edition = stage.edition;
    match said {
        Ok(Content::Edition(first)) => stage_at(Phase::Parameters, first, 0),
        Ok(Content::Parameters(_)) => stage_at(Phase::Rule, edition, 0),
        Ok(Content::Rule) => stage_at(Phase::Count, edition, 0),
        Ok(Content::Count(ticks)) => stage_at(Phase::Ticks, edition, ticks),
        Ok(Content::Tick(_)) => stage_at(Phase::Ticks, edition, stage.left.saturating_sub(1)),
        Ok(Content::Nothing) | Err(_) => stage_at(Phase::Over, NO_EDITION, 0),
    }
}

// What the end of the input says after n bytes with no byte 10.
pub fn end(stage: Stage, n: usize) -> Result<Content, Refusal>
    ensures { (l : List ℕ) → says_by result l ≡ end_says stage n }
{
    if stage.phase == Phase::Ticks && stage.left == 0 && n == 0 {
        return Ok(Content::Nothing);
    }
    broken(stage.phase)
}

// Before the first line of a card.
pub fn first_stage() -> Stage
    ensures { result ≡ first_stage }
{
    stage_at(Phase::Edition, NO_EDITION, 0)
}

// Whether nothing more is said.
pub fn is_over(phase: Phase) -> bool
    ensures { result ≡ is_over phase }
{
    matches!(phase, Phase::Over)
}
