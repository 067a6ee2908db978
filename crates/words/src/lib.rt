// The words of a rule text, as numbers (SPEC 2.3 to SPEC 2.7, SPEC 2.11). specs/Word.antt says which number is which
// word, specs/Split.antt how a text is split. They are numbers and no enum, since the grammar and its theorems are about
// lists of numbers, and the words of one class are those of a range.
#![tactic(auto)]

ghost use Rattle.std.specs.Prelude.{◌≡◌, ◌&&◌, ◌+◌, ◌≤◌, ◌<◌, ◌^◌, eqb, length, drop, MatchOption, MatchResult};
ghost use Rattle.limits.specs.Limits.{literal_count};
ghost use Rattle.lists.specs.Number.{number_at};
ghost use Rattle.lists.specs.Same.{same};
ghost use Rattle.words.specs.Word.{VEL, LITERAL, is_op, is_signal, is_num, is_velocity, is_bit, is_test, is_count};
ghost use Rattle.words.specs.Split.{RUN, class_of, run, keyword_of, number_of, literal_of, run_of, longest, word_of};
ghost use Rattle.words.specs.Split.{wrong_size};
ghost use Rattle.words.specs.Width.{operator_width, width_of};
ghost use Rattle.words.specs.Contract.{Ranged, Splittable, Begun, Splits};

use limits::{Context, Refusal};
use lists::Decimal;

pub const ROUND: u32 = 1;

pub const ROUND_END: u32 = 2;

pub const SQUARE: u32 = 3;

pub const SQUARE_END: u32 = 4;

pub const NOT: u32 = 5;

pub const AND: u32 = 6;

pub const OR: u32 = 7;

pub const LE: u32 = 8;

pub const LT: u32 = 9;

const EQ: u32 = 10;

const GT: u32 = 11;

const GE: u32 = 12;

pub const COMMA: u32 = 13;

pub const BEGIN: u32 = 14;

const END: u32 = 15;

const POINT: u32 = 16;

const HELD: u32 = 17;

pub const KEPT: u32 = 18;

pub const LEN: u32 = 19;

pub const SUM: u32 = 20;

const AGE: u32 = 21;

pub const LAG: u32 = 22;

pub const THEN: u32 = 23;

pub const CHOP: u32 = 24;

pub const EXISTS: u32 = 25;

pub const VEL: u32 = 26;

pub const PARAMETER: u32 = 32;

pub const SIGNAL: u32 = 64;

pub const VELOCITY: u32 = 128;

pub const LITERAL: u32 = 1000000;

// The highest number of a signal and of a parameter.
const LAST_SIGNAL: u32 = limits::SIGNALS - 1;

const LAST_PARAMETER: u32 = limits::PARAMETERS as u32 - 1;

// Classes of bytes beside the operators, whose class is their word.
const SPACE: u32 = 0;

const RUN: u32 = 40;

const OTHER: u32 = 50;

// A word, and how many bytes it takes.
#[derive(Clone, Copy)]
struct Token {
    word: u32,
    width: usize,
}

// The class of a byte, by one match (SPEC 12.5): it decides which words the byte can be part of.
#[tactic(auto, unfolding(crate::specs::Split::class_of, lists::specs::Decimal::is_digit))]
fn class(b: u8) -> u32
    ensures { result ≡ class_of b }
{
    match b {
        b'a'..=b'z' | b'0'..=b'9' => RUN,
        b' ' => SPACE,
        b'(' => ROUND,
        b')' => ROUND_END,
        b'[' => SQUARE,
        b']' => SQUARE_END,
        b'!' => NOT,
        b'&' => AND,
        b'|' => OR,
        b'<' => LT,
        b'=' => EQ,
        b'>' => GT,
        b',' => COMMA,
        _ => OTHER,
    }
}

// Whether a byte is part of a run. It has the ranges of `class` once more, so that `class` keeps one caller and is
// inlined there.
#[tactic(auto, unfolding(crate::specs::Split::class_of, lists::specs::Decimal::is_digit))]
fn in_run(b: u8) -> bool
    ensures { result ≡ eqb (class_of b) RUN }
{
    matches!(b, b'a'..=b'z' | b'0'..=b'9')
}

// How many bytes the run has that begins at a text's first byte.
fn run_length(text: &[u8]) -> usize
    requires { (0 < length text.now) × (class_of (number_at text.now 0) ≡ RUN) }
    ensures { result ≡ length (run text.now) }
{
    let rest = &text[1..];
    1 + rest.iter().position(|b| !in_run(*b)).unwrap_or(rest.len())
}

// Whether a run is that word. `==` at slices calls a function from four bytes on, where this is inlined.
#[tactic(auto, using(crate::proofs::Spelling::spelling))]
fn spells(run: &[u8], word: &[u8]) -> bool
    ensures { result ≡ same run.now word.now }
{
    run.len() == word.len() && run.starts_with(word)
}

// The keyword that a run spells, if it is one. The first byte leaves one keyword to compare with, or two.
#[tactic(auto, unfolding(crate::specs::Split::keyword_of, crate::specs::Split::keyword_among))]
fn keyword(run: &[u8]) -> Option<u32>
    requires { 0 < length run.now }
    ensures { MatchOption result (keyword_of run.now ≡ 0) (λ word. (word ≡ keyword_of run.now) × (0 < word)) }
{
    match run[0] {
        b'b' if spells(run, b"begin") => Some(BEGIN),
        b'e' if spells(run, b"end") => Some(END),
        b'e' if spells(run, b"exists") => Some(EXISTS),
        b'p' if spells(run, b"point") => Some(POINT),
        b'h' if spells(run, b"held") => Some(HELD),
        b'k' if spells(run, b"kept") => Some(KEPT),
        b'l' if spells(run, b"len") => Some(LEN),
        b'l' if spells(run, b"lag") => Some(LAG),
        b's' if spells(run, b"sum") => Some(SUM),
        b'a' if spells(run, b"age") => Some(AGE),
        b't' if spells(run, b"then") => Some(THEN),
        b'c' if spells(run, b"chop") => Some(CHOP),
        b'v' if spells(run, b"v") => Some(VEL),
        _ => None,
    }
}

// A number up to max, as the word base + n. It has to be all of the digits.
#[tactic(auto, unfolding(crate::specs::Split::number_of))]
fn number(digits: &[u8], base: u32, max: u32) -> Result<u32, Refusal>
    requires { (base ≤ LITERAL) × (max < literal_count) }
    ensures { result ≡ number_of base max digits.now }
{
    match lists::read_decimal(digits, 0, max) {
        Decimal::Is { value, next } if next >= digits.len() => Ok(base + value),
        Decimal::Above { next } if next >= digits.len() => Err(Refusal::NumberTooHigh),
        _ => Err(Refusal::BadWord),
    }
}

// A literal: up to the last velocity where one is awaited (SPEC 2.11), else up to the last literal (SPEC 2.7).
fn literal_word(context: Context, awaited: bool, run: &[u8]) -> Result<u32, Refusal>
    requires { Ranged context }
    ensures { result ≡ literal_of context awaited run.now }
{
    if awaited {
        number(run, VELOCITY, context.velocities - 1)
    } else {
        number(run, LITERAL, limits::LAST_LITERAL)
    }
}

// The word that a run is, behind the words `before` and `last`.
#[tactic(auto, unfolding(crate::specs::Split::run_of))]
fn run_word(context: Context, before: u32, last: u32, run: &[u8]) -> Result<u32, Refusal>
    requires { Ranged context × (0 < length run.now) }
    ensures { result ≡ run_of context (eqb before VEL && is_op last) run.now }
{
    if let Some(word) = keyword(run) {
        return Ok(word);
    }
    let digits = &run[1..];
    match run[0] {
        b's' => number(digits, SIGNAL, LAST_SIGNAL),
        b'k' => number(digits, PARAMETER, LAST_PARAMETER),
        _ => literal_word(context, awaits_velocity(before, last), run),
    }
}

// The word of an operator byte of class c before the byte next.
fn operator(c: u32, next: u8) -> Token
    ensures { (Ok result.word ≡ longest c next) × (result.width ≡ operator_width c next) }
{
    match (next, c) {
        (b'=', LT) => Token { word: LE, width: 2 },
        (b'=', GT) => Token { word: GE, width: 2 },
        _ => Token { word: c, width: 1 },
    }
}

// The word that begins at a text's first byte, of class c, behind the words `before` and `last`.
#[tactic(auto, unfolding(crate::specs::Split::word_of), using(crate::proofs::Runs::front))]
fn first_word(
    context: Context,
    before: u32,
    last: u32,
    text: &[u8],
    c: u32,
) -> Result<Token, Refusal>
    requires { Begun context text.now c }
    ensures { MatchResult result
        (λ token. (Ok token.word ≡ word_of context (eqb before VEL && is_op last) c text.now)
        × (token.width ≡ width_of c text.now))
        (λ refusal. Err refusal ≡ word_of context (eqb before VEL && is_op last) c text.now) }
{
    match c {
        RUN => {
            let width = run_length(text);
            let word = run_word(context, before, last, &text[..width])?;
            Ok(Token { word, width })
        }
        OTHER => Err(Refusal::BadWord),
        _ => Ok(operator(c, text.get(1).copied().unwrap_or(0))),
    }
}

// Whether a text has no byte, or more than a text can have (SPEC 2.1).
fn wrong_size(text: &[u8]) -> bool
    ensures { result ≡ wrong_size text.now }
{
    text.is_empty() || text.len() > limits::TEXT
}

// Whether a velocity is awaited behind two words: `v` and a comparison (SPEC 2.11).
fn awaits_velocity(before: u32, last: u32) -> bool
    ensures { result ≡ (eqb before VEL && is_op last) }
{
    before == VEL && is_op(last)
}

// The words of a text, stored at the front of out, and how many there are; refusals 1 to 4 (SPEC 8.1). Of the words so
// far, `last` is the last one and `before` the one before it, 0 where there is none.
pub fn split_text(context: Context, text: &[u8], out: &mut [u32]) -> Result<usize, Refusal>
    requires { Splittable context out.old }
    ensures { Splits context text.now out.old result out.new }
{
    if wrong_size(text) {
        return Err(Refusal::TextSize);
    }
    let mut before: u32 = 0;
    let mut last: u32 = 0;
    let mut count: usize = 0;
    let mut rest = text;
    while let [first, after @ ..] = rest {
        let c = class(*first);
        if c == SPACE {
            rest = after;
            continue;
        }
        if count == limits::WORDS {
            return Err(Refusal::TooManyWords);
        }
        let token = first_word(context, before, last, rest, c)?;
        out[count] = token.word;
        count += 1;
        before = last;
        last = token.word;
        rest = &rest[token.width..];
    }
    Ok(count)
}

// A comparison.
#[tactic(auto, unfolding(crate::specs::Word::is_op))]
pub fn is_op(w: u32) -> bool
    ensures { result ≡ is_op w }
{
    matches!(w, LE..=GE)
}

// A signal.
#[tactic(auto, unfolding(crate::specs::Word::is_signal))]
pub fn is_signal(w: u32) -> bool
    ensures { result ≡ is_signal w }
{
    (SIGNAL..=SIGNAL + LAST_SIGNAL).contains(&w)
}

// A parameter or a literal.
#[tactic(auto, unfolding(crate::specs::Word::is_num))]
pub fn is_num(w: u32) -> bool
    ensures { result ≡ is_num w }
{
    (PARAMETER..=PARAMETER + LAST_PARAMETER).contains(&w) || w >= LITERAL
}

// The literal of a velocity test.
#[tactic(auto, unfolding(crate::specs::Word::is_velocity))]
pub fn is_velocity(w: u32) -> bool
    ensures { result ≡ is_velocity w }
{
    (VELOCITY..LITERAL).contains(&w)
}

// The literal 0 or 1.
#[tactic(auto, unfolding(crate::specs::Word::is_bit))]
pub fn is_bit(w: u32) -> bool
    ensures { result ≡ is_bit w }
{
    (LITERAL..=LITERAL + 1).contains(&w)
}

// `begin`, `end`, `point`, `held` or `kept`.
#[tactic(auto, unfolding(crate::specs::Word::is_test))]
pub fn is_test(w: u32) -> bool
    ensures { result ≡ is_test w }
{
    matches!(w, BEGIN..=KEPT)
}

// `sum` or `age`.
#[tactic(auto, unfolding(crate::specs::Word::is_count))]
pub fn is_count(w: u32) -> bool
    ensures { result ≡ is_count w }
{
    matches!(w, SUM | AGE)
}
