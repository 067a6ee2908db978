// Reading a rule (SPEC 8.1): its words, limits, grammar and fragment. Same rule (SPEC 8.3).
#![tactic(auto)]

ghost use Rattle.std.specs.Prelude.{◌≡◌, ◌≤◌, cond, length};
ghost use Rattle.limits.specs.Limits.{word_limit, arena_limit};
ghost use Rattle.limits.specs.Context.{standard_context};
ghost use Rattle.limits.specs.declared.Refusal.TheVariants.{OverLimits};
ghost use Rattle.formulas.specs.Arena.{record_names};
ghost use Rattle.words.specs.Split.Out.{made};
ghost use Rattle.rules.specs.Limits.{bracket_limit, opened, counted, beyond_limits};
ghost use Rattle.rules.specs.Computed.{rule_of, of_words, side_of, value_agrees, values_agree, comparison};
ghost use Rattle.rules.specs.Same.{SameAnswer};
ghost use Rattle.rules.specs.Contract.{answer_of, Told};
ghost use Rattle.rules.specs.Laid.{Readable, Laid};

use formulas::RecordKind;
use limits::{Context, Refusal};

// What reading a rule's tree gives: how many numbers its records take, and its node count.
#[derive(Clone, Copy)]
pub struct Records {
    pub size: usize,
    pub nodes: u32,
}

// SPEC 2.10: how many round brackets may be open at a word, and how many of the four counted words there may be.
const BRACKETS: usize = 16;

const OPERATORS: usize = 32;

// How many round brackets are open after a word.
fn open_after(depth: usize, w: u32) -> usize
    requires { depth ≤ bracket_limit }
    ensures { result ≡ opened depth w }
{
    match w {
        words::ROUND => depth + 1,
        words::ROUND_END => depth.saturating_sub(1),
        _ => depth,
    }
}

// Whether a word is `!`, `then`, `chop` or `exists`.
#[tactic(auto, unfolding(crate::specs::Limits::counted))]
fn is_counted(w: u32) -> bool
    ensures { result ≡ counted w }
{
    matches!(w, words::NOT | words::THEN | words::CHOP | words::EXISTS)
}

// Refusal 5 (SPEC 7.5): too many round brackets are open at a word, or there are too many of the counted words.
fn check_limits(ws: &[u32]) -> Result<(), Refusal>
    ensures { result ≡ cond (beyond_limits ws.now) (Err OverLimits) (Ok tt) }
{
    let mut depth = 0;
    let mut n = 0;
    for w in ws {
        depth = open_after(depth, *w);
        if depth > BRACKETS {
            return Err(Refusal::OverLimits);
        }
        if is_counted(*w) {
            n += 1;
        }
    }
    if n > OPERATORS {
        return Err(Refusal::OverLimits);
    }
    Ok(())
}

// The tree of a rule's words: refusals 5 to 8, or its records in the arena.
fn read_words(ws: &[u32], arena: &mut [u32]) -> Result<Records, Refusal>
    requires { (length ws.now ≤ word_limit) × (arena_limit ≤ length arena.old) }
    ensures { Laid (of_words (made ws.now)) arena.old result arena.new }
{
    check_limits(ws)?;
    let rule = parser::read_f(ws, false, 0, arena, 0).ok_or(Refusal::NoRule)?;
    if rule.at != ws.len() {
        return Err(Refusal::NoRule);
    }
    if ws.contains(&words::CHOP) || ws.contains(&words::EXISTS) {
        return Err(Refusal::BeyondFragment);
    }
    if !rule.facts.leads {
        return Err(Refusal::NoLead);
    }
    Ok(Records {
        size: rule.top,
        nodes: rule.facts.nodes,
    })
}

// The tree of a rule text, for the operations that go on with it: refusals 1 to 8, or its records in the arena.
pub fn read_tree(context: Context, text: &[u8], arena: &mut [u32]) -> Result<Records, Refusal>
    requires { Readable context arena.old }
    ensures { Laid (rule_of context text.now) arena.old result arena.new }
{
    let mut ws = [0u32; limits::WORDS];
    let n = words::split_text(context, text, &mut ws)?;
    read_words(&ws[..n], arena)
}

// Read a rule (SPEC 8.1): its node count, or the first of refusals 1 to 8 that the text has.
pub fn read_rule(text: &[u8]) -> Result<u32, Refusal>
    ensures value { result ≡ answer_of (rule_of standard_context text.now) }
    ensures told { Told standard_context text.now result }
{
    let mut arena = [0u32; limits::ARENA];
    let records = read_tree(limits::standard(), text, &mut arena)?;
    Ok(records.nodes)
}

// One side of a comparison: refusals 1 to 8 of the text, then 13 of its parameters, or the tree's records in the arena.
fn read_side(
    context: Context,
    text: &[u8],
    parameters: &[u32; limits::PARAMETERS],
    arena: &mut [u32],
) -> Result<Records, Refusal>
    requires { Readable context arena.old }
    ensures { Laid (side_of parameters.now (rule_of context text.now)) arena.old result
        arena.new }
{
    let records = read_tree(context, text, arena)?;
    if !traces::parameters_fit(limits::LITERALS, parameters) {
        return Err(Refusal::ParameterTooHigh);
    }
    Ok(records)
}

// Whether a record of that kind, whose number after the comparison is b, names a parameter.
fn names_parameter(kind: u32, b: u32) -> bool
    ensures { result ≡ record_names kind b }
{
    const FIRST: u32 = RecordKind::Len as u32;
    const LAST: u32 = RecordKind::Fine as u32;
    matches!(kind, FIRST..=LAST) && b == formulas::PARAMETER
}

// Whether the parameter that a record names, if it names one, has the same value on both sides.
fn value_agrees(
    kind: u32,
    b: u32,
    c: u32,
    ps: &[u32; limits::PARAMETERS],
    qs: &[u32; limits::PARAMETERS],
) -> bool
    ensures { result ≡ value_agrees ps.now qs.now kind b c }
{
    !names_parameter(kind, b)
        || lists::number_at(ps, c as usize) == lists::number_at(qs, c as usize)
}

// The same of each record.
#[tactic(auto, unfolding(crate::specs::Computed::values_agree))]
fn values_agree(
    records: &[u32],
    ps: &[u32; limits::PARAMETERS],
    qs: &[u32; limits::PARAMETERS],
) -> bool
    ensures { result ≡ values_agree ps.now qs.now records.now }
{
    let mut rest = records;
    while let [kind, _, b, c, after @ ..] = rest {
        if !value_agrees(*kind, *b, *c, ps, qs) {
            return false;
        }
        rest = after;
    }
    true
}

// Same rule (SPEC 8.3): the refusal of the first text or else 13 of its parameters, or else the second's; or else
// whether the texts have one tree and the parameters that it names the same values. A text and its parameters are passed
// singly, as C passes them.
pub fn same_rule(
    first: &[u8],
    ps: &[u32; limits::PARAMETERS],
    second: &[u8],
    qs: &[u32; limits::PARAMETERS],
) -> Result<bool, Refusal>
    ensures value { result ≡ comparison standard_context first.now ps.now
        second.now qs.now }
    ensures same_answer { SameAnswer standard_context first.now ps.now
        second.now qs.now result }
{
    let context = limits::standard();
    let mut arena = [0u32; limits::ARENA];
    let n = read_side(context, first, ps, &mut arena)?.size;
    let mut other = [0u32; limits::ARENA];
    let m = read_side(context, second, qs, &mut other)?.size;
    let records = &arena[..n];
    Ok(records == &other[..m] && values_agree(records, ps, qs))
}
