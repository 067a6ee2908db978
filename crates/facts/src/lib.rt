// The nodes (SPEC 3.8) and the leads (SPEC 3.9) of a tree, from the facts of its parts and from its words.
#![tactic(auto)]

ghost use Rattle.std.specs.Prelude.{true, ◌≡◌, ◌≤◌};
ghost use Rattle.limits.specs.Limits.{word_limit};
ghost use Rattle.formulas.specs.Tree.{upper, lead_test, lead_count};
ghost use Rattle.formulas.specs.Arena.{num_kind, num_value};
ghost use Rattle.words.specs.Word.{is_op, is_num, is_test, is_count};
ghost use Rattle.grammar.specs.Grammar.{op_word, num_word, test_word, count_word};
ghost use Rattle.facts.specs.Facts.{leaf_facts, atom_facts, neg_facts, join_facts, then_facts, chop_facts};
ghost use Rattle.facts.specs.Facts.{exists_facts};

// What is known of a tree: its nodes, whether it is a lead, and whether the left of each `then` in it is one.
#[derive(Clone, Copy)]
pub struct Facts {
    pub nodes: u32,
    pub lead: bool,
    pub leads: bool,
}

// The facts of `0`, `1`, a signal and a velocity test.
pub fn leaf_facts() -> Facts
    ensures { result ≡ leaf_facts }
{
    Facts {
        nodes: 0,
        lead: false,
        leads: true,
    }
}

// The facts of an atom.
pub fn atom_facts(lead: bool) -> Facts
    ensures { result ≡ atom_facts lead }
{
    Facts {
        nodes: 1,
        lead,
        leads: true,
    }
}

// The facts of `!` t.
pub fn not_facts(t: Facts) -> Facts
    requires { t.nodes ≤ word_limit }
    ensures { result ≡ neg_facts t }
{
    Facts {
        nodes: t.nodes + 1,
        lead: false,
        leads: t.leads,
    }
}

// The facts of a `&` b and of a `|` b.
pub fn join_facts(a: Facts, b: Facts) -> Facts
    requires { (a.nodes ≤ word_limit) × (b.nodes ≤ word_limit) }
    ensures { result ≡ join_facts a b }
{
    Facts {
        nodes: a.nodes + b.nodes + 1,
        lead: a.lead && b.lead,
        leads: a.leads && b.leads,
    }
}

// The facts of a `then` b.
pub fn then_facts(a: Facts, b: Facts) -> Facts
    requires { (a.nodes ≤ word_limit) × (b.nodes ≤ word_limit) }
    ensures { result ≡ then_facts a b }
{
    Facts {
        nodes: a.nodes + b.nodes + 1,
        lead: false,
        leads: a.lead && a.leads && b.leads,
    }
}

// The facts of a `chop` b.
pub fn chop_facts(a: Facts, b: Facts) -> Facts
    requires { (a.nodes ≤ word_limit) × (b.nodes ≤ word_limit) }
    ensures { result ≡ chop_facts a b }
{
    Facts {
        nodes: a.nodes + b.nodes,
        lead: false,
        leads: a.leads && b.leads,
    }
}

// The facts of `exists` signal t.
pub fn exists_facts(t: Facts) -> Facts
    ensures { result ≡ exists_facts t }
{
    Facts {
        nodes: t.nodes,
        lead: false,
        leads: t.leads,
    }
}

// Whether a comparison is `<=` or `<`.
#[tactic(auto, using(grammar::proofs::Words::op_upper))]
pub fn is_upper(o: u32) -> bool
    requires { is_op o ≡ true }
    ensures { result ≡ upper (op_word o) }
{
    o <= words::LT
}

// Whether a lead may have the test: `begin` or `kept`.
#[tactic(auto, using(grammar::proofs::Words::no_lead_test))]
pub fn is_lead_test(k: u32) -> bool
    requires { is_test k ≡ true }
    ensures { result ≡ lead_test (test_word k) }
{
    matches!(k, words::BEGIN | words::KEPT)
}

// Whether a lead may have the count: `sum`.
#[tactic(auto, using(grammar::proofs::Words::count_lead))]
pub fn is_lead_count(k: u32) -> bool
    requires { is_count k ≡ true }
    ensures { result ≡ lead_count (count_word k) }
{
    k == words::SUM
}

// Whether n is a literal or a parameter.
pub fn num_kind(n: u32) -> u32
    ensures { result ≡ num_kind (num_word n) }
{
    if n < words::LITERAL {
        formulas::PARAMETER
    } else {
        formulas::LITERAL
    }
}

// The literal's value or the parameter's number.
#[tactic(auto, using(grammar::proofs::Position::num_pos))]
pub fn num_value(n: u32) -> u32
    requires { is_num n ≡ true }
    ensures { result ≡ num_value (num_word n) }
{
    if n < words::LITERAL {
        n - words::PARAMETER
    } else {
        n - words::LITERAL
    }
}
