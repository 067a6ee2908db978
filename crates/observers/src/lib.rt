// Compiling a rule text to its observer (SPEC 8.2).
#![tactic(auto)]

ghost use Rattle.std.specs.Prelude.{◌≡◌};
ghost use Rattle.limits.specs.Context.{standard_context};
ghost use Rattle.observers.specs.Compile.{after_compile, compiled};
ghost use Rattle.observers.specs.Demand.{Compiles};

use limits::Refusal;

// Compile a text: refusals 1 to 8 as reading, 9 where the lent table is too short (SPEC 7.9); otherwise how many
// equations the observer has. They stand at the front of the table, and the rest of it is kept.
pub fn compile_rule(text: &[u8], table: &mut [u32]) -> Result<usize, Refusal>
    ensures table_after { after_compile result table.new
        ≡ compiled standard_context text.now table.old }
    ensures compiles { Compiles standard_context text.now table.old result table.new }
{
    let mut arena = [0u32; limits::ARENA];
    let records = rules::read_tree(limits::standard(), text, &mut arena)?;
    if table.len() < limits::TABLE {
        return Err(Refusal::ShortTable);
    }
    let n = emitter::emit_observer(&arena[..records.size], table);
    Ok(n as usize)
}
