// The functions that C calls (SPEC 13.1; include/towerwatch.h): thin over the proved operations, on slices and numbers,
// which is the form of SPEC 12.5.
#![tactic(auto)]

ghost use Rattle.std.specs.Prelude.{◌≡◌};
ghost use Rattle.limits.specs.Limits.{standard_cap, velocity_count};
ghost use Rattle.limits.specs.Context.{standard_context};
ghost use Rattle.traces.specs.Trace.{tick_of};
ghost use Rattle.flows.specs.Step.{after_fresh, freshened, fresh_reply, after_step, stepped, step_reply};
ghost use Rattle.rules.specs.Computed.{rule_of, comparison};
ghost use Rattle.rules.specs.Contract.{answer_of, Told, read_reply};
ghost use Rattle.rules.specs.Same.{SameAnswer, same_reply};
ghost use Rattle.observers.specs.Compile.{after_compile, compiled};
ghost use Rattle.observers.specs.Demand.{Compiles, compile_reply};
ghost use Rattle.lustre.specs.Write.{after_write, write_effect, write_reply};
ghost use Rattle.lustre.specs.Read.{AfterRead, load_reply};
ghost use Rattle.packing.specs.Packing.{after_pack, packing, pack_reply};
ghost use Rattle.packing.specs.Laws.{PackAnswer};
ghost use Rattle.firmware.specs.Face.{Given};
ghost use Rattle.firmware.specs.Sizes.{small};

use limits::Refusal;

// An answer as C gets it: the refusal's number, 0 for none, and the result, 0 where there is none (SPEC 1.4).
#[repr(C)]
#[derive(Clone, Copy)]
pub struct Answer {
    pub refusal: u32,
    pub result: u32,
}

// What an operation answers, as C gets it.
impl From<Result<u32, Refusal>> for Answer {
    ghost use Rattle.firmware.specs.Face.{answer};
    ghost use Rattle.firmware.specs.Sizes.{number_reply};

    ghost from_gives = { λ told a. a ≡ answer (number_reply told) };

    fn from(told: Result<u32, Refusal>) -> Answer {
        match told {
            Ok(result) => Answer { refusal: 0, result },
            Err(refusal) => Answer {
                refusal: u32::from(refusal),
                result: 0,
            },
        }
    }
}

// A number of equations, or the length of a text, in 32 bits.
fn narrow(told: Result<usize, Refusal>) -> Result<u32, Refusal>
    requires { small told }
    ensures { result ≡ told }
{
    Ok(told? as u32)
}

// Makes a fresh state of the table's n equations (SPEC 8.4).
#[unsafe(no_mangle)]
pub extern "C" fn towerwatch_fresh_state(table: &[u32], n: usize, state: &mut [u32]) -> Answer
    ensures { Given fresh_reply (λ x. after_fresh x state.new
        ≡ freshened velocity_count table.now n state.old) result }
{
    Answer::from(flows::fresh_state(table, n, state).map(|()| 0))
}

// One step: a tick of the table's n equations (SPEC 8.5).
#[unsafe(no_mangle)]
pub extern "C" fn towerwatch_step(
    table: &[u32],
    n: usize,
    state: &mut [u32],
    values: &mut [u32],
    start: u32,
    signals: u64,
    velocity: u32,
    parameters: &[u32; limits::PARAMETERS],
) -> Answer
    ensures { Given step_reply (λ x. after_step x state.new values.new
        ≡ stepped standard_cap velocity_count table.now n state.old values.old
        (tick_of start signals velocity parameters.now)) result }
{
    let now = traces::tick_of(start, signals, velocity, *parameters);
    Answer::from(flows::step(table, n, state, values, now))
}

// Reads a rule: how many nodes (SPEC 8.1).
#[unsafe(no_mangle)]
pub extern "C" fn towerwatch_read_rule(text: &[u8]) -> Answer
    ensures given { Given read_reply (λ x. x ≡ answer_of (rule_of standard_context text.now)) result }
    ensures given_2 { Given read_reply (Told standard_context text.now) result }
{
    Answer::from(rules::read_rule(text))
}

// Compiles a rule into a table: how many equations (SPEC 8.2).
#[tactic(auto, using(crate::proofs::Sizes::compiled_small))]
#[unsafe(no_mangle)]
pub extern "C" fn towerwatch_compile(text: &[u8], table: &mut [u32]) -> Answer
    ensures given { Given compile_reply (λ x. after_compile x table.new
        ≡ compiled standard_context text.now table.old) result }
    ensures given_2 { Given compile_reply (λ x. Compiles standard_context text.now table.old x
        table.new) result }
{
    Answer::from(narrow(observers::compile_rule(text, table)))
}

// Compares two texts, each with its parameters: 1 where they are the same rule, else 0 (SPEC 8.3).
#[unsafe(no_mangle)]
pub extern "C" fn towerwatch_same_rule(
    first: &[u8],
    ps: &[u32; limits::PARAMETERS],
    second: &[u8],
    qs: &[u32; limits::PARAMETERS],
) -> Answer
    ensures given { Given same_reply (λ x. x ≡ comparison standard_context first.now ps.now
        second.now qs.now) result }
    ensures given_2 { Given same_reply (SameAnswer standard_context first.now ps.now
        second.now qs.now) result }
{
    Answer::from(rules::same_rule(first, ps, second, qs).map(u32::from))
}

// Writes the table's n equations as Lustre text: how many bytes (SPEC 8.6).
#[unsafe(no_mangle)]
pub extern "C" fn towerwatch_write_lustre(table: &[u32], n: usize, text: &mut [u8]) -> Answer
    ensures { Given write_reply (λ x. after_write x text.new
        ≡ write_effect velocity_count table.now n text.old) result }
{
    Answer::from(narrow(lustre_write::write_lustre(table, n, text)))
}

// Reads Lustre text into a table: how many equations (SPEC 8.7).
#[tactic(auto, using(crate::proofs::Sizes::loaded_small))]
#[unsafe(no_mangle)]
pub extern "C" fn towerwatch_read_lustre(text: &[u8], table: &mut [u32]) -> Answer
    ensures { Given load_reply (λ x. AfterRead velocity_count text.now table.old x
        table.new) result }
{
    Answer::from(narrow(lustre_read::read_lustre(text, table)))
}

// Packs the table's n equations into a second table: how many they are then (SPEC 8.8).
#[tactic(auto, using(crate::proofs::Sizes::packed_small))]
#[unsafe(no_mangle)]
pub extern "C" fn towerwatch_pack(table: &[u32], n: usize, packed: &mut [u32]) -> Answer
    ensures given { Given pack_reply (λ x. after_pack x packed.new
        ≡ packing velocity_count table.now n packed.old) result }
    ensures given_2 { Given pack_reply (λ x. PackAnswer velocity_count table.now n packed.old x
        packed.new) result }
{
    Answer::from(narrow(packer::pack(table, n, packed)))
}
