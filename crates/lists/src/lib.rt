// Slices as lists: what several crates read of a slice, compare, copy and look for. specs/ has the definitions that the
// contracts name.
#![tactic(auto)]

ghost use Rattle.std.specs.Prelude.{◌≡◌, length, take};
ghost use Rattle.std.proofs.lemmas.List.Edits.{sets};
ghost use Rattle.lists.specs.Number.{number_at};
ghost use Rattle.lists.specs.Line.{line_from};
ghost use Rattle.lists.specs.Place.{settled_at, DecimalAt};

// Number i, or 0 past the end.
pub fn number_at(numbers: &[u32], i: usize) -> u32
    ensures { result ≡ number_at numbers.now i }
{
    numbers.get(i).copied().unwrap_or(0)
}

// The first k numbers of `from`, stored at the front of `to`; what is not there or has no room is left out.
#[tactic(auto, using(crate::proofs::Buffers::copied))]
pub fn copy(from: &[u32], k: usize, to: &mut [u32])
    ensures { to.new ≡ sets to.old 0 (take k from.now) }
{
    let n = k.min(from.len()).min(to.len());
    to[..n].copy_from_slice(&from[..n]);
}

// The byte that ends a line.
pub const LINE_END: u8 = 10;

// How many bytes from a place on stand before the first line end.
pub fn line_length(s: &[u8], at: usize) -> usize
    ensures { result ≡ length (line_from s.now at) }
{
    let rest = &s[at.min(s.len())..];
    rest.iter()
        .position(|b| *b == LINE_END)
        .unwrap_or(rest.len())
}

// A decimal number at a place, and the place after it; a number above the highest that is asked for; or none.
#[derive(Clone, Copy)]
pub enum Decimal {
    Is { value: u32, next: usize },
    Above { next: usize },
    Missing,
}

// The answer at the end of the digits.
fn settled(value: u64, next: usize, max: u32) -> Decimal
    ensures { result ≡ settled_at max value next }
{
    match u32::try_from(value) {
        Ok(value) if value <= max => Decimal::Is { value, next },
        _ => Decimal::Above { next },
    }
}

// The decimal number at a place, up to max. Its digits are read to their end; a number that begins with 0 is that one
// digit. Once the value is above max it is held, so that nothing wraps.
#[tactic(auto, using(crate::proofs::Decimals::decimal_steps), unfolding(crate::specs::Decimal::is_digit))]
pub fn read_decimal(s: &[u8], at: usize, max: u32) -> Decimal
    ensures { DecimalAt s.now at max result }
{
    let Some(&first) = s.get(at) else {
        return Decimal::Missing;
    };
    if first == b'0' {
        return Decimal::Is {
            value: 0,
            next: at + 1,
        };
    }
    if !first.is_ascii_digit() {
        return Decimal::Missing;
    }
    let mut value = u64::from(first - b'0');
    for next in at + 1..s.len() {
        let digit = s[next];
        if !digit.is_ascii_digit() {
            return settled(value, next, max);
        }
        if value <= u64::from(max) {
            value = value * 10 + u64::from(digit - b'0');
        }
    }
    settled(value, s.len(), max)
}
