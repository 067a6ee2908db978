// Decimal numbers at a place of a line.
ghost use Rattle.std.specs.Prelude.{drop};
ghost use Rattle.cards.specs.Numbers.{number, before_comma};
ghost use Rattle.cards.specs.Place.{ReadsAs};

use crate::Found;
use lists::Decimal;

// The decimal number at a place, up to a highest one, its digits by SPEC 2.8.
#[tactic(auto, using(crate::proofs::Reading::reading))]
pub fn decimal_at(s: &[u8], at: usize, max: u32) -> Option<Found<u32>>
    ensures { ReadsAs result s.now (number max (drop at s.now)) }
{
    match lists::read_decimal(s, at, max) {
        Decimal::Is { value, next } => Some(Found { value, next }),
        Decimal::Above { .. } | Decimal::Missing => None,
    }
}

// The same before a comma; the place after it is the one after the comma.
#[tactic(auto, using(crate::proofs::Reading::reading))]
pub fn decimal_before_comma(s: &[u8], at: usize, max: u32) -> Option<Found<u32>>
    ensures { ReadsAs result s.now (before_comma (number max (drop at s.now))) }
{
    decimal_at(s, at, max)?.before(s, b',')
}
