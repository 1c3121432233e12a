// Sums that stop at the ends of their type's range, and the part of a number above 0.
#![tactic(auto)]

ghost use Rattle.std.specs.Prelude.{◌≡◌, ℤ, ◌+ℤ◌};
ghost use Rattle.saturate.specs.Saturate.{clamp, positive_part};

// a + b, held within 64 bits and a sign: std's sum, with what it promises said over ℤ.
#[tactic(auto, using(crate::proofs::Laws::sum_rules))]
pub fn sat_add(a: i64, b: i64) -> i64
    ensures { result ≡ clamp (a +ℤ b) }
{
    a.saturating_add(b)
}

// A number where it is above 0, or 0.
pub fn positive(b: i64) -> usize
    ensures { result ≡ positive_part b }
{
    usize::try_from(b).unwrap_or(0)
}
