// A file's stat of the second layout from one of the first, and back where the first can say it.
#![tactic(auto)]

ghost use Rattle.std.specs.Prelude.{◌≡◌};
ghost use Rattle.stat_convert.specs.Convert.{narrow_of, error_number, widen_of};
ghost use Rattle.stat_convert.specs.declared.NarrowError.TheVariants.{OutOfRange};

use refusal::Numbered;
use std::num::TryFromIntError;
use sync::{StatV1, StatV2};

// Why a stat of the second layout is none of the first.
#[derive(Clone, Copy, PartialEq, Eq, Debug)]
pub enum NarrowError {
    // Refusal 16: a size of 2^32 or more, or a time of the contents that is negative or that large.
    OutOfRange,
    // Refusal 17: the device said an error.
    Failed,
}

impl Numbered for NarrowError {
    ghost number = { error_number };

    #[tactic(auto, unfolding(crate::specs::Convert::error_number))]
    fn number(self) -> u32 {
        match self {
            NarrowError::OutOfRange => 16,
            NarrowError::Failed => 17,
        }
    }
}

impl From<TryFromIntError> for NarrowError {
    ghost from_gives = { λ _ e. e ≡ OutOfRange };

    fn from(_e: TryFromIntError) -> NarrowError {
        NarrowError::OutOfRange
    }
}

// Mode, size and time of the contents. A function, as widening is: From and TryFrom between two types of `sync` may stand in that crate
// alone, which would then hold the conversion beside the reader.
#[tactic(auto, unfolding(crate::specs::Convert::narrow_of, crate::specs::Convert::narrow_at, crate::specs::Convert::is_far))]
pub fn narrow(stat: StatV2) -> Result<StatV1, NarrowError>
    ensures { result ≡ narrow_of stat }
{
    if stat.error > 0 {
        return Err(NarrowError::Failed);
    }
    let size = u32::try_from(stat.size)?;
    let mtime = u32::try_from(stat.mtime)?;
    Ok(StatV1 {
        mode: stat.mode,
        size,
        mtime,
    })
}

// What the first layout has not is 0.
#[tactic(auto, unfolding(crate::specs::Convert::widen_of))]
pub fn widen(stat: StatV1) -> StatV2
    ensures { result ≡ widen_of stat }
{
    StatV2 {
        mode: stat.mode,
        size: u64::from(stat.size),
        mtime: i64::from(stat.mtime),
        ..StatV2::default()
    }
}
