// The check of a payload: the sum of its bytes modulo 2^32.
#![tactic(auto)]

ghost use Rattle.std.specs.Prelude.{◌≡◌, ◌+◌, ◌-◌, ◌*◌, ◌%◌, ◌^◌, ◌<◌, ◌≤◌, length, take, drop};
ghost use Rattle.le.specs.Le.{part};
ghost use Rattle.checksum.specs.Checksum.{total, sum_of, check_for, policy_for};

// First protocol version whose frames carry check 0.
pub const ADB_VERSION_SKIP_CHECKSUM: u32 = 0x0100_0001;

// Bytes in a run. Their sum fits 16 bits: 257 * 255 = 65,535.
const RUN: usize = 257;

// The sum of at most a run.
#[tactic(auto, unfolding(crate::specs::Checksum::total))]
fn sum_few(bytes: &[u8]) -> u16
    requires { length bytes.now ≤ RUN }
    ensures value { result ≡ total bytes.now }
    ensures bound { result ≤ 255 * length bytes.now }
{
    bytes.iter().map(|b| u16::from(*b)).sum()
}

// The compiler makes one vector instruction of the sum of 16 bytes, and adds up as vectors what the parts of a block give.
fn sum_16(part: &[u8; 16]) -> u16
    ensures value { result ≡ total part.now }
    ensures bound { result ≤ 4080 }
{
    sum_few(part)
}

// The sum of some bytes by parts of 16.
// The three `while let` of this file stay (measured, docs/PERFORMANCE.md): `chunks` took 7.0 ns at 64 B and 62,000 at 1 MiB, these take 4.5 and 30,400.
fn sum_parts(bytes: &[u8]) -> u16
    requires { length bytes.now ≤ RUN }
    ensures value { result ≡ total bytes.now }
    ensures bound { result ≤ 255 * length bytes.now }
{
    let mut rest = bytes;
    let mut sum = 0;
    while let Some((part, more)) = rest.split_first_chunk::<16>() {
        sum += sum_16(part);
        rest = more;
    }
    sum + sum_few(rest)
}

// The sum of at most a run by blocks of N bytes: more than 128 would be widened to 32 bits. `sum_parts` is its like, with other parts and
// another rest; one function for both would take the two as closures. Where nothing is left behind the blocks, as of a payload of 64 bytes, that is all.
#[tactic(auto, using(crate::proofs::ChecksumLaws::total_none, crate::proofs::ChecksumLaws::cut_step))]
fn sum_blocks<const N: usize>(bytes: &[u8]) -> u16
    requires { (0 < N) × (N ≤ RUN) × (length bytes.now ≤ RUN) }
    ensures { result ≡ total bytes.now }
{
    let mut rest = bytes;
    let mut sum = 0;
    while let Some((block, more)) = rest.split_first_chunk::<N>() {
        sum += sum_parts(block);
        rest = more;
    }
    if rest.is_empty() {
        sum
    } else {
        sum + sum_parts(rest)
    }
}

// One run more.
fn add_run(sum: u32, run: u16) -> u32
    ensures { result ≡ (sum + run) % 2 ^ 32 }
{
    sum.wrapping_add(u32::from(run))
}

// Runs, each summed in 16 bits; the last one may be shorter.
#[tactic(auto, using(crate::proofs::ChecksumLaws::sum_none))]
pub fn payload_checksum(payload: &[u8]) -> u32
    ensures { result ≡ sum_of payload.now }
{
    let mut rest = payload;
    let mut sum: u32 = 0;
    while let Some((run, more)) = rest.split_first_chunk::<RUN>() {
        sum = add_run(sum, sum_blocks::<128>(run));
        rest = more;
    }
    add_run(sum, sum_blocks::<64>(rest))
}

// Whether an outgoing frame carries its payload's check. A check that is received and is not 0 is compared either way.
#[derive(Clone, Copy, PartialEq, Eq)]
pub enum Checksum {
    // The peer is older than 0x01000001, or its version is not known yet.
    Compute,
    // The peer is at 0x01000001 or later: the check goes out as 0.
    Skip,
}

impl Checksum {
    #[tactic(auto, unfolding(crate::specs::Checksum::policy_for))]
    pub fn for_version(version: u32) -> Checksum
        ensures { result ≡ policy_for version }
    {
        if version >= ADB_VERSION_SKIP_CHECKSUM {
            Checksum::Skip
        } else {
            Checksum::Compute
        }
    }

    #[tactic(auto, unfolding(crate::specs::Checksum::check_for))]
    pub fn of(self, payload: &[u8]) -> u32
        ensures { result ≡ check_for self payload.now }
    {
        match self {
            Checksum::Skip => 0,
            Checksum::Compute => payload_checksum(payload),
        }
    }
}
