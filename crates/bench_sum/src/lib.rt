// The sum of a payload for C, for bench/ to time by itself. No other crate uses this one.
#![tactic(auto)]

ghost use Rattle.std.specs.Prelude.{◌≡◌};
ghost use Rattle.checksum.specs.Checksum.{sum_of};

use checksum::payload_checksum;

#[unsafe(no_mangle)]
pub extern "C" fn bench_sum(payload: &[u8]) -> u32
    ensures { result ≡ sum_of payload.now }
{
    payload_checksum(payload)
}
