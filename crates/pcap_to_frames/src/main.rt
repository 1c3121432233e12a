// The frames of a capture on standard input, one behind the other on standard output. The output ends at a refusal, before a record
// that is cut off, and before one with a frame of more than 65,536 bytes.
#![tactic(auto)]

ghost use Rattle.std.specs.Prelude.{◌≡◌, length};

use convert::ToFrames;
use std::io;

type Buffer = [u8; 65552];

// Room for a record's header and such a frame. The `ensures` gives the length, which a proof would otherwise count out.
fn room() -> Buffer
    ensures { 65552 ≡ length result }
{
    [0; 65552]
}

fn main(rt: HostRuntime) -> io::Result<()> {
    let mut input = rt.stdin();
    let mut header = [0u8; pcap::HEADER_SIZE];
    let n = intake::read_full(&mut input, &mut header)?;
    if let Ok(Some(_)) = pcap::read_header(&header[..n]) {
        let mut buf = room();
        convert::convert(&mut input, &mut rt.stdout(), ToFrames, &mut buf);
    }
    Ok(())
}
