// Standard input's frames as a capture on standard output, each at time 0. The file ends before a frame that decoding refuses, one of
// more than 65,536 bytes with its header, and one that does not come whole.
#![tactic(auto)]

use convert::ToRecords;
use std::io::Write;

fn main(rt: HostRuntime) {
    let mut output = rt.stdout();
    let mut header = [0u8; pcap::HEADER_SIZE];
    if pcap::write_header(&mut header).is_ok() && output.write_all(&header).is_ok() {
        let mut buf = io::large_buffer();
        convert::convert(&mut rt.stdin(), &mut output, ToRecords, &mut buf);
    }
}
