// The 24-byte header that every frame starts with: six little-endian words.
ghost use Rattle.std.specs.Prelude.{◌≡◌, ◌+◌, ◌≤◌, length};
ghost use Rattle.le.specs.Le.{put};
ghost use Rattle.protocol.specs.Message.{message_size, message_of, header_bytes};

#[derive(Clone, Copy)]
pub struct Message {
    pub command: u32,
    // First argument; its meaning depends on the command.
    pub arg0: u32,
    // Second argument; its meaning depends on the command.
    pub arg1: u32,
    // Length of the payload that follows; 0 is allowed.
    pub data_length: u32,
    // The payload's check, or 0 where it is left out.
    pub data_check: u32,
    // The command with every bit flipped.
    pub magic: u32,
}

impl Message {
    // The header at the start of s.
    pub fn read(s: &[u8]) -> Message
        requires { message_size ≤ length s.now }
        ensures { result ≡ message_of s.now }
    {
        Message {
            command: le::get(s, 0),
            arg0: le::get(s, 4),
            arg1: le::get(s, 8),
            data_length: le::get(s, 12),
            data_check: le::get(s, 16),
            magic: le::get(s, 20),
        }
    }

    // The header, written at a place of out.
    pub fn put_at(self, out: &mut [u8], at: usize)
        requires { at + message_size ≤ length out.old }
        ensures { out.new ≡ put out.old at (header_bytes self) }
    {
        let words = [
            self.command,
            self.arg0,
            self.arg1,
            self.data_length,
            self.data_check,
            self.magic,
        ];
        le::put_all(out, at, &words);
    }
}
