// A frame: a header and its payload, which stays where it was received.
// `as usize` widens a u32, and `as u32` narrows a length that is within the limit: std has no From for either, and a fallible
// conversion would need an arm that never comes.
ghost use Rattle.std.specs.Prelude.{◌≡◌, ◌+◌, ◌≤◌, min, length};
ghost use Rattle.le.specs.Le.{part};
ghost use Rattle.protocol.specs.Packet.{empty_packet, payload_of, check_passes, known_of, decode_of, missing_of, frame_for, FrameRoom, Puts};
ghost use Rattle.protocol.specs.Packet.{encode_of, Encodes, decode_error_number, encode_error_number};
ghost use Rattle.protocol.specs.declared.packet.DecodeError.TheVariants.{InvalidCommand};
ghost use Rattle.protocol.specs.Message.{message_size};

use crate::command::{Command, UnknownCommand};
use crate::message::Message;
use checksum::{Checksum, payload_checksum};
use refusal::Numbered;

// A decoded header. The payload is the data_length bytes that follow it.
#[derive(Clone, Copy)]
pub struct Packet {
    pub command: Command,
    pub arg0: u32,
    pub arg1: u32,
    pub data_length: usize,
}

// Why received bytes begin with no frame that is taken.
#[derive(Clone, Copy, Debug, PartialEq, Eq)]
pub enum DecodeError {
    // Refusal 1, with the word.
    InvalidCommand(u32),
    // Refusal 2.
    InvalidMagic,
    // Refusal 3.
    PayloadTooLarge,
    // Refusal 4: the frame is used.
    InvalidChecksum { used: usize },
}

impl Numbered for DecodeError {
    ghost number = { decode_error_number };

    fn number(self) -> u32 {
        match self {
            DecodeError::InvalidCommand(_) => 1,
            DecodeError::InvalidMagic => 2,
            DecodeError::PayloadTooLarge => 3,
            DecodeError::InvalidChecksum { used: _ } => 4,
        }
    }
}

impl From<UnknownCommand> for DecodeError {
    ghost from_gives = { λ unknown error. error ≡ InvalidCommand unknown.0 };

    fn from(unknown: UnknownCommand) -> DecodeError {
        DecodeError::InvalidCommand(unknown.0)
    }
}

// Why a frame was not written. Not refusal's WriteError over DecodeError: of what the reader refuses, a writer can meet the first alone.
#[derive(Clone, Copy, Debug, PartialEq, Eq)]
pub enum EncodeError {
    // Refusal 3.
    PayloadTooLarge,
    // Refusal 9: the buffer is too short.
    OutShort,
}

impl Numbered for EncodeError {
    ghost number = { encode_error_number };

    fn number(self) -> u32 {
        match self {
            EncodeError::PayloadTooLarge => 3,
            EncodeError::OutShort => 9,
        }
    }
}

// A check of 0 is not compared.
fn check_passes(check: u32, payload: &[u8]) -> bool
    ensures { result ≡ check_passes check payload.now }
{
    check == 0 || payload_checksum(payload) == check
}

// The answer once the header names a command.
fn decode_known(
    received: &[u8],
    max_payload: u32,
    command: Command,
    message: Message,
) -> Result<Option<Packet>, DecodeError>
    requires { message_size ≤ length received.now }
    ensures { result ≡ known_of received.now max_payload command message }
{
    if message.magic != command.magic() {
        return Err(DecodeError::InvalidMagic);
    }
    if message.data_length > max_payload.min(Packet::MAX_PAYLOAD) {
        return Err(DecodeError::PayloadTooLarge);
    }
    let len = message.data_length as usize;
    let end = Packet::MESSAGE_SIZE + len;
    if received.len() < end {
        return Ok(None);
    }
    if check_passes(message.data_check, &received[Packet::MESSAGE_SIZE..end]) {
        return Ok(Some(Packet {
            command,
            arg0: message.arg0,
            arg1: message.arg1,
            data_length: len,
        }));
    }
    Err(DecodeError::InvalidChecksum { used: end })
}

impl Packet {
    // Length of a frame's header.
    pub const MESSAGE_SIZE: usize = 24;
    // Longest payload of a frame.
    pub const MAX_PAYLOAD: u32 = 1_048_576;

    // A frame with no payload.
    pub fn empty(command: Command, arg0: u32, arg1: u32) -> Packet
        ensures { result ≡ empty_packet command arg0 arg1 }
    {
        Packet {
            command,
            arg0,
            arg1,
            data_length: 0,
        }
    }

    // The length of the frame.
    pub fn frame_len(self) -> usize
        requires { self.data_length ≤ 1_048_576 }
        ensures { result ≡ message_size + self.data_length }
    {
        Packet::MESSAGE_SIZE + self.data_length
    }

    // The frame that received bytes begin with, none until it is all there, or why there is none.
    pub fn decode(received: &[u8], max_payload: u32) -> Result<Option<Packet>, DecodeError>
        ensures { result ≡ decode_of received.now max_payload }
    {
        if received.len() < Packet::MESSAGE_SIZE {
            return Ok(None);
        }
        let message = Message::read(received);
        let command = Command::try_from(message.command)?;
        decode_known(received, max_payload, command, message)
    }

    // The payload, where it was received.
    pub fn payload_in(self, received: &[u8]) -> &[u8]
        requires { message_size + self.data_length ≤ length received.now }
        ensures { result.now ≡ payload_of received.now self.data_length }
    {
        let end = Packet::MESSAGE_SIZE + self.data_length;
        &received[Packet::MESSAGE_SIZE..end]
    }

    // Bytes that are still missing before `decode` can answer with a frame: the rest of the header, or of the payload
    // that it declares.
    pub fn missing(received: &[u8]) -> usize
        ensures { result ≡ missing_of received.now }
    {
        if received.len() < Packet::MESSAGE_SIZE {
            return Packet::MESSAGE_SIZE - received.len();
        }
        let here = received.len() - Packet::MESSAGE_SIZE;
        (le::get::<u32>(received, 12) as usize).saturating_sub(here)
    }

    // A frame, written at a place of out. Answers with the place past it. Its parts one by one: a Packet has a payload's length, not the
    // payload, and only a frame with none is made as a Packet first.
    pub fn put_at(
        out: &mut [u8],
        at: usize,
        command: Command,
        arg0: u32,
        arg1: u32,
        payload: &[u8],
        checksum: Checksum,
    ) -> usize
        requires { FrameRoom out.old at payload.now }
        ensures { Puts out.old at (frame_for command arg0 arg1 payload.now checksum) result out.new }
    {
        let len = payload.len();
        let check = checksum.of(payload);
        let message = Message {
            command: command.word(),
            arg0,
            arg1,
            data_length: len as u32,
            data_check: check,
            magic: command.magic(),
        };
        message.put_at(out, at);
        let body = at + Packet::MESSAGE_SIZE;
        le::copy_at(out, body, payload);
        body + len
    }

    // A frame, written at the start of out where it fits.
    pub fn encode(
        command: Command,
        arg0: u32,
        arg1: u32,
        payload: &[u8],
        checksum: Checksum,
        out: &mut [u8],
    ) -> Result<usize, EncodeError>
        ensures { Encodes (encode_of command arg0 arg1 payload.now checksum out.old) result out.new }
    {
        let len = payload.len();
        if len > Packet::MAX_PAYLOAD as usize {
            return Err(EncodeError::PayloadTooLarge);
        }
        if out.len() < Packet::MESSAGE_SIZE + len {
            return Err(EncodeError::OutShort);
        }
        let end = Packet::put_at(out, 0, command, arg0, arg1, payload, checksum);
        Ok(end)
    }
}
