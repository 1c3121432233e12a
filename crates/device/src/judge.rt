// What is done with a packet that a device's end meets itself, behind what the call's own step left.
ghost use Rattle.std.specs.Prelude.{◌≡◌};
ghost use Rattle.device.specs.Device.{plain, is_waiting, taken_as};
ghost use Rattle.device.specs.Promise.{JudgeRoom, Judges, VerdictRoom, VerdictDoes};

use crate::{DeviceAnswer, DeviceReply};
use call::Reply;
use call::admit::drop_pending;
use call_accept::accept_on;
use call_reject::reject_on;
use connection::Answer;
use device_meets::{Met, Verdict};
use slot::ids::RemoteId;
use state::header_of;

// A reply of the host's calls.
pub fn plain(reply: Reply) -> DeviceReply
    ensures { result ≡ plain reply }
{
    DeviceReply {
        answer: DeviceAnswer::Plain(reply.answer),
        used: reply.used,
        written: reply.written,
    }
}

#[tactic(auto, unfolding(crate::specs::Device::is_waiting))]
fn is_waiting(answer: Answer) -> bool
    ensures { result ≡ is_waiting answer }
{
    match answer {
        Answer::Waiting => true,
        _ => false,
    }
}

// An OPEN that was taken says so; one for which no slot was empty is handled, and no more.
#[tactic(auto, unfolding(crate::specs::Device::taken_as))]
fn taken_as(answer: Answer, remote: RemoteId, place: usize, handled: Answer) -> DeviceAnswer
    ensures { result ≡ taken_as handled remote place answer }
{
    match answer {
        Answer::Opened(ch) => DeviceAnswer::Taken(ch, remote, place),
        _ => DeviceAnswer::Plain(handled),
    }
}

// The verdict on a packet, with the connection as the call's step left it. `handled` is what the call answers for a packet that was handled.
fn by_verdict(inner: &mut [u8], out: &mut [u8], at: usize, met: Met, handled: Answer) -> DeviceReply
    requires { VerdictRoom inner.old out.old at }
    ensures { VerdictDoes inner.old out.old at met handled result inner.new out.new }
{
    let h = drop_pending(header_of(inner));
    match met.verdict {
        Verdict::Ignore => DeviceReply {
            answer: DeviceAnswer::Plain(handled),
            used: met.used,
            written: at,
        },
        Verdict::Refuse(remote) => {
            let reply = reject_on(inner, out, at, h, remote, Answer::Done);
            DeviceReply {
                answer: DeviceAnswer::Plain(handled),
                used: met.used,
                written: reply.written,
            }
        }
        Verdict::Take(remote, credit, place) => {
            let reply = accept_on(inner, out, at, h, remote, credit);
            DeviceReply {
                answer: taken_as(reply.answer, remote, place, handled),
                used: met.used,
                written: reply.written,
            }
        }
    }
}

// A call's end: its step ran without a packet where one was met, and the verdict follows if the step then waits for one.
pub fn judge(
    inner: &mut [u8],
    out: &mut [u8],
    reply: Reply,
    met: Option<Met>,
    handled: Answer,
) -> DeviceReply
    requires { JudgeRoom inner.old out.old reply met }
    ensures { Judges inner.old out.old reply met handled result inner.new out.new }
{
    match met {
        Some(packet) => {
            if is_waiting(reply.answer) {
                return by_verdict(inner, out, reply.written, packet, handled);
            }
            plain(reply)
        }
        None => plain(reply),
    }
}
