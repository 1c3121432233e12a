// What a packet does that the call does not take for itself.
ghost use Rattle.std.specs.Prelude.{◌≡◌};
ghost use Rattle.call.specs.Promise.{ActRoom, ActOnDoes};

use crate::frames::{put_close, put_okay};
use incoming::{push_back, withdraw};
use protocol::packet::Packet;
use slot::ChannelFault;
use slot::ids::{ChannelIds, LocalId};
use state::Header;
use table_dispatch::{DispatchOutcome, dispatch};

// A fault, if it was one; the header, which the caller stores at its end; the place past the frames.
#[derive(Clone, Copy)]
pub struct ActedOn {
    pub fault: Option<ChannelFault>,
    pub header: Header,
    pub end: usize,
}

// Dispatches a packet, answers it by a frame at place `at` where one is due, and keeps an OPEN. Dispatch and write end behind it
// in the same two lines: a function for both would take these parameters and the answer, and open stores another header.
pub fn act_on(
    state: &mut [u8],
    rx: &mut [u8],
    store: &mut [u8],
    out: &mut [u8],
    at: usize,
    h: Header,
    packet: Packet,
    payload: &[u8],
) -> ActedOn
    requires { ActRoom h state.old rx.old store.old out.old at payload.now }
    ensures { ActOnDoes state.old rx.old store.old out.old at h packet
        payload.now result state.new rx.new store.new out.new }
{
    let n = h.negotiated;
    // One of nine outcomes, matched at once: a fault too goes on with the header and the place.
    let outcome = dispatch(state, rx, n.config.channels, n.rx_policy(), packet, payload);
    match outcome {
        DispatchOutcome::AckWrite(_, ids, len) => {
            let end = put_okay(out, at, n, ids, len);
            done(h, end)
        }
        DispatchOutcome::StrayReady(ids) => {
            let end = put_close(out, at, n, ids);
            done(h, end)
        }
        DispatchOutcome::IncomingOpen(remote, credit) => {
            match push_back(state, store, h, remote, credit, payload) {
                Some(more) => done(more, at),
                None => {
                    let local = LocalId(0);
                    let end = put_close(out, at, n, ChannelIds { local, remote });
                    done(h, end)
                }
            }
        }
        DispatchOutcome::CancelQueuedOpen(remote) => done(withdraw(state, h, remote), at),
        DispatchOutcome::ChannelFault(_, _, _, fault) => ActedOn {
            fault: Some(fault),
            header: h,
            end: at,
        },
        DispatchOutcome::CreditGranted(_) => done(h, at),
        DispatchOutcome::SlotClosed(_) => done(h, at),
        DispatchOutcome::DataBuffered(_) => done(h, at),
        DispatchOutcome::Unmatched => done(h, at),
    }
}

fn done(header: Header, end: usize) -> ActedOn
    ensures { result ≡ record { fault = None; header = header; end = end } }
{
    ActedOn {
        fault: None,
        header,
        end,
    }
}
