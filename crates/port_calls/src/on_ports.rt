//! The calls on made ports: numbers 17 to 19, and 21 to 23.

ghost use Rattle.std.specs.Prelude.{◌≡◌};
ghost use Rattle.xm_ports.specs.Channels.{shapes_of};
ghost use Rattle.machine_model.specs.Emission.{Unseen};
ghost use Rattle.port_calls.specs.OnPorts.{call_on};
ghost use Rattle.system_state.specs.Serving.{IsCaller, IsServed, caller_of};

use crate::made_ports::made_port;
use crate::message_calls::{receive_on, send_on};
use crate::port_status::status_on;
use system_state::answering::{INVALID_PARAMETER, answer};
use system_state::{CallSite, Served, Sys};
use xm_conf::Kind;

/// What a call does with a made port.
#[derive(Clone, Copy, Debug, PartialEq, Eq)]
pub enum PortWork {
    /// It puts a message into the channel.
    Send,
    /// It reads a message from the channel.
    Receive,
    /// It writes the port's status.
    Status,
}

/// A call on the made port of a kind that it names by a: 17, 18 and 19 on a sampling port, 21, 22 and 23 on a queuing port.
pub fn call_port(sys: &mut Sys, site: CallSite, kind: Kind, work: PortWork) -> Served
    // Called for a caller that exists and with channels of the configuration's shapes.
    requires caller { IsCaller site sys.old }
    requires shapes { sys.old.shapes ≡ shapes_of sys.old.machine.system.conf }
    // Call 17, `XM_write_sampling_message`: the bytes are the channel's message, and interrupt 3 is pending at each
    // partition that hears of it. Call 18, `XM_read_sampling_message`: the message is written, then whether it is
    // valid; its length is the result. Call 19, `XM_get_sampling_port_status`: the time, the length and the validity of
    // the message are written. Call 21, `XM_send_queuing_message`: the bytes are the last message of the queue, unless
    // it is full, and interrupt 4 is pending where its destination is made and has not halted. Call 22,
    // `XM_receive_queuing_message`: the first message is written and taken; where a test refuses, it stays. Call 23,
    // `XM_get_queuing_port_status`: how many messages the queue holds, and how many it may, is written.
    ensures { IsServed site.part Unseen (call_on kind work (caller_of site sys.old)) result sys.old sys.new }
{
    let Some(port) = made_port(sys, site, kind) else {
        return answer(sys, site, INVALID_PARAMETER);
    };
    match work {
        PortWork::Send => send_on(sys, site, kind, port),
        PortWork::Receive => receive_on(sys, site, kind, port),
        PortWork::Status => status_on(sys, site, kind, port),
    }
}
