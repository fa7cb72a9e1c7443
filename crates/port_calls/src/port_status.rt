//! The calls that write the status of ports: numbers 19 and 23.

ghost use Rattle.std.specs.Prelude.{◌≡◌, length};
ghost use Rattle.xm_ports.specs.Channels.{content_at};
ghost use Rattle.machine_model.specs.Structures.{queuing_status, sampling_status};
ghost use Rattle.machine_model.specs.Emission.{Unseen};
ghost use Rattle.xm_conf.specs.declared.port.Kind.TheVariants as the_kind;
ghost use Rattle.port_calls.specs.lemmas.MadePortsTerms.{IsMade, port_in};
ghost use Rattle.port_calls.specs.MadePorts.{table_in};
ghost use Rattle.port_calls.specs.lemmas.OnPortsTerms.{done_on, status_bytes, status_in};
ghost use Rattle.port_calls.specs.declared.on_ports.PortWork.TheVariants as work;
ghost use Rattle.system_state.specs.Serving.{IsCaller, IsServed, caller_of};

use crate::made_ports::{MadePort, most_of, refresh_of};
use system_state::answering::{B, answer, answer_written, argument, room};
use system_state::structures::{Structure, queuing_status, sampling_status};
use system_state::{CallSite, Served, Sys};
use xm_base::PartId;
use xm_conf::Kind;

/// Calls 19, XM_get_sampling_port_status(a, b), and 23, XM_get_queuing_port_status(a, b), on a made port.
pub(crate) fn status_on(sys: &mut Sys, site: CallSite, kind: Kind, port: MadePort) -> Served
    requires caller { IsCaller site sys.old }
    requires made { IsMade kind site.part sys.old port }
    ensures { IsServed site.part Unseen (done_on kind work.Status (caller_of site sys.old) (port_in site.part sys.old port)) result sys.old sys.new }
{
    let at = argument(sys, site, B);
    let status = status_of(sys, site.part, kind, port);
    let bytes = status.bytes();
    if let Some(code) = room(sys, site, at, bytes.len() as u32) {
        return answer(sys, site, code);
    }
    answer_written(sys, site, at, bytes, 0)
}

/// The status of a port of a partition.
fn status_of(sys: &Sys, p: PartId, kind: Kind, port: MadePort) -> Structure
    requires { IsMade kind p sys.now port }
    ensures value { result ≡ status_in kind sys.now.machine.time (port_in p sys.now port) }
    ensures size { length result ≡ status_bytes kind }
{
    match kind {
        Kind::Sampling => status_of_sample(sys, p, port),
        Kind::Queuing => status_of_queue(sys, p, port),
    }
}

/// The status of a sampling port of a partition.
#[tactic(auto, unfolding(machine_model::specs::Structures::sampling_status))]
fn status_of_sample(sys: &Sys, p: PartId, port: MadePort) -> Structure
    requires { IsMade the_kind.Sampling p sys.now port }
    ensures value { result ≡ sampling_status port.kind sys.now.machine.time (content_at port.chan (table_in sys.now)) }
    ensures size { length result ≡ 16 }
{
    let sample = sys.channels().get_sampling(port.chan);
    sampling_status(refresh_of(port.kind), sys.now(), sample)
}

/// The status of a queuing port of a partition.
#[tactic(auto, unfolding(machine_model::specs::Structures::queuing_status))]
fn status_of_queue(sys: &Sys, p: PartId, port: MadePort) -> Structure
    requires { IsMade the_kind.Queuing p sys.now port }
    ensures value { result ≡ queuing_status port.kind (content_at port.chan (table_in sys.now)) }
    ensures size { length result ≡ 8 }
{
    let count = sys.channels().count(port.chan);
    queuing_status(count as u32, most_of(port.kind))
}
