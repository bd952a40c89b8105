// The C boundary: the exported calls on the device that a host lends.
#![tactic(auto)]

pub mod deviceless;
pub mod streams;

ghost use Rattle.std.specs.Prelude.{[]};
ghost use Rattle.machine.specs.Calls.Call.{attach as attaches, detach as detaches, request as asks, reply as replies, tick as ticks, link_lost};
ghost use Rattle.device.specs.Device.{MadeDevice, Served, Freshly, Awaited};

use machine::{NextDeadline, Report};
use proxy::Device;
use settings::Settings;

// Makes the device fresh from a settings value that is lent, whatever it was. An invalid value is refusal 10, and the device then has the usual one.
#[unsafe(no_mangle)]
pub extern "C" fn zb_fresh(st: &mut Device, from: &Settings) -> Report
    ensures { Freshly from.now result st.new }
{
    reports::report_of(proxy::making::fresh(st, from))
}

// Attaches a client.
#[unsafe(no_mangle)]
pub extern "C" fn zb_attach(st: &mut Device, client: u32) -> Report
    requires { MadeDevice st.old }
    ensures { Served st.old (attaches client) result st.new [] [] }
{
    reports::report_of(proxy::attaching::attach(st, client))
}

// Detaches a client, and strikes its parties out.
#[unsafe(no_mangle)]
pub extern "C" fn zb_detach(st: &mut Device, client: u32) -> Report
    requires { MadeDevice st.old }
    ensures { Served st.old (detaches client) result st.new [] [] }
{
    reports::report_of(proxy::attaching::detach(st, client))
}

// A client's request.
#[unsafe(no_mangle)]
pub extern "C" fn zb_request(
    st: &mut Device,
    client: u32,
    time: u64,
    frame: &[u8],
    out: &mut [u8],
) -> Report
    requires { MadeDevice st.old }
    ensures { Served st.old (asks client time frame.now out.old) result st.new out.new [] }
{
    reports::report_of(requesting::request(st, client, time, frame, out))
}

// The controller's reply.
#[unsafe(no_mangle)]
pub extern "C" fn zb_reply(
    st: &mut Device,
    time: u64,
    frame: &[u8],
    out: &mut [u8],
    list: &mut [u16],
) -> Report
    requires { MadeDevice st.old }
    ensures { Served st.old (replies time frame.now out.old list.old) result st.new out.new list.new }
{
    reports::report_of(answering::reply(st, time, frame, out, list))
}

// Time goes on.
#[unsafe(no_mangle)]
pub extern "C" fn zb_tick(st: &mut Device, time: u64, out: &mut [u8], list: &mut [u16]) -> Report
    requires { MadeDevice st.old }
    ensures { Served st.old (ticks time out.old list.old) result st.new out.new list.new }
{
    reports::report_of(answering::tick(st, time, out, list))
}

// The link is lost.
#[unsafe(no_mangle)]
pub extern "C" fn zb_link_lost(st: &mut Device) -> Report
    requires { MadeDevice st.old }
    ensures { Served st.old (link_lost) result st.new [] [] }
{
    reports::report_of(proxy::attaching::link_lost(st))
}

// How many requests are live, and the earliest deadline of them: a host sleeps until then.
#[unsafe(no_mangle)]
pub extern "C" fn zb_next_deadline(st: &Device) -> NextDeadline
    requires { MadeDevice st.now }
    ensures { Awaited st.now result }
{
    finding::next_deadline(&st.table)
}
