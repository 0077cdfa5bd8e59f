// The file header of a capture.
ghost use Rattle.std.specs.Prelude.{◌≡◌, ◌≤◌, length, IfErr};
ghost use Rattle.rm_pcap.specs.Calls.{IsHeaderFault};
ghost use Rattle.rm_pcap.specs.Header.{number_at, unit_of, form_in, form_of, has_version, has_link_type, header_of};

use crate::fault::PcapFault;
use crate::fields::{long_at, short_at};
use crate::form::{Form, Order, TimeUnit};

/// How many octets a file header has.
pub const HEADER: usize = 24;

const MICROSECONDS_MAGIC: u32 = 0xa1b2_c3d4;

const NANOSECONDS_MAGIC: u32 = 0xa1b2_3c4d;

const ETHERNET: u32 = 1;

// The form by the magic number as it reads in an octet order.
fn form_in(order: Order, bytes: &[u8]) -> Option<Form>
    requires { 4 ≤ length bytes.now }
    ensures { result ≡ form_in order (unit_of (number_at order 4 0 bytes.now)) }
{
    let unit = match long_at(order, bytes, 0) {
        MICROSECONDS_MAGIC => TimeUnit::Microseconds,
        NANOSECONDS_MAGIC => TimeUnit::Nanoseconds,
        _ => return None,
    };
    Some(Form { order, unit })
}

#[tactic(auto, unfolding(crate::specs::Header::form_of))]
fn form_of(bytes: &[u8]) -> Option<Form>
    ensures { result ≡ form_of bytes.now }
{
    if bytes.len() < 4 {
        return None;
    }
    match form_in(Order::HighestFirst, bytes) {
        Some(form) => Some(form),
        None => form_in(Order::LowestFirst, bytes),
    }
}

#[tactic(auto, unfolding(crate::specs::Header::has_version))]
fn has_version(form: Form, bytes: &[u8]) -> bool
    ensures { result ≡ has_version form bytes.now }
{
    bytes.len() >= 8 && short_at(form.order, bytes, 4) == 2 && short_at(form.order, bytes, 6) == 4
}

#[tactic(auto, unfolding(crate::specs::Header::has_link_type))]
fn has_link_type(form: Form, bytes: &[u8]) -> bool
    ensures { result ≡ has_link_type form bytes.now }
{
    bytes.len() >= HEADER && long_at(form.order, bytes, 20) == ETHERNET
}

/// The form that a file header tells, or the first of its faults.
#[tactic(auto, unfolding(crate::specs::Header::header_of))]
pub fn header_of(bytes: &[u8]) -> Result<Form, PcapFault>
    ensures judged { result ≡ header_of bytes.now }
    ensures kinds { IfErr result IsHeaderFault }
{
    let Some(form) = form_of(bytes) else {
        return Err(PcapFault::Magic);
    };
    if !has_version(form, bytes) {
        return Err(PcapFault::Version);
    }
    if !has_link_type(form, bytes) {
        return Err(PcapFault::LinkType);
    }
    Ok(form)
}
