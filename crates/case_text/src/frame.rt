// Frames as text.
use crate::address::{ethernet_address, ip_pair, ports};
use crate::pieces::octets;
use crate::text::number;
use crate::trouble::Trouble;
use std::alloc::Global;

/// The type of an Ethernet frame that holds an IPv4 datagram (RFC 894).
const IPV4: [u8; 2] = [0x08, 0x00];

/// The octets of an Ethernet header, and of one with a tag.
const ETHERNET_HEADER: u32 = 14;

const TAGGED_HEADER: u32 = 18;

/// The number at the beginning of a tag (IEEE 802.1Q).
const TAG: [u8; 2] = [0x81, 0x00];

/// A frame, as its octets and lengths stand in a capture.
#[derive(Drop)]
pub struct Frame {
    /// The octets at its beginning. What is captured behind them is zeros.
    pub octets: Vec<u8>,
    /// How many octets are captured.
    pub captured: u32,
    /// How many octets the frame has, without its check sequence.
    pub length: u32,
}

impl Frame {
    /// A frame of zeros.
    pub fn zeros(alloc: Global, captured: u32, length: u32) -> Frame {
        Frame {
            octets: Vec::new(alloc),
            captured,
            length,
        }
    }
}

/// What a line says of a frame.
#[derive(Drop)]
struct Fields {
    to: Vec<u8>,
    from: Vec<u8>,
    tag: Vec<u8>,
    kind: Vec<u8>,
    addresses: Vec<u8>,
    protocol: u8,
    ports: Vec<u8>,
    octets: Vec<u8>,
    captured: Option<u32>,
    length: Option<u32>,
}

impl Fields {
    fn new(alloc: Global) -> Result<Fields, Trouble> {
        Ok(Fields {
            to: Vec::from_slice(alloc, &[0; 6])?,
            from: Vec::from_slice(alloc, &[0; 6])?,
            tag: Vec::new(alloc),
            kind: Vec::from_slice(alloc, &[0; 2])?,
            addresses: Vec::new(alloc),
            protocol: 0,
            ports: Vec::new(alloc),
            octets: Vec::new(alloc),
            captured: None,
            length: None,
        })
    }

    // Takes the value of one field.
    fn take(&mut self, alloc: Global, field: &str, value: &str) -> Result<(), Trouble> {
        match field {
            "to" => self.to = ethernet_address(alloc, value)?,
            "from" => self.from = ethernet_address(alloc, value)?,
            "tag" => self.tag = tag(alloc, value)?,
            "type" => self.kind = octets(alloc, value)?,
            "ip" => {
                self.kind = Vec::from_slice(alloc, &IPV4)?;
                self.addresses = ip_pair(alloc, value)?;
            }
            "udp" => {
                self.protocol = 17;
                self.ports = ports(alloc, value)?;
            }
            "tcp" => {
                self.protocol = 6;
                self.ports = ports(alloc, value)?;
            }
            "octets" => self.octets = octets(alloc, value)?,
            "captured" => self.captured = Some(number(value)?),
            "length" => self.length = Some(number(value)?),
            _ => return Err(Trouble::Form("no field of a frame")),
        }
        Ok(())
    }

    // The frame of these fields. Octets that are given stand for all else; a length that isn't given is that of what is captured,
    // and the other way round.
    fn frame(self, alloc: Global) -> Result<Frame, Trouble> {
        let given = u32::try_from(self.octets.len()).unwrap_or(0);
        let (captured, length) = match (self.captured, self.length) {
            (Some(captured), Some(length)) => (captured, length),
            (Some(captured), None) => (captured, captured),
            (None, Some(length)) if given > 0 => (given, length),
            (None, Some(length)) => (length, length),
            (None, None) if given > 0 => (given, given),
            (None, None) => return Err(Trouble::Form("a frame without a length")),
        };
        let octets = if given > 0 {
            self.octets
        } else {
            self.headers(alloc, length)?
        };
        Ok(Frame {
            octets,
            captured,
            length,
        })
    }

    // The Ethernet header, with a tag where there is one, and for addresses of IP an IPv4 header (RFC 791) without a checksum, and the ports behind it.
    fn headers(&self, alloc: Global, length: u32) -> Result<Vec<u8>, Trouble> {
        if self.kind.len() != 2 {
            return Err(Trouble::Form("a type that hasn't two octets"));
        }
        if self.addresses.is_empty() && !self.ports.is_empty() {
            return Err(Trouble::Form("ports without addresses of IP"));
        }
        let mut all = Vec::new(alloc);
        all.extend_from_slice(&self.to)?;
        all.extend_from_slice(&self.from)?;
        all.extend_from_slice(&self.tag)?;
        all.extend_from_slice(&self.kind)?;
        if self.addresses.is_empty() {
            return Ok(all);
        }
        let total = u16::try_from(length.saturating_sub(self.header())).unwrap_or(u16::MAX);
        let [high, low] = total.to_be_bytes();
        all.extend_from_slice(&[0x45, 0, high, low, 0, 0, 0, 0, 64, self.protocol, 0, 0])?;
        all.extend_from_slice(&self.addresses)?;
        all.extend_from_slice(&self.ports)?;
        Ok(all)
    }

    // The octets of its Ethernet header.
    fn header(&self) -> u32 {
        if self.tag.is_empty() {
            ETHERNET_HEADER
        } else {
            TAGGED_HEADER
        }
    }
}

// A tag with these two octets of control information.
fn tag(alloc: Global, control: &str) -> Result<Vec<u8>, Trouble> {
    let control = octets(alloc, control)?;
    if control.len() != 2 {
        return Err(Trouble::Form("a tag that hasn't two octets"));
    }
    let mut tag = Vec::from_slice(alloc, &TAG)?;
    tag.extend_from_slice(&control)?;
    Ok(tag)
}

/// Reads the fields of a frame, a word and a value each.
pub fn read_frame(alloc: Global, text: &str) -> Result<Frame, Trouble> {
    let mut fields = Fields::new(alloc)?;
    let mut words = text.split_whitespace();
    for _ in 0..text.len() {
        let Some(field) = words.next() else {
            break;
        };
        let Some(value) = words.next() else {
            return Err(Trouble::Form("a field without a value"));
        };
        fields.take(alloc, field, value)?;
    }
    fields.frame(alloc)
}
