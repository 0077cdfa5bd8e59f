// The kinds of PDU.
ghost use Rattle.std.specs.Prelude.{◌≡◌, ◌↔◌, Some};

/// The kind of a PDU (RFC 1905, section 3).
#[derive(Clone, Copy, Debug, PartialEq, Eq)]
pub enum Kind {
    /// GetRequest
    Get,
    /// GetNextRequest
    Next,
    /// Response
    Response,
    /// SetRequest
    Set,
    /// GetBulkRequest
    Bulk,
    /// InformRequest
    Inform,
    /// SNMPv2-Trap
    Trap,
    /// Report
    Report,
}

impl Kind {
    ghost use Rattle.rm_pdu.specs.declared.kind.Kind.{Kind};
    ghost use Rattle.rm_pdu.specs.Message.{kind_tag};
    ghost use Rattle.rm_pdu.specs.Parse.{is_request};

    /// The tag of the PDU.
    pub(crate) fn tag(self) -> u8
        ensures { result ≡ kind_tag self }
    {
        match self {
            Kind::Get => 0xa0,
            Kind::Next => 0xa1,
            Kind::Response => 0xa2,
            Kind::Set => 0xa3,
            Kind::Bulk => 0xa5,
            Kind::Inform => 0xa6,
            Kind::Trap => 0xa7,
            Kind::Report => 0xa8,
        }
    }

    /// The kind of the PDU with that tag. None where no PDU has it.
    pub(crate) fn of_tag(tag: u8) -> Option<Kind>
        ensures { (kind : Kind) → (kind_tag kind ≡ tag) ↔ (result ≡ Some kind) }
    {
        match tag {
            0xa0 => Some(Kind::Get),
            0xa1 => Some(Kind::Next),
            0xa2 => Some(Kind::Response),
            0xa3 => Some(Kind::Set),
            0xa5 => Some(Kind::Bulk),
            0xa6 => Some(Kind::Inform),
            0xa7 => Some(Kind::Trap),
            0xa8 => Some(Kind::Report),
            _ => None,
        }
    }

    /// Whether an agent is asked by it.
    pub(crate) fn is_request(self) -> bool
        ensures { result ≡ is_request self }
    {
        matches!(self, Kind::Get | Kind::Next | Kind::Set | Kind::Bulk)
    }
}
