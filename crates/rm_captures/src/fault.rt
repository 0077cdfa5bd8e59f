use rm_pcap::PcapFault;

/// Why captures can't be read together: the interface of one of them, from 1, and its fault.
#[derive(Clone, Copy, Debug, PartialEq, Eq)]
pub struct CaptureFault {
    /// The number of the interface.
    pub interface: u32,
    /// The fault of its capture.
    pub fault: PcapFault,
}
