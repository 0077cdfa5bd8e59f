// Laws of what the octets of a file are as a capture. The bodies are empty.
ghost use Rattle.std.specs.Prelude.{◌≡◌, ◌↔◌, ℕ, List, Ok};
ghost use Rattle.rm_model.specs.Journal.{Frame as Passed};
ghost use Rattle.rm_pcap.specs.declared.form.Form.{Form};
ghost use Rattle.rm_pcap.specs.declared.start.Start.{Start};
ghost use Rattle.rm_pcap.specs.declared.reach.Reach.{Reach};
ghost use Rattle.rm_pcap.specs.Header.{header_of};
ghost use Rattle.rm_pcap.specs.Records.{Stop, ReadsAs};
ghost use Rattle.rm_pcap.specs.Steps.{AreRecords, beginning};

/// A law: from a reach on, a file has one list of records at most, and stops in one way.
pub fn one_list_of_records()
    ensures { (form : Form) (start : Start) (reach : Reach) (bytes : List ℕ) (frames others : List Passed) (stop last : Stop)
        → AreRecords form start reach bytes frames stop → AreRecords form start reach bytes others last
        → (frames ≡ others) × (stop ≡ last) }
{}

/// A law: a file reads in one way at most.
pub fn one_reading()
    ensures { (start : Start) (bytes : List ℕ) (frames others : List Passed) (stop last : Stop)
        → ReadsAs start bytes frames stop → ReadsAs start bytes others last → (frames ≡ others) × (stop ≡ last) }
{}

/// A law: each file reads in some way.
pub fn every_reading()
    ensures { (start : Start) (bytes : List ℕ) → (frames : List Passed) × (stop : Stop) × ReadsAs start bytes frames stop }
{}

/// A law: where its header is good, a file reads as its records do, passed one by one from the first on.
pub fn readings_are_records()
    ensures { (form : Form) (start : Start) (bytes : List ℕ) (frames : List Passed) (stop : Stop) → header_of bytes ≡ Ok form
        → ReadsAs start bytes frames stop ↔ AreRecords form start (beginning start) bytes frames stop }
{}
