// Runs the words of a command line.
ghost use Rattle.std.specs.Prelude.{◌≡◌, ◌≢◌, ◌↔◌, ◌⊎◌, ◌≤◌, ℕ, List, length, map, Ok, true};
ghost use Rattle.hex.specs.Hex.{decode_of};
ghost use Rattle.rm_edge.specs.Outside.{Rose};
ghost use Rattle.rm_edge.specs.Shelves.{KeepsShelf};
ghost use Rattle.rm_edge.specs.Uses.{clock_use, file_use, link_use, sink_use};
ghost use Rattle.rm_words.specs.Grammar.{Command as Meant, StandFor, is_hex};
ghost use Rattle.rm_words.specs.Told.{captures_of, command_of, options_of};
ghost use Rattle.rm_captures.specs.Reading.{IsOneOf};
ghost use Rattle.rm_probe.specs.Ends.{IsComplete, IsExact};
ghost use Rattle.rm_probe.specs.Serving.{IsIdle, ServesExactly};
ghost use Rattle.rm_probe.specs.declared.status.Status.TheVariants.{Done, LinkFault, NoMemory, ReadFault, Usage};
ghost use Rattle.rm_cmd.specs.Commands.{AreUnused, Decodes, Does, EndsWith, HasPort, HavePort, IsFileOf, LoadsWith, OfDecode, OfLoad, OfReplay, OfServe, OfSummary, Reads, ServesWith, Summarizes};

use rm_captures::CaptureFault;
use rm_decode::Unwritten;
use rm_edge::{Clock, Link, Shelf, Sink, Words};
use rm_load::LoadFault;
use rm_probe::Status;
use rm_settings::Settings;
use rm_summary::SummaryFault;
use rm_words::{Captures, Command, RunOptions, one_command, read_command};
use std::alloc::Global;

/// The interface of a command that has one capture.
const ALONE: u32 = 1;

/// Runs the words of a command line.
///
/// `replay CAPTURE REQUESTS` with its options writes one line for each datagram of the request file and one for each notification,
/// and a last line. `serve CAPTURE PORT COUNT` with its options writes such lines for so many datagrams that come to a port, replies to
/// each, and sends the notifications to a port of this machine. `summary CAPTURE` with its options writes how many frames of each kind a
/// capture has. `decode HEX` writes what the octets are that the digits stand for, read as a message. `load START N` with its options makes
/// so many frames from a number, and writes what tables of a probe show after them. Words that stand for no command are `Usage`.
///
/// With `replay` and `serve` CAPTURE is that of interface 1, and the options `--if2`, `--if3` and `--if4` name those of other interfaces.
///
/// `replay` judges the captures first, in two rounds: in order of interface the header of each and the two lengths of its first record, and
/// then the whole of each. Behind them it judges the request file, a line at a time. Only then is anything written, and all are read again
/// meanwhile. After its `WriteFault` and `ReadFault` a front of the text may have been written. Over a shelf that tells what it holds,
/// nothing was written after the others but `Done`. Over one that doesn't, the files may be other ones when they are read again, and
/// `BadCapture`, `BadRequests` and `TooLong` may come after lines were written.
///
/// `serve` judges the captures so too, and only then is the port bound. After its `WriteFault`, `ReadFault` and `LinkFault` a front of the
/// text may have been written, and of the messages of its whole lines the first ones sent. Nothing was written or sent after the others
/// but `Done`, with the same exception. No other command calls the link, and only with `serve` comes `LinkFault`.
///
/// `summary`, `decode` and `load` write only once all is known. After their `WriteFault` a front of the text may have been written, and
/// nothing after the others but `Done`.
pub fn run<F: Shelf, K: Sink, L: Link, T: Clock>(
    alloc: Global,
    words: &Words,
    shelf: &mut F,
    out: &mut K,
    link: &mut L,
    clock: &mut T,
) -> Status
    ensures usage { (result ≡ Usage) ↔ ((command : Meant) → StandFor words.now command → ⊥) }

    // How `replay` ends, status by status. With `Done`, where octets are told, those added are exactly a text of all files.
    ensures ends { OfReplay words.now (λ captures requests options.
        EndsWith options (map (file_use F.held F.faults shelf.old shelf.new) captures) (file_use F.held F.faults shelf.old shelf.new requests)
        (sink_use K.content K.faults out.old out.new) result) }
    ensures exact { OfReplay words.now (λ captures requests options. IsExact options.lead (map (F.held shelf.old) captures) (F.held shelf.old requests) result) }
    ensures complete { OfReplay words.now (λ captures requests options.
        IsComplete options.lead (map (file_use F.held F.faults shelf.old shelf.new) captures) (file_use F.held F.faults shelf.old shelf.new requests)
        (sink_use K.content K.faults out.old out.new) result) }

    // `serve` too: with `Done` so many datagrams were received, the octets added are exactly the text of the captures and of them, and
    // the datagrams sent are exactly its messages.
    ensures serves { OfServe words.now (λ captures port count trap_port options.
        ServesWith options port count trap_port (map (file_use F.held F.faults shelf.old shelf.new) captures) (sink_use K.content K.faults out.old out.new)
        (link_use L.bound L.received L.sent L.faults link.old link.new) (clock_use T.told clock.old clock.new) result) }
    ensures serves_exactly { OfServe words.now (λ captures port count trap_port options.
        ServesExactly options.lead (map (file_use F.held F.faults shelf.old shelf.new) captures) (sink_use K.content K.faults out.old out.new)
        (link_use L.bound L.received L.sent L.faults link.old link.new) result) }

    // `summary` too: those added are exactly the summary of the capture.
    ensures sums_up { OfSummary words.now (λ capture lead keep_short.
        Summarizes lead keep_short (file_use F.held F.faults shelf.old shelf.new capture) (sink_use K.content K.faults out.old out.new) result) }

    // `decode` too: those added are exactly the text of the octets that its digits are.
    ensures decodes { OfDecode words.now (λ octets. Decodes octets (K.faults out.old) (K.faults out.new) (K.content out.old) (K.content out.new) result) }
    ensures decodes_whole { OfDecode words.now (λ octets. (Rose (K.faults out.old) (K.faults out.new) → ⊥) → (result ≡ Done) ⊎ (result ≡ NoMemory)) }

    // `load` too: those added are exactly what variables show after its Sets and frames, and a last line.
    ensures loads { OfLoad words.now (λ start count options. LoadsWith options start count (sink_use K.content K.faults out.old out.new) result) }
    ensures loads_whole { OfLoad words.now (λ start count options. (Rose (K.faults out.old) (K.faults out.new) → ⊥) → (result ≡ Done) ⊎ (result ≡ NoMemory)) }

    // Without a command or without memory nothing is written or sent.
    ensures silent { (result ≡ Usage) ⊎ (result ≡ NoMemory)
        → IsIdle (sink_use K.content K.faults out.old out.new) (link_use L.bound L.received L.sent L.faults link.old link.new) }

    // The shelf keeps what it holds, and where a file is told, its counts but for failed reads of the command's files. No count falls.
    ensures shelf { KeepsShelf F.held F.faults shelf.old shelf.new (IsFileOf words.now) (result ≡ ReadFault) }
    ensures later { (K.faults out.old ≤ K.faults out.new) × (L.faults link.old ≤ L.faults link.new) }

    // A command without a port leaves the link and the clock as they were, and only a failed call on the link is a `LinkFault`.
    ensures without_port { (HavePort words.now → ⊥)
        → AreUnused (link_use L.bound L.received L.sent L.faults link.old link.new) (clock_use T.told clock.old clock.new) }
    ensures link_fault { result ≡ LinkFault → HavePort words.now × Rose (L.faults link.old) (L.faults link.new) }
{
    one_command();
    match read_command(words) {
        None => Status::Usage,
        Some(command) => run_command(alloc, command, shelf, out, link, clock),
    }
}

// Runs a command with its operands and options.
fn run_command<F: Shelf, K: Sink, L: Link, T: Clock>(
    alloc: Global,
    command: Command<'_>,
    shelf: &mut F,
    out: &mut K,
    link: &mut L,
    clock: &mut T,
) -> Status
    requires stands { (words : List (List ℕ)) × StandFor words (command_of command) }
    ensures does { Does (file_use F.held F.faults shelf.old shelf.new) (sink_use K.content K.faults out.old out.new)
        (link_use L.bound L.received L.sent L.faults link.old link.new) (clock_use T.told clock.old clock.new) result (command_of command.entry) }
    ensures silent { (result ≡ Usage) ⊎ (result ≡ NoMemory)
        → IsIdle (sink_use K.content K.faults out.old out.new) (link_use L.bound L.received L.sent L.faults link.old link.new) }
    ensures shelf { KeepsShelf F.held F.faults shelf.old shelf.new (Reads (command_of command.entry)) (result ≡ ReadFault) }
    ensures later { (K.faults out.old ≤ K.faults out.new) × (L.faults link.old ≤ L.faults link.new) }
    ensures without_port { (HasPort (command_of command.entry) → ⊥)
        → AreUnused (link_use L.bound L.received L.sent L.faults link.old link.new) (clock_use T.told clock.old clock.new) }
    ensures link_fault { result ≡ LinkFault → HasPort (command_of command.entry) × Rose (L.faults link.old) (L.faults link.new) }
    ensures command { result ≢ Usage }
{
    match command {
        Command::Replay {
            captures,
            requests,
            options,
        } => run_replay(alloc, captures, requests, options, shelf, out),
        Command::Serve {
            captures,
            port,
            count,
            trap_port,
            options,
        } => run_serve(
            alloc, captures, port, count, trap_port, options, shelf, out, link, clock,
        ),
        Command::Summary {
            capture,
            lead,
            keep_short,
        } => run_summary(alloc, lead, keep_short, capture, shelf, out),
        Command::Decode { hex: digits } => run_decode(alloc, digits, out),
        Command::Load {
            start,
            count,
            options,
        } => run_load(alloc, start, count, options, out),
    }
}

// Runs `replay` with its operands and options.
fn run_replay<F: Shelf, K: Sink>(
    alloc: Global,
    captures: Captures<'_>,
    requests: &str,
    options: RunOptions,
    shelf: &mut F,
    out: &mut K,
) -> Status
    requires { options.settings.interfaces ≡ length (captures_of captures) }
    ensures ends { EndsWith (options_of options) (map (file_use F.held F.faults shelf.old shelf.new) (captures_of captures.entry))
        (file_use F.held F.faults shelf.old shelf.new requests.now) (sink_use K.content K.faults out.old out.new) result }
    ensures exact { IsExact options.lead (map (F.held shelf.old) (captures_of captures.entry)) (F.held shelf.old requests.now) result }
    ensures complete { IsComplete options.lead (map (file_use F.held F.faults shelf.old shelf.new) (captures_of captures.entry))
        (file_use F.held F.faults shelf.old shelf.new requests.now) (sink_use K.content K.faults out.old out.new) result }
    ensures silent { (result ≡ Usage) ⊎ (result ≡ NoMemory) → K.content out.new ≡ K.content out.old }
    ensures shelf { KeepsShelf F.held F.faults shelf.old shelf.new (λ each. IsOneOf (captures_of captures.entry) each ⊎ (each ≡ requests.now)) (result ≡ ReadFault) }
    ensures later { K.faults out.old ≤ K.faults out.new }
    ensures command { (result ≢ Usage) × (result ≢ LinkFault) }
{
    let lead = options.lead;
    let settings = options.settings;
    rm_probe::replay(
        alloc,
        settings,
        lead,
        captures.capture,
        captures.if2,
        captures.if3,
        captures.if4,
        requests,
        shelf,
        out,
    )
}

// Runs `serve` with its operands and options.
fn run_serve<F: Shelf, K: Sink, L: Link, T: Clock>(
    alloc: Global,
    captures: Captures<'_>,
    port: u16,
    count: u32,
    trap_port: u16,
    options: RunOptions,
    shelf: &mut F,
    out: &mut K,
    link: &mut L,
    clock: &mut T,
) -> Status
    requires { options.settings.interfaces ≡ length (captures_of captures) }
    ensures serves { ServesWith (options_of options) port count trap_port (map (file_use F.held F.faults shelf.old shelf.new) (captures_of captures.entry))
        (sink_use K.content K.faults out.old out.new) (link_use L.bound L.received L.sent L.faults link.old link.new) (clock_use T.told clock.old clock.new) result }
    ensures exact { ServesExactly options.lead (map (file_use F.held F.faults shelf.old shelf.new) (captures_of captures.entry))
        (sink_use K.content K.faults out.old out.new) (link_use L.bound L.received L.sent L.faults link.old link.new) result }
    ensures silent { (result ≡ Usage) ⊎ (result ≡ NoMemory)
        → IsIdle (sink_use K.content K.faults out.old out.new) (link_use L.bound L.received L.sent L.faults link.old link.new) }
    ensures shelf { KeepsShelf F.held F.faults shelf.old shelf.new (IsOneOf (captures_of captures.entry)) (result ≡ ReadFault) }
    ensures later { (K.faults out.old ≤ K.faults out.new) × (L.faults link.old ≤ L.faults link.new) }
    ensures link_fault { result ≡ LinkFault → Rose (L.faults link.old) (L.faults link.new) }
    ensures command { result ≢ Usage }
{
    let lead = options.lead;
    let settings = options.settings;
    rm_probe::serve(
        alloc,
        settings,
        lead,
        captures.capture,
        captures.if2,
        captures.if3,
        captures.if4,
        port,
        count,
        trap_port,
        shelf,
        out,
        link,
        clock,
    )
}

// Runs `summary` with its operand and options.
fn run_summary<F: Shelf, K: Sink>(
    alloc: Global,
    lead: u32,
    keep_short: bool,
    capture: &str,
    shelf: &mut F,
    out: &mut K,
) -> Status
    ensures sums_up { Summarizes lead keep_short (file_use F.held F.faults shelf.old shelf.new capture.now) (sink_use K.content K.faults out.old out.new) result }
    ensures silent { (result ≡ Usage) ⊎ (result ≡ NoMemory) → K.content out.new ≡ K.content out.old }
    ensures shelf { KeepsShelf F.held F.faults shelf.old shelf.new (λ each. each ≡ capture.now) (result ≡ ReadFault) }
    ensures later { K.faults out.old ≤ K.faults out.new }
    ensures command { (result ≢ Usage) × (result ≢ LinkFault) }
{
    match rm_summary::summary(alloc, lead, keep_short, capture, shelf, out) {
        Ok(()) => Status::Done,
        Err(SummaryFault::Capture(fault)) => Status::from(CaptureFault {
            interface: ALONE,
            fault,
        }),
        Err(SummaryFault::Put) => Status::WriteFault,
    }
}

// Runs `decode` with its operand.
fn run_decode<K: Sink>(alloc: Global, digits: &str, out: &mut K) -> Status
    requires digits { is_hex digits.now ≡ true }
    ensures decodes { (octets : List ℕ) × (decode_of digits.now ≡ Ok octets)
        × Decodes octets (K.faults out.old) (K.faults out.new) (K.content out.old) (K.content out.new) result }
    ensures later { K.faults out.old ≤ K.faults out.new }
    ensures silent { (result ≡ Usage) ⊎ (result ≡ NoMemory) → K.content out.new ≡ K.content out.old }
    ensures command { (result ≢ Usage) × (result ≢ LinkFault) }
{
    let Ok(octets) = hex::decode(alloc, digits) else {
        return Status::NoMemory;
    };
    match rm_decode::decode(alloc, &octets, out) {
        Ok(()) => Status::Done,
        Err(Unwritten::Failed) => Status::WriteFault,
        Err(Unwritten::NoMemory) => Status::NoMemory,
    }
}

// Runs `load` with its operands and options.
fn run_load<K: Sink>(
    alloc: Global,
    start: u32,
    count: u32,
    options: RunOptions,
    out: &mut K,
) -> Status
    requires { count ≤ 10000000 }
    ensures loads { LoadsWith (options_of options) start count (sink_use K.content K.faults out.old out.new) result }
    ensures later { K.faults out.old ≤ K.faults out.new }
    ensures silent { (result ≡ Usage) ⊎ (result ≡ NoMemory) → K.content out.new ≡ K.content out.old }
    ensures command { (result ≢ Usage) × (result ≢ LinkFault) }
{
    let settings = options.settings;
    match rm_load::load(alloc, settings, start, count, out) {
        Ok(()) => Status::Done,
        Err(LoadFault::Put) => Status::WriteFault,
        Err(LoadFault::NoMemory) => Status::NoMemory,
    }
}
