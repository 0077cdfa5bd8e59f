// The protocols that are active.
ghost use Rattle.std.specs.Prelude.{◌≡◌, ◌<◌, All, map, nat_eq, Some};
ghost use Rattle.rm_path.specs.Slots.{identifier_in};
ghost use Rattle.rm_dir.specs.Active.{held_protocol, protocol_kept};
ghost use Rattle.rm_dir.specs.Support.{support_number};

use crate::directory::Directory;
use crate::keys::may_have_row;
use crate::row::DirectoryRow;
use crate::support::Support;
use rm_model::State;
use rm_path::{Path, Protocol, ProtocolIdentifier, Protocols};
use rm_proto::Facts;
use rm_status::Controls;

impl Directory {
    ghost use Rattle.rm_model.specs.Journal.{Journal};
    ghost use Rattle.rm_dir.specs.Active.{active_protocol};
    ghost use Rattle.rm_dir.specs.Paths.{AreActiveAfter, path_after};
    ghost use Rattle.rm_dir.specs.Group.{Stands};

    /// What is known of a protocol whose row is active. None where the row isn't active, or there is none.
    pub fn protocol(&self, identifier: ProtocolIdentifier) -> Option<Protocol>
        ensures { (journal : Journal) → Stands self.now journal → result ≡ active_protocol journal identifier }
    {
        held_protocol(self.rows(), identifier)
    }

    /// The protocols that are active, each in a slot, in which it stays as long as it is active.
    pub fn protocols(&self) -> &Protocols
        ensures value { result.now ≡ self.now.protocols }
        ensures active { (journal : Journal) → Stands self.now journal → AreActiveAfter journal result.now }
    {
        &self.protocols
    }

    /// The path of a frame with these facts, by the protocols that are active: the slots of its protocols, from ether2 upwards. It costs
    /// some comparisons for each layer, and no memory.
    pub fn path(&self, facts: &Facts) -> Path
        ensures protocols { (journal : Journal) → Stands self.now journal
            → map (identifier_in self.now.protocols) result.items ≡ map Some (path_after journal facts.now) }
        ensures slots { All (λ slot. slot < 32) result.items }
    {
        self.protocols.path(facts)
    }
}

/// What is known of a protocol, where its row is active.
pub(crate) fn held_protocol(
    rows: &Controls<DirectoryRow>,
    identifier: ProtocolIdentifier,
) -> Option<Protocol>
    ensures { result ≡ held_protocol rows.now identifier }
{
    if !may_have_row(identifier) {
        return None;
    }
    match rows.row(identifier.number()) {
        Some(row) => protocol_kept(identifier, row.state, &row.columns),
        None => None,
    }
}

// What is known of a protocol by its row.
fn protocol_kept(
    identifier: ProtocolIdentifier,
    state: State,
    columns: &DirectoryRow,
) -> Option<Protocol>
    ensures { result ≡ protocol_kept identifier state columns.now }
{
    match state {
        State::Valid => Some(Protocol {
            identifier,
            local: columns.local,
            host: is_on(columns.host),
            matrix: is_on(columns.matrix),
        }),
        _ => None,
    }
}

// Whether tables count a protocol.
fn is_on(support: Support) -> bool
    ensures { result ≡ nat_eq (support_number support) 3 }
{
    match support {
        Support::SupportedOn => true,
        _ => false,
    }
}
