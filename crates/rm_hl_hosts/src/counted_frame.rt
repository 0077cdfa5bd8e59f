// A frame comes to the hosts of a row of hlHostControl.
use crate::part::HostPart;
use rm_layer_hosts::{Named, pass, received, sent};
use rm_layer_tables::CountedFrame;
use rm_pool::Change;

impl Change<HostPart> for CountedFrame<'_> {
    ghost use Rattle.rm_layer_tables.specs.Parts.{Takes};
    ghost use Rattle.rm_layer_tables.specs.Ready.{IsReady};
    ghost use Rattle.rm_hl_hosts.specs.Collection.{hosts_of, host_parts};

    ghost allows = { λ s row part. IsReady s.stamp s.moment (hosts_of part) };

    ghost makes = { λ s row part new. Takes host_parts s.path.now s.facts.now s.stamp s.moment part new };

    // A frame that counts names its source, and then its destination.
    fn change(&self, _row: u32, part: &mut HostPart) {
        if let Some(pair) = self.ends_for(part.source) {
            let source = pair.source;
            let sender = Named {
                key: source,
                gain: sent(self.facts),
            };
            let dest = pair.dest;
            let receiver = Named {
                key: dest,
                gain: received(self.facts),
            };
            pass(
                &mut part.hosts.table,
                &sender,
                &receiver,
                self.path,
                self.stamp,
                self.moment / 10,
            );
        }
    }
}
