// The true volume of each flow.
ghost use Rattle.std.specs.Prelude.{◌≡◌, [], OnOk, OnErr};
ghost use Rattle.workings.specs.Volumes.{tallied};

use crate::line::Packet;
use flow::code::Code;
use indexmap::IndexMap;
use std::alloc::{AllocError, Global};

// The sum of the weights of each flow, in the order in which the flows came.
#[derive(Drop)]
pub struct Totals {
    pub flows: IndexMap<Code, u64>,
}

impl Totals {
    // No flows.
    pub fn new(heap: Global) -> Totals
        ensures { result.flows.entries ≡ [] }
    {
        Totals {
            flows: IndexMap::new(heap),
        }
    }

    // Counts a packet of a flow. An insert promises the entries in their order, where an entry's write promises the values alone.
    pub fn add(&mut self, packet: Packet) -> Result<(), AllocError>
        ensures counted { OnOk result (self.new.flows.entries ≡ tallied packet.code packet.weight self.old.flows.entries) }
        ensures kept { OnErr result (self.new.flows.entries ≡ self.old.flows.entries) }
    {
        let Packet { code, weight } = packet;
        let volume = self.flows.get(&code).copied().unwrap_or(0);
        self.flows
            .insert(code, volume.saturating_add(u64::from(weight)))?;
        Ok(())
    }
}
