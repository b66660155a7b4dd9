// The made stream of packets.
ghost use Rattle.std.specs.Prelude.{◌≡◌, ◌-◌, ◌^◌, ◌<◌};
ghost use Rattle.streams.specs.Streams.{among, flow_from, weight_from, packet_at, weight_of, volume_between, volume_in_window};

use crate::generator::Generator;

// How many numbers are drawn for a packet.
const DRAWS: u64 = 3;

// A packet: its flow, the number of an account, and its weight.
#[derive(Clone, Copy)]
pub struct Packet {
    pub flow: u64,
    pub weight: u32,
}

impl Packet {
    // The weight of the packet where it is of this flow, and else 0.
    fn weight_of(&self, flow: u64) -> u64
        ensures weight { result ≡ weight_of flow self.now }
        ensures size { result < 2 ^ 32 }
    {
        if self.flow == flow {
            u64::from(self.weight)
        } else {
            0
        }
    }
}

// How many of the flows, the first ones, a flow is drawn among.
fn among(flows: u64, draw: u64) -> u64
    ensures { result ≡ among flows draw }
{
    let digits = u64::from(u64::BITS - flows.leading_zeros());
    (flows >> (draw % digits.max(1))).max(1)
}

// The flow of a packet.
fn flow_from(flows: u64, first: u64, second: u64) -> u64
    ensures { result ≡ flow_from flows first second }
{
    second % among(flows, first)
}

// The weight of a packet.
fn weight_from(most: u32, draw: u64) -> u32
    ensures { result ≡ weight_from most draw }
{
    // A remainder by a number of 32 bits fits them, and no `From` says so.
    1 + (draw % u64::from(most.max(1))) as u32
}

// A stream: the seed of its numbers, how many flows it has, and the greatest weight.
#[derive(Clone, Copy)]
pub struct Stream {
    pub seed: u64,
    pub flows: u64,
    pub most: u32,
}

impl Stream {
    // The packet at this index.
    pub fn packet(&self, index: u64) -> Packet
        ensures { result ≡ packet_at self.now index }
    {
        let mut generator = Generator::after(self.seed, index.wrapping_mul(DRAWS));
        let first = generator.draw();
        let second = generator.draw();
        let third = generator.draw();
        Packet {
            flow: flow_from(self.flows, first, second),
            weight: weight_from(self.most, third),
        }
    }

    // The volume of a flow in the packets from one index up to another.
    fn volume(&self, flow: u64, from: u64, to: u64) -> u64
        requires { to - from < 2 ^ 32 }
        ensures { result ≡ volume_between self.now flow from (to - from) }
    {
        let mut volume = 0;
        for index in from..to {
            volume += self.packet(index).weight_of(flow);
        }
        volume
    }

    // The volume of a flow in a window of so many packets, the last ones before an index.
    pub fn volume_in_window(&self, flow: u64, to: u64, window: u32) -> u64
        ensures { result ≡ volume_in_window self.now flow to window }
    {
        self.volume(flow, to.saturating_sub(u64::from(window)), to)
    }
}
