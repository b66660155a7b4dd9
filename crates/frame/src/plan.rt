// What an operator asks of a meter.

// A plan: the places and the step of the counter, the greatest weight of a packet, the packets of the window, and the blocks of a frame.
#[derive(Debug, Clone, Copy, PartialEq, Eq, Hash)]
pub struct Plan {
    pub places: usize,
    pub step: u32,
    pub most: u32,
    pub window: u32,
    pub blocks: u32,
}
