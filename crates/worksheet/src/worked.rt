// What a counter does for a sheet of its workings.
use flow::code::Code;
use flow::counter::FrameCounter;
use std::alloc::AllocError;
use std::io;
use workings::line::Packet;

// A counter whose adds can be shown step by step.
pub trait Worked: FrameCounter + Drop {
    // The kind, for the title.
    const TITLE: &'static str;

    // What the working of an add needs of the counter before it. Each kind has its own, as it has ways of its own for a code: their rules have nothing in common.
    type Before: Drop;

    // Notes what the working of an add of the code will need.
    fn before(&self, rt: &HostRuntime, code: Code) -> Result<Self::Before, AllocError>;

    // Prints the working of an add that was taken.
    fn show_add(&self, rt: &HostRuntime, before: &Self::Before, packet: Packet) -> io::Result<()>;

    // Prints the whole counter. A row of its table is printed nowhere else.
    fn show_all(&self, rt: &HostRuntime) -> io::Result<()>;
}
