// The window meter.
use frame::layout::Layout;
use frame::marks::Marks;

pub mod calls;
pub mod lists;
mod steps;

// A meter: the counter that it took over and, once a plan was accepted, its window.
#[derive(Drop)]
pub struct Meter<C> {
    counter: C,
    window: Option<Window>,
}

// The window under an accepted plan: the offset of the next packet in its frame, and the marks.
#[derive(Drop)]
struct Window {
    layout: Layout,
    offset: u32,
    marks: Marks,
}
