// What is done with marks.
ghost use Rattle.std.specs.Prelude.{◌≡◌, ◌+◌, ◌≤◌, [], ◌∷◌, ◌++◌, length, take, drop, if◌then◌else◌, nat_lt};
ghost use Rattle.std.specs.Option.{option_to_list};
ghost use Rattle.flow.specs.Limits.{most_marks};
ghost use Rattle.frame.specs.Marking.{marks_of, flows};
ghost use Rattle.frame.specs.Marked.{listed, older, newer};

use crate::marks::{Mark, Marks};
use arrayvec::ArrayVec;
use flow::code::Code;
use flow::limits::MOST_MARKS;

impl Marks {
    // No marks.
    pub fn new() -> Marks
        ensures older { older result ≡ [] }
        ensures newer { newer result ≡ [] }
    {
        Marks {
            marks: ArrayVec::new(),
            previous: 0,
        }
    }

    // How many marks there are.
    pub fn len(&self) -> usize
        ensures count { result ≡ length (listed self.now) }
        ensures few { result ≤ most_marks }
    {
        self.marks.len()
    }

    // How many marks a flow has.
    pub fn count_of(&self, code: Code) -> usize
        ensures count { result ≡ marks_of code (listed self.now) }
        ensures few { result ≤ most_marks }
    {
        self.marks.iter().filter(|mark| mark.code == code).count()
    }

    // The oldest mark of the previous frame.
    pub fn oldest(&self) -> Option<Mark>
        ensures { option_to_list result ≡ take 1 (older self.now) }
    {
        self.marks[..self.previous].first().copied()
    }

    // The flows that have a mark, each once, in the order of their oldest marks.
    pub fn flows(&self) -> ArrayVec<Code, MOST_MARKS>
        ensures { result.items ≡ flows (listed self.now) }
    {
        let mut flows = ArrayVec::new();
        for mark in self.marks.iter() {
            if !flows.contains(&mark.code) {
                flows.push(mark.code);
            }
        }
        flows
    }

    // The flow of the mark at this place, if no mark before it is of that flow.
    pub fn flow_at(&self, place: usize) -> Option<Code>
        ensures { flows (take (place + 1) (listed self.now)) ≡ flows (take place (listed self.now)) ++ option_to_list result }
    {
        let code = self.marks.get(place)?.code;
        let is_first = !self.marks[..place]
            .iter()
            .rev()
            .any(|mark| mark.code == code);
        is_first.then_some(code)
    }

    // Puts a mark last; where there is no room, all stays.
    pub fn put(&mut self, mark: Mark)
        ensures older { older self.new ≡ older self.old }
        ensures newer { newer self.new ≡ (if nat_lt (length (listed self.old)) most_marks then newer self.old ++ mark ∷ [] else newer self.old) }
    {
        let _ = self.marks.try_push(mark);
    }

    // Drops the oldest mark of the previous frame.
    pub fn drop_oldest(&mut self)
        ensures older { older self.new ≡ drop 1 (older self.old) }
        ensures newer { newer self.new ≡ newer self.old }
    {
        if self.previous > 0 {
            self.marks.remove(0);
            self.previous -= 1;
        }
    }

    // The present frame has ended: its marks are those of the previous one.
    pub fn turn(&mut self)
        ensures older { older self.new ≡ older self.old ++ newer self.old }
        ensures newer { newer self.new ≡ [] }
    {
        self.previous = self.marks.len();
    }

    // Drops every mark.
    pub fn clear(&mut self)
        ensures older { older self.new ≡ [] }
        ensures newer { newer self.new ≡ [] }
    {
        self.marks.clear();
        self.previous = 0;
    }
}
