//! Numbers whose count stays as it is.
ghost use Rattle.std.specs.Prelude.{◌≡◌, ◌-◌, ◌<◌, length, replicate, set, slice_index};

/// Numbers of four bytes that a source of memory grants. Their number stays as it is, and the heap that
/// they are from is out of reach: what has them can take no memory through them.
#[derive(Drop)]
pub struct GrantedNumbers {
    list: Vec<u32>,
}

impl GrantedNumbers {
    /// The numbers of this list.
    pub fn new(list: Vec<u32>) -> GrantedNumbers
        ensures list { result.list ≡ list }
    {
        GrantedNumbers { list }
    }

    /// The number at a place, 0 where there is none.
    pub(crate) fn at(&self, place: u32) -> u32
        ensures value { result ≡ slice_index self.now.list.items place }
    {
        match self.list.get(place as usize) {
            Some(number) => *number,
            None => 0,
        }
    }

    /// Puts this number in the place of each.
    pub(crate) fn fill(&mut self, number: u32)
        ensures items { self.new.list.items ≡ replicate (length self.old.list.items) number }
    {
        self.list.fill(number);
    }

    /// Takes one from the number at a place.
    pub(crate) fn take_one(&mut self, place: u32)
        requires some { 0 < slice_index self.old.list.items place }
        ensures items { self.new.list.items
            ≡ set self.old.list.items place (slice_index self.old.list.items place - 1) }
    {
        self.list[place as usize] -= 1;
    }
}
