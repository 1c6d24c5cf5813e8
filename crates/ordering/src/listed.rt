// A list that grows in room that the caller lends.
ghost use Rattle.std.specs.Prelude.{◌≤◌, length};

// What is listed: the first `count` of `items`.
#[derive(Drop)]
pub struct Listed<'a, T> {
    pub items: &'a mut [T],
    pub count: usize,
    pub ghost within: { count ≤ length items.now },
}

impl<'a, T: Copy> Listed<'a, T> {
    ghost use Rattle.std.specs.Prelude.{◌≡◌, take};
    ghost use Rattle.ordering.specs.Listed.{AddsOne};

    // An empty list, in the room lent.
    pub fn new(items: &'a mut [T]) -> Listed<'a, T>
        ensures same { result.items.ghost_name ≡ items.entry.ghost_name }
        ensures items { result.items.now ≡ items.old }
        ensures count { result.count ≡ 0 }
    {
        Listed { items, count: 0 }
    }

    // Lists one more, if there is room.
    pub fn push(&mut self, item: T)
        ensures { AddsOne self.old self.new item }
    {
        if self.count < self.items.len() {
            self.items[self.count] = item;
            self.count += 1;
        }
    }

    // All that is listed.
    pub fn listed(&self) -> &[T]
        ensures { result.now ≡ take self.now.count self.now.items.now }
    {
        &self.items[..self.count]
    }
}
