// A list over the caller's lines, filled by place from the front.
ghost use Rattle.std.specs.Prelude.{◌≡◌, ◌+◌, ◌-◌, ◌^◌, ◌<◌, ◌≤◌, min, List, [], ◌∷◌, ◌++◌, length, replicate, slice_set};
ghost use Rattle.listing.specs.Lines.{counted, Sofar};

// Puts a line at place `count` if the caller has one there, and answers the count with it.
pub fn put_line<L: Copy>(lines: &mut [L], count: usize, line: L) -> usize
    ensures count { result ≡ counted count }
    ensures put { lines.new ≡ slice_set lines.old count line }
    ensures listed { (before items : List L) → length items < 2 ^ 64 - 1 → Sofar before items count lines.old → Sofar before (items ++ line ∷ []) result lines.new }
{
    if count < lines.len() {
        lines[count] = line;
    }
    count.saturating_add(1)
}

// Makes every line the same.
pub fn fill_lines<L: Copy>(lines: &mut [L], line: L)
    ensures { lines.new ≡ replicate (length lines.old) line }
{
    for place in lines.iter_mut() {
        *place = line;
    }
}

// The list itself: the caller's lines, and how many were added.
#[derive(Drop)]
pub struct Lines<'a, L> {
    lines: &'a mut [L],
    count: usize,
}

impl<'a, L: Copy> Lines<'a, L> {
    pub fn over(lines: &'a mut [L]) -> Lines<'a, L>
        ensures count { result.count ≡ 0 }
        ensures lines { result.lines.now ≡ lines.old }
        ensures listed { Sofar lines.old [] result.count result.lines.now }
        ensures same { result.lines.ghost_name ≡ lines.entry.ghost_name }
    {
        Lines { lines, count: 0 }
    }

    // The whole number, with those that found no place.
    pub fn count(&self) -> usize
        ensures { result ≡ self.now.count }
    {
        self.count
    }

    // The next line.
    pub fn add(&mut self, line: L)
        ensures count { self.new.count ≡ counted self.old.count }
        ensures put { self.new.lines.now ≡ slice_set self.old.lines.now self.old.count line }
        ensures listed { (before items : List L) → length items < 2 ^ 64 - 1 → Sofar before items self.old.count self.old.lines.now → Sofar before (items ++ line ∷ []) self.new.count self.new.lines.now }
        ensures same { self.new.lines.ghost_name ≡ self.old.lines.ghost_name }
    {
        self.count = put_line(self.lines, self.count, line);
    }
}
