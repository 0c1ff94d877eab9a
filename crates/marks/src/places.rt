// Marks by place: what is marked, and what is free.
ghost use Rattle.std.specs.Prelude.{◌≡◌, ◌-◌, ◌≤◌, length, None, slice_index_or, slice_set};
ghost use Rattle.rule.specs.Agree.{first, those, from, round, within};
ghost use Rattle.marks.specs.Marks.{unmarked};

// The mark at a place; past the end there is none.
pub(crate) fn mark_at<T: Copy>(marks: &[Option<T>], at: u16) -> Option<T>
    ensures { result ≡ slice_index_or marks.now at None }
{
    *marks.get(at as usize)?
}

// Sets the mark at a place, or takes it back; past the end nothing changes.
pub(crate) fn set_mark<T: Copy>(marks: &mut [Option<T>], at: u16, mark: Option<T>)
    ensures { marks.new ≡ slice_set marks.old at mark }
{
    // Kept: with `get_mut` it does not close, since std says nothing of what the slice ends as.
    let i = at as usize;
    if i < marks.len() {
        marks[i] = mark;
    }
}

fn is_free<T: Copy>(marks: &[Option<T>], at: u16) -> bool
    ensures { result ≡ unmarked marks.now at }
{
    mark_at(marks, at).is_none()
}

// The first free place from low up to high.
// Kept: the loop goes over places, not over elements, since a place past the slice is free too.
fn first_free<T: Copy>(marks: &[Option<T>], low: u16, high: u16) -> Option<u16>
    ensures { result ≡ first (unmarked marks.now) (from low (high - low)) }
{
    for at in low..high {
        if is_free(marks, at) {
            return Some(at);
        }
    }
    None
}

fn cursor_within(low: u16, high: u16, at: u16) -> u16
    ensures { result ≡ within low high at }
{
    low.max(at.min(high))
}

// The first free place at or after the cursor, going round.
pub(crate) fn next_free<T: Copy>(marks: &[Option<T>], low: u16, high: u16, at: u16) -> Option<u16>
    ensures { result ≡ first (unmarked marks.now) (round low high at) }
{
    let start = cursor_within(low, high, at);
    let after = first_free(marks, start, high);
    if after.is_some() {
        return after;
    }
    first_free(marks, low, start)
}

// How many places from low up to high are free.
pub(crate) fn count_free<T: Copy>(marks: &[Option<T>], low: u16, high: u16) -> u16
    requires { (low ≤ high) × (high ≤ length marks.now) }
    ensures { result ≡ length (those (unmarked marks.now) (from low (high - low))) }
{
    let mut count = 0;
    for mark in &marks[low as usize..high as usize] {
        if mark.is_none() {
            count += 1;
        }
    }
    count
}
