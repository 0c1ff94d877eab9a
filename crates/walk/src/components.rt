// The names of a path, which '/' parts.
ghost use Rattle.std.specs.Prelude.{◌≡◌, ◌+◌, ◌≤◌, length};
ghost use Rattle.walk.specs.Paths.{name_end};

// The names that are left of a path.
#[derive(Drop)]
pub(crate) struct Components<'a> {
    // What follows the last '/'; none past the end.
    rest: Option<&'a [u8]>,
}

// Where the first name ends: at the first '/', or at the end.
fn find_end(path: &[u8]) -> usize
    ensures end { result ≡ name_end path.now }
    ensures within { result ≤ length path.now }
{
    for (end, byte) in path.iter().enumerate() {
        if *byte == b'/' {
            return end;
        }
    }
    path.len()
}

impl<'a> Components<'a> {
    ghost use Rattle.rule.specs.Reading.{components};
    ghost use Rattle.walk.specs.Paths.{names_left};

    // The empty path has none.
    #[tactic(auto, using(crate::proofs::Paths::length_parted))]
    pub(crate) fn new(path: &'a [u8]) -> Components<'a>
        ensures names { names_left result ≡ components path.now }
        ensures few { length (names_left result) ≤ length path.now + 1 }
    {
        let rest = if path.is_empty() { None } else { Some(path) };
        Components { rest }
    }
}

impl<'a> Iterator for Components<'a> {
    ghost use Rattle.std.specs.Iterator.{YieldsFirstRef, item_count};
    ghost use Rattle.walk.specs.Paths.{names_left};

    type Item = &'a [u8];

    ghost next_gives = { YieldsFirstRef names_left };

    ghost remaining = { item_count names_left };

    #[tactic(auto, using(crate::proofs::Paths::names_next))]
    fn next(&mut self) -> Option<&'a [u8]> {
        let rest = self.rest?;
        let end = find_end(rest);
        self.rest = rest.get(end + 1..);
        Some(&rest[..end])
    }
}
