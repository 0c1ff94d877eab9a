// The cell of an entry.
ghost use Rattle.std.specs.Prelude.{◌≡◌, true, false, MatchOption};
ghost use Rattle.layout.specs.Format.{good_name, cell};
ghost use Rattle.layout.specs.Laws.{ReadAsEntry};

use crate::bytes::{entry_head, fill};
use base::owner::Handle;
use entries::entry::name_fits;

// None where the name is not one. A blank cell is 32 zeros.
pub fn encode_entry(name: &[u8], child: &Handle) -> Option<[u8; 32]>
    ensures { MatchOption result (good_name name.now ≡ false) (λ c. (good_name name.now ≡ true) × (c ≡ cell name.now child.now) × ReadAsEntry name.now child.now c) }
{
    if !name_fits(name) {
        return None;
    }
    Some(fill(&entry_head(name.len() as u8, child), name))
}
