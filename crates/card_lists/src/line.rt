// Lines that may be made all zero.
ghost use Rattle.std.specs.Prelude.{◌≡◌};
ghost use Rattle.card_lists.specs.Lined.{zero_entry, zero_damage};

use listing::line::{DamageLine, EntryLine, NO_DAMAGE, NO_ENTRY};

// A line that is all zero, for lines that power gone leaves.
pub trait Line: Copy {
    ghost zero: { Self };

    fn zero() -> Self
        ensures { result ≡ zero };
}

impl Line for EntryLine {
    ghost zero = { zero_entry };

    fn zero() -> EntryLine {
        NO_ENTRY
    }
}

impl Line for DamageLine {
    ghost zero = { zero_damage };

    fn zero() -> DamageLine {
        NO_DAMAGE
    }
}
