// What a list of a card is asked for.
ghost use Rattle.std.specs.Prelude.{◌≡◌, ◌==◌, false, List, Ok, Err};
ghost use Rattle.base.specs.Refusals.{number_of};
ghost use Rattle.base.specs.declared.refusal.Refusal.{Refusal};
ghost use Rattle.layout.specs.Format as format;
ghost use Rattle.layout.specs.Sizes.{sizes};
ghost use Rattle.rule.specs.Agree.{Shown};
ghost use Rattle.rule.specs.Card.{Ready};
ghost use Rattle.rule.specs.Check.{Answer};
ghost use Rattle.rule.specs.Reading as reading;
ghost use Rattle.tours.specs.Lists.{entry_row};
ghost use Rattle.tours.specs.Damage.{damage_row};
ghost use Rattle.card_lists.specs.Lined.{Fills};
ghost use Rattle.tours.proofs.Spared.{list_spared, list_unready, damage_spared, damage_unready};

use crate::line::Line;
use base::owner::{Handle, Kind};
use base::refusal::Refusal;
use device::Device;
use layout::geometry::Geometry;
use listing::line::{DamageLine, EntryLine};
use tours::damage::damage_lines;
use tours::list::list_entries;
use tours::marks::mark_reached;
use walk::handle::read_kind;
use walk::node::Node;

// A list of the rule, and how its items stand in lines.
pub trait Asked {
    type Line: Line;

    ghost Item: { Type 0 };

    ghost line_of: { Item → Self.Line };

    ghost rule: { Self → Ready → Shown → Answer (List Item) };

    // Fills the lines with the items and answers their whole number.
    fn fill<D: Device>(
        &self,
        device: &mut D,
        g: &Geometry,
        lines: &mut [Self::Line],
    ) -> Result<usize, Refusal>
        ensures { Fills line_of g.now (rule self.now (Ok (sizes g.now)) (D.Device.model device.old).shown) result (D.Device.model device.old) (D.Device.model device.new) lines.old lines.new };

    // The rule never refuses with power gone, and hands a refusal on.
    ghost spared: { (a : Self) (z : format.Geometry) (shown : Shown) (e : Refusal) → rule a (Ok z) shown ≡ Err e → (number_of e == 1) ≡ false };

    ghost handed_on: { (a : Self) (e : Refusal) (shown : Shown) → rule a (Err e) shown ≡ Err e };
}

// The sound entries of a folder.
#[derive(Clone, Copy)]
pub struct Entries {
    pub folder: Handle,
}

impl Asked for Entries {
    type Line = EntryLine;

    ghost Item = { reading.EntryLine };

    ghost line_of = { entry_row };

    ghost rule = { λ a. reading.list a.folder };

    fn fill<D: Device>(
        &self,
        device: &mut D,
        g: &Geometry,
        lines: &mut [EntryLine],
    ) -> Result<usize, Refusal> {
        let slot = read_kind(device, g, Kind::Folder, &self.folder)?;
        let folder = Node {
            handle: self.folder,
            slot,
        };
        Ok(list_entries(device, g, &folder, lines)?)
    }

    ghost spared = { λ a z shown. list_spared z shown a.folder };

    ghost handed_on = { λ a. list_unready a.folder };
}

// The leaves of reached slots that are not good.
#[derive(Clone, Copy)]
pub struct Damage;

impl Asked for Damage {
    type Line = DamageLine;

    ghost Item = { reading.DamageLine };

    ghost line_of = { damage_row };

    ghost rule = { λ _. reading.damage };

    fn fill<D: Device>(
        &self,
        device: &mut D,
        g: &Geometry,
        lines: &mut [DamageLine],
    ) -> Result<usize, Refusal> {
        let marks = mark_reached(device, g)?;
        Ok(damage_lines(device, g, &marks, lines)?)
    }

    ghost spared = { λ _. damage_spared };

    ghost handed_on = { λ _. damage_unready };
}
