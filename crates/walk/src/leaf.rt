// Leaves, read through a device.
ghost use Rattle.std.specs.Prelude.{◌≡◌, true, false, MatchOption};
ghost use Rattle.layout.specs.Format.{parse as parsed};
ghost use Rattle.layout.specs.Sizes.{sizes};
ghost use Rattle.rule.specs.Agree.{names};
ghost use Rattle.walk.specs.Still.{Says, shows};
ghost use Rattle.walk.specs.Copies.{copied, Holds, LeafIs};

use crate::leaf_copy::LeafCopy;
use crate::node::Node;
use base::number::{BlockNo, LeafNo};
use base::owner::{Back, Kind};
use device::Device;
use device::fault::Fault;
use layout::block::{Block, parse};
use layout::geometry::Geometry;
use layout::owner::names;

// A copy of the body in this block, if it is of the kind and names this owner.
fn leaf_in(
    g: &Geometry,
    at: BlockNo,
    kind: Kind,
    line: &Back,
    block: &[u8; 512],
) -> Option<LeafCopy>
    ensures { MatchOption result (names kind line.now (parsed (sizes g.now) at.0 block.now) ≡ false) (λ l. (names kind line.now (parsed (sizes g.now) at.0 block.now) ≡ true) × Holds l (parsed (sizes g.now) at.0 block.now)) }
{
    match (parse(g, at, block), kind) {
        (Block::FileBody(body), Kind::File) if names(&body, line) => {
            Some(LeafCopy::new(body.payload))
        }
        (Block::FolderBody(body), Kind::Folder) if names(&body, line) => {
            Some(LeafCopy::new(body.payload))
        }
        _ => None,
    }
}

// A leaf of a file or folder, if the leaf is good. One read, or none where the number is no body's.
pub fn read_leaf<D: Device>(
    device: &mut D,
    g: &Geometry,
    owner: &Node,
    leaf: LeafNo,
) -> Result<Option<LeafCopy>, Fault>
    ensures { Says g.now result (LeafIs (shows g.now (D.Device.model device.old)) owner.now.handle (copied owner.now.slot) leaf.0) (D.Device.model device.old) (D.Device.model device.new) }
{
    let at = owner.slot.number(leaf);
    if !g.is_body(at) {
        return Ok(None);
    }
    let block = device.read(at)?;
    let line = Back {
        owner: owner.handle,
        leaf,
    };
    Ok(leaf_in(g, at, owner.slot.kind, &line, &block))
}
