// Paths: names parted by '/', walked from the root.
ghost use Rattle.std.specs.Prelude.{◌≡◌, Ok, Err, MatchResult};
ghost use Rattle.layout.specs.Sizes.{sizes};
ghost use Rattle.rule.specs.Reading.{named, components, at_component, all_named, walk, fits};
ghost use Rattle.rule.specs.Agree.{root};
ghost use Rattle.walk.specs.Still.{PathGives, shows};
ghost use Rattle.walk.specs.Copies.{copied};
ghost use Rattle.walk.specs.Stepping.{entered, Enters};

use crate::components::Components;
use crate::entry::Found;
use crate::handle::{enter, read_handle};
use crate::node::Node;
use crate::slot::SlotCopy;
use base::number::{Identity, SlotNo};
use base::owner::Handle;
use base::refusal::{PathRefusal, Refusal};
use device::Device;
use entries::entry::name_fits;
use layout::geometry::Geometry;

// The root: slot 0, of identity 1.
pub const ROOT: Handle = Handle {
    slot: SlotNo(0),
    identity: Identity(1),
};

// Refused unless a file or folder may have this name.
#[tactic(auto, unfolding(rule::specs::Reading::named, rule::specs::Check::check))]
pub fn check_name(name: &[u8]) -> Result<(), Refusal>
    ensures { MatchResult result (λ _. named name.now ≡ Ok tt) (λ e. named name.now ≡ Err e) }
{
    if name_fits(name) {
        Ok(())
    } else {
        Err(Refusal::BadName(name.len()))
    }
}

// A refusal met at a component, kept whole.
#[tactic(auto, unfolding(rule::specs::Reading::at_component))]
pub fn at_component<A>(component: usize, answer: Result<A, Refusal>) -> Result<A, PathRefusal>
    ensures { result ≡ at_component component answer }
{
    // Kept: map_err would need a closure, and the card library has none.
    match answer {
        Ok(a) => Ok(a),
        Err(lower) => Err(PathRefusal { lower, component }),
    }
}

#[tactic(auto, unfolding(rule::specs::Reading::at_component))]
fn check_component(name: &[u8], component: usize) -> Result<(), PathRefusal>
    ensures { MatchResult result (λ _. named name.now ≡ Ok tt) (λ e. at_component component (named name.now) ≡ Err e) }
{
    at_component(component, check_name(name))
}

// Refused at the first component that is no name. The empty path has no component.
#[tactic(auto, using(crate::proofs::Paths::all_named_ok, crate::proofs::Paths::all_named_err, crate::proofs::Paths::all_named_none, crate::proofs::Paths::checked_exit))]
pub fn check_path(path: &[u8]) -> Result<(), PathRefusal>
    ensures { MatchResult result (λ _. all_named 0 (components path.now) ≡ Ok tt) (λ e. all_named 0 (components path.now) ≡ Err e) }
{
    for (component, name) in Components::new(path).enumerate() {
        check_component(name, component)?;
    }
    Ok(())
}

#[tactic(auto, using(crate::proofs::Paths::path_gives))]
fn enter_at<D: Device>(
    device: &mut D,
    g: &Geometry,
    folder: &Node,
    name: &[u8],
    component: usize,
) -> Result<Found, PathRefusal>
    ensures { PathGives g.now result (at_component component (entered (sizes g.now) (shows g.now (D.Device.model device.old)) folder.now.handle name.now (copied folder.now.slot))) (Enters (sizes g.now) (shows g.now (D.Device.model device.old)) (entered (sizes g.now) (shows g.now (D.Device.model device.old)) folder.now.handle name.now (copied folder.now.slot))) (D.Device.model device.old) (D.Device.model device.new) }
{
    at_component(component, enter(device, g, folder, name))
}

#[tactic(auto, using(crate::proofs::Paths::path_gives))]
fn read_root<D: Device>(device: &mut D, g: &Geometry) -> Result<SlotCopy, PathRefusal>
    ensures { PathGives g.now result (at_component 0 (fits (sizes g.now) (shows g.now (D.Device.model device.old)) root)) (λ s. fits (sizes g.now) (shows g.now (D.Device.model device.old)) root ≡ Ok (copied s)) (D.Device.model device.old) (D.Device.model device.new) }
{
    at_component(0, read_handle(device, g, &ROOT))
}

// Component by component from the root, whose slot is given.
fn walk_from<D: Device>(
    device: &mut D,
    g: &Geometry,
    top: SlotCopy,
    path: &[u8],
) -> Result<Handle, PathRefusal>
    requires { fits (sizes g.now) (shows g.now (D.Device.model device.old)) root ≡ Ok (copied top) }
    ensures { PathGives g.now result (walk (sizes g.now) (shows g.now (D.Device.model device.old)) 0 root (components path.now)) (λ h. walk (sizes g.now) (shows g.now (D.Device.model device.old)) 0 root (components path.now) ≡ Ok h) (D.Device.model device.old) (D.Device.model device.new) }
{
    let mut at = Node {
        handle: ROOT,
        slot: top,
    };
    for (component, name) in Components::new(path).enumerate() {
        let found = enter_at(device, g, &at, name, component)?;
        at = found.child;
    }
    Ok(at.handle)
}

// From the root down. The root's slot is read once; the slot of each next folder is the one that was read to see
// whether its entry is sound. The empty path is the root, and needs no read.
#[tactic(auto, using(crate::proofs::Paths::names_empty, crate::proofs::Paths::walk_none, crate::proofs::Paths::walk_root, crate::proofs::Paths::path_refused, crate::proofs::Paths::path_exit, crate::proofs::Stills::still))]
pub fn walk_path<D: Device>(
    device: &mut D,
    g: &Geometry,
    path: &[u8],
) -> Result<Handle, PathRefusal>
    ensures { PathGives g.now result (walk (sizes g.now) (shows g.now (D.Device.model device.old)) 0 root (components path.now)) (λ h. walk (sizes g.now) (shows g.now (D.Device.model device.old)) 0 root (components path.now) ≡ Ok h) (D.Device.model device.old) (D.Device.model device.new) }
{
    if path.is_empty() {
        return Ok(ROOT);
    }
    let top = read_root(device, g)?;
    walk_from(device, g, top, path)
}
