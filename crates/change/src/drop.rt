// The marks of leaves that are gone.
ghost use Rattle.std.specs.Prelude.{◌≡◌, ◌-◌};
ghost use Rattle.marks.specs.Marks.{without};
ghost use Rattle.rule.specs.Agree.{count, from};
ghost use Rattle.walk.specs.Copies.{copied};

use base::number::LeafNo;
use base::owner::Back;
use marks::mark::Marks;
use walk::node::Node;

// The bodies of the leaves from n on are free again, if they were marked as those leaves.
pub fn drop_leaves(marks: &mut Marks, node: &Node, n: LeafNo)
    ensures { marks.new ≡ without marks.old node.now.handle (copied node.now.slot) (from n.0 (count (copied node.now.slot) - n.0)) }
{
    for k in n.0..node.slot.count {
        let leaf = LeafNo(k);
        let back = Back {
            owner: node.handle,
            leaf,
        };
        marks.release(node.slot.number(leaf), &back);
    }
}
