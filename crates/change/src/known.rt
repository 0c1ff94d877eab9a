// What is known of a card in memory when a call comes.
// Kept: that the marks agree with the blocks (`Grounded`) stays a premise of the plans: it speaks of a device, and none is held here.
use crate::plan::Memory;
use layout::geometry::Geometry;
use marks::mark::Marks;

#[derive(Clone, Copy)]
pub struct Known<'a> {
    pub geometry: Geometry,
    pub memory: Memory,
    pub marks: &'a Marks,
}
