//! The boxes that were met.
ghost use Rattle.std.specs.Prelude.{◌<◌, length};
ghost use Rattle.octree_search.specs.Arena.{IsOpened};

use node_boxes::NodeBox;

/// A box that was met.
#[derive(Clone, Copy, Debug)]
pub struct Met {
    /// The box.
    pub area: NodeBox,
    /// Its bound.
    pub bound: u64,
    /// The place of the first of its children, which stand one after another, where it was opened.
    pub first_child: Option<u32>,
}

/// Notes that the box at a place was opened, and where its children begin.
pub fn open_at(met: &mut [Met], place: u32, first_child: u32)
    requires { place < length met.old }
    ensures { IsOpened met.old place first_child met.new }
{
    met[place as usize].first_child = Some(first_child);
}
