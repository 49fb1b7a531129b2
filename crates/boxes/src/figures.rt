// The figures of a set of points, and why there are none.

#[derive(Clone, Copy, Debug, PartialEq, Eq)]
pub struct Figures {
    pub leaf_boxes: usize,
    pub directory_boxes: usize,
    // eight for the root, one for each directory box and one for each leaf box
    pub pages: usize,
    // inner boundaries and cells of the root, over the directory boxes
    pub root_boundaries: usize,
    pub root_cells: usize,
    pub root_fits: bool,
}

#[derive(Clone, Copy, Debug, PartialEq, Eq)]
pub enum NotMeasured {
    // some of the points are none of the space
    NotPoints,
    // the room has fewer places than there are directory boxes, so many
    ShortRoom(usize),
}
