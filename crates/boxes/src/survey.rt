// What a walk over the halves of a box finds in it.
use crate::scales::Scales;

#[derive(Clone, Copy)]
pub struct Survey {
    // the leaf boxes in the box
    pub leaf_boxes: usize,
    // the directory boxes in it; one where it keeps the limits of a directory box
    pub directory_boxes: usize,
    // its lower ends, where it keeps the limits
    pub scales: Option<Scales>,
}
