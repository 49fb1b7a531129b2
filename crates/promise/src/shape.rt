// The shape of a grid.
#[derive(Clone, Copy, PartialEq, Eq, Debug)]
pub struct Shape {
    // The pages in use: eight for the root, and one for each box.
    pub pages: usize,
    pub directories: usize,
    pub leaves: usize,
}
