// The scales of a tiling, side by side: how many lower ends each key has, and these. There are at most as many as the largest image has; fixed arrays, since nothing here allocates.
#[derive(Clone, Copy)]
pub struct Scales {
    pub counts: [usize; 4],
    pub ends: [u32; 250],
}
