// A box and its page.
use boxes::GridBox;

#[derive(Clone, Copy)]
pub struct Site<'a> {
    pub inner: GridBox<'a>,
    pub page: usize,
}
