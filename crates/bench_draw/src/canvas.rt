//! What messages are drawn with.

use crate::picture::Picture;
use crate::scale::Scale;
use bench_decode::TextLine;
use bench_select::Selection;
use std::alloc::Global;

/// A picture into which messages are drawn: which of them, by which scale, and room for what people read of one.
#[derive(Drop)]
pub(crate) struct Canvas<'o> {
    pub(crate) alloc: Global,
    pub(crate) selection: Selection<'o>,
    pub(crate) scale: Scale,
    pub(crate) picture: Picture,
    pub(crate) details: TextLine,
}
