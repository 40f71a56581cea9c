// The bounding box of attitudes: a range of components on each axis.
use crate::axes::PerAxis;
use space::spans::Span;

#[derive(Clone, Copy, PartialEq, Eq, Debug)]
pub struct AttitudeBox {
    pub(crate) ranges: PerAxis<Span<i16>>,
}
