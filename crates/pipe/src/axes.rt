// The four axes of a quaternion, and a value for each of them.
ghost use Rattle.std.specs.Prelude.{◌≡◌};
ghost use Rattle.pipe.specs.Axes.{along, each, axis_at, total, OnEach};

#[derive(Clone, Copy, PartialEq, Eq, Debug)]
pub enum Axis {
    W,
    X,
    Y,
    Z,
}

// One value for each axis. Named fields, and not an array, since callers give a quaternion by its axes.
#[derive(Clone, Copy, PartialEq, Eq, Debug)]
pub struct PerAxis<T> {
    pub w: T,
    pub x: T,
    pub y: T,
    pub z: T,
}

// A quaternion by its components.
pub type Quaternion = PerAxis<i16>;

impl Axis {
    // The axes in turn.
    pub(crate) fn at(turn: u32) -> Axis
        ensures { result ≡ axis_at turn }
    {
        match turn % 4 {
            0 => Axis::W,
            1 => Axis::X,
            2 => Axis::Y,
            _ => Axis::Z,
        }
    }
}

impl<T: Copy> PerAxis<T> {
    pub(crate) fn along(self, axis: Axis) -> T
        ensures { result ≡ along self axis }
    {
        match axis {
            Axis::W => self.w,
            Axis::X => self.x,
            Axis::Y => self.y,
            Axis::Z => self.z,
        }
    }

    pub(crate) fn map<U, F: Fn(T) -> U>(self, change: F) -> PerAxis<U>
        requires { OnEach (λ i. F.pre change (along self i)) }
        ensures { OnEach (λ i. F.post change (along self i) (along result i)) }
    {
        PerAxis {
            w: change(self.w),
            x: change(self.x),
            y: change(self.y),
            z: change(self.z),
        }
    }

    pub(crate) fn zip<U>(self, other: PerAxis<U>) -> PerAxis<(T, U)>
        ensures { result ≡ each (λ i. (along self i, along other i)) }
    {
        PerAxis {
            w: (self.w, other.w),
            x: (self.x, other.x),
            y: (self.y, other.y),
            z: (self.z, other.z),
        }
    }
}

impl PerAxis<u32> {
    pub(crate) fn sum(self) -> u64
        ensures { result ≡ total (along self) }
    {
        u64::from(self.w) + u64::from(self.x) + u64::from(self.y) + u64::from(self.z)
    }
}
