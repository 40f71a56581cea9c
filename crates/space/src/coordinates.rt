// The places of the line and of the clock face. Only a space's `admit` makes one: their fields are the crate's own.
ghost use Rattle.std.specs.Prelude.{◌<◌, pos, negsuc, ◌≤ℤ◌};

// A place on a line: any signed 32-bit number.
#[derive(Clone, Copy, PartialEq, Eq, PartialOrd, Ord, Debug)]
pub struct LinePlace {
    pub(crate) value: i32,
    ghost lowest: { negsuc 2147483647 ≤ℤ value },
    ghost highest: { value ≤ℤ pos 2147483647 },
}

// A place on the pipe wall: the minutes of a twelve-hour clock face.
#[derive(Clone, Copy, PartialEq, Eq, PartialOrd, Ord, Debug)]
pub struct ClockPlace {
    pub(crate) minute: u16,
    ghost face: { minute < 720 },
}
