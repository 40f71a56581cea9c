// Places, boxes and keys at their edges.
use pipe::{Attitude, AttitudePlace, Bends, PerAxis};
use space::kinds::MinuteWeight;
use space::{Both, Clock, Features, Line, NotAdmitted, Pair, Side, Space, Weighted};
use std::test::Fail;

const LARGEST_KEY: u64 = u64::MAX;

// The largest key of a line: a difference of 2^32 − 1.
#[test]
fn the_ends_of_the_line(rt: HostRuntime) -> Result<(), Fail> {
    let low = Line::admit(-2147483648)?;
    let high = Line::admit(2147483647)?;
    assert_eq!(rt; Line::key(low, high), 18446744065119617025);
    assert_eq!(rt; Line::key(high, low), 18446744065119617025);
    assert_eq!(rt; Line::bound(high, Line::single(low)), 18446744065119617025);
    assert_eq!(rt; Line::bound(high, Line::widen(Line::single(low), high)), 0);
    assert_eq!(rt; Line::side(low, high, 7), Side::Left);
    assert_eq!(rt; Line::side(high, high, 7), Side::Right);
    Ok(())
}

#[test]
fn a_clock_box_does_not_wrap_but_its_bound_does(rt: HostRuntime) -> Result<(), Fail> {
    assert!(rt; Clock::admit(720).is_err());
    let query = Clock::admit(719)?;
    let low = Clock::admit(5)?;
    let high = Clock::admit(700)?;
    let region = Clock::widen(Clock::single(high), low);
    assert_eq!(rt; Clock::bound(query, region), 36);
    assert_eq!(rt; Clock::bound(low, region), 0);
    assert_eq!(rt; Clock::key(query, high), 361);
    Ok(())
}

fn attitude(w: i16, x: i16, y: i16, z: i16) -> Result<AttitudePlace, NotAdmitted> {
    Attitude::admit(PerAxis { w, x, y, z })
}

// The squares sum to 268,402,687, one less, 268,468,225, one more.
#[test]
fn the_edges_of_the_admitted_sum(rt: HostRuntime) {
    assert!(rt; attitude(16382, 181, 1, 1).is_ok());
    assert!(rt; attitude(16382, 181, 1, 0).is_err());
    assert!(rt; attitude(16385, 0, 0, 0).is_ok());
    assert!(rt; attitude(16385, 1, 0, 0).is_err());
    assert!(rt; attitude(16386, 0, 0, 0).is_err());
    assert!(rt; attitude(-32768, -32768, -32768, -32768).is_err());
}

#[test]
fn an_attitude_is_its_negative(rt: HostRuntime) -> Result<(), Fail> {
    let upright = attitude(16384, 0, 0, 0)?;
    let negative = attitude(-16384, 0, 0, 0)?;
    let across = attitude(0, 0, -16384, 0)?;
    assert_eq!(rt; Attitude::key(upright, negative), 0);
    assert_eq!(rt; Attitude::key(upright, across), 536870912);
    assert_eq!(rt; Attitude::bound(upright, Attitude::single(negative)), 0);
    let region = Attitude::widen(Attitude::single(negative), across);
    assert_eq!(rt; Attitude::bound(upright, region), 0);
    assert_eq!(rt;
        Attitude::bound(attitude(0, 16384, 0, 0)?, region),
        268435456
    );
    Ok(())
}

#[test]
fn axes_take_turns(rt: HostRuntime) -> Result<(), Fail> {
    let place = attitude(16384, 0, 0, 0)?;
    let pivot = attitude(0, 16384, 0, 0)?;
    assert_eq!(rt; Attitude::side(place, pivot, 0), Side::Right);
    assert_eq!(rt; Attitude::side(place, pivot, 1), Side::Left);
    assert_eq!(rt; Attitude::side(place, pivot, 2), Side::Right);
    assert_eq!(rt; Attitude::side(place, pivot, 5), Side::Left);
    assert_eq!(rt; Attitude::side(pivot, place, 4), Side::Left);
    Ok(())
}

#[test]
fn kinds_weigh_their_second_coordinate(rt: HostRuntime) -> Result<(), Fail> {
    let before_twelve = Features::admit(Both {
        first: 100,
        second: 715,
    })?;
    let after_twelve = Features::admit(Both {
        first: 100,
        second: 5,
    })?;
    assert_eq!(rt; Features::key(before_twelve, after_twelve), 4900);
    assert!(rt;
        Features::admit(Both {
            first: 100,
            second: 720,
        })
        .is_err()
    );
    let straight = Bends::admit(Both {
        first: 100,
        second: PerAxis {
            w: 16384,
            x: 0,
            y: 0,
            z: 0,
        },
    })?;
    let bent = Bends::admit(Both {
        first: 103,
        second: PerAxis {
            w: 16384,
            x: 0,
            y: 5,
            z: 0,
        },
    })?;
    assert_eq!(rt; Bends::key(straight, bent), 109);
    Ok(())
}

// 18,446,744,065,119,617,025 + 92,681² still fits 64 bits, and with 92,682² it does not.
#[test]
fn keys_are_cut_at_64_bits(rt: HostRuntime) -> Result<(), Fail> {
    let low = Pair::<Line, Line>::admit(Both {
        first: -2147483648,
        second: 0,
    })?;
    let fits = Pair::<Line, Line>::admit(Both {
        first: 2147483647,
        second: 92681,
    })?;
    let cut = Pair::<Line, Line>::admit(Both {
        first: 2147483647,
        second: 92682,
    })?;
    assert_eq!(rt; Pair::<Line, Line>::key(low, fits), 18446744073709384786);
    assert_eq!(rt; Pair::<Line, Line>::key(low, cut), LARGEST_KEY);
    assert_eq!(rt;
        Pair::<Line, Line>::bound(low, Pair::<Line, Line>::single(cut)),
        LARGEST_KEY
    );
    let (near, far) = (low.first, cut.first);
    assert_eq!(rt; Weighted::<Line, MinuteWeight>::key(near, far), LARGEST_KEY);
    assert_eq!(rt;
        Weighted::<Line, MinuteWeight>::bound(near, Line::single(far)),
        LARGEST_KEY
    );
    Ok(())
}

// A pair is a space, so a pair of a line and a pair of lines has three coordinates.
type Surveyed = Pair<Line, Pair<Line, Line>>;

#[test]
fn pairs_nest_to_three_coordinates(rt: HostRuntime) -> Result<(), Fail> {
    let origin = Surveyed::admit(Both {
        first: 0,
        second: Both {
            first: 0,
            second: 0,
        },
    })?;
    let marker = Surveyed::admit(Both {
        first: 1,
        second: Both {
            first: -2,
            second: 2,
        },
    })?;
    assert_eq!(rt; Surveyed::key(origin, marker), 9);
    assert_eq!(rt; Surveyed::bound(origin, Surveyed::single(marker)), 9);
    assert_eq!(rt;
        Surveyed::bound(origin, Surveyed::widen(Surveyed::single(marker), origin)),
        0
    );
    // easting, northing, easting, height
    assert_eq!(rt; Surveyed::side(marker, origin, 0), Side::Right);
    assert_eq!(rt; Surveyed::side(marker, origin, 1), Side::Left);
    assert_eq!(rt; Surveyed::side(marker, origin, 2), Side::Right);
    assert_eq!(rt; Surveyed::side(marker, origin, 3), Side::Right);
    assert_eq!(rt; Surveyed::side(origin, marker, 3), Side::Left);
    Ok(())
}
