// Each refusal once, and a search from seat to closing, on the line.
use crate::entries::blank;
use crate::inquiries::Inquiry;
use crate::refusals::Refusal;
use crate::seats::begin;
use crate::table::Catalogue;
use space::laws::Space;
use space::{Line, LinePlace};
use std::test::Fail;

const NO_LIMIT: u64 = u64::MAX;

fn at(coordinate: i32) -> Result<LinePlace, Fail> {
    Ok(Line::admit(coordinate)?)
}

#[test]
fn number_in_use_comes_before_full_table(rt: HostRuntime) -> Result<(), Fail> {
    let place = at(100)?;
    let mut table = [blank::<Line>(place); 2];
    let mut catalogue: Catalogue<Line> = Catalogue::new(&mut table, 1);
    assert_eq!(rt; catalogue.add(7, place), Ok(()));
    assert_eq!(rt; catalogue.add(7, place), Err(Refusal::NumberInUse));
    assert_eq!(rt; catalogue.add(3, place), Ok(()));
    assert_eq!(rt; catalogue.add(3, place), Err(Refusal::NumberInUse));
    assert_eq!(rt; catalogue.add(9, place), Err(Refusal::TableFull));
    assert_eq!(rt; catalogue.in_use(), 2);
    Ok(())
}

#[test]
fn table_of_none_is_full(rt: HostRuntime) -> Result<(), Fail> {
    let place = at(0)?;
    let mut table = [blank::<Line>(place); 0];
    let mut catalogue: Catalogue<Line> = Catalogue::new(&mut table, 1);
    assert_eq!(rt; catalogue.add(7, place), Err(Refusal::TableFull));
    Ok(())
}

#[test]
fn ninth_seat_is_refused(rt: HostRuntime) -> Result<(), Fail> {
    let place = at(0)?;
    let mut table = [blank::<Line>(place); 1];
    let mut catalogue: Catalogue<Line> = Catalogue::new(&mut table, 1);
    let mut none = [blank::<Line>(place); 0];
    let mut elsewhere: Catalogue<Line> = Catalogue::new(&mut none, 2);
    for _ in 0..8 {
        let inquiry = Inquiry::new(place, 1, NO_LIMIT)?;
        let seat = catalogue.take_seat()?;
        // spent at another catalogue, it stays out
        assert_eq!(rt;
            elsewhere.close(begin(seat, inquiry)),
            Err(Refusal::NotHere)
        );
    }
    let inquiry = Inquiry::new(place, 1, NO_LIMIT)?;
    match catalogue.take_seat() {
        Err(refusal) => {
            assert_eq!(rt; refusal, Refusal::NoSeatLeft);
            Ok(())
        },
        Ok(seat) => {
            let _ = catalogue.close(begin(seat, inquiry));
            Err(Fail::new("a ninth seat"))
        }
    }
}

#[test]
fn count_goes_from_1_to_16(rt: HostRuntime) -> Result<(), Fail> {
    let place = at(0)?;
    assert!(rt; Inquiry::new(place, 0, NO_LIMIT).is_err());
    assert!(rt; Inquiry::new(place, 1, NO_LIMIT).is_ok());
    assert!(rt; Inquiry::new(place, 16, NO_LIMIT).is_ok());
    assert!(rt; Inquiry::new(place, 17, NO_LIMIT).is_err());
    Ok(())
}

#[test]
fn only_record_is_found_in_five_steps(rt: HostRuntime) -> Result<(), Fail> {
    let place = at(100)?;
    let mut table = [blank::<Line>(place); 4];
    let mut catalogue: Catalogue<Line> = Catalogue::new(&mut table, 1);
    catalogue.add(7, place)?;
    let mut none = [blank::<Line>(place); 0];
    let elsewhere: Catalogue<Line> = Catalogue::new(&mut none, 2);
    let inquiry = Inquiry::new(at(103)?, 1, NO_LIMIT)?;
    let mut search = begin(catalogue.take_seat()?, inquiry);
    let strange = elsewhere.step(&mut search);
    for _ in 0..5 {
        let _ = catalogue.step(&mut search);
    }
    let finished = search.is_finished();
    let late = catalogue.step(&mut search);
    let closing = catalogue.close(search)?;
    assert!(rt; finished);
    assert_eq!(rt; strange, Err(Refusal::NotHere));
    assert_eq!(rt; late, Err(Refusal::AlreadyFinished));
    assert!(rt; closing.is_finished());
    assert_eq!(rt; closing.looked(), 1);
    assert_eq!(rt; closing.steps(), 5);
    let [hit] = closing.hits() else {
        return Err(Fail::new("not one hit"));
    };
    assert_eq!(rt; hit.number, 7);
    assert_eq!(rt; hit.key, 9);
    assert!(rt; hit.standing);
    Ok(())
}
