//! How far topological walks count by rows with a fault in each place, and by rows that don't agree with the store.
use std::alloc::Global;
use std::test::Fail;
use test_rows::history::{By, FULL, Rows};
use test_rows::table::Table as _;
use test_simple_rows::graphs::{PLACES, WRONG};
use test_topo_rows::counts::{COUNTED_DATES, COUNTED_LINES};
use test_topo_rows::{Case, DATES, FIRST, LINES, OF_SAMPLE, Table, Way};

/// Compares what a walk from 8 counts by rows with a fault in this place.
fn check_place(alloc: Global, place: (u8, u8), way: Way, want: &str) -> Result<(), Fail> {
    let rows = Rows {
        fault: Some(place),
        ..FULL
    };
    let counted = told(alloc, rows, way, By::Rows, &[])?;
    let packed = told(alloc, rows, way, By::Packed, &[])?;
    if counted.as_str() != want || packed.as_str() != want {
        return Err(Fail::new(format_args!("{counted} and {packed} at {place:?}, not {want}")));
    }
    Ok(())
}

/// The same in one of these places, lines of history not intermixed and by time.
fn faulty_places(alloc: Global, places: &[(u8, u8)], lines: &str, dates: &str) -> Result<(), Fail> {
    for place in places {
        check_place(alloc, *place, COUNTED_LINES, lines)?;
        check_place(alloc, *place, COUNTED_DATES, dates)?;
    }
    Ok(())
}

/// All is counted at once, as soon as the row with the fault is read.
#[test]
fn a_fault_in_each_place(rt: HostRuntime) -> Result<(), Fail> {
    faulty_places(
        rt.alloc(),
        &[(8, 6), (8, 7)],
        "8 8:8 7:8 4:8 2:8 6:8 5:8 3:8 1:8",
        "8 8:8 7:8 6:8 5:8 4:8 3:8 2:8 1:8",
    )?;
    faulty_places(
        rt.alloc(),
        &[(7, 4), (6, 5)],
        "1 8:8 7:8 4:8 2:8 6:8 5:8 3:8 1:8",
        "1 8:8 7:8 6:8 5:8 4:8 3:8 2:8 1:8",
    )?;
    faulty_places(
        rt.alloc(),
        &[(5, 3), (4, 2)],
        "1 8:3 7:8 4:8 2:8 6:8 5:8 3:8 1:8",
        "1 8:3 7:8 6:8 5:8 4:8 3:8 2:8 1:8",
    )?;
    faulty_places(
        rt.alloc(),
        &[(3, 1), (2, 1)],
        "1 8:3 7:5 4:8 2:8 6:8 5:8 3:8 1:8",
        "1 8:3 7:5 6:5 5:8 4:8 3:8 2:8 1:8",
    )
}

/// What a walk from 8 over the sample tells.
fn told(alloc: Global, rows: Rows<'_>, way: Way, by: By, ends: &[u8]) -> Result<String, Fail> {
    let table = Table {
        rows,
        way,
        ..OF_SAMPLE
    };
    let mut told = String::new(alloc);
    let case: Case<'_> = (&[8], ends, "");
    table.tell(alloc, by, &case, &mut told)?;
    Ok(told)
}

/// Whether these are the commits of the sample, each with its generation or with none.
fn has_no_other_generation(told: &str) -> bool {
    let mut words = told.split(' ');
    for whole in "8:5 7:4 4:3 2:2 6:4 5:3 3:2 1:1".split(' ') {
        match words.next() {
            Some(word) if whole.starts_with(word) => {}
            _ => return false,
        }
    }
    words.next().is_none()
}

#[test]
fn a_fault_changes_no_generation(rt: HostRuntime) -> Result<(), Fail> {
    for place in PLACES {
        let rows = Rows {
            fault: Some(place),
            ..FULL
        };
        for by in [By::Rows, By::Packed] {
            let told = told(rt.alloc(), rows, LINES, by, &[])?;
            assert!(rt;
                has_no_other_generation(told.as_str()),
                "{told} at {place:?}"
            );
        }
    }
    Ok(())
}

/// Whether walks over the sample by these rows end behind an answer for each commit and a fault.
fn come_to_an_end(alloc: Global, rows: &Rows<'_>, by: By) -> Result<bool, Fail> {
    for way in [LINES, DATES, FIRST] {
        for ends in [[].as_slice(), &[7], &[8]] {
            let told = told(alloc, *rows, way, by, ends)?;
            if told.as_str().split(' ').count() > 9 {
                return Ok(false);
            }
        }
    }
    Ok(true)
}

#[test]
fn walks_by_wrong_rows_end(rt: HostRuntime) -> Result<(), Fail> {
    for rows in &WRONG {
        assert!(rt; come_to_an_end(rt.alloc(), rows, By::Rows)?);
        assert!(rt; come_to_an_end(rt.alloc(), rows, By::Packed)?);
    }
    Ok(())
}
