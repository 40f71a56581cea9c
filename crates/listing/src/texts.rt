// The text of a listing.
ghost use Rattle.std.specs.Prelude.{◌≡◌, ◌++◌, IfOk, OnOk, string_bytes};
ghost use Rattle.catalogue.specs.Views.{seen};
ghost use Rattle.listing.specs.Lines.{heading, row_line};
ghost use Rattle.listing.specs.Opening.{sightings_of};
ghost use Rattle.runfile.specs.Features.{features};
ghost use Rattle.runfile.specs.Reads.{remaining};
ghost use Rattle.listing.specs.Listings.{hits_in, near, row_of, rows_of, rows_if, list_of, listed_if, listing_of};

use crate::opening::open;
use crate::rows::{FaultLine, Neighbour, Row};
use catalogue::{Catalogue, Closing, Entry, Inquiry, Named, Refusal, blank};
use runfile::FileRun;
use runs::{LoadFault, Run, Sighting, load};
use space::{Both, FeaturePlace, FeatureRegion, Features, Space};
use std::alloc::{AllocError, Global};

const HEADING: &str = "number chainage clock first key second key\n";

// A listing has no more sightings.
const MOST_RECORDS: usize = 512;

// What the table is made of before anything is added.
fn unused() -> Entry<FeaturePlace, FeatureRegion> {
    let origin = Both {
        first: 0,
        second: 0,
    };
    blank::<Features>(Features::admit(origin).unwrap())
}

// The records nearest to a place: two at most, with no limit.
fn search(catalogue: &mut Catalogue<Features>, place: FeaturePlace) -> Result<Closing, Refusal>
    ensures value { hits_in result ≡ near (seen catalogue.old) place }
    ensures same { seen catalogue.new ≡ seen catalogue.old }
{
    catalogue.nearest(Inquiry::new(place, 2, u64::MAX)?)
}

fn row(catalogue: &mut Catalogue<Features>, sighting: Sighting<FeaturePlace>) -> Row
    ensures line { row_line result ≡ row_of (near (seen catalogue.old)) sighting }
    ensures same { seen catalogue.new ≡ seen catalogue.old }
{
    let spot = Features::locate(sighting.place);
    let found = search(catalogue, sighting.place);
    let hits: &[Named] = found.as_ref().map_or(&[], |closing| closing.hits());
    Row {
        number: sighting.number,
        chainage: spot.first,
        clock: spot.second,
        first: Neighbour {
            hit: hits.first().copied(),
        },
        second: Neighbour {
            hit: hits.get(1).copied(),
        },
    }
}

// A row for each sighting that the run still gives.
fn write_rows(
    text: &mut String,
    mut run: FileRun<'_, Features>,
    catalogue: &mut Catalogue<Features>,
) -> Result<(), AllocError>
    ensures { OnOk result (string_bytes text.new ≡ string_bytes text.old ++ rows_of (near (seen catalogue.old)) (remaining features run.entry)) }
{
    while let Ok(Some(sighting)) = run.next() {
        let row = row(catalogue, sighting);
        write!(text, "{row}")?;
    }
    Ok(())
}

// The heading, and a row for each sighting of the file, which is read again from its start.
fn rows(
    heap: Global,
    bytes: &[u8],
    catalogue: &mut Catalogue<Features>,
) -> Result<String, AllocError>
    ensures { IfOk result (λ text. string_bytes text ≡ heading ++ rows_if (near (seen catalogue.old)) (sightings_of bytes.now)) }
{
    let mut text = String::from_str(heap, HEADING)?;
    if let Ok(run) = open(bytes) {
        write_rows(&mut text, run, catalogue)?;
    }
    Ok(text)
}

// Loads the file into an empty catalogue.
fn load_file(bytes: &[u8], catalogue: &mut Catalogue<Features>) -> Result<u64, LoadFault>
    ensures { list_of result (rows_if (near (seen catalogue.new)) (sightings_of bytes.now)) ≡ listed_if (sightings_of bytes.now) (seen catalogue.old) }
{
    load(&mut open(bytes)?, catalogue)
}

// The listing of a feature run file, or the line of its fault. Nothing is written before all is loaded.
pub fn listing(heap: Global, bytes: &[u8]) -> Result<String, AllocError>
    ensures { IfOk result (λ text. string_bytes text ≡ listing_of bytes.now) }
{
    let mut table = [unused(); MOST_RECORDS];
    let mut catalogue: Catalogue<Features> = Catalogue::new(&mut table, 1);
    match load_file(bytes, &mut catalogue) {
        Ok(_) => rows(heap, bytes, &mut catalogue),
        Err(fault) => FaultLine { fault }.to_string(heap),
    }
}
