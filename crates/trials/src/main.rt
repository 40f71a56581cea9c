// The program `trials`: our listings against a plain decoder and a plain scan, and one damaged file for each fault.
// It touches `listing`, and `runs` and `runfile` for the one fault that no file short enough for a listing can have.
#![tactic(auto)]

mod plain;
mod samples;

use listing::listing;
use plain::{count_agreeing, decoded, rows};
use runfile::FileRun;
use runs::{Fault, Run, RunFault};
use samples::Sample;
use space::Features;
use std::{fmt, fs};

// A realistic run: every row of its listing is compared with the row that a plain scan gives.
fn try_run(rt: &HostRuntime, name: &str) -> anyhow::Result<()> {
    let bytes = fs::read(rt, name)?;
    let text = listing(rt.alloc(), &bytes)?;
    let sightings = decoded(rt.alloc(), &bytes)?;
    let count = sightings.len();
    let listed = text.lines().skip(1).count();
    let expected = rows(rt.alloc(), &sightings, listed)?;
    let agree = count_agreeing(&text, &expected);
    println!(rt; "{name}: {count} sightings, {agree} rows as by a plain scan")?;
    Ok(())
}

// The text that is made of a file.
fn try_listing(rt: &HostRuntime, name: &str, sample: &Sample) -> anyhow::Result<()> {
    let text = listing(rt.alloc(), sample.bytes())?;
    print!(rt; "{name}: {text}")?;
    Ok(())
}

// A fault with all that it tells: its offset and its index if it has them.
#[derive(Clone, Copy)]
struct Shown(RunFault);

impl fmt::Display for Shown {
    fn fmt<W: fmt::Write>(&self, f: &mut fmt::Formatter<W>) -> fmt::Result {
        write!(f, "fault {}", self.0.number())?;
        if let Some(offset) = self.0.offset() {
            write!(f, " offset {offset}")?;
        }
        if let Some(index) = self.0.index() {
            write!(f, " index {index}")?;
        }
        Ok(())
    }
}

// The first fault that a run gives.
fn try_reader(rt: &HostRuntime, name: &str, sample: &Sample) -> anyhow::Result<()> {
    match first_fault(sample.bytes()) {
        Some(fault) => println!(rt; "{name}: {}", Shown(fault))?,
        None => println!(rt; "{name}: no fault")?,
    }
    Ok(())
}

fn first_fault(bytes: &[u8]) -> Option<RunFault> {
    FileRun::<Features>::open(bytes)
        .and_then(|mut run| run.next())
        .err()
}

// The worked example with one byte changed, and what is wrong with it then.
struct Case {
    name: &'static str,
    at: usize,
    value: u8,
}

const CHANGED: [Case; 12] = [
    Case {
        name: "kind 2",
        at: 0,
        value: 2,
    },
    Case {
        name: "header length 25",
        at: 2,
        value: 25,
    },
    Case {
        name: "frame offset 25",
        at: 12,
        value: 25,
    },
    Case {
        name: "sighting offset 31",
        at: 16,
        value: 31,
    },
    Case {
        name: "four sightings",
        at: 8,
        value: 4,
    },
    Case {
        name: "tick length 0",
        at: 20,
        value: 0,
    },
    Case {
        name: "tick length 1049",
        at: 21,
        value: 4,
    },
    Case {
        name: "frame 2 of 2",
        at: 58,
        value: 2,
    },
    Case {
        name: "frames 1, 0, 1",
        at: 34,
        value: 1,
    },
    Case {
        name: "minute 773",
        at: 51,
        value: 3,
    },
    Case {
        name: "zero field 1",
        at: 40,
        value: 1,
    },
    Case {
        name: "number 7 twice",
        at: 54,
        value: 7,
    },
];

fn try_changed(rt: &HostRuntime) -> anyhow::Result<()> {
    for case in &CHANGED {
        let sample = Sample::changed(rt.alloc(), case.at, case.value)?;
        try_listing(rt, case.name, &sample)?;
    }
    Ok(())
}

fn try_sizes(rt: &HostRuntime) -> anyhow::Result<()> {
    let heap = rt.alloc();
    try_listing(rt, "23 bytes", &Sample::cut(heap, 23)?)?;
    try_listing(rt, "16385 bytes", &Sample::long(heap, 16385)?)?;
    try_listing(rt, "513 sightings", &Sample::of_many(heap, 513, 5)?)?;
    try_listing(
        rt,
        "513 sightings, minute 720",
        &Sample::of_many(heap, 513, 720)?,
    )?;
    try_listing(rt, "no sightings", &Sample::of_many(heap, 0, 5)?)?;
    try_listing(rt, "one sighting", &Sample::of_many(heap, 1, 5)?)
}

fn main(rt: HostRuntime) -> anyhow::Result<()> {
    try_run(&rt, "run-of-320-features.run")?;
    try_changed(&rt)?;
    try_sizes(&rt)?;
    try_reader(
        &rt,
        "chainage 2147610000",
        &Sample::of_frames(rt.alloc(), 8422)?,
    )?;
    try_reader(
        &rt,
        "chainage 2147355000",
        &Sample::of_frames(rt.alloc(), 8421)?,
    )
}
