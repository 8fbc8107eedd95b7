use super::natives::serve;
use anyhow::{Context, Result, bail};
use host_embed::{Event, Held, SulkhenEvent};
use std::alloc::Global;
use std::fs;
use std::rt::Files;

/// Runs go by portions of so many steps.
const STEPS: u64 = 1000;

/// The machine of a file.
pub fn load(rt: &(impl Files + Alloc), alloc: Global, name: &str) -> Result<Held> {
    let bytes = fs::read(rt, name)?;
    let loaded = Held::load(alloc, bytes.as_slice());
    drop(bytes);
    match loaded {
        Ok(held) => Ok(held),
        Err(fault) => bail!("invalid {} at {}", fault.code(), fault.place()),
    }
}

/// The number of a public as an entry.
pub fn entry(held: &Held, name: &[u8]) -> Result<i32> {
    let number = held.public_number(name).context("no such public")?;
    Ok(i32::try_from(number)?)
}

/// Runs up to a sleep or an end, serves the natives, and prints its line. Tells whether it sleeps.
pub fn go(rt: &impl Print, held: &mut Held) -> Result<bool> {
    for _ in 0..u64::MAX {
        let (steps, event) = held.run(STEPS)?;
        match event {
            Event::Going => {}
            Event::Native(number) => serve(rt, held, number)?,
            Event::Halt { .. } | Event::Error(_) => return show(
                rt,
                SulkhenEvent::new(steps, event),
            ),
        }
    }
    bail!("it goes on for ever")
}

/// Prints the line of a sleep or an end.
fn show(rt: &impl Print, event: SulkhenEvent) -> Result<bool> {
    let (value, tag) = (event.value, event.tag);
    match event.kind {
        2 => println!(rt; "sleep {value} tag {tag}")?,
        3 => println!(rt; "done {value}")?,
        4 => println!(rt; "exit {value} tag {tag}")?,
        _ => println!(rt; "error {value}")?,
    }
    Ok(event.kind == 2)
}
