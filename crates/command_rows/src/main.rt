//! Runs rows: commands over files in memory, each with what it prints and the number of its status.
//! A row is a line of a file of `data/`; what all of them come to is held to `stdout`. The page of
//! all numbers is held to what `explain` tells.
#![tactic(auto)]

mod page;
mod piece;
mod row;
mod stage;
#[cfg(test)]
mod tests;

use stage::Stage;
use std::{env, fs};

fn main(rt: HostRuntime) -> anyhow::Result<()> {
    let mut stage = Stage::new(rt.alloc())?;
    for name in env::args(&rt)?.skip(1) {
        let text = fs::read_to_string(&rt, name.as_str())?;
        if name.as_str().ends_with(".md") {
            stage.compare(&rt, text.as_str())?;
            continue;
        }
        for line in text.lines() {
            stage.take(&rt, line)?;
        }
    }
    Ok(())
}
