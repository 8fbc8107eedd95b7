//! A game loop over the crates: a guard whose publics are called with texts and arrays, and a clock
//! that sleeps, is saved, and is restored into another machine. `examples/host_c/game.c` is the
//! same in C. Its words are the names of the two files.
#![tactic(auto)]

mod game;
mod natives;
mod script;

use std::env;

fn main(rt: HostRuntime) -> anyhow::Result<()> {
    let words = env::args(&rt)?;
    let mut names = words.skip(1);
    match (names.next(), names.next()) {
        (Some(guard), Some(clock)) => game::play(&rt, rt.alloc(), guard.as_str(), clock.as_str()),
        _ => anyhow::bail!("host_game GUARD.amx CLOCK.amx"),
    }
}
