use super::script::{entry, go, load};
use anyhow::{Context, Result};
use host_embed::Held;
use std::alloc::Global;
use std::rt::Files;

/// Main, as an entry.
const MAIN: i32 = -1;

/// The guard is called in so many rounds.
const ROUNDS: i32 = 3;

/// Plays the game with the two scripts.
pub fn play(
    rt: &(impl Files + Alloc + Print),
    alloc: Global,
    guard: &str,
    clock: &str,
) -> Result<()> {
    run_main(rt, alloc, guard)?;
    run_main(rt, alloc, clock)?;
    call_guard(rt, alloc, guard)?;
    save_and_restore(rt, alloc, clock)
}

/// Runs a script's main.
fn run_main(rt: &(impl Files + Alloc + Print), alloc: Global, name: &str) -> Result<()> {
    let mut held = load(rt, alloc, name)?;
    let done = run_all(rt, &mut held);
    drop(held);
    done
}

/// Calls the guard's publics.
fn call_guard(rt: &(impl Files + Alloc + Print), alloc: Global, name: &str) -> Result<()> {
    let mut held = load(rt, alloc, name)?;
    let done = call_publics(rt, &mut held);
    drop(held);
    done
}

/// Rounds, and then a text that the script writes.
fn call_publics(rt: &impl Print, held: &mut Held) -> Result<()> {
    let tick = entry(held, b"@tick")?;
    for round in 0..ROUNDS {
        call_tick(rt, held, tick, round)?;
    }
    let name = entry(held, b"@name")?;
    call_name(rt, held, name)
}

/// Runs main over all its sleeps.
fn run_all(rt: &impl Print, held: &mut Held) -> Result<()> {
    held.start(MAIN, &[])?;
    go_on(rt, held)
}

/// Goes on over all sleeps.
fn go_on(rt: &impl Print, held: &mut Held) -> Result<()> {
    for _ in 0..u64::MAX {
        if !go(rt, held)? {
            break;
        }
    }
    Ok(())
}

/// A round: the public is given a number, a text and an array. Each second text is packed.
fn call_tick(rt: &impl Print, held: &mut Held, tick: i32, round: i32) -> Result<()> {
    let name = held.place(6).context("no room")?;
    let seen = held.place(2).context("no room")?;
    let (x, y) = (round.saturating_add(2), round.saturating_add(4));
    held.start(tick, &[round, name, seen, 0, 0, 0, 0, x, y])?;
    held.write_text(name, b"Bob", round % 2 == 1)?;
    go(rt, held)?;
    Ok(())
}

/// A text that the script writes, and says.
fn call_name(rt: &impl Print, held: &mut Held, name: i32) -> Result<()> {
    let room = held.place(8).context("no room")?;
    held.start(name, &[room, 8, 0, 0, 0, 0, 0, 0, 0, 0])?;
    go(rt, held)?;
    Ok(())
}

/// The clock up to its second sleep, then saved; another machine goes on from there.
fn save_and_restore(rt: &(impl Files + Alloc + Print), alloc: Global, clock: &str) -> Result<()> {
    let mut first = load(rt, alloc, clock)?;
    let mut second = match load(rt, alloc, clock) {
        Ok(second) => second,
        Err(error) => {
            drop(first);
            return Err(error);
        }
    };
    let done = hand_over(rt, &mut first, &mut second);
    drop(first);
    drop(second);
    done
}

/// Saves the first machine at its second sleep, and goes on with the second.
fn hand_over(rt: &impl Print, first: &mut Held, second: &mut Held) -> Result<()> {
    first.start(MAIN, &[])?;
    go(rt, first)?;
    go(rt, first)?;
    first.save(2)?;
    let number = second.restore(first.image())?;
    println!(rt; "restored {number}")?;
    go_on(rt, second)
}
