use anyhow::Result;
use host_embed::Held;

/// The AMX error of a native that can't be served.
const NATIVE: i32 = 10;

/// Serves the native that is waited for, by its name.
pub fn serve(rt: &impl Print, held: &mut Held, number: u32) -> Result<()> {
    let answer = match held.native_name(number as usize) {
        Some(name) if name == b"say".as_slice() => say(rt, held)?,
        Some(name) if name == b"distance".as_slice() => distance(rt, held)?,
        Some(name) if name == b"move".as_slice() => go_by(rt, held)?,
        Some(name) if name == b"rest".as_slice() => rest(rt)?,
        Some(name) if name == b"beat".as_slice() => beat(rt, held)?,
        Some(name) if name == b"ask".as_slice() => ask(rt)?,
        _ => None,
    };
    match answer {
        Some(value) => held.answer(value)?,
        None => held.fail(NATIVE)?,
    }
    Ok(())
}

/// Prints a text.
fn say(rt: &impl Print, held: &Held) -> Result<Option<i32>> {
    let mut text = [0; 64];
    let Ok(count) = held.read_text(held.argument(0)?, &mut text) else {
        return Ok(None);
    };
    print!(rt; "native say \"")?;
    for character in text.iter().take(count) {
        let shown = u8::try_from(*character).map_or('?', char::from);
        print!(rt; "{shown}")?;
    }
    println!(rt; "\" -> 0")?;
    Ok(Some(0))
}

/// How far a place is from another, by its two ways.
fn distance(rt: &impl Print, held: &Held) -> Result<Option<i32>> {
    let (x, y) = (held.argument(0)?, held.argument(1)?);
    let mut from = [0; 2];
    if held.read(held.argument(2)?, &mut from) < 2 {
        return Ok(None);
    }
    let [home_x, home_y] = from;
    let far = x
        .saturating_sub(home_x)
        .saturating_abs()
        .saturating_add(y.saturating_sub(home_y).saturating_abs());
    println!(rt; "native distance {x} {y} [{home_x} {home_y}] -> {far}")?;
    Ok(Some(far))
}

/// A step.
fn go_by(rt: &impl Print, held: &Held) -> Result<Option<i32>> {
    let (dx, dy) = (held.argument(0)?, held.argument(1)?);
    println!(rt; "native move {dx} {dy} -> 0")?;
    Ok(Some(0))
}

/// No step.
fn rest(rt: &impl Print) -> Result<Option<i32>> {
    println!(rt; "native rest -> 0")?;
    Ok(Some(0))
}

/// A beat by its number.
fn beat(rt: &impl Print, held: &Held) -> Result<Option<i32>> {
    let number = held.argument(0)?;
    println!(rt; "native beat {number} -> 0")?;
    Ok(Some(0))
}

/// How many beats there are.
fn ask(rt: &impl Print) -> Result<Option<i32>> {
    println!(rt; "native ask -> 3")?;
    Ok(Some(3))
}
