use super::judged_names::{names_of, resolves};
use std::alloc::{AllocError, Global};

/// Loops one in another, each with a variable, and then a use of the first one.
fn deep(alloc: Global, levels: u32) -> Result<String, AllocError> {
    let mut source = String::from_str(alloc, "main() ")?;
    for level in 0..levels {
        write!(source, "for (new a{level}; ; )\n")?;
    }
    source.push_str("a0")?;
    Ok(source)
}

/// Constants, each one more than the one before.
fn many(alloc: Global, count: u32) -> Result<String, AllocError> {
    let mut source = String::from_str(alloc, "const a0 = 7\n")?;
    for number in 1..count {
        write!(source, "const a{number} = a{} + 1\n", number - 1)?;
    }
    Ok(source)
}

/// Whether a use below 200 blocks means the name of the outermost one.
fn deep_blocks_resolve(alloc: Global) -> bool {
    match deep(alloc, 200) {
        Err(_) => false,
        Ok(source) => resolves(alloc, source.as_str(), &[(1403, 6)], &[]),
    }
}

/// Whether 20,000 constants have their values.
fn many_constants_resolve(alloc: Global) -> bool {
    let Ok(source) = many(alloc, 20_000) else {
        return false;
    };
    let Some(names) = names_of(alloc, source.as_str()) else {
        return false;
    };
    let last = names.values.as_slice().last();
    names.uses.len() == 19_999 && last == Some(&(119_993, 20_006))
}

#[test]
fn deep_blocks(rt: HostRuntime) {
    assert!(rt; deep_blocks_resolve(rt.alloc()));
}

#[test]
fn many_constants(rt: HostRuntime) {
    assert!(rt; many_constants_resolve(rt.alloc()));
}
