ghost use Rattle.std.specs.Prelude.{◌≡◌, ◌++◌, IfOk, OnOk};
ghost use Rattle.pawn_sample.specs.SampleSource.{body_text, call_line, function_line, head_text};
ghost use Rattle.pawn_sample.specs.SampleSource.{lines_below, main_lines, numbered, sample_source};

use itoa::Buffer;
use pawn_base::{Bytes, Memory};
use std::alloc::Global;

/// The source of the sample program of so many functions: an array, the functions, which change it
/// and add up what they find there, and a main that calls all of them ten times.
pub fn sample_source(alloc: Global, functions: u32) -> Result<Bytes, Memory>
    ensures { IfOk result (λ source. source ≡ sample_source functions) }
{
    let mut source = Bytes::new(alloc);
    source.append(b"new a[16];\n")?;
    append_functions(&mut source, functions)?;
    append_main(&mut source, functions)?;
    Ok(source)
}

/// Puts the line of each function at the end.
fn append_functions(source: &mut Bytes, functions: u32) -> Result<(), Memory>
    ensures { OnOk result (source.new ≡ source.old ++ lines_below function_line functions) }
{
    for number in 0..functions {
        append_function(source, number)?;
    }
    Ok(())
}

/// Puts the line of a function at the end, by its number.
fn append_function(source: &mut Bytes, number: u32) -> Result<(), Memory>
    ensures { OnOk result (source.new ≡ source.old ++ function_line number) }
{
    append_numbered(source, b"f", number, b"(x) { ")?;
    append_numbered(
        source,
        b"new s = ",
        number,
        b"; for (new i = 0; i < 16; i++) { a[i] += x + i; s += a[i] % 7; } return s; }\n",
    )
}

/// Puts the lines of main at the end.
fn append_main(source: &mut Bytes, functions: u32) -> Result<(), Memory>
    ensures { OnOk result (source.new ≡ source.old ++ main_lines functions) }
{
    source.append(b"main() {\nnew t = 0;\nfor (new r = 0; r < 10; r++) {\n")?;
    append_calls(source, functions)?;
    source.append(b"}\nreturn t;\n}\n")
}

/// Puts the line of each function's call at the end.
fn append_calls(source: &mut Bytes, functions: u32) -> Result<(), Memory>
    ensures { OnOk result (source.new ≡ source.old ++ lines_below call_line functions) }
{
    for number in 0..functions {
        append_numbered(source, b"t += f", number, b"(r);\n")?;
    }
    Ok(())
}

/// Puts a number between two texts at the end.
fn append_numbered(source: &mut Bytes, front: &[u8], number: u32, back: &[u8]) -> Result<(), Memory>
    ensures { OnOk result (source.new ≡ source.old ++ numbered front.now number back.now) }
{
    let mut digits = Buffer::new();
    source.append(front)?;
    source.append(digits.format(number).as_bytes())?;
    source.append(back)
}
