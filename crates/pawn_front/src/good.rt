ghost use Rattle.types_laws.specs.SmallTokens.{AreByteLines};
ghost use Rattle.pawn_front.specs.Good.{AreBytes, ProgramsOfSourcesAreGood};

use pawn_pre::Line;
use types_laws::sources_are_good;

/// The program of a source is valid, within the limits, and has names as those of a source.
pub fn programs_of_sources_are_good()
    ensures { ProgramsOfSourcesAreGood }
{
    sources_are_good();
}

/// Each byte is below 256.
fn are_bytes(bytes: &[u8])
    ensures { AreBytes bytes.now }
{}

/// Lines are made of bytes, which only a look at each of them tells the proof.
pub fn are_byte_lines(lines: &[Line])
    ensures { AreByteLines lines.now }
{
    for line in lines {
        are_bytes(line.bytes.as_slice());
    }
}
