ghost use Rattle.std.specs.Prelude.{◌≡◌, ◌++◌, drop, length, take};
ghost use Rattle.sulkhen_c.specs.Named.{NumbersFor};

use host_embed::Refusal;

/// Copies as many bytes as there is room for.
pub fn copy_front(from: &[u8], to: &mut [u8])
    ensures { to.new ≡ take (length to.old) from.now ++ drop (length from.now) to.old }
{
    if from.len() <= to.len() {
        to[..from.len()].copy_from_slice(from);
    } else {
        to.copy_from_slice(&from[..to.len()]);
    }
}

/// Puts a number at its place, and answers 0; or 20 where there is none.
pub fn tell_number(number: Option<usize>, out: &mut usize) -> i32
    ensures { NumbersFor number result out.old out.new }
{
    match number {
        Some(number) => {
            *out = number;
            0
        }
        None => Refusal::Index.code(),
    }
}
