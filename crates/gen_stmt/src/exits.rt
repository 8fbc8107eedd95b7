ghost use Rattle.std.specs.Prelude.{◌≡◌, length};
ghost use Rattle.gen_stmt.specs.Led.{exit_by, all_led, AreIn};

use super::draft::{Exit, Hole};
use gen_expr::Builder;
use gen_expr::jumps::lead;

/// The jumps out of a loop lead to its exits, which are at these addresses.
#[tactic(auto, using(crate::proofs::LedLaws::lead_more, crate::proofs::LedLaws::none_led, crate::proofs::LedLaws::in_rest))]
pub fn lead_out(holes: &[Hole], broke: i32, continued: i32, b: Builder) -> Builder
    requires { AreIn (length b.code) holes.now }
    ensures { result ≡ all_led broke continued holes.now b }
{
    let mut led = b;
    for hole in holes {
        led = lead(hole.at, address_of(hole.exit, broke, continued), led);
    }
    led
}

/// The address of an exit, of these two.
fn address_of(exit: Exit, broke: i32, continued: i32) -> i32
    ensures { result ≡ exit_by broke continued exit }
{
    match exit {
        Exit::Break => broke,
        Exit::Continue => continued,
    }
}
