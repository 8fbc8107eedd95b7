ghost use Rattle.std.specs.Prelude.{◌≡◌, ◌<◌, ◌↔◌, ◌<ℤ◌, ◌≤ℤ◌, ℕ, pos, negsuc, IsTrue, IsNone};
ghost use Rattle.std.specs.Prelude.{IfSome, ◌≢◌};
ghost use Rattle.pawn_cells.specs.Cells as cells;
ghost use Rattle.pawn_cells.specs.Signs.{IsOpposite};

/// A value of 32 bits. As a number it has a sign; its arithmetic wraps modulo 2^32. The methods
/// are Pawn's operators (Language Guide, "Operators and expressions").
#[derive(Clone, Copy, Debug, PartialEq, Eq)]
pub struct Cell(pub i32);

impl Cell {
    /// The sum, wrapped.
    pub fn add(self, other: Cell) -> Cell
        ensures { result.0 ≡ cells.add self.0 other.0 }
    {
        Cell(self.0.wrapping_add(other.0))
    }

    /// The difference, wrapped.
    pub fn sub(self, other: Cell) -> Cell
        ensures { result.0 ≡ cells.sub self.0 other.0 }
    {
        Cell(self.0.wrapping_sub(other.0))
    }

    /// The product, wrapped.
    pub fn mul(self, other: Cell) -> Cell
        ensures { result.0 ≡ cells.mul self.0 other.0 }
    {
        Cell(self.0.wrapping_mul(other.0))
    }

    /// The negative, wrapped: that of the least cell is itself.
    pub fn neg(self) -> Cell
        ensures { result.0 ≡ cells.neg self.0 }
    {
        Cell(self.0.wrapping_neg())
    }

    /// The bits that are set in both.
    pub fn and(self, other: Cell) -> Cell
        ensures { result.0 ≡ cells.and self.0 other.0 }
    {
        Cell(self.0 & other.0)
    }

    /// The bits that are set in one or both.
    pub fn or(self, other: Cell) -> Cell
        ensures { result.0 ≡ cells.or self.0 other.0 }
    {
        Cell(self.0 | other.0)
    }

    /// The bits that are set in one and not in both.
    pub fn xor(self, other: Cell) -> Cell
        ensures { result.0 ≡ cells.xor self.0 other.0 }
    {
        Cell(self.0 ^ other.0)
    }

    /// All bits turned.
    pub fn invert(self) -> Cell
        ensures { result.0 ≡ cells.invert self.0 }
    {
        Cell(!self.0)
    }

    /// The bits moved towards the most significant one. The count is taken modulo 32.
    pub fn shl(self, other: Cell) -> Cell
        ensures { result.0 ≡ cells.shl self.0 other.0 }
    {
        Cell(self.0.wrapping_shl(other.0.cast_unsigned()))
    }

    /// The bits moved towards the least significant one, with copies of the sign behind them. The
    /// count is taken modulo 32.
    pub fn shr(self, other: Cell) -> Cell
        ensures { result.0 ≡ cells.shr self.0 other.0 }
    {
        Cell(self.0.wrapping_shr(other.0.cast_unsigned()))
    }

    /// The bits moved towards the least significant one, with zeros behind them. The count is
    /// taken modulo 32.
    pub fn ushr(self, other: Cell) -> Cell
        ensures { result.0 ≡ cells.ushr self.0 other.0 }
    {
        let bits = self.0.cast_unsigned();
        Cell(bits.wrapping_shr(other.0.cast_unsigned()).cast_signed())
    }

    /// 1 where this is 0, else 0.
    pub fn not(self) -> Cell
        ensures { result.0 ≡ cells.not self.0 }
    {
        Cell(i32::from(self.0 == 0))
    }

    /// Whether this is below the other, as numbers with their signs.
    pub fn less(self, other: Cell) -> bool
        ensures test { result ≡ cells.less self.0 other.0 }
        ensures order { IsTrue result ↔ (self.0 <ℤ other.0) }
    {
        self.0 < other.0
    }

    /// Whether this isn't above the other, as numbers with their signs.
    pub fn less_eq(self, other: Cell) -> bool
        ensures test { result ≡ cells.less_eq self.0 other.0 }
        ensures order { IsTrue result ↔ (self.0 ≤ℤ other.0) }
    {
        self.0 <= other.0
    }

    pub fn equal(self, other: Cell) -> bool
        ensures test { result ≡ cells.equal self.0 other.0 }
        ensures same { IsTrue result ↔ (self.0 ≡ other.0) }
    {
        self.0 == other.0
    }

    /// The quotient rounded towards minus infinity, or nothing for a divisor of 0.
    pub fn floor_div(self, divisor: Cell) -> Option<Cell>
        ensures zero { IsNone result ↔ (divisor.0 ≡ pos 0) }
        ensures value { IfSome result (λ quotient. quotient.0 ≡ cells.floor_div self.0 divisor.0) }

        // The one quotient that 32 bits don't hold wraps.
        ensures least { self.0 ≡ cells.least_cell → divisor.0 ≡ negsuc 0 →
            IfSome result (λ quotient. quotient.0 ≡ cells.least_cell) }
    {
        if divisor.0 == 0 {
            return None;
        }
        let quotient = self.0.wrapping_div(divisor.0);
        let is_below = is_opposite(self.0.wrapping_rem(divisor.0), divisor.0);
        Some(Cell(if is_below { quotient - 1 } else { quotient }))
    }

    /// What that quotient leaves of the dividend, or nothing for a divisor of 0.
    pub fn floor_rem(self, divisor: Cell) -> Option<Cell>
        ensures zero { IsNone result ↔ (divisor.0 ≡ pos 0) }
        ensures value { IfSome result (λ rest. rest.0 ≡ cells.floor_rem self.0 divisor.0) }

        // It is 0, or it has the divisor's sign and is smaller in size. With the quotient it
        // makes up the dividend again.
        ensures sign { IfSome result (λ rest. cells.IsRemainder rest.0 divisor.0) }
        ensures whole { IfSome result (λ rest.
            cells.add (cells.mul (cells.floor_div self.0 divisor.0) divisor.0) rest.0 ≡ self.0) }
    {
        if divisor.0 == 0 {
            return None;
        }
        let rest = self.0.wrapping_rem(divisor.0);
        Some(Cell(if is_opposite(rest, divisor.0) {
            rest + divisor.0
        } else {
            rest
        }))
    }

    /// One of the four characters, of which number 0 is the most significant byte.
    pub fn char_at(self, index: u32) -> u8
        requires { index < 4 }
        ensures { result ≡ cells.char_at self.0 index }
    {
        self.0.to_be_bytes()[index as usize]
    }

    /// The cell with this byte as one of its characters.
    pub fn with_char(self, index: u32, byte: u8) -> Cell
        requires { index < 4 }
        ensures value { result.0 ≡ cells.with_char self.0 index byte }

        // It is read back, and the other three are as they were.
        ensures read { cells.char_at result.0 index ≡ byte }
        ensures others { (other : ℕ) → other < 4 → other ≢ index →
            cells.char_at result.0 other ≡ cells.char_at self.0 other }
    {
        let mut characters = self.0.to_be_bytes();
        characters[index as usize] = byte;
        Cell(i32::from_be_bytes(characters))
    }
}

/// Whether a remainder, which has the dividend's sign, has another sign than the divisor. Then the
/// quotient was rounded up.
fn is_opposite(rest: i32, divisor: i32) -> bool
    ensures { IsTrue result ↔ IsOpposite rest divisor }
{
    rest != 0 && (rest < 0) != (divisor < 0)
}
