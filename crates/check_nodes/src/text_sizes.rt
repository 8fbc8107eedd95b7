ghost use Rattle.std.specs.Prelude.{◌≡◌, length};
ghost use Rattle.types_rules.specs.Texts.{text_cells};

/// How many characters stand in a packed cell.
const CHARACTERS: usize = 4;

/// The cells of a text, those behind its characters among them.
#[tactic(auto, using(crate::proofs::TextLengthLaws::packed_length))]
pub fn text_size(bytes: &[u8], packed: bool) -> usize
    ensures { result ≡ length (text_cells packed bytes.now) }
{
    if packed {
        bytes.len() / CHARACTERS + 1
    } else {
        bytes.len() + 1
    }
}
