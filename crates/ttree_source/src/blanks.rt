//! Blanks before and between JSON values.

ghost use Rattle.std.specs.Prelude.{◌≡◌};
ghost use Rattle.ttree_source.specs.Blanks.{after_blanks, first_byte, is_blank};

/// Returns what follows the blanks at the start.
pub fn after_blanks(text: &[u8]) -> &[u8]
    ensures { result.now ≡ after_blanks text.now }
{
    let mut rest = text;
    while let [byte, others @ ..] = rest {
        if !is_blank(*byte) {
            break;
        }
        rest = others;
    }
    rest
}

/// Returns the first byte that isn't a blank.
pub fn first_byte(text: &[u8]) -> Option<u8>
    ensures { result ≡ first_byte text.now }
{
    let mut rest = text;
    while let [byte, others @ ..] = rest {
        if !is_blank(*byte) {
            return Some(*byte);
        }
        rest = others;
    }
    None
}

/// Returns whether a byte is a blank in JSON.
pub fn is_blank(byte: u8) -> bool
    ensures { result ≡ is_blank byte }
{
    match byte {
        b' ' | b'\t' | b'\r' | b'\n' => true,
        _ => false,
    }
}
