//! Bytes that move no terminal's cursor and change no colour.

ghost use Rattle.std.specs.Prelude.{◌≡◌};
ghost use Rattle.ttree_terminal.specs.Plain.{is_c1, is_control, is_printable, plain_after};

// Returns whether bytes have no control, whatever byte comes before them.
#[tactic(auto, using(crate::proofs::Printable::not_control, crate::proofs::Printable::not_c1))]
pub(crate) fn is_plain(bytes: &[u8]) -> bool
    ensures { result ≡ plain_after 194 bytes.now }
{
    let mut before = 194;
    let mut rest = bytes;
    while let Some((byte, after)) = rest.split_first() {
        if !is_printable(*byte) && (is_control(*byte) || is_c1(before, *byte)) {
            return false;
        }
        before = *byte;
        rest = after;
    }
    true
}

// Returns whether a byte is a printable character of ASCII. Most are, and need no further test.
#[inline(always)]
fn is_printable(byte: u8) -> bool
    ensures { result ≡ is_printable byte }
{
    b' ' <= byte && byte <= b'~'
}

// Returns whether a byte is below 32 and neither a tab nor a line end, or 127.
#[inline(always)]
fn is_control(byte: u8) -> bool
    ensures { result ≡ is_control byte }
{
    match byte {
        b'\t' | b'\n' => false,
        _ => byte < b' ' || byte == 127,
    }
}

// Returns whether two bytes are a C1 control.
#[inline(always)]
fn is_c1(before: u8, byte: u8) -> bool
    ensures { result ≡ is_c1 before byte }
{
    before == 194 && 128 <= byte && byte <= 159
}
