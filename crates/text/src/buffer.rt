// Bytes, and numbers as decimal text.
ghost use Rattle.std.specs.Prelude.{[], ◌∷◌, ◌/◌, ◌%◌};
ghost use Rattle.text.specs.Buffer.{Put};
ghost use Rattle.text.specs.Decimal.{digit, decimal as decimal_decimal};

pub(crate) fn byte(out: &mut [u8], at: usize, byte: u8) -> usize
    ensures { Put out.old at (byte ∷ []) result out.new }
{
    if at < out.len() {
        out[at] = byte;
        at + 1
    } else {
        at
    }
}

pub(crate) fn bytes(out: &mut [u8], at: usize, bytes: &[u8]) -> usize
    ensures { Put out.old at bytes.now result out.new }
{
    if out.len() <= at {
        return at;
    }
    let end = at + bytes.len().min(out.len() - at);
    out[at..end].copy_from_slice(&bytes[..end - at]);
    end
}

// The last two digits.
fn two_digits(out: &mut [u8], at: usize, n: u64) -> usize
    ensures { Put out.old at (digit (n / 10 % 10) ∷ digit (n % 10) ∷ []) result out.new }
{
    let next = byte(out, at, b'0' + (n / 10 % 10) as u8);
    byte(out, next, b'0' + (n % 10) as u8)
}

// A number as decimal text: first the digits of n / 100, then the last two digits.
pub(crate) fn decimal(out: &mut [u8], at: usize, n: u64) -> usize
    ensures { Put out.old at (decimal_decimal n) result out.new }
{
    if n < 10 {
        return byte(out, at, b'0' + n as u8);
    }
    if n < 100 {
        return two_digits(out, at, n);
    }
    let next = decimal(out, at, n / 100);
    two_digits(out, next, n)
}
