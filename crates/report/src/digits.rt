//! Decimal digits.
ghost use Rattle.std.specs.Prelude.{◌≡◌};
ghost use Rattle.report.specs.Digits.{padded};

/// The last `W` decimal digits, the highest first.
// By hand and by index, since after a `write!` into a slice, and after `iter_mut`, a proof does not know what the bytes are.
pub(crate) fn digits<const W: usize>(n: u64) -> [u8; W]
    ensures { result ≡ padded W n }
{
    let mut bytes = [b'0'; W];
    let mut rest = n;
    for i in (0..W).rev() {
        bytes[i] = b'0' + (rest % 10) as u8;
        rest /= 10;
    }
    bytes
}
