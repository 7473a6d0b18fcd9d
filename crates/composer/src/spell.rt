// Numbers as digits, and bytes laid into a buffer.
ghost use Rattle.std.specs.Prelude.{◌≡◌, ◌+◌, ◌<◌, ◌≤◌, length};
ghost use Rattle.elements.specs.Fields.{digit, spelled};
ghost use Rattle.elements.specs.Numbers.{radix};
ghost use Rattle.composer.specs.Writing.{laid};

use elements::number::Base;

fn hex_digit(d: u8) -> u8
    requires { d < 16 }
    ensures { result ≡ digit d }
{
    if d < 10 { b'0' + d } else { b'A' + (d - 10) }
}

// The last N digits of a number: two of a length, four of a type, 16 of a bitmap's half.
pub fn spell<const N: usize>(base: Base, number: u64) -> [u8; N]
    ensures { result ≡ spelled (radix base) N number }
{
    let radix = base.radix();
    let mut text = [b'0'; N];
    let mut rest = number;
    // By places: what is written through `iter_mut().rev()` is not known afterwards.
    for i in (0..N).rev() {
        text[i] = hex_digit((rest % radix) as u8);
        rest /= radix;
    }
    text
}

// Writes bytes into a buffer, from a place on.
pub(crate) fn lay(out: &mut [u8], at: usize, bytes: &[u8])
    requires { at + length bytes.now ≤ length out.old }
    ensures { out.new ≡ laid out.old at bytes.now }
{
    out[at..at + bytes.len()].copy_from_slice(bytes);
}
