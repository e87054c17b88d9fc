// Numbers of four bytes, high byte first.
ghost use Rattle.std.specs.Prelude.{◌≡◌, ◌+◌, ◌*◌, ◌≤◌, length};
ghost use Rattle.image.specs.Numbers.{number_at};

// The number `i` of those that `bytes` begin with, counted from 0.
pub(crate) fn number(bytes: &[u8], i: usize) -> u32
    requires { 4 * i + 4 ≤ length bytes.now }
    ensures { result ≡ number_at bytes.now (4 * i) }
{
    let (numbers, _) = bytes.as_chunks();
    u32::from_be_bytes(numbers[i])
}
