// Eight bytes as one big-endian number, whose order is that of the bytes.
ghost use Rattle.std.specs.Prelude.{◌≡◌, ◌+◌, ◌≤◌};
ghost use Rattle.stream.specs.Payload.{payload};
ghost use Rattle.stream.specs.Inner.Payload.{room};
ghost use Rattle.names.specs.Inner.Words.{be64_at};

use stream::u64_at;

// The eight bytes at p: the stream's number, which is one load, with its bytes in the other order, which is one swap.
pub fn word_at(s: &[u8], p: usize) -> u64
    requires { p + 8 ≤ room s.now }
    ensures { result ≡ be64_at (payload s.now) p }
{
    u64_at(s, 0, p).swap_bytes()
}
