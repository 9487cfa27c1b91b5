ghost use Rattle.std.specs.Prelude.{◌≡◌, ◌<◌};
ghost use Rattle.guest_pages.specs.Random.{random_byte as byte_of};

/// Random byte `k` of all that a process draws, which repeat after 256.
pub fn random_byte(k: u64) -> u8
    requires { k < 512 }
    ensures { result ≡ byte_of k }
{
    ((167 * k + 13) % 256) as u8
}
