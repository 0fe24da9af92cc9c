// The functions on 32-bit words of FIPS 180-4, section 4.1.2.
ghost use Rattle.std.specs.Prelude.{◌≡◌};
ghost use Rattle.sha256.specs.Words.{ch, maj, big_sigma0, big_sigma1, small_sigma0, small_sigma1};

pub(crate) fn choose(x: u32, y: u32, z: u32) -> u32
    ensures { result ≡ ch x y z }
{
    (x & y) ^ (!x & z)
}

pub(crate) fn majority(x: u32, y: u32, z: u32) -> u32
    ensures { result ≡ maj x y z }
{
    (x & y) ^ (x & z) ^ (y & z)
}

// Four functions and not one with const parameters: the standard names each, and numbers at the calls would say less.
pub(crate) fn big_sigma0(x: u32) -> u32
    ensures { result ≡ big_sigma0 x }
{
    x.rotate_right(2) ^ x.rotate_right(13) ^ x.rotate_right(22)
}

pub(crate) fn big_sigma1(x: u32) -> u32
    ensures { result ≡ big_sigma1 x }
{
    x.rotate_right(6) ^ x.rotate_right(11) ^ x.rotate_right(25)
}

pub(crate) fn small_sigma0(x: u32) -> u32
    ensures { result ≡ small_sigma0 x }
{
    x.rotate_right(7) ^ x.rotate_right(18) ^ (x >> 3)
}

pub(crate) fn small_sigma1(x: u32) -> u32
    ensures { result ≡ small_sigma1 x }
{
    x.rotate_right(17) ^ x.rotate_right(19) ^ (x >> 10)
}
