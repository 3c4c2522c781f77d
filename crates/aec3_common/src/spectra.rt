// Spectra of 65 bands.
ghost use Rattle.std.specs.Prelude.{◌≡◌, ◌*◌, ◌==◌};
ghost use Rattle.aec3_common.specs.Spectra.{ends_copied, part as Spectra·part, sum as Spectra·sum};

// Whether so many numbers are `count` spectra. A product that is no usize is no slice's length.
pub fn are_spectra(numbers: usize, count: usize) -> bool
    ensures { result ≡ (numbers == count * 65) }
{
    count.checked_mul(65) == Some(numbers)
}

// A channel's 65 numbers: the part that begins at channel times 65. A slice that ends before gives what it has there.
pub fn part(spectra: &[f32], ch: usize) -> &[f32]
    ensures { result.now ≡ Spectra·part spectra.now ch }
{
    let from = ch.saturating_mul(65).min(spectra.len());
    let to = from.saturating_add(65).min(spectra.len());
    &spectra[from..to]
}

// Bands 0 and 64 copy 1 and 63.
pub fn copy_ends(s: &mut [f32; 65])
    ensures { s.new ≡ ends_copied s.old }
{
    let second = s[1];
    let second_last = s[63];
    s[0] = second;
    s[64] = second_last;
}

// The numbers added up in order, beginning at plus zero.
pub fn sum(xs: &[f32]) -> f32
    ensures { result ≡ Spectra·sum xs.now }
{
    xs.iter().fold(0.0, |total, &x| total + x)
}
