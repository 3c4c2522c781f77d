// Spectra reduced to their per-band greatest over some channels.
ghost use Rattle.std.specs.Prelude.{◌≡◌, ◌∷◌, suc, ◌*◌, ◌≤◌, ◌<◌, length, get_or, drop};
ghost use Rattle.std.specs.Float.{nan};
ghost use Rattle.aec3_common.specs.Lists.{tab};
ghost use Rattle.aec3_common.specs.Spectra.{flagged};
ghost use Rattle.aec3_common.specs.Binary32.{larger as Binary32·larger};
ghost use Rattle.erl_estimator.specs.Erl.{reduced};
ghost use Rattle.erl_estimator.specs.First.{first_from};

use aec3_common::entries::change;
use aec3_common::larger;
use aec3_common::spectra::part;

// The first converged channel, or that there is none: one walk that ends there. A loop with `break`, since the project asks for that form here.
pub fn first_converged(converged: &[bool]) -> Option<usize>
    ensures { result ≡ first_from 0 converged.now }
{
    let mut ch = 0;
    loop {
        if converged.len() <= ch {
            break None;
        }
        if converged[ch] {
            break Some(ch);
        }
        ch += 1;
    }
}

// Each band raised to another spectrum's, where that is above.
fn raise(s: &mut [f32; 65], other: &[f32])
    requires { length other.now ≡ 65 }
    ensures { s.new ≡ tab 65 (λ k. Binary32·larger (get_or s.old k nan) (get_or other.now k nan)) }
{
    change(s, 0, 65, |k, own| larger(own, other[k]));
}

// The greatest over the channels whose flag stands, of which first is the first.
pub fn reduced_from(spectra: &[f32], flags: &[bool], first: usize) -> [f32; 65]
    requires first_in_bounds { first < length flags.now }
    requires spectra_len { length spectra.now ≡ length flags.now * 65 }
    ensures { result ≡ reduced spectra.now (first ∷ flagged (suc first) (drop (suc first) flags.now)) }
{
    let mut r = [0.0; 65];
    r.copy_from_slice(part(spectra, first));
    // By an index: with `flags.iter().enumerate().skip(first + 1)` an update took 5 to 15 % more instructions.
    for ch in first + 1..flags.len() {
        if flags[ch] {
            raise(&mut r, part(spectra, ch));
        }
    }
    r
}

// The greatest over all channels, of which there are one or two. The count is the caller's, which the call was judged by: from the length it
// would be a division here and in the clauses, and the caller would have to prove that it is the same.
pub fn all_reduced(spectra: &[f32], channels: usize) -> [f32; 65]
    requires channels_nonzero { (0 < channels) × (channels ≤ 2) }
    requires spectra_len { length spectra.now ≡ channels * 65 }
    ensures { result ≡ reduced spectra.now (tab channels (λ ch. ch)) }
{
    let flags = [true; 2];
    reduced_from(spectra, &flags[..channels], 0)
}
