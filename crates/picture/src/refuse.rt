// Row 12: samples above the depth's limit.
ghost use Rattle.std.specs.Prelude.{◌≡◌, true, length};
ghost use Rattle.picture.specs.Rebuild.{Below, SamplesChecked};

use refusal::Refusal;

// `true` only where every sample is at most the largest. One pass with no way out, so that the compiler takes several at a time.
fn all_below(top: u16, samples: &[u16]) -> bool
    ensures { result ≡ true → Below top (length samples.now) samples.now }
{
    let mut bits: u16 = 0;
    for sample in samples {
        bits |= *sample;
    }
    bits <= top
}

// What `check_samples` tests, sample by sample.
fn check_each(top: u16, samples: &[u16]) -> Result<(), Refusal>
    ensures { SamplesChecked top samples.now result }
{
    for (i, sample) in samples.iter().enumerate() {
        refusal::check(top < *sample, Refusal::SampleOutside(i))?;
    }
    Ok(())
}

// Row 12: the first sample that is above the largest.
pub(crate) fn check_samples(top: u16, samples: &[u16]) -> Result<(), Refusal>
    ensures { SamplesChecked top samples.now result }
{
    if all_below(top, samples) {
        return Ok(());
    }
    check_each(top, samples)
}
