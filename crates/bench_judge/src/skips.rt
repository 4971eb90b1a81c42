//! Where a damaged recording's sound bytes stand in its file.
ghost use Rattle.bench_judge.specs.Skips as spec;
ghost use Rattle.ch11_reader.specs.Skipping.{skips_in};
ghost use Rattle.ch11_stream.specs.Feeding.{IsOther};
ghost use Rattle.ch11_stream.specs.WholeStretches.{skipped_among};
ghost use Rattle.std.specs.Prelude.{◌≡◌, ◌++◌, ◌∷◌, [], ℕ, List, Some, IfOk, IfErr, OnOk};

use ch11_reader::Skip;
use ch11_stream::{StreamFault, Stretch, Stretches};
use std::alloc::{AllocError, Global};
use std::io::Read;

/// Where a sound byte stands in the file of which these bytes were skipped.
pub(crate) fn file_place(skips: &[Skip], offset: usize) -> usize
    ensures { result ≡ spec.file_place skips.now offset }
{
    let mut place = offset;
    let mut rest = skips;
    'skips: while let Some((skip, others)) = rest.split_first() {
        if skip.offset > place {
            return place;
        }
        place = place.saturating_add(skip.length);
        rest = others;
    }
    place
}

/// Keeps a stretch that was skipped.
fn keep_skip(skips: &mut Vec<Skip>, stretch: &Stretch) -> Result<(), AllocError>
    ensures { OnOk result (skips.new.items ≡ skips.old.items ++ skipped_among (stretch.now ∷ [])) }
{
    if let Stretch::Skipped(skip) = stretch {
        skips.push(*skip)?;
    }
    Ok(())
}

/// The bytes that are skipped of all that a reader has left, a recording that may be damaged. The fault is want of
/// memory or the reader's failure.
pub fn read_skips<R: Read + Drop>(alloc: Global, input: R) -> Result<Vec<Skip>, StreamFault>
    ensures found { (file : List ℕ) → R.remaining input ≡ Some file
        → IfOk result (λ skips. skips.items ≡ skips_in file) }
    ensures failed { IfErr result IsOther }
{
    let mut stretches = Stretches::over(alloc, input)?;
    let mut skips = Vec::new(alloc);
    'stretches: for _made in 0..u64::MAX {
        match stretches.next() {
            Ok(Some(stretch)) => keep_skip(&mut skips, &stretch)?,
            Ok(None) => return Ok(skips),
            Err(fault) => return Err(fault),
        }
    }
    Err(StreamFault::Device)
}
