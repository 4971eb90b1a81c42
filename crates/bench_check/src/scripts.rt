//! The script of a job, found in the job's text and read again.
ghost use Rattle.bench_check.specs.Fitting as spec;
ghost use Rattle.bench_check.specs.Scripts.{script_in};
ghost use Rattle.job_file.specs.Lines.{said};
ghost use Rattle.job_file.specs.Spelled.{ChannelJob, spelled, is_script as is_script_line};
ghost use Rattle.std.specs.Prelude.{◌≡◌, None, Some, MatchOption, IfOk};

use crate::fitting::{Tight, tight_frames};
use bumpalo::Bump;
use frame_text::{ScriptError, parse};
use std::alloc::{AllocError, Global};
use text_lines::{next_word, split_line};

/// The frames with a period, in the script of a job's text, that may take longer than their period, as `tight_frames`
/// has them; none where the text has no script. The script's tree stands in an arena meanwhile. It fails for want of
/// memory alone.
pub fn tight_frames_in(alloc: Global, text: &[u8]) -> Result<Vec<Tight>, AllocError>
    ensures { IfOk result (λ l. (job : ChannelJob) → spelled text.now ≡ Some job
        → l.items ≡ spec.tight_frames job.tree) }
{
    let Some(script) = script_of(text) else {
        return Ok(Vec::new(alloc));
    };
    let arena = Bump::new(alloc);
    match parse(&arena, script) {
        Ok(frame) => tight_frames(alloc, &frame),
        Err(ScriptError::Text { .. }) => Ok(Vec::new(alloc)),
        Err(ScriptError::Memory { .. }) => Err(AllocError),
    }
}

/// What stands behind the first line `script` of a text.
fn script_of(text: &[u8]) -> Option<&[u8]>
    ensures { MatchOption result (script_in text.now ≡ None) (λ s. script_in text.now ≡ Some s.now) }
{
    let mut rest = text;
    while !rest.is_empty() {
        let (line, behind) = split_line(rest);
        if is_script(line) {
            return Some(behind);
        }
        rest = behind;
    }
    None
}

/// Whether a line has the word `script` alone.
#[tactic(auto, using(crate::proofs::Heads::is_none, crate::proofs::Heads::is_alone))]
fn is_script(line: &[u8]) -> bool
    ensures { result ≡ is_script_line (said line.now) }
{
    match next_word(line) {
        None => false,
        Some((word, rest)) => match next_word(rest) {
            None => word == b"script".as_slice(),
            Some(_) => false,
        },
    }
}
