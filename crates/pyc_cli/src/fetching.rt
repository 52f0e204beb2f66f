//! The gets of the commands.
ghost use Rattle.std.specs.Prelude.{◌≡◌, IfSome, MatchResult, ℕ};
ghost use Rattle.outside_io.specs.Names.{cut};
ghost use Rattle.pyc_cli.specs.Stages.{GetKeeps, Misses};
ghost use Rattle.pyc_cli.specs.Told.{image_asked, source_asked};
ghost use Rattle.pyc_cli.specs.View.{close_of};

use crate::outcome::Outcome;
use outside_io::{Bytes, Got, Store};

/// How many bytes of a source are asked for: one more than it may have.
const SOURCE_ASKED: usize = 1_048_577;

/// How many bytes of an image are asked for: one more than the longest has.
const IMAGE_ASKED: usize = 469_762_089;

/// Gets the first bytes of what a name holds, at most `limit`; else what the command comes to.
fn fetch<'a, F: Store>(files: &mut F, name: &'a str, limit: usize) -> Result<Bytes, Outcome<'a>>
    ensures found { MatchResult result (λ bytes. IfSome (F.kept files.old).names (λ n. cut limit (n name.now) ≡ Some bytes.items)) (λ outcome. Misses limit name.now (F.kept files.old) (F.kept files.new) (close_of outcome)) }
    ensures keeps { GetKeeps (F.kept files.old) (F.kept files.new) }
{
    match files.get(name, limit) {
        Got::Bytes(bytes) => Ok(bytes),
        Got::Absent => Err(Outcome::Absent(name)),
        Got::Failed => Err(Outcome::ReadFault),
        Got::Memory => Err(Outcome::Memory),
    }
}

/// Gets what a name holds, of which enough to tell a source from what is longer than any; else what
/// the command comes to.
pub fn fetch_source<'a, F: Store>(files: &mut F, name: &'a str) -> Result<Bytes, Outcome<'a>>
    ensures found { MatchResult result (λ bytes. IfSome (F.kept files.old).names (λ n. cut source_asked (n name.now) ≡ Some bytes.items)) (λ outcome. Misses source_asked name.now (F.kept files.old) (F.kept files.new) (close_of outcome)) }
    ensures keeps { GetKeeps (F.kept files.old) (F.kept files.new) }
{
    fetch(files, name, SOURCE_ASKED)
}

/// Gets what a name holds, of which enough to tell an image from what is longer than any; else what
/// the command comes to.
#[tactic(auto, unfolding(crate::specs::Told::image_asked))]
pub fn fetch_image<'a, F: Store>(files: &mut F, name: &'a str) -> Result<Bytes, Outcome<'a>>
    ensures found { MatchResult result (λ bytes. IfSome (F.kept files.old).names (λ n. cut image_asked (n name.now) ≡ Some bytes.items)) (λ outcome. Misses image_asked name.now (F.kept files.old) (F.kept files.new) (close_of outcome)) }
    ensures keeps { GetKeeps (F.kept files.old) (F.kept files.new) }
{
    fetch(files, name, IMAGE_ASKED)
}
