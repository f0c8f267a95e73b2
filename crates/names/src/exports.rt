// Name reading and writing by plain numbers and bytes, for programs in C, which link the crate `names_c`.
// Each answers 0, or the refusal's number, as a program in C wants it.
ghost use Rattle.std.specs.Prelude.{◌≡◌};
ghost use Rattle.std.specs.Option.{ok_or};
ghost use Rattle.names.specs.declared.refusals.Refusal.TheVariants.{OutOfRange};
ghost use Rattle.names.specs.Numbered.{code, step_or, alteration_or, count_or, read_in, pitch_of, written_in, buffer_in};
ghost use Rattle.names.specs.Pitches.{naming_numbered, step_numbered, alteration_numbered};

use crate::pitches::{Alteration, Naming, Pitch, Step};
use crate::refusals::Refusal;
use crate::spellings::{read_name, write_name};

pub fn zoepurd_read_name(naming: u8, name: &[u8], step: &mut u8, alteration: &mut i8) -> u8
    ensures answer { result ≡ code (read_in (naming_numbered naming) name.now) }
    ensures step { step.new ≡ step_or (read_in (naming_numbered naming) name.now) step.old }
    ensures alteration { alteration.new ≡ alteration_or (read_in (naming_numbered naming) name.now) alteration.old }
{
    match read_numbered(naming, name) {
        Ok(pitch) => {
            *step = pitch.step.into();
            *alteration = pitch.alteration.into();
            0
        }
        Err(refusal) => refusal.number(),
    }
}

fn read_numbered(naming: u8, name: &[u8]) -> Result<Pitch, Refusal>
    ensures { result ≡ read_in (naming_numbered naming) name.now }
{
    read_name(Naming::try_from(naming)?, name)
}

pub fn zoepurd_write_name(
    naming: u8,
    step: u8,
    alteration: i8,
    out: &mut [u8],
    count: &mut usize,
) -> u8
    ensures answer { result ≡ code (written_in (naming_numbered naming) (pitch_of (step_numbered step) (alteration_numbered alteration)) out.old) }
    ensures count { count.new ≡ count_or (written_in (naming_numbered naming) (pitch_of (step_numbered step) (alteration_numbered alteration)) out.old) count.old }
    ensures after { out.new ≡ buffer_in (naming_numbered naming) (pitch_of (step_numbered step) (alteration_numbered alteration)) out.old }
{
    match write_numbered(naming, step, alteration, out) {
        Ok(written) => {
            *count = written;
            0
        }
        Err(refusal) => refusal.number(),
    }
}

fn write_numbered(naming: u8, step: u8, alteration: i8, out: &mut [u8]) -> Result<usize, Refusal>
    ensures count { result ≡ written_in (naming_numbered naming) (pitch_of (step_numbered step) (alteration_numbered alteration)) out.old }
    ensures after { out.new ≡ buffer_in (naming_numbered naming) (pitch_of (step_numbered step) (alteration_numbered alteration)) out.old }
{
    let naming = Naming::try_from(naming)?;
    let pitch = pitch_numbered(step, alteration)?;
    write_name(naming, pitch, out)
}

fn pitch_numbered(step: u8, alteration: i8) -> Result<Pitch, Refusal>
    ensures { result ≡ ok_or (pitch_of (step_numbered step) (alteration_numbered alteration)) OutOfRange }
{
    Ok(Pitch {
        step: Step::try_from(step)?,
        alteration: Alteration::try_from(alteration)?,
    })
}
