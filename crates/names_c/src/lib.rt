// What programs in C link: the functions of `names::exports` under their C names, one for one. They are said twice, since a
// crate is a library for Rattle or an archive for C, and not both.
#![tactic(auto)]

ghost use Rattle.std.specs.Prelude.{◌≡◌};
ghost use Rattle.names.specs.Numbered.{code, step_or, alteration_or, count_or, read_in, pitch_of, written_in, buffer_in};
ghost use Rattle.names.specs.Pitches.{naming_numbered, step_numbered, alteration_numbered};

use names::exports;

#[unsafe(no_mangle)]
pub extern "C" fn zoepurd_read_name(
    naming: u8,
    name: &[u8],
    step: &mut u8,
    alteration: &mut i8,
) -> u8
    ensures answer { result ≡ code (read_in (naming_numbered naming) name.now) }
    ensures step { step.new ≡ step_or (read_in (naming_numbered naming) name.now) step.old }
    ensures alteration { alteration.new ≡ alteration_or (read_in (naming_numbered naming) name.now) alteration.old }
{
    exports::zoepurd_read_name(naming, name, step, alteration)
}

#[unsafe(no_mangle)]
pub extern "C" fn zoepurd_write_name(
    naming: u8,
    step: u8,
    alteration: i8,
    out: &mut [u8],
    count: &mut usize,
) -> u8
    ensures answer { result ≡ code (written_in (naming_numbered naming) (pitch_of (step_numbered step) (alteration_numbered alteration)) out.old) }
    ensures count { count.new ≡ count_or (written_in (naming_numbered naming) (pitch_of (step_numbered step) (alteration_numbered alteration)) out.old) count.old }
    ensures after { out.new ≡ buffer_in (naming_numbered naming) (pitch_of (step_numbered step) (alteration_numbered alteration)) out.old }
{
    exports::zoepurd_write_name(naming, step, alteration, out, count)
}
