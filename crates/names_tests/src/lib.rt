// Examples and limits of the library `names`.
#![tactic(auto)]

use names::{Fault, Reader};

// How many tokens the text has, or its first fault.
pub fn read_all(text: &[u8]) -> Result<usize, Fault> {
    let mut reader = Reader::over(text)?;
    let mut tokens: usize = 0;
    while reader.next_token()?.is_some() {
        tokens = tokens.saturating_add(1);
    }
    Ok(tokens)
}

#[cfg(test)]
mod tests {
    use super::*;
    use names::{
        Alteration, Keyword, Layer, Naming, Note, Pitch, Refusal, Step, Token, read_name,
        read_token, write_name, write_token,
    };
    use std::test::Fail;

    // A text, and the number of its tokens, or the number and the byte of its fault.
    type Case = (&'static [u8], Result<usize, (u8, usize)>);

    const CASES: [Case; 34] = [
        (b"", Ok(0)),
        (b" \n ", Ok(0)),
        (b"H4/4", Err((13, 0))),
        (b"german Hes4/4", Err((22, 7))),
        (b"english H4/4", Err((22, 8))),
        (b"german H4/4 B4/4", Ok(3)),
        (b"german Bis4/4", Err((22, 7))),
        (b"german Asas4/4", Err((22, 7))),
        (b"english C4", Err((23, 8))),
        (b"english C", Err((23, 8))),
        (b"english Cx", Err((22, 8))),
        (b"english C4/4x", Err((23, 8))),
        (b"english C44/4", Err((23, 8))),
        (b"english C9/64", Ok(2)),
        (b"english C9/65", Err((23, 8))),
        (b"english\nC4/4\n", Ok(2)),
        (b"r/65", Err((23, 0))),
        (b"r/64", Ok(1)),
        (b"r/0", Err((23, 0))),
        (b"r/04", Err((23, 0))),
        (b"r/", Err((23, 0))),
        (b"bar:256", Err((12, 0))),
        (b"bar:255", Ok(1)),
        (b"bar:0 bar:0", Ok(2)),
        (b"bar:0 bar:01", Err((12, 6))),
        (b"bar", Err((12, 0))),
        (b"bar:", Err((12, 0))),
        (b"r", Err((12, 0))),
        (b"\"\"", Err((12, 0))),
        (b"\"la\"", Ok(1)),
        (b"\"l\"a\"", Err((12, 0))),
        (b"\"123456789012345678901234567890\"", Ok(1)),
        (b"\"1234567890123456789012345678901\"", Err((12, 0))),
        (b"germanx", Err((12, 0))),
    ];

    fn ended(text: &[u8]) -> Result<usize, (u8, usize)> {
        read_all(text).map_err(|fault| (fault.number(), fault.byte))
    }

    #[test]
    fn texts_end_as_they_should(rt: HostRuntime) {
        for (text, wanted) in CASES {
            assert_eq!(rt; ended(text), wanted);
        }
    }

    #[test]
    fn lengths_at_their_limits(rt: HostRuntime) -> Result<(), Fail> {
        let heap = rt.alloc();
        let token = vec![in heap; b'x'; 64]?;
        assert_eq!(rt; ended(&token), Err((12, 0)));
        let token = vec![in heap; b'x'; 65]?;
        assert_eq!(rt; ended(&token), Err((11, 0)));
        let text = vec![in heap; b' '; 65_536]?;
        assert_eq!(rt; ended(&text), Ok(0));
        let text = vec![in heap; b' '; 65_537]?;
        assert_eq!(rt; ended(&text), Err((10, 0)));
        Ok(())
    }

    #[test]
    fn h_is_never_b_flat(rt: HostRuntime) {
        let natural = Pitch {
            step: Step::B,
            alteration: Alteration::Natural,
        };
        let flat = Pitch {
            step: Step::B,
            alteration: Alteration::Flat,
        };
        assert!(rt; read_name(Naming::German, b"H") == Ok(natural));
        assert!(rt; read_name(Naming::German, b"B") == Ok(flat));
        assert!(rt; read_name(Naming::English, b"B") == Ok(natural));
        assert!(rt; read_name(Naming::English, b"Bb") == Ok(flat));
        assert!(rt; read_name(Naming::English, b"H") == Err(Refusal::UnknownName));
    }

    #[test]
    fn a_name_fills_its_buffer(rt: HostRuntime) {
        let pitch = Pitch {
            step: Step::B,
            alteration: Alteration::DoubleFlat,
        };
        let mut out = [b'.'; 6];
        assert!(rt; write_name(Naming::German, pitch, &mut out) == Ok(5));
        assert!(rt; out == *b"Heses.");
        let mut short = [b'.'; 4];
        assert!(rt;
            write_name(Naming::German, pitch, &mut short) == Err(Refusal::NameBufferTooShort)
        );
        assert!(rt; short == *b"....");
        assert!(rt; Refusal::NameBufferTooShort.layer() == Layer::Name);
        assert!(rt; Refusal::BufferTooShort.layer() == Layer::Sheet);
    }

    #[test]
    fn a_token_is_written_in_its_place(rt: HostRuntime) {
        let pitch = Pitch {
            step: Step::F,
            alteration: Alteration::Sharp,
        };
        let note = Token::Note(Note {
            name: b"F#",
            pitch,
            octave: 4,
            length: 64,
        });
        let mut out = [b'.'; 9];
        assert!(rt; write_token(Naming::German, &note, &mut out, 1) == Ok(8));
        assert!(rt; out == *b".Fis4/64.");
        assert!(rt;
            write_token(Naming::German, &note, &mut out, 3) == Err(Refusal::BufferTooShort)
        );
        assert!(rt; out == *b".Fis4/64.");
        let frame = Token::Frame {
            keyword: Keyword::Alto1,
            rank: 255,
        };
        assert!(rt; write_token(Naming::English, &frame, &mut out, 0) == Ok(9));
        assert!(rt; out == *b"alto1:255");
    }

    #[test]
    fn what_cannot_be_typed_is_not_written(rt: HostRuntime) {
        let mut out = [b'.'; 40];
        let rest = Token::Rest { length: 65 };
        assert!(rt;
            write_token(Naming::English, &rest, &mut out, 0) == Err(Refusal::BadOctaveOrLength)
        );
        let spaced = Token::Syllable(b"a b");
        assert!(rt; write_token(Naming::English, &spaced, &mut out, 0) == Err(Refusal::NotOfForm));
        assert!(rt; out == [b'.'; 40]);
        assert!(rt; read_token(Some(Naming::English), b"\"a b\"").is_err());
    }
}
