// Reading typed texts into a book.
ghost use Rattle.std.specs.Prelude.{◌≡◌, true, length, None};
ghost use Rattle.names.specs.Tokens.{malformed, syllabled, sung, lasting};
ghost use Rattle.labels.specs.Spellings.{rest_spelling, syllable_spelling};
ghost use Rattle.names.specs.Heard.{said};
ghost use Rattle.book.specs.Words.{word};
ghost use Rattle.book.specs.States.{Took};
ghost use Rattle.book.specs.Readings.{spelled_in, note_in, word_of, told_answer, untold, faulted, after_told, read_answer, after_read, Reads};
ghost use Rattle.book.specs.Books.{held};

use crate::books::{Book, Taking};
use crate::readings::Reading;
use labels::{Bare, FrameLabel, Label, RestLabel, SoundingNote, SyllableLabel, WrittenNote};
use names::{Fault, Note, Placed, Reader, Refusal, Token};
use registers::Register;

impl<R: Register> Book<R, Taking> {
    // Takes the words of a text in turn, up to the first fault, and tells how many they are.
    pub fn read(&mut self, reading: Reading, text: &[u8]) -> Result<u32, Fault>
        ensures answer { result ≡ read_answer (held self.old) reading text.now }
        ensures after { held self.new ≡ after_read (held self.old) reading text.now }
        ensures reads { Reads (held self.old) (held self.new) reading text.now result }
    {
        let before = self.words();
        let mut reader = Reader::over(text)?;
        while let Some(placed) = reader.next_token()? {
            self.take_placed(reading, &placed)?;
        }
        Ok(self.words() - before)
    }

    // Takes the word that a token tells, if it tells one, or says at which byte it is refused.
    fn take_placed(&mut self, reading: Reading, placed: &Placed) -> Result<(), Fault>
        requires { malformed (said placed.now.token) ≡ None }
        ensures answer { result ≡ faulted placed.now.byte (untold (told_answer (held self.old) (word_of reading (said placed.now.token)))) }
        ensures after { held self.new ≡ after_told (held self.old) (word_of reading (said placed.now.token)) }
    {
        let byte = placed.byte;
        self.take_token(reading, &placed.token)
            .map_err(|refusal| Fault { refusal, byte })
    }

    // Takes the word that a token tells, if it tells one. What the functions below answer is dropped here, since a reading tells neither groups nor starts.
    fn take_token(&mut self, reading: Reading, token: &Token) -> Result<(), Refusal>
        requires { malformed (said token.now) ≡ None }
        ensures answer { result ≡ untold (told_answer (held self.old) (word_of reading (said token.now))) }
        ensures after { held self.new ≡ after_told (held self.old) (word_of reading (said token.now)) }
    {
        match token {
            Token::Naming(_) => return Ok(()),
            Token::Syllable(bytes) => self.take_syllable(reading, bytes)?,
            Token::Note(note) => self.take_note(reading, note)?,
            Token::Rest { length } => self.take_rest(reading, *length)?,
            Token::Frame { keyword, rank } => {
                self.take_as(reading, &FrameLabel::new(*keyword), *rank)?
            }
        };
        Ok(())
    }

    // Takes a syllable, which borrows its bytes from the text.
    // It answers as `take` does, and so do the next three: `Took` is said of that answer.
    fn take_syllable(&mut self, reading: Reading, bytes: &[u8]) -> Result<(u32, u32), Refusal>
        requires { syllabled bytes.now ≡ true }
        ensures { Took (held self.old) (held self.new) (word 0 (spelled_in reading (syllable_spelling bytes.now))) result }
    {
        self.take_as(reading, &SyllableLabel::new(bytes).unwrap(), 0)
    }

    // Takes a note as it is written, as it sounds, or bare.
    fn take_note(&mut self, reading: Reading, note: &Note) -> Result<(u32, u32), Refusal>
        requires { sung note.now.octave note.now.length ≡ true }
        ensures { Took (held self.old) (held self.new) (word 0 (note_in reading note.now.pitch note.now.octave note.now.length)) result }
    {
        let Note {
            pitch,
            octave,
            length,
            ..
        } = *note;
        match reading {
            Reading::Written => self.take(&WrittenNote::new(pitch, octave, length).unwrap(), 0),
            Reading::Sounding => self.take(&SoundingNote::new(pitch, octave, length).unwrap(), 0),
            Reading::Bare => self.take(&Bare, 0),
        }
    }

    // Takes a rest.
    fn take_rest(&mut self, reading: Reading, length: u8) -> Result<(u32, u32), Refusal>
        requires { lasting length ≡ true }
        ensures { Took (held self.old) (held self.new) (word 0 (spelled_in reading (rest_spelling length))) result }
    {
        self.take_as(reading, &RestLabel::new(length).unwrap(), 0)
    }

    // Takes a word with its label, or with none where the reading is bare. Label and rank go to `take` apart, and come so.
    fn take_as<L: Label>(
        &mut self,
        reading: Reading,
        label: &L,
        rank: u8,
    ) -> Result<(u32, u32), Refusal>
        ensures { Took (held self.old) (held self.new) (word rank (spelled_in reading (L.spelling label.now))) result }
    {
        match reading {
            Reading::Bare => self.take(&Bare, rank),
            Reading::Written | Reading::Sounding => self.take(label, rank),
        }
    }
}
