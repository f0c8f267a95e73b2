// A small machine that takes a note apart, a byte at a time: it matches its own step together with the next byte,
// a form that is wanted (docs/DECISIONS.md). So the octave stands beside the step, and counts once that is past the name.
ghost use Rattle.std.specs.Prelude.{◌≡◌, ◌<◌, ◌≤◌, length};
ghost use Rattle.names.specs.Scanned.{start, stepped, scanned, struck};

// The part of the note that was read last.
#[derive(Clone, Copy)]
pub enum Part {
    Name,
    Octave,
    Stroke,
    Length,
    Amiss,
}

#[derive(Clone, Copy)]
pub struct NoteReader {
    pub part: Part,
    // how many bytes the name has
    pub name: usize,
    pub octave: u8,
}

impl NoteReader {
    fn next(&mut self, byte: u8)
        requires { self.old.name < 64 }
        ensures { self.new ≡ stepped self.old byte }
    {
        match (self.part, byte) {
            (Part::Name, b'0'..=b'9') => {
                self.part = Part::Octave;
                self.octave = byte - b'0';
            }
            (Part::Name, _) => self.name += 1,
            (Part::Octave, b'/') => self.part = Part::Stroke,
            (Part::Octave, _) => self.part = Part::Amiss,
            (Part::Stroke | Part::Length, _) => self.part = Part::Length,
            (Part::Amiss, _) => {}
        }
    }

    // Whether the octave and the stroke were read, so that the rest is the length.
    pub fn is_struck(&self) -> bool
        ensures { result ≡ struck self.now.part }
    {
        matches!(self.part, Part::Stroke | Part::Length)
    }
}

pub(crate) fn scan(bytes: &[u8]) -> NoteReader
    requires { length bytes.now ≤ 64 }
    ensures { result ≡ scanned start bytes.now }
{
    let mut reader = NoteReader {
        part: Part::Name,
        name: 0,
        octave: 0,
    };
    for byte in bytes {
        reader.next(*byte);
    }
    reader
}
