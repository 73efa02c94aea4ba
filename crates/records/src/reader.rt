// The reader: a sheet file, and how far it is read.
ghost use Rattle.std.specs.Prelude.{◌≡◌, ◌≤◌, length};

mod read;

// A sheet file and the offset of its next record, which never passes the file's end.
#[derive(Drop)]
pub struct Reader<'a> {
    src: &'a [u8],
    pos: usize,
    ghost inside: { pos ≤ length src.now },
}

impl<'a> Reader<'a> {
    // A reader at the first record. It refuses nothing yet.
    pub fn new(src: &'a [u8]) -> Reader<'a>
        ensures source { result.src.now ≡ src.now }
        ensures position { result.pos ≡ 0 }
    {
        Reader { src, pos: 0 }
    }

    // The offset of the next record.
    pub fn position(&self) -> usize
        ensures { result ≡ self.now.pos }
    {
        self.pos
    }
}
