// Text stored into a lent buffer. What does not fit is cut off: no function here has a condition.
#![tactic(auto)]

ghost use Rattle.std.specs.Prelude.{◌≡◌, [], take};
ghost use Rattle.rules.specs.Lines.{decimal, field};
ghost use Rattle.text.specs.Stored.{Put, out_at};

// Text stored into a lent buffer, behind what is stored already. What does not fit is cut off.
#[derive(Drop)]
pub struct Out<'a> {
    bytes: &'a mut [u8],
    place: usize,
}

impl<'a> Out<'a> {
    // At the start of a buffer.
    pub fn new(bytes: &'a mut [u8]) -> Out<'a>
        ensures { result ≡ out_at bytes.entry 0 }
    {
        Out { bytes, place: 0 }
    }

    // Behind what a caller has stored up to a place.
    pub fn at(bytes: &'a mut [u8], place: usize) -> Out<'a>
        ensures { result ≡ out_at bytes.entry place }
    {
        Out { bytes, place }
    }

    // The place behind what is stored.
    pub fn place(&self) -> usize
        ensures { result ≡ self.now.place }
    {
        self.place
    }

    // What is stored.
    pub fn stored(&self) -> &[u8]
        ensures { result.now ≡ take self.now.place self.now.bytes.now }
    {
        &self.bytes[..self.place.min(self.bytes.len())]
    }

    // Begins again at the start of the buffer.
    pub fn clear(&mut self)
        ensures { self.new ≡ out_at self.old.bytes 0 }
    {
        self.place = 0;
    }

    // Stores a text.
    pub fn text(&mut self, text: &[u8])
        ensures { Put self.old text.now self.new }
    {
        let size = self.bytes.len();
        if size <= self.place {
            self.place = size;
            return;
        }
        let start = self.place;
        let n = text.len().min(size - start);
        for j in 0..n {
            self.bytes[start + j] = text[j];
        }
        self.place = start + n;
    }

    // Stores no text: the place stays, or is the end of the buffer where that comes first.
    pub fn nothing(&mut self)
        ensures { Put self.old [] self.new }
    {
        self.place = self.place.min(self.bytes.len());
    }

    // A number in decimal.
    pub fn decimal(&mut self, n: u64)
        ensures { Put self.old (decimal n) self.new }
    {
        let mut digits = [0u8; 20];
        let k = io::decimal(n, &mut digits);
        self.text(&digits[..k]);
    }

    // A number with a blank behind it.
    pub fn field(&mut self, n: u64)
        ensures { Put self.old (field n) self.new }
    {
        self.decimal(n);
        self.text(b" ");
    }

    // A byte's number with a blank behind it.
    pub fn byte(&mut self, b: u8)
        ensures { Put self.old (field b) self.new }
    {
        self.field(b as u64);
    }

    // A byte's number.
    pub fn small(&mut self, b: u8)
        ensures { Put self.old (decimal b) self.new }
    {
        self.decimal(b as u64);
    }
}
