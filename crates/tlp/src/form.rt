// The forms of a header, each by its first byte.
ghost use Rattle.std.specs.Prelude.{◌≡◌};
ghost use Rattle.rules.specs.Tlp as rule;
ghost use Rattle.tlp.specs.Form.{byte_of, form_of};

// Memory reads and writes have a short header, of 12 bytes, or a long one, of 16.
#[derive(Clone, Copy, Debug, PartialEq, Eq)]
pub enum Form {
    ShortRead = 0x00,
    LongRead = 0x20,
    ShortWrite = 0x40,
    LongWrite = 0x60,
    Completion = 0x0A,
    DataCompletion = 0x4A,
}

// A first byte that no form has.
#[derive(Clone, Copy, Debug, PartialEq, Eq)]
pub struct UnknownForm(pub u8);

impl TryFrom<u8> for Form {
    type Error = UnknownForm;

    ghost try_from_gives = { λ byte form. form ≡ form_of byte };

    fn try_from(byte: u8) -> Result<Self, UnknownForm> {
        match byte {
            0x00 => Ok(Form::ShortRead),
            0x20 => Ok(Form::LongRead),
            0x40 => Ok(Form::ShortWrite),
            0x60 => Ok(Form::LongWrite),
            0x0A => Ok(Form::Completion),
            0x4A => Ok(Form::DataCompletion),
            _ => Err(UnknownForm(byte)),
        }
    }
}

// A test for each kind of form, and the two lengths, in the documents' words.
impl Form {
    // A memory read.
    pub fn is_read(self) -> bool
        ensures { result ≡ rule.is_read (byte_of self) }
    {
        matches!(self, Form::ShortRead | Form::LongRead)
    }

    // A memory write.
    pub fn is_write(self) -> bool
        ensures { result ≡ rule.is_write (byte_of self) }
    {
        matches!(self, Form::ShortWrite | Form::LongWrite)
    }

    pub fn is_request(self) -> bool
        ensures { result ≡ rule.is_request (byte_of self) }
    {
        self.is_read() || self.is_write()
    }

    pub fn is_completion(self) -> bool
        ensures { result ≡ rule.is_completion (byte_of self) }
    {
        matches!(self, Form::Completion | Form::DataCompletion)
    }

    // A header of 16 bytes, with a 64-bit address.
    pub fn is_long(self) -> bool
        ensures { result ≡ rule.is_long (byte_of self) }
    {
        matches!(self, Form::LongRead | Form::LongWrite)
    }

    pub fn header_length(self) -> usize
        ensures { result ≡ rule.header_length (byte_of self) }
    {
        if self.is_long() { 16 } else { 12 }
    }

    pub fn address_bytes(self) -> usize
        ensures { result ≡ rule.address_bytes (byte_of self) }
    {
        if self.is_long() { 8 } else { 4 }
    }
}
