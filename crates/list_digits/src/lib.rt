// Text put into a lent run of bytes: words, numbers and bytes, each with one byte behind it. Each method is told that there is room.
// Not by `write!`: that answers a Result, and no contract of std says that it is Ok where there is room.
#![tactic(auto)]

ghost use Rattle.std.specs.Prelude.{◌≡◌, [], ◌∷◌, ◌++◌, ◌+◌, ◌*◌, ◌≤◌, ◌<◌, length};
ghost use Rattle.io.specs.Digits.{hex_digit_ascii as Digits·glyph};
ghost use Rattle.list_digits.specs.Digits.{decimal, hex, Room, Puts};

// What is lent, and how much of it has text.
#[derive(Drop)]
pub struct Text<'a> {
    pub out: &'a mut [u8],
    pub at: usize,
}

// `char::from_digit` answers an Option of a char, and what takes the byte out of it is longer than this.
fn glyph(d: u8) -> u8
    requires { d < 16 }
    ensures { result ≡ Digits·glyph d }
{
    if d < 10 { 48 + d } else { 87 + d }
}

impl Text<'_> {
    pub fn put_word(&mut self, word: &[u8], end: u8)
        requires { Room (length word.now + 1) self.old }
        ensures { Puts (length word.now + 1) self.old (word.now ++ (end ∷ [])) self.new }
    {
        let behind = self.at + word.len();
        self.out[self.at..behind].copy_from_slice(word);
        self.out[behind] = end;
        self.at = behind + 1;
    }

    pub fn put_number(&mut self, n: u64, end: u8)
        requires { Room 21 self.old }
        ensures { Puts 21 self.old (decimal n ++ (end ∷ [])) self.new }
    {
        let mut text = [0u8; 20];
        let k = io::decimal(n, &mut text);
        self.put_word(&text[..k], end);
    }

    // Two digits for each byte.
    pub fn put_hex(&mut self, digest: &[u8], end: u8)
        requires { Room (2 * length digest.now + 1) self.old }
        ensures { Puts (2 * length digest.now + 1) self.old (hex digest.now ++ (end ∷ [])) self.new }
    {
        for &b in digest {
            self.out[self.at] = glyph(b / 16);
            self.out[self.at + 1] = glyph(b % 16);
            self.at += 2;
        }
        self.out[self.at] = end;
        self.at += 1;
    }
}
