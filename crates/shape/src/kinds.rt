// The kinds of bytes that shapes tell apart.
ghost use Rattle.std.specs.Prelude.{◌≡◌};
ghost use Rattle.shape.specs.Kinds.{kind_of};

#[derive(Clone, Copy)]
pub enum Kind {
    Space,
    Star,
    Dot,
    Open,
    Shut,
    Less,
    More,
    Numeral,
    Letter,
    Other,
}

impl From<u8> for Kind {
    ghost from_gives = { λ b k. k ≡ kind_of b };

    fn from(byte: u8) -> Kind {
        match byte {
            b' ' => Kind::Space,
            b'*' => Kind::Star,
            b'.' => Kind::Dot,
            b'[' => Kind::Open,
            b']' => Kind::Shut,
            b'<' => Kind::Less,
            b'>' => Kind::More,
            b'0'..=b'9' | b'-' => Kind::Numeral,
            b'a'..=b'z' | b'A'..=b'Z' => Kind::Letter,
            _ => Kind::Other,
        }
    }
}
