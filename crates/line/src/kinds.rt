ghost use Rattle.std.specs.Prelude.{◌≡◌};
ghost use Rattle.line.specs.Fields.{commas_of, kind_in};

// The four kinds of lines.
#[derive(Clone, Copy, PartialEq, Eq, Debug)]
pub enum Kind {
    Motif,
    Rule,
    Boxes,
    Mark,
}

// A line without fault: its numbers, and the bytes of its other fields where they stand in the line.
#[derive(Clone, Copy, PartialEq, Eq, Debug)]
pub enum Line<'a> {
    Motif {
        name: &'a [u8],
        weight: u16,
        body: &'a [u8],
    },
    Rule {
        name: &'a [u8],
        net: &'a [u8],
    },
    Boxes {
        codes: &'a [u8],
    },
    Mark {
        name: &'a [u8],
        start: usize,
        end: usize,
    },
}

impl Kind {
    pub(crate) fn of(line: &[u8]) -> Option<Kind>
        ensures { result ≡ kind_in line.now }
    {
        match line {
            [b'm', b',', ..] => Some(Kind::Motif),
            [b'r', b',', ..] => Some(Kind::Rule),
            [b'b', b',', ..] => Some(Kind::Boxes),
            [b's', b',', ..] => Some(Kind::Mark),
            _ => None,
        }
    }

    pub(crate) fn commas(self) -> usize
        ensures { result ≡ commas_of self }
    {
        match self {
            Kind::Motif => 3,
            Kind::Rule => 2,
            Kind::Boxes => 1,
            Kind::Mark => 3,
        }
    }
}
