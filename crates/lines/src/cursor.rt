// Bytes that are written over, from the front on.
ghost use Rattle.std.specs.Prelude.{◌≡◌, ◌+◌, ◌-◌, ◌≤◌, map, length, refl};
ghost use Rattle.lines.specs.Lines.{letter_byte};
ghost use Rattle.std.proofs.Common.{◌∙◌};

use crate::put::letter_byte;
use crate::sink::Sink;
use refusal::Refusal;
use walk::Letter;

#[derive(Drop)]
pub(crate) struct Cursor<'a> {
    pub(crate) out: &'a mut [u8],
    pub(crate) at: usize,
    ghost inside: { at ≤ length out.now },
}

fn write_letters(out: &mut [u8], letters: &[Letter])
    requires { length out.old ≡ length letters.now }
    ensures { out.new ≡ map letter_byte letters.now }
{
    for (k, letter) in letters.iter().enumerate() {
        out[k] = letter_byte(*letter);
    }
}

impl Sink for Cursor<'_> {
    ghost use Rattle.lines.specs.Fields.{Put};
    ghost use Rattle.lines.specs.Laws.{put_nothing, put-put, put_rest};

    ghost room = { λ s. length s.out.now - s.at };

    ghost took = { λ s text t. (t.out.ghost_name ≡ s.out.ghost_name) × Put s.at text s.out.now t.out.now t.at };

    fn put(&mut self, text: &[u8]) -> Result<(), Refusal> {
        if text.len() > self.out.len() - self.at {
            return Err(Refusal::ShortLine);
        }
        let end = self.at + text.len();
        self.out[self.at..end].copy_from_slice(text);
        self.at = end;
        Ok(())
    }

    fn put_letters(&mut self, letters: &[Letter]) -> Result<(), Refusal> {
        if letters.len() > self.out.len() - self.at {
            return Err(Refusal::ShortLine);
        }
        let end = self.at + letters.len();
        write_letters(&mut self.out[self.at..end], letters);
        self.at = end;
        Ok(())
    }

    ghost nothing = { λ s. (refl, put_nothing s.at s.out.now) };

    ghost both = { λ s t u a b p q. (q.0 ∙ p.0, put-put s.at t.at u.at a b s.out.now t.out.now u.out.now s.inside p.1 q.1) };

    ghost rest = { λ s t a p. put_rest s.at t.at a s.out.now t.out.now t.inside p.1 };
}
