// Room that is counted.
ghost use Rattle.std.specs.Prelude.{◌≡◌, ◌+◌, length};
ghost use Rattle.std.proofs.Common.{rules};
ghost use Rattle.std.proofs.lemmas.Grind.{common_steps};

use crate::sink::Sink;
use refusal::Refusal;
use walk::Letter;

#[derive(Drop)]
pub(crate) struct Room {
    pub(crate) left: usize,
}

impl Sink for Room {
    ghost room = { λ s. s.left };

    ghost took = { λ s text t. t.left + length text ≡ s.left };

    fn put(&mut self, text: &[u8]) -> Result<(), Refusal> {
        self.left = self.left.checked_sub(text.len()).ok_or(Refusal::ShortLine)?;
        Ok(())
    }

    fn put_letters(&mut self, letters: &[Letter]) -> Result<(), Refusal> {
        self.left = self
            .left
            .checked_sub(letters.len())
            .ok_or(Refusal::ShortLine)?;
        Ok(())
    }

    ghost nothing = { Prim.search rules };

    ghost both = { Prim.search (rules, common_steps) };

    ghost rest = { λ s t a p. p };
}
