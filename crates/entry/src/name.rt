ghost use Rattle.std.specs.Prelude.{◌≡◌, true};
ghost use Rattle.entry.specs.Names.{is_name};
ghost use Rattle.few.specs.Few.{entries};

use few::Few;

// What a motif or a rule is called: 1 to 8 letters a to z.
#[derive(Clone, Copy)]
pub struct Name {
    pub(crate) letters: Few<u8, 8>,
    ghost named: { is_name (entries letters) ≡ true },
}
