// Where a refusal comes from.
ghost use Rattle.std.specs.Prelude.{◌≡◌, Some};
ghost use Rattle.refusal.specs.Layers.{layer_text};

use std::fmt;

#[derive(Clone, Copy, PartialEq, Eq, Debug)]
pub enum Layer {
    // The words of a line: names and numbers.
    Word,
    // A line and its fields.
    Line,
    // The text that the lines make.
    Text,
    // The marks of a source.
    Marks,
    // The forecast and the plan of a rule.
    Plan,
    // The sheet that a rule is looked for on.
    Sheet,
}

impl Layer {
    // What is printed of the layer.
    pub fn text(self) -> &'static str
        ensures { result.now ≡ layer_text self }
    {
        match self {
            Layer::Word => "word",
            Layer::Line => "line",
            Layer::Text => "text",
            Layer::Marks => "marks",
            Layer::Plan => "plan",
            Layer::Sheet => "sheet",
        }
    }
}

impl fmt::Display for Layer {
    ghost output = { λ x. Some (layer_text x) };

    fn fmt<W: fmt::Write>(&self, f: &mut fmt::Formatter<W>) -> fmt::Result {
        f.write_str(self.text())
    }
}
