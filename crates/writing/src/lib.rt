// How the numbers and lines of a job are written, and that the reader takes them back.
#![tactic(auto)]

ghost use Rattle.writing.specs.Bodies.{Bodies};
ghost use Rattle.writing.specs.Breaks.{Breaks};
ghost use Rattle.writing.specs.Laws.{Numerals};
ghost use Rattle.writing.specs.Lines.{Lines};
ghost use Rattle.writing.specs.Motifs.{Motifs};
ghost use Rattle.writing.specs.Nets.{Nets};
ghost use Rattle.writing.specs.Rules.{Rules};

// A number that keeps its limits is read back from its word.
pub fn numerals_stand()
    ensures { Numerals }
{}

// Lines of boxes and of marks are read back, and taken where there is room.
pub fn lines_stand()
    ensures { Lines }
{}

// A written body has sound numbers and its shape, and is read back.
pub fn bodies_stand()
    ensures { Bodies }
{}

// A line of a motif is read back, and taken where its name is free and there is room.
pub fn motifs_stand()
    ensures { Motifs }
{}

// No written line has a byte 10, so that lines are parted as they were ended.
pub fn breaks_stand()
    ensures { Breaks }
{}

// The numbers and names of a written net are sound, and it has its shape.
pub fn nets_stand()
    ensures { Nets }
{}

// A written net is read back; a line of a rule has no byte 10, is read back, and is taken where its motifs are known, its name is free and there is room.
pub fn rules_stand()
    ensures { Rules }
{}
