// What every chapter keeps. Of an item or a motif in a list only its reading tells that what it holds fits, so all are gone through.
ghost use Rattle.std.specs.Prelude.{map, Some};
ghost use Rattle.std.specs.List.{AllByRecursion};
ghost use Rattle.body.specs.Entries.{entries_of, entry_of};
ghost use Rattle.round_trip.specs.Laws.{LawfulPage, ReadBack};
ghost use Rattle.text.specs.Pages.{motif_entry, page_of};
ghost use Rattle.writing.specs.Bodies.{Lawful, LawfulBody};
ghost use Rattle.writing.specs.Lines.{Codes};
ghost use Rattle.writing.specs.Motifs.{LawfulMotif};

use book::Chapter;
use entry::{Body, Item, Motif};

fn codes_keep(codes: &[u16])
    ensures { Codes codes.now }
{}

fn item_keeps(item: Item)
    ensures { Lawful (entry_of item) }
{
    match item {
        Item::Code(_) => {}
        Item::Any => {}
        Item::Class(class) => codes_keep(class.codes()),
    }
}

fn items_keep(items: &[Item])
    ensures { AllByRecursion Lawful (map entry_of items.now) }
{
    for item in items {
        item_keeps(*item);
    }
}

fn body_keeps(body: Body)
    ensures { LawfulBody (entries_of (Some body)) }
{
    items_keep(body.items());
}

fn motif_keeps(motif: Motif)
    ensures { LawfulMotif (motif_entry motif) }
{
    if let Some(body) = motif.body {
        body_keeps(body);
    }
}

fn motifs_keep(motifs: &[Motif])
    ensures { AllByRecursion LawfulMotif (map motif_entry motifs.now) }
{
    for motif in motifs {
        motif_keeps(*motif);
    }
}

// The page of every chapter is lawful, so that it is read back from the job that it is written as.
pub fn chapter_stands(chapter: &Chapter)
    ensures lawful { LawfulPage (page_of chapter.now) }
    ensures back { ReadBack (page_of chapter.now) }
{
    motifs_keep(chapter.book.motifs());
    codes_keep(chapter.row());
}
