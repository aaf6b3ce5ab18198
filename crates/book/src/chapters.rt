// A chapter, and what is added to it.
ghost use Rattle.std.specs.Prelude.{◌≡◌, ◌+◌, ◌≤◌, [], ◌∷◌, ◌++◌, length, is_ok, IfOk, if◌then◌else◌, vec_len, vec_capacity, OnErr};
ghost use Rattle.book.specs.Adding.{boxes_fault, mark_fault, marks_of, motif_fault, motifs_in, row_of, rule_add_fault, rules_in};
ghost use Rattle.refusal.specs.Checks.{refused_by};

use crate::values::book::Book;
use crate::values::chapter::Chapter;
use entry::{Mark, Motif, Rule};
use refusal::Refusal;
use std::alloc::{AllocError, Global};

// Appends codes for which there is room already, so that it can't want memory.
fn append(row: &mut Vec<u16>, codes: &[u16])
    requires { vec_len row.old + length codes.now ≤ vec_capacity row.old }
    ensures items { row.new.items ≡ row.old.items ++ codes.now }
    ensures len { vec_len row.new ≡ vec_len row.old + length codes.now }
    ensures capacity { vec_capacity row.old ≤ vec_capacity row.new }
{
    row.extend_from_slice(codes).unwrap();
}

impl Chapter {
    // An empty chapter over an empty book, with room for all that they may come to hold.
    pub fn new(heap: Global) -> Result<Chapter, AllocError>
        ensures book { IfOk result (λ c. (motifs_in c.book ≡ []) × (rules_in c.book ≡ [])) }
        ensures empty { IfOk result (λ c. (row_of c ≡ []) × (marks_of c ≡ [])) }
    {
        let book = Book::new(heap)?;
        let row = Vec::with_capacity(heap, 20_000)?;
        let marks = Vec::with_capacity(heap, 4_000)?;
        Ok(Chapter { book, row, marks })
    }

    // The codes of the boxes, at most 20,000.
    pub fn row(&self) -> &[u16]
        ensures value { result.now ≡ row_of self.now }
        ensures bound { length result.now ≤ 20000 }
    {
        self.row.as_slice()
    }

    // The marks in the order in which they were added.
    pub fn marks(&self) -> &[Mark]
        ensures { result.now ≡ marks_of self.now }
    {
        self.marks.as_slice()
    }

    pub fn add_motif(&mut self, motif: Motif) -> Result<(), Refusal>
        ensures refused { refused_by result ≡ motif_fault self.old.book motif }
        ensures motifs { motifs_in self.new.book ≡ (if is_ok result then motifs_in self.old.book ++ motif ∷ [] else motifs_in self.old.book) }
        ensures rules { rules_in self.new.book ≡ rules_in self.old.book }
        ensures rest { (self.new.row ≡ self.old.row) × (self.new.marks ≡ self.old.marks) }
        ensures same { OnErr result (self.new.book ≡ self.old.book) }
    {
        self.book.add_motif(motif)
    }

    pub fn add_rule(&mut self, rule: Rule) -> Result<(), Refusal>
        ensures refused { refused_by result ≡ rule_add_fault self.old.book rule }
        ensures rules { rules_in self.new.book ≡ (if is_ok result then rules_in self.old.book ++ rule ∷ [] else rules_in self.old.book) }
        ensures motifs { motifs_in self.new.book ≡ motifs_in self.old.book }
        ensures rest { (self.new.row ≡ self.old.row) × (self.new.marks ≡ self.old.marks) }
        ensures same { OnErr result (self.new.book ≡ self.old.book) }
    {
        self.book.add_rule(rule)
    }

    // Appends the codes to the row, all of them or none.
    pub fn add_boxes(&mut self, codes: &[u16]) -> Result<(), Refusal>
        ensures refused { refused_by result ≡ boxes_fault self.old codes.now }
        ensures row { row_of self.new ≡ (if is_ok result then row_of self.old ++ codes.now else row_of self.old) }
        ensures rest { (self.new.book ≡ self.old.book) × (self.new.marks ≡ self.old.marks) }
        ensures same { OnErr result (self.new.row ≡ self.old.row) }
    {
        if codes.is_empty() {
            return Err(Refusal::BadShape);
        }
        if codes.len() > 20_000 - self.row.len() {
            return Err(Refusal::NoRoom);
        }
        append(&mut self.row, codes);
        Ok(())
    }

    // Appends a mark; its start may lie behind its end.
    pub fn add_mark(&mut self, mark: Mark) -> Result<(), Refusal>
        ensures refused { refused_by result ≡ mark_fault self.old mark }
        ensures marks { marks_of self.new ≡ (if is_ok result then marks_of self.old ++ mark ∷ [] else marks_of self.old) }
        ensures rest { (self.new.book ≡ self.old.book) × (self.new.row ≡ self.old.row) }
        ensures same { OnErr result (self.new.marks ≡ self.old.marks) }
    {
        if mark.start > 20_000 || mark.end > 20_000 {
            return Err(Refusal::BadNumber);
        }
        if mark.motif >= self.book.motifs().len() {
            return Err(Refusal::UnknownMotif);
        }
        if self.marks.len() >= 4_000 {
            return Err(Refusal::NoRoom);
        }
        self.marks.push_reserved(mark);
        Ok(())
    }
}
