//! A lent table while it grows, one candidate after the other.
ghost use Rattle.std.specs.Prelude.{◌≡◌, [], ◌∷◌, ◌≤◌, ◌<◌, length, get_or, take};
ghost use Rattle.stems.specs.Flags.{Marked};

use crate::{Move, marks, step};
use automata::{Model, Rule};
use bits::members::Set;
use growth::Full;

// A lent table while it grows: its first n elements are the entries, and the flags tell what they cover.
#[derive(Drop)]
pub struct Growing<'a> {
    pub table: &'a mut [u32],
    pub marks: [u8; 512],
    pub room: usize,
    pub n: usize,
    pub largest: bool,
    ghost within: { n ≤ room },
    ghost small: { room ≤ 4096 },
    ghost lent: { room ≤ length table.now },
    ghost marked: { Marked largest (take n table.now) marks },
}

impl Growing<'_> {
    // `grow` is a name of this crate too.
    ghost use Rattle.growth.specs.Grow.{grow as taken};
    ghost use Rattle.automata.specs.Loaded.{aut};
    ghost use Rattle.stems.specs.Stems.{stem_covers, stem_next};
    ghost use Rattle.stems.specs.Candidates.{at_state, at_letter};
    ghost use Rattle.stems.specs.Growing.{held, offered, Kept};

    // A candidate is dropped where it is covered, and else appended and marked where there is room.
    pub fn offer(&mut self, entry: u32) -> Result<(), Full>
        ensures { Kept (offered self.old (entry ∷ [])) self.old self.new result }
    {
        if marks::look(&self.marks, entry) {
            return Ok(());
        }
        if self.n >= self.room {
            return Err(Full);
        }
        self.table[self.n] = entry;
        marks::mark(&mut self.marks, entry, self.largest);
        self.n += 1;
        Ok(())
    }

    // The candidate at state q, where q is a successor.
    pub fn offer_at(&mut self, by: Move, q: u8) -> Result<(), Full>
        requires { (by.letter < 16) × (q < 16) }
        ensures { Kept (offered self.old (at_state by q)) self.old self.new result }
    {
        if by.successors.has(usize::from(q)) {
            let entry = bits::entries::stem_entry(by.target, q, by.letter, by.parent);
            return self.offer(entry);
        }
        Ok(())
    }

    // The candidates by one letter: successor states rising.
    pub fn by_letter(&mut self, by: Move) -> Result<(), Full>
        requires { by.letter < 16 }
        ensures { Kept (offered self.old (at_letter by)) self.old self.new result }
    {
        for q in 0..16 {
            self.offer_at(by, q)?;
        }
        Ok(())
    }

    // The candidates of the entry at index i: letters rising.
    #[tactic(auto, unfolding(crate::specs::Candidates::move_of))]
    pub fn expand(&mut self, model: &Model, rule: &Rule, i: usize) -> Result<(), Full>
        requires { i < self.old.n }
        ensures { Kept (offered self.old (stem_next (aut model.now) (aut rule.now) i (get_or self.old.table.now i 0))) self.old self.new result }
    {
        let entry = self.table[i];
        for x in 0..16 {
            self.by_letter(step(model, rule, i as u16, entry, x))?;
        }
        Ok(())
    }

    // The entries are taken in order, until all have been taken or one that must be appended lacks room. The end moves while they are taken: no `for` has it.
    pub fn take_all(&mut self, model: &Model, rule: &Rule) -> Result<(), Full>
        ensures { Kept (taken (stem_covers self.old.largest) (stem_next (aut model.now) (aut rule.now)) self.old.room self.old.room 0 (held self.old)) self.old self.new result }
    {
        let mut i = 0;
        while i < self.n {
            self.expand(model, rule, i)?;
            i += 1;
        }
        Ok(())
    }
}
