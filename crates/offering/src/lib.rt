//! A period table in the lent tables, and one candidate offered to it: dropped where it is covered, and else appended where there is room.
#![tactic(auto)]

ghost use Rattle.std.specs.Prelude.{◌≡◌, [], ◌∷◌, ◌≤◌, length};
ghost use Rattle.growth.specs.Grow.{append, offer};
ghost use Rattle.automata.specs.Loaded.{of_pairs};
ghost use Rattle.covering.specs.Masks.{covers};
ghost use Rattle.covering.specs.Chained.{Cleared};
ghost use Rattle.bits.specs.Fields.{link_state};
ghost use Rattle.offering.specs.Growing.{entries_of, Roomy, Ready, Grows, Appends};

use automata::Context;
use bits::entries;
use growth::Full;

// A period table that grows: its first n entries stand in the lent tables, which have room for so many, and `chains` has the chains of these. What covers what
// is compared on the pairs `rows`.
#[derive(Drop)]
pub struct Table<'a> {
    pub links: &'a mut [u32],
    pub contexts: &'a mut [u64],
    pub chains: &'a mut [u16],
    pub room: usize,
    pub rows: u64,
    pub n: usize,
}

impl<'a> Table<'a> {
    // No entry, and its chains: only their sixteen beginnings are set back.
    pub fn new(
        links: &'a mut [u32],
        contexts: &'a mut [u64],
        chains: &'a mut [u16],
        room: usize,
        rows: u64,
    ) -> Table<'a>
        requires { 16 ≤ length chains.old }
        ensures lent { (result.links.ghost_name ≡ links.entry.ghost_name) × (result.contexts.ghost_name ≡ contexts.entry.ghost_name) × (result.chains.ghost_name ≡ chains.entry.ghost_name) }
        ensures left { (result.links.now ≡ links.old) × (result.contexts.now ≡ contexts.old) × (length result.chains.now ≡ length chains.old) }
        ensures cleared { Cleared result.chains.now }
        ensures none { (result.room ≡ room) × (result.rows ≡ rows) × (result.n ≡ 0) }
    {
        chains[..16].fill(0);
        Table {
            links,
            contexts,
            chains,
            room,
            rows,
            n: 0,
        }
    }

    // An entry more, if there is room: its link, its context's two numbers, and its place at the front of its state's chain.
    fn append(&mut self, link: u32, c: Context<u64>) -> Result<(), Full>
        requires { Roomy self.old }
        ensures { Appends (append self.old.room (entries_of self.old) (record { link = link; context = of_pairs c })) result (link_state link) self.old self.new }
    {
        if self.n >= self.room {
            return Err(Full);
        }
        let state = usize::from(entries::link_state(link));
        self.links[self.n] = link;
        self.contexts[2 * self.n] = c.reach;
        self.contexts[2 * self.n + 1] = c.through;
        self.chains[16 + self.n] = self.chains[state];
        self.n += 1;
        self.chains[state] = self.n as u16;
        Ok(())
    }

    // The candidate is dropped where it is covered, and else appended.
    pub fn offer(&mut self, link: u32, c: Context<u64>) -> Result<(), Full>
        requires { Ready self.old }
        ensures { Grows (offer (covers self.old.rows) self.old.room (entries_of self.old) (record { link = link; context = of_pairs c } ∷ [])) result self.old self.new }
    {
        let n = self.n;
        let rows = self.rows;
        // Each is lent by itself, since the chains are written meanwhile.
        let links = &mut *self.links;
        let contexts = &mut *self.contexts;
        if covering::covered(links, contexts, self.chains, n, link, c, rows) {
            return Ok(());
        }
        self.append(link, c)
    }
}
