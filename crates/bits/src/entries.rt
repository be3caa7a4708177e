//! The fields of a stem entry and of a period link, as document 01 lays them out.
ghost use Rattle.std.specs.Prelude.{◌≡◌, ◌/◌, ◌%◌, ◌^◌, ◌<◌, ◌≤◌};
ghost use Rattle.bits.specs.Fields.{stem_entry, stem_target, stem_state, stem_letter, stem_parent};
ghost use Rattle.bits.specs.Fields.{period_link, link_state, link_letter, link_parent};

// The four bits of e from a place on: shifted down, and the rest masked away.
fn nibble(e: u32, place: u32) -> u8
    requires { place ≤ 28 }
    ensures { result ≡ e / 2 ^ place % 16 }
{
    ((e >> place) & 0xf) as u8
}

// A stem entry of its fields: each stands above the widths of those before it, so that no two share a bit and `|` adds.
pub fn stem_entry(target: u8, state: u8, letter: u8, parent: u16) -> u32
    requires state_bound { state < 16 }
    requires letter_bound { letter < 16 }
    ensures { result ≡ stem_entry target state letter parent }
{
    ((parent as u32) << 16) | (((letter as u32) << 12) | (((state as u32) << 8) | (target as u32)))
}

// The set of B states of a stem entry, its lowest 8 bits.
pub fn stem_target(entry: u32) -> u8
    ensures { result ≡ stem_target entry }
{
    (entry & 0xff) as u8
}

// The A state of a stem entry, the 4 bits above the target.
pub fn stem_state(entry: u32) -> u8
    ensures { result ≡ stem_state entry }
{
    nibble(entry, 8)
}

// The letter of a stem entry, the 4 bits above the state.
pub fn stem_letter(entry: u32) -> u8
    ensures { result ≡ stem_letter entry }
{
    nibble(entry, 12)
}

// The place of a stem entry's parent, the 12 bits above the letter: a table has at most 4,096 entries.
pub fn stem_parent(entry: u32) -> u16
    ensures { result ≡ stem_parent entry }
{
    ((entry >> 16) & 0xfff) as u16
}

// A period link of its fields, apart as those of a stem entry; bits 8 to 15 are clear.
pub fn period_link(state: u8, letter: u8, parent: u16) -> u32
    requires state_bound { state < 16 }
    requires letter_bound { letter < 16 }
    ensures { result ≡ period_link state letter parent }
{
    ((parent as u32) << 16) | (((letter as u32) << 4) | (state as u32))
}

// The A state of a period link, its lowest 4 bits.
pub fn link_state(link: u32) -> u8
    ensures { result ≡ link_state link }
{
    nibble(link, 0)
}

// The letter of a period link, the 4 bits above the state.
pub fn link_letter(link: u32) -> u8
    ensures { result ≡ link_letter link }
{
    nibble(link, 4)
}

// The place of a period link's parent, its highest 16 bits.
pub fn link_parent(link: u32) -> u16
    ensures { result ≡ link_parent link }
{
    (link >> 16) as u16
}
