//! The words of one rung, before they are judged.
//!
//! The two emitters write the text of a series and the text of a branch group, each through the other.
ghost use Rattle.std.specs.Prelude.{◌≡◌, ◌≤◌, [], ◌∷◌, length};
ghost use Rattle.rows.specs.Rows.{parts_of};
ghost use Rattle.wiring.specs.Circuit.{circuit, link_at};
ghost use Rattle.elimination.specs.Trees.{tree_at};
ghost use Rattle.instructions.specs.Words.{word_of};
ghost use Rattle.translation.specs.Spelling.{rung_words};
ghost use Rattle.translation.specs.Drafts.{Room, Adds, bracketed, ReadsAt, series_at, branches_at, coils_at};

use super::spelling::{and, coil, load, or};
use arrayvec::ArrayVec;
use elimination::{Node, Table};
use instructions::Instruction;
use wiring::{Contact, Rung};

/// Where a part stands in its group.
#[derive(Clone, Copy)]
enum Place {
    First,
    Later,
}

/// What a rung is drafted from, and the words drafted so far.
///
/// Room is asked of each method that writes: a field could bound the words that stand, and not those to come.
#[derive(Drop)]
struct Emitter<'a> {
    rung: &'a Rung,
    /// Holds the rung's wiring.
    table: &'a Table,
    /// Room for the words of any rung: 64 links read as 190 words at most, and 8 coils follow.
    draft: ArrayVec<u16, 200>,
}

/// The words of a rung: the text of its wiring, and then its coils.
pub(crate) fn draft_of(rung: &Rung, table: &Table, root: u8) -> ArrayVec<u16, 200>
    requires { length (rung_words (circuit rung.now) (tree_at (parts_of table.now.nodes) root)) ≤ 200 }
    ensures { result.items ≡ rung_words (circuit rung.now) (tree_at (parts_of table.now.nodes) root) }
{
    let mut emitter = Emitter {
        rung,
        table,
        draft: ArrayVec::new(),
    };
    emitter.series(root, Place::First);
    emitter.coils();
    emitter.draft
}

impl Emitter<'_> {
    fn push(&mut self, instruction: Instruction)
        requires { Room self.old (word_of instruction ∷ []) }
        ensures { Adds self.old (word_of instruction ∷ []) self.new }
    {
        self.draft.push(u16::from(instruction));
    }

    /// Writes a bracket, which only a later part has.
    fn bracket(&mut self, place: Place, instruction: Instruction)
        requires { Room self.old (bracketed place instruction) }
        ensures { Adds self.old (bracketed place instruction) self.new }
    {
        match place {
            Place::First => (),
            Place::Later => self.push(instruction),
        }
    }

    /// Writes the coils in their order.
    fn coils(&mut self)
        requires { Room self.old (coils_at self.old) }
        ensures { Adds self.old (coils_at self.old) self.new }
    {
        for each in self.rung.coils.iter() {
            self.push(coil(*each));
        }
    }

    /// The contact of a link by its number; there is none past the last, and that reads as a wire.
    fn contact(&self, link: u8) -> Contact
        ensures { result ≡ (link_at (circuit self.now.rung.now) link).contact }
    {
        self.rung
            .links
            .get(link as usize)
            .map_or(Contact::Wire, |link| link.contact)
    }

    /// How a link reads: first as a load, and later as its group takes it.
    fn reading<F: FnOnce(Contact) -> Instruction>(
        &self,
        link: u8,
        place: Place,
        later: F,
    ) -> Instruction
        requires { F.IsAlwaysCallable later }
        ensures { ReadsAt place (F.post later) (link_at (circuit self.now.rung.now) link).contact result }
    {
        let contact = self.contact(link);
        match place {
            Place::First => load(contact),
            Place::Later => later(contact),
        }
    }

    // Two and not one, by the project's rule: the text of a series and that of a branch group are each written through the other.
    /// Writes the text of a part of a series: a branch group that is a later part stands in brackets.
    #[cycle(series_and_branches)]
    fn series(&mut self, at: u8, place: Place)
        requires { Room self.old (series_at self.old place at) }
        ensures { Adds self.old (series_at self.old place at) self.new }
    {
        match self.table.node(at) {
            Node::Link(link) => self.push(self.reading(link, place, and)),
            Node::Series(first, second) => {
                self.series(first, place);
                self.series(second, Place::Later);
            }
            Node::Parallel(first, second) => {
                self.bracket(place, Instruction::AndOpen);
                self.branches(first, Place::First);
                self.branches(second, Place::Later);
                self.bracket(place, Instruction::Close);
            }
        }
    }

    /// Writes the text of a part of a branch group: a series that is a later part stands in brackets.
    #[cycle(series_and_branches)]
    fn branches(&mut self, at: u8, place: Place)
        requires { Room self.old (branches_at self.old place at) }
        ensures { Adds self.old (branches_at self.old place at) self.new }
    {
        match self.table.node(at) {
            Node::Link(link) => self.push(self.reading(link, place, or)),
            Node::Parallel(first, second) => {
                self.branches(first, place);
                self.branches(second, Place::Later);
            }
            Node::Series(first, second) => {
                self.bracket(place, Instruction::OrOpen);
                self.series(first, Place::First);
                self.series(second, Place::Later);
                self.bracket(place, Instruction::Close);
            }
        }
    }
}
